// Exceptions that are thrown.

ghost use Rattle.jm_world.specs.Next.{throw};
ghost use Rattle.jm_linked.specs.Links.{class_name_of};
ghost use Rattle.jm_interp.specs.At.{OnFrames, InMethod, Does, made_step, MakesIn};

use crate::at::At;
use jm_heap::{Heap, Shape};
use jm_state::{Halt, State, StepEnd, make_object};

/// Makes an exception of a class, by its number, and leaves it pending (JVMS 2.10), in the place of
/// one that may be; the frames stay. The machine stops where the object cannot be made, and nothing
/// has changed then, nor where a growth was refused.
#[cold]
pub(crate) fn leave_pending<H: Heap>(
    at: At<'_>,
    state: &mut State<H>,
    class: u32,
) -> Result<(), Halt>
    requires { OnFrames H.content at state.old }
    ensures does { Does H.content at.entry state.old (made_step result) state.new
        (λ w number t. throw w number t (class_name_of at.entry.linked.now.program class)) }
    ensures nursery { MakesIn H.content H.nursery_of at.entry state.old state.new }
{
    let shape = Shape::Instance { class, fields: &[] };
    match make_object(at.alloc, at.linked, state, at.nursery, shape) {
        Ok(place) => {
            state.threads[at.index].pending = Some(place);
            Ok(())
        }
        Err(halt) => Err(halt),
    }
}

/// A step that throws: an exception of a class is left pending.
#[cold]
pub(crate) fn throw<H: Heap>(at: At<'_>, state: &mut State<H>, class: u32) -> Result<StepEnd, Halt>
    requires { OnFrames H.content at state.old }
    ensures does { Does H.content at.entry state.old result state.new (λ w number t. throw w number t (class_name_of at.entry.linked.now.program class)) }
    ensures nursery { MakesIn H.content H.nursery_of at.entry state.old state.new }
{
    match leave_pending(at, state, class) {
        Ok(()) => Ok(StepEnd::Done),
        Err(halt) => Err(halt),
    }
}

/// Throws in the top frame, a method's: an exception of a class is left pending.
#[cold]
pub(crate) fn throws<H: Heap>(at: At<'_>, state: &mut State<H>, class: u32) -> Result<StepEnd, Halt>
    requires { InMethod H.content at state.old }
    ensures does { Does H.content at.entry state.old result state.new (λ w number t. throw w number t (class_name_of at.entry.linked.now.program class)) }
    ensures nursery { MakesIn H.content H.nursery_of at.entry state.old state.new }
{
    throw(at, state, class)
}

// `athrow` (JVMS 6.5).

ghost use Rattle.jm_linked.specs.Links.{Links};
ghost use Rattle.jm_linked.specs.declared.instruction.LinkedInstr.TheVariants as linked_instr;
ghost use Rattle.jm_interp.specs.At.{StandsOn, Steps, MakesIn};
ghost use Rattle.jm_interp.specs.Athrow.{ComesToThrow};

use crate::at::At;
use crate::object_kind::{is_known, is_of};
use crate::top_object::{Refusal, object_at, refuse};
use jm_builtins::BuiltInClass;
use jm_heap::Heap;
use jm_state::{Halt, State, StepEnd};
use jm_values::{Place, TagFault};

// The Throwable on top; the operands stay. Null throws NullPointerException. WrongKind: the object is
// no Throwable. OutOfMemory: no class has its number, as every object's has.
fn throwable_on_top<H: Heap>(at: At<'_>, state: &State<H>) -> Result<Place, Refusal>
    requires { StandsOn H.content at state.now (Links at.linked.now linked_instr.Throw) }
    ensures { ComesToThrow H.content at.entry state.now result }
{
    let place = object_at(&state.threads[at.index], 0)?;
    let thrown = state.heap.class_of(place);
    if !is_known(at.linked, thrown) {
        return Err(Refusal::OutOfMemory);
    }
    if !is_of(at.linked, thrown, BuiltInClass::Throwable.number()) {
        return Err(Refusal::Faults(TagFault::WrongKind));
    }
    Ok(place)
}

/// Makes `athrow` (JVMS 6.5): the Throwable on top becomes the pending exception, and the frame stays
/// as it is. Null throws NullPointerException. Stopped with WrongKind: the object on top is no
/// Throwable; nothing has changed then, nor where a growth was refused.
#[inline(never)]
pub(crate) fn throw_top<H: Heap>(at: At<'_>, state: &mut State<H>) -> Result<StepEnd, Halt>
    requires { StandsOn H.content at state.old (Links at.linked.now linked_instr.Throw) }
    ensures steps { Steps H.content at.entry state.old result state.new }
    ensures nursery { MakesIn H.content H.nursery_of at.entry state.old state.new }
{
    match throwable_on_top(at, state) {
        Ok(place) => {
            state.threads[at.index].pending = Some(place);
            Ok(StepEnd::Done)
        }
        Err(refusal) => refuse(at, state, refusal),
    }
}

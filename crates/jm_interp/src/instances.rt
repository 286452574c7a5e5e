// New instances of classes.

ghost use Rattle.jm_linked.specs.Links.{Links};
ghost use Rattle.jm_linked.specs.declared.instruction.LinkedInstr.TheVariants as linked_instr;
ghost use Rattle.jm_interp.specs.At.{StandsOn, Steps, MakesIn};
ghost use Rattle.jm_interp.specs.Creating.{IsUsable};

use crate::at::At;
use crate::readiness::{begin_initialization, is_ready};
use crate::top_frame::top_method;
use crate::top_object::{Refusal, make_on_top, refuse};
use jm_heap::{Heap, Shape};
use jm_state::{Halt, State, StepEnd};
use jm_values::TagFault;

// Makes a new instance of a class that can be used, each of whose fields has its default value, and
// pushes it (JVMS 2.3, 2.4, 6.5 new). `Overflow`: `max_stack` has no room for it.
fn new_instance<H: Heap>(at: At<'_>, state: &mut State<H>, class: u32) -> Result<StepEnd, Halt>
    requires instruction { StandsOn H.content at state.old (Links at.linked.now (linked_instr.New class)) }
    requires usable { IsUsable H.content at state.old class }
    ensures steps { Steps H.content at.entry state.old result state.new }
    ensures nursery { MakesIn H.content H.nursery_of at.entry state.old state.new }
{
    let Some(fields) = at.linked.tables().kinds.kinds(class) else {
        unreachable!();
    };
    if !top_method(&state.threads[at.index]).has_room(1) {
        return refuse(at, state, Refusal::Faults(TagFault::Overflow));
    }
    make_on_top(at, state, 0, Shape::Instance { class, fields })
}

/// Makes `new` (JVMS 6.5): the class is initialized first, and then the instruction is made again.
/// The machine stops where the object cannot be made, and nothing has changed then, nor where a growth
/// was refused.
#[inline(never)]
pub(crate) fn new_object<H: Heap>(
    at: At<'_>,
    state: &mut State<H>,
    class: u32,
) -> Result<StepEnd, Halt>
    requires { StandsOn H.content at state.old (Links at.linked.now (linked_instr.New class)) }
    ensures steps { Steps H.content at.entry state.old result state.new }
    ensures nursery { MakesIn H.content H.nursery_of at.entry state.old state.new }
{
    if !is_ready(at, state, class) {
        return begin_initialization(at, state, class);
    }
    new_instance(at, state, class)
}

// Calls of instance methods that have code.

ghost use Rattle.std.specs.Prelude.{Some, List};
ghost use Rattle.jm_program.specs.declared.descriptor.FieldType.{FieldType};
ghost use Rattle.jm_world.specs.Classes.{FoundMethod};
ghost use Rattle.jm_interp.specs.At.{Steps, MakesIn};
ghost use Rattle.jm_interp.specs.Invoking.{IsCoded, IsInstanceMethod, StepCalls};

use crate::at::At;
use crate::calls::call;
use crate::invocation::{monitor_of, parameters_of};
use jm_heap::Heap;
use jm_state::{Halt, State, StepEnd};
use jm_values::Place;

/// Calls an instance method by its number among those with code: the receiver and the arguments, on
/// top, become its first local variables (JVMS 2.6.1). With 512 frames StackOverflowError is thrown
/// instead (JVMS 2.5.2). A synchronized method enters the receiver's monitor. OutOfMemory: a growth was
/// refused, and nothing has changed.
pub(crate) fn call_code<H: Heap>(
    at: At<'_>,
    state: &mut State<H>,
    number: u32,
    receiver: Place,
) -> Result<StepEnd, Halt>
    requires { (found : FoundMethod) × (parameters : List FieldType) × StepCalls H.content at state.old (Some found) receiver parameters
        × IsInstanceMethod at.linked.now found parameters × IsCoded at.linked.now number found }
    ensures steps { Steps H.content at.entry state.old result state.new }
    ensures nursery { MakesIn H.content H.nursery_of at.entry state.old state.new }
{
    let Some(parameters) = parameters_of(at.linked, number) else {
        return Err(Halt::OutOfMemory);
    };
    let monitor = monitor_of(at.linked, number, receiver);
    call(at, state, number, parameters.len() + 1, monitor)
}

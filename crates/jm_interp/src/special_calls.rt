// Invokes of constructors, private methods and methods of a superclass (JVMS 6.5 invokespecial).

ghost use Rattle.jm_linked.specs.declared.instruction.LinkedInstr.TheVariants as linked_instr;
ghost use Rattle.jm_interp.specs.At.{Fetched, Steps, MakesIn};
ghost use Rattle.jm_interp.specs.Invoking.{CallsDeclared};

use crate::at::At;
use crate::codeless_calls::call_without_code;
use crate::declared::declared_method;
use crate::instance_calls::call_code;
use crate::invocation::invoked_code;
use crate::receivers::receiver_of;
use crate::top_object::{Refusal, refuse};
use jm_builtins::BuiltInClass;
use jm_heap::Heap;
use jm_linked::InvokedMethod;
use jm_state::{Halt, State, StepEnd};
use jm_values::{Place, TagFault};

// Calls an instance method. OutOfMemory: the class
// declares none of that number, or it has code and no number among those with code, as all have.
fn call_declared<H: Heap>(
    at: At<'_>,
    state: &mut State<H>,
    method: InvokedMethod,
    receiver: Place,
) -> Result<StepEnd, Halt>
    requires { CallsDeclared H.content at state.old method.found receiver }
    ensures steps { Steps H.content at.entry state.old result state.new }
    ensures nursery { MakesIn H.content H.nursery_of at.entry state.old state.new }
{
    let Some(declared) = declared_method(at.linked, method.found) else {
        return Err(Halt::OutOfMemory);
    };
    match &declared.code {
        None => call_without_code(at, state, method.found, receiver),
        Some(_) => match invoked_code(at.linked, method) {
            Some(number) => call_code(at, state, number, receiver),
            None => Err(Halt::OutOfMemory),
        },
    }
}

/// Makes `invokespecial` of the method that it calls from the current class (JVMS 6.5), which was found
/// when the program was linked. A receiver that is not of the named class is of a wrong kind, and null
/// throws NullPointerException. OutOfMemory: a growth was refused, and nothing has changed.
#[inline(never)]
pub(crate) fn invoke_special<H: Heap>(
    at: At<'_>,
    state: &mut State<H>,
    method: InvokedMethod,
) -> Result<StepEnd, Halt>
    requires { Fetched H.content at state.old (linked_instr.Special method) }
    ensures steps { Steps H.content at.entry state.old result state.new }
    ensures nursery { MakesIn H.content H.nursery_of at.entry state.old state.new }
{
    match receiver_of(at, state, method, Refusal::Faults(TagFault::WrongKind)) {
        Ok(receiver) => call_declared(at, state, method, receiver),
        Err(refusal) => refuse(at, state, refusal),
    }
}

/// Makes one that finds no method: the same, but AbstractMethodError in the place of the call.
#[inline(never)]
pub(crate) fn refuse_special<H: Heap>(
    at: At<'_>,
    state: &mut State<H>,
    method: InvokedMethod,
) -> Result<StepEnd, Halt>
    requires { Fetched H.content at state.old (linked_instr.NoSpecial method) }
    ensures steps { Steps H.content at.entry state.old result state.new }
    ensures nursery { MakesIn H.content H.nursery_of at.entry state.old state.new }
{
    let refusal = match receiver_of(at, state, method, Refusal::Faults(TagFault::WrongKind)) {
        Ok(_) => Refusal::Throws(BuiltInClass::AbstractMethodError),
        Err(refusal) => refusal,
    };
    refuse(at, state, refusal)
}

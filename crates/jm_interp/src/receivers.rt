// Receivers of calls of instance methods (JVMS 6.5 invokevirtual, invokespecial, invokeinterface).

ghost use Rattle.std.specs.Prelude.{◌≡◌, IfOk, [], Ok, map, reverse, length, drop};
ghost use Rattle.jm_state.specs.Arguments.{on_top, popped};
ghost use Rattle.jm_world.specs.Types.{operand_of};
ghost use Rattle.jm_interp.specs.At.{StandsOn};
ghost use Rattle.jm_interp.specs.Invoking.{Finds, Invokes, ReceiverGives, receiver_below};
ghost use Rattle.jm_interp.specs.Standing.{RunsMethod, InAnyMethod};

use crate::at::At;
use crate::declared::declared_method;
use crate::top_frame::top_method;
use crate::top_object::{Refusal, object_at};
use crate::type_checks::is_instance;
use jm_heap::Heap;
use jm_linked::{InvokedMethod, LinkedElement, LinkedType};
use jm_program::FieldType;
use jm_state::{State, Thread, test_parameters};
use jm_values::Place;

// The object below operands on top that are arguments of these types, which are tested first; the
// operands stay. Null throws NullPointerException. `Underflow`: there are fewer operands; `WrongTag`:
// one is of another type.
fn receiver_below(thread: &Thread, parameters: &[FieldType]) -> Result<Place, Refusal>
    requires { RunsMethod thread.now }
    ensures value { InAnyMethod thread.now (λ f below r. result ≡ receiver_below parameters.now f.activation.stack) }
    ensures arguments { InAnyMethod thread.now (λ f below r. IfOk result (λ receiver. popped (map operand_of (reverse parameters.now)) [] f.activation.stack
        ≡ Ok (on_top (length parameters.now) f.activation.stack, drop (length parameters.now) f.activation.stack))) }
{
    match test_parameters(top_method(thread), parameters) {
        Ok(()) => object_at(thread, parameters.len()),
        Err(fault) => Err(Refusal::Faults(fault)),
    }
}

/// The receiver of an invoke, an object of the class that it names; the operands stay. One of another
/// class is refused as the instruction says, and null throws NullPointerException. OutOfMemory: no
/// class has the object's number, or the class that declares the method has none of its number, as
/// all have.
pub(crate) fn receiver_of<H: Heap>(
    at: At<'_>,
    state: &State<H>,
    method: InvokedMethod,
    otherwise: Refusal,
) -> Result<Place, Refusal>
    requires { (find : Finds) × StandsOn H.content at state.now (Invokes at.linked.now method otherwise find) }
    ensures { (find : Finds) (on : StandsOn H.content at.entry state.now (Invokes at.entry.linked.now method otherwise find))
        → ReceiverGives H.content at.entry state.now on.method find on.is.links.method.descriptor.parameters result }
{
    let Some(declared) = declared_method(at.linked, method.found) else {
        return Err(Refusal::OutOfMemory);
    };
    let parameters = declared.descriptor.parameters.as_slice();
    let receiver = receiver_below(&state.threads[at.index], parameters)?;
    let named = LinkedType {
        dimensions: 0,
        element: LinkedElement::Class(method.named),
    };
    match is_instance(at.linked, state.heap.class_of(receiver), named) {
        Some(true) => Ok(receiver),
        Some(false) => Err(otherwise),
        None => Err(Refusal::OutOfMemory),
    }
}

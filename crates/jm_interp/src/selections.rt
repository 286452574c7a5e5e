// Invokes that select a method by the class of the receiver (JVMS 6.5 invokevirtual, invokeinterface).

ghost use Rattle.std.specs.Prelude.{◌≡◌, List};
ghost use Rattle.jm_program.specs.declared.class.ClassParts.{ClassParts};
ghost use Rattle.jm_world.specs.Invocation.{class_of};
ghost use Rattle.jm_linked.specs.Links.{class_name_of};
ghost use Rattle.jm_state.specs.Parts.{named_type};
ghost use Rattle.jm_interp.specs.At.{StandsOn, Steps, MakesIn};
ghost use Rattle.jm_interp.specs.Invoking.{CallsSelected, Selects};

use crate::at::At;
use crate::class_number::is_numbered;
use crate::codeless_calls::call_without_code;
use crate::declared::member_of;
use crate::instance_calls::call_code;
use crate::receivers::receiver_of;
use crate::top_object::{Refusal, refuse};
use jm_builtins::BuiltInClass;
use jm_heap::{ClassId, Heap};
use jm_linked::{InvokedMethod, Selected};
use jm_state::{Halt, State, StepEnd};
use jm_values::Place;

/// The class in which a method is searched for an object of a mark: an array has Object's.
pub(crate) fn class_of(id: ClassId) -> u32
    ensures { (program : List ClassParts) → class_name_of program result ≡ class_of (named_type program id) }
{
    match id {
        ClassId::Instance(class) => class,
        ClassId::Array(_) => BuiltInClass::Object.number(),
    }
}

// Calls what was selected for the receiver: nothing throws AbstractMethodError.
fn call_selected<H: Heap>(
    at: At<'_>,
    state: &mut State<H>,
    selected: Selected,
    receiver: Place,
) -> Result<StepEnd, Halt>
    requires { CallsSelected H.content at state.old selected receiver }
    ensures steps { Steps H.content at.entry state.old result state.new }
    ensures nursery { MakesIn H.content H.nursery_of at.entry state.old state.new }
{
    match selected {
        Selected::Nothing => refuse(
            at,
            state,
            Refusal::Throws(BuiltInClass::AbstractMethodError),
        ),
        Selected::WithoutCode(number) => match member_of(at.linked, number) {
            Some(method) => call_without_code(at, state, method, receiver),
            None => Err(Halt::OutOfMemory),
        },
        Selected::Coded(number) => call_code(at, state, number, receiver),
    }
}

/// Makes `invokevirtual` and `invokeinterface` (JVMS 6.5), but for the methods of a print stream: the
/// first method from the receiver's class up of that name and type that is neither static nor private
/// is called. `otherwise` is what refuses a receiver that is not of the named class: a wrong kind, or
/// IncompatibleClassChangeError. OutOfMemory: a growth was refused, and nothing has changed.
#[inline(never)]
pub(crate) fn invoke_selected<H: Heap>(
    at: At<'_>,
    state: &mut State<H>,
    method: InvokedMethod,
    otherwise: Refusal,
) -> Result<StepEnd, Halt>
    requires { StandsOn H.content at state.old (Selects at.linked.now method otherwise) }
    ensures steps { Steps H.content at.entry state.old result state.new }
    ensures nursery { MakesIn H.content H.nursery_of at.entry state.old state.new }
{
    let receiver = match receiver_of(at, state, method, otherwise) {
        Ok(receiver) => receiver,
        Err(refusal) => return refuse(at, state, refusal),
    };
    let class = class_of(state.heap.class_of(receiver));
    if !is_numbered(at.linked, class) {
        return Err(Halt::OutOfMemory);
    }
    let selected = at.linked.select(class, method.selector);
    call_selected(at, state, selected, receiver)
}

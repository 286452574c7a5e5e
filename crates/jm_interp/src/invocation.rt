// Invocations of methods.

ghost use Rattle.std.specs.Prelude.{◌≡◌, IfSome, List};
ghost use Rattle.jm_program.specs.declared.descriptor.FieldType.{FieldType as DeclaredType};
ghost use Rattle.jm_world.specs.Invocation.{monitor_of};
ghost use Rattle.jm_world.specs.Classes.{FoundMethod};
ghost use Rattle.jm_program.specs.declared.instruction.operation.InvokeOp.TheVariants as invoke_op;
ghost use Rattle.jm_linked.specs.Links.{IsMethodOf, Links};
ghost use Rattle.jm_linked.specs.declared.instruction.LinkedInstr.TheVariants as linked_instr;
ghost use Rattle.jm_interp.specs.At.{InMethod, StandsOn, Does, Steps, in_method, MakesIn};
ghost use Rattle.jm_interp.specs.Calls.{IsCodeOf, HasParameters, calls_static};

use crate::at::At;
use crate::calls::call;
use crate::readiness::{begin_initialization, is_ready};
use crate::top_frame::top_method;
use jm_heap::Heap;
use jm_linked::{InvokedMethod, Linked, LinkedMethod, MemberNumber};
use jm_program::{AccessFlags, FieldType};
use jm_state::{Halt, State, StepEnd, test_parameters};
use jm_values::Place;
use jm_world::Stop;

// Whether a linked method stands before one that a class of the program declares, in the order of the
// classes and of the methods of each.
fn is_before(method: &LinkedMethod, class: u32, member: u32) -> bool {
    method.class < class || method.class == class && method.member < member
}

// Where a method of a class of the program would stand among those with code, which are in order.
fn search(methods: &[LinkedMethod], class: u32, member: u32) -> usize {
    let mut low = 0;
    let mut high = methods.len();
    while low < high {
        let middle = low + (high - low) / 2;
        if is_before(&methods[middle], class, member) {
            low = middle + 1;
        } else {
            high = middle;
        }
    }
    low
}

// The number, where it is that of the method with code that a class declares.
#[inline(always)]
fn numbered(linked: &Linked, number: u32, method: MemberNumber) -> Option<u32>
    ensures { IfSome result (λ number. IsCodeOf linked.now method number) }
{
    let class = method.class.checked_sub(linked.built_ins().len() as u32)?;
    let found = linked.methods().get(number as usize)?;
    if found.class != class || found.member != method.member {
        return None;
    }
    Some(number)
}

/// The number among those with code of a method that a class declares; none where it has no code. In
/// as many steps as the number of all has binary digits.
#[inline(never)]
pub(crate) fn code_number(linked: &Linked, method: MemberNumber) -> Option<u32>
    ensures { IfSome result (λ number. IsCodeOf linked.now method number) }
{
    let class = method.class.checked_sub(linked.built_ins().len() as u32)?;
    let number = search(linked.methods(), class, method.member);
    numbered(linked, u32::try_from(number).ok()?, method)
}

// The number among those with code of the first method of a selector's name and type; none where it has
// no code.
#[inline(always)]
fn first_code(linked: &Linked, selector: u32) -> Option<u32> {
    match linked.tables().codes.as_slice().get(selector as usize) {
        Some(number) => *number,
        None => None,
    }
}

/// The same of the method that an invoke means. It is mostly the first method of its name and type, and
/// is searched for where it is not.
#[inline(always)]
pub(crate) fn invoked_code(linked: &Linked, method: InvokedMethod) -> Option<u32>
    ensures { IfSome result (λ number. IsCodeOf linked.now method.found number) }
{
    if let Some(first) = first_code(linked, method.selector) {
        if let Some(number) = numbered(linked, first, method.found) {
            return Some(number);
        }
    }
    code_number(linked, method.found)
}

/// The object whose monitor a call of an instance method enters, by the method's number among those
/// with code: the receiver of a synchronized one (JVMS 2.11.10).
pub(crate) fn monitor_of(linked: &Linked, number: u32, receiver: Place) -> Option<Place>
    ensures { (parameters : List DeclaredType) (p : HasParameters linked.now number parameters) → result ≡ monitor_of p.declared receiver }
{
    let method = linked.methods().get(number as usize)?;
    let class = linked.classes().get(method.class as usize)?.parts();
    let declared = class.methods.as_slice().get(method.member as usize)?;
    if declared.flags.has(AccessFlags::SYNCHRONIZED) {
        Some(receiver)
    } else {
        None
    }
}

/// The parameters of a method, by its number among those with code.
pub(crate) fn parameters_of(linked: &Linked, number: u32) -> Option<&[FieldType]>
    ensures { IfSome result (λ parameters. HasParameters linked.now number parameters.now) }
{
    let method = linked.methods().get(number as usize)?;
    let class = linked.classes().get(method.class as usize)?.parts();
    let declared = class.methods.as_slice().get(method.member as usize)?;
    Some(declared.descriptor.parameters.as_slice())
}

/// Calls the static method that an invoke means, whose class is initialized
/// (JVMS 6.5 invokestatic): the operands on top are tested as its arguments. OutOfMemory where the
/// class declares no method of that number with code, as every static one of a program that loads has.
pub(crate) fn call_static<H: Heap>(
    at: At<'_>,
    state: &mut State<H>,
    method: InvokedMethod,
) -> Result<StepEnd, Halt>
    requires { InMethod H.content at state.old }
    ensures does { (found : FoundMethod) → IsMethodOf at.entry.linked.now.program method.found found
        → Does H.content at.entry state.old result state.new (in_method (calls_static found.method.descriptor.parameters found)) }
    ensures nursery { MakesIn H.content H.nursery_of at.entry state.old state.new }
{
    let Some(number) = invoked_code(at.linked, method) else {
        return Err(Halt::OutOfMemory);
    };
    let Some(parameters) = parameters_of(at.linked, number) else {
        return Err(Halt::OutOfMemory);
    };
    match test_parameters(top_method(&state.threads[at.index]), parameters) {
        Ok(()) => call(at, state, number, parameters.len(), None),
        Err(fault) => Err(Halt::Stopped(Stop::TagFault(fault))),
    }
}

/// Makes `invokestatic` (JVMS 6.5): the class that declares the method is initialized first.
/// OutOfMemory: a growth was refused, and nothing has changed.
#[inline(never)]
pub(crate) fn invoke_static<H: Heap>(
    at: At<'_>,
    state: &mut State<H>,
    method: InvokedMethod,
) -> Result<StepEnd, Halt>
    requires { StandsOn H.content at state.old (Links at.linked.now (linked_instr.Invoke invoke_op.Static method)) }
    ensures steps { Steps H.content at.entry state.old result state.new }
    ensures nursery { MakesIn H.content H.nursery_of at.entry state.old state.new }
{
    if !is_ready(at, state, method.found.class) {
        return begin_initialization(at, state, method.found.class);
    }
    call_static(at, state, method)
}

// Arguments among operands, and the frame of the method that is called with them.

ghost use Rattle.std.specs.Prelude.{◌≡◌, ◌≤◌, [], Ok, Err, IfOk, MatchResult, drop, length};
ghost use Rattle.jm_values.specs.Activation.{category};
ghost use Rattle.jm_values.specs.Steps.{is_of};
ghost use Rattle.jm_world.specs.Invocation.{locals_of};
ghost use Rattle.jm_state.specs.Arguments.{beginning, on_top, popped};

use jm_frames::{Frame, Spare};
use jm_program::OperandType;
use jm_values::{Place, TagFault, Value};
use std::alloc::{AllocError, Global};

/// A method that is called: its number, the object whose monitor a synchronized one has entered, and
/// the limits of its code (JVMS 4.7.3).
#[derive(Clone, Copy)]
pub struct Callee {
    pub method: usize,
    pub monitor: Option<Place>,
    pub max_stack: u16,
    pub max_locals: u16,
}

// Whether a value is of the type that a letter names (JVMS 2.11.1).
#[inline]
pub(crate) fn is_of(operand_type: OperandType, value: Value) -> bool
    ensures { result ≡ is_of operand_type value }
{
    match operand_type {
        OperandType::Int => matches!(value, Value::Int(_)),
        OperandType::Long => matches!(value, Value::Long(_)),
        OperandType::Reference => matches!(value, Value::Ref(_) | Value::Null),
    }
}

// The local variables that an argument takes.
#[inline]
fn category(value: Value) -> usize
    ensures { result ≡ category value }
{
    match value {
        Value::Long(_) => 2,
        _ => 1,
    }
}

/// That the operands on top are of these types, which are those of a method's parameters, the last
/// one first; the operands stay. `Underflow`: there are fewer; `WrongTag`: one is of another type.
/// The one nearest the top is told of (JVMS 6.5 invokevirtual).
pub fn test_arguments(frame: &Frame, parameters: &[OperandType]) -> Result<(), TagFault>
    ensures { MatchResult result
        (λ done. (length parameters.now ≤ length frame.now.activation.stack) × (popped parameters.now [] frame.now.activation.stack
        ≡ Ok (on_top (length parameters.now) frame.now.activation.stack, drop (length parameters.now) frame.now.activation.stack)))
        (λ fault. popped parameters.now [] frame.now.activation.stack ≡ Err fault) }
{
    for (depth, parameter) in parameters.iter().enumerate() {
        let Some(operand) = frame.operand(depth) else {
            return Err(TagFault::Underflow);
        };
        if !is_of(*parameter, operand) {
            return Err(TagFault::WrongTag);
        }
    }
    Ok(())
}

/// So many operands from the top, in the order in which they were pushed.
#[inline]
pub fn arguments_on(frame: &Frame, count: usize) -> &[Value]
    requires { count ≤ length frame.now.activation.stack }
    ensures { result.now ≡ on_top count frame.now.activation.stack }
{
    let operands = frame.operands();
    &operands[operands.len() - count..]
}

/// The frame of a method that begins, with these arguments as its first local variables, of which a
/// long takes two (JVMS 2.6.1). `max_locals` has room for them. `AllocError`: there was no memory for
/// the frame.
pub fn called_frame(alloc: Global, callee: Callee, arguments: &[Value]) -> Result<Frame, AllocError>
    requires { length (locals_of arguments.now) ≤ callee.max_locals }
    ensures { IfOk result (λ frame. frame ≡ beginning callee arguments.now) }
{
    called_frame_in(Spare::new(alloc), callee, arguments)
}

/// The same, in the memory of a frame that ended, if there is one.
#[inline(always)]
pub fn called_frame_in(
    spare: Spare,
    callee: Callee,
    arguments: &[Value],
) -> Result<Frame, AllocError>
    requires { length (locals_of arguments.now) ≤ callee.max_locals }
    ensures { IfOk result (λ frame. frame ≡ beginning callee arguments.now) }
{
    let mut frame = Frame::begin(
        spare,
        callee.method,
        callee.monitor,
        callee.max_stack,
        callee.max_locals,
    )?;
    let mut local = 0;
    for argument in arguments {
        frame.set_local(local, Some(*argument));
        local += category(*argument);
    }
    Ok(frame)
}

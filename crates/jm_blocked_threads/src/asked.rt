// The object whose monitor a frame asks for.

ghost use Rattle.std.specs.Prelude.{◌≡◌, Some, option_map};
ghost use Rattle.std.specs.Option.{option_copied};
ghost use Rattle.jm_world.specs.Stepping.{instruction_in};
ghost use Rattle.jm_machine.specs.Readers.{model_value};
ghost use Rattle.jm_blocked_threads.specs.Asked.{asked_by_call, asked_by_instruction, asked_by_monitor, object_of};

use jm_heap::Heap;
use jm_machine::{MethodFrame, WorldValue};
use jm_program::{Instr, InvokeOp, Method, MonitorOp};

// The object of an operand, if there is one and it refers to one.
fn object_of(operand: Option<WorldValue>) -> Option<u64>
    ensures { result ≡ object_of (option_map model_value operand) }
{
    match operand {
        Some(WorldValue::Ref(number)) => Some(number),
        Some(WorldValue::Int(_)) => None,
        Some(WorldValue::Long(_)) => None,
        Some(WorldValue::Null) => None,
        None => None,
    }
}

// The object whose monitor `monitorenter` asks for.
fn asked_by_monitor<H: Heap>(frame: &MethodFrame<'_, H>, op: MonitorOp) -> Option<u64>
    ensures { result ≡ asked_by_monitor op frame.now.activation.stack }
{
    match op {
        MonitorOp::Enter => object_of(frame.operand(0)),
        MonitorOp::Exit => None,
    }
}

// The receiver of a call.
fn asked_by_call<H: Heap>(frame: &MethodFrame<'_, H>, op: InvokeOp, arguments: usize) -> Option<u64>
    ensures { result ≡ asked_by_call op frame.now.activation.stack arguments }
{
    match op {
        InvokeOp::Virtual => object_of(frame.operand(arguments)),
        InvokeOp::Special => object_of(frame.operand(arguments)),
        InvokeOp::Interface => object_of(frame.operand(arguments)),
        InvokeOp::Static => None,
    }
}

// The object whose monitor an instruction asks for.
fn asked_by_instruction<H: Heap>(frame: &MethodFrame<'_, H>, instruction: &Instr) -> Option<u64>
    ensures { result ≡ asked_by_instruction frame.now.activation.stack (Some instruction.now) }
{
    match instruction {
        Instr::Monitor(op) => asked_by_monitor(frame, *op),
        Instr::Invoke(op, method) => {
            let arguments = method.get().descriptor.parameters.get().as_slice().len();
            asked_by_call(frame, *op, arguments)
        }
        Instr::Plain(_) => None,
        Instr::Array(_) => None,
        Instr::Return(_) => None,
        Instr::Throw => None,
        Instr::Constant(_) => None,
        Instr::Field(_, _) => None,
        Instr::New(_) => None,
        Instr::Type(_, _) => None,
    }
}

/// The instruction of a number in a method, if there is one.
pub fn instruction_of(method: &Method, at: usize) -> Option<&Instr>
    ensures { option_copied result ≡ instruction_in (Some method.now) at }
{
    match &method.code {
        Some(code) => code.instructions.as_slice().get(at),
        None => None,
    }
}

/// The object whose monitor the instruction of a method's frame asks for: the receiver of a call, the operand of
/// `monitorenter`.
pub fn asked_by_method<H: Heap>(frame: &MethodFrame<'_, H>) -> Option<u64>
    ensures { result ≡ asked_by_instruction frame.now.activation.stack (instruction_in (Some frame.now.method) frame.now.activation.at) }
{
    match instruction_of(frame.method(), frame.at()) {
        Some(instruction) => asked_by_instruction(frame, instruction),
        None => None,
    }
}

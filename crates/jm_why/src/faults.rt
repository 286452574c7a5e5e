// What an instruction found that met a fault, and what it wanted.

ghost use Rattle.std.specs.Prelude.{◌≡◌, ◌++◌, OnOk, Some, option_map};
ghost use Rattle.std.specs.Option.{option_copied};
ghost use Rattle.jm_world.specs.Stepping.{instruction_in};
ghost use Rattle.jm_world.specs.World.{World, thread_at};
ghost use Rattle.jm_machine.specs.Readers.{frame_at, model_value};
ghost use Rattle.jm_machine.specs.View.{MatchesWorld};
ghost use Rattle.jm_why.specs.Faults.{caller_room, found_and_wanted, found_operands, found_text, is_return, local_text, max_stack_of, needs_of, room_of, room_text, wanted_by, wanted_in};

use crate::locals::local_of;
use crate::needs::write_needs;
use jm_blocked_threads::instruction_of;
use jm_debug::text::ValueText;
use jm_heap::Heap;
use jm_machine::{Machine, MethodFrame, WorldFrame, WorldValue};
use jm_program::{Code, Instr, Method};
use jm_trace::write_operands;
use jm_values::TagFault;
use std::alloc::AllocError;
use std::fmt::Write;

// ---- what was found

// Writes a local variable, which may be set.
fn write_set_local(
    out: &mut String,
    number: u16,
    value: Option<WorldValue>,
) -> Result<(), AllocError>
    ensures { OnOk result (out.new.bytes.items ≡ out.old.bytes.items ++ local_text number (Some (option_map model_value value))) }
{
    match value {
        Some(value) => {
            let value = ValueText(value);
            write!(out, ", local variable {number} is {value}")
        }
        None => write!(out, ", local variable {number} not set"),
    }
}

// Writes a local variable, if there is one of the number.
fn write_local(
    out: &mut String,
    number: u16,
    local: Option<Option<WorldValue>>,
) -> Result<(), AllocError>
    ensures { OnOk result (out.new.bytes.items ≡ out.old.bytes.items ++ local_text number (option_map (option_map model_value) local)) }
{
    match local {
        Some(value) => write_set_local(out, number, value),
        None => write!(out, ", no local variable {number} (.limit locals)"),
    }
}

// Writes the operands of a frame.
fn write_found_operands<H: Heap>(
    out: &mut String,
    frame: &MethodFrame<'_, H>,
) -> Result<(), AllocError>
    ensures { OnOk result (out.new.bytes.items ≡ out.old.bytes.items ++ found_operands frame.now.activation.stack) }
{
    if frame.operands() == 0 {
        out.push_str(" no operand")
    } else {
        write_operands(out, frame)
    }
}

// Writes what an instruction found in its frame: the operands, and the local variable that it names.
fn write_found<H: Heap>(
    out: &mut String,
    frame: &MethodFrame<'_, H>,
    instruction: Option<&Instr>,
) -> Result<(), AllocError>
    ensures { OnOk result (out.new.bytes.items ≡ out.old.bytes.items ++ found_text frame.now.activation (option_copied instruction.entry)) }
{
    write_found_operands(out, frame)?;
    let Some(instruction) = instruction else {
        return Ok(());
    };
    match local_of(instruction) {
        Some(number) => write_local(out, number, frame.local(number as usize)),
        None => Ok(()),
    }
}

// ---- what was wanted

fn is_return(instruction: &Instr) -> bool
    ensures { result ≡ is_return instruction.now }
{
    matches!(instruction, Instr::Return(_))
}

// Writes what an instruction of a method takes, if there is one; of a return the method's type too.
fn write_needs_of(
    out: &mut String,
    method: &Method,
    instruction: Option<&Instr>,
) -> Result<(), AllocError>
    ensures { OnOk result (out.new.bytes.items ≡ out.old.bytes.items ++ needs_of (Some method.now) (option_copied instruction.entry)) }
{
    let Some(instruction) = instruction else {
        return out.push_str("an instruction");
    };
    write_needs(out, instruction)?;
    if is_return(instruction) {
        let descriptor = &method.descriptor;
        return write!(out, "; the method is of type {descriptor}");
    }
    Ok(())
}

// How many units the operand stack of a method may hold.
fn max_stack_of(code: &Option<Code>) -> u16
    ensures { result ≡ max_stack_of code.now }
{
    match code {
        Some(code) => code.max_stack,
        None => 0,
    }
}

// Writes the room on the operand stack that a method says.
fn write_room(out: &mut String, method: &Method) -> Result<(), AllocError>
    ensures { OnOk result (out.new.bytes.items ≡ out.old.bytes.items ++ room_of (Some method.now)) }
{
    let room = max_stack_of(&method.code);
    write!(out, "no more than max_stack {room} (.limit stack)")
}

// Writes the room on the operand stack of a thread's caller, which is the frame below the top one: a return wanted it for
// its result.
fn write_room_of_caller<H: Heap>(
    out: &mut String,
    machine: &Machine<H>,
    thread: u64,
) -> Result<(), AllocError>
    ensures { (w : World) → MatchesWorld machine.now w
        → OnOk result (out.new.bytes.items ≡ out.old.bytes.items ++ caller_room w (frame_at (thread_at w thread) 1)) }
{
    out.push_str("in the caller ")?;
    let Some(frame) = machine.frame(thread, 1) else {
        return Ok(());
    };
    match &frame {
        WorldFrame::Method(frame) => write_room(out, frame.method()),
        WorldFrame::Initialization { .. } | WorldFrame::Entry => Ok(()),
    }
}

// Writes the room that was wanted in a method for what its instruction gives.
fn write_room_for<H: Heap>(
    out: &mut String,
    machine: &Machine<H>,
    thread: u64,
    method: &Method,
    instruction: Option<&Instr>,
) -> Result<(), AllocError>
    ensures { (w : World) → MatchesWorld machine.now w → OnOk result (out.new.bytes.items ≡ out.old.bytes.items
        ++ room_text w (Some method.now) (option_copied instruction.entry) (frame_at (thread_at w thread) 1)) }
{
    match instruction {
        Some(instruction) if is_return(instruction) => write_room_of_caller(out, machine, thread),
        _ => write_room(out, method),
    }
}

// Writes what was wanted, by the fault.
fn write_wanted_by<H: Heap>(
    out: &mut String,
    machine: &Machine<H>,
    thread: u64,
    fault: TagFault,
    method: &Method,
    instruction: Option<&Instr>,
) -> Result<(), AllocError>
    ensures { (w : World) → MatchesWorld machine.now w → OnOk result (out.new.bytes.items ≡ out.old.bytes.items
        ++ wanted_by w fault (Some method.now) (option_copied instruction.entry) (frame_at (thread_at w thread) 1)) }
{
    match fault {
        TagFault::WrongTag | TagFault::WrongKind | TagFault::Underflow | TagFault::BadLocal => {
            write_needs_of(out, method, instruction)
        }
        TagFault::Overflow => write_room_for(out, machine, thread, method, instruction),
        TagFault::NoInstruction => out.push_str("an instruction"),
        TagFault::MonitorCount => out.push_str("a monitor that was entered less often"),
    }
}

// Writes what the instruction of a method's frame found and wanted.
fn write_found_and_wanted<H: Heap>(
    out: &mut String,
    machine: &Machine<H>,
    thread: u64,
    fault: TagFault,
    frame: &MethodFrame<'_, H>,
) -> Result<(), AllocError>
    ensures { (w : World) → MatchesWorld machine.now w → OnOk result (out.new.bytes.items ≡ out.old.bytes.items
        ++ found_and_wanted w fault (Some frame.now.method) frame.now.activation (instruction_in (Some frame.now.method) frame.now.activation.at)
        (frame_at (thread_at w thread) 1)) }
{
    let instruction = instruction_of(frame.method(), frame.at());
    out.push_str("found")?;
    write_found(out, frame, instruction)?;
    out.push_str("\nwanted ")?;
    write_wanted_by(out, machine, thread, fault, frame.method(), instruction)?;
    out.push_str("\n")
}

/// Writes what the instruction of a thread found that met a fault, and what it wanted. `AllocError`: a growth was refused.
pub fn write_fault<H: Heap>(
    out: &mut String,
    machine: &Machine<H>,
    thread: u64,
    fault: TagFault,
) -> Result<(), AllocError>
    ensures { (w : World) → MatchesWorld machine.now w → OnOk result (out.new.bytes.items ≡ out.old.bytes.items
        ++ wanted_in w fault (frame_at (thread_at w thread) 0) (frame_at (thread_at w thread) 1)) }
{
    let Some(frame) = machine.frame(thread, 0) else {
        return Ok(());
    };
    match &frame {
        WorldFrame::Method(frame) => write_found_and_wanted(out, machine, thread, fault, frame),
        WorldFrame::Initialization { .. } | WorldFrame::Entry => Ok(()),
    }
}

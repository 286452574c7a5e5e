// The local variables and operands of a frame.

ghost use Rattle.std.specs.Prelude.{◌≡◌, ◌++◌, OnOk, IfOk, option_map, reverse};
ghost use Rattle.std.specs.List.{flat_map};
ghost use Rattle.jm_world.specs.World.{World};
ghost use Rattle.jm_machine.specs.Readers.{model_value, model_frame};
ghost use Rattle.jm_machine.specs.View.{MatchesWorld};
ghost use Rattle.jm_debug.specs.Views.{lines_from, lines_of, local_lines, value_lines, locals_of_frame, stack_of_frame, locals_lines, stack_lines};
ghost use Rattle.jm_debug.specs.Session.{ended, bytes_of, Shows};

use crate::answer::or_none;
use crate::fault::DebugFault;
use crate::text::ValueText;
use jm_heap::Heap;
use jm_machine::{Machine, MethodFrame, WorldFrame, WorldValue};
use std::alloc::{AllocError, Global};
use std::fmt::Write;

// Writes the line of a local variable or an operand.
#[tactic(auto, using(crate::proofs::Written::one_line))]
fn write_value(out: &mut String, number: usize, value: WorldValue) -> Result<(), AllocError>
    ensures { OnOk result (out.new.bytes.items ≡ out.old.bytes.items ++ flat_map ended (value_lines number (model_value value))) }
{
    let value = ValueText(value);
    write!(out, "{number} = {value}\n")
}

// Writes a variable, if there is one and it is set.
fn write_local(
    out: &mut String,
    number: usize,
    local: Option<Option<WorldValue>>,
) -> Result<(), AllocError>
    ensures { OnOk result (out.new.bytes.items
        ≡ out.old.bytes.items ++ flat_map ended (lines_of local_lines number (option_map (option_map model_value) local))) }
{
    match local {
        Some(Some(value)) => write_value(out, number, value),
        Some(None) | None => Ok(()),
    }
}

// Writes an operand, if there is one.
fn write_operand(
    out: &mut String,
    number: usize,
    operand: Option<WorldValue>,
) -> Result<(), AllocError>
    ensures { OnOk result (out.new.bytes.items ≡ out.old.bytes.items ++ flat_map ended (lines_of value_lines number (option_map model_value operand))) }
{
    match operand {
        Some(value) => write_value(out, number, value),
        None => Ok(()),
    }
}

/// Writes the lines of the local variables of a method's frame that are set. `AllocError`: a growth was
/// refused; some of them may stand there then.
pub fn write_locals<H: Heap>(out: &mut String, frame: &MethodFrame<'_, H>) -> Result<(), AllocError>
    ensures { OnOk result (out.new.bytes.items ≡ out.old.bytes.items ++ flat_map ended (lines_from local_lines 0 frame.now.activation.locals)) }
{
    for number in 0..frame.max_locals() {
        write_local(out, number, frame.local(number))?;
    }
    Ok(())
}

/// Writes the lines of the operands of a method's frame, from the bottom. `AllocError`: a growth was
/// refused; some of them may stand there then.
pub fn write_stack<H: Heap>(out: &mut String, frame: &MethodFrame<'_, H>) -> Result<(), AllocError>
    ensures { OnOk result (out.new.bytes.items ≡ out.old.bytes.items ++ flat_map ended (lines_from value_lines 0 (reverse frame.now.activation.stack))) }
{
    let operands = frame.operands();
    for number in 0..operands {
        write_operand(out, number, frame.operand(operands - 1 - number))?;
    }
    Ok(())
}

// The variables of a frame that are set.
fn locals_of_frame<H: Heap>(alloc: Global, frame: &WorldFrame<'_, H>) -> Result<String, AllocError>
    ensures { IfOk result (λ answer. answer.bytes.items ≡ bytes_of (locals_of_frame (model_frame frame.now))) }
{
    let mut out = String::new(alloc);
    if let WorldFrame::Method(frame) = frame {
        write_locals(&mut out, frame)?;
    }
    or_none(out)
}

// The operands of a frame, from the bottom.
fn stack_of_frame<H: Heap>(alloc: Global, frame: &WorldFrame<'_, H>) -> Result<String, AllocError>
    ensures { IfOk result (λ answer. answer.bytes.items ≡ bytes_of (stack_of_frame (model_frame frame.now))) }
{
    let mut out = String::new(alloc);
    if let WorldFrame::Method(frame) = frame {
        write_stack(&mut out, frame)?;
    }
    or_none(out)
}

/// The local variables of a frame that are set; the top frame of a thread has the number 0.
pub fn locals<H: Heap>(
    alloc: Global,
    machine: &Machine<H>,
    thread: u64,
    frame: u64,
) -> Result<String, DebugFault>
    ensures { (w : World) → MatchesWorld machine.now w → Shows (λ t. t.bytes.items) result (locals_lines w thread frame) }
{
    let Some(frame) = machine.frame(thread, frame as usize) else {
        return Err(DebugFault::NoSuch);
    };
    Ok(locals_of_frame(alloc, &frame)?)
}

/// The operands of a frame, from the bottom.
pub fn stack<H: Heap>(
    alloc: Global,
    machine: &Machine<H>,
    thread: u64,
    frame: u64,
) -> Result<String, DebugFault>
    ensures { (w : World) → MatchesWorld machine.now w → Shows (λ t. t.bytes.items) result (stack_lines w thread frame) }
{
    let Some(frame) = machine.frame(thread, frame as usize) else {
        return Err(DebugFault::NoSuch);
    };
    Ok(stack_of_frame(alloc, &frame)?)
}

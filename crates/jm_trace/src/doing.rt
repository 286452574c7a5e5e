// Where a frame stands and what is next in it.

ghost use Rattle.std.specs.Prelude.{◌≡◌, ◌++◌, ℕ, List, MatchOption, None, Some, OnOk, option_map};
ghost use Rattle.jm_program.specs.declared.class.ClassParts.{ClassParts};
ghost use Rattle.jm_world.specs.Stepping.{instruction_in};
ghost use Rattle.jm_machine.specs.Readers.{model_frame, model_value, IsOfProgram};
ghost use Rattle.jm_debug.specs.Texts.{frame_text};
ghost use Rattle.jm_trace.specs.Doings.{doing_text, instruction_text, next_text, operand_text, operands_text, standing_text, switch_word, texts_of};

use jm_blocked_threads::instruction_of;
use jm_debug::text::{LineText, StageText, ValueText, line_of, place_of_method};
use jm_heap::Heap;
use jm_machine::{MethodFrame, WorldFrame, WorldValue};
use jm_program::{Instr, Method, Plain};
use std::alloc::AllocError;
use std::fmt::Write;

// The word of a switch.
fn switch_word(instruction: &Instr) -> Option<&'static str>
    ensures { MatchOption result (switch_word instruction.now ≡ None) (λ word. switch_word instruction.now ≡ Some word.now) }
{
    match instruction {
        Instr::Plain(Plain::TableSwitch(_)) => Some("tableswitch"),
        Instr::Plain(Plain::LookupSwitch(_)) => Some("lookupswitch"),
        _ => None,
    }
}

// Writes an instruction.
#[tactic(auto, unfolding(crate::specs::Doings::instruction_text))]
fn write_instruction(out: &mut String, instruction: &Instr) -> Result<(), AllocError>
    ensures { OnOk result (out.new.bytes.items ≡ out.old.bytes.items ++ instruction_text instruction.now) }
{
    match switch_word(instruction) {
        Some(word) => out.push_str(word),
        None => write!(out, "{instruction}"),
    }
}

// Writes what is next in a method.
fn write_next(out: &mut String, method: &Method, at: usize) -> Result<(), AllocError>
    ensures { OnOk result (out.new.bytes.items ≡ out.old.bytes.items ++ next_text (instruction_in (Some method.now) at)) }
{
    match instruction_of(method, at) {
        Some(instruction) => write_instruction(out, instruction),
        None => out.push_str("no instruction"),
    }
}

// Writes an operand, if there is one; a reference is the number of its object.
fn write_operand(out: &mut String, operand: Option<WorldValue>) -> Result<(), AllocError>
    ensures { (number : ℕ) → OnOk result (out.new.bytes.items ≡ out.old.bytes.items ++ texts_of operand_text number (option_map model_value operand)) }
{
    let Some(value) = operand else {
        return Ok(());
    };
    let value = ValueText(value);
    write!(out, " [{value}]")
}

/// Writes the operands of a method's frame, the lowest first, if there are any. `AllocError`: a growth was refused.
pub fn write_operands<H: Heap>(
    out: &mut String,
    frame: &MethodFrame<'_, H>,
) -> Result<(), AllocError>
    ensures { OnOk result (out.new.bytes.items ≡ out.old.bytes.items ++ operands_text frame.now.activation.stack) }
{
    let operands = frame.operands();
    for number in 0..operands {
        write_operand(out, frame.operand(operands - 1 - number))?;
    }
    Ok(())
}

// Writes what is next in a frame, where its place does not say it: of a method the instruction, and the operands.
fn write_doing<H: Heap>(out: &mut String, frame: &WorldFrame<'_, H>) -> Result<(), AllocError>
    ensures { (program : List ClassParts) → IsOfProgram program frame.now
        → OnOk result (out.new.bytes.items ≡ out.old.bytes.items ++ doing_text program (model_frame frame.now)) }
{
    match frame {
        WorldFrame::Method(frame) => {
            out.push_str(": ")?;
            write_next(out, frame.method(), frame.at())?;
            write_operands(out, frame)
        }
        WorldFrame::Initialization { .. } | WorldFrame::Entry => Ok(()),
    }
}

/// Writes where a frame stands, with no line feed: of a method with the line of the source, if it is known. `AllocError`:
/// a growth was refused; a part of it may stand there then.
#[tactic(auto, using(crate::proofs::FramesTold::method_place), unfolding(jm_debug::specs::Texts::frame_text))]
pub fn write_place<H: Heap>(out: &mut String, frame: &WorldFrame<'_, H>) -> Result<(), AllocError>
    ensures { (program : List ClassParts) → IsOfProgram program frame.now
        → OnOk result (out.new.bytes.items ≡ out.old.bytes.items ++ frame_text program (model_frame frame.now)) }
{
    match frame {
        WorldFrame::Method(frame) => {
            let place = place_of_method(frame);
            let line = LineText(line_of(frame.method(), frame.at() as u64));
            write!(out, "{place}{line}")
        }
        WorldFrame::Initialization { class, stage } => {
            let class = &class.parts().name;
            let stage = StageText(*stage);
            write!(out, "init {class} {stage}")
        }
        WorldFrame::Entry => out.push_str("entry"),
    }
}

/// Writes where a frame stands and what is next in it: of a method its instruction and the operands, the lowest first.
/// `AllocError`: a growth was refused; a part of it may stand there then.
#[tactic(auto, unfolding(crate::specs::Doings::standing_text))]
pub fn write_standing<H: Heap>(
    out: &mut String,
    frame: &WorldFrame<'_, H>,
) -> Result<(), AllocError>
    ensures { (program : List ClassParts) → IsOfProgram program frame.now
        → OnOk result (out.new.bytes.items ≡ out.old.bytes.items ++ standing_text program (model_frame frame.now)) }
{
    write_place(out, frame)?;
    write_doing(out, frame)
}

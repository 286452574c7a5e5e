// The Code attribute (JVMS 4.7.3) and the LineNumberTable in it (JVMS 4.7.12).

ghost use Rattle.std.specs.Prelude.{◌<◌, ℕ, IsTrue, All, OnOk, length};
ghost use Rattle.std.specs.List.{list_all};
ghost use Rattle.jm_bytes.specs.Reading.{TakesAll};
ghost use Rattle.jm_program.specs.Instructions.{instr_fits};
ghost use Rattle.jm_class_writer.specs.Drafts.{Leaves};
ghost use Rattle.jm_class_writer.specs.CodeParts.{start_of, end_of, put_start, put_end, put_catch_type, put_handler, put_handlers, put_line, put_lines, put_name, put_line_table, put_code_attributes, put_code_body};
ghost use Rattle.jm_class_writer.specs.Ranges.{OfSome, UnitsInRange, HandlerInRange, CodeInRange};

use crate::draft::Draft;
use crate::fault::WriteFault;
use crate::instruction::code_encoded;
use crate::pool_use::{class_index, text_index};
use jm_encode::EncodedCode;
use jm_program::{Code, Handler, LineNumber, Name};
use std::alloc::Global;

// The name of the attribute LineNumberTable.
const LINE_NUMBER_TABLE: [u16; 15] = [
    76, 105, 110, 101, 78, 117, 109, 98, 101, 114, 84, 97, 98, 108, 101,
];

/// The index of an attribute's name.
#[tactic(auto, unfolding(crate::specs::CodeParts::put_name))]
pub fn put_name(draft: &mut Draft, alloc: Global, name: &[u16]) -> Result<(), WriteFault>
    ensures name { Leaves (λ _. tt) result draft.new (put_name name.now draft.old) }
    ensures range { UnitsInRange name.now }
{
    let index = text_index(draft, alloc, name)?;
    draft.put_u2(usize::from(index))
}

// ---- offsets of instructions by their numbers

#[tactic(auto, unfolding(crate::specs::CodeParts::start_of))]
fn start_of(code: &EncodedCode, number: u32) -> Result<usize, WriteFault>
    ensures { TakesAll (λ offset. offset) result (start_of code.now number) }
{
    match code.starts.as_slice().get(number as usize) {
        Some(offset) => Ok(usize::from(*offset)),
        None => Err(WriteFault::TooMany),
    }
}

// Of the end of a range: before an instruction, or at the code's end.
#[tactic(auto, unfolding(crate::specs::CodeParts::end_of))]
fn end_of(code: &EncodedCode, number: u32) -> Result<usize, WriteFault>
    ensures { TakesAll (λ offset. offset) result (end_of code.now number) }
{
    if number as usize == code.starts.as_slice().len() {
        return Ok(code.bytes.as_slice().len());
    }
    start_of(code, number)
}

#[tactic(auto, unfolding(crate::specs::CodeParts::put_start))]
fn put_start(draft: &mut Draft, code: &EncodedCode, number: u32) -> Result<(), WriteFault>
    ensures { Leaves (λ _. tt) result draft.new (put_start code.now number draft.old) }
{
    let offset = start_of(code, number)?;
    draft.put_u2(offset)
}

#[tactic(auto, unfolding(crate::specs::CodeParts::put_end))]
fn put_end(draft: &mut Draft, code: &EncodedCode, number: u32) -> Result<(), WriteFault>
    ensures { Leaves (λ _. tt) result draft.new (put_end code.now number draft.old) }
{
    let offset = end_of(code, number)?;
    draft.put_u2(offset)
}

// ---- the exception table

// The index of the class that is caught, or 0 for every one.
#[tactic(auto, unfolding(crate::specs::CodeParts::put_catch_type))]
fn put_catch_type(
    draft: &mut Draft,
    alloc: Global,
    catch_type: &Option<Name>,
) -> Result<(), WriteFault>
    ensures catch_type { Leaves (λ _. tt) result draft.new (put_catch_type catch_type.now draft.old) }
    ensures range { OfSome UnitsInRange catch_type.now }
{
    match catch_type {
        None => draft.put_u2(0),
        Some(name) => {
            let index = class_index(draft, alloc, name)?;
            draft.put_u2(usize::from(index))
        }
    }
}

#[tactic(auto, unfolding(crate::specs::CodeParts::put_handler))]
fn put_handler(
    draft: &mut Draft,
    alloc: Global,
    code: &EncodedCode,
    handler: &Handler,
) -> Result<(), WriteFault>
    ensures handler { Leaves (λ _. tt) result draft.new (put_handler code.now handler.now draft.old) }
    ensures range { OnOk result (HandlerInRange handler.now) }
{
    put_start(draft, code, handler.start)?;
    put_end(draft, code, handler.end)?;
    put_start(draft, code, handler.target)?;
    put_catch_type(draft, alloc, &handler.catch_type)
}

#[tactic(auto, unfolding(crate::specs::CodeParts::put_handlers), using(crate::proofs::Loops::all_steps))]
fn put_handlers(
    draft: &mut Draft,
    alloc: Global,
    code: &EncodedCode,
    handlers: &[Handler],
) -> Result<(), WriteFault>
    ensures handlers { Leaves (λ _. tt) result draft.new (put_handlers code.now handlers.now draft.old) }
    ensures range { OnOk result (All HandlerInRange handlers.now) }
{
    draft.put_u2(handlers.len())?;
    for handler in handlers {
        put_handler(draft, alloc, code, handler)?;
    }
    Ok(())
}

// ---- line numbers

#[tactic(auto, unfolding(crate::specs::CodeParts::put_line))]
fn put_line(draft: &mut Draft, code: &EncodedCode, line: &LineNumber) -> Result<(), WriteFault>
    ensures { Leaves (λ _. tt) result draft.new (put_line code.now line.now draft.old) }
{
    put_start(draft, code, line.start)?;
    draft.put_u2(usize::from(line.line))
}

#[tactic(auto, unfolding(crate::specs::CodeParts::put_lines), using(crate::proofs::Loops::all_steps))]
fn put_lines(draft: &mut Draft, code: &EncodedCode, lines: &[LineNumber]) -> Result<(), WriteFault>
    ensures { Leaves (λ _. tt) result draft.new (put_lines code.now lines.now draft.old) }
{
    draft.put_u2(lines.len())?;
    for line in lines {
        put_line(draft, code, line)?;
    }
    Ok(())
}

// The one attribute of a code with lines.
#[tactic(auto, unfolding(crate::specs::CodeParts::put_line_table, crate::specs::Drafts::with_length))]
fn put_line_table(
    draft: &mut Draft,
    alloc: Global,
    code: &EncodedCode,
    lines: &[LineNumber],
) -> Result<(), WriteFault>
    ensures { Leaves (λ _. tt) result draft.new (put_line_table code.now lines.now draft.old) }
{
    draft.put_u2(1)?;
    put_name(draft, alloc, &LINE_NUMBER_TABLE)?;
    let before = draft.open(alloc);
    put_lines(draft, code, lines)?;
    draft.close(before)
}

#[tactic(auto, unfolding(crate::specs::CodeParts::put_code_attributes))]
fn put_code_attributes(
    draft: &mut Draft,
    alloc: Global,
    code: &EncodedCode,
    lines: &[LineNumber],
) -> Result<(), WriteFault>
    ensures { Leaves (λ _. tt) result draft.new (put_code_attributes code.now lines.now draft.old) }
{
    if lines.is_empty() {
        draft.put_u2(0)
    } else {
        put_line_table(draft, alloc, code, lines)
    }
}

// ---- the attribute

/// What stands behind a Code attribute's length.
#[tactic(auto, unfolding(crate::specs::CodeParts::put_code_body, crate::specs::CodeParts::put_instructions))]
pub fn put_code_body(draft: &mut Draft, alloc: Global, code: &Code) -> Result<(), WriteFault>
    requires some { 0 < length code.now.instructions }
    requires fit { (count : ℕ) × IsTrue (list_all (instr_fits count) code.now.instructions) }
    ensures body { Leaves (λ _. tt) result draft.new (put_code_body code.now draft.old) }
    ensures range { OnOk result (CodeInRange code.now) }
{
    draft.put_u2(usize::from(code.max_stack))?;
    draft.put_u2(usize::from(code.max_locals))?;
    let instructions = code.instructions.as_slice();
    let encoded = code_encoded(draft, alloc, instructions)?;
    let bytes = encoded.bytes.as_slice();
    draft.put_u4(bytes.len())?;
    draft.put_bytes(bytes)?;
    put_handlers(draft, alloc, &encoded, code.handlers.as_slice())?;
    put_code_attributes(draft, alloc, &encoded, code.lines.as_slice())
}

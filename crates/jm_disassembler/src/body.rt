// The lines of a method's body (Jasmin User Guide, "Method Definitions").

ghost use Rattle.std.specs.Prelude.{◌≡◌, ◌≤◌, ◌++◌, OnOk, IfOk, length, drop};
ghost use Rattle.std.specs.List.{flat_map};
ghost use Rattle.jm_disassembler.specs.Bodies.{note, instr_lines, label_text, source_lines, lines_behind, body_text, handler_text, code_text};

use crate::instruction::{write_instruction, write_rows};
use crate::labels::{is_marked, marks_of};
use jm_program::{Code, Handler, Instr, LineNumber};
use std::alloc::{AllocError, Global};
use std::fmt::Write;

// ---- instructions

// The end of an instruction's line, with its number behind it where that is wanted.
fn write_note(out: &mut String, commented: bool, number: usize) -> Result<(), AllocError>
    ensures { OnOk result (out.new.bytes.items ≡ out.old.bytes.items ++ note commented number) }
{
    if commented {
        write!(out, "  ; {number}\n")
    } else {
        out.push_str("\n")
    }
}

#[tactic(auto, unfolding(crate::specs::Bodies::instr_lines))]
fn write_instr(
    out: &mut String,
    commented: bool,
    number: usize,
    instruction: &Instr,
) -> Result<(), AllocError>
    ensures { OnOk result (out.new.bytes.items ≡ out.old.bytes.items ++ instr_lines commented number instruction.now) }
{
    out.push_str("  ")?;
    write_instruction(out, instruction)?;
    write_note(out, commented, number)?;
    write_rows(out, instruction)
}

#[tactic(auto, unfolding(crate::specs::Bodies::label_text))]
fn write_label(out: &mut String, marks: &[bool], number: usize) -> Result<(), AllocError>
    ensures { OnOk result (out.new.bytes.items ≡ out.old.bytes.items ++ label_text marks.now number) }
{
    if is_marked(marks, number) {
        write!(out, "L{number}:\n")?;
    }
    Ok(())
}

// ---- the exception table

#[tactic(auto, unfolding(crate::specs::Bodies::handler_text))]
fn write_handler(out: &mut String, handler: &Handler) -> Result<(), AllocError>
    ensures { OnOk result (out.new.bytes.items ≡ out.old.bytes.items ++ handler_text handler.now) }
{
    let start = handler.start;
    let end = handler.end;
    let target = handler.target;
    match &handler.catch_type {
        None => write!(
            out,
            "  .catch all from L{start} to L{end} using L{target}\n"
        ),
        Some(name) => write!(
            out,
            "  .catch {name} from L{start} to L{end} using L{target}\n"
        ),
    }
}

fn write_handlers(out: &mut String, handlers: &[Handler]) -> Result<(), AllocError>
    ensures { OnOk result (out.new.bytes.items ≡ out.old.bytes.items ++ flat_map handler_text handlers.now) }
{
    for handler in handlers {
        write_handler(out, handler)?;
    }
    Ok(())
}

// ---- the body

// Writes the lines of the rows at the front that begin at an instruction, and counts them.
#[tactic(auto, unfolding(crate::specs::Bodies::source_text))]
fn write_sources(out: &mut String, number: usize, lines: &[LineNumber]) -> Result<usize, AllocError>
    ensures text { OnOk result (out.new.bytes.items ≡ out.old.bytes.items ++ source_lines number lines.now) }
    ensures behind { IfOk result (λ count. drop count lines.now ≡ lines_behind number lines.now) }
    ensures few { IfOk result (λ count. count ≤ length lines.now) }
{
    let mut count = 0;
    for row in lines {
        if row.start as usize != number {
            return Ok(count);
        }
        let line = row.line;
        write!(out, "  .line {line}\n")?;
        count += 1;
    }
    Ok(count)
}

fn write_body(
    out: &mut String,
    commented: bool,
    marks: &[bool],
    instructions: &[Instr],
    lines: &[LineNumber],
) -> Result<(), AllocError>
    ensures { OnOk result (out.new.bytes.items ≡ out.old.bytes.items ++ body_text commented marks.now 0 instructions.now lines.now) }
{
    let mut at = 0;
    for number in 0..instructions.len() {
        write_label(out, marks, number)?;
        let count = write_sources(out, number, &lines[at..])?;
        at += count;
        write_instr(out, commented, number, &instructions[number])?;
    }
    write_label(out, marks, instructions.len())
}

/// Writes the lines between `.method` and `.end method`. After an error some of them may stand
/// there.
#[tactic(auto, unfolding(crate::specs::Bodies::code_text, crate::specs::Bodies::limit_text))]
pub fn write_code(
    alloc: Global,
    out: &mut String,
    commented: bool,
    code: &Code,
) -> Result<(), AllocError>
    ensures { OnOk result (out.new.bytes.items ≡ out.old.bytes.items ++ code_text commented code.now) }
{
    let marks = marks_of(alloc, code)?;
    let stack = code.max_stack;
    let locals = code.max_locals;
    write!(out, "  .limit stack {stack}\n  .limit locals {locals}\n")?;
    write_handlers(out, code.handlers.as_slice())?;
    write_body(
        out,
        commented,
        &marks,
        code.instructions.as_slice(),
        code.lines.as_slice(),
    )
}

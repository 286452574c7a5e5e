// Methods: their names, line number tables and instructions.

ghost use Rattle.std.specs.Prelude.{◌≡◌, ◌++◌, OnOk};
ghost use Rattle.std.specs.List.{flat_map};
ghost use Rattle.jm_page.specs.Escapes.{IsHarmless};
ghost use Rattle.jm_page.specs.Listings.{class_rows, entry_row, instruction_row, method_rows};

use crate::row::{Row, write_row};
use jm_program::{Class, Instr, LineNumber, Method, Name};
use std::alloc::{AllocError, Global};

// Writes an entry of a line number table: its first instruction, and the line.
#[tactic(auto, unfolding(crate::specs::Listings::entry_text))]
fn write_entry(alloc: Global, out: &mut Vec<u8>, entry: LineNumber) -> Result<(), AllocError>
    ensures { OnOk result (out.new.items ≡ out.old.items ++ entry_row entry) }
{
    let start = entry.start;
    let line = entry.line;
    let text = format!(in alloc; "{start} {line}")?;
    write_row(out, Row::Line, text.as_bytes())
}

fn write_entries(alloc: Global, out: &mut Vec<u8>, entries: &[LineNumber]) -> Result<(), AllocError>
    ensures { OnOk result (out.new.items ≡ out.old.items ++ flat_map entry_row entries.now) }
{
    for entry in entries {
        write_entry(alloc, out, *entry)?;
    }
    Ok(())
}

// Writes an instruction, as a line of Jasmin.
fn write_instruction(
    alloc: Global,
    out: &mut Vec<u8>,
    instruction: &Instr,
) -> Result<(), AllocError>
    ensures { OnOk result (out.new.items ≡ out.old.items ++ instruction_row instruction.now) }
{
    let text = format!(in alloc; "{instruction}")?;
    write_row(out, Row::Instruction, text.as_bytes())
}

fn write_instructions(
    alloc: Global,
    out: &mut Vec<u8>,
    instructions: &[Instr],
) -> Result<(), AllocError>
    ensures { OnOk result (out.new.items ≡ out.old.items ++ flat_map instruction_row instructions.now) }
{
    for instruction in instructions {
        write_instruction(alloc, out, instruction)?;
    }
    Ok(())
}

// Writes a method that has code, by the name by which a place of the debugger names it.
#[tactic(auto, unfolding(crate::specs::Listings::method_name))]
fn write_method(
    alloc: Global,
    out: &mut Vec<u8>,
    class: &Name,
    method: &Method,
) -> Result<(), AllocError>
    ensures { OnOk result (out.new.items ≡ out.old.items ++ method_rows class.now method.now) }
{
    let Some(code) = &method.code else {
        return Ok(());
    };
    let name = &method.name;
    let descriptor = &method.descriptor;
    let text = format!(in alloc; "{class}.{name}{descriptor}")?;
    write_row(out, Row::Method, text.as_bytes())?;
    write_entries(alloc, out, code.lines.as_slice())?;
    write_instructions(alloc, out, code.instructions.as_slice())
}

/// Writes the methods of a class that have code, each by its name, with its line number table and its instructions.
/// `AllocError`: a growth was refused; some of it may be written then.
#[tactic(auto, using(crate::proofs::HarmlessRows::class_harmless))]
pub fn write_class(alloc: Global, out: &mut Vec<u8>, class: &Class) -> Result<(), AllocError>
    ensures written { OnOk result (out.new.items ≡ out.old.items ++ class_rows class.now) }
    ensures harmless { IsHarmless (class_rows class.now) }
{
    let parts = class.parts();
    let name = &parts.name;
    let methods = parts.methods.as_slice();
    for method in methods {
        write_method(alloc, out, name, method)?;
    }
    Ok(())
}

// The lines of fields and methods (Jasmin User Guide, "Field Definitions", "Method Definitions").

ghost use Rattle.std.specs.Prelude.{◌≡◌, ◌++◌, OnOk};
ghost use Rattle.std.specs.List.{flat_map};
ghost use Rattle.jm_disassembler.specs.Members.{value_text, body_of, method_text};
ghost use Rattle.jm_disassembler.specs.Texts.{marked_field, fields_text, marked_method};

use crate::body::write_code;
use crate::flags::{write_member_flags, write_member_note};
use crate::mark::{write_field_mark, write_method_mark};
use jm_program::{Code, Constant, Field, Method, StringUnits};
use std::alloc::{AllocError, Global};
use std::fmt::Write;

// ---- fields

fn write_value(out: &mut String, value: &Option<Constant>) -> Result<(), AllocError>
    ensures { OnOk result (out.new.bytes.items ≡ out.old.bytes.items ++ value_text value.now) }
{
    match value {
        None => Ok(()),
        Some(Constant::Int(number)) => write!(out, " = {number}"),
        Some(Constant::Long(number)) => write!(out, " = {number}"),
        Some(Constant::String(units)) => {
            let text = StringUnits(units.get().as_slice());
            write!(out, " = \"{text}\"")
        }
    }
}

// Writes the line of a field, behind that of its mark, if it has one.
#[tactic(auto, unfolding(crate::specs::Texts::marked_field, crate::specs::Members::field_text))]
fn write_field(out: &mut String, commented: bool, field: &Field) -> Result<(), AllocError>
    ensures { OnOk result (out.new.bytes.items ≡ out.old.bytes.items ++ marked_field commented field.now) }
{
    let bits = field.flags.bits;
    let name = &field.name;
    let descriptor = &field.descriptor;
    write_field_mark(out, field)?;
    out.push_str(".field ")?;
    write_member_flags(out, bits)?;
    write!(out, "{name} {descriptor}")?;
    write_value(out, &field.constant)?;
    write_member_note(out, commented, bits)
}

/// Writes the lines of fields, each behind that of its mark, if it has one, and an empty line before
/// the first. After an error some of them may stand there.
pub fn write_fields(out: &mut String, commented: bool, fields: &[Field]) -> Result<(), AllocError>
    ensures { OnOk result (out.new.bytes.items ≡ out.old.bytes.items ++ fields_text commented fields.now) }
{
    let Some((first, others)) = fields.split_first() else {
        return Ok(());
    };
    out.push_str("\n")?;
    write_field(out, commented, first)?;
    for field in others {
        write_field(out, commented, field)?;
    }
    Ok(())
}

// ---- methods

fn write_body(
    alloc: Global,
    out: &mut String,
    commented: bool,
    code: &Option<Code>,
) -> Result<(), AllocError>
    ensures { OnOk result (out.new.bytes.items ≡ out.old.bytes.items ++ body_of commented code.now) }
{
    match code {
        None => Ok(()),
        Some(code) => write_code(alloc, out, commented, code),
    }
}

#[tactic(auto, unfolding(crate::specs::Members::method_text))]
fn write_method(
    alloc: Global,
    out: &mut String,
    commented: bool,
    method: &Method,
) -> Result<(), AllocError>
    ensures { OnOk result (out.new.bytes.items ≡ out.old.bytes.items ++ method_text commented method.now) }
{
    let bits = method.flags.bits;
    let name = &method.name;
    let descriptor = &method.descriptor;
    out.push_str(".method ")?;
    write_member_flags(out, bits)?;
    write!(out, "{name}{descriptor}")?;
    write_member_note(out, commented, bits)?;
    write_body(alloc, out, commented, &method.code)?;
    out.push_str(".end method\n")
}

#[tactic(auto, unfolding(crate::specs::Texts::marked_method))]
fn write_marked_method(
    alloc: Global,
    out: &mut String,
    commented: bool,
    method: &Method,
) -> Result<(), AllocError>
    ensures { OnOk result (out.new.bytes.items ≡ out.old.bytes.items ++ marked_method commented method.now) }
{
    out.push_str("\n")?;
    write_method_mark(out, method)?;
    write_method(alloc, out, commented, method)
}

/// Writes the lines of methods, each behind that of its mark, if it has one, and an empty line before
/// each. After an error some of them may stand there.
pub fn write_methods(
    alloc: Global,
    out: &mut String,
    commented: bool,
    methods: &[Method],
) -> Result<(), AllocError>
    ensures { OnOk result (out.new.bytes.items ≡ out.old.bytes.items ++ flat_map (marked_method commented) methods.now) }
{
    for method in methods {
        write_marked_method(alloc, out, commented, method)?;
    }
    Ok(())
}

// The lines that mark what the text of a class cannot say: comments, each before the line of a class or a member.

ghost use Rattle.std.specs.Prelude.{◌≡◌, ◌++◌, OnOk};
ghost use Rattle.jm_disassembler.specs.Unsaid.{field_part, header_part, method_part};
ghost use Rattle.jm_disassembler.specs.PartTexts.{class_mark, field_mark, method_mark};

use crate::first::{field_part, header_part, method_part};
use crate::unsaid::ClassPart;
use jm_program::{ClassParts, Field, Method};
use std::alloc::AllocError;
use std::fmt::Write;

/// Writes the line that names the first part of the lines before the fields that its text cannot say, if
/// there is one. After an error some of it may stand there.
pub fn write_class_mark(out: &mut String, class: &ClassParts) -> Result<(), AllocError>
    ensures { OnOk result (out.new.bytes.items ≡ out.old.bytes.items ++ class_mark (header_part class.now)) }
{
    write_class_part(out, header_part(class))
}

fn write_class_part(out: &mut String, part: Option<ClassPart>) -> Result<(), AllocError>
    ensures { OnOk result (out.new.bytes.items ≡ out.old.bytes.items ++ class_mark part) }
{
    match part {
        None => Ok(()),
        Some(part) => write!(out, "; 90 NoText({part})\n"),
    }
}

/// Writes the line that names the first part of a field that its text cannot say, if there is one. After
/// an error some of it may stand there.
pub fn write_field_mark(out: &mut String, field: &Field) -> Result<(), AllocError>
    ensures { OnOk result (out.new.bytes.items ≡ out.old.bytes.items ++ field_mark (field_part field.now)) }
{
    match field_part(field) {
        None => Ok(()),
        Some(part) => write!(out, "; 90 NoText({part})\n"),
    }
}

/// Writes the line that names the first part of a method that its text cannot say, if there is one.
/// After an error some of it may stand there.
pub fn write_method_mark(out: &mut String, method: &Method) -> Result<(), AllocError>
    ensures { OnOk result (out.new.bytes.items ≡ out.old.bytes.items ++ method_mark (method_part method.now)) }
{
    match method_part(method) {
        None => Ok(()),
        Some(part) => write!(out, "; 90 NoText({part})\n"),
    }
}

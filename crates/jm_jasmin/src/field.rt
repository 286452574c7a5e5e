// Fields: .field [flags] NAME DESC [= VALUE] (Jasmin User Guide, "Field Definitions").

ghost use Rattle.std.specs.Prelude.{◌≡◌, ◌≤◌, ◌+◌, IfOk, length, slice_get};
ghost use Rattle.jm_bytes.specs.Reading.{GivesAll};
ghost use Rattle.jm_jasmin_ops.specs.declared.fault.AsmFault.TheVariants.{OutOfMemory};
ghost use Rattle.jm_jasmin.specs.Lines.{Reads, by_line};
ghost use Rattle.jm_jasmin.specs.Fields.{kind_of_element, value_kind, int_constant, long_constant, constant_of, constant_at, value_at, has_value, plain_field, field_with_value, field_without_value, field_line, fields};

use crate::lines::{Lines, is_word_at, is_word_token, line_number};
use crate::symbols::{field_name_at, field_type_at};
use crate::words::{flags_before, with_length_from};
use jm_jasmin_lex::{Token, integer, literal};
use jm_jasmin_ops::AsmFault;
use jm_program::{
    AccessFlags, BaseType, Constant, ElementType, Field, FieldType, Sequence, Shared,
};
use std::alloc::{AllocError, Global};

/// What the value of a field is (JVMS 4.7.2, table 4.7.2-A).
#[derive(Clone, Copy)]
pub enum ValueKind {
    Int,
    Long,
    String,
}

fn kind_of_element(element: &ElementType) -> Option<ValueKind>
    ensures { result ≡ kind_of_element element.now }
{
    match element {
        ElementType::Base(
            BaseType::Int | BaseType::Short | BaseType::Char | BaseType::Byte | BaseType::Boolean,
        ) => Some(ValueKind::Int),
        ElementType::Base(BaseType::Long) => Some(ValueKind::Long),
        ElementType::Class(name) => {
            if name.is_string() {
                Some(ValueKind::String)
            } else {
                None
            }
        }
        _ => None,
    }
}

#[tactic(auto, unfolding(crate::specs::Fields::value_kind))]
fn value_kind(field_type: &FieldType) -> Option<ValueKind>
    ensures { result ≡ value_kind field_type.now }
{
    if field_type.dimensions == 0 {
        kind_of_element(&field_type.element)
    } else {
        None
    }
}

fn int_constant(number: Option<i64>) -> Option<Constant>
    ensures { result ≡ int_constant number }
{
    let number = number?;
    if (-2_147_483_648..=2_147_483_647).contains(&number) {
        Some(Constant::Int(number as i32))
    } else {
        None
    }
}

fn long_constant(number: Option<i64>) -> Option<Constant>
    ensures { result ≡ long_constant number }
{
    match number {
        None => None,
        Some(number) => Some(Constant::Long(number)),
    }
}

// A word is a number, a text between quotes a string.
fn constant_of(
    alloc: Global,
    kind: ValueKind,
    token: &Token<'_>,
) -> Result<Option<Constant>, AllocError>
    ensures { IfOk result (λ c. c ≡ constant_of kind token.now) }
{
    match (kind, is_word_token(token)) {
        (ValueKind::Int, true) => Ok(int_constant(integer(token.text()))),
        (ValueKind::Long, true) => Ok(long_constant(integer(token.text()))),
        (ValueKind::String, false) => {
            let units = literal(alloc, token.text())?;
            let units = Shared::new(alloc, Sequence::new(units))?;
            Ok(Some(Constant::String(units)))
        }
        _ => Ok(None),
    }
}

fn constant_at(
    alloc: Global,
    kind: Option<ValueKind>,
    line: &[Token<'_>],
    index: usize,
) -> Result<Option<Constant>, AllocError>
    ensures { IfOk result (λ c. c ≡ constant_at kind (slice_get line.now index)) }
{
    let (Some(kind), Some(token)) = (kind, line.get(index)) else {
        return Ok(None);
    };
    constant_of(alloc, kind, token)
}

// The value that a static field of the type begins with.
#[tactic(auto, unfolding(crate::specs::Fields::value_at))]
fn value_at(
    alloc: Global,
    field: &Field,
    line: &[Token<'_>],
    index: usize,
) -> Result<Option<Constant>, AsmFault>
    ensures { GivesAll (λ c. c) OutOfMemory result (value_at field.now line.now index) }
{
    if !field.flags.has(AccessFlags::STATIC) {
        return Err(AsmFault::Syntax(line_number(line)));
    }
    let constant = constant_at(alloc, value_kind(&field.descriptor), line, index)?;
    match constant {
        None => Err(AsmFault::Syntax(line_number(line))),
        Some(constant) => Ok(Some(constant)),
    }
}

// Whether = stands before the last word.
#[tactic(auto, unfolding(crate::specs::Fields::has_value))]
fn has_value(line: &[Token<'_>]) -> bool
    ensures { result ≡ has_value line.now }
{
    is_word_at(line, line.len().saturating_sub(2), "=")
}

// Flags, name and type, the name at an index.
#[tactic(auto, unfolding(crate::specs::Fields::plain_field))]
fn plain_field(alloc: Global, line: &[Token<'_>], index: usize) -> Result<Field, AsmFault>
    requires some { 1 ≤ index }
    requires within { index + 1 ≤ length line.now }
    ensures { GivesAll (λ f. f) OutOfMemory result (plain_field line.now index) }
{
    let flags = flags_before(0, line, index)?;
    let name = field_name_at(alloc, line, index)?;
    let descriptor = field_type_at(alloc, line, index + 1)?;
    Ok(Field {
        flags,
        name,
        descriptor,
        constant: None,
    })
}

#[tactic(auto, unfolding(crate::specs::Fields::field_with_value))]
fn field_with_value(alloc: Global, line: &[Token<'_>]) -> Result<Field, AsmFault>
    ensures { GivesAll (λ f. f) OutOfMemory result (field_with_value line.now) }
{
    with_length_from(line, 5)?;
    let field = plain_field(alloc, line, line.len() - 4)?;
    let constant = value_at(alloc, &field, line, line.len() - 1)?;
    Ok(Field {
        flags: field.flags,
        name: field.name,
        descriptor: field.descriptor,
        constant,
    })
}

#[tactic(auto, unfolding(crate::specs::Fields::field_without_value))]
fn field_without_value(alloc: Global, line: &[Token<'_>]) -> Result<Field, AsmFault>
    ensures { GivesAll (λ f. f) OutOfMemory result (field_without_value line.now) }
{
    with_length_from(line, 3)?;
    plain_field(alloc, line, line.len() - 2)
}

#[tactic(auto, unfolding(crate::specs::Fields::field_line))]
fn field_line(alloc: Global, line: &[Token<'_>]) -> Result<Field, AsmFault>
    ensures { GivesAll (λ f. f) OutOfMemory result (field_line line.now) }
{
    if has_value(line) {
        field_with_value(alloc, line)
    } else {
        field_without_value(alloc, line)
    }
}

#[tactic(auto, unfolding(crate::specs::Lines::by_line))]
fn field(alloc: Global, lines: &mut Lines<'_, '_>) -> Result<Field, AsmFault>
    ensures { Reads (λ f. f) result lines.new (by_line field_line lines.old) }
{
    let line = lines.next_line();
    field_line(alloc, line)
}

/// The lines of fields.
#[tactic(auto, unfolding(crate::specs::Fields::fields), using(crate::proofs::Steps::steps))]
pub fn fields(alloc: Global, lines: &mut Lines<'_, '_>) -> Result<Vec<Field>, AsmFault>
    ensures { Reads (λ v. v.items) result lines.new (fields lines.old) }
{
    let count = lines.len();
    let mut fields = Vec::new(alloc);
    for _ in 0..count {
        if !lines.begins(".field") {
            return Ok(fields);
        }
        let field = field(alloc, lines)?;
        fields.push(field)?;
    }
    Ok(fields)
}

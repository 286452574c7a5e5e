// Names and types in a text (JVMS 4.2, 4.3), with the line where one is none.

ghost use Rattle.std.specs.Prelude.{◌≡◌, ◌≤◌, ◌<◌, ◌+◌, ◌==◌, IfOk, IfSome, length};
ghost use Rattle.std.specs.List.{position};
ghost use Rattle.jm_bytes.specs.Reading.{GivesAll};
ghost use Rattle.jm_program.specs.Descriptors.{argument_slots};
ghost use Rattle.jm_jasmin_ops.specs.declared.fault.AsmFault.TheVariants.{OutOfMemory};
ghost use Rattle.jm_jasmin.specs.Symbols.{class_name, field_name, method_name, field_type, method_type, units_at, class_name_at, field_name_at, field_type_at};

use crate::lines::line_number;
use crate::words::operand;
use jm_class_format::{
    class_name_of, field_name_of, field_type_of, method_name_of, method_type_of,
};
use jm_jasmin_lex::Token;
use jm_jasmin_ops::{AsmFault, at_line};
use jm_program::{FieldType, MethodDescriptor, Name, code_units};
use std::alloc::Global;

#[tactic(auto, unfolding(crate::specs::Symbols::class_name), using(crate::proofs::Faults::fault_seen))]
fn class_name(alloc: Global, line: usize, units: &[u16]) -> Result<Name, AsmFault>
    ensures { GivesAll (λ name. name) OutOfMemory result (class_name line units.now) }
{
    at_line(line, class_name_of(alloc, units))
}

#[tactic(auto, unfolding(crate::specs::Symbols::field_name), using(crate::proofs::Faults::fault_seen))]
fn field_name(alloc: Global, line: usize, units: &[u16]) -> Result<Name, AsmFault>
    ensures { GivesAll (λ name. name) OutOfMemory result (field_name line units.now) }
{
    at_line(line, field_name_of(alloc, units))
}

/// The name of a method that a class declares (JVMS 4.2.2).
#[tactic(auto, unfolding(crate::specs::Symbols::method_name), using(crate::proofs::Faults::fault_seen))]
pub fn method_name(alloc: Global, line: usize, units: &[u16]) -> Result<Name, AsmFault>
    ensures { GivesAll (λ name. name) OutOfMemory result (method_name line units.now) }
{
    at_line(line, method_name_of(alloc, units))
}

#[tactic(auto, unfolding(crate::specs::Symbols::field_type), using(crate::proofs::Faults::fault_seen))]
fn field_type(alloc: Global, line: usize, units: &[u16]) -> Result<FieldType, AsmFault>
    ensures { GivesAll (λ t. t) OutOfMemory result (field_type line units.now) }
{
    at_line(line, field_type_of(alloc, units))
}

/// The type of a method whose receiver takes so many slots (JVMS 4.3.3).
#[tactic(auto, unfolding(crate::specs::Symbols::method_type), using(crate::proofs::Faults::fault_seen))]
pub fn method_type(
    alloc: Global,
    line: usize,
    receiver: u8,
    units: &[u16],
) -> Result<MethodDescriptor, AsmFault>
    ensures given { GivesAll (λ d. d) OutOfMemory result (method_type line receiver units.now) }
    ensures few { IfOk result (λ d. argument_slots d + receiver ≤ 255) }
{
    at_line(line, method_type_of(alloc, receiver, units))
}

/// The UTF-16 code units of the word at a place of a line.
#[tactic(auto, unfolding(crate::specs::Symbols::units_at))]
pub fn units_at(alloc: Global, line: &[Token<'_>], index: usize) -> Result<Vec<u16>, AsmFault>
    ensures { GivesAll (λ units. units.items) OutOfMemory result (units_at line.now index) }
{
    let text = operand(line, index)?;
    let units = code_units(alloc, text)?;
    Ok(units)
}

/// The name of a class or an interface at a place of a line (JVMS 4.2.1).
#[tactic(auto, unfolding(crate::specs::Symbols::class_name_at))]
pub fn class_name_at(alloc: Global, line: &[Token<'_>], index: usize) -> Result<Name, AsmFault>
    ensures { GivesAll (λ name. name) OutOfMemory result (class_name_at line.now index) }
{
    let units = units_at(alloc, line, index)?;
    class_name(alloc, line_number(line), &units)
}

/// The name of a field at a place of a line (JVMS 4.2.2).
#[tactic(auto, unfolding(crate::specs::Symbols::field_name_at))]
pub fn field_name_at(alloc: Global, line: &[Token<'_>], index: usize) -> Result<Name, AsmFault>
    ensures { GivesAll (λ name. name) OutOfMemory result (field_name_at line.now index) }
{
    let units = units_at(alloc, line, index)?;
    field_name(alloc, line_number(line), &units)
}

/// The type of a field at a place of a line (JVMS 4.3.2).
#[tactic(auto, unfolding(crate::specs::Symbols::field_type_at))]
pub fn field_type_at(alloc: Global, line: &[Token<'_>], index: usize) -> Result<FieldType, AsmFault>
    ensures { GivesAll (λ t. t) OutOfMemory result (field_type_at line.now index) }
{
    let units = units_at(alloc, line, index)?;
    field_type(alloc, line_number(line), &units)
}

/// The first place of a code unit.
pub fn position_of(units: &[u16], sought: u16) -> Option<usize>
    ensures found { result ≡ position (λ unit. unit == sought) units.now }
    ensures within { IfSome result (λ at. at < length units.now) }
{
    units.iter().position(|unit| *unit == sought)
}

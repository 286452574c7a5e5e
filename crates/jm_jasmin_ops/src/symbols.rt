// Names and types, their faults at a line (JVMS 4.2, 4.3, 4.4).

ghost use Rattle.std.specs.Prelude.{◌≡◌};
ghost use Rattle.jm_bytes.specs.Reading.{and_then, fault_as, GivesAll, TakesAll};
ghost use Rattle.jm_program.specs.Texts.{utf16_of};
ghost use Rattle.jm_class_format.specs.Symbols.{class_name_of, field_name_of, field_type_of, class_ref_of, method_ref_of, operand_ref};
ghost use Rattle.jm_class_format.specs.declared.read_fault.ReadFault.TheVariants as read;
ghost use Rattle.jm_jasmin_ops.specs.declared.fault.AsmFault.TheVariants.{OutOfMemory};
ghost use Rattle.jm_jasmin_ops.specs.Faults.{of_read};
ghost use Rattle.jm_jasmin_ops.specs.Operands.{units, field_of};

use crate::fault::{AsmFault, at_line};
use crate::words::word;
use jm_class_format::{ReadFault, operand_ref};
use jm_jasmin_lex::Token;
use jm_program::{ClassRef, FieldType, InvokeOp, MethodRef, Name, TypeOp, code_units};
use std::alloc::Global;

/// The UTF-16 code units of a word.
#[tactic(auto, unfolding(crate::specs::Operands::units))]
pub fn units(alloc: Global, token: &Token<'_>) -> Result<Vec<u16>, AsmFault>
    ensures { GivesAll (λ v. v.items) OutOfMemory result (units token.now) }
{
    let text = word(token)?;
    let units = code_units(alloc, text)?;
    Ok(units)
}

/// The name of a class.
pub fn class_name_at(alloc: Global, line: usize, units: &[u16]) -> Result<Name, AsmFault>
    ensures { GivesAll (λ name. name) OutOfMemory result (fault_as (of_read line) (class_name_of units.now)) }
{
    at_line(line, jm_class_format::class_name_of(alloc, units))
}

fn typed_ref(alloc: Global, op: TypeOp, units: &[u16]) -> Result<ClassRef, ReadFault>
    ensures { GivesAll (λ class. class) read.OutOfMemory result (and_then (class_ref_of units.now) (operand_ref op)) }
{
    let class = jm_class_format::class_ref_of(alloc, units)?;
    let class = operand_ref(op, class)?;
    Ok(class)
}

/// The class, the interface or the array type of `anewarray`, `multianewarray`, `checkcast` and
/// `instanceof`.
pub fn class_ref_at(
    alloc: Global,
    line: usize,
    op: TypeOp,
    units: &[u16],
) -> Result<ClassRef, AsmFault>
    ensures { GivesAll (λ class. class) OutOfMemory result (fault_as (of_read line) (and_then (class_ref_of units.now) (operand_ref op))) }
{
    at_line(line, typed_ref(alloc, op, units))
}

fn field_of(alloc: Global, class: &[u16], name: &[u16]) -> Result<(ClassRef, Name), ReadFault>
    ensures { GivesAll (λ x. (x.0, x.1)) read.OutOfMemory result (field_of (class.now, name.now)) }
{
    let class = jm_class_format::class_ref_of(alloc, class)?;
    let name = jm_class_format::field_name_of(alloc, name)?;
    Ok((class, name))
}

/// The class and the name of a field, class before name.
pub fn field_at(
    alloc: Global,
    line: usize,
    class: &[u16],
    name: &[u16],
) -> Result<(ClassRef, Name), AsmFault>
    ensures { GivesAll (λ x. (x.0, x.1)) OutOfMemory result (fault_as (of_read line) (field_of (class.now, name.now))) }
{
    at_line(line, field_of(alloc, class, name))
}

/// The type of a field.
pub fn field_type_at(alloc: Global, line: usize, units: &[u16]) -> Result<FieldType, AsmFault>
    ensures { GivesAll (λ t. t) OutOfMemory result (fault_as (of_read line) (field_type_of units.now)) }
{
    at_line(line, jm_class_format::field_type_of(alloc, units))
}

/// The method that an instruction invokes: class before name before type.
pub fn method_ref_at(
    alloc: Global,
    line: usize,
    op: InvokeOp,
    class: &[u16],
    name: &[u16],
    descriptor: &[u16],
) -> Result<MethodRef, AsmFault>
    ensures { GivesAll (λ method. method) OutOfMemory result (fault_as (of_read line) (method_ref_of op (class.now, name.now, descriptor.now))) }
{
    at_line(
        line,
        jm_class_format::method_ref_of(alloc, op, class, name, descriptor),
    )
}

// The operands of an instruction, each in one word or string (Jasmin User Guide, "Instructions";
// JVMS 6.5).

ghost use Rattle.std.specs.Prelude.{◌≡◌, ◌<◌, IfSome, IsTrue, length, position, reverse};
ghost use Rattle.jm_bytes.specs.Reading.{GivesAll, TakesAll};
ghost use Rattle.jm_program.specs.Instructions.{has_dimensions};
ghost use Rattle.jm_jasmin_ops.specs.declared.fault.AsmFault.TheVariants.{OutOfMemory, LeftOut};
ghost use Rattle.jm_jasmin_ops.specs.declared.fault.AsmLeftOut.TheVariants.{Instruction};
ghost use Rattle.jm_jasmin_ops.specs.Operands.{no_float_or_class, loaded, no_double, loaded_long, element_named, element_type, class_name, class_ref, dimensions, is_slash, parted_at, member, field_named, field_typed, is_parenthesis, method_at, method, counted};

use crate::fault::{AsmFault, AsmLeftOut};
use crate::numbers::{integer, natural, natural_within, signed_int};
use crate::profile::{is_named, is_real};
use crate::symbols::{class_name_at, class_ref_at, field_at, field_type_at, method_ref_at, units};
use crate::words::word;
use jm_class_format::{LeftOutOp, LeftOutPart};
use jm_jasmin_lex::{Token, TokenKind, literal};
use jm_program::{
    ClassRef, Constant, FieldRef, InvokeOp, MethodRef, Name, PrimitiveType, Sequence, Shared,
    TypeOp,
};
use std::alloc::Global;

const SLASH: u16 = 47;

const PARENTHESIS: u16 = 40;

// A number with a fraction or an exponent, and the name of a class, are left out.
fn no_float_or_class(line: usize, word: &str) -> Result<(), AsmFault>
    ensures { TakesAll (λ x. x) result (no_float_or_class line word.now) }
{
    if is_real(word) {
        return Err(AsmFault::LeftOut(AsmLeftOut::Part(LeftOutPart::FloatType), line));
    }
    if is_named(word) {
        return Err(AsmFault::LeftOut(AsmLeftOut::Part(LeftOutPart::LdcClass), line));
    }
    Ok(())
}

/// What `ldc` and `ldc_w` push: an int or a string.
#[tactic(auto, unfolding(crate::specs::Operands::loaded))]
pub fn loaded(alloc: Global, token: &Token<'_>) -> Result<Constant, AsmFault>
    ensures { GivesAll (λ c. c) OutOfMemory result (loaded token.now) }
{
    match token.kind() {
        TokenKind::Word => {
            no_float_or_class(token.line(), token.text())?;
            let number = signed_int(token)?;
            Ok(Constant::Int(number))
        }
        TokenKind::Text => {
            let units = literal(alloc, token.text())?;
            let units = Shared::new(alloc, Sequence::new(units))?;
            Ok(Constant::String(units))
        }
    }
}

// A number with a fraction or an exponent is left out.
fn no_double(line: usize, word: &str) -> Result<(), AsmFault>
    ensures { TakesAll (λ x. x) result (no_double line word.now) }
{
    if is_real(word) {
        return Err(AsmFault::LeftOut(AsmLeftOut::Part(LeftOutPart::DoubleType), line));
    }
    Ok(())
}

/// What `ldc2_w` pushes: a long.
#[tactic(auto, unfolding(crate::specs::Operands::loaded_long))]
pub fn loaded_long(token: &Token<'_>) -> Result<Constant, AsmFault>
    ensures { TakesAll (λ c. c) result (loaded_long token.now) }
{
    let text = word(token)?;
    no_double(token.line(), text)?;
    let number = integer(token)?;
    Ok(Constant::Long(number))
}

fn element_named(line: usize, text: &str) -> Result<PrimitiveType, AsmFault>
    ensures { TakesAll (λ t. t) result (element_named line text.now) }
{
    if text == "boolean" {
        Ok(PrimitiveType::Boolean)
    } else if text == "char" {
        Ok(PrimitiveType::Char)
    } else if text == "byte" {
        Ok(PrimitiveType::Byte)
    } else if text == "short" {
        Ok(PrimitiveType::Short)
    } else if text == "int" {
        Ok(PrimitiveType::Int)
    } else if text == "long" {
        Ok(PrimitiveType::Long)
    } else if text == "float" {
        Err(left_out(LeftOutOp::FloatArray, line))
    } else if text == "double" {
        Err(left_out(LeftOutOp::DoubleArray, line))
    } else {
        Err(AsmFault::Syntax(line))
    }
}

/// The refusal of an instruction, or of an element type, that the profile leaves out.
pub fn left_out(op: LeftOutOp, line: usize) -> AsmFault
    ensures { result ≡ LeftOut (Instruction op) line }
{
    AsmFault::LeftOut(AsmLeftOut::Instruction(op), line)
}

/// The element type of `newarray`.
#[tactic(auto, unfolding(crate::specs::Operands::element_type))]
pub fn element_type(token: &Token<'_>) -> Result<PrimitiveType, AsmFault>
    ensures { TakesAll (λ t. t) result (element_type token.now) }
{
    let text = word(token)?;
    element_named(token.line(), text)
}

/// The class of `new`.
#[tactic(auto, unfolding(crate::specs::Operands::class_name))]
pub fn class_name(alloc: Global, token: &Token<'_>) -> Result<Name, AsmFault>
    ensures { GivesAll (λ name. name) OutOfMemory result (class_name token.now) }
{
    let units = units(alloc, token)?;
    class_name_at(alloc, token.line(), &units)
}

/// The class, the interface or the array type of `anewarray`, `multianewarray`, `checkcast` and
/// `instanceof`.
#[tactic(auto, unfolding(crate::specs::Operands::class_ref))]
pub fn class_ref(alloc: Global, op: TypeOp, token: &Token<'_>) -> Result<ClassRef, AsmFault>
    ensures { GivesAll (λ class. class) OutOfMemory result (class_ref op token.now) }
{
    let units = units(alloc, token)?;
    class_ref_at(alloc, token.line(), op, &units)
}

// Whether it is an array type of so many dimensions or more, and they are one or more.
fn has_dimensions(class: &ClassRef, dimensions: u64) -> bool
    ensures is { result ≡ has_dimensions class.now dimensions }
    ensures few { IsTrue result → dimensions < 256 }
{
    match class {
        ClassRef::Class(_) => false,
        ClassRef::Array(array) => 0 < dimensions && dimensions <= u64::from(array.dimensions),
    }
}

/// In how many of the dimensions of a type `multianewarray` makes arrays.
#[tactic(auto, unfolding(crate::specs::Operands::dimensions))]
pub fn dimensions(class: &ClassRef, token: &Token<'_>) -> Result<u8, AsmFault>
    ensures { TakesAll (λ d. d) result (dimensions class.now token.now) }
{
    let number = integer(token)?;
    let dimensions = natural(number).ok_or(AsmFault::BadCount(token.line()))?;
    if has_dimensions(class, dimensions) {
        Ok(dimensions as u8)
    } else {
        Err(AsmFault::BadCount(token.line()))
    }
}

// How many units stand behind the last `/`.
fn behind_slash(units: &[u16]) -> Option<usize>
    ensures found { result ≡ position is_slash (reverse units.now) }
    ensures within { IfSome result (λ behind. behind < length units.now) }
{
    units.iter().rev().position(|unit| *unit == SLASH)
}

/// A class and a member's name, parted at the last `/`.
#[tactic(auto, unfolding(crate::specs::Operands::member))]
fn member(line: usize, units: &[u16]) -> Result<(&[u16], &[u16]), AsmFault>
    ensures { TakesAll (λ x. (x.0.now, x.1.now)) result (member line units.now) }
{
    match behind_slash(units) {
        None => Err(AsmFault::Syntax(line)),
        Some(behind) => {
            let class = &units[..units.len() - (behind + 1)];
            let name = &units[units.len() - behind..];
            Ok((class, name))
        }
    }
}

/// The class and the name of a field, as `CLASS/NAME`.
#[tactic(auto, unfolding(crate::specs::Operands::field_named))]
pub fn field_named(alloc: Global, token: &Token<'_>) -> Result<(ClassRef, Name), AsmFault>
    ensures { GivesAll (λ x. (x.0, x.1)) OutOfMemory result (field_named token.now) }
{
    let units = units(alloc, token)?;
    let (class, name) = member(token.line(), &units)?;
    field_at(alloc, token.line(), class, name)
}

/// The field of a class and a name that has the type of a word.
#[tactic(auto, unfolding(crate::specs::Operands::field_typed))]
pub fn field_typed(
    alloc: Global,
    class: ClassRef,
    name: Name,
    token: &Token<'_>,
) -> Result<FieldRef, AsmFault>
    ensures { GivesAll (λ field. field) OutOfMemory result (field_typed (class, name) token.now) }
{
    let units = units(alloc, token)?;
    let descriptor = field_type_at(alloc, token.line(), &units)?;
    Ok(FieldRef {
        class,
        name,
        descriptor,
    })
}

fn parenthesis(units: &[u16]) -> Option<usize>
    ensures found { result ≡ position is_parenthesis units.now }
    ensures within { IfSome result (λ at. at < length units.now) }
{
    units.iter().position(|unit| *unit == PARENTHESIS)
}

fn method_at(alloc: Global, line: usize, op: InvokeOp, units: &[u16]) -> Result<MethodRef, AsmFault>
    ensures { GivesAll (λ method. method) OutOfMemory result (method_at line op units.now (position is_parenthesis units.now)) }
{
    match parenthesis(units) {
        None => Err(AsmFault::Syntax(line)),
        Some(at) => {
            let (class, name) = member(line, &units[..at])?;
            method_ref_at(alloc, line, op, class, name, &units[at..])
        }
    }
}

/// The method of `CLASS/NAMEDESCRIPTOR`.
#[tactic(auto, unfolding(crate::specs::Operands::method))]
pub fn method(alloc: Global, op: InvokeOp, token: &Token<'_>) -> Result<MethodRef, AsmFault>
    ensures { GivesAll (λ method. method) OutOfMemory result (method op token.now) }
{
    let units = units(alloc, token)?;
    method_at(alloc, token.line(), op, &units)
}

/// The method, where a word is the count of its argument slots with the receiver's.
#[tactic(auto, unfolding(crate::specs::Operands::counted))]
pub fn counted(method: MethodRef, token: &Token<'_>) -> Result<MethodRef, AsmFault>
    ensures { TakesAll (λ method. method) result (counted method token.now) }
{
    let count = natural_within(255, token)?;
    let Some(slots) = method.descriptor.argument_slots() else {
        return Err(AsmFault::BadCount(token.line()));
    };
    if count == u16::from(slots) + 1 {
        Ok(method)
    } else {
        Err(AsmFault::BadCount(token.line()))
    }
}

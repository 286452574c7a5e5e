// Classes, fields and methods, as instructions name them (JVMS 4.4.1, 4.4.2).

ghost use Rattle.std.specs.Prelude.{◌≡◌};
ghost use Rattle.jm_bytes.specs.Reading.{GivesAll, TakesAll};
ghost use Rattle.jm_class_format.specs.declared.read_fault.ReadFault.TheVariants.{OutOfMemory};
ghost use Rattle.jm_class_format.specs.Symbols.{begins_with_bracket, class_ref_of, dimensioned_ref, element_ref, field_ref_of, method_ref_of, operand_ref};

use crate::names::{class_name_of, field_name_of, invoked_name_of};
use crate::read_fault::ReadFault;
use crate::types::{field_type_of, method_type_of};
use jm_program::{ClassRef, FieldRef, InvokeOp, MethodRef, TypeOp};
use std::alloc::Global;

const BRACKET: u16 = 91;

/// Whether a Class entry's text is that of an array type: it begins with `[` (JVMS 4.4.1).
pub fn begins_with_bracket(units: &[u16]) -> bool
    ensures { result ≡ begins_with_bracket units.now }
{
    match units.first() {
        Some(unit) => *unit == BRACKET,
        None => false,
    }
}

/// The array type, where the text begins with `[`, and else the class or the interface
/// (JVMS 4.4.1).
///
/// # Errors
/// `BadName` where a class cannot have the name; for an array type those of [`field_type_of`];
/// `OutOfMemory` where there is no memory for it.
#[tactic(auto, unfolding(crate::specs::Symbols::class_ref_of))]
pub fn class_ref_of(alloc: Global, units: &[u16]) -> Result<ClassRef, ReadFault>
    ensures { GivesAll (λ class. class) OutOfMemory result (class_ref_of units.now) }
{
    if begins_with_bracket(units) {
        let field_type = field_type_of(alloc, units)?;
        Ok(ClassRef::Array(field_type))
    } else {
        let name = class_name_of(alloc, units)?;
        Ok(ClassRef::Class(name))
    }
}

// The same class or type, where an array of it has at most 255 dimensions (JVMS 4.9.1).
#[tactic(auto, unfolding(crate::specs::Symbols::element_ref))]
fn element_ref(class: ClassRef) -> Result<ClassRef, ReadFault>
    ensures { TakesAll (λ class. class) result (element_ref class) }
{
    match class {
        ClassRef::Class(name) => Ok(ClassRef::Class(name)),
        ClassRef::Array(field_type) => {
            if field_type.dimensions == 255 {
                Err(ReadFault::BadDescriptor)
            } else {
                Ok(ClassRef::Array(field_type))
            }
        }
    }
}

// The same type, where it is an array type of so many dimensions or more, and they are one or more
// (JVMS 6.5 multianewarray).
#[tactic(auto, unfolding(crate::specs::Symbols::dimensioned_ref))]
fn dimensioned_ref(dimensions: u8, class: ClassRef) -> Result<ClassRef, ReadFault>
    ensures { TakesAll (λ class. class) result (dimensioned_ref dimensions class) }
{
    match class {
        ClassRef::Class(_) => Err(ReadFault::BadAttribute),
        ClassRef::Array(field_type) => {
            if 0 < dimensions && dimensions <= field_type.dimensions {
                Ok(ClassRef::Array(field_type))
            } else {
                Err(ReadFault::BadAttribute)
            }
        }
    }
}

/// The same class or type, where what is done with it can be done (JVMS 4.9.1, 6.5).
///
/// # Errors
/// `BadDescriptor` for `anewarray` where an array of it would have more than 255 dimensions;
/// `BadAttribute` for `multianewarray` where it is no array type, or does not have the dimensions, of
/// which there is one at least.
pub fn operand_ref(op: TypeOp, class: ClassRef) -> Result<ClassRef, ReadFault>
    ensures { TakesAll (λ class. class) result (operand_ref op class) }
{
    match op {
        TypeOp::NewArray => element_ref(class),
        TypeOp::NewArrays(dimensions) => dimensioned_ref(dimensions, class),
        TypeOp::CheckCast | TypeOp::InstanceOf => Ok(class),
    }
}

/// The field that the texts of a class, a name and a descriptor name (JVMS 4.4.2).
///
/// # Errors
/// The first of those of [`class_ref_of`], [`field_name_of`] and [`field_type_of`], in this order.
#[tactic(auto, unfolding(crate::specs::Symbols::field_ref_of))]
pub fn field_ref_of(
    alloc: Global,
    class: &[u16],
    name: &[u16],
    descriptor: &[u16],
) -> Result<FieldRef, ReadFault>
    ensures { GivesAll (λ field. field) OutOfMemory result (field_ref_of (class.now, name.now, descriptor.now)) }
{
    let class = class_ref_of(alloc, class)?;
    let name = field_name_of(alloc, name)?;
    let descriptor = field_type_of(alloc, descriptor)?;
    Ok(FieldRef {
        class,
        name,
        descriptor,
    })
}

/// The method that the texts of a class, a name and a descriptor name, for such an invoke
/// (JVMS 4.4.2).
///
/// # Errors
/// The first of those of [`class_ref_of`], [`invoked_name_of`] and [`method_type_of`] with the
/// invoke's receiver, in this order.
#[tactic(auto, unfolding(crate::specs::Symbols::method_ref_of))]
pub fn method_ref_of(
    alloc: Global,
    op: InvokeOp,
    class: &[u16],
    name: &[u16],
    descriptor: &[u16],
) -> Result<MethodRef, ReadFault>
    ensures { GivesAll (λ method. method) OutOfMemory result (method_ref_of op (class.now, name.now, descriptor.now)) }
{
    let class = class_ref_of(alloc, class)?;
    let name = invoked_name_of(alloc, name)?;
    let descriptor = method_type_of(alloc, op.receiver_slots(), descriptor)?;
    Ok(MethodRef {
        class,
        name,
        descriptor,
    })
}

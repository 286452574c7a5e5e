// Types, by their descriptors (JVMS 4.3).

ghost use Rattle.std.specs.Prelude.{◌≡◌, ◌≤◌, ◌+◌, IfOk};
ghost use Rattle.jm_bytes.specs.Reading.{GivesAll, TakesAll};
ghost use Rattle.jm_program.specs.Descriptors.{argument_slots};
ghost use Rattle.jm_class_format.specs.declared.read_fault.ReadFault.TheVariants.{OutOfMemory};
ghost use Rattle.jm_class_format.specs.Symbols.{descriptor_of, field_only, method_only, left_out_element, left_out_types, left_out_return, left_out_method_type, field_type_of, method_type_of};

use crate::read_fault::{LeftOutPart, ReadFault};
use jm_program::{BaseType, Descriptor, ElementType, FieldType, MethodDescriptor};
use std::alloc::Global;

fn descriptor_of(alloc: Global, units: &[u16]) -> Result<Descriptor, ReadFault>
    ensures { GivesAll (λ d. d) OutOfMemory result (descriptor_of units.now) }
{
    match Descriptor::parse_units(alloc, units) {
        Ok(descriptor) => Ok(descriptor),
        Err(fault) => Err(ReadFault::from(fault)),
    }
}

#[tactic(auto, unfolding(crate::specs::Symbols::field_only))]
fn field_only(descriptor: Descriptor) -> Result<FieldType, ReadFault>
    ensures { TakesAll (λ t. t) result (field_only descriptor) }
{
    match descriptor {
        Descriptor::Field(field_type) => Ok(field_type),
        Descriptor::Method(_) => Err(ReadFault::BadDescriptor),
    }
}

#[tactic(auto, unfolding(crate::specs::Symbols::method_only))]
fn method_only(descriptor: Descriptor) -> Result<MethodDescriptor, ReadFault>
    ensures { TakesAll (λ d. d) result (method_only descriptor) }
{
    match descriptor {
        Descriptor::Method(method_type) => Ok(method_type),
        Descriptor::Field(_) => Err(ReadFault::BadDescriptor),
    }
}

// Float and double are left out.
fn left_out_element(element: &ElementType) -> Option<LeftOutPart>
    ensures { result ≡ left_out_element element.now }
{
    match element {
        ElementType::Base(BaseType::Float) => Some(LeftOutPart::FloatType),
        ElementType::Base(BaseType::Double) => Some(LeftOutPart::DoubleType),
        _ => None,
    }
}

// The first part of some types that is left out.
#[tactic(auto, using(crate::proofs::LeftOutTypes::left_out_steps))]
fn left_out_types(types: &[FieldType]) -> Option<LeftOutPart>
    ensures { result ≡ left_out_types types.now }
{
    for field_type in types {
        let part = left_out_element(&field_type.element);
        if part.is_some() {
            return part;
        }
    }
    None
}

fn left_out_return(return_type: &Option<FieldType>) -> Option<LeftOutPart>
    ensures { result ≡ left_out_return return_type.now }
{
    match return_type {
        None => None,
        Some(field_type) => left_out_element(&field_type.element),
    }
}

#[tactic(auto, unfolding(crate::specs::Symbols::left_out_method_type))]
fn left_out_method_type(descriptor: &MethodDescriptor) -> Option<LeftOutPart>
    ensures { result ≡ left_out_method_type descriptor.now }
{
    match left_out_types(descriptor.parameters.as_slice()) {
        Some(part) => Some(part),
        None => left_out_return(&descriptor.return_type),
    }
}

/// The type of a field, of which float and double are left out (JVMS 4.3.2).
///
/// # Errors
/// `BadDescriptor` where the text is no field descriptor, `BadName` where a class in it cannot
/// have its name, `LeftOut` where its element is left out, `OutOfMemory` where there is no memory
/// for it.
#[tactic(auto, unfolding(crate::specs::Symbols::field_type_of))]
pub fn field_type_of(alloc: Global, units: &[u16]) -> Result<FieldType, ReadFault>
    ensures { GivesAll (λ t. t) OutOfMemory result (field_type_of units.now) }
{
    let descriptor = descriptor_of(alloc, units)?;
    let field_type = field_only(descriptor)?;
    match left_out_element(&field_type.element) {
        None => Ok(field_type),
        Some(part) => Err(ReadFault::LeftOut(part)),
    }
}

/// The type of a method whose receiver takes so many slots (JVMS 4.3.3).
///
/// # Errors
/// `BadDescriptor` where the text is no method descriptor, or where its arguments take more than
/// 255 slots with the receiver; `BadName` where a class in it cannot have its name; `LeftOut` where
/// a part of it is left out; `OutOfMemory` where there is no memory for it.
#[tactic(auto, unfolding(crate::specs::Symbols::method_type_of, crate::specs::Symbols::with_slots))]
pub fn method_type_of(
    alloc: Global,
    receiver: u8,
    units: &[u16],
) -> Result<MethodDescriptor, ReadFault>
    ensures given { GivesAll (λ d. d) OutOfMemory result (method_type_of receiver units.now) }
    ensures few { IfOk result (λ d. argument_slots d + receiver ≤ 255) }
{
    let descriptor = descriptor_of(alloc, units)?;
    let method_type = method_only(descriptor)?;
    if !method_type.fits_with(receiver) {
        return Err(ReadFault::BadDescriptor);
    }
    match left_out_method_type(&method_type) {
        None => Ok(method_type),
        Some(part) => Err(ReadFault::LeftOut(part)),
    }
}

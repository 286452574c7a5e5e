// The texts of types, in code units (JVMS 4.3).

ghost use Rattle.std.specs.Prelude.{◌≡◌, ◌++◌, ◌∷◌, [], All, OnOk, IfOk, replicate};
ghost use Rattle.std.specs.List.{flat_map};
ghost use Rattle.jm_program.specs.Descriptors.{base_letter, element_text, field_text, return_text, method_text};
ghost use Rattle.jm_class_writer.specs.PoolUse.{class_text};
ghost use Rattle.jm_class_writer.specs.Ranges.{OfSome, UnitsInRange, ElementInRange, TypeInRange, MethodTypeInRange, ClassRefInRange};

use jm_program::{BaseType, ClassRef, ElementType, FieldType, MethodDescriptor, Name};
use std::alloc::{AllocError, Global};

const ARRAY: u16 = 91;

const CLASS: u16 = 76;

const CLASS_END: u16 = 59;

const PARAMETERS: u16 = 40;

const PARAMETERS_END: u16 = 41;

const VOID: u16 = 86;

// The letter of a primitive type (JVMS 4.3.2, table 4.3-A).
fn base_letter(base: BaseType) -> u16
    ensures { result ≡ base_letter base }
{
    match base {
        BaseType::Byte => 66,
        BaseType::Char => 67,
        BaseType::Double => 68,
        BaseType::Float => 70,
        BaseType::Int => 73,
        BaseType::Long => 74,
        BaseType::Short => 83,
        BaseType::Boolean => 90,
    }
}

fn push_units(text: &mut Vec<u16>, units: &[u16]) -> Result<(), AllocError>
    ensures text { OnOk result (text.new.items ≡ text.old.items ++ units.now) }
    ensures range { UnitsInRange units.now }
{
    text.extend_from_slice(units)
}

fn push_element(text: &mut Vec<u16>, element: &ElementType) -> Result<(), AllocError>
    ensures text { OnOk result (text.new.items ≡ text.old.items ++ element_text element.now) }
    ensures range { OnOk result (ElementInRange element.now) }
{
    match element {
        ElementType::Base(base) => text.push(base_letter(*base))?,
        ElementType::Class(name) => {
            text.push(CLASS)?;
            push_units(text, name.units())?;
            text.push(CLASS_END)?;
        }
    }
    Ok(())
}

#[tactic(auto, using(std::proofs::lemmas::List::replicate_more, std::proofs::lemmas::List::append_assoc))]
fn push_dimensions(text: &mut Vec<u16>, dimensions: u8) -> Result<(), AllocError>
    ensures { OnOk result (text.new.items ≡ text.old.items ++ replicate dimensions 91) }
{
    for _dimension in 0..dimensions {
        text.push(ARRAY)?;
    }
    Ok(())
}

fn push_field_type(text: &mut Vec<u16>, field_type: &FieldType) -> Result<(), AllocError>
    ensures text { OnOk result (text.new.items ≡ text.old.items ++ field_text field_type.now) }
    ensures range { OnOk result (TypeInRange field_type.now) }
{
    push_dimensions(text, field_type.dimensions)?;
    push_element(text, &field_type.element)
}

#[tactic(auto, using(jm_bytes::proofs::Loops::text_steps, crate::proofs::Loops::known_next, crate::proofs::Loops::known_all))]
fn push_parameters(text: &mut Vec<u16>, parameters: &[FieldType]) -> Result<(), AllocError>
    ensures text { OnOk result (text.new.items ≡ text.old.items ++ flat_map field_text parameters.now) }
    ensures range { OnOk result (All TypeInRange parameters.now) }
{
    for parameter in parameters {
        push_field_type(text, parameter)?;
    }
    Ok(())
}

fn push_return(text: &mut Vec<u16>, return_type: &Option<FieldType>) -> Result<(), AllocError>
    ensures text { OnOk result (text.new.items ≡ text.old.items ++ return_text return_type.now) }
    ensures range { OnOk result (OfSome TypeInRange return_type.now) }
{
    match return_type {
        None => {
            text.push(VOID)?;
            Ok(())
        }
        Some(field_type) => push_field_type(text, field_type),
    }
}

/// The descriptor of a field's type (JVMS 4.3.2).
pub fn field_text(alloc: Global, field_type: &FieldType) -> Result<Name, AllocError>
    ensures text { IfOk result (λ name. name ≡ field_text field_type.now) }
    ensures range { OnOk result (TypeInRange field_type.now) }
{
    let mut text = Vec::new(alloc);
    push_field_type(&mut text, field_type)?;
    Ok(Name::new(text))
}

/// The descriptor of a method's type (JVMS 4.3.3).
pub fn method_text(alloc: Global, method_type: &MethodDescriptor) -> Result<Name, AllocError>
    ensures text { IfOk result (λ name. name ≡ method_text method_type.now) }
    ensures range { OnOk result (MethodTypeInRange method_type.now) }
{
    let mut text = Vec::new(alloc);
    text.push(PARAMETERS)?;
    push_parameters(&mut text, method_type.parameters.as_slice())?;
    text.push(PARAMETERS_END)?;
    push_return(&mut text, &method_type.return_type)?;
    Ok(Name::new(text))
}

/// The same code units in a place of their own.
pub fn copied(alloc: Global, units: &[u16]) -> Result<Name, AllocError>
    ensures text { IfOk result (λ name. name ≡ units.now) }
    ensures range { UnitsInRange units.now }
{
    let units = Vec::from_slice(alloc, units)?;
    Ok(Name::new(units))
}

/// The name of a class, or the descriptor of an array type (JVMS 4.4.1).
pub fn class_text(alloc: Global, class: &ClassRef) -> Result<Name, AllocError>
    ensures text { IfOk result (λ name. name ≡ class_text class.now) }
    ensures range { OnOk result (ClassRefInRange class.now) }
{
    match class {
        ClassRef::Class(name) => copied(alloc, name.units()),
        ClassRef::Array(array) => field_text(alloc, array),
    }
}

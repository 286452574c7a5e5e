// The object that is made of a shape.

ghost use Rattle.std.specs.Prelude.{◌≡◌, ◌+◌, ◌<◌, ◌^◌, IfOk, Some, length, map, replicate};
ghost use Rattle.jm_values.specs.Objects.{default_of};
ghost use Rattle.jm_heap.specs.NewObject.{new_object, operand_of_component};
ghost use Rattle.jm_heap.specs.Layout.{all_values};
ghost use Rattle.jm_heap.specs.Stored.{numbered, numbered_from};

use crate::class_id::{Component, Element};
use crate::shape::Shape;
use crate::slot::{Slot, Values};
use jm_program::{BaseType, OperandType};
use jm_values::Value;
use std::alloc::{AllocError, Global};

// The value that a variable begins with (JVMS 2.3, 2.4).
fn default_value(operand: OperandType) -> Value
    ensures { result ≡ default_of operand }
{
    match operand {
        OperandType::Int => Value::Int(0),
        OperandType::Long => Value::Long(0),
        OperandType::Reference => Value::Null,
    }
}

// The operands that hold the elements of an array (JVMS 2.11.1).
fn operand_of(component: Component) -> OperandType
    ensures { result ≡ operand_of_component component }
{
    if component.dimensions > 0 {
        return OperandType::Reference;
    }
    match component.element {
        Element::Base(BaseType::Long) => OperandType::Long,
        Element::Base(_) => OperandType::Int,
        Element::Class(_) => OperandType::Reference,
    }
}

// The default values of the fields of an instance.
fn field_values(alloc: Global, fields: &[OperandType]) -> Result<Vec<Value>, AllocError>
    ensures { IfOk result (λ values. values.items ≡ map default_of fields.now) }
{
    let mut values = Vec::with_capacity(alloc, fields.len())?;
    for field in fields {
        values.push(default_value(*field))?;
    }
    Ok(values)
}

// The values of an instance.
fn values_of_instance(alloc: Global, fields: &[OperandType]) -> Result<Values, AllocError>
    ensures { IfOk result (λ values. all_values values ≡ map default_of fields.now) }
{
    match fields {
        [field] => Ok(Values::One(default_value(*field))),
        _ => Ok(Values::Many(field_values(alloc, fields)?)),
    }
}

// So many elements with one value.
fn elements(alloc: Global, value: Value, length: u32) -> Result<Values, AllocError>
    ensures { IfOk result (λ values. all_values values ≡ replicate length value) }
{
    if length == 1 {
        return Ok(Values::One(value));
    }
    Ok(Values::Many(vec![in alloc; value; length as usize]?))
}

// The object's values.
#[tactic(auto, unfolding(crate::specs::NewObject::new_object))]
fn values_of(alloc: Global, shape: Shape<'_>) -> Result<Values, AllocError>
    ensures { IfOk result (λ values. all_values values ≡ (new_object shape.entry).values) }
{
    match shape {
        Shape::Instance { fields, .. } => values_of_instance(alloc, fields),
        Shape::Array { component, length } => {
            elements(alloc, default_value(operand_of(component)), length)
        }
    }
}

/// A slot with the object, with its number in the world.
pub fn make(alloc: Global, serial: u64, shape: Shape<'_>) -> Result<Slot, AllocError>
    ensures { IfOk result (λ slot. slot ≡ Some (numbered serial (new_object shape.entry))) }
{
    let values = values_of(alloc, shape)?;
    Ok(Slot::taken(serial, shape.class(), values))
}

/// Slots with the objects, with the numbers that follow one.
pub fn make_all(alloc: Global, first: u64, shapes: &[Shape<'_>]) -> Result<Vec<Slot>, AllocError>
    requires { first + length shapes.now < 2 ^ 64 }
    ensures { IfOk result (λ slots. slots.items ≡ numbered_from first (map new_object shapes.now)) }
{
    let mut slots = Vec::with_capacity(alloc, shapes.len())?;
    let mut serial = first;
    for shape in shapes {
        slots.push(make(alloc, serial, *shape)?)?;
        serial += 1;
    }
    Ok(slots)
}

// The object that is to be made.

ghost use Rattle.std.specs.Prelude.{◌≡◌};
ghost use Rattle.jm_values.specs.Objects.{default_of};
ghost use Rattle.jm_heap.specs.NewObject.{new_object, operand_of_component};

use jm_blocks::Header;
use jm_heap::{Component, Element, Shape};
use jm_program::BaseType;
use jm_values::Value;

/// What is kept of the object beside its values: it has survived no collection.
#[inline]
pub fn header_of(shape: Shape<'_>, serial: u64) -> Header
    ensures { result ≡ record { serial = serial; class = (new_object shape.entry).type; age = 0 } }
{
    Header {
        serial,
        class: shape.class(),
        age: 0,
    }
}

/// The value that an element of an array begins with (JVMS 2.3, 2.4, 2.11.1).
pub fn default_element(component: Component) -> Value
    ensures { result ≡ default_of (operand_of_component component) }
{
    if component.dimensions > 0 {
        return Value::Null;
    }
    match component.element {
        Element::Base(BaseType::Long) => Value::Long(0),
        Element::Base(_) => Value::Int(0),
        Element::Class(_) => Value::Null,
    }
}

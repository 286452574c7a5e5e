// How the values of an object lie in its block.

ghost use Rattle.std.specs.Prelude.{◌≡◌, ◌↔◌, IsTrue};
ghost use Rattle.jm_heap.specs.Packing.{Fits, kind_of, kind_of_base};

use crate::class_id::{ClassId, Element};
use jm_program::BaseType;
use jm_values::Value;

/// How the values of an object lie in its block: each kind in a list of its own.
#[derive(Clone, Copy, PartialEq, Eq)]
pub enum Storage {
    /// The fields of an instance, which tell themselves what they are (as the elements of an array of
    /// floats or doubles would, which no program makes).
    Fields,
    References,
    /// Bytes and booleans.
    Bytes,
    Chars,
    Shorts,
    Ints,
    Longs,
}

// Where the elements of a primitive type lie.
#[inline]
fn kind_of_base(base: BaseType) -> Storage
    ensures { result ≡ kind_of_base base }
{
    match base {
        BaseType::Boolean | BaseType::Byte => Storage::Bytes,
        BaseType::Char => Storage::Chars,
        BaseType::Short => Storage::Shorts,
        BaseType::Int => Storage::Ints,
        BaseType::Long => Storage::Longs,
        BaseType::Float | BaseType::Double => Storage::Fields,
    }
}

impl Storage {
    /// How the values of an object of a type lie.
    #[inline]
    pub fn of(class: ClassId) -> Storage
        ensures { result ≡ kind_of class }
    {
        let ClassId::Array(component) = class else {
            return Storage::Fields;
        };
        if component.dimensions > 0 {
            return Storage::References;
        }
        match component.element {
            Element::Base(base) => kind_of_base(base),
            Element::Class(_) => Storage::References,
        }
    }

    /// Whether values that lie so can be this one.
    pub fn holds(self, value: &Value) -> bool
        ensures { IsTrue result ↔ Fits self value.now }
    {
        match (self, *value) {
            (Storage::Fields, _) => true,
            (Storage::References, Value::Null | Value::Ref(_)) => true,
            (Storage::Bytes, Value::Int(number)) => number >= -128 && number <= 127,
            (Storage::Chars, Value::Int(number)) => number >= 0 && number <= 65535,
            (Storage::Shorts, Value::Int(number)) => number >= -32768 && number <= 32767,
            (Storage::Ints, Value::Int(_)) => true,
            (Storage::Longs, Value::Long(_)) => true,
            _ => false,
        }
    }
}

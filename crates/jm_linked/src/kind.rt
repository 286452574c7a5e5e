// Kinds of values.

ghost use Rattle.std.specs.Prelude.{◌≡◌};
ghost use Rattle.jm_linked.specs.Kinds.{element_kind, kind_of};

use jm_program::{BaseType, ElementType, FieldType};

/// What a variable of a type holds: a method's result, a field or an element of an array (JVMS
/// 2.3, 2.4). The first four are ints that are narrowed.
#[derive(Clone, Copy)]
pub enum ValueKind {
    Boolean,
    Byte,
    Char,
    Short,
    Int,
    Long,
    Reference,
}

fn kind_of_element(element: &ElementType) -> ValueKind
    ensures { result ≡ element_kind element.now }
{
    match element {
        ElementType::Base(BaseType::Boolean) => ValueKind::Boolean,
        ElementType::Base(BaseType::Byte) => ValueKind::Byte,
        ElementType::Base(BaseType::Char) => ValueKind::Char,
        ElementType::Base(BaseType::Short) => ValueKind::Short,
        ElementType::Base(BaseType::Long) => ValueKind::Long,
        ElementType::Base(_) => ValueKind::Int,
        ElementType::Class(_) => ValueKind::Reference,
    }
}

impl ValueKind {
    /// What a variable of the type holds.
    pub fn of(field_type: &FieldType) -> ValueKind
        ensures { result ≡ kind_of field_type.now }
    {
        if field_type.dimensions == 0 {
            kind_of_element(&field_type.element)
        } else {
            ValueKind::Reference
        }
    }
}

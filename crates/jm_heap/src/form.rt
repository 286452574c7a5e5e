// The types of objects as slots keep them.

ghost use Rattle.std.specs.Prelude.{◌≡◌};
ghost use Rattle.jm_heap.specs.Layout.{number_of, type_of_form};

use crate::class_id::{ClassId, Component, Element};
use jm_program::BaseType;

/// The type of an object, but for the number of the class that it names. Form and number stand
/// apart in a slot, since so they take less room than a `ClassId`.
#[derive(Clone, Copy)]
pub enum Form {
    Instance,
    BaseArray { dimensions: u8, base: BaseType },
    ClassArray { dimensions: u8 },
}

impl Form {
    /// The form of a type.
    pub fn of(class: ClassId) -> Form
        ensures { type_of_form result (number_of class) ≡ class }
    {
        match class {
            ClassId::Instance(_) => Form::Instance,
            ClassId::Array(
                Component {
                    dimensions,
                    element: Element::Base(base),
                },
            ) => Form::BaseArray { dimensions, base },
            ClassId::Array(
                Component {
                    dimensions,
                    element: Element::Class(_),
                },
            ) => Form::ClassArray { dimensions },
        }
    }

    /// The type of the form that names the class of this number, if it names one.
    #[inline]
    pub fn with_number(self, number: u32) -> ClassId
        ensures { result ≡ type_of_form self number }
    {
        match self {
            Form::Instance => ClassId::Instance(number),
            Form::BaseArray { dimensions, base } => ClassId::Array(Component {
                dimensions,
                element: Element::Base(base),
            }),
            Form::ClassArray { dimensions } => ClassId::Array(Component {
                dimensions,
                element: Element::Class(number),
            }),
        }
    }
}

/// The number of the class that a type names, or 0 where it names none.
pub fn number_of(class: ClassId) -> u32
    ensures { result ≡ number_of class }
{
    match class {
        ClassId::Instance(number) => number,
        ClassId::Array(component) => match component.element {
            Element::Base(_) => 0,
            Element::Class(number) => number,
        },
    }
}

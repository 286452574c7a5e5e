// Which types can be held by a variable of another (JVMS 2.4, 6.5 aastore, checkcast).

ghost use Rattle.std.specs.Prelude.{◌≡◌, ◌||◌, List, nat_eq};
ghost use Rattle.jm_builtins.specs.Numbers.{number_of};
ghost use Rattle.jm_builtins.specs.declared.built_in_class.BuiltInClass.TheVariants.{Object, Cloneable, Serializable};
ghost use Rattle.jm_program.specs.Descriptors.{base_letter};
ghost use Rattle.jm_program.specs.declared.class.ClassParts.{ClassParts};
ghost use Rattle.jm_program.specs.declared.descriptor.ElementType.{ElementType};
ghost use Rattle.jm_program.specs.declared.descriptor.FieldType.{FieldType};
ghost use Rattle.jm_world.specs.Hierarchy.{element_assignable, is_above_arrays, is_assignable};
ghost use Rattle.jm_world.specs.Loads.{Loads};
ghost use Rattle.jm_linked.specs.Links.{NamesElement, NamesType};

use crate::instruction::{LinkedElement, LinkedType};
use crate::linked::Linked;
use jm_builtins::BuiltInClass;
use jm_program::BaseType;

/// The letter of a primitive type in descriptors (JVMS 4.3.2).
pub fn letter(base: BaseType) -> u8
    ensures { result ≡ base_letter base }
{
    match base {
        BaseType::Byte => b'B',
        BaseType::Char => b'C',
        BaseType::Double => b'D',
        BaseType::Float => b'F',
        BaseType::Int => b'I',
        BaseType::Long => b'J',
        BaseType::Short => b'S',
        BaseType::Boolean => b'Z',
    }
}

fn is_same_base(base: BaseType, other: BaseType) -> bool
    ensures { result ≡ nat_eq (base_letter base) (base_letter other) }
{
    letter(base) == letter(other)
}

// Whether a class is one of the three that every array is besides an array, by its number.
fn is_one_above_arrays(class: u32) -> bool
    ensures { result ≡ (nat_eq class (number_of Object) || nat_eq class (number_of Cloneable) || nat_eq class (number_of Serializable)) }
{
    class == BuiltInClass::Object.number()
        || class == BuiltInClass::Cloneable.number()
        || class == BuiltInClass::Serializable.number()
}

// Whether every array can be held by a variable of the element's type.
fn is_above_arrays(element: LinkedElement) -> bool
    ensures { (program : List ClassParts) (t : ElementType) → Loads program → NamesElement program element t → result ≡ is_above_arrays t }
{
    match element {
        LinkedElement::Base(_) => false,
        LinkedElement::Class(class) => is_one_above_arrays(class),
    }
}

// The same of types that are no arrays, and of the elements of arrays of as many dimensions.
fn element_assignable(linked: &Linked, from: LinkedElement, to: LinkedElement) -> bool
    ensures { (s t : ElementType) → NamesElement linked.now.program from s → NamesElement linked.now.program to t
        → result ≡ element_assignable linked.now.program s t }
{
    match (from, to) {
        (LinkedElement::Base(base), LinkedElement::Base(other)) => is_same_base(base, other),
        (LinkedElement::Class(class), LinkedElement::Class(above)) => {
            linked.is_subclass(class, above)
        }
        _ => false,
    }
}

impl Linked {
    /// Whether an object of a type can be held by a variable of another: a class by one of its own, of
    /// a superclass or of an interface that it implements; an array of references where its component
    /// can, one of a primitive type by its own type alone, and each by Object, Cloneable and
    /// Serializable (JVMS 6.5 aastore, checkcast). In as many steps as a class's number has digits.
    #[inline]
    pub fn is_assignable(&self, from: LinkedType, to: LinkedType) -> bool
        ensures { (s t : FieldType) → NamesType self.now.program from s → NamesType self.now.program to t → result ≡ is_assignable self.now.program s t }
    {
        // the program is linked
        let _classes = self.classes();
        if from.dimensions > to.dimensions {
            return is_above_arrays(to.element);
        }
        if from.dimensions < to.dimensions {
            return false;
        }
        element_assignable(self, from.element, to.element)
    }
}

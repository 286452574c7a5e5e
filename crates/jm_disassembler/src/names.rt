// Names and types that a word can spell (Jasmin User Guide, "Names", "Type descriptors").

ghost use Rattle.std.specs.Prelude.{◌≡◌};
ghost use Rattle.std.specs.List.{list_all};
ghost use Rattle.jm_disassembler.specs.Names.{is_plain, is_sayable, is_plain_type, is_plain_return, is_plain_method_type, is_sayable_class};

use jm_program::{
    ClassRef, ElementType, FieldType, MethodDescriptor, is_high_surrogate, is_low_surrogate,
};

const BLANK: u16 = 32;

const QUOTE: u16 = 34;

const SEMICOLON: u16 = 59;

const BACKSLASH: u16 = 92;

const DELETE: u16 = 127;

/// Whether a word can spell the code units.
pub fn is_plain(units: &[u16]) -> bool
    ensures { result ≡ is_plain units.now }
{
    let mut waiting = false;
    for unit in units {
        if waiting {
            if !is_low_surrogate(*unit) {
                return false;
            }
            waiting = false;
        } else if is_high_surrogate(*unit) {
            waiting = true;
        } else if *unit <= BLANK
            || *unit == SEMICOLON
            || *unit == BACKSLASH
            || *unit == DELETE
            || is_low_surrogate(*unit)
        {
            return false;
        }
    }
    !waiting
}

/// Whether a word can be that name.
pub fn is_sayable(units: &[u16]) -> bool
    ensures { result ≡ is_sayable units.now }
{
    units.first() != Some(&QUOTE) && is_plain(units)
}

/// Whether a word can spell the type.
pub fn is_plain_type(field_type: &FieldType) -> bool
    ensures { result ≡ is_plain_type field_type.now }
{
    match &field_type.element {
        ElementType::Base(_) => true,
        ElementType::Class(name) => is_plain(name.units()),
    }
}

fn are_plain_types(types: &[FieldType]) -> bool
    ensures { result ≡ list_all is_plain_type types.now }
{
    types.iter().all(|field_type| is_plain_type(field_type))
}

fn is_plain_return(return_type: &Option<FieldType>) -> bool
    ensures { result ≡ is_plain_return return_type.now }
{
    match return_type {
        None => true,
        Some(return_type) => is_plain_type(return_type),
    }
}

/// Whether a word can spell the type of a method.
pub fn is_plain_method_type(descriptor: &MethodDescriptor) -> bool
    ensures { result ≡ is_plain_method_type descriptor.now }
{
    are_plain_types(descriptor.parameters.get().as_slice())
        && is_plain_return(&descriptor.return_type)
}

/// Whether a word can be the name of the class, or spell the array type.
pub fn is_sayable_class(class: &ClassRef) -> bool
    ensures { result ≡ is_sayable_class class.now }
{
    match class {
        ClassRef::Class(name) => is_sayable(name.units()),
        ClassRef::Array(array) => is_plain_type(array),
    }
}

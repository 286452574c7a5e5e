// The members of a class by name and type, in an order in which equal ones meet.

ghost use Rattle.std.specs.Prelude.{◌≡◌, ◌&&◌, ℕ, List, Option, IfOk};
ghost use Rattle.jm_program.specs.Names.{same_text};
ghost use Rattle.jm_program.specs.declared.descriptor.FieldType.{FieldType};
ghost use Rattle.jm_program.specs.declared.descriptor.MethodDescriptor.{MethodDescriptor};
ghost use Rattle.jm_world.specs.Types.{same_type, same_types, same_result, same_method_type};
ghost use Rattle.jm_linker.specs.Keys.{IsElementKey, IsTypeKey, AreTypeKeys, IsResultKey, IsFieldKey, IsMethodKey};

use jm_linked::letter;
use jm_program::{ElementType, FieldType, MethodDescriptor, Name};
use std::alloc::{AllocError, Global};

/// A type that is no array: the letter of a primitive type, or the name of a class.
#[derive(Clone, Copy, PartialEq, Eq, PartialOrd, Ord)]
pub enum ElementKey<'a> {
    Base(u8),
    Class(&'a [u16]),
}

/// The type of a field, a parameter or a result.
#[derive(Clone, Copy, PartialEq, Eq, PartialOrd, Ord)]
pub struct TypeKey<'a> {
    dimensions: u8,
    element: ElementKey<'a>,
}

/// A field by its name and type.
#[derive(Clone, Copy, PartialEq, Eq, PartialOrd, Ord)]
pub struct FieldKey<'a> {
    name: &'a [u16],
    descriptor: TypeKey<'a>,
}

/// A method by its name and type.
#[derive(PartialEq, Eq, PartialOrd, Ord, Drop)]
pub struct MethodKey<'a> {
    name: &'a [u16],
    parameters: Vec<TypeKey<'a>>,
    result: Option<TypeKey<'a>>,
}

fn element_key<'a>(element: &'a ElementType) -> ElementKey<'a>
    ensures { IsElementKey result element.now }
{
    match element {
        ElementType::Base(base) => ElementKey::Base(letter(*base)),
        ElementType::Class(name) => ElementKey::Class(name.units()),
    }
}

fn type_key<'a>(field_type: &'a FieldType) -> TypeKey<'a>
    ensures { IsTypeKey result field_type.now }
{
    TypeKey {
        dimensions: field_type.dimensions,
        element: element_key(&field_type.element),
    }
}

fn type_keys<'a>(alloc: Global, types: &'a [FieldType]) -> Result<Vec<TypeKey<'a>>, AllocError>
    ensures { IfOk result (λ keys. AreTypeKeys keys.items types.now) }
{
    let mut keys = Vec::with_capacity(alloc, types.len())?;
    for field_type in types {
        keys.push(type_key(field_type))?;
    }
    Ok(keys)
}

fn result_key<'a>(returned: &'a Option<FieldType>) -> Option<TypeKey<'a>>
    ensures { IsResultKey result returned.now }
{
    match returned {
        None => None,
        Some(field_type) => Some(type_key(field_type)),
    }
}

/// The key of a field of the name and type.
pub fn field_key<'a>(name: &'a Name, field_type: &'a FieldType) -> FieldKey<'a>
    ensures { IsFieldKey result name.now field_type.now }
{
    FieldKey {
        name: name.units(),
        descriptor: type_key(field_type),
    }
}

/// The key of a method of the name and type.
pub fn method_key<'a>(
    alloc: Global,
    name: &'a Name,
    descriptor: &'a MethodDescriptor,
) -> Result<MethodKey<'a>, AllocError>
    ensures { IfOk result (λ key. IsMethodKey key name.now descriptor.now) }
{
    Ok(MethodKey {
        name: name.units(),
        parameters: type_keys(alloc, descriptor.parameters.as_slice())?,
        result: result_key(&descriptor.return_type),
    })
}

// Whether the key is that of the type.
fn is_type_key(key: &TypeKey<'_>, field_type: &FieldType) -> bool
    ensures { (t : FieldType) → IsTypeKey key.now t → result ≡ same_type field_type.now t }
{
    type_key(field_type).cmp(key).is_eq()
}

// Whether the keys are those of the types.
fn are_type_keys(keys: &[TypeKey<'_>], types: &[FieldType]) -> bool
    ensures { (ts : List FieldType) → AreTypeKeys keys.now ts → result ≡ same_types types.now ts }
{
    let Some((key, keys)) = keys.split_first() else {
        return types.is_empty();
    };
    let Some((field_type, types)) = types.split_first() else {
        return false;
    };
    is_type_key(key, field_type) && are_type_keys(keys, types)
}

// Whether the key is that of what a method returns.
fn is_result_key(key: &Option<TypeKey<'_>>, returned: &Option<FieldType>) -> bool
    ensures { (t : Option FieldType) → IsResultKey key.now t → result ≡ same_result returned.now t }
{
    match (key, returned) {
        (None, None) => true,
        (Some(key), Some(field_type)) => is_type_key(key, field_type),
        _ => false,
    }
}

/// Whether the key is that of a field of the name and type.
pub fn is_field_key(key: &FieldKey<'_>, name: &Name, field_type: &FieldType) -> bool
    ensures { (n : List ℕ) (t : FieldType) → IsFieldKey key.now n t → result ≡ (same_text name.now n && same_type field_type.now t) }
{
    name.units() == key.name && is_type_key(&key.descriptor, field_type)
}

/// Whether the key is that of a method of the name and type.
pub fn is_method_key(key: &MethodKey<'_>, name: &Name, descriptor: &MethodDescriptor) -> bool
    ensures { (n : List ℕ) (t : MethodDescriptor) → IsMethodKey key.now n t → result ≡ (same_text name.now n && same_method_type descriptor.now t) }
{
    name.units() == key.name
        && are_type_keys(&key.parameters, descriptor.parameters.as_slice())
        && is_result_key(&key.result, &descriptor.return_type)
}

// What is looked for in the classes of a walk.

ghost use Rattle.std.specs.Prelude.{◌≡◌, IfOk};
ghost use Rattle.jm_linker.specs.Keys.{IsFieldKey, IsMethodKey, IsFieldKey-prop, IsMethodKey-prop};

use crate::key::{FieldKey, MethodKey, field_key, method_key};
use jm_program::{FieldRef, MethodRef, Name};
use std::alloc::{AllocError, Global};

/// A field by its key.
#[derive(Drop)]
pub struct SoughtField<'a> {
    pub field: &'a FieldRef,
    pub key: FieldKey<'a>,
    ghost keyed: { IsFieldKey key field.now.name field.now.descriptor } by { IsFieldKey-prop key field.now.name field.now.descriptor },
}

/// A method by its key.
#[derive(Drop)]
pub struct SoughtMethod<'a> {
    pub method: &'a MethodRef,
    pub key: MethodKey<'a>,
    ghost keyed: { IsMethodKey key method.now.name method.now.descriptor } by { IsMethodKey-prop key method.now.name method.now.descriptor },
}

/// What is looked for in each class of a walk.
#[derive(Clone, Copy)]
pub enum Sought<'s, 'a> {
    /// The class of the name.
    Class(&'a Name),
    /// A class that declares the field.
    Field(&'s SoughtField<'a>),
    /// A class that declares the method.
    Method(&'s SoughtMethod<'a>),
    /// A class that declares the method as one of instances.
    Instance(&'s SoughtMethod<'a>),
}

impl<'a> SoughtField<'a> {
    /// The field that is named.
    pub fn of(field: &'a FieldRef) -> SoughtField<'a>
        ensures { result.field.now ≡ field.now }
    {
        SoughtField {
            field,
            key: field_key(&field.name, &field.descriptor),
        }
    }
}

impl<'a> SoughtMethod<'a> {
    /// The method that is named.
    pub fn of(alloc: Global, method: &'a MethodRef) -> Result<SoughtMethod<'a>, AllocError>
        ensures { IfOk result (λ sought. sought.method.now ≡ method.now) }
    {
        Ok(SoughtMethod {
            method,
            key: method_key(alloc, &method.name, &method.descriptor)?,
        })
    }
}

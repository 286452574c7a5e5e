// What a built-in class declares.

use jm_program::{AccessFlags, Field, Method, Name, Sequence};

/// A class or an interface that every program finds there.
#[derive(Drop)]
pub struct BuiltIn {
    pub flags: AccessFlags,
    pub name: Name,
    /// None for java/lang/Object alone.
    pub superclass: Option<Name>,
    pub interfaces: Sequence<Name>,
    pub fields: Sequence<Field>,
    /// Methods without code, of which none is abstract.
    pub methods: Sequence<Method>,
}

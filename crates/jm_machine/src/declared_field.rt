// A field that a class declares.

use jm_program::{Field, Name};

/// A field with the name of the class that declares it.
#[derive(Clone, Copy)]
pub(crate) struct DeclaredField<'a> {
    pub class: &'a Name,
    pub field: &'a Field,
}

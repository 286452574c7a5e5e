// A value behind a pointer, which its owners share.

ghost use Rattle.std.specs.Prelude.{◌≡◌, IfOk};

use crate::sequence::Sequence;
use std::alloc::{AllocError, Global};
use std::marker::Model;
use std::sync::Arc;

/// A value in a place of its own, which contracts see as the value itself. It keeps an enum small
/// whose other variants are small, and any number of owners, in any threads, can share it.
pub struct Shared<T> {
    content: Arc<T>,
}

// Written out, so that whoever lets go of one makes a call (docs/DECISIONS.md).
impl<T: Drop> Drop for Shared<T> {
    fn drop(self) {
        let Shared { content: _ } = self;
    }
}

impl<T> Model for Shared<T> {
    ghost Value = { T };

    ghost view = { λ shared. shared.content.value };
}

impl<T: Drop> Shared<T> {
    /// The value, put into a place of its own, or the error where there is no memory for it.
    pub fn new(alloc: Global, value: T) -> Result<Shared<T>, AllocError>
        ensures { IfOk result (λ shared. shared ≡ value) }
    {
        let content = Arc::new(alloc, value)?;
        Ok(Shared { content })
    }

    /// The same value once more, in the same place: it takes no memory. The error is for more
    /// than 2^63 - 1 owners.
    pub fn share(&self) -> Result<Shared<T>, AllocError>
        ensures { IfOk result (λ shared. shared ≡ self.now) }
    {
        let content = Arc::try_clone(&self.content)?;
        Ok(Shared { content })
    }
}

impl<T> Shared<T> {
    /// The value.
    pub fn get(&self) -> &T
        ensures { result.now ≡ self.now }
    {
        &self.content
    }
}

impl<T> Shared<Sequence<T>> {
    /// The items, in order.
    pub fn as_slice(&self) -> &[T]
        ensures { result.now ≡ self.now }
    {
        self.get().as_slice()
    }
}

impl<T: PartialEq> PartialEq for Shared<T> {
    ghost eq = { T.eq };

    ghost laws = { T.laws };

    fn eq(&self, other: &Shared<T>) -> bool {
        self.get() == other.get()
    }
}

impl<T: Eq> Eq for Shared<T> {
    ghost laws = { T.Eq.laws };
}

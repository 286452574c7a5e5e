// A list of parts that is made once.

ghost use Rattle.std.specs.Prelude.{◌≡◌, length};

use std::marker::Model;

/// A list of parts, which contracts see as a list. It is made from a `Vec` and gives it back
/// without taking memory.
pub struct Sequence<T> {
    items: Vec<T>,
}

// Written out, so that whoever lets go of one makes a call (docs/DECISIONS.md).
impl<T: Drop> Drop for Sequence<T> {
    fn drop(self) {
        let Sequence { items: _ } = self;
    }
}

impl<T> Model for Sequence<T> {
    ghost use Rattle.std.specs.Prelude.{List};

    ghost Value = { List T };

    ghost view = { λ s. s.items.items };
}

impl<T> Sequence<T> {
    /// The items of the `Vec`, in its order.
    pub fn new(items: Vec<T>) -> Sequence<T>
        ensures { result ≡ items.items }
    {
        Sequence { items }
    }

    /// The items, in order.
    pub fn as_slice(&self) -> &[T]
        ensures { result.now ≡ self.now }
    {
        &self.items
    }

    /// The items as a `Vec`.
    pub fn into_vec(self) -> Vec<T>
        ensures { result.items ≡ self }
    {
        let Sequence { items } = self;
        items
    }
}

impl<T: PartialEq> PartialEq for Sequence<T> {
    ghost use lib.Pointwise.{pointwise};
    ghost use Rattle.std.specs.Cmp.Lexicographic.{lists_per};

    ghost eq = { pointwise T.eq };

    ghost laws = { lists_per T.laws };

    fn eq(&self, other: &Sequence<T>) -> bool {
        self.as_slice() == other.as_slice()
    }
}

impl<T: Eq> Eq for Sequence<T> {
    ghost use Rattle.std.proofs.lemmas.Cmp.{lists_equiv};

    ghost laws = { lists_equiv T.Eq.laws };
}

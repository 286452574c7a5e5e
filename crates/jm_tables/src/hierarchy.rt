// Which classes are above which, by number.

ghost use Rattle.std.specs.Prelude.{◌≡◌, ℕ, ◌<◌, List, IfOk, IfSome, IsSome, length};
ghost use Rattle.std.specs.List.{All};
ghost use Rattle.jm_program.specs.declared.class.ClassParts.{ClassParts};
ghost use Rattle.jm_world.specs.Hierarchy.{is_subclass};
ghost use Rattle.jm_tables.specs.Tables.{IsCellOf};
ghost use Rattle.jm_tables.specs.Inheriting.{IsOrder};
ghost use Rattle.jm_tables.specs.Numbering.{name_of};
ghost use Rattle.jm_tables.specs.Hierarchies.{AreHeirs, is_above};

use crate::inheritance::{Declared, Inheritance};
use std::alloc::{AllocError, Global};
use std::marker::Model;

/// The hierarchy of classes and interfaces.
pub struct Hierarchy {
    rows: Inheritance,
}

// Written out, so that whoever lets go of one makes a call (docs/DECISIONS.md).
impl Drop for Hierarchy {
    fn drop(self) {
        let Hierarchy { rows: _ } = self;
    }
}

impl Model for Hierarchy {
    ghost use Rattle.std.specs.Prelude.{ℕ, List, Option};

    ghost Value = { List (List (Option ℕ)) };

    ghost view = { λ h. h.rows };
}

impl Hierarchy {
    /// The hierarchy of the classes, each with those right above it and with a cell for itself,
    /// made in an order in which each class comes after those right above it. Some for every such
    /// order, none for another. It takes 64 bytes for each digit of a class's own number, to the base 16, and, where a
    /// class has several classes right above it, for each digit of the numbers of those above the
    /// second of them and the further ones.
    pub fn of(
        alloc: Global,
        classes: &[Declared],
        order: &[u32],
    ) -> Result<Option<Hierarchy>, AllocError>
        requires { All (λ d. All (IsCellOf (length classes.now)) d.own.items) classes.now }
        ensures above_them { (program : List ClassParts) (names : List (List ℕ)) → AreHeirs program names classes.now
            → IfOk result (λ found. IfSome found (λ h. (class above : ℕ) → class < length names → above < length names
            → is_above h class above ≡ is_subclass program (name_of names class) (name_of names above))) }
        ensures made { IsOrder classes.now order.now → IfOk result (λ found. IsSome found) }
    {
        let Ok(columns) = u32::try_from(classes.len()) else {
            return Err(AllocError);
        };
        match Inheritance::of(alloc, columns, classes, order)? {
            Some(rows) => Ok(Some(Hierarchy { rows })),
            None => Ok(None),
        }
    }

    /// Whether a class is another or has it above itself, by superclasses and superinterfaces.
    #[inline]
    pub fn is_below(&self, class: u32, above: u32) -> bool
        ensures { result ≡ is_above self.now class above }
    {
        self.rows.get(class, above).is_some()
    }
}

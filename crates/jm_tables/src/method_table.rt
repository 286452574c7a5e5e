// Which method is selected for a class, by number.

ghost use Rattle.std.specs.Prelude.{◌≡◌, ℕ, ◌<◌, List, IfOk, IfSome, IsSome, length};
ghost use Rattle.std.specs.List.{All};
ghost use Rattle.jm_program.specs.declared.class.ClassParts.{ClassParts};
ghost use Rattle.jm_program.specs.declared.descriptor.MethodDescriptor.{MethodDescriptor};
ghost use Rattle.jm_world.specs.Classes.{FoundMethod};
ghost use Rattle.jm_world.specs.Resolution.{select};
ghost use Rattle.jm_tables.specs.Tables.{IsCellOf, row_at};
ghost use Rattle.jm_tables.specs.Inheriting.{IsOrder};
ghost use Rattle.jm_tables.specs.Numbering.{name_of};
ghost use Rattle.jm_tables.specs.MethodTables.{AreMethods, IsNumberOf};

use crate::inheritance::{Declared, Inheritance};
use std::alloc::{AllocError, Global};
use std::marker::Model;

/// The methods that invokevirtual and invokeinterface select, by class and selector: a selector
/// is the number of a method's name and type.
pub struct MethodTable {
    rows: Inheritance,
}

// Written out, so that whoever lets go of one makes a call (docs/DECISIONS.md).
impl Drop for MethodTable {
    fn drop(self) {
        let MethodTable { rows: _ } = self;
    }
}

impl Model for MethodTable {
    ghost use Rattle.std.specs.Prelude.{ℕ, List, Option};

    ghost Value = { List (List (Option ℕ)) };

    ghost view = { λ t. t.rows };
}

impl MethodTable {
    /// The table of the classes, each with its superclass and with the numbers of its own instance
    /// methods that are not private, in the columns of their selectors; made in an order in which
    /// each class comes after its superclass. Some for every such order, none for another.
    pub fn of(
        alloc: Global,
        selectors: u32,
        classes: &[Declared],
        order: &[u32],
    ) -> Result<Option<MethodTable>, AllocError>
        requires { All (λ d. All (IsCellOf selectors) d.own.items) classes.now }
        ensures selected { (program : List ClassParts) (names : List (List ℕ)) (methods : List FoundMethod) (selector : ℕ) (name : List ℕ)
            (t : MethodDescriptor) → selector < selectors → AreMethods program names methods selector name t classes.now
            → IfOk result (λ found. IfSome found (λ table. (class : ℕ) → class < length names
            → IsNumberOf methods (row_at table class selector) (select program (name_of names class) name t))) }
        ensures made { IsOrder classes.now order.now → IfOk result (λ found. IsSome found) }
    {
        match Inheritance::of(alloc, selectors, classes, order)? {
            Some(rows) => Ok(Some(MethodTable { rows })),
            None => Ok(None),
        }
    }

    /// The number of the method that is selected for an object of a class, if there is one: the
    /// first from the class up that is neither static nor private (JVMS 6.5 invokevirtual).
    #[inline]
    pub fn select(&self, class: u32, selector: u32) -> Option<u32>
        ensures { result ≡ row_at self.now class selector }
    {
        self.rows.get(class, selector)
    }
}

// What each class has of its own and from the classes right above it.

ghost use Rattle.std.specs.Prelude.{◌≡◌, ℕ, List, ◌+◌, ◌-◌, ◌<◌, ◌≤◌, ◌^◌, ◌↔◌};
ghost use Rattle.std.specs.Prelude.{[], IfOk, IfSome, IsSome, true, IsTrue, EachIndex, Some, length, map, slice_get, slice_index, slice_index_or};
ghost use Rattle.std.specs.List.{All};
ghost use Rattle.jm_tables.specs.Tables.{IsCellOf, row_at};
ghost use Rattle.jm_tables.specs.declared.inheritance.Declared.{Declared};
ghost use Rattle.jm_tables.specs.Inheriting.{IsOrder, inherited};
ghost use Rattle.jm_tables.specs.Placing.{IsPlaced, HasRow, ArePlaced, AreRows};

use crate::table::{Cell, Table};
use std::alloc::{AllocError, Global};
use std::marker::Model;

/// What a class has of its own, and the numbers of the classes right above it.
#[derive(Drop)]
pub struct Declared {
    pub above: Vec<u32>,
    pub own: Vec<Cell>,
}

/// What each class has, by the classes' numbers.
pub struct Inheritance {
    table: Table,
    /// The rows of the classes in the table.
    places: Vec<u32>,
}

// Written out, so that whoever lets go of one makes a call (docs/DECISIONS.md).
impl Drop for Inheritance {
    fn drop(self) {
        let Inheritance {
            table: _,
            places: _,
        } = self;
    }
}

impl Model for Inheritance {
    ghost use Rattle.std.specs.Prelude.{ℕ, List, [], Option, map, slice_index_or};

    ghost Value = { List (List (Option ℕ)) };

    ghost view = { λ i. map (λ place. slice_index_or i.table.rows place []) i.places.items };
}

/// The place of a class that has no row yet.
const NOT_PLACED: u32 = u32::MAX;

// The row of a class, if it has one.
fn row_of(places: &[u32], class: u32) -> Option<u32>
    ensures found { IfSome result (IsPlaced places.now class) }
    ensures all { HasRow places.now class → IsSome result }
{
    let row = *places.get(class as usize)?;
    if row < NOT_PLACED { Some(row) } else { None }
}

// The rows of some classes, or none where one of them has no row yet.
fn rows_of(alloc: Global, places: &[u32], classes: &[u32]) -> Result<Option<Vec<u32>>, AllocError>
    ensures found { IfOk result (λ found. IfSome found (λ rows. ArePlaced places.now classes.now rows.items)) }
    ensures all { All (HasRow places.now) classes.now → IfOk result (λ found. IsSome found) }
{
    let mut rows = Vec::new(alloc);
    for class in classes {
        let Some(row) = row_of(places, *class) else {
            return Ok(None);
        };
        rows.push(row)?;
    }
    Ok(Some(rows))
}

fn are_placed(places: &[u32]) -> bool
    ensures { IsTrue result ↔ EachIndex places.now (λ k. slice_index places.now k < 2 ^ 32 - 1) }
{
    places.iter().all(|place| *place < NOT_PLACED)
}

// Adds the row of a class, unless a class right above it has none yet.
fn add(
    alloc: Global,
    places: &mut [u32],
    table: &mut Table,
    class: u32,
    declared: &Declared,
) -> Result<bool, AllocError>
    requires class { class < length places.old }
    requires cells { All (IsCellOf table.old.columns) declared.now.own.items }
    ensures columns { table.new.columns ≡ table.old.columns }
    ensures rows { length table.new.rows ≤ length table.old.rows + 1 }
    ensures added { (classes : List Declared) → slice_get classes class ≡ Some declared.now
        → AreRows classes places.old table.old → AreRows classes places.new table.new }
    ensures all { All (HasRow places.old) declared.now.above.items → IfOk result (λ is_added. is_added ≡ true) }
    ensures kept { length table.old.rows < 2 ^ 32 - 1 → (other : ℕ) → HasRow places.old other → HasRow places.new other }
    ensures placed { length table.old.rows < 2 ^ 32 - 1 → IfOk result (λ is_added. is_added ≡ true → HasRow places.new class) }
{
    let Some(rows) = rows_of(alloc, places, &declared.above)? else {
        return Ok(false);
    };
    let Ok(row) = u32::try_from(table.row_count()) else {
        return Err(AllocError);
    };
    table.push(&rows, &declared.own)?;
    places[class as usize] = row;
    Ok(true)
}

impl Inheritance {
    /// What the classes have in columns below a number, made in an order in which each class comes
    /// after those right above it. Some for every such order; an order that is not so, or that
    /// leaves a class out, gives none. (JVMS 5.3.5)
    pub fn of(
        alloc: Global,
        columns: u32,
        classes: &[Declared],
        order: &[u32],
    ) -> Result<Option<Inheritance>, AllocError>
        requires { All (λ d. All (IsCellOf columns) d.own.items) classes.now }
        ensures rows { IfOk result (λ found. IfSome found (λ all. (class column : ℕ) → class < length classes.now → column < columns
            → row_at all class column ≡ inherited (length classes.now) classes.now class column)) }
        ensures made { IsOrder classes.now order.now → IfOk result (λ found. IsSome found) }
    {
        if order.len() != classes.len() {
            return Ok(None);
        }
        let mut places = vec![in alloc; NOT_PLACED; classes.len()]?;
        let mut table = Table::new(alloc, columns)?;
        for class in order {
            let Some(declared) = classes.get(*class as usize) else {
                return Ok(None);
            };
            if !add(alloc, &mut places, &mut table, *class, declared)? {
                return Ok(None);
            }
        }
        Ok(Inheritance::whole(table, places))
    }

    // All of it, if each class has a row.
    fn whole(table: Table, places: Vec<u32>) -> Option<Inheritance>
        ensures rows { IfSome result (λ all. EachIndex places.items (λ k. slice_index places.items k < 2 ^ 32 - 1)
            × (all ≡ map (λ place. slice_index_or table.rows place []) places.items)) }
        ensures made { EachIndex places.items (λ k. slice_index places.items k < 2 ^ 32 - 1) → IsSome result }
    {
        if !are_placed(&places) {
            return None;
        }
        Some(Inheritance { table, places })
    }

    /// The number that a class has in a column. A class that is not there has none.
    #[inline]
    pub fn get(&self, class: u32, column: u32) -> Option<u32>
        ensures { result ≡ row_at self.now class column }
    {
        match self.places.get(class as usize) {
            Some(place) => self.table.get(*place, column),
            None => None,
        }
    }
}

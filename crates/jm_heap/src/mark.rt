// Which places are reached from roots.

ghost use Rattle.std.specs.Prelude.{◌≡◌, ℕ, ◌≤◌, OnOk, IfOk, [], ◌∷◌, length, is_some, true, false, replicate};
ghost use Rattle.jm_values.specs.Rename.{stack_shape, refs};
ghost use Rattle.jm_values.specs.Shape.{Among};
ghost use Rattle.jm_values.specs.Objects.{refs_of};
ghost use Rattle.jm_heap.specs.Marks.{MarkedAll, AreReached, IsClosed, plain_object};
ghost use Rattle.jm_heap.specs.Slots.{object_in};

use crate::slot::Slot;
use crate::slots::values_at;
use jm_values::{Place, Value};
use std::alloc::{AllocError, Global};

// Marks a place, if it is not marked yet, as one whose values are still to be looked at.
fn mark_place(
    place: Place,
    marks: &mut Vec<bool>,
    pending: &mut Vec<Place>,
) -> Result<(), AllocError>
    requires { place ≤ length marks.old.items }
    ensures { OnOk result (MarkedAll (place ∷ []) marks.old.items pending.old.items marks.new.items pending.new.items) }
{
    let number = place.number();
    let index = number as usize - 1;
    if !marks[index] {
        pending.push(place)?;
        marks[index] = true;
    }
    Ok(())
}

// Marks each place of a list.
fn mark_places(
    places: &[Place],
    marks: &mut Vec<bool>,
    pending: &mut Vec<Place>,
) -> Result<(), AllocError>
    requires { (p : ℕ) → Among p places.now → p ≤ length marks.old.items }
    ensures { OnOk result (MarkedAll places.now marks.old.items pending.old.items marks.new.items pending.new.items) }
{
    for place in places {
        mark_place(*place, marks, pending)?;
    }
    Ok(())
}

// Marks the place that a value names, if it names one.
fn mark_value(
    value: Value,
    marks: &mut Vec<bool>,
    pending: &mut Vec<Place>,
) -> Result<(), AllocError>
    requires { (p : ℕ) → Among p (refs value) → p ≤ length marks.old.items }
    ensures { OnOk result (MarkedAll (refs value) marks.old.items pending.old.items marks.new.items pending.new.items) }
{
    match value {
        Value::Ref(place) => mark_place(place, marks, pending),
        _ => Ok(()),
    }
}

// Marks each place that values name.
fn mark_values(
    values: &[Value],
    marks: &mut Vec<bool>,
    pending: &mut Vec<Place>,
) -> Result<(), AllocError>
    requires { (p : ℕ) → Among p (stack_shape.refs values.now) → p ≤ length marks.old.items }
    ensures { OnOk result (MarkedAll (stack_shape.refs values.now) marks.old.items pending.old.items marks.new.items pending.new.items) }
{
    for value in values {
        mark_value(*value, marks, pending)?;
    }
    Ok(())
}

// Marks each place that the object at a place names.
fn mark_object(
    slots: &Vec<Slot>,
    place: Place,
    marks: &mut Vec<bool>,
    pending: &mut Vec<Place>,
) -> Result<(), AllocError>
    requires { (p : ℕ) → Among p (refs_of (plain_object (object_in slots.now.items place))) → p ≤ length marks.old.items }
    ensures { OnOk result (MarkedAll (refs_of (plain_object (object_in slots.now.items place))) marks.old.items pending.old.items marks.new.items pending.new.items) }
{
    mark_values(values_at(slots, place), marks, pending)
}

// Marks for so many places, none of them on.
fn no_marks(alloc: Global, count: usize) -> Result<Vec<bool>, AllocError>
    ensures { IfOk result (λ marks. marks.items ≡ replicate count false) }
{
    vec![in alloc; false; count]
}

/// Marks each place that is reached from roots, by a list of the places whose values are still to
/// be looked at: linear in the objects that are reached, the slots and the roots.
pub fn mark(alloc: Global, slots: &Vec<Slot>, roots: &[Place]) -> Result<Vec<bool>, AllocError>
    requires resident { (p : ℕ) → Among p roots.now → is_some (object_in slots.now.items p) ≡ true }
    requires closed { IsClosed slots.now.items }
    ensures { IfOk result (λ marks. AreReached slots.now.items roots.now marks.items) }
{
    let mut marks = no_marks(alloc, slots.len())?;
    let mut pending = Vec::new(alloc);
    mark_places(roots, &mut marks, &mut pending)?;
    while let Some(place) = pending.pop() {
        mark_object(slots, place, &mut marks, &mut pending)?;
    }
    Ok(marks)
}

// Where the fields of a program's classes stand, by number.

ghost use Rattle.std.specs.Prelude.{◌≡◌, ℕ, ◌<◌, ◌+◌, ◌++◌, List, IfOk, IfSome, IsSome, None, length, slice_get, slice_index_or};
ghost use Rattle.jm_program.specs.declared.class.ClassParts.{ClassParts};
ghost use Rattle.jm_tables.specs.Extents.{AreExtents, IsTopDown};
ghost use Rattle.jm_tables.specs.Layouts.{AreFields, IsLaidOut, IsLayout, size_at, slot_at, slots_from, statics_among};

use crate::extent::{DeclaredFields, Extent, extent_at, extents_of};
use jm_program::{AccessFlags, Field, Sequence};
use std::alloc::{AllocError, Global};
use std::marker::Model;

/// Where a field stands.
#[derive(Clone, Copy)]
pub enum FieldSlot {
    /// At this place in each instance, from 0.
    Instance(u32),
    /// Under this number among the static fields of all classes.
    Static(u32),
}

/// A field by its class's number and its own among the fields that the class declares.
#[derive(Clone, Copy)]
pub struct FieldNumber {
    pub class: u32,
    pub field: u32,
}

/// What the layout has of a class.
pub struct ClassLayout {
    /// How many fields an instance has, inherited ones included.
    size: u32,
    /// Where the fields that the class declares stand, in their order.
    slots: Sequence<FieldSlot>,
}

// Written out, so that whoever lets go of one makes a call (docs/DECISIONS.md).
impl Drop for ClassLayout {
    fn drop(self) {
        let ClassLayout { size: _, slots: _ } = self;
    }
}

/// Where the fields of classes stand, by the classes' numbers.
pub struct Layout {
    classes: Vec<ClassLayout>,
    statics: Vec<FieldNumber>,
}

// Written out, so that whoever lets go of one makes a call (docs/DECISIONS.md).
impl Drop for Layout {
    fn drop(self) {
        let Layout {
            classes: _,
            statics: _,
        } = self;
    }
}

impl Model for Layout {
    ghost use Rattle.jm_tables.specs.Layouts.{LayoutView};

    ghost Value = { LayoutView };

    ghost view = { λ l. record { classes = l.classes.items; statics = l.statics.items } };
}

// The slots of a class's fields, whose static ones get the numbers after those that there are.
fn slots_of(
    alloc: Global,
    statics: &mut Vec<FieldNumber>,
    class: u32,
    inherited: u32,
    fields: &[Field],
) -> Result<Sequence<FieldSlot>, AllocError>
    ensures slots { IfOk result (λ slots. slots ≡ slots_from inherited (length statics.old.items) fields.now) }
    ensures statics { IfOk result (λ slots. statics.new.items ≡ statics.old.items ++ statics_among class 0 fields.now) }
{
    let mut slots = Vec::new(alloc);
    let mut place = inherited;
    for (index, field) in fields.iter().enumerate() {
        if field.flags.has(AccessFlags::STATIC) {
            let (Ok(number), Ok(field)) = (u32::try_from(statics.len()), u32::try_from(index))
            else {
                return Err(AllocError);
            };
            slots.push(FieldSlot::Static(number))?;
            statics.push(FieldNumber { class, field })?;
        } else {
            slots.push(FieldSlot::Instance(place))?;
            place = next(place)?;
        }
    }
    Ok(Sequence::new(slots))
}

fn next(place: u32) -> Result<u32, AllocError>
    ensures { IfOk result (λ next. next ≡ place + 1) }
{
    match place.checked_add(1) {
        Some(next) => Ok(next),
        None => Err(AllocError),
    }
}

// The layout over the extents of all classes, or none where one of them is not known.
fn lay_out(
    alloc: Global,
    classes: &[DeclaredFields],
    extents: &[Option<Extent>],
) -> Result<Option<Layout>, AllocError>
    ensures laid_out { IfOk result (λ found. IfSome found (λ layout. IsLaidOut classes.now extents.now layout)) }
    ensures made { ((class : ℕ) → class < length classes.now → IsSome (slice_index_or extents.now class None))
        → IfOk result (λ found. IsSome found) }
{
    let mut rows = Vec::new(alloc);
    let mut statics = Vec::new(alloc);
    for declared in classes {
        let Ok(class) = u32::try_from(rows.len()) else {
            return Err(AllocError);
        };
        let Some(extent) = extent_at(extents, class) else {
            return Ok(None);
        };
        let slots = slots_of(
            alloc,
            &mut statics,
            class,
            extent.inherited,
            declared.fields,
        )?;
        rows.push(ClassLayout {
            size: extent.size,
            slots,
        })?;
    }
    Ok(Some(Layout {
        classes: rows,
        statics,
    }))
}

impl Layout {
    /// The layout of classes by their numbers, made in an order in which each class comes after
    /// its superclass: some for every such order, none for another. An instance has the fields of
    /// the topmost superclass first, and the static fields of all classes are numbered in the
    /// order of the classes and of the fields of each. It takes 40 bytes for a class and 8 for a
    /// field, 16 for a static one.
    pub fn of(
        alloc: Global,
        classes: &[DeclaredFields],
        order: &[u32],
    ) -> Result<Option<Layout>, AllocError>
        ensures laid_out { (program : List ClassParts) (names : List (List ℕ)) → AreFields program names classes.now
            → IfOk result (λ found. IfSome found (λ layout. IsLayout program names layout)) }
        ensures made { IsTopDown classes.now order.now → IfOk result (λ found. IsSome found) }
    {
        let Some(extents) = extents_of(alloc, classes, order)? else {
            return Ok(None);
        };
        lay_out(alloc, classes, &extents)
    }

    /// How many fields an instance of a class has, inherited ones included. A class that is not
    /// there has none.
    #[inline]
    pub fn size(&self, class: u32) -> Option<u32>
        ensures { result ≡ size_at self.now class }
    {
        match self.classes.get(class as usize) {
            Some(row) => Some(row.size),
            None => None,
        }
    }

    /// Where the field stands that a class declares under a number among its fields.
    #[inline]
    pub fn slot(&self, class: u32, field: u32) -> Option<FieldSlot>
        ensures { result ≡ slot_at self.now class field }
    {
        match self.classes.get(class as usize) {
            Some(row) => match row.slots.as_slice().get(field as usize) {
                Some(slot) => Some(*slot),
                None => None,
            },
            None => None,
        }
    }

    /// The static fields of all classes by their numbers.
    #[inline]
    pub fn statics(&self) -> &[FieldNumber]
        ensures { result.now ≡ self.now.statics }
    {
        &self.statics
    }
}

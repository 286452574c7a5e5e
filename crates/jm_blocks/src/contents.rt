// What a block holds.

ghost use Rattle.std.specs.Prelude.{◌≡◌, ◌+◌, ◌<◌, ◌≤◌, ◌^◌, ◌++◌, ◌∷◌, [], Some, None, MatchOption, OnOk, OnErr, IfSome, IsTrue, true};
ghost use Rattle.std.specs.Prelude.{drop, length, map, slice_get, slice_set, replicate};
ghost use Rattle.jm_values.specs.Objects.{default_of};
ghost use Rattle.jm_heap.specs.Cells.{class_size};
ghost use Rattle.jm_blocks.specs.Objects.{Object, aged, object_of, with_value};
ghost use Rattle.jm_values.specs.declared.value.Value.{Value};
ghost use Rattle.jm_heap.specs.Elements.{elements, element_kind};
ghost use Rattle.jm_heap.specs.Packing.{Fits, kind_of};
ghost use Rattle.jm_heap.specs.declared.storage.Storage.TheVariants as kind;
ghost use Rattle.jm_blocks.specs.Cells.{object_cells, sizes_of, block_cells, has_room, HoldsItsCells};
ghost use Rattle.jm_blocks.specs.Entries.{copied};
ghost use Rattle.std.specs.Prelude.{vec_len};
ghost use Rattle.std.specs.Vec.{vec_capacity};

use crate::entry::Entry;
use crate::header::Header;
use crate::packed::Packed;
use jm_heap::{Elements, Storage};
use jm_program::OperandType;
use jm_values::Value;
use std::alloc::{AllocError, Global};
use std::marker::Model;

/// The cells of a block that several objects share.
const CELLS: u64 = 512;

/// The cells of the largest object that shares a block.
const SHARED: u64 = 256;

/// Room is made at once for so many objects that are like the first one, at most: others may be larger.
const LIKE: u64 = 128;

// How many objects of so many cells a block has room made for at once.
fn room_for(cells: u64) -> usize
    requires { 2 ≤ cells }
    ensures { result ≤ 128 }
{
    let objects = CELLS / cells;
    if objects > LIKE {
        return LIKE as usize;
    }
    objects as usize
}

// Puts an entry at the end, as that of a copy: it is copied whole, and two of its parts are changed where it lies then.
#[inline(always)]
fn push_entry(entries: &mut Vec<Entry>, entry: &Entry, age: u8, start: u32)
    requires { vec_len entries.old < vec_capacity entries.old }
    ensures { entries.new.items ≡ entries.old.items ++ copied entry.now age start ∷ [] }
{
    let count = entries.len();
    entries.push_reserved(*entry);
    let last = &mut entries[count];
    last.become_copy(age, start);
}

/// The objects of a block: their entries, and their values packed.
pub(crate) struct Contents {
    entries: Vec<Entry>,
    values: Packed,
    cells: u64,
}

// Written out, so that whoever lets go of one makes a call (docs/DECISIONS.md).
impl Drop for Contents {
    fn drop(self) {
        let Contents {
            entries: _,
            values: _,
            cells: _,
        } = self;
    }
}

impl Model for Contents {
    ghost use Rattle.std.specs.Prelude.{List};
    ghost use Rattle.jm_blocks.specs.Objects.{Object};

    ghost Value = { List Object };

    ghost use Rattle.jm_blocks.specs.Spelled.{spelled, IsBlock};

    ghost view = { λ b. spelled b.entries.items b.values };

    ghost invariant = { λ b. IsBlock b.entries.items b.values b.cells };
}

impl Contents {
    /// No objects.
    pub(crate) fn new(alloc: Global) -> Contents
        ensures { result ≡ [] }
    {
        Contents {
            entries: Vec::new(alloc),
            values: Packed::new(alloc),
            cells: 0,
        }
    }

    /// How many objects there are.
    #[inline]
    pub(crate) fn len(&self) -> usize
        ensures value { result ≡ length self.now }
        ensures few { result ≤ 256 }
    {
        self.entries.len()
    }

    /// The cells of the objects. Where there are several, they are at most 512, and at most 256
    /// each.
    #[inline]
    pub(crate) fn cells(&self) -> u64
        ensures value { result ≡ block_cells self.now }
        ensures held { HoldsItsCells (sizes_of self.now) }
    {
        self.cells
    }

    /// Whether an object of so many cells fits into the block.
    #[inline]
    pub(crate) fn has_room(&self, cells: u64) -> bool
        ensures value { result ≡ has_room (sizes_of self.now) cells }
        ensures open { IsTrue result → 2 ≤ cells → length self.now < 256 }
    {
        let objects = self.entries.len();
        if objects == 0 {
            return true;
        }
        if cells > SHARED {
            return false;
        }
        if objects == 1 && self.cells > SHARED {
            return false;
        }
        self.cells + cells <= CELLS
    }

    /// The object of this number, which is there: its header and its values, as they lie.
    #[inline(always)]
    pub(crate) fn object_at(&self, index: usize) -> (Header, Elements<'_>)
        requires { (o : Object) × (slice_get self.now index ≡ Some o) }
        ensures short { length (elements result.1) < 2 ^ 32 }
        ensures value { slice_get self.now index ≡ Some (object_of result.0 (elements result.1)) }
        ensures kind { element_kind result.1 ≡ kind_of result.0.class }
    {
        let entry = &self.entries[index];
        (
            entry.header(),
            self.values
                .elements(entry.kind(), entry.start(), entry.length()),
        )
    }

    /// The object of this number: its header and its values, as they lie.
    #[inline]
    pub(crate) fn object(&self, index: usize) -> Option<(Header, Elements<'_>)>
        ensures short { IfSome result (λ o. length (elements o.1) < 2 ^ 32) }
        ensures value { MatchOption result (slice_get self.now index ≡ None) (λ o. slice_get self.now index ≡ Some (object_of o.0 (elements o.1))) }
        ensures kind { IfSome result (λ o. element_kind o.1 ≡ kind_of o.0.class) }
    {
        if index >= self.entries.len() {
            return None;
        }
        Some(self.object_at(index))
    }

    /// One value of the object of this number.
    #[inline]
    pub(crate) fn get(&self, index: usize, number: usize) -> Value
        requires { (o : Object) × (slice_get self.now index ≡ Some o) × (number < length o.values) }
        ensures value { (o : Object) → slice_get self.now index ≡ Some o → slice_get o.values number ≡ Some result }
        ensures fits { (o : Object) → slice_get self.now index ≡ Some o → Fits (kind_of o.class) result }
    {
        let entry = &self.entries[index];
        let kind = entry.kind();
        let start = entry.start();
        let _end = self.values.len(kind);
        self.values.get(kind, start + number)
    }

    /// Changes one value of an object, which is one of its type.
    #[inline(always)]
    pub(crate) fn set(&mut self, index: usize, number: usize, value: Value)
        requires { (o : Object) × (slice_get self.old index ≡ Some o) × (number < length o.values) × Fits (kind_of o.class) value }
        ensures { (o : Object) → slice_get self.old index ≡ Some o → self.new ≡ slice_set self.old index (with_value o number value) }
    {
        let entry = &self.entries[index];
        let kind = entry.kind();
        let start = entry.start();
        let _end = self.values.len(kind);
        self.values.set(kind, start + number, value);
    }

    /// Puts an object at the end with values as they lie in some block, which are of its kind: one copy
    /// of memory. A growth that is refused changes nothing.
    #[inline(always)]
    pub(crate) fn bump(&mut self, header: Header, values: Elements<'_>) -> Result<(), AllocError>
        requires short { length (elements values) < 2 ^ 32 }
        requires room { has_room (sizes_of self.old) (class_size header.class (length (elements values))) ≡ true }
        requires same { element_kind values ≡ kind_of header.class }
        ensures ok { OnOk result (self.new ≡ self.old ++ object_of header (elements values.entry) ∷ []) }
        ensures err { OnErr result (self.new ≡ self.old) }
    {
        let start = self.values.len(Storage::of(header.class));
        let count = values.len();
        self.entries.reserve(1)?;
        self.values.push_elements(values)?;
        self.cells += header.class.size(count as u64);
        self.entries
            .push_reserved(Entry::new(header, start as u32, count as u32));
        Ok(())
    }

    /// Puts a copy of an object of some block at the end, of that age: its entry is looked up once, and its
    /// values are one copy of memory. A growth that is refused changes nothing.
    #[inline(always)]
    pub(crate) fn bump_copy(
        &mut self,
        from: &Contents,
        index: usize,
        age: u8,
    ) -> Result<(), AllocError>
        requires { (o : Object) × (slice_get from.now index ≡ Some o) × (has_room (sizes_of self.old) (object_cells o) ≡ true) }
        ensures ok { OnOk result ((o : Object) → slice_get from.now index ≡ Some o → self.new ≡ self.old ++ aged age o ∷ []) }
        ensures err { OnErr result (self.new ≡ self.old) }
    {
        let entry = &from.entries[index];
        self.entries.reserve(1)?;
        let start = self
            .values
            .push_from(entry.kind(), &from.values, entry.start(), entry.length())?;
        self.cells += entry.cells();
        push_entry(&mut self.entries, entry, age, start as u32);
        Ok(())
    }

    /// Makes room for objects like this one of some block, as many as fit or 128. A growth that is refused
    /// changes nothing either.
    pub(crate) fn reserve_like(&mut self, from: &Contents, index: usize) -> Result<(), AllocError>
        requires { (o : Object) × (slice_get from.now index ≡ Some o) }
        ensures { self.new ≡ self.old }
    {
        let entry = &from.entries[index];
        let cells = entry.cells();
        if cells > SHARED {
            return Ok(());
        }
        let objects = room_for(cells);
        self.entries.reserve(objects)?;
        self.values.reserve(entry.kind(), objects * entry.length())
    }

    /// How many collections the object of this number has survived.
    #[inline(always)]
    pub(crate) fn age(&self, index: usize) -> u8
        requires { (o : Object) × (slice_get self.now index ≡ Some o) }
        ensures { (o : Object) → slice_get self.now index ≡ Some o → result ≡ o.age }
    {
        let entry = &self.entries[index];
        entry.age()
    }

    /// The cells of the object of this number.
    #[inline(always)]
    pub(crate) fn cells_of(&self, index: usize) -> u64
        requires { (o : Object) × (slice_get self.now index ≡ Some o) }
        ensures { (o : Object) → slice_get self.now index ≡ Some o → result ≡ object_cells o }
    {
        let entry = &self.entries[index];
        entry.cells()
    }

    /// Puts an object at the end whose values are so many copies of one, which is one of its type. A
    /// growth that is refused changes nothing.
    pub(crate) fn bump_copies(
        &mut self,
        header: Header,
        value: Value,
        count: u32,
    ) -> Result<(), AllocError>
        requires room { has_room (sizes_of self.old) (class_size header.class count) ≡ true }
        requires fits { Fits (kind_of header.class) value }
        ensures ok { OnOk result (self.new ≡ self.old ++ object_of header (replicate count value) ∷ []) }
        ensures err { OnErr result (self.new ≡ self.old) }
    {
        let kind = Storage::of(header.class);
        let start = self.values.len(kind);
        self.entries.reserve(1)?;
        self.values.push(kind, value, count as usize)?;
        self.cells += header.class.size(count as u64);
        self.entries
            .push_reserved(Entry::new(header, start as u32, count));
        Ok(())
    }

    /// Puts an instance at the end whose values are the default values of fields. A growth that is
    /// refused changes nothing.
    #[inline(always)]
    pub(crate) fn bump_defaults(
        &mut self,
        header: Header,
        fields: &[OperandType],
    ) -> Result<(), AllocError>
        requires short { length fields.now < 2 ^ 32 }
        requires room { has_room (sizes_of self.old) (class_size header.class (length fields.now)) ≡ true }
        requires instance { kind.Fields ≡ kind_of header.class }
        ensures ok { OnOk result (self.new ≡ self.old ++ object_of header (map default_of fields.now) ∷ []) }
        ensures err { OnErr result (self.new ≡ self.old) }
    {
        let start = self.values.len(Storage::Fields);
        self.entries.reserve(1)?;
        self.values.push_defaults(fields)?;
        self.cells += header.class.size(fields.len() as u64);
        self.entries
            .push_reserved(Entry::new(header, start as u32, fields.len() as u32));
        Ok(())
    }

    /// Gives up the last object: what is left has room for it.
    pub(crate) fn pop(&mut self)
        requires { 0 < length self.old }
        ensures { (o : Object) × (self.old ≡ self.new ++ o ∷ []) × (has_room (sizes_of self.new) (object_cells o) ≡ true) }
    {
        let last = self.entries.len() - 1;
        let entry = self.entries[last];
        self.cells -= entry.header().class.size(entry.length() as u64);
        self.entries.truncate(last);
        self.values.truncate(entry.kind(), entry.start());
    }
}

// A block of cells.

ghost use Rattle.std.specs.Prelude.{◌≡◌, ◌+◌, ◌<◌, ◌≤◌, ◌^◌, ◌++◌, ◌∷◌, [], Some, None, MatchOption, OnOk, OnErr, IfSome, IsTrue, true};
ghost use Rattle.std.specs.Prelude.{length, map, slice_get, slice_set, replicate};
ghost use Rattle.jm_values.specs.Objects.{default_of};
ghost use Rattle.jm_values.specs.declared.value.Value.{Value};
ghost use Rattle.jm_heap.specs.Cells.{class_size};
ghost use Rattle.jm_heap.specs.Elements.{elements, element_kind};
ghost use Rattle.jm_heap.specs.Packing.{Fits, kind_of};
ghost use Rattle.jm_heap.specs.declared.storage.Storage.TheVariants as kind;
ghost use Rattle.jm_blocks.specs.Objects.{Object, aged, object_of, with_value};
ghost use Rattle.jm_blocks.specs.Cells.{object_cells, sizes_of, block_cells, has_room, HoldsItsCells};

use crate::contents::Contents;
use crate::header::Header;
use jm_heap::Elements;
use jm_program::OperandType;
use jm_values::Value;
use std::alloc::{AllocError, Global};
use std::marker::Model;

/// Objects one after the other, each a header and its values: several that have at most 256 cells
/// each and 512 together, or one.
pub struct Block {
    alloc: Global,
    // One item, or none before the first object: a store may have many empty blocks. A list and not an
    // optional box, since a look at an object that is there then asks nothing.
    contents: Vec<Contents>,
}

// Written out, so that whoever lets go of one makes a call (docs/DECISIONS.md).
impl Drop for Block {
    fn drop(self) {
        let Block {
            alloc: _,
            contents: _,
        } = self;
    }
}

impl Model for Block {
    ghost use Rattle.std.specs.Prelude.{List};
    ghost use Rattle.jm_blocks.specs.Objects.{Object};

    ghost Value = { List Object };

    ghost use Rattle.jm_blocks.specs.Held.{objects_held};

    ghost view = { λ b. objects_held b.contents.items };
}

// The contents of a block that has none yet: a copy of an object, of that age, and room for more of its size. A growth
// that is refused changes nothing.
#[inline(never)]
fn open_with_copy(
    alloc: Global,
    contents: &mut Vec<Contents>,
    from: &Contents,
    index: usize,
    age: u8,
) -> Result<(), AllocError>
    requires there { (o : Object) × (slice_get from.now index ≡ Some o) }
    requires none { contents.old.items ≡ [] }
    ensures ok { OnOk result ((o : Object) → slice_get from.now index ≡ Some o → contents.new.items ≡ (aged age o ∷ []) ∷ []) }
    ensures err { OnErr result (contents.new.items ≡ []) }
{
    let mut first = Contents::new(alloc);
    first.reserve_like(from, index)?;
    first.bump_copy(from, index, age)?;
    contents.reserve_exact(1)?;
    contents.push_reserved(first);
    Ok(())
}

impl Block {
    /// A block without objects.
    #[inline]
    pub fn new(alloc: Global) -> Block
        ensures { result ≡ [] }
    {
        Block {
            alloc,
            contents: Vec::new(alloc),
        }
    }

    /// Another block without objects.
    pub(crate) fn another(&self) -> Block
        ensures { result ≡ [] }
    {
        Block::new(self.alloc)
    }

    /// How many objects there are.
    #[inline]
    pub fn len(&self) -> usize
        ensures value { result ≡ length self.now }
        ensures few { result ≤ 256 }
    {
        match self.contents.first() {
            Some(contents) => contents.len(),
            None => 0,
        }
    }

    /// The cells of the objects. Where there are several, they are at most 512, and at most 256
    /// each.
    #[inline]
    pub fn cells(&self) -> u64
        ensures value { result ≡ block_cells self.now }
        ensures held { HoldsItsCells (sizes_of self.now) }
    {
        match self.contents.first() {
            Some(contents) => contents.cells(),
            None => 0,
        }
    }

    /// Whether an object of so many cells fits into the block.
    #[inline]
    pub fn has_room(&self, cells: u64) -> bool
        ensures value { result ≡ has_room (sizes_of self.now) cells }
        ensures open { IsTrue result → 2 ≤ cells → length self.now < 256 }
    {
        match self.contents.first() {
            Some(contents) => contents.has_room(cells),
            None => true,
        }
    }

    /// The object of this number, which is there: its header and its values, as they lie.
    #[inline(always)]
    pub fn object_at(&self, index: usize) -> (Header, Elements<'_>)
        requires { (o : Object) × (slice_get self.now index ≡ Some o) }
        ensures short { length (elements result.1) < 2 ^ 32 }
        ensures value { slice_get self.now index ≡ Some (object_of result.0 (elements result.1)) }
        ensures kind { element_kind result.1 ≡ kind_of result.0.class }
    {
        self.contents[0].object_at(index)
    }

    /// The object of this number: its header and its values, as they lie.
    #[inline]
    pub fn object(&self, index: usize) -> Option<(Header, Elements<'_>)>
        ensures short { IfSome result (λ o. length (elements o.1) < 2 ^ 32) }
        ensures value { MatchOption result (slice_get self.now index ≡ None) (λ o. slice_get self.now index ≡ Some (object_of o.0 (elements o.1))) }
        ensures kind { IfSome result (λ o. element_kind o.1 ≡ kind_of o.0.class) }
    {
        match self.contents.first() {
            Some(contents) => contents.object(index),
            None => None,
        }
    }

    /// One value of the object of this number.
    #[inline]
    pub fn get(&self, index: usize, number: usize) -> Value
        requires { (o : Object) × (slice_get self.now index ≡ Some o) × (number < length o.values) }
        ensures value { (o : Object) → slice_get self.now index ≡ Some o → slice_get o.values number ≡ Some result }
        ensures fits { (o : Object) → slice_get self.now index ≡ Some o → Fits (kind_of o.class) result }
    {
        self.contents[0].get(index, number)
    }

    /// Changes one value of an object, which is one of its type.
    #[inline(always)]
    pub fn set(&mut self, index: usize, number: usize, value: Value)
        requires { (o : Object) × (slice_get self.old index ≡ Some o) × (number < length o.values) × Fits (kind_of o.class) value }
        ensures { (o : Object) → slice_get self.old index ≡ Some o → self.new ≡ slice_set self.old index (with_value o number value) }
    {
        let contents = &mut self.contents[0];
        contents.set(index, number, value);
    }

    /// Puts an object at the end with values as they lie in some block, which are of its kind: one copy
    /// of memory. A growth that is refused changes nothing.
    #[inline(always)]
    pub fn bump(&mut self, header: Header, values: Elements<'_>) -> Result<(), AllocError>
        requires short { length (elements values) < 2 ^ 32 }
        requires room { has_room (sizes_of self.old) (class_size header.class (length (elements values))) ≡ true }
        requires same { element_kind values ≡ kind_of header.class }
        ensures ok { OnOk result (self.new ≡ self.old ++ object_of header (elements values.entry) ∷ []) }
        ensures err { OnErr result (self.new ≡ self.old) }
    {
        if self.contents.len() > 0 {
            let contents = &mut self.contents[0];
            return contents.bump(header, values);
        }
        let mut contents = Contents::new(self.alloc);
        contents.bump(header, values)?;
        self.contents.reserve_exact(1)?;
        self.contents.push_reserved(contents);
        Ok(())
    }

    /// How many collections the object of this number has survived.
    #[inline(always)]
    pub fn age(&self, index: usize) -> u8
        requires { (o : Object) × (slice_get self.now index ≡ Some o) }
        ensures { (o : Object) → slice_get self.now index ≡ Some o → result ≡ o.age }
    {
        self.contents[0].age(index)
    }

    /// The cells of the object of this number.
    #[inline(always)]
    pub fn cells_of(&self, index: usize) -> u64
        requires { (o : Object) × (slice_get self.now index ≡ Some o) }
        ensures { (o : Object) → slice_get self.now index ≡ Some o → result ≡ object_cells o }
    {
        self.contents[0].cells_of(index)
    }

    /// Puts a copy of an object of some block at the end, of that age: its entry is looked up once, and its
    /// values are one copy of memory. A growth that is refused changes nothing.
    #[inline(always)]
    pub fn bump_copy(&mut self, from: &Block, index: usize, age: u8) -> Result<(), AllocError>
        requires { (o : Object) × (slice_get from.now index ≡ Some o) × (has_room (sizes_of self.old) (object_cells o) ≡ true) }
        ensures ok { OnOk result ((o : Object) → slice_get from.now index ≡ Some o → self.new ≡ self.old ++ aged age o ∷ []) }
        ensures err { OnErr result (self.new ≡ self.old) }
    {
        let source = &from.contents[0];
        if self.contents.len() > 0 {
            let contents = &mut self.contents[0];
            return contents.bump_copy(source, index, age);
        }
        open_with_copy(self.alloc, &mut self.contents, source, index, age)
    }

    /// Puts an object at the end whose values are so many copies of one, which is one of its type. A
    /// growth that is refused changes nothing.
    pub fn bump_copies(
        &mut self,
        header: Header,
        value: Value,
        count: u32,
    ) -> Result<(), AllocError>
        requires room { has_room (sizes_of self.old) (class_size header.class count) ≡ true }
        requires fits { Fits (kind_of header.class) value }
        ensures ok { OnOk result (self.new ≡ self.old ++ object_of header (replicate count value) ∷ []) }
        ensures err { OnErr result (self.new ≡ self.old) }
    {
        if self.contents.len() > 0 {
            let contents = &mut self.contents[0];
            return contents.bump_copies(header, value, count);
        }
        let mut contents = Contents::new(self.alloc);
        contents.bump_copies(header, value, count)?;
        self.contents.reserve_exact(1)?;
        self.contents.push_reserved(contents);
        Ok(())
    }

    /// Puts an instance at the end whose values are the default values of fields. A growth that is
    /// refused changes nothing.
    #[inline(always)]
    pub fn bump_defaults(
        &mut self,
        header: Header,
        fields: &[OperandType],
    ) -> Result<(), AllocError>
        requires short { length fields.now < 2 ^ 32 }
        requires room { has_room (sizes_of self.old) (class_size header.class (length fields.now)) ≡ true }
        requires instance { kind.Fields ≡ kind_of header.class }
        ensures ok { OnOk result (self.new ≡ self.old ++ object_of header (map default_of fields.now) ∷ []) }
        ensures err { OnErr result (self.new ≡ self.old) }
    {
        if self.contents.len() > 0 {
            let contents = &mut self.contents[0];
            return contents.bump_defaults(header, fields);
        }
        let mut contents = Contents::new(self.alloc);
        contents.bump_defaults(header, fields)?;
        self.contents.reserve_exact(1)?;
        self.contents.push_reserved(contents);
        Ok(())
    }

    /// Gives up the last object: what is left has room for it.
    pub fn pop(&mut self)
        requires { 0 < length self.old }
        ensures { (o : Object) × (self.old ≡ self.new ++ o ∷ []) × (has_room (sizes_of self.new) (object_cells o) ≡ true) }
    {
        let contents = &mut self.contents[0];
        contents.pop();
    }
}

// Blocks under numbers.

ghost use Rattle.std.specs.Prelude.{◌≡◌, ℕ, ◌+◌, ◌<◌, ◌≤◌, ◌^◌, ◌++◌, true, false, Some, None, MatchOption, IfSome, IfOk, OnOk, OnErr, length, map, slice_get, slice_set, replicate, []};
ghost use Rattle.jm_values.specs.Objects.{default_of};
ghost use Rattle.jm_blocks.specs.Objects.{Object, aged, object_of};
ghost use Rattle.jm_blocks.specs.Cells.{object_cells};
ghost use Rattle.jm_heap.specs.Elements.{elements, element_kind};
ghost use Rattle.jm_heap.specs.Packing.{Fits, kind_of};
ghost use Rattle.jm_heap.specs.declared.storage.Storage.TheVariants as kind;
ghost use Rattle.jm_blocks.specs.Places.{place_at, lane_of};
ghost use Rattle.jm_blocks.specs.Stores.{Blocks, objects_in, LiesIn, HasObject, HasValue, Bumped, IsPutNext, IsSet, IsPopped, IsAfter, IsFirst, IsFirstBlock, IsLast, IsLastBlock, IsEmpty, EndsBlock, NoneFrom};
ghost use Rattle.jm_blocks.specs.Stores.{last_has_room, store_with, next_place, store_cells, AreShort};
ghost use Rattle.std.specs.Prelude.{List, ◌∷◌, ◌⊎◌, get_or, vec_len, vec_capacity};

use crate::block::Block;
use crate::header::Header;
use crate::position::Position;
use jm_heap::Elements;
use jm_program::OperandType;
use jm_values::{Place, Value};
use std::alloc::{AllocError, Global};
use std::marker::Model;
use std::mem;

/// So many blocks of a lane have a number.
const MAX_BLOCKS: usize = 1 << 49;

/// The blocks of a lane, under the numbers from 0 on. An object is put into the last block, or into
/// a new one where it has no room there. A block may be empty: it holds a number whose block another
/// store fills, or was moved there for a while.
pub struct BlockStore {
    lane: u64,
    // So many first blocks are empty and are not kept, and one that is empty stands for them.
    first: usize,
    none: Block,
    // The others, of which there is one at least where some are not kept. There is room for all.
    blocks: Vec<Block>,
    // The cells of all objects, modulo 2^64.
    cells: u64,
}

// Written out, so that whoever lets go of one makes a call (docs/DECISIONS.md).
impl Drop for BlockStore {
    fn drop(self) {
        let BlockStore {
            lane: _,
            first: _,
            none: _,
            blocks: _,
            cells: _,
        } = self;
    }
}

impl Model for BlockStore {
    ghost use Rattle.std.specs.Prelude.{◌≡◌, ◌<◌, ◌≤◌, ◌^◌, ◌+◌, [], length, vec_capacity};
    ghost use Rattle.jm_blocks.specs.Stores.{Blocks, AreCounted, AreKept, lists_from};

    ghost Value = { Blocks };

    ghost view = { λ s. record { lane = s.lane; lists = lists_from s.first s.blocks.items } };

    ghost invariant = { λ s. (0 < s.lane) × (s.lane < 64) × (s.first + length s.blocks.items ≤ 2 ^ 49) × AreCounted (lists_from s.first s.blocks.items) s.cells × (s.none ≡ []) × AreKept s.first s.blocks.items (vec_capacity s.blocks) };
}

// Puts so many empty blocks at the end, and sees to it that there is room for so many more. A growth that is
// refused changes nothing.
fn push_empty(
    alloc: Global,
    blocks: &mut Vec<Block>,
    count: usize,
    more: usize,
) -> Result<(), AllocError>
    requires { (count ≤ 2 ^ 49) × (more ≤ 2 ^ 49) }
    ensures ok { OnOk result (blocks.new.items ≡ blocks.old.items ++ replicate count []) }
    ensures room { OnOk result (more + length blocks.new.items ≤ vec_capacity blocks.new) }
    ensures err { OnErr result (blocks.new.items ≡ blocks.old.items) }
    ensures grows { vec_capacity blocks.old ≤ vec_capacity blocks.new }
{
    blocks.reserve(count + more)?;
    for number in 0..count {
        blocks.push_reserved(Block::new(alloc));
    }
    Ok(())
}

// Puts a block at the end, and sees to it that there is room for so many more. A growth that is refused changes
// nothing.
fn push_block(blocks: &mut Vec<Block>, block: Block, more: usize) -> Result<(), AllocError>
    requires { more ≤ 2 ^ 49 }
    ensures ok { OnOk result (blocks.new.items ≡ blocks.old.items ++ block ∷ []) }
    ensures room { OnOk result (more + length blocks.new.items ≤ vec_capacity blocks.new) }
    ensures err { OnErr result (blocks.new.items ≡ blocks.old.items) }
    ensures grows { vec_capacity blocks.old ≤ vec_capacity blocks.new }
{
    blocks.reserve(more + 1)?;
    blocks.push_reserved(block);
    Ok(())
}

// Puts so many empty blocks before the others, for which there is room.
fn keep_empty(blocks: &mut Vec<Block>, none: &Block, count: usize)
    requires { count + vec_len blocks.old ≤ vec_capacity blocks.old }
    ensures { blocks.new.items ≡ replicate count [] ++ blocks.old.items }
{
    for number in 0..count {
        let _room = blocks.insert(0, none.another());
    }
}

// How many blocks are kept where the last one has so many objects left: one at least where some are not kept.
fn blocks_left(objects: usize, before: usize, first: usize) -> usize
    requires { before < 2 ^ 49 }
    ensures { (result ≡ before + 1) ⊎ ((result ≡ before) × (objects ≡ 0) × (0 < first → 0 < before)) }
{
    if objects > 0 {
        return before + 1;
    }
    if before == 0 && first > 0 {
        return before + 1;
    }
    before
}

impl BlockStore {
    /// A store without blocks, in a lane from 1 to 63.
    pub fn new(alloc: Global, lane: u64) -> BlockStore
        requires some { 0 < lane }
        requires below { lane < 64 }
        ensures { result ≡ record { lane = lane; lists = [] } }
    {
        BlockStore {
            lane,
            first: 0,
            none: Block::new(alloc),
            blocks: Vec::new(alloc),
            cells: 0,
        }
    }

    /// A store of so many empty blocks, in a lane from 1 to 63. All but the last are not kept: they take room
    /// for their numbers, which nothing is written to, and a number of steps that is the same for all.
    pub fn starting_at(alloc: Global, lane: u64, count: usize) -> Result<BlockStore, AllocError>
        requires some { 0 < lane }
        requires below { lane < 64 }
        requires few { count ≤ 2 ^ 49 }
        ensures { IfOk result (λ s. s ≡ record { lane = lane; lists = replicate count [] }) }
    {
        if count == 0 {
            return Ok(BlockStore::new(alloc, lane));
        }
        let mut blocks = Vec::new(alloc);
        push_empty(alloc, &mut blocks, 1, count - 1)?;
        Ok(BlockStore {
            lane,
            first: count - 1,
            none: Block::new(alloc),
            blocks,
            cells: 0,
        })
    }

    /// The lane of all blocks, from 1 to 63.
    #[inline]
    pub fn lane(&self) -> u64
        ensures value { result ≡ self.now.lane }
        ensures some { 0 < result }
        ensures below { result < 64 }
    {
        self.lane
    }

    /// How many blocks there are, the empty ones among them.
    #[inline]
    pub fn len(&self) -> usize
        ensures value { result ≡ length self.now.lists }
        ensures numbered { result ≤ 2 ^ 49 }
    {
        self.first + self.blocks.len()
    }

    /// The cells of all objects, where they are fewer than 2^64. It looks at no block. Each block has at
    /// most 256 objects, so that a place can tell them.
    #[inline]
    pub fn cells(&self) -> u64
        ensures value { store_cells self.now.lists < 2 ^ 64 → result ≡ store_cells self.now.lists }
        ensures short { AreShort self.now.lists }
    {
        self.cells
    }

    /// The block of this number.
    #[inline]
    pub fn block(&self, number: usize) -> &Block
        requires { number < length self.now.lists }
        ensures { slice_get self.now.lists number ≡ Some result.now }
    {
        if number < self.first {
            return &self.none;
        }
        &self.blocks[number - self.first]
    }

    // The block of a number, unless there is none or it is not kept and so has no objects.
    #[inline(always)]
    fn kept(&self, number: usize) -> Option<&Block>
        ensures { MatchOption result ((os : List Object) → slice_get self.now.lists number ≡ Some os → os ≡ [])
            (λ b. (b.now ≡ get_or self.now.lists number b.now) × (number < length self.now.lists)) }
    {
        if number < self.first {
            return None;
        }
        let kept = number - self.first;
        if kept >= self.blocks.len() {
            return None;
        }
        Some(&self.blocks[kept])
    }

    // The block of a number, which has objects.
    #[inline(always)]
    fn filled(&self, number: usize) -> &Block
        requires { (os : List Object) × (slice_get self.now.lists number ≡ Some os) × (0 < length os) }
        ensures value { result.now ≡ get_or self.now.lists number result.now }
        ensures within { number < length self.now.lists }
        ensures lane { self.now.lane < 64 }
    {
        &self.blocks[number - self.first]
    }

    /// The object at a place: its header and its values, which are fewer than 2^32.
    #[inline]
    pub fn object(&self, place: Place) -> Option<(Header, Elements<'_>)>
        ensures short { IfSome result (λ o. length (elements o.1) < 2 ^ 32) }
        ensures value { MatchOption result (objects_in self.now place ≡ None) (λ o. objects_in self.now place ≡ Some (object_of o.0 (elements o.1))) }
        ensures kind { IfSome result (λ o. element_kind o.1 ≡ kind_of o.0.class) }
    {
        let position = Position::of(place);
        if position.lane != self.lane {
            return None;
        }
        let Some(block) = self.kept(position.block) else {
            return None;
        };
        block.object(position.index)
    }

    /// The object at a place, where one is: its header and its values, which are fewer than 2^32.
    #[inline(always)]
    pub fn object_at(&self, place: Place) -> (Header, Elements<'_>)
        requires { HasObject self.now place }
        ensures short { length (elements result.1) < 2 ^ 32 }
        ensures value { objects_in self.now place ≡ Some (object_of result.0 (elements result.1)) }
        ensures kind { element_kind result.1 ≡ kind_of result.0.class }
    {
        let position = Position::of(place);
        let block = self.filled(position.block);
        block.object_at(position.index)
    }

    /// The block of the object at a place of the store's lane, and the object's number there.
    #[inline]
    pub fn find_here(&self, place: Place) -> Option<(&Block, usize)>
        requires { lane_of place ≡ self.now.lane }
        ensures { MatchOption result (objects_in self.now place ≡ None) (λ r. LiesIn self.now place r.0.now r.1) }
    {
        let position = Position::of(place);
        let Some(block) = self.kept(position.block) else {
            return None;
        };
        if position.index >= block.len() {
            return None;
        }
        Some((block, position.index))
    }

    /// One value of the object at a place.
    #[inline]
    pub fn get(&self, place: Place, number: usize) -> Value
        requires { HasValue self.now place number }
        ensures value { (o : Object) → objects_in self.now place ≡ Some o → slice_get o.values number ≡ Some result }
        ensures fits { (o : Object) → objects_in self.now place ≡ Some o → Fits (kind_of o.class) result }
    {
        let position = Position::of(place);
        let block = self.filled(position.block);
        block.get(position.index, number)
    }

    /// Changes one value of the object at a place, which is one of its type.
    #[inline(always)]
    pub fn set(&mut self, place: Place, number: usize, value: Value)
        requires there { HasValue self.old place number }
        requires fits { (o : Object) → objects_in self.old place ≡ Some o → Fits (kind_of o.class) value }
        ensures set { IsSet self.old self.new place number value }
        ensures lane { self.new.lane ≡ self.old.lane }
        ensures cells { store_cells self.new.lists ≡ store_cells self.old.lists }
        ensures many { length self.new.lists ≡ length self.old.lists }
    {
        let position = Position::of(place);
        let block = &mut self.blocks[position.block - self.first];
        block.set(position.index, number, value);
    }

    // Whether the last block has room for so many cells.
    #[inline]
    fn last_has_room(&self, cells: u64) -> bool
        ensures { result ≡ last_has_room self.now.lists cells }
    {
        match self.blocks.last() {
            Some(block) => block.has_room(cells),
            None => false,
        }
    }

    // The place of this number in a block.
    #[inline]
    fn place_in(&self, block: usize, index: usize) -> Place
        requires block { block < 2 ^ 49 }
        requires index { index < 256 }
        ensures value { result ≡ place_at self.now.lane block index }
        ensures lane { self.now.lane < 64 }
    {
        Position {
            lane: self.lane,
            block,
            index,
        }
        .place()
    }

    /// The place that the next object of so many cells gets: it is reserved for the store's owner,
    /// who may let it go. It is refused only where a lane has 2^49 blocks.
    #[inline]
    pub fn reserve(&self, cells: u64) -> Result<Place, AllocError>
        requires { 2 ≤ cells }
        ensures ok { IfOk result (λ p. p ≡ next_place self.now cells) }
        ensures lane { IfOk result (λ p. lane_of p ≡ self.now.lane) }
        ensures err { OnErr result (length self.now.lists ≡ 2 ^ 49) }
    {
        let count = self.blocks.len();
        if self.last_has_room(cells) {
            return Ok(self.place_in(self.first + count - 1, self.blocks[count - 1].len()));
        }
        if self.len() >= MAX_BLOCKS {
            return Err(AllocError);
        }
        Ok(self.place_in(self.len(), 0))
    }

    /// Puts an object at the place that is reserved for one of its cells, above all others, with values
    /// as they lie in some block, which are of its kind. A growth that is refused changes nothing.
    #[inline(always)]
    pub fn fill(
        &mut self,
        alloc: Global,
        header: Header,
        values: Elements<'_>,
    ) -> Result<(), AllocError>
        requires short { length (elements values) < 2 ^ 32 }
        requires same { element_kind values ≡ kind_of header.class }
        ensures ok { let o = object_of header (elements values.entry) in OnOk result (Bumped self.old self.new (next_place self.old (object_cells o)) o) }
        ensures blocks { OnOk result (self.new ≡ store_with self.old (object_of header (elements values.entry))) }
        ensures err { OnErr result (self.new ≡ self.old) }
    {
        let blocks = self.blocks.len();
        let cells = header.class.size(values.len() as u64);
        if self.last_has_room(cells) {
            let block = &mut self.blocks[blocks - 1];
            block.bump(header, values)?;
            self.cells = self.cells.wrapping_add(cells);
            return Ok(());
        }
        if self.len() >= MAX_BLOCKS {
            return Err(AllocError);
        }
        let mut block = Block::new(alloc);
        block.bump(header, values)?;
        push_block(&mut self.blocks, block, self.first)?;
        self.cells = self.cells.wrapping_add(cells);
        Ok(())
    }

    // Puts a copy of an object into a block of its own, as `push_copy` does.
    #[inline(never)]
    fn push_copy_apart(
        &mut self,
        alloc: Global,
        from: &Block,
        index: usize,
        age: u8,
    ) -> Result<Place, AllocError>
        requires { (o : Object) × (slice_get from.now index ≡ Some o) × (last_has_room self.old.lists (object_cells o) ≡ false) }
        ensures ok { IfOk result (λ p. (o : Object) → slice_get from.now index ≡ Some o → Bumped self.old self.new p (aged age o)) }
        ensures filled { IfOk result (λ p. (o : Object) → slice_get from.now index ≡ Some o → IsPutNext self.old self.new p (aged age o)) }
        ensures lane { IfOk result (λ p. lane_of p ≡ self.old.lane) }
        ensures same { self.new.lane ≡ self.old.lane }
        ensures err { OnErr result (self.new ≡ self.old) }
    {
        let blocks = self.len();
        if blocks >= MAX_BLOCKS {
            return Err(AllocError);
        }
        let place = self.place_in(blocks, 0);
        let mut block = Block::new(alloc);
        block.bump_copy(from, index, age)?;
        push_block(&mut self.blocks, block, self.first)?;
        self.cells = self.cells.wrapping_add(from.cells_of(index));
        Ok(place)
    }

    /// Puts a copy of an object of some block above all others, of that age, and answers its place. It is
    /// refused where a growth is, or where the lane would have more than 2^49 blocks; nothing has changed then.
    #[inline(always)]
    pub fn push_copy(
        &mut self,
        alloc: Global,
        from: &Block,
        index: usize,
        age: u8,
    ) -> Result<Place, AllocError>
        requires { (o : Object) × (slice_get from.now index ≡ Some o) }
        ensures ok { IfOk result (λ p. (o : Object) → slice_get from.now index ≡ Some o → Bumped self.old self.new p (aged age o)) }
        ensures filled { IfOk result (λ p. (o : Object) → slice_get from.now index ≡ Some o → IsPutNext self.old self.new p (aged age o)) }
        ensures lane { IfOk result (λ p. lane_of p ≡ self.old.lane) }
        ensures same { self.new.lane ≡ self.old.lane }
        ensures err { OnErr result (self.new ≡ self.old) }
    {
        let blocks = self.blocks.len();
        let cells = from.cells_of(index);
        if self.last_has_room(cells) {
            let place = self.place_in(self.first + blocks - 1, self.blocks[blocks - 1].len());
            let block = &mut self.blocks[blocks - 1];
            block.bump_copy(from, index, age)?;
            self.cells = self.cells.wrapping_add(cells);
            return Ok(place);
        }
        self.push_copy_apart(alloc, from, index, age)
    }

    /// Puts a copy of an object of some block, of that age, into the last block, which has room for its cells: as
    /// `push_copy` does, and asks nothing. A growth that is refused changes nothing.
    #[inline(always)]
    pub fn push_copy_here(
        &mut self,
        from: &Block,
        index: usize,
        age: u8,
        cells: u64,
    ) -> Result<(), AllocError>
        requires { (o : Object) × (slice_get from.now index ≡ Some o) × (cells ≡ object_cells o) × (last_has_room self.old.lists (object_cells o) ≡ true) }
        ensures ok { OnOk result ((o : Object) → slice_get from.now index ≡ Some o → self.new ≡ store_with self.old (aged age o)) }
        ensures err { OnErr result (self.new ≡ self.old) }
    {
        let blocks = self.blocks.len();
        let block = &mut self.blocks[blocks - 1];
        block.bump_copy(from, index, age)?;
        self.cells = self.cells.wrapping_add(cells);
        Ok(())
    }

    /// Puts an object whose values are so many copies of one at the place that is reserved for one of
    /// its cells, as `fill` does. A growth that is refused changes nothing.
    pub fn fill_copies(
        &mut self,
        alloc: Global,
        header: Header,
        value: Value,
        count: u32,
    ) -> Result<(), AllocError>
        requires { Fits (kind_of header.class) value }
        ensures ok { let o = object_of header (replicate count value) in OnOk result (Bumped self.old self.new (next_place self.old (object_cells o)) o) }
        ensures blocks { OnOk result (self.new ≡ store_with self.old (object_of header (replicate count value))) }
        ensures err { OnErr result (self.new ≡ self.old) }
    {
        let blocks = self.blocks.len();
        let cells = header.class.size(count as u64);
        if self.last_has_room(cells) {
            let block = &mut self.blocks[blocks - 1];
            block.bump_copies(header, value, count)?;
            self.cells = self.cells.wrapping_add(cells);
            return Ok(());
        }
        if self.len() >= MAX_BLOCKS {
            return Err(AllocError);
        }
        let mut block = Block::new(alloc);
        block.bump_copies(header, value, count)?;
        push_block(&mut self.blocks, block, self.first)?;
        self.cells = self.cells.wrapping_add(cells);
        Ok(())
    }

    /// Puts an object whose values are the default values of fields at the place that is reserved for
    /// one of its cells, as `fill` does. A growth that is refused changes nothing.
    #[inline(always)]
    pub fn fill_defaults(
        &mut self,
        alloc: Global,
        header: Header,
        fields: &[OperandType],
    ) -> Result<(), AllocError>
        requires short { length fields.now < 2 ^ 32 }
        requires instance { kind.Fields ≡ kind_of header.class }
        ensures ok { let o = object_of header (map default_of fields.now) in OnOk result (Bumped self.old self.new (next_place self.old (object_cells o)) o) }
        ensures blocks { OnOk result (self.new ≡ store_with self.old (object_of header (map default_of fields.now))) }
        ensures err { OnErr result (self.new ≡ self.old) }
    {
        let blocks = self.blocks.len();
        let cells = header.class.size(fields.len() as u64);
        if self.last_has_room(cells) {
            let block = &mut self.blocks[blocks - 1];
            block.bump_defaults(header, fields)?;
            self.cells = self.cells.wrapping_add(cells);
            return Ok(());
        }
        if self.len() >= MAX_BLOCKS {
            return Err(AllocError);
        }
        let mut block = Block::new(alloc);
        block.bump_defaults(header, fields)?;
        push_block(&mut self.blocks, block, self.first)?;
        self.cells = self.cells.wrapping_add(cells);
        Ok(())
    }

    // The number of the last block that has an object.
    fn last_block(&self) -> Option<usize>
        ensures found { MatchOption result (NoneFrom self.now.lists 0) (λ b. IsLastBlock self.now.lists b) }
        ensures numbered { IfSome result (λ b. b < 2 ^ 49) }
    {
        let mut count = self.len();
        while count > self.first {
            if self.block(count - 1).len() > 0 {
                return Some(count - 1);
            }
            count -= 1;
        }
        None
    }

    // The number of the first block from a number on that has an object.
    #[inline]
    fn first_block(&self, from: usize) -> Option<usize>
        ensures found { MatchOption result (NoneFrom self.now.lists from) (λ b. IsFirstBlock self.now.lists from b) }
        ensures numbered { IfSome result (λ b. b < 2 ^ 49) }
    {
        let begin = usize::max(from, self.first);
        for number in begin..self.len() {
            if self.block(number).len() > 0 {
                return Some(number);
            }
        }
        None
    }

    /// Gives up the last object, if there is one, and the empty blocks above it, its own with them where
    /// it was the only one there. Where there is none nothing changes.
    pub fn pop(&mut self)
        ensures popped { (p : ℕ) → HasObject self.old p → IsLast self.old p → (o : Object) × IsPopped self.old self.new p o }
        ensures empty { IsEmpty self.old → self.new ≡ self.old }
        ensures lane { self.new.lane ≡ self.old.lane }
    {
        let Some(last) = self.last_block() else {
            return;
        };
        let kept = last - self.first;
        self.blocks.truncate(kept + 1);
        let block = &mut self.blocks[kept];
        let cells = block.cells();
        block.pop();
        self.cells = self.cells.wrapping_sub(cells - block.cells());
        let left = blocks_left(block.len(), kept, self.first);
        self.blocks.truncate(left);
    }

    /// The place of the first object.
    #[inline]
    pub fn first(&self) -> Option<Place>
        ensures { MatchOption result (IsEmpty self.now) (λ p. IsFirst self.now p) }
    {
        let Some(block) = self.first_block(0) else {
            return None;
        };
        Some(self.place_in(block, 0))
    }

    /// The place of the last object.
    pub fn last(&self) -> Option<Place>
        ensures { MatchOption result (IsEmpty self.now) (λ p. HasObject self.now p × IsLast self.now p) }
    {
        let Some(block) = self.last_block() else {
            return None;
        };
        let objects = self.block(block).len();
        Some(self.place_in(block, objects - 1))
    }

    /// The place of the object after the one at a place in its block, if there is one.
    #[inline(always)]
    pub fn beside(&self, place: Place) -> Option<Place>
        requires { HasObject self.now place }
        ensures { MatchOption result (EndsBlock self.now place) (λ p. IsAfter self.now place p) }
    {
        let position = Position::of(place);
        let block = self.filled(position.block);
        if position.index + 1 < block.len() {
            return Some(Place::new(place.number() + 1));
        }
        None
    }

    /// The place of the first object above the one at a place.
    #[inline]
    pub fn after(&self, place: Place) -> Option<Place>
        requires { HasObject self.now place }
        ensures { MatchOption result (IsLast self.now place) (λ p. IsAfter self.now place p) }
    {
        if let Some(next) = self.beside(place) {
            return Some(next);
        }
        let Some(later) = self.first_block(Position::of(place).block + 1) else {
            return None;
        };
        Some(self.place_in(later, 0))
    }

    /// Whether the last block has room for so many cells; an empty one has for any object.
    #[inline]
    pub fn has_room(&self, cells: u64) -> bool
        ensures { result ≡ last_has_room self.now.lists cells }
    {
        self.last_has_room(cells)
    }

    /// Puts so many empty blocks at the end, the last of which is the one that is filled next. It is
    /// refused where the lane would have more than 2^49 blocks, or where a growth is; nothing has changed
    /// then.
    pub fn open(&mut self, alloc: Global, count: usize) -> Result<(), AllocError>
        ensures ok { OnOk result (self.new ≡ record { lane = self.old.lane; lists = self.old.lists ++ replicate count [] }) }
        ensures err { OnErr result (self.new ≡ self.old) }
    {
        if count > MAX_BLOCKS - self.len() {
            return Err(AllocError);
        }
        push_empty(alloc, &mut self.blocks, count, self.first)
    }

    /// The block of a number, which is taken out; an empty one holds its number.
    pub fn take(&mut self, alloc: Global, number: usize) -> Block
        requires { number < length self.old.lists }
        ensures block { slice_get self.old.lists number ≡ Some result }
        ensures lane { self.old.lane < 64 }
        ensures left { self.new ≡ record { lane = self.old.lane; lists = slice_set self.old.lists number [] } }
    {
        if number < self.first {
            return Block::new(alloc);
        }
        let block = mem::replace(&mut self.blocks[number - self.first], Block::new(alloc));
        self.cells = self.cells.wrapping_sub(block.cells());
        block
    }

    /// Puts a block under its number, which an empty one has held.
    pub fn put(&mut self, number: usize, block: Block)
        requires { slice_get self.old.lists number ≡ Some [] }
        ensures { self.new ≡ record { lane = self.old.lane; lists = slice_set self.old.lists number block } }
    {
        // It says that the block's objects are few.
        let _objects = block.len();
        self.cells = self.cells.wrapping_add(block.cells());
        if number < self.first {
            keep_empty(&mut self.blocks, &self.none, self.first);
            self.first = 0;
            self.blocks[number] = block;
            return;
        }
        self.blocks[number - self.first] = block;
    }
}

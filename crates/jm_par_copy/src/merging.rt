// Stores of one lane are put together.

ghost use Rattle.std.specs.Prelude.{◌≡◌, ◌<◌, ◌≤◌, ℕ, None, OnErr, OnOk, Some, length};
ghost use Rattle.jm_blocks.specs.Objects.{Object};
ghost use Rattle.jm_blocks.specs.Places.{block_of};
ghost use Rattle.jm_blocks.specs.Stores.{HasObject, objects_in};
ghost use Rattle.jm_par_copy.specs.Pieces.{objects_of};
ghost use Rattle.jm_par_copy.specs.Merging.{GoesOver, IsLeft, IsMoved};
ghost use Rattle.jm_par_copy.specs.Working.{both};

use crate::piece::Piece;
use jm_blocks::{BlockStore, Position};
use std::alloc::{AllocError, Global};

/// How many blocks a lane may have.
pub(crate) const MAX_BLOCKS: usize = 1 << 49;

// Sees to it that a store has a block of a number; it is refused where the lane would have more than 2^49.
fn open_to(alloc: Global, to: &mut BlockStore, number: usize) -> Result<(), AllocError>
    ensures same { (n : ℕ) → objects_in to.new n ≡ objects_in to.old n }
    ensures lane { to.new.lane ≡ to.old.lane }
    ensures there { OnOk result (number < length to.new.lists) }
{
    let count = to.len();
    if number < count {
        return Ok(());
    }
    if number >= MAX_BLOCKS {
        return Err(AllocError);
    }
    to.open(alloc, number - count + 1)?;
    Ok(())
}

// Sees to it that a store has `count` blocks.
fn open_all(alloc: Global, to: &mut BlockStore, count: usize) -> Result<(), AllocError>
    ensures same { (n : ℕ) → objects_in to.new n ≡ objects_in to.old n }
    ensures lane { to.new.lane ≡ to.old.lane }
    ensures there { OnOk result (count ≤ length to.new.lists) }
{
    if count == 0 {
        return Ok(());
    }
    open_to(alloc, to, count - 1)?;
    Ok(())
}

/// Puts a block that was moved into a store of its lane, which has no object where the block has one. A growth that
/// is refused changes no object of the store.
pub fn put_piece(alloc: Global, piece: Piece, to: &mut BlockStore) -> Result<(), AllocError>
    requires lane { piece.lane ≡ to.old.lane }
    requires few { piece.lane < 64 }
    requires free { (n : ℕ) (a : Object) → objects_of piece n ≡ Some a → objects_in to.old n ≡ None }
    ensures ok { OnOk result ((n : ℕ) → objects_in to.new n ≡ both (objects_of piece) (objects_in to.old) n) }
    ensures err { OnErr result ((n : ℕ) → objects_in to.new n ≡ objects_in to.old n) }
    ensures lane { to.new.lane ≡ to.old.lane }
{
    let Piece { number, block, .. } = piece;
    let count = block.len();
    if count == 0 {
        return Ok(());
    }
    open_to(alloc, to, number)?;
    to.put(number, block);
    Ok(())
}

// Moves the block of a number into a store that has a block of this number, whose objects, if there are any, are the
// first ones of it.
fn move_block(alloc: Global, from: &mut BlockStore, number: usize, to: &mut BlockStore)
    requires lane { from.old.lane ≡ to.old.lane }
    requires over { GoesOver from.old to.old }
    requires there { number < length from.old.lists }
    requires opened { number < length to.old.lists }
    ensures moved { IsMoved from.old to.old from.new to.new }
    ensures left { IsLeft from.old from.new number }
    ensures many { length to.new.lists ≡ length to.old.lists }
{
    let count = from.block(number).len();
    if count == 0 {
        return;
    }
    let block = from.take(alloc, number);
    let _first = to.take(alloc, number);
    to.put(number, block);
}

/// The number of the first block of a store with an object, and 0 where there is none.
pub(crate) fn first_filled(store: &BlockStore) -> usize
    ensures { (n : ℕ) → HasObject store.now n → result ≤ block_of n }
{
    match store.first() {
        Some(place) => Position::of(place).block,
        None => 0,
    }
}

// How many blocks a store has as far as the last one with an object.
fn filled_blocks(store: &BlockStore) -> usize
    ensures within { result ≤ length store.now.lists }
    ensures above { (n : ℕ) → HasObject store.now n → block_of n < result }
{
    match store.last() {
        Some(place) => Position::of(place).block + 1,
        None => 0,
    }
}

// Moves the blocks of a store from a number on and below another, where all its objects are, into another store of the
// same lane, which has as many, each with the first objects of the first store's or with none.
fn move_opened(
    alloc: Global,
    from: &mut BlockStore,
    first: usize,
    count: usize,
    to: &mut BlockStore,
)
    requires lane { from.old.lane ≡ to.old.lane }
    requires over { GoesOver from.old to.old }
    requires there { count ≤ length from.old.lists }
    requires below { (n : ℕ) → HasObject from.old n → first ≤ block_of n }
    requires above { (n : ℕ) → HasObject from.old n → block_of n < count }
    requires opened { count ≤ length to.old.lists }
    ensures lane { to.new.lane ≡ to.old.lane }
    ensures all { (n : ℕ) → objects_in to.new n ≡ both (objects_in to.old) (objects_in from.old) n }
{
    for number in first..count {
        move_block(alloc, from, number, to);
    }
}

/// Moves all blocks of a store that have objects into another of the same lane, which has a block of the same number empty
/// or with the first objects of the moved one, and opens it as far as the last block with an object. It begins at the
/// first one with an object. Only the opening can be refused, before any block is moved: the second has the objects that
/// it had then, and the first is as it was.
pub fn move_all(alloc: Global, from: &mut BlockStore, to: &mut BlockStore) -> Result<(), AllocError>
    requires lane { from.old.lane ≡ to.old.lane }
    requires over { GoesOver from.old to.old }
    ensures ok { OnOk result ((n : ℕ) → objects_in to.new n ≡ both (objects_in to.old) (objects_in from.old) n) }
    ensures err { OnErr result ((n : ℕ) → objects_in to.new n ≡ objects_in to.old n) }
    ensures from { OnErr result (from.new ≡ from.old) }
    ensures lane { to.new.lane ≡ to.old.lane }
{
    let first = first_filled(from);
    let count = filled_blocks(from);
    open_all(alloc, to, count)?;
    move_opened(alloc, from, first, count, to);
    Ok(())
}

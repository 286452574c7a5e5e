// Copiers take their seats, each with two stores of its own.

ghost use Rattle.std.specs.Prelude.{◌≡◌, ◌≢◌, ◌<◌, ◌≤◌, ◌^◌, [], IfOk, length, replicate, vec_capacity};
ghost use Rattle.jm_blocks.specs.Stores.{IsEmpty};
ghost use Rattle.jm_par_copy.specs.Begun.{IsBegin, IsBegun, IsLastOwn};
ghost use Rattle.jm_par_copy.specs.Seats.{AreOwnStores, AreSeatsOf, IsOwnStores, IsSeatOf};
ghost use Rattle.jm_par_copy.specs.Strides.{EndsOwn};

use crate::copier::Copier;
use crate::merging::MAX_BLOCKS;
use crate::round::Own;
use crate::unloading::YOUNG;
use jm_blocks::{Block, BlockStore};
use jm_copy::{Copies, Marks, Words};
use jm_forward::Seat;
use std::alloc::{AllocError, Global};

// How many cells the smallest object has.
const LEAST_CELLS: u64 = 2;

// A store of the young whose last block is that of this number, without an object.
fn own_young(alloc: Global, number: usize, copiers: usize) -> Result<BlockStore, AllocError>
    requires number { number < copiers }
    requires few { copiers ≤ 16 }
    ensures lane { IfOk result (λ s. s.lane ≡ 1) }
    ensures empty { IfOk result (λ s. IsEmpty s) }
    ensures ends { IfOk result (λ s. EndsOwn number copiers s) }
{
    let store = BlockStore::starting_at(alloc, YOUNG, number + 1)?;
    Ok(store)
}

// Of `count` blocks the number of a copier's own among the last ones, of which each copier has one. Where it has no block
// yet that is its first one, which is not there.
fn last_own(count: usize, number: usize, copiers: usize) -> usize
    requires number { number < copiers }
    ensures { IsLastOwn number copiers count result }
{
    if count <= number {
        return number;
    }
    let last = count - 1;
    last - (last - number) % copiers
}

// The number of the old block in which the copier of a number begins: its block among the last ones, where that is empty
// or has room for the smallest object, and else its next one. It looks at one block.
fn first_block(old: &BlockStore, number: usize, copiers: usize) -> usize
    requires number { number < copiers }
    requires few { copiers ≤ 16 }
    ensures begins { IsBegin number copiers old.now.lists result }
    ensures below { result < 2 ^ 50 }
{
    let last = last_own(old.len(), number, copiers);
    if last >= old.len() {
        return last;
    }
    if old.block(last).has_room(LEAST_CELLS) {
        return last;
    }
    last + copiers
}

// A store of `count` empty blocks. It is refused where a lane may not have as many.
fn empty_store(alloc: Global, lane: u64, count: usize) -> Result<BlockStore, AllocError>
    requires lane { (0 < lane) × (lane < 64) }
    ensures { IfOk result (λ s. s ≡ record { lane = lane; lists = replicate count [] }) }
{
    if count > MAX_BLOCKS {
        return Err(AllocError);
    }
    BlockStore::starting_at(alloc, lane, count)
}

// The same objects in a block of their own, which has the memory that they take.
fn copy_block(alloc: Global, block: &Block) -> Result<Block, AllocError>
    ensures { IfOk result (λ copy. copy ≡ block.now) }
{
    let mut copy = Block::new(alloc);
    // What is said of its cells shows that its objects have room one after the other.
    let _cells = block.cells();
    for index in 0..block.len() {
        let (header, values) = block.object_at(index);
        copy.bump(header, values)?;
    }
    Ok(copy)
}

// A store of the old that ends in the block in which the copier of a number begins, with copies of the objects that the
// old store has there.
fn own_old(
    alloc: Global,
    old: &BlockStore,
    number: usize,
    copiers: usize,
) -> Result<BlockStore, AllocError>
    requires number { number < copiers }
    requires few { copiers ≤ 16 }
    ensures lane { IfOk result (λ s. s.lane ≡ old.now.lane) }
    ensures ends { IfOk result (λ s. EndsOwn number copiers s) }
    ensures begun { IfOk result (λ s. IsBegun number copiers old.now s) }
{
    let first = first_block(old, number, copiers);
    let mut store = empty_store(alloc, old.lane(), first + 1)?;
    if first >= old.len() {
        return Ok(store);
    }
    let block = copy_block(alloc, old.block(first))?;
    store.put(first, block);
    Ok(store)
}

// The two stores of the copier of a number.
fn own_stores(
    alloc: Global,
    old: &BlockStore,
    number: usize,
    copiers: usize,
) -> Result<Copies, AllocError>
    requires apart { old.now.lane ≢ 1 }
    requires number { number < copiers }
    requires few { copiers ≤ 16 }
    ensures { IfOk result (λ to. IsOwnStores number copiers old.now to) }
{
    let words = Words::new(alloc, 0)?;
    let young = own_young(alloc, number, copiers)?;
    let tenured = own_old(alloc, old, number, copiers)?;
    let kept = tenured.last();
    Ok(Copies {
        words,
        young,
        tenured,
        kept,
    })
}

/// The stores of all copiers (at most 16), in order: the young have lane 1, and that of the old is the old store's. Each
/// copier begins in its block among the last ones of the old store, if that is empty or has room for one object more, and
/// else in its next one. It has copies of the objects there, and of the old store only that block is read.
pub fn all_stores(
    alloc: Global,
    copiers: usize,
    old: &BlockStore,
) -> Result<Vec<Copies>, AllocError>
    requires apart { old.now.lane ≢ 1 }
    requires few { copiers ≤ 16 }
    ensures own { IfOk result (λ ts. AreOwnStores 0 copiers old.now ts.items) }
    ensures many { IfOk result (λ ts. length ts.items ≡ copiers) }
{
    let mut stores = Vec::with_capacity(alloc, copiers)?;
    for number in 0..copiers {
        let own = own_stores(alloc, old, number, copiers)?;
        stores.push_reserved(own);
    }
    Ok(stores)
}

// The copier of a number, which has done nothing yet.
fn seat_one(alloc: Global, number: usize, seat: Seat, to: Copies) -> Copier
    ensures { IsSeatOf number seat to result }
{
    let kept = to.kept;
    Copier {
        own: Own {
            number,
            claims: 0,
            seat,
            to,
        },
        marks: Marks {
            young: None,
            tenured: kept,
        },
        pointing: Vec::new(alloc),
        given: Vec::new(alloc),
        roots: Vec::new(alloc),
        rooted: false,
        ended: false,
        refused: false,
        stopped: false,
        span: Vec::new(alloc),
        room: [0; 8],
    }
}

/// All copiers, in order, each with its seat and its stores, in a list that has room for them: none has done
/// anything yet. It takes no memory, so that no seat is lost.
pub fn seat_all(
    alloc: Global,
    seats: Vec<Seat>,
    mut stores: Vec<Copies>,
    mut copiers: Vec<Copier>,
) -> Vec<Copier>
    requires none { copiers.items ≡ [] }
    requires many { length stores.items ≡ length seats.items }
    requires room { length seats.items ≤ vec_capacity copiers }
    ensures { AreSeatsOf 0 seats.items stores.items result.items }
{
    for seat in seats {
        let to = stores.remove(0);
        let number = copiers.len();
        let copier = seat_one(alloc, number, seat, to);
        copiers.push_reserved(copier);
    }
    copiers
}

// The collector of one thread.

ghost use Rattle.std.specs.Prelude.{◌≡◌, ◌≢◌, ◌<◌, ℕ, IfErr, IfOk, IsTrue, None, OnErr, true, false, replicate};
ghost use Rattle.jm_blocks.specs.Stores.{objects_in, HasObject, IsLast};
ghost use Rattle.jm_copy.specs.Condemned.{AreLanes};
ghost use Rattle.jm_copy.specs.Collected.{IsCollected, IsCopiedOut};
ghost use Rattle.jm_copy.specs.Copies.{IsFresh, IsMark, IsSource, Stays, is_above};
ghost use Rattle.jm_copy.specs.Numbers.{object_count};

use crate::collector::{Collector, Refused, Survivors};
use crate::copies::Copies;
use crate::forward::forward_roots;
use crate::scan::scan;
use crate::source::Source;
use crate::starts::{Starts, number_all};
use crate::words::Words;
use jm_blocks::BlockStore;
use jm_values::Place;
use std::alloc::{AllocError, Global};

/// The lane of the survivors that stay young, which is that of the nursery of number 0.
const YOUNG: u64 = 1;

/// Copies what is reached, on the thread that calls it.
#[derive(Drop)]
pub struct SerialCollector;

/// The new places of the roots, and of the promoted objects that point to young ones.
#[derive(Drop)]
struct Moved {
    roots: Vec<Place>,
    remembered: Vec<Place>,
}

// The numbers of all condemned objects, and a word for each.
fn prepare(alloc: Global, stores: &[BlockStore]) -> Result<(Vec<Starts>, Words), AllocError>
    requires { AreLanes stores.now }
    ensures source { IfOk result (λ r. IsSource stores.now r.0.items) }
    ensures words { IfOk result (λ r. r.1 ≡ replicate (object_count stores.now) 0) }
{
    let (numbers, count) = number_all(alloc, stores)?;
    let words = Words::new(alloc, count)?;
    Ok((numbers, words))
}

// Copies what is reached, and answers the new roots and the promoted objects that point to young ones. What is
// copied from stays.
fn copy_reached(alloc: Global, from: Source<'_>, to: &mut Copies) -> Result<Moved, AllocError>
    requires source { IsSource from.stores.now from.numbers.now }
    requires fresh { IsFresh from.stores.now to.old }
    ensures ok { IfOk result (λ r. IsCopiedOut from.entry.stores.now from.entry.roots.now to.new r.roots.items r.remembered.items) }
    ensures stays { Stays to.old to.new }
{
    let roots = forward_roots(alloc, from, to)?;
    let remembered = scan(alloc, from, to)?;
    Ok(Moved { roots, remembered })
}

// Whether a place is above a mark.
fn is_above(mark: &Option<Place>, place: Place) -> bool
    ensures { result ≡ is_above mark.now place }
{
    match mark {
        Some(below) => below.number() < place.number(),
        None => true,
    }
}

// Whether the last object of a store is above a mark; else none is.
fn reaches_above(store: &BlockStore, mark: &Option<Place>) -> bool
    ensures above { IsTrue result → (p : ℕ) × HasObject store.now p × IsLast store.now p × (is_above mark.now p ≡ true) }
    ensures none { result ≡ false → (n : ℕ) → is_above mark.now n ≡ true → objects_in store.now n ≡ None }
{
    match store.last() {
        Some(place) => is_above(mark, place),
        None => false,
    }
}

// Gives up the objects of a store above a mark.
fn rewind(store: &mut BlockStore, mark: &Option<Place>)
    requires { IsMark store.old mark.now }
    ensures below { (n : ℕ) → is_above mark.now n ≡ false → objects_in store.new n ≡ objects_in store.old n }
    ensures above { (n : ℕ) → is_above mark.now n ≡ true → objects_in store.new n ≡ None }
{
    while reaches_above(store, mark) {
        store.pop();
    }
}

// Copies what is reached. Where a growth is refused the old store has what it had, and no more.
fn copy_or_rewind(alloc: Global, from: Source<'_>, to: &mut Copies) -> Result<Moved, AllocError>
    requires source { IsSource from.stores.now from.numbers.now }
    requires fresh { IsFresh from.stores.now to.old }
    ensures ok { IfOk result (λ r. IsCopiedOut from.entry.stores.now from.entry.roots.now to.new r.roots.items r.remembered.items × Stays to.old to.new) }
    ensures err { OnErr result ((n : ℕ) → objects_in to.new.tenured n ≡ objects_in to.old.tenured n) }
{
    match copy_reached(alloc, from, to) {
        Ok(moved) => Ok(moved),
        Err(refused) => {
            let kept = to.kept;
            rewind(&mut to.tenured, &kept);
            Err(refused)
        }
    }
}

// The survivors and the new roots, or the old store with what it had.
fn survivors(
    alloc: Global,
    condemned: &[BlockStore],
    tenured: BlockStore,
    roots: &[Place],
) -> Result<(Survivors, Vec<Place>), BlockStore>
    requires lanes { AreLanes condemned.now }
    requires apart { tenured.lane ≢ 1 }
    ensures ok { IfOk result (λ r. IsCollected condemned.now tenured roots.now r.0.young r.0.tenured r.0.remembered.items r.1.items) }
    ensures err { IfErr result (λ s. (n : ℕ) → objects_in s n ≡ objects_in tenured n) }
{
    let Ok((numbers, words)) = prepare(alloc, condemned) else {
        return Err(tenured);
    };
    let kept = tenured.last();
    let mut to = Copies {
        words,
        young: BlockStore::new(alloc, YOUNG),
        tenured,
        kept,
    };
    let from = Source {
        stores: condemned,
        numbers: numbers.as_slice(),
        roots,
    };
    let Ok(moved) = copy_or_rewind(alloc, from, &mut to) else {
        return Err(to.tenured);
    };
    let survivors = Survivors {
        young: to.young,
        tenured: to.tenured,
        remembered: moved.remembered,
    };
    Ok((survivors, moved.roots))
}

impl Collector for SerialCollector {
    fn collect(
        &self,
        alloc: Global,
        condemned: Vec<BlockStore>,
        tenured: BlockStore,
        roots: &mut Vec<Place>,
    ) -> Result<Survivors, Refused> {
        match survivors(alloc, condemned.as_slice(), tenured, roots.as_slice()) {
            Ok((survivors, moved)) => {
                *roots = moved;
                Ok(survivors)
            }
            Err(tenured) => Err(Refused { condemned, tenured }),
        }
    }
}

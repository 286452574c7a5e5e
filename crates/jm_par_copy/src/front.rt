// What is left to scan at the fronts of copiers.

ghost use Rattle.std.specs.Prelude.{◌≡◌, ℕ, Some, IfOk, OnOk, slice_get};
ghost use Rattle.jm_blocks.specs.Objects.{Object};
ghost use Rattle.jm_heap.specs.Allocation.{AllPlaces};
ghost use Rattle.jm_copy.specs.Condemned.{AreLanes};
ghost use Rattle.jm_copy.specs.Copies.{HasMade, made};
ghost use Rattle.jm_par_copy.specs.Front.{AddsNamed, AddsAhead, CanWalk, CanWalkAll, IsAhead, IsAtFront, IsNamedBy};

use crate::copier::Copier;
use crate::large::LARGE;
use jm_copy::{Copies, Named, Source, find, next, next_after, pass_on};
use jm_values::Place;
use std::alloc::{AllocError, Global};

// At most this number of objects and of places of one copier is looked at.
const MOST: usize = 8192;

// A block that a copier was given counts as this number of places.
const GIVEN: usize = 256;

// So few places more than another has are not worth a round.
const FEW: usize = 4;

// To copy objects of so many cells is worth a thread.
const HEAVY: u64 = 65_536;

// Adds the places that an object names, unless they are too many.
fn add_named(to: &Copies, place: Place, places: &mut Vec<Place>) -> Result<(), AllocError>
    requires { HasMade to.now place }
    ensures { OnOk result ((a : Object) → made to.now place ≡ Some a → AddsNamed a places.old.items places.new.items) }
{
    let mut next = to.named_first(place);
    if is_large(&next) {
        return Ok(());
    }
    while let Some(named) = next {
        places.push(named.place)?;
        next = to.named_after(place, named.number, named.end);
    }
    Ok(())
}

// Adds the places that a copier's own objects name which are not scanned yet, in the order of the scan, as long as they
// are not many.
fn add_ahead(copier: &Copier, places: &mut Vec<Place>) -> Result<(), AllocError>
    requires { CanWalk copier.now }
    ensures { OnOk result (AddsAhead copier.now places.old.items places.new.items) }
{
    let to = &copier.own.to;
    let most = places.len().saturating_add(MOST);
    let mut marks = copier.marks;
    let mut looked = 0;
    let mut first = next(to, &marks);
    while let Some(place) = first {
        if looked >= MOST || places.len() > most {
            return Ok(());
        }
        looked += 1;
        add_named(to, place, places)?;
        pass_on(to, &mut marks, place);
        first = next_after(to, &marks, place);
    }
    Ok(())
}

// How much copiers have to do, in places: the one that has least, and the one that has most.
#[derive(Clone, Copy)]
struct Work {
    least: usize,
    most: usize,
}

impl Work {
    // Whether one has much more to do than another.
    fn is_uneven(self) -> bool {
        self.most
            > self
                .least
                .saturating_add(self.least / 4)
                .saturating_add(FEW)
    }

    // With a copier more.
    fn with(self, places: usize) -> Work {
        Work {
            least: if places < self.least {
                places
            } else {
                self.least
            },
            most: if places > self.most {
                places
            } else {
                self.most
            },
        }
    }
}

// Whether all copiers have blocks enough, so that it does not matter what they have beside.
fn have_blocks(copiers: &[Copier]) -> bool {
    let mut given = 0usize;
    for copier in copiers {
        if copier.stopped {
            return false;
        }
        given = given.saturating_add(copier.given.len());
    }
    given / 2 >= copiers.len()
}

/// The places that objects name which are not scanned yet, where some copiers have much to do and others little, or one
/// stopped before an object that names much; else none. It is part of what stands before each, in the order of copiers.
pub fn find_front(alloc: Global, copiers: &[Copier]) -> Result<Vec<Place>, AllocError>
    requires { CanWalkAll copiers.now }
    ensures { IfOk result (λ places. AllPlaces (IsAtFront copiers.now) places.items) }
{
    let mut places = Vec::new(alloc);
    if have_blocks(copiers) {
        return Ok(places);
    }
    let mut work = Work {
        least: usize::MAX,
        most: 0,
    };
    let mut stopped = false;
    for number in 0..copiers.len() {
        let copier = &copiers[number];
        let before = places.len();
        add_ahead(copier, &mut places)?;
        let blocks = copier.given.len().saturating_mul(GIVEN);
        work = work.with(places.len().saturating_sub(before).saturating_add(blocks));
        stopped = if copier.stopped { true } else { stopped };
    }
    if stopped || work.is_uneven() {
        return Ok(places);
    }
    Ok(Vec::new(alloc))
}

// This number of references is much.
const MANY: usize = 16;

// Whether an object whose first reference this is may be a large array, which all copiers scan together.
fn is_large(first: &Option<Named>) -> bool {
    match first {
        Some(named) => named.end.saturating_sub(named.number) >= LARGE,
        None => false,
    }
}

/// Whether a scan stops before an object whose first reference this is. Before a large array it does, which all copiers scan
/// together. Before any other that is not the first one it does where the object names many others, and those so much that to
/// copy them is worth a thread: the first of them stands for all.
#[inline(always)]
pub fn is_stop(from: &Source<'_>, first: &Option<Named>, is_first: bool) -> bool
    requires { AreLanes from.now.stores.now }
{
    match first {
        Some(named) => {
            let count = named.end.saturating_sub(named.number);
            count >= MANY && is_much(from, named.place, count, is_first)
        }
        None => false,
    }
}

// Whether `count` condemned objects like the one at a place are too many for one copier. A few more than a large array's
// are: then the object is surely alone in its block, behind which its copier has opened the next.
#[inline(never)]
fn is_much(from: &Source<'_>, place: Place, count: usize, is_first: bool) -> bool
    requires { AreLanes from.now.stores.now }
{
    if count > LARGE {
        return true;
    }
    !is_first && cells_at(from, place).saturating_mul(count as u64) > HEAVY
}

// The cells of the condemned object at a place, if there is one.
fn cells_at(from: &Source<'_>, place: Place) -> u64
    requires { AreLanes from.now.stores.now }
{
    match find(from.stores, place) {
        Some((block, index)) => block.cells_of(index),
        None => 0,
    }
}

/// Whether the condemned objects at places have enough cells to be worth a thread.
pub fn are_heavy(from: &Source<'_>, places: &[Place]) -> bool
    requires { AreLanes from.now.stores.now }
{
    let mut cells = 0u64;
    for place in places {
        cells = cells.saturating_add(cells_at(from, *place));
    }
    cells > HEAVY
}

// A copier between rounds, and all copiers in a round, each in a thread of its own.

ghost use Rattle.std.specs.Prelude.{◌≡◌, ◌≤◌, OnOk, length, true};
ghost use Rattle.jm_par_copy.specs.Claiming.{KeepsClaiming};
ghost use Rattle.jm_par_copy.specs.Roots.{IsRooted};
ghost use Rattle.jm_par_copy.specs.Round.{IsKept, IsScan};
ghost use Rattle.jm_par_copy.specs.Steps.{AllReach, AreReadyFor, IsReadyFor, MakeRounds, MakesRound, places_of};

use crate::gate::Gate;
use crate::holding::scan_all_given;
use crate::piece::Piece;
use crate::rooting::forward_share;
use crate::round::{Own, Round};
use crate::scan::scan_own;
use jm_copy::Marks;
use jm_heap::Reference;
use jm_values::Place;
use std::alloc::{AllocError, Global};
use std::thread::{Threads, join_mut};

/// A copier: what it claims and copies with, the marks of its own two stores, the places of its own old objects that are
/// scanned and point to young ones, the blocks that it was given, the new places of its roots and whether they are there,
/// whether nothing that it holds is left to scan, whether a growth was refused to it, whether it stopped before an object
/// that names much, and the new references of its span of a large array. Copiers at work stand one behind the other in a list, each written by its own thread, so there is
/// room of a cache line (64 bytes) between what one of them has and what the next one has.
#[derive(Drop)]
#[repr(C)]
pub struct Copier {
    pub own: Own,
    pub marks: Marks,
    pub pointing: Vec<Place>,
    pub given: Vec<Piece>,
    pub roots: Vec<Place>,
    pub rooted: bool,
    pub ended: bool,
    pub refused: bool,
    pub stopped: bool,
    pub span: Vec<Reference>,
    pub room: [u64; 8],
}

/// What each copier does in a round.
#[derive(Clone, Copy)]
pub enum Task<'a> {
    /// It forwards its share of places that are reached, so that what lies there is copied, whoever holds what names it.
    Forward(&'a [Place]),
    /// It scans the blocks that it was given, and then its own, at most this number in all.
    Scan(usize),
}

// The copier forwards its roots, if it has not yet.
pub fn forward_own_roots<G: Gate>(
    alloc: Global,
    round: &Round<'_, G>,
    copier: &mut Copier,
) -> Result<(), AllocError>
    requires ready { IsReadyFor round.now copier.old }
    ensures on { KeepsClaiming copier.old.own copier.new.own }
    ensures kept { OnOk result (IsKept round.now.from.stores.now round.now.from.roots.now copier.old copier.new) }
    ensures rooted { OnOk result ((copier.new.rooted ≡ true) × IsRooted round.now.from.stores.now round.now.from.roots.now copier.new) }
{
    copier.ended = false;
    if copier.rooted {
        return Ok(());
    }
    let roots = round.from.roots;
    forward_share(alloc, round, &mut copier.own, roots, &mut copier.roots)?;
    copier.rooted = true;
    Ok(())
}

// The copier forwards its share of places.
fn forward_own_share<G: Gate>(
    alloc: Global,
    round: &Round<'_, G>,
    places: &[Place],
    copier: &mut Copier,
)
    requires ready { IsReadyFor round.now copier.old }
    requires reach { AllReach round.now places.now }
    ensures { IsScan round.now.from.stores.now round.now.from.roots.now copier.old copier.new }
{
    copier.ended = false;
    let mut found = Vec::new(alloc);
    let Ok(()) = forward_share(alloc, round, &mut copier.own, places, &mut found) else {
        copier.refused = true;
        return;
    };
}

/// One round of a copier: its roots, if it has not forwarded them yet, and then its task.
pub fn make_round<G: Gate>(alloc: Global, round: &Round<'_, G>, task: Task<'_>, copier: &mut Copier)
    requires ready { IsReadyFor round.now copier.old }
    requires reach { AllReach round.now (places_of task) }
    ensures { MakesRound round.now copier.old copier.new }
{
    let Ok(()) = forward_own_roots(alloc, round, copier) else {
        copier.refused = true;
        return;
    };
    match task {
        Task::Forward(places) => forward_own_share(alloc, round, places, copier),
        Task::Scan(limit) => scan_blocks(alloc, round, limit, copier),
    }
}

// Scans the blocks that the copier was given, and then its own, at most `limit` in all.
fn scan_blocks<G: Gate>(alloc: Global, round: &Round<'_, G>, limit: usize, copier: &mut Copier)
    requires ready { IsReadyFor round.now copier.old }
    ensures { IsScan round.now.from.stores.now round.now.from.roots.now copier.old copier.new }
{
    let marks = copier.marks;
    let given = copier.given.len();
    let count = given.min(limit);
    let own = &mut copier.own;
    let Ok(()) = scan_all_given(alloc, round, own, &marks, &mut copier.given, count) else {
        copier.refused = true;
        return;
    };
    let made = scan_own(
        alloc,
        round,
        &mut copier.own,
        marks,
        &mut copier.pointing,
        limit - count,
    );
    match made {
        Ok((marks, end)) => {
            copier.marks = marks;
            copier.ended = is_all(end.is_all(), count, given);
            copier.stopped = end.is_much();
        }
        Err(_) => {
            copier.refused = true;
        }
    }
}

// Whether nothing is left to scan: none of the copier's own objects, and none of its given blocks.
fn is_all(ended: bool, count: usize, given: usize) -> bool
    ensures own { result ≡ true → ended ≡ true }
    ensures given { result ≡ true → count ≡ given }
{
    if count == given { ended } else { false }
}

// One round of the only copier of a list.
fn make_one<G: Gate>(alloc: Global, round: &Round<'_, G>, task: Task<'_>, copiers: &mut [Copier])
    requires one { length copiers.old ≡ 1 }
    requires ready { AreReadyFor round.now copiers.old }
    requires reach { AllReach round.now (places_of task) }
    ensures { MakeRounds round.now copiers.old copiers.new }
{
    make_round(alloc, round, task, &mut copiers[0]);
}

/// One round of all copiers, one after the other in this thread.
pub fn make_rounds_here<G: Gate>(
    alloc: Global,
    round: &Round<'_, G>,
    task: Task<'_>,
    copiers: &mut [Copier],
)
    requires ready { AreReadyFor round.now copiers.old }
    requires reach { AllReach round.now (places_of task) }
    ensures { MakeRounds round.now copiers.old copiers.new }
{
    if copiers.len() == 0 {
        return;
    }
    let (first, rest) = copiers.split_at_mut(1);
    make_one(alloc, round, task, first);
    make_rounds_here(alloc, round, task, rest);
}

/// One round of all copiers, each in a thread of its own, the last one in this thread.
pub fn make_rounds<R: Threads, G: Gate + Sync>(
    rt: &R,
    alloc: Global,
    round: &Round<'_, G>,
    task: Task<'_>,
    copiers: &mut [Copier],
)
    requires ready { AreReadyFor round.now copiers.old }
    requires reach { AllReach round.now (places_of task) }
    ensures { MakeRounds round.now copiers.old copiers.new }
{
    if copiers.len() == 0 {
        return;
    }
    if copiers.len() == 1 {
        make_one(alloc, round, task, copiers);
        return;
    }
    let (first, rest) = copiers.split_at_mut(1);
    join_mut(
        rt,
        &mut ||
            requires { (length first.now ≡ 1) × AreReadyFor round.now first.now × AllReach round.now (places_of task) }
            ensures { MakeRounds round.entry.now first.entry.now first.exit.now }
        { make_one(alloc, round, task, first) },
        &mut ||
            requires { AreReadyFor round.now rest.now × AllReach round.now (places_of task) }
            ensures { MakeRounds round.entry.now rest.entry.now rest.exit.now }
        { make_rounds(rt, alloc, round, task, rest) },
    );
}

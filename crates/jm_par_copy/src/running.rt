// Rounds, until nothing is left to scan.

ghost use Rattle.std.specs.Prelude.{◌≡◌, ◌<◌, length, OnOk, true};
ghost use Rattle.jm_par_copy.specs.Copiers.{AllRooted, AreBack, AreCopying, AreEnded, AreScannedPieces, HaveEnded, IsBack, KeepCopying, KeepPlaced, KeepSeats, KeepsCopying, KeepsSeat, NoneRefused};
ghost use Rattle.jm_par_copy.specs.Steps.{AllReach, AreReadyFor, MakeRounds, MayMakeRounds, places_of};

use crate::copier::{Copier, Task, make_rounds, make_rounds_here};
use crate::dealing::deal;
use crate::front::{are_heavy, find_front};
use crate::gate::Gate;
use crate::given_back::give_back;
use crate::jointly::scan_all_large;
use crate::piece::Piece;
use crate::round::Round;
use std::alloc::{AllocError, Global};
use std::thread::Threads;

// How many blocks each copier scans in the first round in which it scans, so that work spreads early, and in the longest
// ones.
const FIRST_ROUND: usize = 4;

const LONGEST_ROUND: usize = 1024;

// How many blocks each copier scans in the round after one of `limit` blocks.
fn longer(limit: usize) -> usize {
    if limit == 0 {
        return FIRST_ROUND;
    }
    limit.saturating_add(limit).min(LONGEST_ROUND)
}

// Whether no growth was refused.
pub(crate) fn none_refused(copiers: &[Copier]) -> bool
    ensures { result ≡ true → NoneRefused copiers.now }
{
    if copiers.len() == 0 {
        return true;
    }
    let (first, rest) = copiers.split_at(1);
    if first[0].refused {
        return false;
    }
    none_refused(rest)
}

// Whether blocks are scanned to their ends.
fn are_scanned(pieces: &[Piece]) -> bool
    ensures { result ≡ true → AreScannedPieces pieces.now }
{
    for piece in pieces {
        if piece.mark != piece.block.len() {
            return false;
        }
    }
    true
}

// Whether each says that it has ended.
fn have_ended(copiers: &[Copier]) -> bool
    ensures { result ≡ true → HaveEnded copiers.now }
{
    if copiers.len() == 0 {
        return true;
    }
    let (first, rest) = copiers.split_at(1);
    if first[0].ended {
        return have_ended(rest);
    }
    false
}

// Blocks that one copier has stopped filling are given back.
fn give_one_back(alloc: Global, copier: &mut Copier) -> Result<(), AllocError>
    ensures back { OnOk result (IsBack copier.old copier.new) }
    ensures seat { KeepsSeat copier.old copier.new }
{
    give_back(alloc, &mut copier.own.to, &copier.marks, &mut copier.given)
}

// Blocks that the copier of a number has stopped filling are given back.
fn give_back_of(alloc: Global, copiers: &mut Vec<Copier>, number: usize) -> Result<(), AllocError>
    requires { number < length copiers.old.items }
    ensures back { OnOk result (AreBack copiers.old.items copiers.new.items) }
    ensures seats { KeepSeats copiers.old.items copiers.new.items }
{
    give_one_back(alloc, &mut copiers[number])?;
    Ok(())
}

// Each copier gives back what it has stopped filling.
fn give_all_back(alloc: Global, copiers: &mut Vec<Copier>) -> Result<(), AllocError>
    ensures keeps { OnOk result (KeepCopying copiers.old.items copiers.new.items) }
    ensures seats { KeepSeats copiers.old.items copiers.new.items }
{
    let count = copiers.len();
    for number in 0..count {
        give_back_of(alloc, copiers, number)?;
    }
    Ok(())
}

// Between two rounds: each copier gives back what it has stopped filling, and all blocks are dealt out anew; large arrays of
// which nothing is scanned are set aside.
fn share_out(
    alloc: Global,
    copiers: &mut Vec<Copier>,
    aside: &mut Vec<Piece>,
) -> Result<(), AllocError>
    requires some { 0 < length copiers.old.items }
    ensures keeps { OnOk result (KeepsCopying copiers.old.items copiers.new.items aside.old.items aside.new.items) }
    ensures seats { KeepSeats copiers.old.items copiers.new.items }
{
    give_all_back(alloc, copiers)?;
    deal(alloc, copiers, aside)?;
    Ok(())
}

// Whether a copier may have something to do in the next round: roots, blocks that it was given, or its own.
fn may_work(copier: &Copier, roots: usize) -> bool {
    if copier.rooted {
        return !copier.ended || copier.given.len() != 0;
    }
    copier.own.number < roots
}

// Whether more than one copier may have something to do.
fn several_work(copiers: &[Copier], roots: usize) -> bool {
    let mut found = false;
    for copier in copiers {
        if may_work(copier, roots) {
            if found {
                return true;
            }
            found = true;
        }
    }
    false
}

// One round of all copiers: in threads, where that is worth it.
fn make_round_of_all<R: Threads, G: Gate + Sync>(
    rt: &R,
    alloc: Global,
    round: &Round<'_, G>,
    task: Task<'_>,
    threads: bool,
    copiers: &mut Vec<Copier>,
)
    requires ready { AreReadyFor round.now copiers.old.items }
    requires reach { AllReach round.now (places_of task) }
    ensures { MakeRounds round.now copiers.old.items copiers.new.items }
{
    if threads {
        make_rounds(rt, alloc, round, task, copiers.as_mut_slice());
        return;
    }
    make_rounds_here(alloc, round, task, copiers.as_mut_slice());
}

// Copiers of whom some have much to do and others little, or one stopped before an object that names much, forward what
// stands before them all, each its share: what is copied so is in the blocks of who copied it, and those who scan what
// names it find it.
fn forward_front<R: Threads, G: Gate + Sync>(
    rt: &R,
    alloc: Global,
    round: &Round<'_, G>,
    copiers: &mut Vec<Copier>,
) -> Result<(), AllocError>
    requires ready { AreReadyFor round.now copiers.old.items }
    ensures made { OnOk result (MayMakeRounds round.now copiers.old.items copiers.new.items) }
    ensures seats { KeepSeats copiers.old.items copiers.new.items }
{
    let front = find_front(alloc, copiers.as_slice())?;
    if front.len() < 2 {
        return Ok(());
    }
    let threads = are_heavy(&round.from, front.as_slice());
    let task = Task::Forward(front.as_slice());
    make_round_of_all(rt, alloc, round, task, threads, copiers);
    if none_refused(copiers.as_slice()) {
        return Ok(());
    }
    Err(AllocError)
}

/// Rounds of all copiers, of no block first, then of a few, each twice as long as the one before up to a bound, until all
/// have ended, or a growth was refused. Between two rounds blocks that are closed and not yet scanned move to other
/// copiers; those that are scanned are set aside. Where some have much more left than others all forward what stands
/// before them. `AllocError`: a growth was refused, to a copier (each says whether to it) or between two rounds. (It would
/// also come after 2^64 - 1 rounds.)
pub fn run_rounds<R: Threads, G: Gate + Sync>(
    rt: &R,
    alloc: Global,
    round: &Round<'_, G>,
    copiers: &mut Vec<Copier>,
    aside: &mut Vec<Piece>,
) -> Result<(), AllocError>
    requires some { 0 < length copiers.old.items }
    requires copying { AreCopying round.now.from.stores.now round.now.from.roots.now round.now.words.now copiers.old.items aside.old.items }
    ensures ended { OnOk result (AreCopying round.now.from.stores.now round.now.from.roots.now round.now.words.now copiers.new.items aside.new.items × AreEnded copiers.new.items aside.new.items) }
    ensures rooted { OnOk result (AllRooted round.now.from.stores.now round.now.from.roots.now copiers.new.items) }
    ensures placed { OnOk result (KeepPlaced copiers.old.items copiers.new.items aside.old.items aside.new.items) }
    ensures seats { KeepSeats copiers.old.items copiers.new.items }
{
    let mut limit = 0;
    for _ in 0..u64::MAX {
        let threads = several_work(copiers.as_slice(), round.from.roots.len());
        make_round_of_all(rt, alloc, round, Task::Scan(limit), threads, copiers);
        if !none_refused(copiers.as_slice()) {
            return Err(AllocError);
        }
        if have_ended(copiers.as_slice()) && are_scanned(aside.as_slice()) {
            return Ok(());
        }
        let before = aside.len();
        share_out(alloc, copiers, aside)?;
        scan_all_large(rt, alloc, round, copiers, aside, before)?;
        forward_front(rt, alloc, round, copiers)?;
        limit = longer(limit);
    }
    Err(AllocError)
}

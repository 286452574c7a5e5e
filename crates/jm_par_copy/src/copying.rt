// A collection by several copiers.

ghost use Rattle.std.specs.Prelude.{◌≡◌, ◌≢◌, ℕ, ◌<◌, ◌≤◌, [], IfOk, OnErr, OnOk, length, map, vec_capacity};
ghost use Rattle.jm_blocks.specs.Stores.{objects_in};
ghost use Rattle.jm_forward.specs.Hands.{Agree, SeatView, all_wins, hands_from, seat_of};
ghost use Rattle.jm_copy.specs.Numbers.{object_count};
ghost use Rattle.jm_par_copy.specs.Copiers.{AreCopying, ArePlaced, hands};
ghost use Rattle.jm_par_copy.specs.Ending.{IsCollectedBy, seats_in};
ghost use Rattle.jm_par_copy.specs.Seats.{AllOwnWins, AreInOrder, AreNumbered};

use crate::copier::Copier;
use crate::ending::{Copied, finish};
use crate::gate::Gate;
use crate::round::{Own, Round};
use crate::running::run_rounds;
use crate::seating::{all_stores, seat_all};
use jm_blocks::BlockStore;
use jm_forward::Seat;
use std::alloc::{AllocError, Global};
use std::mem;
use std::thread::Threads;

// Copiers that have done nothing yet make rounds until nothing is left to scan, and what they hold is put together.
fn copy_by<R: Threads, G: Gate + Sync>(
    rt: &R,
    alloc: Global,
    round: &Round<'_, G>,
    copiers: &mut Vec<Copier>,
    tenured: &mut BlockStore,
) -> Result<Copied, AllocError>
    requires copying { AreCopying round.now.from.stores.now round.now.from.roots.now round.now.words.now copiers.old.items [] }
    requires numbered { AreNumbered round.now.words.now 0 copiers.old.items }
    requires many { (length copiers.old.items ≡ round.now.words.now.copiers) × (0 < round.now.words.now.copiers) }
    requires apart { tenured.old.lane ≢ 1 }
    requires placed { ArePlaced 1 tenured.old copiers.old.items [] }
    ensures ok { IfOk result (λ r. Agree (hands copiers.new.items) → IsCollectedBy round.now.from.stores.now tenured.old round.now.from.roots.now (all_wins (hands copiers.new.items)) r.young tenured.new r.remembered.items r.roots.items) }
    ensures own { OnOk result (AllOwnWins (seats_in copiers.new.items)) }
    ensures err { OnErr result ((n : ℕ) → objects_in tenured.new n ≡ objects_in tenured.old n) }
    ensures seats { AreInOrder round.now.words.now 0 (seats_in copiers.new.items) }
    ensures many { length copiers.new.items ≡ length copiers.old.items }
{
    let mut aside = Vec::new(alloc);
    run_rounds(rt, alloc, round, copiers, &mut aside)?;
    let copied = finish(alloc, round.from, round.words, copiers, aside, tenured)?;
    Ok(copied)
}

// The seats of copiers, in order, in a list that has room for them.
fn leave_seats(copiers: Vec<Copier>, mut seats: Vec<Seat>) -> Vec<Seat>
    requires none { seats.items ≡ [] }
    requires room { length copiers.items ≤ vec_capacity seats }
    ensures { result.items ≡ seats_in copiers.items }
{
    for copier in copiers {
        let Copier { own, .. } = copier;
        let Own { seat, .. } = own;
        seats.push_reserved(seat);
    }
    seats
}

/// Copies what the roots reach by several copiers (at most 16), each in a thread of its own, which pass the gate
/// before each claim, and puts the promoted objects into the old store. The seats are all those of a fresh table with
/// a word for each condemned object; they come back in order, and have met. Where a growth is refused, to whichever
/// copier, it ends after all have stopped, and the old store has the objects that it had.
pub fn copy_with<R: Threads, G: Gate + Sync>(
    rt: &R,
    alloc: Global,
    round: &Round<'_, G>,
    seats: &mut Vec<Seat>,
    tenured: &mut BlockStore,
) -> Result<Copied, AllocError>
    requires objects { round.now.words.now.objects ≡ object_count round.now.from.stores.now }
    requires copiers { (0 < round.now.words.now.copiers) × (round.now.words.now.copiers ≤ 16) }
    requires fresh { seats.old.items ≡ map (seat_of round.now.words.now.table) (hands_from round.now.words.now.copiers 0 round.now.words.now.copiers) }
    requires apart { tenured.old.lane ≢ 1 }
    ensures ok { IfOk result (λ r. IsCollectedBy round.now.from.stores.now tenured.old round.now.from.roots.now (all_wins (map (λ (s : SeatView). s.hand) seats.new.items)) r.young tenured.new r.remembered.items r.roots.items) }
    ensures own { OnOk result (AllOwnWins seats.new.items) }
    ensures err { OnErr result ((n : ℕ) → objects_in tenured.new n ≡ objects_in tenured.old n) }
    ensures seats { AreInOrder round.now.words.now 0 seats.new.items }
    ensures many { length seats.new.items ≡ round.now.words.now.copiers }
    ensures agree { OnOk result (Agree (map (λ (s : SeatView). s.hand) seats.new.items)) }
{
    let count = round.words.copiers();
    let stores = all_stores(alloc, count, tenured)?;
    let room = Vec::with_capacity(alloc, count)?;
    let left = Vec::with_capacity(alloc, count)?;
    let taken = mem::replace(seats, Vec::new(alloc));
    let mut copiers = seat_all(alloc, taken, stores, room);
    let copied = copy_by(rt, alloc, round, &mut copiers, tenured);
    *seats = round.words.meet(leave_seats(copiers, left));
    copied
}

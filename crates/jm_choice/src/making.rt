// The journal of a run by several workers.

ghost use Rattle.std.specs.Prelude.{◌≡◌, ◌<◌, Bool, false};
ghost use Rattle.jm_shared.specs.Seats.{fresh_hands};
ghost use Rattle.jm_choice.specs.Choices.{by_workers, HaveMade, MadeBy};
ghost use Rattle.jm_shared.specs.Legal.{events_of};

use jm_heap::Heap;
use jm_shared::{Driven, Seat, SharedMachine, Sharing, TurnGate, drive};
use std::alloc::Global;
use std::sync::Wait;
use std::thread::Threads;

/// Makes the events of a shared machine's workers, one for each of its seats, and takes the journal.
pub fn make_by_workers<
    H: Heap + Drop + Send,
    N: Sharing + Send + Sync,
    G: TurnGate + Sync,
    R: Threads + Wait + Sync,
>(
    rt: &R,
    alloc: Global,
    machine: SharedMachine<H, N>,
    seats: Vec<Seat<N>>,
    steps: u32,
    gate: &G,
) -> Driven<H, N>
    requires steps { 0 < steps }
    requires seats { seats.items ≡ fresh_hands 0 N.seats }
    ensures events { MadeBy N.first (by_workers N.seats steps) (events_of result.journal.entries) result.is_short }
    ensures whole { result.is_short ≡ false → HaveMade N.first N.seats steps result.journal.entries }
{
    match drive(rt, alloc, machine, seats, steps, gate) {
        Ok(driven) => driven,
        Err(_) => unreachable!(),
    }
}

// Runs by several workers.

ghost use Rattle.std.specs.Prelude.{◌≡◌, ◌<◌, false};
ghost use Rattle.jm_choice.specs.Choices.{Choice, MadeBy, by_workers};
ghost use Rattle.jm_machine.specs.View.{MatchesWorld};
ghost use Rattle.jm_shared.specs.Legal.{events_of};
ghost use Rattle.jm_execute.specs.Beginnings.{beginning};
ghost use Rattle.jm_execute.specs.Endings.{Ending, Ends, Leaves};
ghost use Rattle.jm_execute.specs.KeptRecords.{IsJournal, IsKeptIf, IsRecord, made_whole};
ghost use Rattle.jm_execute.specs.Written.{words};

use crate::execution::{Wanted, tell_all_made, tell_exhausted, tell_interrupted};
use crate::finished::Finished;
use crate::watchable::Watchable;
use crate::watched::Watched;
use jm_choice::make_by_workers;
use jm_heap::Heap;
use jm_job::Workers;
use jm_machine::Machine;
use jm_shared::{Driven, OpenTurnGate, SeatTable, SharedMachine, Sharing};
use std::alloc::Global;
use std::marker::Brand;
use std::sync::Wait;
use std::thread::Threads;

// Tells of a run by what its workers made.
fn tell_driven<H: Heap, N: Sharing, O: Watchable, E: Watchable>(
    alloc: Global,
    driven: &Driven<H, N>,
    wanted: Wanted,
    out: &mut Watched<O>,
    err: &mut Watched<E>,
) -> Finished
    requires out { out.old.failed ≡ false }
    requires err { err.old.failed ≡ false }
    ensures { (choice : Choice) → MadeBy N.first choice (events_of driven.now.journal.entries) driven.now.is_short
        → (driven.now.is_short ≡ false → IsJournal wanted.stress N.first choice driven.now.journal.entries)
        → (e : Ending) × Ends wanted.show_heap N.first choice e
        × Leaves (words O.contents O.ends) (words E.contents E.ends) e result.status out.old out.new err.old err.new
        × IsKeptIf (made_whole e) wanted.is_recorded (IsRecord wanted.stress N.first choice) result.record_text }
{
    let machine = driven.journal.machine();
    if driven.is_short {
        Finished::without_record(tell_interrupted(machine, out, err))
    } else {
        tell_all_made(alloc, &driven.journal, wanted, out, err)
    }
}

// Workers make their events from the first world on, one for each seat of a table, and the run is told of.
fn run_seats<
    H: Heap + Drop + Send,
    N: Sharing + Send + Sync,
    W: Threads + Wait + Sync,
    O: Watchable,
    E: Watchable,
>(
    rt: &W,
    alloc: Global,
    machine: Machine<H>,
    table: SeatTable,
    steps: u32,
    wanted: Wanted,
    out: &mut Watched<O>,
    err: &mut Watched<E>,
) -> Finished
    requires table { (table.table ≡ N.table) × (table.seats ≡ N.seats) }
    requires first { MatchesWorld machine N.first }
    requires steps { 0 < steps }
    requires out { out.old.failed ≡ false }
    requires err { err.old.failed ≡ false }
    ensures { (e : Ending) × Ends wanted.show_heap N.first (by_workers N.seats steps) e
        × Leaves (words O.contents O.ends) (words E.contents E.ends) e result.status out.old out.new err.old err.new
        × IsKeptIf (made_whole e) wanted.is_recorded (IsRecord wanted.stress N.first (by_workers N.seats steps)) result.record_text }
{
    match SharedMachine::<H, N>::new(alloc, machine, table) {
        Ok((machine, seats)) => {
            let driven = make_by_workers(rt, alloc, machine, seats, steps, &OpenTurnGate);
            let finished = tell_driven(alloc, &driven, wanted, out, err);
            drop(driven);
            finished
        }
        Err(_) => Finished::without_record(tell_exhausted(err)),
    }
}

/// Workers make their events from a machine's beginning on, side by side, and the run is told of. It
/// may wait.
pub(crate) fn run_by_workers<
    H: Heap + Drop + Send,
    W: Threads + Wait + Sync,
    O: Watchable,
    E: Watchable,
>(
    rt: &W,
    alloc: Global,
    machine: Machine<H>,
    workers: Workers,
    wanted: Wanted,
    out: &mut Watched<O>,
    err: &mut Watched<E>,
) -> Finished
    requires first { MatchesWorld machine (beginning machine) }
    requires out { out.old.failed ≡ false }
    requires err { err.old.failed ≡ false }
    ensures { (e : Ending) × Ends wanted.show_heap (beginning machine) (by_workers workers.count workers.steps) e
        × Leaves (words O.contents O.ends) (words E.contents E.ends) e result.status out.old out.new err.old err.new
        × IsKeptIf (made_whole e) wanted.is_recorded (IsRecord wanted.stress (beginning machine) (by_workers workers.count workers.steps)) result.record_text }
{
    match SeatTable::new(alloc, workers.count) {
        Ok(table) => run_seats::<H, Brand, W, O, E>(
            rt,
            alloc,
            machine,
            table,
            workers.steps,
            wanted,
            out,
            err,
        ),
        Err(_) => {
            drop(machine);
            Finished::without_record(tell_exhausted(err))
        }
    }
}

// Runs by the events of a record.

ghost use Rattle.std.specs.Prelude.{◌≡◌, false};
ghost use Rattle.jm_choice.specs.Choices.{Choice, RunEnds, recorded, replay_end};
ghost use Rattle.jm_machine.specs.View.{MatchesWorld};
ghost use Rattle.jm_world.specs.World.{World};
ghost use Rattle.jm_execute.specs.Beginnings.{beginning};
ghost use Rattle.jm_execute.specs.Endings.{Ending, Ends, Leaves, differed};
ghost use Rattle.jm_execute.specs.Written.{words};

use crate::execution::{tell_end, tell_interrupted};
use crate::report::{tell_write_failed, write_difference};
use crate::watchable::Watchable;
use crate::watched::Watched;
use jm_choice::replay;
use jm_explain::Status;
use jm_heap::Heap;
use jm_machine::{Machine, OutOfMemory};
use jm_schedule::Record;
use std::alloc::Global;

// Tells of a replay that came to a reply of another kind than the line of this number says.
fn tell_differed<H: Heap, O: Watchable, E: Watchable>(
    machine: &Machine<H>,
    line: u64,
    out: &mut Watched<O>,
    err: &mut Watched<E>,
) -> Status
    requires out { out.old.failed ≡ false }
    requires err { err.old.failed ≡ false }
    ensures { (w : World) → MatchesWorld machine.now w
        → Leaves (words O.contents O.ends) (words E.contents E.ends) (differed line w) result out.old out.new err.old err.new }
{
    match out.write_all(machine.output()) {
        Ok(()) => {
            let _told = write_difference(err, line);
            Status::BadSchedule
        }
        Err(_) => {
            tell_write_failed(err);
            Status::Files
        }
    }
}

// Tells of a replay by what came of it.
fn tell_replayed<H: Heap, O: Watchable, E: Watchable>(
    alloc: Global,
    machine: &Machine<H>,
    outcome: Result<Option<u64>, OutOfMemory>,
    show_heap: bool,
    out: &mut Watched<O>,
    err: &mut Watched<E>,
) -> Status
    requires out { out.old.failed ≡ false }
    requires err { err.old.failed ≡ false }
    ensures { (first w : World) (choice : Choice) → RunEnds first choice (replay_end w outcome) → MatchesWorld machine.now w
        → (e : Ending) × Ends show_heap first choice e
        × Leaves (words O.contents O.ends) (words E.contents E.ends) e result out.old out.new err.old err.new }
{
    match outcome {
        Ok(difference) => match difference {
            None => tell_end(alloc, machine, show_heap, out, err),
            Some(line) => tell_differed(machine, line, out, err),
        },
        Err(_) => tell_interrupted(machine, out, err),
    }
}

/// Makes the events of a record from a machine's beginning on, and tells of the run.
pub(crate) fn run_replay<H: Heap + Drop, O: Watchable, E: Watchable>(
    alloc: Global,
    mut machine: Machine<H>,
    read: &Record,
    show_heap: bool,
    out: &mut Watched<O>,
    err: &mut Watched<E>,
) -> Status
    requires first { MatchesWorld machine (beginning machine) }
    requires out { out.old.failed ≡ false }
    requires err { err.old.failed ≡ false }
    ensures { (e : Ending) × Ends show_heap (beginning machine) (recorded read.now) e
        × Leaves (words O.contents O.ends) (words E.contents E.ends) e result out.old out.new err.old err.new }
{
    let outcome = replay(&mut machine, read);
    let status = tell_replayed(alloc, &machine, outcome, show_heap, out, err);
    drop(machine);
    status
}

// What is told of a run: the text, its lines, its status.

ghost use Rattle.std.specs.Prelude.{◌≡◌, ℕ, List, Ok, OnOk, false};
ghost use Rattle.jm_machine.specs.View.{MatchesWorld};
ghost use Rattle.jm_world.specs.Loading.{loaded_world};
ghost use Rattle.jm_world.specs.World.{World};
ghost use Rattle.jm_execute.specs.Sources.{events_made};
ghost use Rattle.jm_execute.specs.Tellings.{EndTold, IsTold, TextTold, told_run, told_verdict};
ghost use Rattle.jm_execute.specs.Written.{words};
ghost use Rattle.jm_program.specs.declared.class.ClassParts.{ClassParts};

use crate::copiers::job_collector;
use crate::ends::status_of;
use crate::events::RunSource;
use crate::execution::{tell_exhausted, tell_obstacle};
use crate::report::{report_of, tell_lines, tell_write_failed};
use crate::teller::Teller;
use crate::told_preparation::prepare_told;
use crate::watchable::Watchable;
use crate::watched::Watched;
use jm_events::{EventsDue, Scheduled, Turns};
use jm_explain::Status;
use jm_heap::Heap;
use jm_job::ToldJob;
use jm_machine::Machine;
use jm_page::PageFault;
use std::alloc::Global;
use std::thread::Threads;

// Tells of a run whose events were all made.
fn tell_last<H: Heap, E: Watchable>(
    alloc: Global,
    machine: &Machine<H>,
    err: &mut Watched<E>,
) -> Status
    requires { err.old.failed ≡ false }
    ensures { (w : World) → MatchesWorld machine.now w → EndTold (words E.contents E.ends) w result err.old err.new }
{
    match report_of(alloc, machine) {
        Ok(lines) => {
            tell_lines(lines.as_bytes(), err);
            status_of(machine)
        }
        Err(_) => tell_exhausted(err),
    }
}

// Tells of the run whose text was written, or why it was not written whole.
fn tell_told<H: Heap, E: Watchable>(
    alloc: Global,
    machine: &Machine<H>,
    written: Result<(), PageFault>,
    err: &mut Watched<E>,
) -> Status
    requires { err.old.failed ≡ false }
    ensures { (w : World) → OnOk written (MatchesWorld machine.now w) → TextTold (words E.contents E.ends) written w result err.old err.new }
{
    match written {
        Ok(()) => tell_last(alloc, machine, err),
        Err(PageFault::OutOfMemory) => tell_exhausted(err),
        Err(PageFault::WriteFailed) => {
            tell_write_failed(err);
            Status::Files
        }
    }
}

// Writes what is told of the events that are due while they are made, and tells of the run.
fn tell_events<T: Teller, H: Heap, S: EventsDue, O: Watchable, E: Watchable>(
    alloc: Global,
    machine: &mut Machine<H>,
    events: &mut S,
    teller: &T,
    out: &mut Watched<O>,
    err: &mut Watched<E>,
) -> Status
    requires out { out.old.failed ≡ false }
    requires err { err.old.failed ≡ false }
    ensures { (program : List ClassParts) (limit : ℕ) → let w : World = loaded_world program limit in MatchesWorld machine.old w → S.knows events.old w
        → IsTold (words O.contents O.ends) (words E.contents E.ends) (T.telling teller.now) (Ok (told_run program limit (S.due events.old w))) result out.old out.new err.old err.new }
{
    let written = teller.tell(alloc, machine, events, out);
    tell_told(alloc, machine, written, err)
}

// Tells of the events of a source from a machine's beginning on.
fn tell_source<T: Teller, H: Heap, O: Watchable, E: Watchable>(
    alloc: Global,
    machine: &mut Machine<H>,
    source: &RunSource,
    teller: &T,
    out: &mut Watched<O>,
    err: &mut Watched<E>,
) -> Status
    requires out { out.old.failed ≡ false }
    requires err { err.old.failed ≡ false }
    ensures { (program : List ClassParts) (limit : ℕ) → let w : World = loaded_world program limit in MatchesWorld machine.old w
        → IsTold (words O.contents O.ends) (words E.contents E.ends) (T.telling teller.now) (Ok (told_run program limit (events_made source.now w))) result out.old out.new err.old err.new }
{
    match source {
        RunSource::Schedule(schedule) => {
            let mut events = Scheduled::new(schedule);
            tell_events(alloc, machine, &mut events, teller, out, err)
        }
        RunSource::RoundRobin(robin) => {
            let mut events = Turns::new(alloc, *robin);
            tell_events(alloc, machine, &mut events, teller, out, err)
        }
    }
}

/// Makes a run, on this thread, and writes to `out` what a teller tells of it while its events are made.
/// What the Java program prints is not written. `err` gets a line for each thread that an exception has
/// ended, and one for the stop or for the threads that have not ended, if any; the status is that of the
/// run of the events that were made.
///
/// A job whose files hold no program, or whose schedule is none, gets a line on `err` that says why,
/// and writes nothing to `out`. Where a growth was refused, a beginning of the text stands in `out`, or
/// nothing, `err` gets the line that says so alone, and the status is `OutOfMemory`. Where a write to
/// `out` fails, a beginning of the text stands in it, `err` gets a line that says so, and the status is
/// `Files`. A failing `err` changes no status.
///
/// The heap is collected by the job's copiers, each in a thread of its own where they are several and
/// it can be started. What is written does not depend on how many there are.
pub fn tell_run<T: Teller, W: Threads, O: Watchable, E: Watchable>(
    rt: &W,
    alloc: Global,
    job: &ToldJob,
    teller: &T,
    out: &mut Watched<O>,
    err: &mut Watched<E>,
) -> Status
    requires out { out.old.failed ≡ false }
    requires err { err.old.failed ≡ false }
    ensures { IsTold (words O.contents O.ends) (words E.contents E.ends) (T.telling teller.now) (told_verdict job.now) result out.old out.new err.old err.new }
{
    let collector = job_collector(rt, job.copiers);
    match prepare_told(alloc, job, collector) {
        Ok((mut machine, source)) => {
            let status = tell_source(alloc, &mut machine, &source, teller, out, err);
            drop(machine);
            status
        }
        Err(obstacle) => tell_obstacle(alloc, obstacle, err),
    }
}

// From the files of a run that is told to a machine and the events that it is to make.

ghost use Rattle.std.specs.Prelude.{◌≡◌, IfOk};
ghost use Rattle.jm_world.specs.Loading.{loaded_world};
ghost use Rattle.jm_world.specs.World.{World};
ghost use Rattle.jm_execute.specs.Beginnings.{StandsAtItsBeginning};
ghost use Rattle.jm_execute.specs.Tellings.{due_of, due_read, told_run, told_verdict};
ghost use Rattle.jm_execute.specs.Refusals.{Gives};
ghost use Rattle.jm_execute.specs.Sources.{events_made};

use crate::events::RunSource;
use crate::files::bytes_of;
use crate::preparation::{RunHeap, machine_within, schedule_in};
use crate::refusal::Obstacle;
use jm_copy::Collector;
use jm_heap::Heap;
use jm_job::{ToldEvents, ToldJob};
use jm_machine::Machine;
use std::alloc::Global;

// Whether what says the events was read.
fn check_due(events: &ToldEvents) -> Result<(), Obstacle<'_>>
    ensures { Gives result (due_read events.now) (λ _. tt) }
{
    match events {
        ToldEvents::Schedule(file) => {
            bytes_of(file)?;
            Ok(())
        }
        ToldEvents::RoundRobin(_) => Ok(()),
    }
}

/// A machine before its first event, and where its events come from.
pub type ReadyToTell<C> = (Machine<RunHeap<C>>, RunSource);

// A machine with where its events come from.
fn with_source<'a, H: Heap + Drop>(
    alloc: Global,
    events: &'a ToldEvents,
    machine: Machine<H>,
) -> Result<(Machine<H>, RunSource), Obstacle<'a>>
    ensures source { (w : World) → Gives result (due_of events.now w) (λ ready. events_made ready.1 w) }
    ensures same { IfOk result (λ ready. ready.0 ≡ machine) }
{
    match events {
        ToldEvents::Schedule(file) => match schedule_in(alloc, file) {
            Ok(schedule) => Ok((machine, RunSource::Schedule(schedule))),
            Err(obstacle) => {
                drop(machine);
                Err(obstacle)
            }
        },
        ToldEvents::RoundRobin(robin) => Ok((machine, RunSource::RoundRobin(*robin))),
    }
}

/// The machine that the program of such a run begins with, over a heap with this collector, and where its
/// events come from. A schedule that could not be read is the first obstacle; then those of the
/// program, and last what is wrong with the schedule.
#[tactic(auto, unfolding(crate::specs::Tellings::told_verdict))]
pub fn prepare_told<C: Collector + Drop>(
    alloc: Global,
    job: &ToldJob,
    collector: C,
) -> Result<ReadyToTell<C>, Obstacle<'_>>
    ensures run { Gives result (told_verdict job.now) (λ ready.
        told_run ready.0.linked.program job.now.heap (events_made ready.1 (loaded_world ready.0.linked.program job.now.heap))) }
    ensures ready { IfOk result (λ ready. StandsAtItsBeginning job.now.heap ready.0) }
{
    check_due(&job.events)?;
    match machine_within(alloc, job.heap, collector, &job.program) {
        Ok(machine) => with_source(alloc, &job.events, machine),
        Err(obstacle) => Err(obstacle),
    }
}

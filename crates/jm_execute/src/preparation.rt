// From a job's files to a machine and the events that it is to make.

ghost use Rattle.std.specs.Prelude.{◌≡◌, IfOk};
ghost use Rattle.jm_world.specs.Loading.{loaded_world};
ghost use Rattle.jm_world.specs.World.{World};
ghost use Rattle.jm_machine.specs.Start.{IsEmpty};
ghost use Rattle.jm_execute.specs.Beginnings.{StandsAtItsBeginning};
ghost use Rattle.jm_execute.specs.Refusals.{Gives};
ghost use Rattle.jm_execute.specs.Sources.{choice_made};
ghost use Rattle.jm_choice.specs.Choices.{recorded};
ghost use Rattle.jm_execute.specs.Verdicts.{classes_of, debug_verdict, debugs, entries_in, explore_verdict, explores, choice_of, events_read, linked_program, loaded_program, program_of, replay_verdict, run_verdict, runs, scheduled_events};

use crate::events::{RunPlan, RunSource};
use crate::files::{bytes_of, check_read};
use crate::program_file::class_of;
use crate::refusal::{Obstacle, Refusal};
use jm_copy::Collector;
use jm_gen_heap::GenHeap;
use jm_heap::Heap;
use jm_job::{DebugJob, ExploreJob, InputFile, ReplayJob, RunEvents, RunJob};
use jm_linked::Linked;
use jm_linker::{LinkFault, link};
use jm_machine::{LoadFault, Machine};
use jm_program::Class;
use jm_schedule::{Record, Schedule, ScheduleFault, read_record, read_schedule};
use std::alloc::Global;

fn classes_of(alloc: Global, files: &[InputFile]) -> Result<Vec<Class>, Obstacle<'_>>
    ensures { Gives result (classes_of files.now) (λ classes. classes.items) }
{
    let mut classes = Vec::new(alloc);
    for file in files {
        let class = class_of(alloc, file)?;
        let Ok(()) = classes.push(class) else {
            return Err(Obstacle::OutOfMemory);
        };
    }
    Ok(classes)
}

fn linked_program<'a>(alloc: Global, classes: Vec<Class>) -> Result<Linked, Obstacle<'a>>
    ensures { Gives result (linked_program classes.items) (λ linked. linked.program) }
{
    match link(alloc, classes) {
        Ok(linked) => Ok(linked),
        Err(LinkFault::OutOfMemory) => Err(Obstacle::OutOfMemory),
        Err(fault) => Err(Obstacle::Refused(Refusal::Unlinked(fault))),
    }
}

fn loaded_machine<'a, H: Heap + Drop>(
    alloc: Global,
    linked: Linked,
    heap: H,
) -> Result<Machine<H>, Obstacle<'a>>
    requires { IsEmpty (H.content heap) }
    ensures program { Gives result (loaded_program (H.content heap).limit linked.program) (λ machine. machine.linked.program) }
    ensures ready { IfOk result (StandsAtItsBeginning (H.content heap).limit) }
{
    match Machine::load(alloc, linked, heap) {
        Ok(machine) => Ok(machine),
        Err(LoadFault::OutOfMemory) => Err(Obstacle::OutOfMemory),
        Err(LoadFault::HeapTooSmall) => Err(Obstacle::Refused(Refusal::HeapTooSmall)),
    }
}

/// The schedule in a file.
pub(crate) fn schedule_in(alloc: Global, file: &InputFile) -> Result<Schedule, Obstacle<'_>>
    ensures { Gives result (scheduled_events file.now) (λ events. events) }
{
    let text = bytes_of(file)?;
    match read_schedule(alloc, text) {
        Ok(schedule) => Ok(schedule),
        Err(ScheduleFault::OutOfMemory) => Err(Obstacle::OutOfMemory),
        Err(ScheduleFault::BadSchedule(line)) => {
            Err(Obstacle::Refused(Refusal::BadSchedule(line)))
        }
    }
}

/// The machine that the program of some files begins with, over an empty heap. A file that could not
/// be read is the first obstacle; then what is wrong with a file, by their order, with the classes,
/// and with the heap's limit.
#[tactic(auto, unfolding(crate::specs::Verdicts::program_of))]
pub fn machine_of<H: Heap + Drop>(
    alloc: Global,
    files: &[InputFile],
    heap: H,
) -> Result<Machine<H>, Obstacle<'_>>
    requires { IsEmpty (H.content heap) }
    ensures program { Gives result (program_of (H.content heap).limit files.now) (λ machine. machine.linked.program) }
    ensures ready { IfOk result (StandsAtItsBeginning (H.content heap).limit) }
{
    check_read(files)?;
    let classes = classes_of(alloc, files)?;
    let linked = linked_program(alloc, classes)?;
    loaded_machine(alloc, linked, heap)
}

// Whether what says the events was read.
fn check_events(events: &RunEvents) -> Result<(), Obstacle<'_>>
    ensures { Gives result (events_read events.now) (λ _. tt) }
{
    match events {
        RunEvents::Schedule(file) => {
            bytes_of(file)?;
            Ok(())
        }
        RunEvents::RoundRobin(_) | RunEvents::Workers(_) => Ok(()),
    }
}

/// The heap of a run: of two generations, with a collector.
pub type RunHeap<C> = GenHeap<C>;

/// A machine before its first event, and how its events are chosen.
pub type Ready<C> = (Machine<RunHeap<C>>, RunPlan);

/// The machine that the program of some files begins with, over an empty heap of so many cells.
pub(crate) fn machine_within<C: Collector + Drop>(
    alloc: Global,
    limit: u32,
    collector: C,
    files: &[InputFile],
) -> Result<Machine<RunHeap<C>>, Obstacle<'_>>
    ensures program { Gives result (program_of limit files.now) (λ machine. machine.linked.program) }
    ensures ready { IfOk result (StandsAtItsBeginning limit) }
{
    match GenHeap::new(alloc, limit, collector) {
        Ok(heap) => machine_of(alloc, files, heap),
        Err(_) => Err(Obstacle::OutOfMemory),
    }
}

// A machine with how its events are chosen.
fn with_plan<'a, H: Heap + Drop>(
    alloc: Global,
    events: &'a RunEvents,
    machine: Machine<H>,
) -> Result<(Machine<H>, RunPlan), Obstacle<'a>>
    ensures plan { (w : World) → Gives result (choice_of events.now w) (λ ready. choice_made ready.1 w) }
    ensures same { IfOk result (λ ready. ready.0 ≡ machine) }
{
    match events {
        RunEvents::Schedule(file) => match schedule_in(alloc, file) {
            Ok(schedule) => Ok((machine, RunPlan::Source(RunSource::Schedule(schedule)))),
            Err(obstacle) => {
                drop(machine);
                Err(obstacle)
            }
        },
        RunEvents::RoundRobin(robin) => {
            Ok((machine, RunPlan::Source(RunSource::RoundRobin(*robin))))
        }
        RunEvents::Workers(workers) => Ok((machine, RunPlan::Workers(*workers))),
    }
}

/// The machine that a job's program begins with, over a heap with this collector, and how its events
/// are chosen. A schedule that could not be read is the first obstacle; then those of the program, and
/// last what is wrong with the schedule. The round robin and workers are no obstacle.
#[tactic(auto, unfolding(crate::specs::Verdicts::run_verdict))]
pub fn prepare<C: Collector + Drop>(
    alloc: Global,
    job: &RunJob,
    collector: C,
) -> Result<Ready<C>, Obstacle<'_>>
    ensures run { Gives result (run_verdict job.now) (λ ready.
        runs ready.0.linked.program job.now.heap (choice_made ready.1 (loaded_world ready.0.linked.program job.now.heap)) job.now.show_heap) }
    ensures ready { IfOk result (λ ready. StandsAtItsBeginning job.now.heap ready.0) }
{
    check_events(&job.events)?;
    match machine_within(alloc, job.heap, collector, &job.program) {
        Ok(machine) => with_plan(alloc, &job.events, machine),
        Err(obstacle) => Err(obstacle),
    }
}

/// A machine before its first event, and the record whose events it is to make.
pub type ReadyToReplay<C> = (Machine<RunHeap<C>>, Record);

// A machine with the record that a text spells.
fn with_record<'a, H: Heap + Drop>(
    alloc: Global,
    text: &[u8],
    machine: Machine<H>,
) -> Result<(Machine<H>, Record), Obstacle<'a>>
    ensures record_is { Gives result (entries_in text.now) (λ ready. ready.1) }
    ensures same { IfOk result (λ ready. ready.0 ≡ machine) }
{
    match read_record(alloc, text) {
        Ok(read) => Ok((machine, read)),
        Err(ScheduleFault::OutOfMemory) => {
            drop(machine);
            Err(Obstacle::OutOfMemory)
        }
        Err(ScheduleFault::BadSchedule(line)) => {
            drop(machine);
            Err(Obstacle::Refused(Refusal::BadSchedule(line)))
        }
    }
}

/// The machine that a job's program begins with, over a heap with this collector, and the record. A
/// record that could not be read is the first obstacle; then those of the program, and last what is
/// wrong with the record.
#[tactic(auto, unfolding(crate::specs::Verdicts::replay_verdict))]
pub fn prepare_replay<C: Collector + Drop>(
    alloc: Global,
    job: &ReplayJob,
    collector: C,
) -> Result<ReadyToReplay<C>, Obstacle<'_>>
    ensures run { Gives result (replay_verdict job.now) (λ ready.
        runs ready.0.linked.program job.now.heap (recorded ready.1) job.now.show_heap) }
    ensures ready { IfOk result (λ ready. StandsAtItsBeginning job.now.heap ready.0) }
{
    let text = bytes_of(&job.record_file)?;
    match machine_within(alloc, job.heap, collector, &job.program) {
        Ok(machine) => with_record(alloc, text, machine),
        Err(obstacle) => Err(obstacle),
    }
}

/// The machine whose program a search runs, over a heap with this collector. A file that could not be
/// read is the first obstacle; then those of the program.
#[tactic(auto, unfolding(crate::specs::Verdicts::explore_verdict))]
pub fn prepare_exploration<C: Collector + Drop>(
    alloc: Global,
    job: &ExploreJob,
    collector: C,
) -> Result<Machine<RunHeap<C>>, Obstacle<'_>>
    ensures { Gives result (explore_verdict job.now) (λ machine. explores machine.linked.program job.now.heap job.now.bounds job.now.outcome) }
{
    machine_within(alloc, job.heap, collector, &job.program)
}

/// The machine with which a session begins, over a heap with this collector. A file that could not be
/// read is the first obstacle; then those of the program.
#[tactic(auto, unfolding(crate::specs::Verdicts::debug_verdict))]
pub fn prepare_session<C: Collector + Drop>(
    alloc: Global,
    job: &DebugJob,
    collector: C,
) -> Result<Machine<RunHeap<C>>, Obstacle<'_>>
    ensures session { Gives result (debug_verdict job.now) (λ machine. debugs machine.linked.program job.now.heap) }
    ensures ready { IfOk result (StandsAtItsBeginning job.now.heap) }
{
    machine_within(alloc, job.heap, collector, &job.program)
}

// Searches of the schedules of a program.

ghost use Rattle.std.specs.Prelude.{◌≡◌, false, IfOk};
ghost use Rattle.jm_explore.specs.declared.bounds.Bounds.{Bounds as BoundsModel};
ghost use Rattle.jm_explore.specs.declared.exploration.Explored.{Explored as ExploredModel};
ghost use Rattle.jm_world.specs.Loading.{loaded_world};
ghost use Rattle.jm_execute.specs.Endings.{Leaves, LeavesFound, Tells, explored};
ghost use Rattle.jm_execute.specs.Explorations.{Finds, found_text, lack_of, told_status};
ghost use Rattle.jm_execute.specs.Written.{words};

use crate::copiers::JobCollector;
use crate::execution::tell_exhausted;
use crate::preparation::RunHeap;
use crate::report::{tell_lines, tell_write_failed};
use crate::watchable::Watchable;
use crate::watched::Watched;
use jm_explain::Status;
use jm_explore::{
    Bounds, EmptyHeaps, Explored, Told, Unfinished, exploration_text, explore, outcome_at,
    outcome_status, schedule_text,
};
use jm_gen_heap::GenHeap;
use jm_job::ExploreJob;
use jm_machine::Machine;
use std::alloc::{AllocError, Global};
use std::thread::Threads;

/// The heap of each run of a search.
pub(crate) type SearchHeap<'a, W> = RunHeap<JobCollector<&'a W>>;

/// What makes the heaps of a search, each of so many cells.
#[derive(Drop)]
struct SearchHeaps<'a, W> {
    rt: &'a W,
    alloc: Global,
    limit: u32,
}

impl<'a, W: Threads> EmptyHeaps<SearchHeap<'a, W>> for SearchHeaps<'a, W> {
    ghost limit = { λ heaps. heaps.limit };

    fn empty_heap(&self) -> Result<SearchHeap<'a, W>, AllocError> {
        GenHeap::new(self.alloc, self.limit, JobCollector::OneCopier)
    }
}

/// What a search lacks.
#[derive(Clone, Copy)]
pub enum Lack {
    /// Memory was refused before its end.
    Memory,
    /// There is no outcome of the number that is asked for.
    Outcome,
}

// What a search lacks, if anything.
fn lack_of(found: &Explored, wanted: Option<u32>) -> Option<Lack>
    ensures { result ≡ lack_of found.now wanted }
{
    if let Some(Unfinished::OutOfMemory) = found.unfinished {
        return Some(Lack::Memory);
    }
    match outcome_at(found, wanted?) {
        Some(_) => None,
        None => Some(Lack::Outcome),
    }
}

// The status of what was found.
fn told_status(why: Option<Unfinished>, told: &[Told]) -> Status
    ensures { result ≡ told_status why told.now }
{
    match told {
        [] => Status::NotAllTried,
        [one] => match why {
            None => outcome_status(&one.outcome),
            Some(_) => Status::NotAllTried,
        },
        _ => Status::SeveralOutcomes,
    }
}

// All that was found, or the schedule of the outcome that is asked for; nothing where there is none of
// its number.
fn found_text(
    alloc: Global,
    bounds: Bounds,
    found: &Explored,
    wanted: Option<u32>,
) -> Result<Vec<u8>, AllocError>
    ensures { IfOk result (λ text. text.items ≡ found_text bounds found.now wanted) }
{
    let number = match wanted {
        Some(number) => number,
        None => return exploration_text(alloc, bounds, found),
    };
    match outcome_at(found, number) {
        Some(told) => schedule_text(alloc, &told.schedule),
        None => Ok(Vec::new(alloc)),
    }
}

// Tells what a search lacks, if anything.
fn tell_lack<E: Watchable>(found: &Explored, wanted: Option<u32>, err: &mut Watched<E>) -> Status
    requires { err.old.failed ≡ false }
    ensures { (b : BoundsModel) → Tells (words E.contents E.ends) (explored b found.now wanted) result err.old err.new }
{
    match lack_of(found, wanted) {
        None => told_status(found.unfinished, &found.told),
        Some(Lack::Memory) => tell_exhausted(err),
        Some(Lack::Outcome) => {
            tell_lines(b"jm: 81 NoSuch\n", err);
            Status::Refused
        }
    }
}

// Tells of a search by the text of what it found.
fn tell_explored<O: Watchable, E: Watchable>(
    text: &[u8],
    found: &Explored,
    wanted: Option<u32>,
    out: &mut Watched<O>,
    err: &mut Watched<E>,
) -> Status
    requires out { out.old.failed ≡ false }
    requires err { err.old.failed ≡ false }
    ensures { (b : BoundsModel) → text.now ≡ found_text b found.now wanted
        → Leaves (words O.contents O.ends) (words E.contents E.ends) (explored b found.now wanted) result out.old out.new err.old err.new }
{
    match out.write_all(text) {
        Ok(()) => tell_lack(found, wanted, err),
        Err(_) => {
            tell_write_failed(err);
            Status::Files
        }
    }
}

// Tells of a search. Where a growth is refused to the text of it, nothing is written to the output.
fn tell_found<O: Watchable, E: Watchable>(
    alloc: Global,
    bounds: Bounds,
    found: &Explored,
    wanted: Option<u32>,
    out: &mut Watched<O>,
    err: &mut Watched<E>,
) -> Status
    requires out { out.old.failed ≡ false }
    requires err { err.old.failed ≡ false }
    ensures { LeavesFound (words O.contents O.ends) (words E.contents E.ends) bounds found.now wanted result out.old out.new err.old err.new }
{
    match found_text(alloc, bounds, found, wanted) {
        Ok(text) => tell_explored(&text, found, wanted, out, err),
        Err(_) => tell_exhausted(err),
    }
}

/// Tries the schedules of a machine's program within bounds, over heaps of so many cells, and tells of
/// them.
pub(crate) fn run_exploration<'a, W: Threads, O: Watchable, E: Watchable>(
    rt: &'a W,
    alloc: Global,
    mut machine: Machine<SearchHeap<'a, W>>,
    job: &ExploreJob,
    out: &mut Watched<O>,
    err: &mut Watched<E>,
) -> Status
    requires out { out.old.failed ≡ false }
    requires err { err.old.failed ≡ false }
    ensures { (found : ExploredModel) × Finds (loaded_world machine.entry.linked.program job.now.heap) job.now.bounds found
        × LeavesFound (words O.contents O.ends) (words E.contents E.ends) job.now.bounds found job.now.outcome result out.old out.new err.old err.new }
{
    let heaps = SearchHeaps {
        rt,
        alloc,
        limit: job.heap,
    };
    let found = explore(alloc, &mut machine, &heaps, job.bounds);
    drop(machine);
    let status = tell_found(alloc, job.bounds, &found, job.outcome, out, err);
    drop(found);
    status
}

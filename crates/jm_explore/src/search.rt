// The search for schedules of at most so many switches.

ghost use Rattle.std.specs.Prelude.{◌≡◌, ◌≢◌, ◌≤◌, ◌<◌, ◌^◌, ◌+◌, IfOk, IfErr, List, ◌++◌, ◌∷◌, [], None, ℕ, nat_eq};
ghost use Rattle.jm_machine.specs.View.{MatchesWorld};
ghost use Rattle.jm_world.specs.Loading.{loaded_world};
ghost use Rattle.jm_world.specs.World.{World};
ghost use Rattle.jm_explore.specs.Counts.{CountsAll, CountsMore, Tallied, Weighs, WeighsIf, all_counted, below, below_all, weight_if, weighed};
ghost use Rattle.jm_explore.specs.Outcomes.{End, Found, outcome_of};
ghost use Rattle.jm_explore.specs.declared.branch.Branch.{Branch as BranchModel};
ghost use Rattle.jm_explore.specs.declared.unfinished.Unfinished.TheVariants as unfinished;
ghost use Rattle.jm_explore.specs.Searches.{AllBefore, IsComplete, Known, Made, Making, Notes, Searching, Tried, founds};
ghost use Rattle.jm_explore.specs.Switches.{turn_from, world_after};

use crate::bounds::Bounds;
use crate::branch::Branch;
use crate::heaps::EmptyHeaps;
use crate::outcome::end_of;
use crate::thread::{advance, went};
use crate::told::{Told, note};
use crate::turn::{Turn, last_turn, next_turn};
use crate::unfinished::Unfinished;
use jm_heap::Heap;
use jm_machine::{LoadFault, Machine, OutOfMemory};
use jm_world::Event;
use std::alloc::Global;

/// What was found so far, and how many more runs may be made.
#[derive(Drop)]
pub struct Progress {
    pub told: Vec<Told>,
    pub schedules: u64,
    pub runs: u64,
}

// Nothing was found so far, and so many runs may be made.
pub(crate) fn nothing_found(alloc: Global, runs: u64) -> Progress
    ensures none { result.told.items ≡ [] }
    ensures tallied { Tallied runs result }
    ensures runs { result.runs ≡ runs }
{
    Progress {
        told: Vec::new(alloc),
        schedules: 0,
        runs,
    }
}

// The program begins again.
fn begin_again<H: Heap + Drop, E: EmptyHeaps<H>>(
    machine: &mut Machine<H>,
    heaps: &E,
) -> Result<(), Unfinished>
    ensures first { IfOk result (λ _. MatchesWorld machine.new (loaded_world machine.old.linked.program (E.limit heaps.now))) }
    ensures other { IfErr result (λ why. why ≢ unfinished.RunsEnd) }
    ensures linked { machine.new.linked ≡ machine.old.linked }
{
    let Ok(heap) = heaps.empty_heap() else {
        return Err(Unfinished::OutOfMemory);
    };
    match machine.reset(heap) {
        Ok(()) => Ok(()),
        Err(LoadFault::OutOfMemory) => Err(Unfinished::OutOfMemory),
        Err(LoadFault::HeapTooSmall) => Err(Unfinished::HeapTooSmall),
    }
}

// Makes the events of a schedule from the start.
fn run_again<H: Heap + Drop, E: EmptyHeaps<H>>(
    machine: &mut Machine<H>,
    heaps: &E,
    path: &[u64],
) -> Result<(), Unfinished>
    ensures first { IfOk result (λ _. MatchesWorld machine.new (world_after (loaded_world machine.old.linked.program (E.limit heaps.now)) path.now)) }
    ensures other { IfErr result (λ why. why ≢ unfinished.RunsEnd) }
    ensures linked { machine.new.linked ≡ machine.old.linked }
{
    begin_again(machine, heaps)?;
    for thread in path {
        machine.step(Event::Step(*thread))?;
    }
    Ok(())
}

// Goes on with a schedule as long as it may.
fn extend<H: Heap>(
    machine: &mut Machine<H>,
    path: &mut Vec<u64>,
    todo: &mut Vec<Branch>,
    first: Option<Turn>,
    left: usize,
    bounds: Bounds,
) -> Result<(), OutOfMemory>
    ensures made { (w : World) (most : ℕ) (found : List Found) → Making w bounds.slice most bounds.steps found path.old.items todo.old.items left
        → first ≡ turn_from bounds.slice None path.old.items → MatchesWorld machine.old (world_after w path.old.items)
        → IfOk result (λ _. Made w bounds.slice most bounds.steps found path.new.items todo.new.items × MatchesWorld machine.new (world_after w path.new.items)) }
    ensures weighs { (w : World) (most : ℕ) (found : List Found) → Making w bounds.slice most bounds.steps found path.old.items todo.old.items left
        → first ≡ turn_from bounds.slice None path.old.items → MatchesWorld machine.old (world_after w path.old.items)
        → IfOk result (λ _. Weighs w bounds.slice most bounds.steps path.new.items todo.new.items left (λ f. below w bounds.slice bounds.steps f path.old.items left + below_all w bounds.slice bounds.steps f path.old.items todo.old.items)) }
    ensures linked { machine.new.linked ≡ machine.old.linked }
{
    let mut last = first;
    while path.len() < bounds.steps {
        let thread = match advance(machine, todo, path.len(), bounds.slice, last, left)? {
            Some(thread) => thread,
            None => return Ok(()),
        };
        let Ok(()) = path.push(thread) else {
            return Err(OutOfMemory);
        };
        last = Some(next_turn(bounds.slice, last, thread));
    }
    Ok(())
}

// Tries a branch, which was the last: whether a schedule was made of it.
fn try_branch<H: Heap + Drop, E: EmptyHeaps<H>>(
    machine: &mut Machine<H>,
    heaps: &E,
    path: &mut Vec<u64>,
    todo: &mut Vec<Branch>,
    branch: Branch,
    bounds: Bounds,
) -> Result<bool, Unfinished>
    ensures tried { (w : World) → w ≡ loaded_world machine.old.linked.program (E.limit heaps.now) → (most : ℕ) (found : List Found) (all : List BranchModel) → all ≡ todo.old.items ++ branch ∷ []
        → Searching w bounds.slice most bounds.steps found path.old.items all
        → IfOk result (λ made. Tried made w bounds.slice most bounds.steps found path.new.items todo.new.items machine.new) }
    ensures weighs { (w : World) → w ≡ loaded_world machine.old.linked.program (E.limit heaps.now) → (most : ℕ) (found : List Found) (all : List BranchModel) → all ≡ todo.old.items ++ branch ∷ []
        → Searching w bounds.slice most bounds.steps found path.old.items all
        → IfOk result (λ made. WeighsIf made w bounds.slice most bounds.steps path.new.items todo.new.items branch.left (λ f. below_all w bounds.slice bounds.steps f path.old.items all)) }
    ensures other { IfErr result (λ why. why ≢ unfinished.RunsEnd) }
    ensures linked { machine.new.linked ≡ machine.old.linked }
{
    path.truncate(branch.behind);
    run_again(machine, heaps, path)?;
    if !went(machine, branch.thread)? {
        return Ok(false);
    }
    let last = last_turn(bounds.slice, path);
    let Ok(()) = path.push(branch.thread) else {
        return Err(Unfinished::OutOfMemory);
    };
    let turn = next_turn(bounds.slice, last, branch.thread);
    extend(machine, path, todo, Some(turn), branch.left, bounds)?;
    Ok(true)
}

// How often a schedule is counted where so many switches are left: in the search of just its switches.
fn counted(left: usize) -> u64
    ensures { result ≡ weight_if (nat_eq left 0) 1 }
{
    if left == 0 { 1 } else { 0 }
}

// Tells what the machine has come to by a schedule of at most so many switches. Schedules of fewer
// were counted before.
fn note_end<H: Heap>(
    alloc: Global,
    machine: &Machine<H>,
    progress: &mut Progress,
    path: &[u64],
    switches: usize,
    left: usize,
    steps: usize,
) -> Result<(), OutOfMemory>
    ensures notes { (w : World) → MatchesWorld machine.now (world_after w path.now) → IfOk result (λ _. Notes (outcome_of w steps path.now) path.now switches (founds progress.old.told.items) (founds progress.new.told.items)) }
    ensures kept { IfErr result (λ _. founds progress.new.told.items ≡ founds progress.old.told.items) }
    ensures counts { (w : World) → MatchesWorld machine.now (world_after w path.now) → all_counted progress.old.told.items + 1 < 2 ^ 64
        → IfOk result (λ _. (weight : End → ℕ) → weighed weight progress.new.told.items ≡ weighed weight progress.old.told.items + weight_if (nat_eq left 0) (weight (outcome_of w steps path.now))) }
    ensures schedules { progress.old.schedules + 1 < 2 ^ 64 → IfOk result (λ _. progress.new.schedules ≡ progress.old.schedules + weight_if (nat_eq left 0) 1) }
    ensures runs { progress.new.runs ≡ progress.old.runs }
{
    let outcome = end_of(alloc, machine, steps <= path.len())?;
    let counted = counted(left);
    note(alloc, &mut progress.told, outcome, path, switches, counted)?;
    progress.schedules = progress.schedules.saturating_add(counted);
    Ok(())
}

// One run fewer may be made.
fn take_run(runs: &mut u64) -> Result<(), Unfinished>
    ensures taken { IfOk result (λ _. runs.new + 1 ≡ runs.old) }
    ensures none { IfErr result (λ _. (runs.new ≡ 0) × (runs.old ≡ 0)) }
{
    if *runs == 0 {
        return Err(Unfinished::RunsEnd);
    }
    *runs -= 1;
    Ok(())
}

// The first schedule, of which all others are branches.
fn first_schedule<H: Heap + Drop, E: EmptyHeaps<H>>(
    machine: &mut Machine<H>,
    heaps: &E,
    path: &mut Vec<u64>,
    todo: &mut Vec<Branch>,
    switches: usize,
    bounds: Bounds,
) -> Result<(), Unfinished>
    ensures made { (w : World) → w ≡ loaded_world machine.old.linked.program (E.limit heaps.now) → (found : List Found) → path.old.items ≡ [] → todo.old.items ≡ [] →
        IfOk result (λ _. Made w bounds.slice switches bounds.steps found path.new.items todo.new.items × MatchesWorld machine.new (world_after w path.new.items)) }
    ensures weighs { (w : World) → w ≡ loaded_world machine.old.linked.program (E.limit heaps.now) → path.old.items ≡ [] → todo.old.items ≡ [] →
        IfOk result (λ _. Weighs w bounds.slice switches bounds.steps path.new.items todo.new.items switches (λ f. below w bounds.slice bounds.steps f [] switches)) }
    ensures other { IfErr result (λ why. why ≢ unfinished.RunsEnd) }
    ensures linked { machine.new.linked ≡ machine.old.linked }
{
    begin_again(machine, heaps)?;
    extend(machine, path, todo, None, switches, bounds)?;
    Ok(())
}

// Tries the schedules of at most so many switches, where all of fewer were tried.
pub(crate) fn search_up_to<H: Heap + Drop, E: EmptyHeaps<H>>(
    alloc: Global,
    machine: &mut Machine<H>,
    heaps: &E,
    progress: &mut Progress,
    switches: usize,
    bounds: Bounds,
) -> Result<(), Unfinished>
    ensures known { (w : World) → w ≡ loaded_world machine.old.linked.program (E.limit heaps.now) → Known w bounds.slice switches bounds.steps (founds progress.old.told.items) → AllBefore w bounds.slice switches bounds.steps (founds progress.old.told.items)
        → Known w bounds.slice switches bounds.steps (founds progress.new.told.items) }
    ensures complete { (w : World) → w ≡ loaded_world machine.old.linked.program (E.limit heaps.now) → Known w bounds.slice switches bounds.steps (founds progress.old.told.items) → AllBefore w bounds.slice switches bounds.steps (founds progress.old.told.items)
        → IfOk result (λ _. IsComplete w bounds.slice switches bounds.steps (founds progress.new.told.items)) }
    ensures counted { (w : World) (most : ℕ) → w ≡ loaded_world machine.old.linked.program (E.limit heaps.now) → Tallied most progress.old
        → IfOk result (λ _. Tallied most progress.new × CountsMore w bounds.slice switches bounds.steps progress.old.told.items progress.new.told.items) }
    ensures ends { IfErr result (λ why. why ≡ unfinished.RunsEnd → progress.new.runs ≡ 0) }
    ensures runs { progress.new.runs ≤ progress.old.runs }
    ensures linked { machine.new.linked ≡ machine.old.linked }
{
    take_run(&mut progress.runs)?;
    let mut path = Vec::new(alloc);
    let mut todo = Vec::new(alloc);
    first_schedule(machine, heaps, &mut path, &mut todo, switches, bounds)?;
    note_end(
        alloc,
        machine,
        progress,
        &path,
        switches,
        switches,
        bounds.steps,
    )?;
    while let Some(branch) = todo.pop() {
        take_run(&mut progress.runs)?;
        if !try_branch(machine, heaps, &mut path, &mut todo, branch, bounds)? {
            continue;
        }
        note_end(
            alloc,
            machine,
            progress,
            &path,
            switches,
            branch.left,
            bounds.steps,
        )?;
    }
    Ok(())
}

// Tries the schedules of no switch, of one, and so on.
pub(crate) fn search_all<H: Heap + Drop, E: EmptyHeaps<H>>(
    alloc: Global,
    machine: &mut Machine<H>,
    heaps: &E,
    progress: &mut Progress,
    bounds: Bounds,
) -> Result<(), Unfinished>
    ensures known { (w : World) → w ≡ loaded_world machine.old.linked.program (E.limit heaps.now) → progress.old.told.items ≡ [] → Known w bounds.slice bounds.switches bounds.steps (founds progress.new.told.items) }
    ensures complete { (w : World) → w ≡ loaded_world machine.old.linked.program (E.limit heaps.now) → progress.old.told.items ≡ [] → IfOk result (λ _. IsComplete w bounds.slice bounds.switches bounds.steps (founds progress.new.told.items)) }
    ensures counted { (w : World) (most : ℕ) → w ≡ loaded_world machine.old.linked.program (E.limit heaps.now) → progress.old.told.items ≡ [] → Tallied most progress.old
        → IfOk result (λ _. Tallied most progress.new × CountsAll w bounds.slice bounds.switches bounds.steps progress.new.told.items) }
    ensures ends { IfErr result (λ why. why ≡ unfinished.RunsEnd → progress.new.runs ≡ 0) }
    ensures runs { progress.new.runs ≤ progress.old.runs }
    ensures linked { machine.new.linked ≡ machine.old.linked }
{
    for switches in 0..bounds.switches {
        search_up_to(alloc, machine, heaps, progress, switches, bounds)?;
    }
    search_up_to(alloc, machine, heaps, progress, bounds.switches, bounds)
}

// Every schedule with a bounded number of switches.

ghost use Rattle.std.specs.Prelude.{◌≡◌, ◌≤◌, None, Some, length};
ghost use Rattle.std.specs.List.{All, AllPairs};
ghost use Rattle.jm_world.specs.Loading.{loaded_world};
ghost use Rattle.jm_explore.specs.Lists.{HowMany};
ghost use Rattle.jm_explore.specs.Outcomes.{AllTold, AreOther, HasFewest, IsTrueOf, outcome_of, told_end};
ghost use Rattle.jm_explore.specs.Schedulings.{schedules};
ghost use Rattle.jm_explore.specs.Searches.{founds};
ghost use Rattle.jm_explore.specs.declared.unfinished.Unfinished.TheVariants as unfinished;

use crate::bounds::Bounds;
use crate::heaps::EmptyHeaps;
use crate::search::{Progress, nothing_found, search_all};
use crate::told::Told;
use crate::unfinished::Unfinished;
use jm_heap::Heap;
use jm_machine::Machine;
use std::alloc::Global;

/// What was found.
#[derive(Drop)]
pub struct Explored {
    /// The outcomes, in the order in which they were found: those of fewer switches first.
    pub told: Vec<Told>,
    /// How many schedules were counted, each once.
    pub schedules: u64,
    /// How often the program was begun: for the first schedule of each number of switches, and for each
    /// branch that was tried.
    pub runs: u64,
    /// Why not all were tried, if they were not.
    pub unfinished: Option<Unfinished>,
}

/// Tries the schedules of a machine's program of at most so many switches, each from its beginning
/// over an empty heap, and tells what they come to. Each outcome is told once, with a schedule that comes
/// to it and has the fewest switches. Where the answer is finished, the outcome of every schedule
/// within the bounds is told, and the counts are those of all schedules within the bounds; else what
/// was found until then. `RunsEnd` comes only where as many runs were made as may be. The machine is
/// left where some run has come to.
pub fn explore<H: Heap + Drop, E: EmptyHeaps<H>>(
    alloc: Global,
    machine: &mut Machine<H>,
    heaps: &E,
    bounds: Bounds,
) -> Explored
    ensures sound { All (IsTrueOf (loaded_world machine.old.linked.program (E.limit heaps.now)) bounds.slice bounds.steps) (founds result.told.items) }
    ensures within { All (λ f. f.switches ≤ bounds.switches) (founds result.told.items) }
    ensures fewest { All (HasFewest (loaded_world machine.old.linked.program (E.limit heaps.now)) bounds.slice bounds.steps) (founds result.told.items) }
    ensures other { AllPairs AreOther (founds result.told.items) }
    ensures complete { result.unfinished ≡ None → AllTold (loaded_world machine.old.linked.program (E.limit heaps.now)) bounds.slice bounds.switches bounds.steps (founds result.told.items) }
    ensures counts { result.unfinished ≡ None → result.schedules ≡ length (schedules (loaded_world machine.old.linked.program (E.limit heaps.now)) bounds.slice bounds.switches bounds.steps) }
    ensures shares { result.unfinished ≡ None → All (λ t. HowMany (λ ts. outcome_of (loaded_world machine.old.linked.program (E.limit heaps.now)) bounds.steps ts ≡ told_end t.outcome) (schedules (loaded_world machine.old.linked.program (E.limit heaps.now)) bounds.slice bounds.switches bounds.steps) t.schedules) result.told.items }
    ensures made { result.unfinished ≡ None → result.schedules ≤ result.runs }
    ensures runs { result.runs ≤ bounds.runs }
    ensures ends { result.unfinished ≡ Some unfinished.RunsEnd → result.runs ≡ bounds.runs }
    ensures linked { machine.new.linked ≡ machine.old.linked }
{
    let mut progress = nothing_found(alloc, bounds.runs);
    let unfinished = search_all(alloc, machine, heaps, &mut progress, bounds).err();
    let Progress {
        told,
        schedules,
        runs,
    } = progress;
    Explored {
        told,
        schedules,
        runs: bounds.runs - runs,
        unfinished,
    }
}

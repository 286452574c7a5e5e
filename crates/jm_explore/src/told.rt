// What is told of schedules.

ghost use Rattle.std.specs.Prelude.{◌≡◌, ◌<◌, ◌^◌, ◌+◌, ◌*◌, ℕ, IfOk, IfErr, MatchOption, get_or, length};
ghost use Rattle.jm_explore.specs.Counts.{all_counted, weighed};
ghost use Rattle.jm_explore.specs.Outcomes.{End, told_end};
ghost use Rattle.jm_explore.specs.Searches.{Has, Notes, founds};
ghost use Rattle.jm_explore.specs.declared.told.Told.{Told as ToldModel};

use crate::outcome::{Outcome, copied, is_same};
use jm_machine::OutOfMemory;
use std::alloc::Global;

/// What schedules come to, and one of them.
#[derive(Drop)]
pub struct Told {
    pub outcome: Outcome,
    /// The numbers of the threads whose events are made, one after the other.
    pub schedule: Vec<u64>,
    /// How many switches that schedule has: no other that comes to this has fewer.
    pub switches: usize,
    /// How many of the schedules that were made come to this.
    pub schedules: u64,
}

// The index at which an outcome is told.
fn told_index(told: &[Told], outcome: &Outcome) -> Option<usize>
    ensures { MatchOption result (Has (told_end outcome.now) (founds told.now) → ⊥) (λ index. (index < length told.now) × Has (told_end outcome.now) (founds told.now) × ((d : ToldModel) → told_end (get_or told.now index d).outcome ≡ told_end outcome.now)) }
{
    for (index, one) in told.iter().enumerate() {
        if is_same(&one.outcome, outcome) {
            return Some(index);
        }
    }
    None
}

// Counts schedules that come to what is told at an index.
fn count_more(told: &mut [Told], index: usize, more: u64)
    requires { index < length told.old }
    ensures kept { founds told.new ≡ founds told.old }
    ensures counts { (weight : End → ℕ) (e : End) → ((d : ToldModel) → told_end (get_or told.old index d).outcome ≡ e) → all_counted told.old + more < 2 ^ 64 → weighed weight told.new ≡ weighed weight told.old + weight e * more }
{
    let one = &mut told[index];
    one.schedules = one.schedules.saturating_add(more);
}

// Tells that so many schedules come to an outcome, by this one of so many switches unless the outcome
// was told. After a refusal what was told is told.
pub(crate) fn note(
    alloc: Global,
    told: &mut Vec<Told>,
    outcome: Outcome,
    path: &[u64],
    switches: usize,
    schedules: u64,
) -> Result<(), OutOfMemory>
    ensures notes { IfOk result (λ _. Notes (told_end outcome) path.now switches (founds told.old.items) (founds told.new.items)) }
    ensures counts { (weight : End → ℕ) → all_counted told.old.items + schedules < 2 ^ 64 → IfOk result (λ _. weighed weight told.new.items ≡ weighed weight told.old.items + weight (told_end outcome) * schedules) }
    ensures kept { IfErr result (λ _. founds told.new.items ≡ founds told.old.items) }
{
    if let Some(index) = told_index(told, &outcome) {
        count_more(told, index, schedules);
        drop(outcome);
        return Ok(());
    }
    let Ok(schedule) = copied(alloc, path) else {
        drop(outcome);
        return Err(OutOfMemory);
    };
    let one = Told {
        outcome,
        schedule,
        switches,
        schedules,
    };
    let Ok(()) = told.push(one) else {
        return Err(OutOfMemory);
    };
    Ok(())
}

// What was found, outcome by outcome.

ghost use Rattle.std.specs.Prelude.{◌≡◌, ◌++◌, IfOk, option_map, string_bytes};
ghost use Rattle.jm_explore.specs.ExplorationTexts.{end_line, exploration_text, heading, how_text, told_at, told_text, tolds_text, why_text};

use crate::bounds::Bounds;
use crate::counted::Counted;
use crate::exploration::Explored;
use crate::marked::add_marked;
use crate::outcome::HowEnded;
use crate::outcome_texts::outcome_lines;
use crate::schedule_texts::add_schedule;
use crate::status::outcome_status;
use crate::told::Told;
use crate::unfinished::Unfinished;
use std::alloc::{AllocError, Global};

fn how_text(how: HowEnded) -> &'static str
    ensures { result.now ≡ how_text how }
{
    match how {
        HowEnded::Ended => "ended",
        HowEnded::Stopped(_) => "stopped",
        HowEnded::Deadlock(_) => "deadlock",
        HowEnded::Cut => "cut",
    }
}

// The first line of the outcome of a number.
fn heading(alloc: Global, number: u64, told: &Told) -> Result<String, AllocError>
    ensures { IfOk result (λ line. string_bytes line ≡ heading number told.now) }
{
    let schedules = Counted::new(told.schedules, "schedule", "schedules");
    let switches = Counted::new(told.switches as u64, "switch", "switches");
    let how = how_text(told.outcome.how);
    let code = outcome_status(&told.outcome).code();
    format!(in alloc;
        "outcome {number}: {schedules}, first with {switches}, {how}, status {code}\n"
    )
}

// Adds what is told of the outcome of a number: its first line, what the program has printed, what
// standard error says, and the schedule.
fn add_told(alloc: Global, text: &mut Vec<u8>, number: u64, told: &Told) -> Result<(), AllocError>
    ensures { IfOk result (λ _. text.new.items ≡ text.old.items ++ told_text number told.now) }
{
    let heading = heading(alloc, number, told)?;
    text.extend_from_slice(heading.as_bytes())?;
    add_marked(text, "| ", &told.outcome.output)?;
    let lines = outcome_lines(alloc, &told.outcome)?;
    add_marked(text, "! ", &lines)?;
    add_schedule(alloc, text, &told.schedule)?;
    Ok(())
}

// Adds what is told of the outcomes, which are numbered from 1.
fn add_tolds(alloc: Global, text: &mut Vec<u8>, tolds: &[Told]) -> Result<(), AllocError>
    ensures { IfOk result (λ _. text.new.items ≡ text.old.items ++ tolds_text 1 tolds.now) }
{
    let mut number: u64 = 1;
    for told in tolds {
        add_told(alloc, text, number, told)?;
        number += 1;
    }
    Ok(())
}

// Why not all schedules were tried.
fn why_text(alloc: Global, bounds: Bounds, why: Unfinished) -> Result<String, AllocError>
    ensures { IfOk result (λ text. string_bytes text ≡ why_text bounds why) }
{
    match why {
        Unfinished::RunsEnd => {
            let runs = Counted::new(bounds.runs, "run", "runs");
            format!(in alloc; "stopped after {runs}")
        }
        Unfinished::OutOfMemory => String::from_str(alloc, "61 OutOfMemory"),
        Unfinished::HeapTooSmall => String::from_str(alloc, "63 HeapTooSmall"),
    }
}

// The line that says that all schedules were tried, or why not.
fn end_line(alloc: Global, bounds: Bounds, found: &Explored) -> Result<String, AllocError>
    ensures { IfOk result (λ line. string_bytes line ≡ end_line bounds found.now.schedules found.now.unfinished) }
{
    match found.unfinished {
        None => {
            let schedules = Counted::new(found.schedules, "schedule", "schedules");
            let switches = Counted::new(bounds.switches as u64, "switch", "switches");
            let slice = Counted::new(bounds.slice as u64, "event", "events");
            let steps = Counted::new(bounds.steps as u64, "step", "steps");
            format!(in alloc;
                "complete: {schedules} of at most {switches}, slices of {slice} and {steps}\n"
            )
        }
        Some(why) => {
            let why = why_text(alloc, bounds, why)?;
            format!(in alloc; "not complete: {why}\n")
        }
    }
}

/// What was found within some bounds: for each outcome a line that says how many schedules come to it,
/// the fewest switches, how it ended and its status, the output behind `| `, the lines of standard error
/// behind `! `, and a schedule that comes to it; and last whether all schedules were tried, or why not.
/// `AllocError`: a growth was refused.
pub fn exploration_text(
    alloc: Global,
    bounds: Bounds,
    found: &Explored,
) -> Result<Vec<u8>, AllocError>
    ensures { IfOk result (λ text. text.items ≡ exploration_text bounds found.now) }
{
    let mut text = Vec::new(alloc);
    add_tolds(alloc, &mut text, &found.told)?;
    let end = end_line(alloc, bounds, found)?;
    text.extend_from_slice(end.as_bytes())?;
    Ok(text)
}

/// What is told of the outcome of a number, as the text numbers them from 1 on; `None` where there is no
/// such outcome.
pub fn outcome_at(found: &Explored, number: u32) -> Option<&Told>
    ensures { option_map (λ t. t.now) result ≡ told_at number found.now.told.items }
{
    if number == 0 {
        return None;
    }
    found.told.get(number as usize - 1)
}

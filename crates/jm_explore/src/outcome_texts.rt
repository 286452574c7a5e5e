// What standard error says of an outcome.

ghost use Rattle.std.specs.Prelude.{◌≡◌, IfOk, string_bytes};
ghost use Rattle.jm_explore.specs.Outcomes.{told_end};
ghost use Rattle.jm_explore.specs.OutcomeTexts.{last_line, outcome_lines};

use crate::outcome::{HowEnded, Outcome};
use jm_machine::{StopText, ended_line};
use std::alloc::{AllocError, Global};

// The stop, or the threads that wait for one another, if that is how it ended.
fn last_line(alloc: Global, how: HowEnded) -> Result<String, AllocError>
    ensures { IfOk result (λ line. string_bytes line ≡ last_line how) }
{
    match how {
        HowEnded::Ended | HowEnded::Cut => Ok(String::new(alloc)),
        HowEnded::Stopped(stop) => {
            let stop = StopText(stop);
            format!(in alloc; "jm: {stop}\n")
        }
        HowEnded::Deadlock(live) => format!(in alloc; "jm: {live} threads not ended\n"),
    }
}

/// What `jm run` says on standard error of an outcome: a line for each thread that an exception has
/// ended, by number, and then the stop, or how many threads wait for one another. Of what was cut it
/// has none. `AllocError`: a growth was refused.
pub fn outcome_lines(alloc: Global, outcome: &Outcome) -> Result<Vec<u8>, AllocError>
    ensures { IfOk result (λ lines. lines.items ≡ outcome_lines (told_end outcome.now)) }
{
    let mut lines = Vec::new(alloc);
    for ended in &outcome.ended_by {
        let line = ended_line(alloc, ended.thread, &ended.class)?;
        lines.extend_from_slice(line.as_bytes())?;
    }
    let last = last_line(alloc, outcome.how)?;
    lines.extend_from_slice(last.as_bytes())?;
    Ok(lines)
}

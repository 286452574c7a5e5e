// Schedules as the lines of a file.

ghost use Rattle.std.specs.Prelude.{◌≡◌, ◌++◌, ◌∷◌, IfOk};
ghost use Rattle.jm_explore.specs.ScheduleTexts.{schedule_text, stretch_line};

use std::alloc::{AllocError, Global};

// Adds the line of so many events of a thread.
fn add_stretch(alloc: Global, text: &mut Vec<u8>, thread: u64, count: u64) -> Result<(), AllocError>
    ensures { IfOk result (λ _. text.new.items ≡ text.old.items ++ stretch_line (record { thread = thread; count = count })) }
{
    let line = format!(in alloc; "t {thread} x {count}\n")?;
    text.extend_from_slice(line.as_bytes())
}

// Adds the lines of an event of a thread and of those that follow.
fn add_events(alloc: Global, text: &mut Vec<u8>, first: u64, rest: &[u64]) -> Result<(), AllocError>
    ensures { IfOk result (λ _. text.new.items ≡ text.old.items ++ schedule_text (first ∷ rest.now)) }
{
    let mut thread = first;
    let mut count: u64 = 1;
    for next in rest {
        if *next == thread {
            count += 1;
            continue;
        }
        add_stretch(alloc, text, thread, count)?;
        thread = *next;
        count = 1;
    }
    add_stretch(alloc, text, thread, count)
}

/// Adds the lines of a schedule: one for each stretch of events of one thread. `AllocError`: a growth
/// was refused.
pub(crate) fn add_schedule(
    alloc: Global,
    text: &mut Vec<u8>,
    schedule: &[u64],
) -> Result<(), AllocError>
    ensures { IfOk result (λ _. text.new.items ≡ text.old.items ++ schedule_text schedule.now) }
{
    match schedule.split_first() {
        Some((first, rest)) => add_events(alloc, text, *first, rest),
        None => Ok(()),
    }
}

/// A schedule, the numbers of the threads whose events are made, as lines `t N x K`: each is K events of
/// thread N, one after the other, and as many as there are before another thread's. `AllocError`: a
/// growth was refused.
pub fn schedule_text(alloc: Global, schedule: &[u64]) -> Result<Vec<u8>, AllocError>
    ensures { IfOk result (λ text. text.items ≡ schedule_text schedule.now) }
{
    let mut text = Vec::new(alloc);
    add_schedule(alloc, &mut text, schedule)?;
    Ok(text)
}

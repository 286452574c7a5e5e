// Threads that have not ended.

ghost use Rattle.std.specs.Prelude.{◌≡◌, ◌++◌, OnOk, Some};
ghost use Rattle.jm_world.specs.World.{World, Thread, is_running, thread_at};
ghost use Rattle.jm_machine.specs.View.{MatchesWorld};
ghost use Rattle.jm_trace.specs.Doings.{texts_from};
ghost use Rattle.jm_why.specs.Answers.{limit_text, live_text, live_thread};

use crate::frames::write_frames;
use crate::waits::{write_holds, write_waits};
use jm_heap::Heap;
use jm_machine::Machine;
use std::alloc::AllocError;
use std::fmt::Write;

/// Writes why no more events were made: with a limit of turns, whether it came. `AllocError`: a growth was refused.
#[tactic(auto, unfolding(crate::specs::Answers::limit_text))]
pub fn write_limit(out: &mut String, limit: Option<u64>, made: u64) -> Result<(), AllocError>
    ensures { OnOk result (out.new.bytes.items ≡ out.old.bytes.items ++ limit_text limit made) }
{
    let Some(steps) = limit else {
        return write!(out, "the schedule ends after {made} events\n");
    };
    if made == steps {
        write!(
            out,
            "the limit of {steps} events came: --steps N, at most 10000000, makes more\n"
        )
    } else {
        write!(out, "no thread can go on after {made} events\n")
    }
}

// Writes a thread, if it has not ended.
#[tactic(auto, unfolding(crate::specs::Answers::live_line))]
fn write_live<H: Heap>(
    out: &mut String,
    machine: &Machine<H>,
    waiting: &[u64],
    thread: u64,
) -> Result<(), AllocError>
    ensures { (w : World) (t : Thread) → MatchesWorld machine.now w → thread_at w thread ≡ Some t
        → OnOk result (out.new.bytes.items ≡ out.old.bytes.items ++ live_text w waiting.now thread (is_running t.ending)) }
{
    if !machine.is_live(thread) {
        return Ok(());
    }
    write!(out, "t{thread} not ended")?;
    write_holds(out, machine, thread)?;
    write_waits(out, machine, waiting, thread)?;
    out.push_str("\n")?;
    write_frames(out, machine, thread)
}

/// Writes the threads that have not ended: what each holds and waits for, and where it stands. `AllocError`: a growth was
/// refused.
pub fn write_lives<H: Heap>(
    out: &mut String,
    machine: &Machine<H>,
    waiting: &[u64],
) -> Result<(), AllocError>
    ensures { (w : World) → MatchesWorld machine.now w
        → OnOk result (out.new.bytes.items ≡ out.old.bytes.items ++ texts_from (live_thread w waiting.now) 0 w.threads) }
{
    for index in 0..machine.threads() {
        write_live(out, machine, waiting, index as u64 + 1)?;
    }
    Ok(())
}

// What is said of how a run ended.

ghost use Rattle.std.specs.Prelude.{◌≡◌, ◌++◌, OnOk, Some};
ghost use Rattle.jm_world.specs.World.{World, Thread, thread_at};
ghost use Rattle.jm_machine.specs.Threads.{class_of_ending};
ghost use Rattle.jm_machine.specs.View.{MatchesWorld};
ghost use Rattle.jm_trace.specs.Doings.{texts_from};
ghost use Rattle.jm_why.specs.Answers.{answer, ended_text, ended_thread, last_part};

use crate::kept::Kept;
use crate::live::{write_limit, write_lives};
use crate::stops::write_stopped;
use crate::throws::{Throw, write_throws_of};
use jm_heap::Heap;
use jm_machine::Machine;
use jm_program::Name;
use std::alloc::{AllocError, Global};
use std::fmt::Write;

// Writes by what exception a thread has ended, if by one, and its throws.
#[tactic(auto, unfolding(crate::specs::Answers::ended_line))]
fn write_ended<H: Heap>(
    alloc: Global,
    out: &mut String,
    machine: &Machine<H>,
    throws: &[Throw],
    thread: u64,
) -> Result<(), AllocError>
    ensures { (w : World) (t : Thread) → MatchesWorld machine.now w → thread_at w thread ≡ Some t
        → OnOk result (out.new.bytes.items ≡ out.old.bytes.items ++ ended_text throws.now thread (class_of_ending t.ending)) }
{
    let Some(class) = machine.ended_by(thread) else {
        return Ok(());
    };
    let class = Name::shared(alloc, class)?;
    write!(out, "t{thread} ended by {class}\n")?;
    write_throws_of(out, throws, thread)
}

// Writes the threads that an exception has ended.
fn write_ends<H: Heap>(
    alloc: Global,
    out: &mut String,
    machine: &Machine<H>,
    throws: &[Throw],
) -> Result<(), AllocError>
    ensures { (w : World) → MatchesWorld machine.now w
        → OnOk result (out.new.bytes.items ≡ out.old.bytes.items ++ texts_from (ended_thread throws.now) 0 w.threads) }
{
    for index in 0..machine.threads() {
        write_ended(alloc, out, machine, throws, index as u64 + 1)?;
    }
    Ok(())
}

// Writes the stop, or else the threads that have not ended, if any.
fn write_last<H: Heap>(
    out: &mut String,
    machine: &Machine<H>,
    limit: Option<u64>,
    kept: &Kept,
) -> Result<(), AllocError>
    ensures { (w : World) → MatchesWorld machine.now w
        → OnOk result (out.new.bytes.items ≡ out.old.bytes.items ++ last_part limit w kept.now w.stop) }
{
    if let Some(stop) = machine.stop() {
        return write_stopped(out, machine, stop, kept.stopped);
    }
    if machine.live() == 0 {
        return out.push_str("all threads have ended\n");
    }
    write_limit(out, limit, kept.made)?;
    write_lives(out, machine, &kept.waiting)
}

/// Writes how a run ended: each thread that an exception has ended, with the frames at its throw; and then the stop, with
/// what was found and wanted, or the threads that have not ended, with what each holds and waits for. A limit is that of
/// the events of turns. `AllocError`: a growth was refused; a beginning of it may stand there then.
#[tactic(auto, unfolding(crate::specs::Answers::answer))]
pub fn write_answer<H: Heap>(
    alloc: Global,
    out: &mut String,
    machine: &Machine<H>,
    limit: Option<u64>,
    kept: &Kept,
) -> Result<(), AllocError>
    ensures { (w : World) → MatchesWorld machine.now w → OnOk result (out.new.bytes.items ≡ out.old.bytes.items ++ answer limit w kept.now) }
{
    write_ends(alloc, out, machine, &kept.throws)?;
    write_last(out, machine, limit, kept)
}

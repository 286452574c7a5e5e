// What standard error says of a run.

ghost use Rattle.std.specs.Prelude.{◌≡◌, Some, ◌++◌, ◌⊎◌, IfOk, false, string_bytes};
ghost use Rattle.jm_world.specs.World.{World, live_among, thread_at};
ghost use Rattle.jm_machine.specs.Threads.{class_ended_by};
ghost use Rattle.jm_machine.specs.View.{MatchesWorld};
ghost use Rattle.jm_execute.specs.Endings.{LinesTold};
ghost use Rattle.jm_execute.specs.Written.{Writes, words};
ghost use Rattle.jm_execute.specs.Reports.{differs_line, failure_line, heap_shown, last_line, live_line, memory_line, report, thread_line, thread_lines, unwritten_line};

use crate::file_name::FileName;
use crate::watchable::{Watchable, WriteFailed};
use crate::watched::Watched;
use arrayvec::ArrayString;
use itoa::Buffer;
use jm_debug::heap;
use jm_heap::Heap;
use jm_machine::{Machine, StopText, ended_line};
use std::alloc::{AllocError, Global};
use std::fmt::Write;

// ---- how a run ended

// The line of the thread of a number, if an exception has ended it.
fn thread_line<H: Heap>(
    alloc: Global,
    machine: &Machine<H>,
    number: u64,
) -> Result<String, AllocError>
    ensures { (w : World) → MatchesWorld machine.now w
        → IfOk result (λ line. string_bytes line ≡ thread_line number (class_ended_by (thread_at w number))) }
{
    match machine.ended_by(number) {
        Some(class) => ended_line(alloc, number, class),
        None => Ok(String::new(alloc)),
    }
}

// The lines of the threads that an exception has ended, by number.
fn thread_lines<H: Heap>(alloc: Global, machine: &Machine<H>) -> Result<String, AllocError>
    ensures { (w : World) → MatchesWorld machine.now w → IfOk result (λ lines. string_bytes lines ≡ thread_lines 1 w.threads) }
{
    let mut lines = String::new(alloc);
    for index in 0..machine.threads() {
        let line = thread_line(alloc, machine, index as u64 + 1)?;
        write!(lines, "{line}")?;
    }
    Ok(lines)
}

#[tactic(auto, using(crate::proofs::Threads::some_live))]
fn live_line(alloc: Global, live: u64) -> Result<String, AllocError>
    ensures { IfOk result (λ line. string_bytes line ≡ live_line live) }
{
    if live == 0 {
        return Ok(String::new(alloc));
    }
    format!(in alloc; "jm: {live} threads not ended\n")
}

// The stop, or else how many threads have not ended.
fn last_line<H: Heap>(alloc: Global, machine: &Machine<H>) -> Result<String, AllocError>
    ensures { (w : World) → MatchesWorld machine.now w
        → IfOk result (λ line. string_bytes line ≡ last_line w.stop (live_among w.threads)) }
{
    match machine.stop() {
        Some(stop) => {
            let stop = StopText(stop);
            format!(in alloc; "jm: {stop}\n")
        }
        None => live_line(alloc, machine.live() as u64),
    }
}

/// How a run ended: a line for each thread that an exception has ended, by number, and then the stop,
/// or else how many threads have not ended, if any. `AllocError`: a growth was refused.
#[tactic(auto, unfolding(crate::specs::Reports::report))]
pub fn report_of<H: Heap>(alloc: Global, machine: &Machine<H>) -> Result<String, AllocError>
    ensures { (w : World) → MatchesWorld machine.now w → IfOk result (λ text. string_bytes text ≡ report w) }
{
    let mut text = thread_lines(alloc, machine)?;
    let last = last_line(alloc, machine)?;
    write!(text, "{last}")?;
    Ok(text)
}

/// The view of a machine's heap, where it is to be shown, and else an empty text. `AllocError`: a
/// growth was refused.
pub fn heap_view<H: Heap>(
    alloc: Global,
    machine: &Machine<H>,
    show_heap: bool,
) -> Result<String, AllocError>
    ensures { (w : World) → MatchesWorld machine.now w → IfOk result (λ view. string_bytes view ≡ heap_shown show_heap w) }
{
    if !show_heap {
        return Ok(String::new(alloc));
    }
    match heap(alloc, machine) {
        Ok(view) => Ok(view),
        Err(_) => Err(AllocError),
    }
}

/// How a run ended, and behind it the view of its heap, where it is to be shown. `AllocError`: a
/// growth was refused.
pub fn end_text<H: Heap>(
    alloc: Global,
    machine: &Machine<H>,
    show_heap: bool,
) -> Result<String, AllocError>
    ensures { (w : World) → MatchesWorld machine.now w → IfOk result (λ text. string_bytes text ≡ report w ++ heap_shown show_heap w) }
{
    let mut text = report_of(alloc, machine)?;
    let view = heap_view(alloc, machine, show_heap)?;
    write!(text, "{view}")?;
    Ok(text)
}

// ---- what is written

/// Writes lines.
pub(crate) fn tell_lines<E: Watchable>(lines: &[u8], err: &mut Watched<E>)
    requires { err.old.failed ≡ false }
    ensures { LinesTold (words E.contents E.ends) (Some lines.now) err.new.failed err.old err.new }
{
    let _told = err.write_all(lines);
}

/// Writes that the output could not be written whole.
pub(crate) fn tell_write_failed<E: Watchable>(err: &mut Watched<E>)
    requires { err.old.failed ≡ false }
    ensures { LinesTold (words E.contents E.ends) (Some failure_line) err.new.failed err.old err.new }
{
    tell_lines(b"jm: write failed\n", err);
}

fn unwritten_line(alloc: Global, name: &str) -> Result<String, AllocError>
    ensures { IfOk result (λ line. string_bytes line ≡ unwritten_line name.now) }
{
    let name = FileName(name);
    format!(in alloc; "jm: {name}: not written\n")
}

/// Writes that the file of this name could not be written, or where memory is refused to that line
/// that the output could not.
pub fn tell_unwritten<E: Watchable>(alloc: Global, name: &str, err: &mut Watched<E>)
    requires { err.old.failed ≡ false }
    ensures { LinesTold (words E.contents E.ends) (Some (unwritten_line name.now)) err.new.failed err.old err.new
        ⊎ LinesTold (words E.contents E.ends) (Some failure_line) err.new.failed err.old err.new }
{
    match unwritten_line(alloc, name) {
        Ok(line) => tell_lines(line.as_bytes(), err),
        Err(_) => tell_write_failed(err),
    }
}

// The line stands on the stack while it is written, so that it takes no memory: a number has at most
// forty digits.
fn differs_line(line: u64) -> ArrayString<64>
    ensures { result.bytes ≡ differs_line line }
{
    let mut digits = Buffer::new();
    let mut text = ArrayString::new();
    text.push_str("jm: 71 ReplayDiffers(");
    text.push_str(digits.format(line));
    text.push_str(")\n");
    text
}

/// Writes that the reply to a record's event is of another kind than its line says, which has this
/// number.
pub fn write_difference<W: Watchable>(err: &mut Watched<W>, line: u64) -> Result<(), WriteFailed>
    ensures { Writes (words W.contents W.ends) result err.old err.new (differs_line line) }
{
    let text = differs_line(line);
    err.write_all(text.as_str().as_bytes())
}

/// Writes that a growth was refused.
pub fn write_out_of_memory<W: Watchable>(err: &mut Watched<W>) -> Result<(), WriteFailed>
    ensures { Writes (words W.contents W.ends) result err.old err.new memory_line }
{
    err.write_all(b"jm: 61 OutOfMemory\n")
}

// What threads have, by number.

ghost use Rattle.std.specs.Prelude.{◌≡◌, MatchOption, Some, None, reverse, slice_get};
ghost use Rattle.jm_machine.specs.Threads.{thread_numbered, frame_numbered, pending_numbered};

use jm_state::{StackFrame, Thread};
use jm_values::Place;

// The thread of a number, counted from 1.
fn thread_of(threads: &[Thread], number: u64) -> Option<&Thread>
    ensures { MatchOption result (thread_numbered threads.now number ≡ None) (λ thread. thread_numbered threads.now number ≡ Some thread.now) }
{
    let index = number.checked_sub(1)?;
    threads.get(index as usize)
}

// The frame that is so many below the top, which is the last.
fn frame_below(frames: &[StackFrame], depth: usize) -> Option<&StackFrame>
    ensures { MatchOption result (slice_get (reverse frames.now) depth ≡ None) (λ frame. slice_get (reverse frames.now) depth ≡ Some frame.now) }
{
    let count = frames.len();
    if depth < count {
        Some(&frames[count - 1 - depth])
    } else {
        None
    }
}

// The frame of the thread of a number that is so many below the top.
pub(crate) fn frame_of(threads: &[Thread], number: u64, depth: usize) -> Option<&StackFrame>
    ensures { MatchOption result (frame_numbered threads.now number depth ≡ None) (λ frame. frame_numbered threads.now number depth ≡ Some frame.now) }
{
    match thread_of(threads, number) {
        Some(thread) => frame_below(&thread.frames, depth),
        None => None,
    }
}

// The place of the pending exception of the thread of a number.
pub(crate) fn pending_of(threads: &[Thread], number: u64) -> Option<Place>
    ensures { result ≡ pending_numbered threads.now number }
{
    match thread_of(threads, number) {
        Some(thread) => thread.pending,
        None => None,
    }
}

// Places in code, before which steps of a thread end.

ghost use Rattle.std.specs.Prelude.{◌≡◌, ◌<◌, ◌≤◌};
ghost use Rattle.jm_machine.specs.CodePlaces.{IsFree, IsFreeIn};
ghost use Rattle.jm_machine.specs.Threads.{frame_numbered};

use crate::thread::frame_of;
use jm_state::{StackFrame, Thread};

/// An instruction of a method with code: the method by its number ([`crate::Machine::method`]), the
/// instruction by its own in the method, from 0.
#[derive(Clone, Copy)]
pub struct CodePlace {
    pub method: usize,
    pub instruction: usize,
}

// How many steps may be made, at most so many, before it is to be asked again: none at one of the
// places, and one in the method of one of them.
fn free_at(places: &[CodePlace], method: usize, instruction: usize, most: usize) -> usize
    requires { 0 < most }
    ensures free { IsFree places.now method instruction result }
    ensures most { result ≤ most }
{
    let mut free = most;
    for place in places {
        if method == place.method {
            if instruction == place.instruction {
                return 0;
            }
            free = 1;
        }
    }
    free
}

// The same of the top frame of the thread of a number. Where it is no method's, none is in the way.
pub(crate) fn free_steps(
    threads: &[Thread],
    number: u64,
    most: usize,
    places: &[CodePlace],
) -> usize
    requires { 0 < most }
    ensures free { IsFreeIn places.now result (frame_numbered threads.now number 0) }
    ensures most { result ≤ most }
{
    match frame_of(threads, number, 0) {
        Some(StackFrame::Method(frame)) => free_at(places, frame.method(), frame.at(), most),
        Some(StackFrame::Initialization { .. }) => most,
        Some(StackFrame::Entry) => most,
        None => most,
    }
}

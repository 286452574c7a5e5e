// The state of a run.

use crate::thread::Thread;
use jm_monitors::{InitStates, Monitors};
use jm_values::{Place, Value};
use jm_world::Stop;
use std::alloc::Global;
use std::collections::BTreeSet;

/// What a run of a linked program has made.
pub struct State<H> {
    pub heap: H,
    /// Thread n is the n-th, from 1.
    pub threads: Vec<Thread>,
    /// The serials of the threads' objects.
    pub started: BTreeSet<u64, Global>,
    /// How many threads have not ended.
    pub live: usize,
    /// The values of the static fields: System.out, then the program's.
    pub statics: Vec<Value>,
    /// How far the initialization of each of the program's classes is.
    pub classes: InitStates,
    /// The Strings of the program's literals, in the order of the literals.
    pub literals: Vec<Place>,
    /// The monitors that are held.
    pub monitors: Monitors,
    /// The bytes that the program has printed.
    pub output: Vec<u8>,
    pub stop: Option<Stop>,
}

// Written out, so that whoever lets go of one makes a call (docs/DECISIONS.md).
impl<H: Drop> Drop for State<H> {
    fn drop(self) {
        let State {
            heap: _,
            threads: _,
            started: _,
            live: _,
            statics: _,
            classes: _,
            literals: _,
            monitors: _,
            output: _,
            stop: _,
        } = self;
    }
}

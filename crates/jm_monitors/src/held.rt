// A monitor that is held.

use jm_values::Place;

/// A monitor that a thread holds (JVMS 2.11.10).
#[derive(Clone, Copy)]
pub struct Held {
    /// Where its object lies: a root for a collector.
    pub place: Place,
    /// The number of the thread that owns it, from 1.
    pub owner: u64,
    /// How many times the thread has entered it and not left it: from 1 to 2^31 - 1.
    pub count: u32,
}

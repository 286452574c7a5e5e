// How far a search goes.

/// How many schedules are tried.
#[derive(Clone, Copy)]
pub struct Bounds {
    /// At most so many switches.
    pub switches: usize,
    /// Behind so many events of one thread in a row the next thread follows, which is no switch.
    pub slice: usize,
    /// A schedule is cut at so many events.
    pub steps: usize,
    /// At most so many runs are made.
    pub runs: u64,
}

// What comes of several steps of one thread.

ghost use Rattle.std.specs.Prelude.{◌≡◌};

use jm_world::Reply;

/// Why steps of a thread ended.
#[derive(Clone, Copy)]
pub enum StepsEnd {
    /// As many were made as were asked for.
    AllMade,
    /// One step more was made, and answered so: it was not done, or it made or ended a thread.
    Other(Reply),
    /// A growth was refused: one step more was not made, and may be tried again.
    OutOfMemory,
}

/// What comes of steps of one thread, one after the other.
#[derive(Clone, Copy)]
pub struct Steps {
    /// How many were done, and neither made nor ended a thread.
    pub alike: usize,
    /// What each of these answered.
    pub reply: Reply,
    pub end: StepsEnd,
}

impl Steps {
    // So many were alike, and then they ended.
    pub(crate) fn ended(alike: usize, reply: Reply, end: StepsEnd) -> Steps
        ensures { result ≡ record { alike = alike; reply = reply; end = end } }
    {
        Steps { alike, reply, end }
    }
}

/// What comes of steps of one thread up to a place.
#[derive(Clone, Copy)]
pub enum StepsUpTo {
    /// No place ended them.
    Ended(Steps),
    /// So many were done, and neither made nor ended a thread; the thread's top frame stands at one of
    /// the places.
    AtPlace(usize),
}

impl StepsUpTo {
    // No place ended them.
    pub(crate) fn ended(alike: usize, reply: Reply, end: StepsEnd) -> StepsUpTo
        ensures { result ≡ StepsUpTo.Ended (record { alike = alike; reply = reply; end = end }) }
    {
        StepsUpTo::Ended(Steps { alike, reply, end })
    }
}

// Runs by one worker, of which a text is told.

use crate::job::{Copiers, InputFile};
use jm_film::Window;
use jm_page::Source;
use jm_schedule::RoundRobin;
use jm_trace::Shown;

/// Where the events of a run come from that is told.
pub enum ToldEvents {
    /// They are those that the lines of a schedule spell.
    Schedule(InputFile),
    /// The threads take turns.
    RoundRobin(RoundRobin),
}

// Written out, so that whoever lets go of one makes a call (docs/DECISIONS.md).
impl Drop for ToldEvents {
    fn drop(self) {
        match self {
            ToldEvents::Schedule(_) | ToldEvents::RoundRobin(_) => {}
        }
    }
}

/// To run the classes of some files by one worker and tell of it.
pub struct ToldJob {
    /// The limit of the heap, in cells.
    pub heap: u32,
    /// The copiers that collect the heap.
    pub copiers: Copiers,
    pub events: ToldEvents,
    /// The files of the classes, the main class's first: each a class file, or an assembler text
    /// where its name ends in `.j`.
    pub program: Vec<InputFile>,
}

// Written out, so that whoever lets go of one makes a call (docs/DECISIONS.md).
impl Drop for ToldJob {
    fn drop(self) {
        let ToldJob {
            heap: _,
            copiers: _,
            events: _,
            program: _,
        } = self;
    }
}

/// To write some of the events of a run as a page.
pub struct FilmJob {
    pub run: ToldJob,
    /// Which of the events are shown.
    pub window: Window,
    /// The sources that stand on the page.
    pub sources: Vec<Source>,
}

// Written out, so that whoever lets go of one makes a call (docs/DECISIONS.md).
impl Drop for FilmJob {
    fn drop(self) {
        let FilmJob {
            run: _,
            window: _,
            sources: _,
        } = self;
    }
}

/// To write a line for each event of a run.
pub struct TraceJob {
    pub run: ToldJob,
    /// Which of the events are shown.
    pub shown: Shown,
}

// Written out, so that whoever lets go of one makes a call (docs/DECISIONS.md).
impl Drop for TraceJob {
    fn drop(self) {
        let TraceJob { run: _, shown: _ } = self;
    }
}

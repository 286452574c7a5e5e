// Where the events of a run come from.

use jm_job::Workers;
use jm_schedule::{RoundRobin, Schedule};

/// The events of a run by one worker, by what the job says of them.
pub enum RunSource {
    /// Those of a schedule.
    Schedule(Schedule),
    /// The threads take turns.
    RoundRobin(RoundRobin),
}

// Written out, so that whoever lets go of one makes a call (docs/DECISIONS.md).
impl Drop for RunSource {
    fn drop(self) {
        match self {
            RunSource::Schedule(_) | RunSource::RoundRobin(_) => {}
        }
    }
}

/// How the events of a run are chosen.
pub enum RunPlan {
    /// One worker makes those of a source.
    Source(RunSource),
    /// Workers choose them.
    Workers(Workers),
}

// Written out, so that whoever lets go of one makes a call (docs/DECISIONS.md).
impl Drop for RunPlan {
    fn drop(self) {
        match self {
            RunPlan::Source(_) | RunPlan::Workers(_) => {}
        }
    }
}

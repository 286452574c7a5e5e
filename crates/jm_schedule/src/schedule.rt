// The events of a schedule, as runs of equal ones.

ghost use Rattle.std.specs.Prelude.{◌≡◌, ◌+◌, ◌↔◌, IsTrue, ◌<◌, ◌^◌, ◌++◌, [], length, replicate, OnOk, OnErr};
ghost use Rattle.jm_schedule.specs.Runs.{events_of};

use jm_world::Event;
use std::alloc::{AllocFailed, Global};
use std::marker::Model;

/// The most events that a schedule may have.
pub const MAX_EVENTS: u64 = 10_000_000;

/// An event, and how often it happens, one time after the other.
#[derive(Clone, Copy)]
pub struct Run {
    pub event: Event,
    pub count: u32,
}

/// The events of a schedule, in order. Contracts see the list of them; the memory that it takes
/// grows with its runs, and not with how often they repeat.
pub struct Schedule {
    runs: Vec<Run>,
    len: u64,
}

// Written out, so that whoever lets go of one makes a call (docs/DECISIONS.md).
impl Drop for Schedule {
    fn drop(self) {
        let Schedule { runs: _, len: _ } = self;
    }
}

impl Model for Schedule {
    ghost use Rattle.std.specs.Prelude.{List, ◌≡◌, length};
    ghost use Rattle.jm_world.specs.declared.event.Event.{Event};
    ghost use Rattle.jm_schedule.specs.Runs.{events_of};

    ghost Value = { List Event };

    ghost view = { λ s. events_of s.runs.items };

    ghost invariant = { λ s. s.len ≡ length (events_of s.runs.items) };
}

impl Schedule {
    // No events.
    pub(crate) fn new(alloc: Global) -> Schedule
        ensures { result ≡ [] }
    {
        Schedule {
            runs: Vec::new(alloc),
            len: 0,
        }
    }

    /// How many events there are.
    pub fn len(&self) -> u64
        ensures { result ≡ length self.now }
    {
        self.len
    }

    /// Whether there is no event.
    pub fn is_empty(&self) -> bool
        ensures { IsTrue result ↔ (self.now ≡ []) }
    {
        self.len == 0
    }

    /// The runs, in order: the events are each run's event as often as the run says, one run after
    /// the other.
    pub fn runs(&self) -> &[Run]
        ensures { events_of result.now ≡ self.now }
    {
        &self.runs
    }

    // Puts a run at the end. After an error the schedule is as before.
    pub(crate) fn push(&mut self, run: Run) -> Result<(), AllocFailed<Run>>
        requires { length self.old + run.count < 2 ^ 64 }
        ensures ok { OnOk result (self.new ≡ self.old ++ replicate run.count run.event) }
        ensures err { OnErr result (self.new ≡ self.old) }
    {
        self.runs.push(run)?;
        self.len += u64::from(run.count);
        Ok(())
    }
}

// The events of a schedule.

ghost use Rattle.std.specs.Prelude.{◌≡◌, ⊤};
ghost use Rattle.jm_events.specs.Due.{scheduled_due, scheduled_behind};

use crate::due::{DueEvent, EventsDue};
use jm_heap::Heap;
use jm_machine::Machine;
use jm_schedule::{Run, Schedule};
use jm_world::Event;
use std::alloc::AllocError;

/// Where one stands in the events of a schedule.
#[derive(Clone, Copy)]
pub struct Scheduled<'a> {
    /// What is left of the run that is being made.
    pub run: Run,
    pub runs: &'a [Run],
    /// How many of the runs were begun.
    pub begun: usize,
}

impl<'a> Scheduled<'a> {
    /// The beginning of a schedule's events.
    pub fn new(schedule: &'a Schedule) -> Scheduled<'a>
        ensures { scheduled_due result ≡ schedule.now }
    {
        Scheduled {
            run: Run {
                event: Event::Minor,
                count: 0,
            },
            runs: schedule.runs(),
            begun: 0,
        }
    }
}

/// The events of a schedule, whatever the world is.
impl EventsDue for Scheduled<'_> {
    ghost due = { λ s w. scheduled_due s };

    ghost knows = { λ s w. ⊤ };

    ghost seen = { λ s blocked. s };

    ghost behind = { scheduled_behind };

    fn next<H: Heap>(&mut self, _machine: &Machine<H>) -> Result<Option<DueEvent>, AllocError> {
        while self.run.count == 0 {
            if self.begun >= self.runs.len() {
                return Ok(None);
            }
            self.run = self.runs[self.begun];
            self.begun += 1;
        }
        let due = DueEvent {
            event: self.run.event,
            most: self.run.count,
        };
        self.run.count -= 1;
        Ok(Some(due))
    }

    fn see(&mut self, _blocked: bool) {}

    fn see_alike(&mut self, count: u32) {
        self.run.count = self.run.count.saturating_sub(count);
    }
}

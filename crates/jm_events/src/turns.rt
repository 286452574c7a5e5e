// The events that turns of the threads make.

ghost use Rattle.std.specs.Prelude.{◌≡◌};
ghost use Rattle.jm_world.specs.RoundRobin.{robin};
ghost use Rattle.jm_world.specs.World.{World};
ghost use Rattle.jm_world.specs.declared.event.Event.TheVariants.{Step};
ghost use Rattle.jm_events.specs.Due.{most_of, turn_taken, turns_behind, turns_due, turns_knows, turns_seen};

use crate::due::{DueEvent, EventsDue};
use crate::pass::Pass;
use jm_heap::Heap;
use jm_machine::Machine;
use jm_schedule::RoundRobin;
use jm_world::Event;
use std::alloc::{AllocError, Global};
use std::mem;

/// Where the turns of the threads stand.
#[derive(Drop)]
pub struct Turns {
    /// How many more events there may be.
    pub steps: u32,
    /// The most events of a turn.
    pub quantum: u32,
    /// The thread whose event is due, or was the last; 0 before the first.
    pub thread: u64,
    /// The threads up to this number have had their turn in this pass.
    pub passed: u64,
    /// How many more events the one behind it may make in its turn, if its turn is next.
    pub left: u32,
    /// Whether an event of the pass was not blocked.
    pub moved: bool,
    /// The threads among which the next one is found.
    pub pass: Pass,
}

impl Turns {
    /// The turns of a world before its first event.
    pub fn new(alloc: Global, turns: RoundRobin) -> Turns
        ensures due { (w : World) → turns_due result w ≡ robin w turns.steps turns.quantum }
        ensures knows { (w : World) → turns_knows result w }
    {
        Turns {
            steps: turns.steps,
            quantum: turns.quantum,
            thread: 0,
            passed: 0,
            left: turns.quantum,
            moved: false,
            pass: Pass::new(alloc),
        }
    }

    // The event of a thread whose turn it is, among so many that are live.
    fn take(&mut self, thread: u64, live: usize) -> DueEvent
        ensures turn { self.new ≡ turn_taken self.old thread }
        ensures due { result ≡ record { event = Step thread; most = most_of self.old.steps self.new.left live } }
    {
        if thread.saturating_sub(1) != self.passed {
            self.left = self.quantum;
        }
        let most = if live == 1 {
            self.steps
        } else {
            self.steps.min(self.left.max(1))
        };
        self.thread = thread;
        self.passed = thread.saturating_sub(1);
        self.steps = self.steps.saturating_sub(1);
        DueEvent {
            event: Event::Step(thread),
            most,
        }
    }
}

/// The events of the model's round robin.
impl EventsDue for Turns {
    ghost due = { turns_due };

    ghost knows = { turns_knows };

    ghost seen = { turns_seen };

    ghost behind = { turns_behind };

    fn next<H: Heap>(&mut self, machine: &Machine<H>) -> Result<Option<DueEvent>, AllocError> {
        if self.steps == 0 || machine.stop().is_some() {
            return Ok(None);
        }
        self.pass.list(machine.threads() as u64)?;
        if let Some(thread) = self.pass.first_behind(machine, self.passed)? {
            return Ok(Some(self.take(thread, machine.live())));
        }
        if !self.moved {
            return Ok(None);
        }
        self.moved = false;
        mem::swap(&mut self.pass.ahead, &mut self.pass.behind);
        match self.pass.first_behind(machine, 0)? {
            Some(thread) => Ok(Some(self.take(thread, machine.live()))),
            None => Ok(None),
        }
    }

    fn see(&mut self, blocked: bool) {
        if blocked || self.left <= 1 {
            self.passed = self.thread;
            self.left = self.quantum;
        } else {
            self.left -= 1;
        }
        if !blocked {
            self.moved = true;
        }
    }

    fn see_alike(&mut self, count: u32) {
        if count == 0 {
            return;
        }
        self.steps = self.steps.saturating_sub(count);
        let left = self.left.max(1);
        if count < left {
            self.left = left - count;
            self.moved = true;
        } else {
            let over = (count - left) % self.quantum.max(1);
            self.left = self.quantum - over;
            self.moved = over != 0;
        }
    }
}

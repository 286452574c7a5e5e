// What is kept of the events of a run.

ghost use Rattle.std.specs.Prelude.{◌≡◌, IfOk, OnOk};
ghost use Rattle.jm_world.specs.Run.{after};
ghost use Rattle.jm_world.specs.World.{World};
ghost use Rattle.jm_machine.specs.View.{MatchesWorld};
ghost use Rattle.jm_why.specs.Kept.{kept_behind, nothing_kept, pending_before, stopped_behind};

use crate::throws::{Throw, keep_throws, pending_before};
use jm_blocked_threads::{is_blocked, waiting_after};
use jm_heap::Heap;
use jm_machine::Machine;
use jm_world::{Event, Reply, ReplyKind};
use std::alloc::{AllocError, Global};
use std::marker::Model;

/// The first event that the machine stopped in.
#[derive(Clone, Copy)]
pub struct Stopped {
    /// Its number, from 1 on.
    pub number: u64,
    pub event: Event,
}

/// What is kept of the events of a run: how many they were, the first that stopped, the threads that were blocked at
/// their last event, and the throws of each thread since it had no exception pending.
#[derive(Drop)]
pub struct Kept {
    pub made: u64,
    pub stopped: Option<Stopped>,
    pub waiting: Vec<u64>,
    pub throws: Vec<Throw>,
}

impl Model for Kept {
    ghost use Rattle.jm_why.specs.Kept.{KeptView};

    ghost Value = { KeptView };

    ghost view = { λ k. record { made = k.made; stopped = k.stopped; waiting = k.waiting.items; throws = k.throws.items } };
}

// The first event that stopped, behind one more.
fn stopped_behind(
    stopped: Option<Stopped>,
    number: u64,
    event: Event,
    kind: ReplyKind,
) -> Option<Stopped>
    ensures { result ≡ stopped_behind stopped number event kind }
{
    match stopped {
        Some(first) => Some(first),
        None => match kind {
            ReplyKind::Stopped => Some(Stopped { number, event }),
            ReplyKind::Blocked | ReplyKind::Done | ReplyKind::Ended | ReplyKind::None => None,
        },
    }
}

impl Kept {
    /// Before the first event.
    pub fn nothing(alloc: Global) -> Kept
        ensures { result ≡ nothing_kept }
    {
        Kept {
            made: 0,
            stopped: None,
            waiting: Vec::new(alloc),
            throws: Vec::new(alloc),
        }
    }

    // Keeps what an event came to, in the world behind it.
    fn keep<H: Heap>(
        &mut self,
        alloc: Global,
        machine: &Machine<H>,
        event: Event,
        kind: ReplyKind,
        before: Option<u64>,
    ) -> Result<(), AllocError>
        ensures { (w : World) → MatchesWorld machine.now (after w event).world → kind ≡ (after w event).reply.kind → before ≡ pending_before w event
            → OnOk result (self.new ≡ kept_behind w self.old event) }
    {
        let Some(number) = self.made.checked_add(1) else {
            return Err(AllocError);
        };
        keep_throws(alloc, &mut self.throws, machine, number, event, before)?;
        self.waiting = waiting_after(alloc, &self.waiting, event, is_blocked(kind))?;
        self.stopped = stopped_behind(self.stopped, number, event, kind);
        self.made = number;
        Ok(())
    }

    /// Makes an event of a machine, and keeps what it came to. `AllocError`: a growth was refused, or the number of the
    /// event would pass 2^64.
    pub fn event<H: Heap>(
        &mut self,
        alloc: Global,
        machine: &mut Machine<H>,
        event: Event,
    ) -> Result<Reply, AllocError>
        ensures made { (w : World) → MatchesWorld machine.old w → IfOk result (λ reply. MatchesWorld machine.new (after w event).world × (reply ≡ (after w event).reply)) }
        ensures kept { (w : World) → MatchesWorld machine.old w → OnOk result (self.new ≡ kept_behind w self.old event) }
    {
        let before = pending_before(machine, event);
        let Ok(reply) = machine.step(event) else {
            return Err(AllocError);
        };
        self.keep(alloc, machine, event, reply.kind, before)?;
        Ok(reply)
    }
}

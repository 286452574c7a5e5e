// The events of a run, watched.

ghost use Rattle.std.specs.Prelude.{◌≡◌, IfOk};
ghost use Rattle.jm_world.specs.Run.{run_from};
ghost use Rattle.jm_world.specs.World.{World};
ghost use Rattle.jm_machine.specs.View.{MatchesWorld};
ghost use Rattle.jm_why.specs.Kept.{kept_of};

use crate::kept::Kept;
use jm_blocked_threads::is_blocked;
use jm_events::EventsDue;
use jm_heap::Heap;
use jm_machine::Machine;
use std::alloc::{AllocError, Global};

/// Makes the events that are due from a machine's world on, and keeps what is told of them. `AllocError`: a growth was
/// refused, or the number of an event would pass 2^64. Memory: each thread's frames at its last throws, as they
/// are told.
pub fn watch<H: Heap, S: EventsDue>(
    alloc: Global,
    machine: &mut Machine<H>,
    events: &mut S,
) -> Result<Kept, AllocError>
    ensures made { (w : World) → MatchesWorld machine.old w → S.knows events.old w → IfOk result (λ kept. MatchesWorld machine.new (run_from w (S.due events.old w))) }
    ensures kept { (w : World) → MatchesWorld machine.old w → S.knows events.old w → IfOk result (λ kept. kept ≡ kept_of w (S.due events.old w)) }
{
    let mut kept = Kept::nothing(alloc);
    for made in 0..u64::MAX {
        let Some(due) = events.next(machine)? else {
            return Ok(kept);
        };
        let reply = kept.event(alloc, machine, due.event)?;
        events.see(is_blocked(reply.kind));
    }
    Err(AllocError)
}

// A collection between every two events.

ghost use Rattle.std.specs.Prelude.{◌≡◌, ◌+◌, ◌*◌, IfOk, IfSome};
ghost use Rattle.jm_world.specs.Run.{run_from};
ghost use Rattle.jm_world.specs.World.{World};
ghost use Rattle.jm_machine.specs.BetweenEvents.{collection_of, interleaved};

use crate::fault::OutOfMemory;
use jm_heap::Kind;
use jm_world::Event;
use std::alloc::Global;

/// The collection of a kind as an event.
pub fn collection_of(kind: Kind) -> Event
    ensures { result ≡ collection_of kind }
{
    match kind {
        Kind::Minor => Event::Minor,
        Kind::Full => Event::Full,
    }
}

// How many they are with a collection before each of so many events and one after the last. A slice of
// events, each of which takes more than two bytes, is never so long that this is None.
fn interleaved_len(events: usize) -> Option<usize>
    ensures { IfSome result (λ count. count ≡ 2 * events + 1) }
{
    events.checked_mul(2)?.checked_add(1)
}

/// The events with a collection of that kind before each and one after the last: of n events, 2n + 1.
/// A collection changes nothing of a world, so they lead from each world to where the events given
/// lead. `OutOfMemory`: a growth was refused.
pub fn interleave(alloc: Global, events: &[Event], kind: Kind) -> Result<Vec<Event>, OutOfMemory>
    ensures events { IfOk result (λ all. all.items ≡ interleaved (collection_of kind) events.now) }
    ensures world { IfOk result (λ all. (w : World) → run_from w all.items ≡ run_from w events.now) }
{
    let Some(count) = interleaved_len(events.len()) else {
        return Err(OutOfMemory);
    };
    let collection = collection_of(kind);
    let mut all = Vec::with_capacity(alloc, count)?;
    for event in events {
        all.push_reserved(collection);
        all.push_reserved(*event);
    }
    all.push_reserved(collection);
    Ok(all)
}

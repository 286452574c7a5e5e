// What a state reaches.

ghost use Rattle.std.specs.Prelude.{◌≡◌, ℕ, ◌∷◌, [], OnOk, IfOk, Some, map};
ghost use Rattle.std.specs.List.Sorted.{IsStrictlyIncreasing};
ghost use Rattle.jm_values.specs.Rename.{refs};
ghost use Rattle.jm_values.specs.Content.{IsSound, AllResident, serial_at, object_at, name_of};
ghost use Rattle.jm_world.specs.Matches.{Matches};
ghost use Rattle.jm_values.specs.Objects.{refs_of};
ghost use Rattle.jm_world.specs.World.{World};
ghost use Rattle.jm_state.specs.Parts.{state_parts};
ghost use Rattle.jm_values.specs.Marking.{AreReached, FindsReached, MarkedAll};
ghost use Rattle.jm_state.specs.Reached.{AreReachable, FindsReachable};
ghost use Rattle.jm_state.specs.Runnable.{StateRuns};

use crate::places::gather;
use crate::state::State;
use jm_heap::Heap;
use jm_linked::Linked;
use jm_values::{Place, Value};
use std::alloc::{AllocError, Global};
use std::collections::BTreeSet;

// Marks the object at a place, if it is not marked yet, as one whose values are still to be looked
// at.
fn mark_place<H: Heap>(
    heap: &H,
    place: Place,
    seen: &mut BTreeSet<u64>,
    pending: &mut Vec<Place>,
) -> Result<(), AllocError>
    requires { (k : ℕ) × (serial_at (H.content heap.now) place ≡ Some k) }
    ensures { OnOk result
        (MarkedAll (H.content heap.now) (name_of (H.content heap.now) place ∷ []) seen.old.keys pending.old.items seen.new.keys pending.new.items) }
{
    if seen.insert(heap.serial(place))? {
        pending.push(place)?;
    }
    Ok(())
}

// Marks the objects at places.
fn mark_places<H: Heap>(
    heap: &H,
    places: &[Place],
    seen: &mut BTreeSet<u64>,
    pending: &mut Vec<Place>,
) -> Result<(), AllocError>
    requires { AllResident (H.content heap.now) places.now }
    ensures { OnOk result
        (MarkedAll (H.content heap.now) (map (name_of (H.content heap.now)) places.now) seen.old.keys pending.old.items seen.new.keys pending.new.items) }
{
    for place in places {
        mark_place(heap, *place, seen, pending)?;
    }
    Ok(())
}

// Marks the object that a value refers to, if it is a reference.
fn mark_value<H: Heap>(
    heap: &H,
    value: Value,
    seen: &mut BTreeSet<u64>,
    pending: &mut Vec<Place>,
) -> Result<(), AllocError>
    requires { AllResident (H.content heap.now) (refs value) }
    ensures { OnOk result
        (MarkedAll (H.content heap.now) (map (name_of (H.content heap.now)) (refs value)) seen.old.keys pending.old.items seen.new.keys pending.new.items) }
{
    match value {
        Value::Ref(place) => mark_place(heap, place, seen, pending),
        _ => Ok(()),
    }
}

// Marks the objects that the object at a place refers to.
fn mark_object<H: Heap>(
    heap: &H,
    place: Place,
    seen: &mut BTreeSet<u64>,
    pending: &mut Vec<Place>,
) -> Result<(), AllocError>
    requires sound { IsSound (H.content heap.now) }
    requires there { (k : ℕ) × (serial_at (H.content heap.now) place ≡ Some k) }
    ensures { OnOk result (MarkedAll (H.content heap.now)
        (refs_of (object_at (H.content heap.now) (name_of (H.content heap.now) place))) seen.old.keys pending.old.items seen.new.keys pending.new.items) }
{
    for index in 0..heap.length(place) {
        mark_value(heap, heap.get(place, index), seen, pending)?;
    }
    Ok(())
}

// The serials of what places reach, by a list of the places whose objects are still to be looked
// at.
fn mark<H: Heap>(alloc: Global, heap: &H, roots: &[Place]) -> Result<BTreeSet<u64>, AllocError>
    requires sound { IsSound (H.content heap.now) }
    requires resident { AllResident (H.content heap.now) roots.now }
    ensures { IfOk result (λ seen. AreReached (H.content heap.now) roots.now seen.keys) }
{
    let mut seen = BTreeSet::new(alloc);
    let mut pending = Vec::new(alloc);
    mark_places(heap, roots, &mut seen, &mut pending)?;
    while let Some(place) = pending.pop() {
        mark_object(heap, place, &mut seen, &mut pending)?;
    }
    Ok(seen)
}

// The place of the object of a serial, where places reach it.
fn search<H: Heap>(
    alloc: Global,
    heap: &H,
    roots: &[Place],
    serial: u64,
) -> Result<Option<Place>, AllocError>
    requires sound { IsSound (H.content heap.now) }
    requires resident { AllResident (H.content heap.now) roots.now }
    ensures { IfOk result (FindsReached (H.content heap.now) roots.now serial) }
{
    let mut seen = BTreeSet::new(alloc);
    let mut pending = Vec::new(alloc);
    mark_places(heap, roots, &mut seen, &mut pending)?;
    while let Some(place) = pending.pop() {
        if heap.serial(place) == serial {
            return Ok(Some(place));
        }
        mark_object(heap, place, &mut seen, &mut pending)?;
    }
    Ok(None)
}

// The serials of a set, rising.
fn rising(alloc: Global, serials: &BTreeSet<u64>) -> Result<Vec<u64>, AllocError>
    ensures same { IfOk result (λ list. list.items ≡ serials.now.keys) }
    ensures rising { IsStrictlyIncreasing serials.now.keys }
{
    serials.iter().copied().collect(alloc)
}

/// The serials of the objects that a state reaches, rising, each once: exactly the numbers of what
/// the world reaches (JVMS 2.5.3). Each object is looked at once. `AllocError`: a growth was
/// refused.
pub fn reachable<H: Heap>(
    alloc: Global,
    linked: &Linked,
    state: &State<H>,
) -> Result<Vec<u64>, AllocError>
    requires { StateRuns linked.now state.now × (w : World) × Matches (state_parts H.content linked.now state.now) w }
    ensures { IfOk result (λ serials. (w : World) → Matches (state_parts H.content linked.now state.now) w → AreReachable w serials.items) }
{
    let roots = gather(alloc, state)?;
    let seen = mark(alloc, &state.heap, roots.as_slice())?;
    rising(alloc, &seen)
}

/// The place of the object of a serial, where the state reaches it; None where it does not, and so
/// for garbage that still has a place too. Each object is looked at once at most. `AllocError`: a
/// growth was refused.
pub fn find_reachable<H: Heap>(
    alloc: Global,
    linked: &Linked,
    state: &State<H>,
    serial: u64,
) -> Result<Option<Place>, AllocError>
    requires { StateRuns linked.now state.now × (w : World) × Matches (state_parts H.content linked.now state.now) w }
    ensures { IfOk result
        (λ found. (w : World) → Matches (state_parts H.content linked.now state.now) w → FindsReachable (H.content state.now.heap) w serial found) }
{
    let roots = gather(alloc, state)?;
    search(alloc, &state.heap, roots.as_slice(), serial)
}

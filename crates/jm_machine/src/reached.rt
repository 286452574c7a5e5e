// The places of all that a state reaches, found by one marking.

ghost use Rattle.std.specs.Prelude.{◌≡◌, ℕ, ◌∷◌, [], OnOk, IfOk, Some, map};
ghost use Rattle.std.specs.List.Sorted.{IsStrictlySortedBy};
ghost use Rattle.std.specs.Map.{keys_of, values_of};
ghost use Rattle.std.specs.Ordering.{nat_cmp};
ghost use Rattle.jm_values.specs.Rename.{refs};
ghost use Rattle.jm_values.specs.Content.{IsSound, AllResident, serial_at, object_at, name_of};
ghost use Rattle.jm_values.specs.Objects.{refs_of};
ghost use Rattle.jm_world.specs.Matches.{Matches};
ghost use Rattle.jm_world.specs.World.{World};
ghost use Rattle.jm_state.specs.Parts.{state_parts};
ghost use Rattle.jm_state.specs.Runnable.{StateRuns};
ghost use Rattle.jm_machine.specs.Marked.{Marks, ReachedAt};
ghost use Rattle.jm_machine.specs.ReachedObjects.{AreOfReached};

use jm_heap::Heap;
use jm_linked::Linked;
use jm_state::{State, gather};
use jm_values::{Place, Value};
use std::alloc::{AllocError, Global};
use std::collections::BTreeMap;

// Marks the object at a place, if it is not marked yet, as one whose values are still to be looked
// at.
fn mark_place<H: Heap>(
    heap: &H,
    place: Place,
    seen: &mut BTreeMap<u64, Place>,
    pending: &mut Vec<Place>,
) -> Result<(), AllocError>
    requires { (k : ℕ) × (serial_at (H.content heap.now) place ≡ Some k) }
    ensures { OnOk result
        (Marks (H.content heap.now) (name_of (H.content heap.now) place ∷ []) seen.old.entries pending.old.items seen.new.entries pending.new.items) }
{
    if seen.insert(heap.serial(place), place)?.is_none() {
        pending.push(place)?;
    }
    Ok(())
}

// Marks the objects at places.
fn mark_places<H: Heap>(
    heap: &H,
    places: &[Place],
    seen: &mut BTreeMap<u64, Place>,
    pending: &mut Vec<Place>,
) -> Result<(), AllocError>
    requires { AllResident (H.content heap.now) places.now }
    ensures { OnOk result
        (Marks (H.content heap.now) (map (name_of (H.content heap.now)) places.now) seen.old.entries pending.old.items seen.new.entries pending.new.items) }
{
    for place in places {
        mark_place(heap, *place, seen, pending)?;
    }
    Ok(())
}

// Marks the object that a value refers to, if it is a reference.
fn mark_value<H: Heap>(
    heap: &H,
    value: Value,
    seen: &mut BTreeMap<u64, Place>,
    pending: &mut Vec<Place>,
) -> Result<(), AllocError>
    requires { AllResident (H.content heap.now) (refs value) }
    ensures { OnOk result
        (Marks (H.content heap.now) (map (name_of (H.content heap.now)) (refs value)) seen.old.entries pending.old.items seen.new.entries pending.new.items) }
{
    match value {
        Value::Ref(place) => mark_place(heap, place, seen, pending),
        _ => Ok(()),
    }
}

// Marks the objects that the object at a place refers to.
fn mark_object<H: Heap>(
    heap: &H,
    place: Place,
    seen: &mut BTreeMap<u64, Place>,
    pending: &mut Vec<Place>,
) -> Result<(), AllocError>
    requires sound { IsSound (H.content heap.now) }
    requires there { (k : ℕ) × (serial_at (H.content heap.now) place ≡ Some k) }
    ensures { OnOk result (Marks (H.content heap.now)
        (refs_of (object_at (H.content heap.now) (name_of (H.content heap.now) place))) seen.old.entries pending.old.items seen.new.entries pending.new.items) }
{
    for index in 0..heap.length(place) {
        mark_value(heap, heap.get(place, index), seen, pending)?;
    }
    Ok(())
}

// The places of what roots reach, by serial, with a list of the places whose objects are still to
// be looked at.
fn mark<H: Heap>(
    alloc: Global,
    heap: &H,
    roots: &[Place],
) -> Result<BTreeMap<u64, Place>, AllocError>
    requires sound { IsSound (H.content heap.now) }
    requires resident { AllResident (H.content heap.now) roots.now }
    ensures { IfOk result (λ seen. ReachedAt (H.content heap.now) roots.now seen.entries) }
{
    let mut seen = BTreeMap::new(alloc);
    let mut pending = Vec::new(alloc);
    mark_places(heap, roots, &mut seen, &mut pending)?;
    while let Some(place) = pending.pop() {
        mark_object(heap, place, &mut seen, &mut pending)?;
    }
    Ok(seen)
}

// The places of a map, in the order of the serials.
fn in_order(alloc: Global, seen: &BTreeMap<u64, Place>) -> Result<Vec<Place>, AllocError>
    ensures same { IfOk result (λ places. places.items ≡ values_of seen.now.entries) }
    ensures rising { IsStrictlySortedBy nat_cmp (keys_of seen.now.entries) }
{
    seen.values().copied().collect(alloc)
}

/// The places of the objects that a state reaches (JVMS 2.5.3), in the order of their serials, each
/// once. Each object is looked at once. `AllocError`: a growth was refused.
pub(crate) fn reached_places<H: Heap>(
    alloc: Global,
    linked: &Linked,
    state: &State<H>,
) -> Result<Vec<Place>, AllocError>
    requires { StateRuns linked.now state.now × (w : World) × Matches (state_parts H.content linked.now state.now) w }
    ensures { IfOk result
        (λ places. (w : World) → Matches (state_parts H.content linked.now state.now) w → AreOfReached (H.content state.now.heap) w places.items) }
{
    let roots = gather(alloc, state)?;
    let seen = mark(alloc, &state.heap, roots.as_slice())?;
    in_order(alloc, &seen)
}

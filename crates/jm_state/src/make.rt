// Making objects, and collections.

ghost use Rattle.std.specs.Prelude.{◌≡◌, ◌+◌, ◌<◌, ◌≤◌, OnErr, OnOk, length, map};
ghost use Rattle.jm_values.specs.ArraysOfArrays.{tree};
ghost use Rattle.jm_world.specs.Matches.{Matches, as_named};
ghost use Rattle.jm_world.specs.World.{World};
ghost use Rattle.jm_heap.specs.Allocation.{NewLie};
ghost use Rattle.jm_heap.specs.Collection.{IsAsBefore};
ghost use Rattle.jm_heap.specs.NewObject.{new_object};
ghost use Rattle.jm_heap.specs.Trees.{dimensions_of};
ghost use Rattle.jm_state.specs.Ends.{MadeAllOrNot, MadeOrNot, halt_from};
ghost use Rattle.jm_state.specs.Parts.{named_type, state_parts};
ghost use Rattle.jm_state.specs.Places.{OnlyMoved, places_of};
ghost use Rattle.jm_state.specs.Reached.{LeavesReachable};
ghost use Rattle.jm_state.specs.Runnable.{StateRuns};
ghost use Rattle.jm_state.specs.View.{view_of};

use crate::halt::Halt;
use crate::places::{gather, put_back};
use crate::state::State;
use jm_heap::{Component, Heap, HeapFault, Kind, Shape};
use jm_linked::Linked;
use jm_values::Place;
use jm_world::Stop;
use std::alloc::{AllocError, Global};

// Why the machine halts where its heap makes no object.
fn halt_of(fault: HeapFault) -> Halt
    ensures { result ≡ halt_from fault }
{
    match fault {
        HeapFault::OutOfMemory => Halt::OutOfMemory,
        HeapFault::HeapFull => Halt::Stopped(Stop::HeapFull),
        HeapFault::SerialsEnd => Halt::Stopped(Stop::SerialsEnd),
    }
}

// Makes an object after the places of the state were gathered, so that the heap may collect.
fn make_with_roots<H: Heap>(
    alloc: Global,
    linked: &Linked,
    state: &mut State<H>,
    nursery: usize,
    shape: Shape<'_>,
) -> Result<Place, Halt>
    requires { StateRuns linked.now state.old × (w : World) × Matches (state_parts H.content linked.now state.old) w }
    ensures made { (w : World) → Matches (state_parts H.content linked.now state.old) w
        → MadeOrNot result (state_parts H.content linked.now state.new) w (as_named (named_type linked.now.program) (new_object shape.entry)) }
    ensures runs { StateRuns linked.now state.new }
    ensures moved { OnlyMoved (view_of state.old) (view_of state.new) }
    ensures nursery { NewLie (λ p. H.nursery_of p nursery) (H.content state.old.heap) (H.content state.new.heap) }
{
    let mut roots = gather(alloc, state)?;
    let made = state.heap.allocate(nursery, &mut roots, shape);
    put_back(state, &roots);
    match made {
        Ok(place) => Ok(place),
        Err(fault) => Err(halt_of(fault)),
    }
}

/// Makes an object with default values (JVMS 2.3, 2.4) and answers its place. The state is as it
/// was, but that its objects may have moved: threads, frames, static fields, monitors and literals
/// hold the same objects, and nothing else changes. The object lies in the nursery of the number, and
/// no other one is new.
///
/// `Stopped`: the cells of what is reachable and those of the object pass the limit, or there have
/// been 2^63 objects (JVMS 2.5.3). `OutOfMemory`: a growth was refused.
pub fn make_object<H: Heap>(
    alloc: Global,
    linked: &Linked,
    state: &mut State<H>,
    nursery: usize,
    shape: Shape<'_>,
) -> Result<Place, Halt>
    requires { StateRuns linked.now state.old × (w : World) × Matches (state_parts H.content linked.now state.old) w }
    ensures made { (w : World) → Matches (state_parts H.content linked.now state.old) w
        → MadeOrNot result (state_parts H.content linked.now state.new) w (as_named (named_type linked.now.program) (new_object shape.entry)) }
    ensures runs { StateRuns linked.now state.new }
    ensures moved { OnlyMoved (view_of state.old) (view_of state.new) }
    ensures nursery { NewLie (λ p. H.nursery_of p nursery) (H.content state.old.heap) (H.content state.new.heap) }
{
    match state.heap.allocate_here(nursery, shape) {
        Ok(Some(place)) => Ok(place),
        Ok(None) => make_with_roots(alloc, linked, state, nursery, shape),
        Err(fault) => Err(halt_of(fault)),
    }
}

/// Makes an array and those below it with default values (JVMS 6.5 multianewarray), all or none, and
/// answers the place of the outermost one: the counts are those of the dimensions, the outermost first,
/// and its elements are of the component. The state is as it was, but that its objects may have moved.
/// All arrays lie in the nursery of the number, and no other object is new.
///
/// `Stopped`: the cells of what is reachable and those of all arrays pass the limit, or there would be
/// more than 2^63 objects (JVMS 2.5.3). `OutOfMemory`: a growth was refused. No array is made then.
pub fn make_arrays<H: Heap>(
    alloc: Global,
    linked: &Linked,
    state: &mut State<H>,
    nursery: usize,
    component: Component,
    counts: &[u32],
) -> Result<Place, Halt>
    requires runs { StateRuns linked.now state.old × (w : World) × Matches (state_parts H.content linked.now state.old) w }
    requires some { 0 < length counts.now }
    requires deep { length counts.now ≤ component.dimensions + 1 }
    ensures made { (w : World) → Matches (state_parts H.content linked.now state.old) w
        → MadeAllOrNot result (state_parts H.content linked.now state.new) w (map (as_named (named_type linked.now.program)) (tree (dimensions_of component counts.now) (length w.heap))) }
    ensures runs { StateRuns linked.now state.new }
    ensures moved { OnlyMoved (view_of state.old) (view_of state.new) }
    ensures nursery { NewLie (λ p. H.nursery_of p nursery) (H.content state.old.heap) (H.content state.new.heap) }
{
    let mut roots = gather(alloc, state)?;
    let made = jm_heap::make_arrays(
        alloc,
        &mut state.heap,
        nursery,
        &mut roots,
        component,
        counts,
    );
    put_back(state, &roots);
    match made {
        Ok(place) => Ok(place),
        Err(fault) => Err(halt_of(fault)),
    }
}

/// Gives up objects that nothing of the state reaches: all of them with `Full`, and with `Minor`
/// those that the heap chooses to look at. The state is as it was, but that its objects may have
/// moved. What becomes of the heap, and of the places that the state holds, is what the heap says that
/// a collection leaves. `AllocError`: a growth was refused, and the heap is as it was.
pub fn collect<H: Heap>(
    alloc: Global,
    linked: &Linked,
    state: &mut State<H>,
    kind: Kind,
) -> Result<(), AllocError>
    requires { StateRuns linked.now state.old × (w : World) × Matches (state_parts H.content linked.now state.old) w }
    ensures matches { (w : World) → Matches (state_parts H.content linked.now state.old) w → Matches (state_parts H.content linked.now state.new) w }
    ensures leaves { (w : World) → Matches (state_parts H.content linked.now state.old) w → OnOk result (LeavesReachable kind (H.content state.new.heap) w) }
    ensures word { OnOk result (H.leaves kind state.old.heap state.new.heap (places_of (view_of state.old)) (places_of (view_of state.new))) }
    ensures as_before { IsAsBefore (H.content state.old.heap) (H.content state.new.heap) }
    ensures err { OnErr result (H.content state.new.heap ≡ H.content state.old.heap) }
    ensures runs { StateRuns linked.now state.new }
    ensures moved { OnlyMoved (view_of state.old) (view_of state.new) }
{
    let mut roots = gather(alloc, state)?;
    let done = state.heap.collect(&mut roots, kind);
    put_back(state, &roots);
    done
}

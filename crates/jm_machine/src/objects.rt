// Many objects as readers tell them.

ghost use Rattle.std.specs.Prelude.{◌≡◌, length, IfSome, MatchOption, None, Some, slice_get};
ghost use Rattle.jm_machine.specs.ReachedObjects.{AreInOrder, numbered_cells, view_of_objects};

use crate::object::WorldObject;
use jm_heap::Heap;
use jm_linked::Linked;
use jm_values::Place;
use std::marker::Model;

/// An object with its number.
#[derive(Drop)]
pub struct NumberedObject<'a, H: Heap> {
    pub number: u64,
    pub object: WorldObject<'a, H>,
}

/// Objects as the world has them, in the order of their numbers. It borrows from the machine, and
/// has of each object its place alone.
#[derive(Drop)]
pub struct WorldObjects<'a, H: Heap> {
    heap: &'a H,
    linked: &'a Linked,
    places: Vec<Place>,
}

impl<'a, H: Heap> Model for WorldObjects<'a, H> {
    ghost use Rattle.jm_machine.specs.ReachedObjects.{AreInOrder, ObjectsView, view_of_objects};

    ghost Value = { ObjectsView };

    ghost view = { λ o. view_of_objects o.linked.now (H.content o.heap.now) o.places.items };

    ghost invariant = { λ o. AreInOrder (H.content o.heap.now) o.places.items };
}

impl<'a, H: Heap> WorldObjects<'a, H> {
    // The objects that lie at places of the heap.
    pub(crate) fn new(heap: &'a H, linked: &'a Linked, places: Vec<Place>) -> WorldObjects<'a, H>
        requires { AreInOrder (H.content heap.now) places.items }
        ensures { result ≡ view_of_objects linked.now (H.content heap.now) places.items }
    {
        WorldObjects {
            heap,
            linked,
            places,
        }
    }

    /// How many objects there are.
    pub fn len(&self) -> usize
        ensures { result ≡ length self.now.objects }
    {
        self.places.len()
    }

    /// The object of an index, from 0, with its number, if there is one.
    pub fn get(&self, index: usize) -> Option<NumberedObject<'a, H>>
        ensures object { MatchOption result (slice_get self.now.objects index ≡ None)
            (λ found. slice_get self.now.objects index ≡ Some (found.number, found.object.object)) }
        ensures program { IfSome result (λ found. found.object.program ≡ self.now.program) }
    {
        let place = *self.places.get(index)?;
        Some(NumberedObject {
            number: self.heap.serial(place),
            object: WorldObject::new(self.heap, self.linked, place),
        })
    }

    /// The cells of the objects together. It walks over them.
    pub fn cells(&self) -> u64
        ensures { result ≡ numbered_cells self.now.objects }
    {
        cells_at(self.heap, self.linked, &self.places)
    }
}

// The cells of the objects at places.
fn cells_at<H: Heap>(heap: &H, linked: &Linked, places: &[Place]) -> u64
    requires { AreInOrder (H.content heap.now) places.now }
    ensures { result ≡ numbered_cells (view_of_objects linked.now (H.content heap.now) places.now).objects }
{
    // they are among the residents, whose cells a heap counts below its limit
    let _most = heap.used();
    let mut total = 0;
    for place in places {
        total += WorldObject::new(heap, linked, *place).cells();
    }
    total
}

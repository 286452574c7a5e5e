// Static fields as readers tell them.

ghost use Rattle.std.specs.Prelude.{◌≡◌, None, length, option_map, slice_get};
ghost use Rattle.jm_values.specs.Rename.{stack_shape};
ghost use Rattle.jm_values.specs.Content.{AllResident};
ghost use Rattle.jm_world.specs.Loading.{first_statics};
ghost use Rattle.jm_machine.specs.Readers.{model_static};
ghost use Rattle.jm_machine.specs.Seen.{statics_seen};

use crate::static_fields::static_numbered;
use crate::value::{WorldValue, world_value};
use jm_heap::Heap;
use jm_linked::Linked;
use jm_program::{FieldType, Name};
use jm_values::Value;
use std::marker::Model;

/// A static field and its value.
#[derive(Clone, Copy)]
pub struct WorldStatic<'a> {
    /// The name of the class that declares it.
    pub class: &'a Name,
    pub name: &'a Name,
    pub descriptor: &'a FieldType,
    pub value: WorldValue,
}

/// The static fields, as the world has them: `System.out`, then those of the program's classes, in
/// order. References are numbers of objects. It borrows from the machine and copies nothing.
#[derive(Drop)]
pub struct WorldStatics<'a, H: Heap> {
    heap: &'a H,
    linked: &'a Linked,
    values: &'a [Value],
}

impl<'a, H: Heap> Model for WorldStatics<'a, H> {
    ghost use Rattle.std.specs.Prelude.{◌≡◌, List, length};
    ghost use Rattle.jm_values.specs.Rename.{stack_shape};
    ghost use Rattle.jm_values.specs.Content.{AllResident};
    ghost use Rattle.jm_world.specs.Loading.{first_statics};
    ghost use Rattle.jm_world.specs.World.{Static};
    ghost use Rattle.jm_machine.specs.Seen.{statics_seen};

    ghost Value = { List Static };

    ghost view = { λ s. statics_seen s.linked.now (H.content s.heap.now) s.values.now };

    ghost invariant = { λ s. (length s.values.now ≡ length (first_statics s.linked.now.program)) × AllResident (H.content s.heap.now) (stack_shape.refs s.values.now) };
}

impl<'a, H: Heap> WorldStatics<'a, H> {
    // The static fields with these values, whose references are places in the heap.
    pub(crate) fn new(heap: &'a H, linked: &'a Linked, values: &'a [Value]) -> WorldStatics<'a, H>
        requires many { length values.now ≡ length (first_statics linked.now.program) }
        requires resident { AllResident (H.content heap.now) (stack_shape.refs values.now) }
        ensures { result ≡ statics_seen linked.now (H.content heap.now) values.now }
    {
        WorldStatics {
            heap,
            linked,
            values,
        }
    }

    /// How many static fields there are.
    pub fn len(&self) -> usize
        ensures { result ≡ length self.now }
    {
        self.values.len()
    }

    /// The static field of a number, from 0, if there is one.
    pub fn get(&self, index: usize) -> Option<WorldStatic<'a>>
        ensures { option_map model_static result ≡ slice_get self.now index }
    {
        if index >= self.values.len() {
            return None;
        }
        let Some(found) = static_numbered(self.linked, index) else {
            return None;
        };
        let value = self.values[index];
        Some(WorldStatic {
            class: found.class,
            name: &found.field.name,
            descriptor: &found.field.descriptor,
            value: world_value(self.heap, value),
        })
    }
}

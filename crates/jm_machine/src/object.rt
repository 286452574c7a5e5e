// Objects as readers tell them.

ghost use Rattle.std.specs.Prelude.{◌≡◌, ℕ, length, option_map, slice_get, Some};
ghost use Rattle.jm_values.specs.Content.{IsSound, serial_at};
ghost use Rattle.jm_world.specs.Types.{instance_of};
ghost use Rattle.jm_world.specs.Objects.{size};
ghost use Rattle.jm_linked.specs.Links.{class_name_of};
ghost use Rattle.jm_state.specs.Parts.{named_type, element_named};
ghost use Rattle.jm_machine.specs.DeclaredFields.{name_of_declared};
ghost use Rattle.jm_machine.specs.Readers.{model_value, model_element, model_type, model_field};
ghost use Rattle.jm_machine.specs.Seen.{fields_of_type, field_seen, view_of_object};

use crate::class::class_name;
use crate::declared_field::DeclaredField;
use crate::instance_fields::instance_field;
use crate::value::{WorldValue, world_value};
use jm_heap::{ClassId, Element, Heap};
use jm_linked::Linked;
use jm_program::{BaseType, FieldType, Name};
use jm_values::Place;
use std::marker::Model;

/// What an array holds in its last dimension (JVMS 4.3.2): a primitive type, or a class or an
/// interface by its name in UTF-16 code units.
#[derive(Clone, Copy, PartialEq, Eq)]
pub enum ElementKind<'a> {
    Base(BaseType),
    Class(&'a [u16]),
}

/// The class of an instance by its name in UTF-16 code units, or the type of an array's elements
/// (JVMS 2.4), which have 0 dimensions where they are no arrays.
#[derive(Clone, Copy)]
pub enum ObjectKind<'a> {
    Instance {
        class: &'a [u16],
    },
    Array {
        dimensions: u8,
        element: ElementKind<'a>,
    },
}

/// A field of an object and its value (JVMS 2.5.3).
#[derive(Clone, Copy)]
pub struct WorldField<'a> {
    /// The name of the class that declares it.
    pub class: &'a Name,
    pub name: &'a Name,
    pub descriptor: &'a FieldType,
    pub value: WorldValue,
}

/// An object, as the world has it (JVMS 2.7): references are numbers of objects. It borrows from
/// the machine and copies nothing.
#[derive(Drop)]
pub struct WorldObject<'a, H: Heap> {
    heap: &'a H,
    linked: &'a Linked,
    place: Place,
}

impl<'a, H: Heap> Model for WorldObject<'a, H> {
    ghost use Rattle.std.specs.Prelude.{◌≡◌, ℕ, Some};
    ghost use Rattle.jm_values.specs.Content.{IsSound, serial_at};
    ghost use Rattle.jm_machine.specs.Seen.{ObjectView, view_of_object};

    ghost Value = { ObjectView };

    ghost view = { λ o. view_of_object o.linked.now (H.content o.heap.now) o.place };

    ghost invariant = { λ o. IsSound (H.content o.heap.now) × ((k : ℕ) × (serial_at (H.content o.heap.now) o.place ≡ Some k)) };
}

impl<'a, H: Heap> WorldObject<'a, H> {
    /// The object that lies at a place of the heap.
    pub(crate) fn new(heap: &'a H, linked: &'a Linked, place: Place) -> WorldObject<'a, H>
        requires sound { IsSound (H.content heap.now) }
        requires there { (k : ℕ) × (serial_at (H.content heap.now) place ≡ Some k) }
        ensures { result ≡ view_of_object linked.now (H.content heap.now) place }
    {
        WorldObject {
            heap,
            linked,
            place,
        }
    }

    /// Its class, or the type of its elements.
    pub fn kind(&self) -> ObjectKind<'a>
        ensures { model_type result ≡ self.now.object.type }
    {
        kind_of(self.linked, self.heap.class_of(self.place))
    }

    /// How many fields or elements it has.
    pub fn length(&self) -> u32
        ensures { result ≡ length self.now.object.values }
    {
        self.heap.length(self.place)
    }

    /// The cells that it takes: an instance 2 and one for each field, an array 3 and those of its
    /// elements, packed.
    pub fn cells(&self) -> u64
        ensures { result ≡ size self.now.object }
    {
        let class = self.heap.class_of(self.place);
        class.size(self.length() as u64)
    }

    /// The value of a field, of those of the topmost superclass first, in a class as declared, or
    /// of an element; None where there is none of that number.
    pub fn value(&self, index: u32) -> Option<WorldValue>
        ensures { option_map model_value result ≡ slice_get self.now.object.values index }
    {
        if index < self.heap.length(self.place) {
            let value = self.heap.get(self.place, index);
            Some(world_value(self.heap, value))
        } else {
            None
        }
    }

    /// The field of a number, of those of the topmost superclass first, in a class as declared; None
    /// past the fields, and of an array, which has none. It walks up the superclasses, over the
    /// fields of each.
    pub fn field(&self, index: u32) -> Option<WorldField<'a>>
        ensures { option_map model_field result ≡ field_seen self.now index }
    {
        let Some(value) = self.value(index) else {
            return None;
        };
        let Some(found) = field_of(self.linked, self.heap.class_of(self.place), index) else {
            return None;
        };
        Some(WorldField {
            class: found.class,
            name: &found.field.name,
            descriptor: &found.field.descriptor,
            value,
        })
    }
}

// What the elements are in their last dimension.
fn element_of(linked: &Linked, element: Element) -> ElementKind<'_>
    ensures { model_element result ≡ element_named linked.now.program element }
{
    match element {
        Element::Base(base) => ElementKind::Base(base),
        Element::Class(number) => ElementKind::Class(class_name(linked, number)),
    }
}

// The type of an object whose class or elements have these numbers.
fn kind_of(linked: &Linked, id: ClassId) -> ObjectKind<'_>
    ensures { model_type result ≡ named_type linked.now.program id }
{
    match id {
        ClassId::Instance(number) => ObjectKind::Instance {
            class: class_name(linked, number),
        },
        ClassId::Array(component) => ObjectKind::Array {
            dimensions: component.dimensions,
            element: element_of(linked, component.element),
        },
    }
}

// The field of a number among those of the instances of a class. No class is without a name (JVMS
// 4.2.1), so where no class has the number there is no field.
fn field_in_class(linked: &Linked, class: u32, index: u32) -> Option<DeclaredField<'_>>
    ensures { option_map name_of_declared result
        ≡ slice_get (fields_of_type linked.now.program (instance_of (class_name_of linked.now.program class))) index }
{
    if class_name(linked, class).is_empty() {
        return None;
    }
    instance_field(linked, class, index as usize)
}

// The field of a number among those of an object whose class or elements have these numbers.
fn field_of(linked: &Linked, id: ClassId, index: u32) -> Option<DeclaredField<'_>>
    ensures { option_map name_of_declared result ≡ slice_get (fields_of_type linked.now.program (named_type linked.now.program id)) index }
{
    match id {
        ClassId::Instance(number) => field_in_class(linked, number, index),
        ClassId::Array(_) => None,
    }
}

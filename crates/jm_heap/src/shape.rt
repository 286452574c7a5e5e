// What object is to be made.

ghost use Rattle.std.specs.Prelude.{◌≡◌, ◌<◌, ◌≤◌, ◌^◌, length, map, sum_by, MatchOption, IfSome};
ghost use Rattle.jm_values.specs.Objects.{size_by};
ghost use Rattle.jm_heap.specs.Cells.{class_size};
ghost use Rattle.jm_heap.specs.NewObject.{new_object, AreShort};
ghost use Rattle.jm_heap.specs.declared.class_id.ClassId.TheVariants.{Array};

use crate::class_id::{ClassId, Component};
use jm_program::OperandType;

/// An object that is to be made: an instance of a class, by its number, with the kinds of all its
/// fields, or an array of a length.
#[derive(Clone, Copy)]
pub enum Shape<'a> {
    Instance {
        class: u32,
        fields: &'a [OperandType],
    },
    Array {
        component: Component,
        length: u32,
    },
}

// The cells of an array of so many elements.
#[inline]
fn array_cells(component: Component, count: u32) -> u64
    ensures value { result ≡ class_size (Array component) count }
    ensures few { count < 2 ^ 32 }
{
    ClassId::Array(component).size(count as u64)
}

impl Shape<'_> {
    /// The class of the instance, or the type of the array.
    #[inline]
    #[tactic(auto, unfolding(crate::specs::NewObject::new_object))]
    pub fn class(self) -> ClassId
        ensures { result ≡ (new_object self.entry).type }
    {
        match self {
            Shape::Instance { class, .. } => ClassId::Instance(class),
            Shape::Array { component, .. } => ClassId::Array(component),
        }
    }

    /// The cells that the object takes. Where they are fewer than 2^32, its values are too.
    #[inline]
    #[tactic(auto, unfolding(crate::specs::NewObject::new_object))]
    pub fn cells(self) -> u64
        ensures value { result ≡ size_by class_size (new_object self.entry) }
        ensures short { result < 2 ^ 32 → length (new_object self.entry).values < 2 ^ 32 }
    {
        match self {
            Shape::Instance { class, fields } => ClassId::Instance(class).size(fields.len() as u64),
            Shape::Array { component, length } => array_cells(component, length),
        }
    }
}

/// The cells that the objects take together, where they do not pass a limit: it stops at the first
/// object that does. The values of each are then fewer than 2^32.
pub fn cells_of_all(shapes: &[Shape<'_>], limit: u32) -> Option<u64>
    ensures cells { let cells = sum_by (size_by class_size) (map new_object shapes.now) in MatchOption result (limit < cells) (λ n. (n ≡ cells) × (n ≤ limit)) }
    ensures short { IfSome result (λ n. AreShort (map new_object shapes.now)) }
{
    let mut cells = 0;
    for shape in shapes {
        let more = shape.cells();
        if more > limit as u64 - cells {
            return None;
        }
        cells += more;
    }
    Some(cells)
}

// Values as readers tell them.

ghost use Rattle.std.specs.Prelude.{◌≡◌, option_map};
ghost use Rattle.jm_values.specs.Rename.{rename, refs, value_shape};
ghost use Rattle.jm_values.specs.Shape.{option_shape};
ghost use Rattle.jm_values.specs.Content.{AllResident, name_of};
ghost use Rattle.jm_machine.specs.Readers.{model_value};

use jm_heap::Heap;
use jm_values::Value;

/// What a local variable, an operand, a field or an element holds (JVMS 2.11.1), as a reader of the
/// machine tells it: a reference is the number of its object, which stays when the object moves.
#[derive(Clone, Copy, PartialEq, Eq)]
pub enum WorldValue {
    Int(i32),
    Long(i64),
    Null,
    /// The object of this number, from 0.
    Ref(u64),
}

// A value whose reference is the place of an object of the heap.
pub(crate) fn world_value<H: Heap>(heap: &H, value: Value) -> WorldValue
    requires { AllResident (H.content heap.now) (refs value) }
    ensures { model_value result ≡ rename (name_of (H.content heap.now)) value }
{
    match value {
        Value::Int(number) => WorldValue::Int(number),
        Value::Long(number) => WorldValue::Long(number),
        Value::Null => WorldValue::Null,
        Value::Ref(place) => WorldValue::Ref(heap.serial(place)),
    }
}

// A local variable, set or not, whose reference is the place of an object of the heap.
pub(crate) fn world_local<H: Heap>(heap: &H, local: Option<Value>) -> Option<WorldValue>
    requires { AllResident (H.content heap.now) ((option_shape value_shape).refs local) }
    ensures { option_map model_value result ≡ (option_shape value_shape).rename (name_of (H.content heap.now)) local }
{
    match local {
        Some(value) => Some(world_value(heap, value)),
        None => None,
    }
}

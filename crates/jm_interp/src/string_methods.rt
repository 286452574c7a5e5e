// The built-in methods of a String (JVMS 6.5 invokevirtual).

ghost use Rattle.jm_values.specs.Shape.{Among};
ghost use Rattle.jm_world.specs.Matches.{places};
ghost use Rattle.jm_interp.specs.At.{parts_at, InMethod};
ghost use Rattle.jm_interp.specs.StringMethods.{LengthGives, CharGives};

use crate::arrays::{index_in, value_of};
use crate::at::At;
use crate::strings::{chars_of, unit_of};
use crate::top_object::Refusal;
use jm_builtins::BuiltInClass;
use jm_heap::Heap;
use jm_state::State;
use jm_values::{Place, TagFault, Value};

/// The methods of java/lang/String, by their numbers among those of the class.
pub(crate) const LENGTH: u32 = 0;

pub(crate) const CHAR_AT: u32 = 1;

/// The number of chars of the String at a place that the machine holds. `WrongKind`: the object is no
/// String. OutOfMemory: no int holds the number.
pub(crate) fn length_of<H: Heap>(
    at: At<'_>,
    state: &State<H>,
    string: Place,
) -> Result<Value, Refusal>
    requires here { InMethod H.content at state.now }
    requires held { Among string (places (parts_at H.content at state.now)) }
    ensures { LengthGives H.content at.entry state.now string result }
{
    let Some(chars) = chars_of(&state.heap, string) else {
        return Err(Refusal::Faults(TagFault::WrongKind));
    };
    match value_of(state.heap.length(chars)) {
        Some(length) => Ok(length),
        None => Err(Refusal::OutOfMemory),
    }
}

/// The char at an index of the String at a place that the machine holds. A negative index, or one past
/// the last char, throws StringIndexOutOfBoundsException. `WrongKind`: the object is no String.
pub(crate) fn char_at<H: Heap>(
    at: At<'_>,
    state: &State<H>,
    string: Place,
    index: i32,
) -> Result<Value, Refusal>
    requires here { InMethod H.content at state.now }
    requires held { Among string (places (parts_at H.content at state.now)) }
    ensures { CharGives H.content at.entry state.now string index result }
{
    let Some(chars) = chars_of(&state.heap, string) else {
        return Err(Refusal::Faults(TagFault::WrongKind));
    };
    let (_class, units) = state.heap.object(chars);
    match index_in(index, units.len() as u32) {
        Some(index) => Ok(unit_of(units, index as usize)),
        None => Err(Refusal::Throws(BuiltInClass::StringIndexOutOfBoundsException)),
    }
}

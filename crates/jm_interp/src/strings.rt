// The chars of a String (JVMS 2.4, 5.1).

ghost use Rattle.std.specs.Prelude.{◌≡◌, ◌<◌, ℕ, [], ◌∷◌, ◌++◌, IfOk, IfSome, MatchResult, Some, length, option_map, slice_get};
ghost use Rattle.jm_values.specs.Content.{AllResident, name_of, serial_at, object_at};
ghost use Rattle.jm_values.specs.Objects.{ObjectOf};
ghost use Rattle.jm_world.specs.Text.{units_of, utf8_text};
ghost use Rattle.jm_heap.specs.Elements.{elements};
ghost use Rattle.jm_heap.specs.declared.class_id.ClassId.{ClassId};
ghost use Rattle.jm_interp.specs.Characters.{Continues, IsHalf, Said, WritesUnits};
ghost use Rattle.jm_interp.specs.Strings.{is_string, chars_of, LiesAt, OfObject, StringGives, StringHalts};

use crate::characters::{char_of, write_end, write_unit};
use jm_builtins::BuiltInClass;
use jm_heap::{ClassId, Elements, Heap};
use jm_state::Halt;
use jm_values::{Place, TagFault, Value};
use jm_world::Stop;
use std::alloc::AllocError;

pub(crate) const STRING: u32 = BuiltInClass::String as u32;

// Whether an object is a String.
#[inline]
fn is_string(id: ClassId) -> bool
    ensures { result ≡ is_string id }
{
    match id {
        ClassId::Instance(class) => class == STRING,
        ClassId::Array(_) => false,
    }
}

// The array of the chars of the String at a place; none where the object is no String.
#[inline]
pub(crate) fn chars_of<H: Heap>(heap: &H, string: Place) -> Option<Place>
    requires { LiesAt (H.content heap.now) string }
    ensures chars { (k : ℕ) (o : ObjectOf ClassId) → serial_at (H.content heap.now) string ≡ Some k → object_at (H.content heap.now) k ≡ Some o
        → chars_of o ≡ option_map (name_of (H.content heap.now)) result }
    ensures resident { IfSome result (λ chars. AllResident (H.content heap.now) (chars ∷ [])) }
{
    let (class, elements) = heap.object(string);
    let Elements::Fields(values) = elements else {
        return None;
    };
    if !is_string(class) {
        return None;
    }
    match values.get(0) {
        Some(first) => match first {
            Value::Ref(chars) => Some(*chars),
            Value::Int(_) | Value::Long(_) | Value::Null => None,
        },
        None => None,
    }
}

/// One of the elements of an array of chars, or of whatever else stands in its place.
#[inline(always)]
pub(crate) fn unit_of(units: Elements<'_>, number: usize) -> Value
    requires { number < length (elements units) }
    ensures { slice_get (elements units.entry) number ≡ Some result }
{
    match units {
        Elements::Chars(units) => Value::Int(i32::from(units[number])),
        _ => units.get(number),
    }
}

// Writes the code unit of an element, if it is one, behind a first half that waits.
fn write_element(
    output: &mut Vec<u8>,
    half: Option<u16>,
    element: Value,
) -> Result<Option<u16>, AllocError>
    requires { IsHalf half }
    ensures behind { Continues output.old.items output.new.items }
    ensures half { IfOk result IsHalf }
    ensures text { IfOk result (WritesUnits output.old.items half (units_of (element ∷ [])) output.new.items) }
{
    match element {
        Value::Int(n) => write_unit(output, half, char_of(n)),
        Value::Long(_) | Value::Ref(_) | Value::Null => Ok(half),
    }
}

// Writes the text of the array of chars at a place. The one error is that memory was refused.
fn write_chars<H: Heap>(output: &mut Vec<u8>, heap: &H, array: Place) -> Result<(), AllocError>
    requires { LiesAt (H.content heap.now) array }
    ensures { MatchResult result
        (λ done. OfObject (H.content heap.now) array (λ o. output.new.items ≡ output.old.items ++ utf8_text (units_of o.values)))
        (λ e. Continues output.old.items output.new.items) }
{
    let mut half = None;
    let (_class, units) = heap.object(array);
    for index in 0..units.len() {
        half = match write_element(output, half, unit_of(units, index)) {
            Ok(half) => half,
            Err(refused) => return Err(refused),
        };
    }
    match write_end(output, half) {
        Ok(()) => Ok(()),
        Err(refused) => Err(refused),
    }
}

/// Writes the text of the String at a place, in UTF-8. `WrongKind`: the object is no String.
/// OutOfMemory: a growth was refused.
pub(crate) fn write_string<H: Heap>(
    output: &mut Vec<u8>,
    heap: &H,
    string: Place,
) -> Result<(), Halt>
    requires { LiesAt (H.content heap.now) string }
    ensures { MatchResult result
        (λ done. Said output.old.items output.new.items (StringGives (H.content heap.now) string))
        (λ halt. StringHalts (H.content heap.now) string halt × Continues output.old.items output.new.items) }
{
    let Some(chars) = chars_of(heap, string) else {
        return Err(Halt::Stopped(Stop::TagFault(TagFault::WrongKind)));
    };
    match write_chars(output, heap, chars) {
        Ok(()) => Ok(()),
        Err(_) => Err(Halt::OutOfMemory),
    }
}

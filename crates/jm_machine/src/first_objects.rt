// How the first objects are made: each becomes a root, so that object k lies at root k.

ghost use Rattle.std.specs.Prelude.{◌≡◌, ◌≤◌, ◌<◌, ◌-◌, ◌^◌, ◌∷◌, [], IfOk, OnOk, nat_lt, length, pos};
ghost use Rattle.jm_values.specs.declared.value.Value.TheVariants.{Int};
ghost use Rattle.jm_heap.specs.NewObject.{new_object};
ghost use Rattle.jm_heap.specs.Packing.{Fits};
ghost use Rattle.jm_heap.specs.declared.storage.Storage.TheVariants as kind;
ghost use Rattle.jm_machine.specs.Start.{IsEmpty};
ghost use Rattle.jm_machine.specs.FirstObjects.{Holds, HasRoomFor, Adds, Turns, HasLast, blank_chars, char_array, string_of, literal_objects};
ghost use Rattle.jm_machine.specs.FirstObjects.{first_objects, literal_cells, cells_of_all, AreStrings};

use crate::fault::OutOfMemory;
use jm_builtins::BuiltInClass;
use jm_heap::{Component, Element, Heap, HeapFault, Roots, Shape};
use jm_program::{BaseType, OperandType, Sequence, Shared};
use jm_values::{Place, Value};
use std::alloc::{AllocError, Global};

const STRING: u32 = BuiltInClass::String as u32;

const PRINT_STREAM: u32 = BuiltInClass::PrintStream as u32;

// What the array of a literal's chars holds.
const CHARS: Component = Component {
    dimensions: 0,
    element: Element::Base(BaseType::Char),
};

// The cells that the print stream of System.out and main's empty array take: an instance takes 2 and
// one for each field, an array 3 and those of its elements.
const FIRST_CELLS: u64 = 5;

// The cells that a literal takes beside those of its chars: 3 of its array, and 3 of its String.
const LITERAL_CELLS: u64 = 6;

// The cells of a literal.
fn literal_cells(text: &[u16]) -> u64
    ensures { result ≡ literal_cells text.now }
{
    LITERAL_CELLS + CHARS.cells(text.len() as u64)
}

/// Whether the first objects of a program with these literals pass a limit.
pub(crate) fn pass_limit(literals: &[Shared<Sequence<u16>>], limit: u64) -> bool
    ensures { result ≡ nat_lt limit (cells_of_all (first_objects literals.now)) }
{
    let Some(mut left) = limit.checked_sub(FIRST_CELLS) else {
        return true;
    };
    for text in literals {
        match left.checked_sub(literal_cells(text.as_slice())) {
            Some(rest) => left = rest,
            None => return true,
        }
    }
    false
}

// Makes an object, which becomes the last root.
fn make_object<H: Heap>(
    heap: &mut H,
    roots: &mut Roots,
    shape: Shape<'_>,
) -> Result<(), OutOfMemory>
    requires { HasRoomFor (H.content heap.old) roots.old (new_object shape ∷ []) }
    ensures { OnOk result (Adds (H.content heap.old) roots.old (H.content heap.new) roots.new (new_object shape.entry ∷ [])) }
{
    let place = match heap.allocate(0, roots, shape) {
        Ok(place) => place,
        Err(HeapFault::OutOfMemory) => return Err(OutOfMemory),
        Err(HeapFault::HeapFull) => unreachable!(),
        Err(HeapFault::SerialsEnd) => unreachable!(),
    };
    roots.push(place)?;
    Ok(())
}

// A char as a value (JVMS 2.3.1).
fn char_value(unit: u16) -> Value
    ensures value { result ≡ Int (pos unit) }
    ensures fits { Fits kind.Chars result }
{
    Value::Int(i32::from(unit))
}

// Sets the elements of the array that was made last.
fn set_units<H: Heap>(heap: &mut H, roots: &Roots, text: &[u16]) -> Result<(), AllocError>
    requires last { HasLast (H.content heap.old) roots.now (blank_chars text.now) }
    requires short { length text.now < 2 ^ 32 }
    ensures { OnOk result (Turns (H.content heap.old) (H.content heap.new) roots.now (blank_chars text.now) (char_array text.now)) }
{
    let chars = roots.get(roots.len() - 1);
    for (index, unit) in text.iter().enumerate() {
        heap.set(chars, index as u32, char_value(*unit))?;
    }
    Ok(())
}

// Makes the array of a literal's chars. OutOfMemory: a growth was refused, or there are 2^32 code
// units or more, which no array has.
fn make_chars<H: Heap>(heap: &mut H, roots: &mut Roots, text: &[u16]) -> Result<(), OutOfMemory>
    requires { HasRoomFor (H.content heap.old) roots.old (char_array text.now ∷ []) }
    ensures { OnOk result (Adds (H.content heap.old) roots.old (H.content heap.new) roots.new (char_array text.now ∷ [])) }
{
    let Ok(length) = u32::try_from(text.len()) else {
        return Err(OutOfMemory);
    };
    let array = Shape::Array {
        component: CHARS,
        length,
    };
    make_object(heap, roots, array)?;
    set_units(heap, roots, text)?;
    Ok(())
}

// Makes the String of the array that was made last.
fn make_string<H: Heap>(heap: &mut H, roots: &mut Roots) -> Result<(), OutOfMemory>
    requires room { HasRoomFor (H.content heap.old) roots.old (string_of 0 ∷ []) }
    requires some { 0 < length roots.old }
    ensures { OnOk result (Adds (H.content heap.old) roots.old (H.content heap.new) roots.new (string_of (length roots.old - 1) ∷ [])) }
{
    let last = roots.len() - 1;
    let string = Shape::Instance {
        class: STRING,
        fields: &[OperandType::Reference],
    };
    make_object(heap, roots, string)?;
    let chars = roots.get(last);
    let place = roots.get(roots.len() - 1);
    heap.set(place, 0, Value::Ref(chars))?;
    Ok(())
}

// Makes the array of a literal's chars and its String (JVMS 5.1).
fn make_literal<H: Heap>(heap: &mut H, roots: &mut Roots, text: &[u16]) -> Result<(), OutOfMemory>
    requires { HasRoomFor (H.content heap.old) roots.old (literal_objects 0 text.now) }
    ensures { OnOk result (Adds (H.content heap.old) roots.old (H.content heap.new) roots.new (literal_objects (length roots.old) text.now)) }
{
    make_chars(heap, roots, text)?;
    make_string(heap, roots)
}

/// Makes the first objects, in order, where they are within the limit: the places of all, of which
/// number k is that of object k. OutOfMemory: a growth was refused, or a literal has 2^32 code units
/// or more, which no array has.
pub(crate) fn make_first_objects<H: Heap>(
    alloc: Global,
    heap: &mut H,
    literals: &[Shared<Sequence<u16>>],
) -> Result<Roots, OutOfMemory>
    requires empty { IsEmpty (H.content heap.old) }
    requires room { cells_of_all (first_objects literals.now) ≤ (H.content heap.old).limit }
    requires small { (H.content heap.old).limit < 2 ^ 64 }
    ensures limit { OnOk result ((H.content heap.new).limit ≡ (H.content heap.old).limit) }
    ensures holds { IfOk result (λ roots. Holds (H.content heap.new) roots (first_objects literals.now)) }
{
    let mut roots = Roots::new(alloc);
    let stream = Shape::Instance {
        class: PRINT_STREAM,
        fields: &[],
    };
    make_object(heap, &mut roots, stream)?;
    let array = Shape::Array {
        component: Component {
            dimensions: 0,
            element: Element::Class(STRING),
        },
        length: 0,
    };
    make_object(heap, &mut roots, array)?;
    for text in literals {
        make_literal(heap, &mut roots, text.as_slice())?;
    }
    Ok(roots)
}

/// The places of the Strings of literals among those of the first objects, in order.
pub(crate) fn string_places(alloc: Global, roots: &Roots) -> Result<Vec<Place>, AllocError>
    requires { 2 ≤ length roots.now }
    ensures { IfOk result (λ strings. AreStrings roots.now strings.items) }
{
    let count = (roots.len() - 2) / 2;
    let mut strings = Vec::with_capacity(alloc, count)?;
    for number in 0..count {
        strings.push_reserved(roots.get(2 * number + 3));
    }
    Ok(strings)
}

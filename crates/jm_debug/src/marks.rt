// The places that hold a break, by number.

ghost use Rattle.std.specs.Prelude.{◌≡◌, IfOk};
ghost use Rattle.jm_machine.specs.CodePlaces.{name_of_code};
ghost use Rattle.jm_debug.specs.Answering.{AddsMarks, AreMarks, model_place};
ghost use Rattle.jm_debug.specs.Texts.{place_in};

use crate::breaks::is_same;
use crate::place::Place;
use crate::text::PlaceText;
use jm_heap::Heap;
use jm_machine::{CodeMethod, CodePlace, Machine};
use std::alloc::{AllocError, Global};

// An instruction of a method.
fn place_in<'a>(code: CodeMethod<'a>, instruction: u64) -> PlaceText<'a>
    ensures { model_place result ≡ place_in (name_of_code code.entry) instruction }
{
    PlaceText {
        class: &code.class.parts().name,
        method: &code.method.name,
        descriptor: &code.method.descriptor,
        instruction,
    }
}

// Puts the breaks that are set in the method of a number behind other places.
fn add_marks(
    marks: &mut Vec<CodePlace>,
    number: usize,
    code: CodeMethod<'_>,
    breaks: &[Place],
) -> Result<(), AllocError>
    ensures { IfOk result (λ _. AddsMarks marks.new.items marks.old.items number (name_of_code code.entry) breaks.now) }
{
    for place in breaks {
        if is_same(place_in(code, place.instruction), place) {
            marks.push(CodePlace {
                method: number,
                instruction: place.instruction as usize,
            })?;
        }
    }
    Ok(())
}

/// The places that hold a break, by the numbers of a machine's methods. Each method is compared with
/// each of them by name; where no break is set none is.
pub fn marks_of<H: Heap>(
    alloc: Global,
    machine: &Machine<H>,
    breaks: &[Place],
) -> Result<Vec<CodePlace>, AllocError>
    ensures { IfOk result (λ marks. AreMarks machine.now.linked breaks.now marks.items) }
{
    let mut marks = Vec::new(alloc);
    if breaks.is_empty() {
        return Ok(marks);
    }
    for number in 0..machine.methods() {
        add_marks(&mut marks, number, machine.method(number), breaks)?;
    }
    Ok(marks)
}

// The instructions that a program has.

ghost use Rattle.std.specs.Prelude.{◌≡◌, ◌&&◌, Some};
ghost use Rattle.jm_program.specs.Names.{same_text};
ghost use Rattle.jm_world.specs.Types.{same_method_type};
ghost use Rattle.jm_world.specs.Classes.{method_in};
ghost use Rattle.jm_debug.specs.Session.{has_instruction, is_place_of};

use crate::place::Place;
use jm_program::{Class, Method};

// Whether a method has code with an instruction of that number.
fn has_instruction(number: u64, method: &Method) -> bool
    ensures { result ≡ has_instruction number (Some method.now) }
{
    match &method.code {
        Some(code) => number < code.instructions.as_slice().len() as u64,
        None => false,
    }
}

// Whether a method is that of a place.
#[tactic(auto, using(crate::proofs::SamePlaces::same_descriptor))]
fn is_named(method: &Method, place: &Place) -> bool
    ensures { result ≡ (same_text method.now.name place.now.method && same_method_type method.now.descriptor place.now.descriptor) }
{
    method.name == place.method && method.descriptor == place.descriptor
}

// Whether one of the methods of a class has the instruction of a place.
fn has_place(methods: &[Method], place: &Place) -> bool
    ensures { result ≡ has_instruction place.now.instruction (method_in methods.now place.now.method place.now.descriptor) }
{
    for method in methods {
        if is_named(method, place) {
            return has_instruction(place.instruction, method);
        }
    }
    false
}

/// Whether a program has the instruction of a place. A built-in method has none.
pub fn is_place(program: &[Class], place: &Place) -> bool
    ensures { result ≡ is_place_of program.now place.now }
{
    for class in program {
        let parts = class.parts();
        if parts.name == place.class {
            return has_place(parts.methods.as_slice(), place);
        }
    }
    false
}

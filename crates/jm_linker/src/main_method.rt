// The method with which a run begins.

ghost use Rattle.std.specs.Prelude.{◌≡◌, ◌<◌, ◌∷◌, [], None, true, MatchOption, MatchResult, length, slice_get, codes, not};
ghost use Rattle.jm_world.specs.Classes.{method_in};
ghost use Rattle.jm_world.specs.Loading.{main_type, main_in, strings_type};
ghost use Rattle.jm_world.specs.Loads.{is_main, when, no_main};
ghost use Rattle.jm_world.specs.Types.{same_type, same_types};
ghost use Rattle.jm_linked.specs.Links.{coded_among};
ghost use Rattle.jm_linker.specs.Answers.{Answers, IsOutOfMemory};
ghost use Rattle.jm_linker.specs.LinkedMethods.{NumbersMain};
ghost use Rattle.jm_linker.specs.MainMethod.{is_main_method};

use crate::fault::LinkFault;
use crate::number::short_number;
use crate::types::returns_nothing;
use jm_program::{AccessFlags, Class, ElementType, FieldType, Method};

fn is_strings(field_type: &FieldType) -> bool
    ensures { result ≡ same_type field_type.now strings_type }
{
    field_type.dimensions == 1
        && match &field_type.element {
            ElementType::Base(_) => false,
            ElementType::Class(name) => name.is_string(),
        }
}

#[tactic(auto, using(crate::proofs::TypeLaws::same_types_one))]
fn are_main_parameters(types: &[FieldType]) -> bool
    ensures { result ≡ same_types types.now (strings_type ∷ []) }
{
    types.len() == 1 && is_strings(&types[0])
}

// Whether it is main by its name and type.
fn is_main_method(method: &Method) -> bool
    ensures { result ≡ is_main_method method.now }
{
    method.name.is_text(b"main")
        && are_main_parameters(method.descriptor.parameters.as_slice())
        && returns_nothing(&method.descriptor)
}

/// The number of `main([Ljava/lang/String;)V` among the methods of a class.
pub fn main_number(methods: &[Method]) -> Option<usize>
    ensures { MatchOption result (method_in methods.now (codes "main") main_type ≡ None) (λ n. (n < length methods.now) × (method_in methods.now (codes "main") main_type ≡ slice_get methods.now n)) }
{
    for (index, method) in methods.iter().enumerate() {
        if is_main_method(method) {
            return Some(index);
        }
    }
    None
}

/// Whether the first of the classes declares a static main with code.
pub fn has_main(program: &[Class]) -> bool
    ensures { result ≡ is_main (main_in program.now) }
{
    let Some(first) = program.first() else {
        return false;
    };
    let methods = first.parts().methods.as_slice();
    match main_number(methods) {
        None => false,
        Some(number) => {
            let main = &methods[number];
            main.flags.has(AccessFlags::STATIC) && main.code.is_some()
        }
    }
}

/// That the first class declares a static main with code.
pub fn check_main(program: &[Class]) -> Result<(), LinkFault>
    ensures { Answers result (when (not (is_main (main_in program.now))) no_main) }
{
    if has_main(program) {
        Ok(())
    } else {
        Err(LinkFault::NoMain)
    }
}

// How many of the methods have code.
fn count_coded(methods: &[Method]) -> usize
    ensures { result ≡ length (coded_among 0 0 methods.now) }
{
    let mut count = 0;
    for method in methods {
        if method.code.is_none() {
            continue;
        }
        count += 1;
    }
    count
}

/// The number of the first class's main among the methods with code of the program. The one error is
/// that more than 2^32 stand before it.
pub fn main_among_coded(program: &[Class]) -> Result<u32, LinkFault>
    requires { is_main (main_in program.now) ≡ true }
    ensures { MatchResult result (NumbersMain program.now) (λ fault. IsOutOfMemory fault) }
{
    let Some(first) = program.first() else {
        unreachable!()
    };
    let class = first.parts();
    let methods = class.methods.as_slice();
    let Some(number) = main_number(methods) else {
        unreachable!()
    };
    Ok(short_number(count_coded(&methods[..number]))?)
}

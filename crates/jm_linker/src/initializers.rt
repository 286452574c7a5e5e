// The initializers of classes, by number (JVMS 2.9).

ghost use Rattle.std.specs.Prelude.{◌≡◌, ◌<◌, None, IfOk, MatchOption, length, slice_get, codes};
ghost use Rattle.jm_world.specs.Classes.{method_in};
ghost use Rattle.jm_world.specs.Initialization.{initializer_type};
ghost use Rattle.jm_linked.specs.Tables.{AreInitializers, IsInitializer};

use crate::classes::Classes;
use jm_program::{AccessFlags, ClassParts, Method};
use std::alloc::{AllocError, Global};

// The number of `<clinit>()V` among methods.
fn clinit_number(methods: &[Method]) -> Option<usize>
    ensures { MatchOption result (method_in methods.now (codes "<clinit>") initializer_type ≡ None)
        (λ n. (n < length methods.now) × (method_in methods.now (codes "<clinit>") initializer_type ≡ slice_get methods.now n)) }
{
    for (index, method) in methods.iter().enumerate() {
        if method.is_class_initializer() {
            return Some(index);
        }
    }
    None
}

// The number of a class's initializer among its methods: `<clinit>()V`, which from version 51 on is
// static. The one error is that more than 2^32 methods stand before it.
fn initializer_number(class: &ClassParts) -> Result<Option<u32>, AllocError>
    ensures { IfOk result (IsInitializer class.now) }
{
    let methods = class.methods.as_slice();
    let Some(number) = clinit_number(methods) else {
        return Ok(None);
    };
    if class.version.major >= 51 && !methods[number].flags.has(AccessFlags::STATIC) {
        return Ok(None);
    }
    match u32::try_from(number) {
        Ok(short) => Ok(Some(short)),
        Err(_) => Err(AllocError),
    }
}

/// Of each of the program's classes the number of its initializer among its methods, if it has one.
/// The one error is that memory is refused.
pub fn initializers_of<'a>(
    alloc: Global,
    classes: &Classes<'a>,
) -> Result<Vec<Option<u32>>, AllocError>
    ensures { IfOk result (λ numbers. AreInitializers classes.now.program.now numbers.items) }
{
    let mut numbers = Vec::new(alloc);
    for class in classes.program {
        numbers.push(initializer_number(class.parts())?)?;
    }
    Ok(numbers)
}

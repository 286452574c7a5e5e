// The numbers of the methods with code among themselves.

ghost use Rattle.std.specs.Prelude.{◌≡◌, IfOk};
ghost use Rattle.jm_linked.specs.Methods.{code_numbers, numbered_codes};
ghost use Rattle.jm_linker.specs.Selectors.{found_methods};

use crate::classes::Classes;
use crate::selectors::ClassMethod;
use std::alloc::{AllocError, Global};

fn numbered_codes<'a>(
    alloc: Global,
    methods: &[ClassMethod<'a>],
) -> Result<Vec<Option<u32>>, AllocError>
    ensures { IfOk result (λ codes. codes.items ≡ numbered_codes 0 (found_methods methods.now)) }
{
    let mut codes = Vec::with_capacity(alloc, methods.len())?;
    let mut next: u32 = 0;
    for found in methods {
        if found.method.code.is_none() {
            codes.push(None)?;
            continue;
        }
        codes.push(Some(next))?;
        let Some(more) = next.checked_add(1) else {
            return Err(AllocError);
        };
        next = more;
    }
    Ok(codes)
}

/// Of each method, by its number among those of all classes, its number among those with code, or
/// none if it has no code. The one error is that memory is refused.
pub fn code_numbers<'a>(
    alloc: Global,
    classes: &Classes<'a>,
) -> Result<Vec<Option<u32>>, AllocError>
    ensures { IfOk result (λ codes. codes.items ≡ code_numbers classes.now.program.now) }
{
    let codes = numbered_codes(alloc, classes.methods())?;
    Ok(codes)
}

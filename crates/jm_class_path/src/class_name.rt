// The name of a class, as a user writes it.

ghost use Rattle.std.specs.Prelude.{◌≡◌, IfOk, map};
ghost use Rattle.jm_class_path.specs.Places.{slash_for_dot, written_name};

use jm_program::{Name, code_units};
use std::alloc::{AllocError, Global};

const DOT: u16 = 46;

const SLASH: u16 = 47;

fn slash_for_dot(unit: u16) -> u16
    ensures { result ≡ slash_for_dot unit }
{
    if unit == DOT { SLASH } else { unit }
}

fn with_slashes(alloc: Global, units: &[u16]) -> Result<Vec<u16>, AllocError>
    ensures { IfOk result (λ slashed. slashed.items ≡ map slash_for_dot units.now) }
{
    let mut slashed = Vec::with_capacity(alloc, units.len())?;
    for unit in units {
        slashed.push(slash_for_dot(*unit))?;
    }
    Ok(slashed)
}

/// The name of the class that a user writes as `its.name` or `its/name`.
pub fn written_name(alloc: Global, text: &str) -> Result<Name, AllocError>
    ensures { IfOk result (λ name. name ≡ written_name text.now) }
{
    let units = code_units(alloc, text)?;
    let slashed = with_slashes(alloc, &units)?;
    Ok(Name::new(slashed))
}

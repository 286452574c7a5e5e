// Where the file of a class lies below a folder.

ghost use Rattle.std.specs.Prelude.{◌≡◌, IfOk, string_bytes};
ghost use Rattle.std.specs.List.{list_all};
ghost use Rattle.jm_class_path.specs.Places.{is_file_part, is_file_unit, lead, path, stays_below};

use crate::utf8::Utf8;
use jm_program::{Name, is_text};
use std::alloc::{AllocError, Global};
use std::fmt::Write;

const SLASH: u16 = 47;

fn is_file_unit(unit: u16) -> bool
    ensures { result ≡ is_file_unit unit }
{
    !(unit < 32 || (127 <= unit && unit < 160))
}

fn are_file_units(units: &[u16]) -> bool
    ensures { result ≡ list_all is_file_unit units.now }
{
    units.iter().all(|unit| is_file_unit(*unit))
}

// Whether a part of a name can be one of a path that leads one folder down.
fn is_file_part(part: &[u16]) -> bool
    ensures { result ≡ is_file_part part.now }
{
    !part.is_empty() && !is_text(part, b".") && !is_text(part, b"..") && are_file_units(part)
}

/// Whether the file of a class of this name lies below a folder in which it is looked for: each part of
/// the name leads one folder down, and none has a control character.
pub fn stays_below(name: &Name) -> bool
    ensures { result ≡ stays_below name.now }
{
    name.units()
        .split(|unit| *unit == SLASH)
        .all(|part| is_file_part(part))
}

// A folder in front of what lies in it.
fn lead(alloc: Global, folder: &str) -> Result<String, AllocError>
    ensures { IfOk result (λ text. string_bytes text ≡ lead folder.now) }
{
    if folder.is_empty() {
        return Ok(String::new(alloc));
    }
    format!(in alloc; "{folder}/")
}

/// The path of the file of a class below a folder, with its ending. A folder of no letters is the one
/// that `jm` runs in.
#[tactic(auto, unfolding(crate::specs::Places::path))]
pub fn path_of(alloc: Global, folder: &str, name: &Name, ending: &str) -> Result<String, AllocError>
    ensures { IfOk result (λ text. string_bytes text ≡ path folder.now name.now ending.now) }
{
    let mut text = lead(alloc, folder)?;
    let name = Utf8(name.units());
    write!(text, "{name}{ending}")?;
    Ok(text)
}

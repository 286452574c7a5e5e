// The source of a class.

ghost use Rattle.std.specs.Prelude.{◌≡◌, ◌++◌, OnOk};
ghost use Rattle.std.specs.List.{flat_map};
ghost use Rattle.jm_page.specs.Escapes.{IsHarmless};
ghost use Rattle.jm_page.specs.Listings.{source_byte, source_rows};

use crate::escape::write_escaped;
use crate::row::{Row, write_row};
use jm_program::Name;
use std::alloc::{AllocError, Global};

/// The source of a class: the text of a file.
pub struct Source {
    pub class: Name,
    pub text: Vec<u8>,
}

// Written out, so that whoever lets go of one makes a call (docs/DECISIONS.md).
impl Drop for Source {
    fn drop(self) {
        let Source { class: _, text: _ } = self;
    }
}

// Writes the bytes of a source: a line feed ends a row, and the next one begins.
#[tactic(auto, unfolding(crate::specs::Listings::source_byte))]
fn write_source_bytes(out: &mut Vec<u8>, text: &[u8]) -> Result<(), AllocError>
    ensures { OnOk result (out.new.items ≡ out.old.items ++ flat_map source_byte text.now) }
{
    for byte in text {
        if *byte == 10 {
            out.extend_from_slice(&[10, 32])?;
        } else {
            write_escaped(out, &[*byte])?;
        }
    }
    Ok(())
}

/// Writes the source of a class, a row for each line. `AllocError`: a growth was refused; some of it may be written then.
#[tactic(auto, using(crate::proofs::HarmlessRows::source_harmless), unfolding(crate::specs::Listings::source_lines))]
pub fn write_source(alloc: Global, out: &mut Vec<u8>, source: &Source) -> Result<(), AllocError>
    ensures written { OnOk result (out.new.items ≡ out.old.items ++ source_rows source.now) }
    ensures harmless { IsHarmless (source_rows source.now) }
{
    let class = &source.class;
    let name = format!(in alloc; "{class}")?;
    write_row(out, Row::Source, name.as_bytes())?;
    out.extend_from_slice(&[32])?;
    write_source_bytes(out, &source.text)?;
    out.extend_from_slice(&[10])?;
    Ok(())
}

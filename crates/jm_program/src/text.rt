// Texts and their UTF-16 code units.

ghost use Rattle.std.specs.Prelude.{◌≡◌, ◌++◌, OnOk, IfOk};
ghost use Rattle.std.specs.Char.Escape.{encode_utf16};
ghost use Rattle.jm_program.specs.Names.{same_text};
ghost use Rattle.jm_program.specs.Texts.{utf16_of};

use std::alloc::{AllocError, Global};

/// The UTF-16 code units of a text.
pub fn code_units(alloc: Global, text: &str) -> Result<Vec<u16>, AllocError>
    ensures { IfOk result (λ v. v.items ≡ utf16_of text.now) }
{
    let mut units = Vec::with_capacity(alloc, text.len())?;
    for character in text.chars() {
        push_character(&mut units, character)?;
    }
    Ok(units)
}

// Puts the one or two code units of a character at the end.
fn push_character(units: &mut Vec<u16>, character: char) -> Result<(), AllocError>
    ensures { OnOk result (units.new.items ≡ units.old.items ++ encode_utf16 character) }
{
    let code = character as u32;
    if code < 0x1_0000 {
        units.push(code as u16)?;
    } else {
        let above = code - 0x1_0000;
        units.push((0xD800 + above / 0x400) as u16)?;
        units.push((0xDC00 + above % 0x400) as u16)?;
    }
    Ok(())
}

/// Whether the code units are those of an ASCII text.
pub fn is_text(units: &[u16], text: &[u8]) -> bool
    ensures { result ≡ same_text units.now text.now }
{
    if units.len() != text.len() {
        return false;
    }
    for (index, byte) in text.iter().enumerate() {
        if units[index] != u16::from(*byte) {
            return false;
        }
    }
    true
}

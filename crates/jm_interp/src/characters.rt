// Characters in UTF-8 behind what was written before, one code unit of UTF-16 after the other.

ghost use Rattle.std.specs.Prelude.{◌≡◌, ◌%◌, ◌^◌, ◌++◌, ◌∷◌, [], IfOk, MatchResult, encode_utf8};
ghost use Rattle.std.specs.Int.{w32, cast_unsigned};
ghost use Rattle.jm_world.specs.Text.{char_text, utf8_after};
ghost use Rattle.jm_interp.specs.Characters.{Continues, IsHalf, WritesUnits};

use jm_program::{is_high_surrogate, is_low_surrogate, supplementary_character};
use std::alloc::AllocError;

/// The char of an int: its low 16 bits.
pub(crate) fn char_of(n: i32) -> u16
    ensures { result ≡ cast_unsigned w32 n % 2 ^ 16 }
{
    (n.cast_unsigned() % 0x1_0000) as u16
}

// Writes a character. The one error is that memory was refused.
fn write_character(output: &mut Vec<u8>, character: char) -> Result<(), AllocError>
    ensures { MatchResult result (λ done. output.new.items ≡ output.old.items ++ encode_utf8 character) (λ e. output.new.items ≡ output.old.items) }
{
    let mut buffer = [0; 4];
    output.extend_from_slice(character.encode_utf8(&mut buffer).as_bytes())
}

// Writes a code unit that has no first half before it, or answers it where it is a first half itself.
fn write_alone(output: &mut Vec<u8>, unit: u16) -> Result<Option<u16>, AllocError>
    ensures behind { Continues output.old.items output.new.items }
    ensures half { IfOk result IsHalf }
    ensures text { IfOk result (WritesUnits output.old.items None (unit ∷ []) output.new.items) }
{
    if is_high_surrogate(unit) {
        return Ok(Some(unit));
    }
    let character = char::from_u32(u32::from(unit)).unwrap_or('?');
    match write_character(output, character) {
        Ok(()) => Ok(None),
        Err(refused) => Err(refused),
    }
}

/// Writes a code unit behind the first half that waits, if one does: the pair's character, or a
/// question mark for the lone half. A first half is answered, and waits.
pub(crate) fn write_unit(
    output: &mut Vec<u8>,
    half: Option<u16>,
    unit: u16,
) -> Result<Option<u16>, AllocError>
    requires { IsHalf half }
    ensures behind { Continues output.old.items output.new.items }
    ensures half { IfOk result IsHalf }
    ensures text { IfOk result (WritesUnits output.old.items half (unit ∷ []) output.new.items) }
{
    let Some(high) = half else {
        return write_alone(output, unit);
    };
    if is_low_surrogate(unit) {
        return match write_character(output, supplementary_character(high, unit)) {
            Ok(()) => Ok(None),
            Err(refused) => Err(refused),
        };
    }
    match write_character(output, '?') {
        Ok(()) => write_alone(output, unit),
        Err(refused) => Err(refused),
    }
}

/// Writes what a text ends with: a question mark for a first half that waits.
pub(crate) fn write_end(output: &mut Vec<u8>, half: Option<u16>) -> Result<(), AllocError>
    ensures { MatchResult result (λ done. output.new.items ≡ output.old.items ++ utf8_after half []) (λ e. output.new.items ≡ output.old.items) }
{
    match half {
        Some(_) => write_character(output, '?'),
        None => Ok(()),
    }
}

/// Writes the char of an int; half of a surrogate pair is a question mark.
pub(crate) fn write_char(output: &mut Vec<u8>, n: i32) -> Result<(), AllocError>
    ensures { MatchResult result (λ done. output.new.items ≡ output.old.items ++ char_text n) (λ e. Continues output.old.items output.new.items) }
{
    let half = write_alone(output, char_of(n))?;
    write_end(output, half)
}

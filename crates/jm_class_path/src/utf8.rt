// Code units of UTF-16 in UTF-8.

ghost use Rattle.std.specs.Prelude.{◌≡◌, ◌<◌, ◌++◌, [], length, Some, IfSome, MatchOption, encode_utf8};
ghost use Rattle.jm_world.specs.Text.{utf8_text};

use jm_program::{is_high_surrogate, is_low_surrogate, supplementary_character};
use std::fmt;
use std::fmt::Display;

// The first character of code units, with the units behind it; a lone half is a question mark.
fn first_character(units: &[u16]) -> Option<(char, &[u16])>
    ensures text { MatchOption result (units.now ≡ []) (λ first. utf8_text units.now ≡ encode_utf8 first.0 ++ utf8_text first.1.now) }
    ensures shorter { IfSome result (λ first. length first.1.now < length units.now) }
{
    match units {
        [] => None,
        [high, low, rest @ ..] if is_high_surrogate(*high) && is_low_surrogate(*low) => {
            Some((supplementary_character(*high, *low), rest))
        }
        [unit, rest @ ..] => {
            let character = char::from_u32(u32::from(*unit)).unwrap_or('?');
            Some((character, rest))
        }
    }
}

/// A text of UTF-16 code units: the chars of a String, or the name of a class.
#[derive(Clone, Copy)]
pub struct Utf8<'a>(pub &'a [u16]);

/// The text in UTF-8; a surrogate without its partner is a question mark.
impl Display for Utf8<'_> {
    ghost output = { λ text. Some (utf8_text text.0.now) };

    fn fmt<W: fmt::Write>(&self, f: &mut fmt::Formatter<W>) -> fmt::Result {
        let mut units = self.0;
        while let Some((character, rest)) = first_character(units) {
            f.write_char(character)?;
            units = rest;
        }
        Ok(())
    }
}

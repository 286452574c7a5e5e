// The value of a string (Jasmin User Guide, "Numbers and Strings").

ghost use Rattle.std.specs.Prelude.{◌≡◌, ◌<◌, ◌++◌, IfOk, OnOk};
ghost use Rattle.jm_jasmin_lex.specs.Literals.{hexadecimal_value, escaped_unit, part_after, units_at, units_of_literal, IsSmall};
ghost use Rattle.std.specs.Char.Escape.{encode_utf16};

use std::alloc::{AllocError, Global};

/// Where a character of a string stands.
#[derive(Clone, Copy)]
pub enum Part {
    /// It is the opening quote.
    Before,
    /// Between the quotes.
    Plain,
    /// Behind a backslash.
    Escape,
    /// It is the first digit behind `\u`.
    First,
    /// It is the second digit, behind one of this value.
    Second(u16),
    /// It is the third digit, behind digits of this value.
    Third(u16),
    /// It is the last digit, behind digits of this value.
    Fourth(u16),
    /// Behind the closing quote.
    Behind,
}

// The value of a hexadecimal digit.
#[tactic(auto, unfolding(crate::specs::Literals::hexadecimal_value))]
fn hexadecimal_value(character: char) -> u16
    ensures value { result ≡ hexadecimal_value character }
    ensures small { result < 16 }
{
    let code = character as u32;
    match code {
        0x30..=0x39 => (code - 0x30) as u16,
        0x41..=0x46 => (code - 0x37) as u16,
        0x61..=0x66 => (code - 0x57) as u16,
        _ => 0,
    }
}

// The code unit of an escape, by what stands behind its backslash.
#[tactic(auto, unfolding(crate::specs::Literals::escaped_unit))]
fn escaped_unit(character: char) -> u16
    ensures { result ≡ escaped_unit character }
{
    match character {
        'n' => 10,
        't' => 9,
        '"' => 34,
        _ => 92,
    }
}

// Where the next character stands.
#[tactic(auto, unfolding(crate::specs::Literals::part_after))]
fn part_after(part: Part, character: char) -> Part
    requires { IsSmall part }
    ensures value { result ≡ part_after part character }
    ensures small { IsSmall result }
{
    match part {
        Part::Before => Part::Plain,
        Part::Plain => match character {
            '"' => Part::Behind,
            '\\' => Part::Escape,
            _ => Part::Plain,
        },
        Part::Escape => match character {
            'u' => Part::First,
            _ => Part::Plain,
        },
        Part::First => Part::Second(hexadecimal_value(character)),
        Part::Second(value) => Part::Third(value * 16 + hexadecimal_value(character)),
        Part::Third(value) => Part::Fourth(value * 16 + hexadecimal_value(character)),
        Part::Fourth(_) => Part::Plain,
        Part::Behind => Part::Behind,
    }
}

// Puts the one or two code units of a character at the end.
fn push_character(units: &mut Vec<u16>, character: char) -> Result<(), AllocError>
    ensures { OnOk result (units.new.items ≡ units.old.items ++ encode_utf16 character) }
{
    let mut both = [0; 2];
    units.extend_from_slice(character.encode_utf16(&mut both))?;
    Ok(())
}

// Puts what a character gives at the end.
#[tactic(auto, unfolding(crate::specs::Literals::units_at))]
fn push_units(units: &mut Vec<u16>, part: Part, character: char) -> Result<(), AllocError>
    requires { IsSmall part }
    ensures { OnOk result (units.new.items ≡ units.old.items ++ units_at part character) }
{
    match part {
        Part::Plain => match character {
            '"' | '\\' => {}
            _ => push_character(units, character)?,
        },
        Part::Escape => match character {
            'u' => {}
            _ => units.push(escaped_unit(character))?,
        },
        Part::Fourth(value) => units.push(value * 16 + hexadecimal_value(character))?,
        _ => {}
    }
    Ok(())
}

/// The code units of a string as it is written, quotes and escapes included: a character's own, or
/// the one of its escape, up to the closing quote.
///
/// # Errors
/// [`AllocError`] where a growth was refused.
#[tactic(auto, unfolding(crate::specs::Literals::units_of_literal))]
pub fn literal(alloc: Global, text: &str) -> Result<Vec<u16>, AllocError>
    ensures { IfOk result (λ v. v.items ≡ units_of_literal text.now) }
{
    let mut units = Vec::new(alloc);
    let mut part = Part::Before;
    for character in text.chars() {
        push_units(&mut units, part, character)?;
        part = part_after(part, character);
    }
    Ok(units)
}

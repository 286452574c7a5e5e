// Code units in a line of Jasmin.

ghost use Rattle.std.specs.Prelude.{◌≡◌, IsTrue, Option, ℕ};
ghost use Rattle.std.specs.Fmt.{WritesOnOk};
ghost use Rattle.jm_program.specs.Surrogates.{is_high, is_low, is_surrogate};
ghost use Rattle.jm_program.specs.JasminUnits.{is_escaped, escape_text, unit_text, pair_text, lone_text, after_text, step_text, waits, text_from};

use crate::surrogate::{is_high_surrogate, is_low_surrogate, supplementary_character};
use std::fmt;
use std::fmt::Display;

/// What code units stand in.
#[derive(Clone, Copy, PartialEq, Eq)]
pub enum Context {
    InName,
    InString,
}

fn is_surrogate(unit: u16) -> bool
    ensures { result ≡ is_surrogate unit }
{
    is_high_surrogate(unit) || is_low_surrogate(unit)
}

fn is_escaped(place: Context, unit: u16) -> bool
    ensures { result ≡ is_escaped place unit }
{
    match place {
        Context::InName => {
            unit <= 32 || unit == 59 || unit == 92 || unit == 127 || is_surrogate(unit)
        }
        Context::InString => {
            unit < 32 || unit == 34 || unit == 92 || unit == 127 || is_surrogate(unit)
        }
    }
}

#[tactic(auto, unfolding(crate::specs::JasminUnits::escape_text))]
fn write_escape<W: fmt::Write>(f: &mut fmt::Formatter<W>, unit: u16) -> fmt::Result
    ensures { WritesOnOk W.write_str_gives f.old result (escape_text unit) f.new }
{
    let first = unit / 4096;
    let second = unit / 256 % 16;
    let third = unit / 16 % 16;
    let fourth = unit % 16;
    write!(f, "\\u{first:x}{second:x}{third:x}{fourth:x}")
}

#[tactic(auto, unfolding(crate::specs::JasminUnits::unit_text))]
fn write_unit<W: fmt::Write>(f: &mut fmt::Formatter<W>, place: Context, unit: u16) -> fmt::Result
    ensures { WritesOnOk W.write_str_gives f.old result (unit_text place unit) f.new }
{
    if is_escaped(place, unit) {
        return write_escape(f, unit);
    }
    match char::from_u32(u32::from(unit)) {
        Some(character) => f.write_char(character),
        None => write_escape(f, unit),
    }
}

// The supplementary character of two units.
#[tactic(auto, unfolding(crate::specs::JasminUnits::pair_text))]
fn write_pair<W: fmt::Write>(f: &mut fmt::Formatter<W>, high: u16, low: u16) -> fmt::Result
    requires high { IsTrue (is_high high) }
    requires low { IsTrue (is_low low) }
    ensures { WritesOnOk W.write_str_gives f.old result (pair_text high low) f.new }
{
    f.write_char(supplementary_character(high, low))
}

// The first unit that waited, if no second one came.
#[tactic(auto, unfolding(crate::specs::JasminUnits::lone_text))]
fn write_lone<W: fmt::Write>(f: &mut fmt::Formatter<W>, waiting: Option<u16>) -> fmt::Result
    ensures { WritesOnOk W.write_str_gives f.old result (lone_text waiting) f.new }
{
    match waiting {
        None => f.write_str(""),
        Some(high) => write_escape(f, high),
    }
}

#[tactic(auto, unfolding(crate::specs::JasminUnits::after_text))]
fn write_after<W: fmt::Write>(
    f: &mut fmt::Formatter<W>,
    place: Context,
    waiting: Option<u16>,
    unit: u16,
) -> fmt::Result
    requires { (high : ℕ) → waiting ≡ Some high → IsTrue (is_high high) }
    ensures { WritesOnOk W.write_str_gives f.old result (after_text place waiting unit) f.new }
{
    let Some(high) = waiting else {
        return write_unit(f, place, unit);
    };
    if is_low_surrogate(unit) {
        return write_pair(f, high, unit);
    }
    write_escape(f, high)?;
    write_unit(f, place, unit)
}

#[tactic(auto, unfolding(crate::specs::JasminUnits::step_text))]
fn write_step<W: fmt::Write>(
    f: &mut fmt::Formatter<W>,
    place: Context,
    waiting: Option<u16>,
    unit: u16,
) -> fmt::Result
    requires { (high : ℕ) → waiting ≡ Some high → IsTrue (is_high high) }
    ensures { WritesOnOk W.write_str_gives f.old result (step_text place waiting unit) f.new }
{
    if is_high_surrogate(unit) {
        write_lone(f, waiting)
    } else {
        write_after(f, place, waiting, unit)
    }
}

fn waits(unit: u16) -> Option<u16>
    ensures { result ≡ waits unit }
{
    if is_high_surrogate(unit) {
        Some(unit)
    } else {
        None
    }
}

/// Writes code units as they stand in such a place.
pub fn write_units<W: fmt::Write>(
    f: &mut fmt::Formatter<W>,
    place: Context,
    units: &[u16],
) -> fmt::Result
    ensures { WritesOnOk W.write_str_gives f.old result (text_from place None units.now) f.new }
{
    let mut waiting = None;
    for unit in units {
        write_step(f, place, waiting, *unit)?;
        waiting = waits(*unit);
    }
    write_lone(f, waiting)
}

/// The code units of a string.
#[derive(Clone, Copy)]
pub struct StringUnits<'a>(pub &'a [u16]);

/// The string as it stands between its quotes, with `\uXXXX` for a control character, `"`, `\` and
/// a surrogate without its partner.
impl Display for StringUnits<'_> {
    ghost use Rattle.std.specs.Prelude.{Some};
    ghost use Rattle.jm_program.specs.JasminUnits.{string_text};

    ghost output = { λ text. Some (string_text text.0.now) };

    fn fmt<W: fmt::Write>(&self, f: &mut fmt::Formatter<W>) -> fmt::Result {
        write_units(f, Context::InString, self.0)
    }
}

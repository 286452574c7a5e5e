// The name of a file in a line.

ghost use Rattle.std.specs.Prelude.{Some};
ghost use Rattle.std.specs.Fmt.{WritesOnOk};
ghost use Rattle.jm_program.specs.JasminUnits.{escape_text};
ghost use Rattle.jm_execute.specs.FileNames.{file_name_text, sign_text};

use std::fmt;
use std::fmt::Display;

// The character as `\uXXXX`. The last sixteen bits of it alone are shown.
#[tactic(auto, unfolding(jm_program::specs::JasminUnits::escape_text))]
fn write_escape<W: fmt::Write>(f: &mut fmt::Formatter<W>, character: u16) -> fmt::Result
    ensures { WritesOnOk W.write_str_gives f.old result (escape_text character) f.new }
{
    let first = character / 4096;
    let second = character / 256 % 16;
    let third = character / 16 % 16;
    let fourth = character % 16;
    write!(f, "\\u{first:x}{second:x}{third:x}{fourth:x}")
}

fn write_sign<W: fmt::Write>(f: &mut fmt::Formatter<W>, character: char) -> fmt::Result
    ensures { WritesOnOk W.write_str_gives f.old result (sign_text character) f.new }
{
    if character.is_control() {
        write_escape(f, character as u16)
    } else {
        f.write_char(character)
    }
}

fn write_signs<W: fmt::Write>(f: &mut fmt::Formatter<W>, name: &str) -> fmt::Result
    ensures { WritesOnOk W.write_str_gives f.old result (file_name_text name.now) f.new }
{
    for character in name.chars() {
        write_sign(f, character)?;
    }
    Ok(())
}

/// The name of a file as a line shows it, with `\uXXXX` for a control character.
#[derive(Clone, Copy)]
pub struct FileName<'a>(pub &'a str);

impl Display for FileName<'_> {
    ghost output = { λ name. Some (file_name_text name.0.now) };

    fn fmt<W: fmt::Write>(&self, f: &mut fmt::Formatter<W>) -> fmt::Result {
        write_signs(f, self.0)
    }
}

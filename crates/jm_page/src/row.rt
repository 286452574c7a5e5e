// The rows of the data that stand above the events, and the last one.

ghost use Rattle.std.specs.Prelude.{◌≡◌, ◌++◌, OnOk};
ghost use Rattle.jm_page.specs.Escapes.{IsHarmless};
ghost use Rattle.jm_page.specs.Data.{letter, line_of, row_text};

use crate::escape::write_escaped;
use std::alloc::AllocError;

/// What a row says.
#[derive(Clone, Copy)]
pub enum Row {
    /// The film's title.
    Title,
    /// A method, as a place of the debugger names it; its lines and instructions follow.
    Method,
    /// The line of the source of the instructions that follow.
    Line,
    /// An instruction of the method, or a line of the source.
    Instruction,
    /// A class whose source follows.
    Source,
    /// The film's end: `end`, or `cut` where the run goes on.
    End,
}

fn letter(row: Row) -> u8
    ensures { result ≡ letter row }
{
    match row {
        Row::Title => 61,
        Row::Method => 77,
        Row::Line => 64,
        Row::Instruction => 32,
        Row::Source => 83,
        Row::End => 46,
    }
}

/// Writes a line of a letter and a text.
#[tactic(auto, unfolding(crate::specs::Data::line_of))]
pub fn write_line(out: &mut Vec<u8>, first: u8, text: &[u8]) -> Result<(), AllocError>
    ensures { OnOk result (out.new.items ≡ out.old.items ++ line_of first text.now) }
{
    out.extend_from_slice(&[first])?;
    write_escaped(out, text)?;
    out.extend_from_slice(&[10])?;
    Ok(())
}

/// Writes a row. `AllocError`: a growth was refused; a part of the row may be written then.
#[tactic(auto, using(crate::proofs::Harmless::row_harmless))]
pub fn write_row(out: &mut Vec<u8>, row: Row, text: &[u8]) -> Result<(), AllocError>
    ensures written { OnOk result (out.new.items ≡ out.old.items ++ row_text row text.now) }
    ensures harmless { IsHarmless (row_text row text.now) }
{
    write_line(out, letter(row), text)
}

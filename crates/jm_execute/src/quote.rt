// A line of an assembler text, as it is quoted.

ghost use Rattle.std.specs.Prelude.{◌≡◌, ◌==◌, Some, position};
ghost use Rattle.std.specs.Fmt.{WritesOnOk};
ghost use Rattle.jm_execute.specs.Quotes.{behind_line, behind_lines, line_shown, quote, text_in, up_to};

use crate::file_name::FileName;
use std::fmt;
use std::fmt::Display;

// Where the first byte of this value is.
fn position_of(bytes: &[u8], value: u8) -> Option<usize>
    ensures { result ≡ position (λ byte. byte == value) bytes.now }
{
    bytes.iter().position(|byte| *byte == value)
}

/// The bytes in front of the first of this value.
pub(crate) fn up_to(bytes: &[u8], value: u8) -> &[u8]
    ensures { result.now ≡ up_to value bytes.now }
{
    match position_of(bytes, value) {
        Some(end) => &bytes[..end],
        None => bytes,
    }
}

// The bytes behind the first line.
fn behind_line(bytes: &[u8]) -> &[u8]
    ensures { result.now ≡ behind_line bytes.now }
{
    match position_of(bytes, b'\n') {
        Some(end) => &bytes[end + 1..],
        None => &[],
    }
}

// The bytes behind so many lines.
fn behind_lines(bytes: &[u8], lines: usize) -> &[u8]
    ensures { result.now ≡ behind_lines lines bytes.now }
{
    let mut rest = bytes;
    for _ in 0..lines {
        rest = behind_line(rest);
    }
    rest
}

// A line that is UTF-8, and nothing of another.
fn text_in(line: &[u8]) -> &str
    ensures { result.now ≡ text_in line.now }
{
    match str::from_utf8(line) {
        Ok(text) => text,
        Err(_) => "",
    }
}

fn write_line<W: fmt::Write>(f: &mut fmt::Formatter<W>, line: &[u8]) -> fmt::Result
    ensures { WritesOnOk W.write_str_gives f.old result (line_shown line.now) f.new }
{
    let text = text_in(line).trim();
    write!(f, "{}", FileName(text))
}

/// The line of this number of a text, counted from 1, without the blanks at its ends.
#[derive(Clone, Copy)]
pub(crate) struct Quote<'a> {
    pub line: usize,
    pub text: &'a [u8],
}

impl Display for Quote<'_> {
    ghost output = { λ q. Some (quote q.line q.text.now) };

    fn fmt<W: fmt::Write>(&self, f: &mut fmt::Formatter<W>) -> fmt::Result {
        let rest = behind_lines(self.text, self.line.saturating_sub(1));
        write_line(f, up_to(rest, b'\n'))
    }
}

// What a byte is to the reading of a text, and where the reading stands.

ghost use Rattle.std.specs.Prelude.{◌≡◌, ◌+◌, ◌∷◌, ◌≤◌, ◌<◌, ◌^◌, length, drop};
ghost use Rattle.jm_jasmin_lex.specs.Signs.{sign_of, signs, opened, in_text, in_escape, in_digits, step};
ghost use Rattle.jm_jasmin_lex.specs.Tokens.{next_line};

use crate::token::TokenKind;

/// What a byte is, wherever it stands.
#[derive(Clone, Copy)]
pub enum Sign {
    /// A blank, a tab, or a carriage return right before a line feed.
    Blank,
    /// A line feed, or the end of the text.
    LineEnd,
    /// Any other byte.
    Other(u8),
}

/// Where the reading stands. A word or a string has the offset at which it began.
#[derive(Clone, Copy, PartialEq, Eq)]
pub enum LexerState {
    /// At the start of a line, or behind a blank.
    Between,
    /// In a comment.
    Comment,
    /// In a word.
    Word(usize),
    /// In a string.
    Text(usize),
    /// Behind the backslash of a string's escape.
    Escape(usize),
    /// In a string's escape, with so many hexadecimal digits still to come.
    Digits(usize, u8),
    /// Behind the closing quote of a string.
    Closed(usize),
}

/// What a sign leads to.
#[derive(Clone, Copy)]
pub enum Step {
    /// The reading goes on.
    To(LexerState),
    /// The token that began at this offset ends before the sign.
    Ends(TokenKind, usize),
    /// The sign cannot stand there.
    Bad,
}

// What a byte is that stands before these.
#[tactic(auto, unfolding(crate::specs::Signs::sign_of))]
fn sign_of(byte: u8, rest: &[u8]) -> Sign
    ensures { result ≡ sign_of byte rest.now }
{
    match byte {
        b'\n' => Sign::LineEnd,
        b' ' | b'\t' => Sign::Blank,
        b'\r' => before_line_feed(rest),
        _ => Sign::Other(byte),
    }
}

// What a carriage return is that stands before these.
#[tactic(auto, unfolding(crate::specs::Signs::sign_of))]
fn before_line_feed(rest: &[u8]) -> Sign
    ensures { result ≡ sign_of 13 rest.now }
{
    match rest {
        [b'\n', ..] => Sign::Blank,
        _ => Sign::Other(b'\r'),
    }
}

/// The sign at an offset of a text, whose end ends its last line.
pub fn sign_at(bytes: &[u8], at: usize) -> Sign
    requires { at ≤ length bytes.now }
    ensures { drop at (signs bytes.now) ≡ result ∷ drop (at + 1) (signs bytes.now) }
{
    match bytes[at..].split_first() {
        Some((byte, rest)) => sign_of(*byte, rest),
        None => Sign::LineEnd,
    }
}

// A word, a string or a comment begins.
#[tactic(auto, unfolding(crate::specs::Signs::opened))]
fn opened(at: usize, byte: u8) -> LexerState
    ensures { result ≡ opened at byte }
{
    match byte {
        b';' => LexerState::Comment,
        b'"' => LexerState::Text(at),
        _ => LexerState::Word(at),
    }
}

// A string goes on, is closed, or has an escape.
#[tactic(auto, unfolding(crate::specs::Signs::in_text))]
fn in_text(start: usize, byte: u8) -> LexerState
    ensures { result ≡ in_text start byte }
{
    match byte {
        b'"' => LexerState::Closed(start),
        b'\\' => LexerState::Escape(start),
        _ => LexerState::Text(start),
    }
}

#[tactic(auto, unfolding(crate::specs::Signs::in_escape))]
fn in_escape(start: usize, byte: u8) -> Step
    ensures { result ≡ in_escape start byte }
{
    match byte {
        b'n' | b't' | b'"' | b'\\' => Step::To(LexerState::Text(start)),
        b'u' => Step::To(LexerState::Digits(start, 4)),
        _ => Step::Bad,
    }
}

#[tactic(auto, unfolding(crate::specs::Signs::in_digits))]
fn in_digits(start: usize, left: u8, byte: u8) -> Step
    ensures { result ≡ in_digits start left byte }
{
    if !byte.is_ascii_hexdigit() {
        return Step::Bad;
    }
    if left <= 1 {
        Step::To(LexerState::Text(start))
    } else {
        Step::To(LexerState::Digits(start, left - 1))
    }
}

/// What a sign at an offset leads to, by where it stands.
#[tactic(auto, unfolding(crate::specs::Signs::step))]
pub fn step_at(at: usize, state: LexerState, sign: Sign) -> Step
    ensures { result ≡ step at state sign }
{
    match state {
        LexerState::Between => match sign {
            Sign::Other(byte) => Step::To(opened(at, byte)),
            Sign::Blank | Sign::LineEnd => Step::To(LexerState::Between),
        },
        LexerState::Comment => match sign {
            Sign::Other(_) | Sign::Blank => Step::To(LexerState::Comment),
            Sign::LineEnd => Step::To(LexerState::Between),
        },
        LexerState::Word(start) => match sign {
            Sign::Other(_) => Step::To(LexerState::Word(start)),
            Sign::Blank | Sign::LineEnd => Step::Ends(TokenKind::Word, start),
        },
        LexerState::Text(start) => match sign {
            Sign::Other(byte) => Step::To(in_text(start, byte)),
            Sign::Blank => Step::To(LexerState::Text(start)),
            Sign::LineEnd => Step::Bad,
        },
        LexerState::Escape(start) => match sign {
            Sign::Other(byte) => in_escape(start, byte),
            Sign::Blank | Sign::LineEnd => Step::Bad,
        },
        LexerState::Digits(start, left) => match sign {
            Sign::Other(byte) => in_digits(start, left, byte),
            Sign::Blank | Sign::LineEnd => Step::Bad,
        },
        LexerState::Closed(start) => match sign {
            Sign::Other(_) => Step::Bad,
            Sign::Blank | Sign::LineEnd => Step::Ends(TokenKind::Text, start),
        },
    }
}

/// The line of what follows a sign.
#[tactic(auto, unfolding(crate::specs::Tokens::next_line))]
pub fn next_line(sign: Sign, line: usize) -> usize
    requires { line + 1 < 2 ^ 64 }
    ensures { result ≡ next_line sign line }
{
    match sign {
        Sign::LineEnd => line + 1,
        Sign::Blank | Sign::Other(_) => line,
    }
}

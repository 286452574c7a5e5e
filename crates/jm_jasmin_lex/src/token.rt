// Tokens, with their spans and lines.

ghost use Rattle.std.specs.Prelude.{◌≡◌};

use std::marker::Model;

/// What a token is.
#[derive(Clone, Copy)]
pub enum TokenKind {
    /// A word: a directive, a mnemonic, a label, a name or a number.
    Word,
    /// A string between quotes.
    Text,
}

/// A word or a string of a text. In a contract it is its parts: what it is, the bytes of its text,
/// the offset of the first of them, and the line.
#[derive(Drop)]
pub struct Token<'a> {
    kind: TokenKind,
    text: &'a str,
    start: usize,
    line: usize,
}

impl<'a> Model for Token<'a> {
    ghost use Rattle.jm_jasmin_lex.specs.Token.{TokenParts};

    ghost Value = { TokenParts };

    ghost view = { λ t. record { kind = t.kind; text = t.text.now; start = t.start; line = t.line } };
}

impl<'a> Token<'a> {
    /// The token of these parts.
    pub fn new(kind: TokenKind, text: &'a str, start: usize, line: usize) -> Token<'a>
        ensures { result ≡ record { kind = kind; text = text.now; start = start; line = line } }
    {
        Token {
            kind,
            text,
            start,
            line,
        }
    }

    /// Whether it is a word or a string.
    pub fn kind(&self) -> TokenKind
        ensures { result ≡ self.now.kind }
    {
        self.kind
    }

    /// The text as written, with the quotes and the escapes of a string.
    pub fn text(&self) -> &'a str
        ensures { result.now ≡ self.now.text }
    {
        self.text
    }

    /// The offset of its first byte in the whole text.
    pub fn start(&self) -> usize
        ensures { result ≡ self.now.start }
    {
        self.start
    }

    /// The line that it stands in, counted from 1.
    pub fn line(&self) -> usize
        ensures { result ≡ self.now.line }
    {
        self.line
    }
}

/// The tokens of a text up to the first that is none, and the line of that one. In a contract it
/// is a record of the two.
#[derive(Drop)]
pub struct Lexed<'a> {
    tokens: Vec<Token<'a>>,
    bad_line: Option<usize>,
}

impl<'a> Model for Lexed<'a> {
    ghost use Rattle.jm_jasmin_lex.specs.Token.{LexedParts};

    ghost Value = { LexedParts };

    ghost view = { λ l. record { tokens = l.tokens.items; bad_line = l.bad_line } };
}

impl<'a> Lexed<'a> {
    /// These tokens, and the line of what follows them and is no token.
    pub fn new(tokens: Vec<Token<'a>>, bad_line: Option<usize>) -> Lexed<'a>
        ensures { result ≡ record { tokens = tokens.entry.items; bad_line = bad_line } }
    {
        Lexed { tokens, bad_line }
    }

    /// The tokens, in order.
    pub fn tokens(&self) -> &[Token<'a>]
        ensures { result.now ≡ self.now.tokens }
    {
        &self.tokens
    }

    /// The tokens as a `Vec`.
    pub fn into_tokens(self) -> Vec<Token<'a>>
        ensures { result.items ≡ self.entry.tokens }
    {
        self.tokens
    }

    /// The line of the first thing that is no token, counted from 1; none where all are.
    pub fn bad_line(&self) -> Option<usize>
        ensures { result ≡ self.now.bad_line }
    {
        self.bad_line
    }
}

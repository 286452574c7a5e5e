// The lines of a text, one after the other (Jasmin User Guide, "Jasmin Syntax").

ghost use Rattle.std.specs.Prelude.{◌≡◌, length, drop, option_copied, slice_get, Some};
ghost use Rattle.std.specs.Option.{option_map};
ghost use Rattle.jm_program.specs.Names.{same_text};
ghost use Rattle.jm_jasmin_lex.specs.Lines.{first_line};
ghost use Rattle.jm_jasmin.specs.Lines.{is_word_kind, is_word, is_word_at, begins, line_at, line_number, misplaced_by, misplaced};

use jm_jasmin_lex::{Token, TokenKind, line_of};
use jm_jasmin_ops::{AsmFault, unknown_word};
use std::marker::Model;

/// The tokens of the lines that are left. In a contract it is their list.
#[derive(Drop)]
pub struct Lines<'t, 'a> {
    rest: &'t [Token<'a>],
}

impl<'t, 'a> Model for Lines<'t, 'a> {
    ghost use Rattle.std.specs.Prelude.{List};
    ghost use Rattle.jm_jasmin_lex.specs.Token.{TokenParts};

    ghost Value = { List TokenParts };

    ghost view = { λ l. l.rest.now };
}

impl<'t, 'a> Lines<'t, 'a> {
    pub fn new(tokens: &'t [Token<'a>]) -> Lines<'t, 'a>
        ensures { result ≡ tokens.now }
    {
        Lines { rest: tokens }
    }

    /// The tokens that are left.
    pub fn tokens(&self) -> &'t [Token<'a>]
        ensures { result.now ≡ self.now }
    {
        self.rest
    }

    /// How many tokens are left.
    pub fn len(&self) -> usize
        ensures { result ≡ length self.now }
    {
        self.rest.len()
    }

    /// The tokens of the next line.
    #[tactic(auto, using(crate::proofs::Rest::behind_line))]
    pub fn next_line(&mut self) -> &'t [Token<'a>]
        ensures line { result.now ≡ (first_line self.old).0 }
        ensures rest { self.new ≡ (first_line self.old).1 }
    {
        let line = self.line();
        self.skip(line.len());
        line
    }

    /// The tokens of the next line, which stays.
    #[tactic(auto, unfolding(jm_jasmin_lex::specs::Lines::first_line))]
    pub fn line(&self) -> &'t [Token<'a>]
        ensures { result.now ≡ (first_line self.now).0 }
    {
        let (line, _) = line_of(self.rest);
        line
    }

    /// Leaves out so many tokens.
    pub fn skip(&mut self, count: usize)
        ensures { self.new ≡ drop count self.old }
    {
        self.rest = behind(self.rest, count);
    }

    /// Whether the next line begins with the word.
    #[tactic(auto, unfolding(crate::specs::Lines::begins))]
    pub fn begins(&self, word: &str) -> bool
        ensures { result ≡ begins word.now self.now }
    {
        is_word_at(self.rest, 0, word)
    }

    /// The fault of the next line, which its place does not have: 46 where it begins with a
    /// directive that the profile leaves out, or else 41.
    #[tactic(auto, unfolding(crate::specs::Lines::misplaced))]
    pub fn misplaced(&self) -> AsmFault
        ensures { result ≡ misplaced self.now }
    {
        match self.rest.first() {
            None => AsmFault::Syntax(0),
            Some(token) => misplaced_by(token),
        }
    }

    /// The number of the next line.
    pub fn line_number(&self) -> usize
        ensures { result ≡ line_number self.now }
    {
        line_number(self.rest)
    }
}

fn misplaced_by(token: &Token<'_>) -> AsmFault
    ensures { result ≡ misplaced_by token.now.kind token.now }
{
    match token.kind() {
        TokenKind::Word => unknown_word(token.line(), token.text()),
        TokenKind::Text => AsmFault::Syntax(token.line()),
    }
}

// The tokens behind the first so many.
fn behind<'t, 'a>(tokens: &'t [Token<'a>], count: usize) -> &'t [Token<'a>]
    ensures { result.now ≡ drop count tokens.now }
{
    let count = count.min(tokens.len());
    let (_, rest) = tokens.split_at(count);
    rest
}

pub fn same_text(text: &str, word: &str) -> bool
    ensures { result ≡ same_text text.now word.now }
{
    text == word
}

pub fn is_word_token(token: &Token<'_>) -> bool
    ensures { result ≡ is_word_kind token.now.kind }
{
    match token.kind() {
        TokenKind::Word => true,
        TokenKind::Text => false,
    }
}

/// Whether the token at a place of a line is the word.
pub fn is_word_at(line: &[Token<'_>], index: usize, word: &str) -> bool
    ensures { result ≡ is_word_at word.now (slice_get line.now index) }
{
    match line.get(index) {
        None => false,
        Some(token) => is_word_token(token) && same_text(token.text(), word),
    }
}

/// The number of the line of the first token.
#[tactic(auto, unfolding(crate::specs::Lines::line_number))]
pub fn line_number(tokens: &[Token<'_>]) -> usize
    ensures { result ≡ line_number tokens.now }
{
    match tokens.first() {
        None => 0,
        Some(token) => token.line(),
    }
}

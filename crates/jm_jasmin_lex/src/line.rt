// The lines of a list of tokens.

ghost use Rattle.std.specs.Prelude.{◌≡◌, ◌+◌, ◌<◌, ◌≤◌, ◌==◌, length};
ghost use Rattle.std.specs.List.{prefix_len};
ghost use Rattle.jm_jasmin_lex.specs.Lines.{line_len, first_line};

use crate::token::Token;

// How many of the tokens at the front stand in a line.
fn count_in(tokens: &[Token<'_>], line: usize) -> usize
    ensures value { result ≡ prefix_len (λ t. t.line == line) tokens.now }
    ensures few { result ≤ length tokens.now }
{
    let mut count = 0;
    for token in tokens {
        if token.line() != line {
            return count;
        }
        count += 1;
    }
    count
}

// How many of the tokens stand in the first one's line.
#[tactic(auto, unfolding(crate::specs::Lines::line_len))]
fn line_len(tokens: &[Token<'_>]) -> usize
    ensures value { result ≡ line_len tokens.now }
    ensures few { result ≤ length tokens.now }
    ensures some { 0 < length tokens.now → 0 < result }
{
    match tokens.split_first() {
        None => 0,
        Some((first, rest)) => 1 + count_in(rest, first.line()),
    }
}

/// The tokens of the first token's line, and the tokens behind them.
#[tactic(auto, unfolding(crate::specs::Lines::first_line))]
pub fn line_of<'t, 'a>(tokens: &'t [Token<'a>]) -> (&'t [Token<'a>], &'t [Token<'a>])
    ensures line { result.0.now ≡ (first_line tokens.now).0 }
    ensures rest { result.1.now ≡ (first_line tokens.now).1 }
    ensures all { length result.0.now + length result.1.now ≡ length tokens.now }
    ensures some { 0 < length tokens.now → 0 < length result.0.now }
{
    tokens.split_at(line_len(tokens))
}

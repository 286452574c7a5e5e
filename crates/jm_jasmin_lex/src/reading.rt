// The tokens of a text, in one pass over its bytes.

ghost use Rattle.std.specs.Prelude.{◌≡◌, IfOk};
ghost use Rattle.jm_bytes.specs.Reading.{GivesAll};
ghost use Rattle.jm_jasmin_lex.specs.declared.fault.LexFault.TheVariants.{OutOfMemory};
ghost use Rattle.jm_jasmin_lex.specs.Tokens.{lexed_of, tokens_of};

use crate::fault::LexFault;
use crate::lexer_state::{LexerState, Step, next_line, sign_at, step_at};
use crate::token::{Lexed, Token};
use std::alloc::{AllocError, Global};

/// The tokens of a text up to the first thing that is none, and the line of that one.
///
/// # Errors
/// [`AllocError`] where a growth was refused.
pub fn lexed<'a>(alloc: Global, text: &'a str) -> Result<Lexed<'a>, AllocError>
    ensures { IfOk result (λ l. l ≡ lexed_of text.now) }
{
    let bytes = text.as_bytes();
    let mut tokens = Vec::new(alloc);
    let mut state = LexerState::Between;
    let mut line = 1;
    for at in 0..bytes.len() + 1 {
        let sign = sign_at(bytes, at);
        match step_at(at, state, sign) {
            Step::To(next) => state = next,
            Step::Ends(kind, start) => {
                tokens.push(Token::new(kind, &text[start..at], start, line))?;
                state = LexerState::Between;
            }
            Step::Bad => return Ok(Lexed::new(tokens, Some(line))),
        }
        line = next_line(sign, line);
    }
    Ok(Lexed::new(tokens, None))
}

/// The tokens of a text: its words, which blanks, tabs and line ends part, and its strings. A `;`
/// opens a comment at the start of a line and behind a blank or a tab.
///
/// # Errors
/// [`LexFault::BadToken`] with the line of the first string that its line does not close, escape
/// other than `\n \t \" \\ \uXXXX`, or closing quote with something right behind it.
/// [`LexFault::OutOfMemory`] where a growth was refused.
#[tactic(auto, unfolding(crate::specs::Tokens::tokens_of, crate::specs::Tokens::all_or_bad))]
pub fn tokens<'a>(alloc: Global, text: &'a str) -> Result<Vec<Token<'a>>, LexFault>
    ensures { GivesAll (λ v. v.items) OutOfMemory result (tokens_of text.now) }
{
    let lexed = lexed(alloc, text)?;
    match lexed.bad_line() {
        None => Ok(lexed.into_tokens()),
        Some(line) => Err(LexFault::BadToken(line)),
    }
}

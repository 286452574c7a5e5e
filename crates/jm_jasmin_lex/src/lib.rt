//! The words and strings of an assembler text (Jasmin User Guide, "Tokens", "Comments", "Numbers and
//! Strings"), with their spans and lines.
//!
//! [`lexed`] and [`tokens`] give exactly the tokens of the definitions in `specs/`, which are those
//! that a grammar derives: each is the text at its span, and only blanks, line ends and comments
//! stand between. [`line_of`] parts them into lines, and [`literal`] and [`integer`] give the values
//! of a string and of a number. The crate stands on `jm_bytes`, `thiserror` and std alone; lexing is
//! one pass that takes memory for the list of tokens and for nothing else.
#![tactic(auto)]

mod fault;
mod laws;
mod lexer_state;
mod line;
mod number;
mod reading;
mod string;
mod token;

pub use fault::LexFault;
pub use laws::{literal_by_rules, tokens_of_the_grammar};
pub use line::line_of;
pub use number::integer;
pub use reading::{lexed, tokens};
pub use string::literal;
pub use token::{Lexed, Token, TokenKind};

// The words of a line after its mnemonic, in order (Jasmin User Guide, "Tokens").

ghost use Rattle.std.specs.Prelude.{◌≡◌};
ghost use Rattle.jm_bytes.specs.Reading.{TakesAll};
ghost use Rattle.jm_jasmin_ops.specs.Words.{word, label_named, label, first, ended};

use crate::fault::{AsmFault, AsmLeftOut};
use crate::labelled::Label;
use crate::profile::{has_colon, is_offset};
use jm_jasmin_lex::{Token, TokenKind};

/// The text of a word; a string is none.
#[tactic(auto, unfolding(crate::specs::Words::word))]
pub fn word<'a>(token: &Token<'a>) -> Result<&'a str, AsmFault>
    ensures { TakesAll (λ text. text.now) result (word token.now) }
{
    match token.kind() {
        TokenKind::Word => Ok(token.text()),
        TokenKind::Text => Err(AsmFault::Syntax(token.line())),
    }
}

// The label of a name, which is no number and holds no colon.
fn label_named<'a>(line: usize, name: &'a str) -> Result<Label<'a>, AsmFault>
    ensures { TakesAll (λ label. label) result (label_named line name.now) }
{
    if is_offset(name) {
        Err(AsmFault::LeftOut(AsmLeftOut::Offset, line))
    } else if has_colon(name) {
        Err(AsmFault::Syntax(line))
    } else {
        Ok(Label::new(name, line))
    }
}

/// The use of a label, as the target of a branch or a switch.
#[tactic(auto, unfolding(crate::specs::Words::label))]
pub fn label<'a>(token: &Token<'a>) -> Result<Label<'a>, AsmFault>
    ensures { TakesAll (λ label. label) result (label token.now) }
{
    let name = word(token)?;
    label_named(token.line(), name)
}

/// The next token of a line, and those after it.
pub fn first<'t, 'a>(
    line: usize,
    words: &'t [Token<'a>],
) -> Result<(&'t Token<'a>, &'t [Token<'a>]), AsmFault>
    ensures { TakesAll (λ x. (x.0.now, x.1.now)) result (first line words.now) }
{
    match words.split_first() {
        Some((token, rest)) => Ok((token, rest)),
        None => Err(AsmFault::Syntax(line)),
    }
}

/// The value, where no token is left.
pub fn ended<T: Drop>(words: &[Token<'_>], value: T) -> Result<T, AsmFault>
    ensures { TakesAll (λ x. x) result (ended words.now value) }
{
    match words.first() {
        None => Ok(value),
        Some(token) => Err(AsmFault::Syntax(token.line())),
    }
}

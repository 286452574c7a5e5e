// The operands of a directive's line (Jasmin User Guide, "Jasmin Assembler Directives").

ghost use Rattle.std.specs.Prelude.{◌≡◌, ◌≤◌, OnOk, length};
ghost use Rattle.jm_bytes.specs.Reading.{TakesAll};
ghost use Rattle.jm_jasmin.specs.Words.{word_text, operand, with_length, with_length_from, only_operand, unsigned_short, short_operand, flag_named, not_a_flag, flag_of, flags_from, flags_before};

use crate::lines::{is_word_token, line_number, same_text};
use jm_class_format::LeftOutPart;
use jm_jasmin_lex::{Token, integer};
use jm_jasmin_ops::{AsmFault, AsmLeftOut};
use jm_program::AccessFlags;

// The text of a token that has to be a word.
fn word_text<'a>(token: &Token<'a>) -> Result<&'a str, AsmFault>
    ensures { TakesAll (λ text. text.now) result (word_text token.now) }
{
    if is_word_token(token) {
        Ok(token.text())
    } else {
        Err(AsmFault::Syntax(token.line()))
    }
}

/// The word at a place of a line, the directive at 0.
#[tactic(auto, unfolding(crate::specs::Words::operand))]
pub fn operand<'a>(line: &[Token<'a>], index: usize) -> Result<&'a str, AsmFault>
    ensures { TakesAll (λ text. text.now) result (operand line.now index) }
{
    match line.get(index) {
        None => Err(AsmFault::Syntax(line_number(line))),
        Some(token) => word_text(token),
    }
}

/// So many words with the directive.
#[tactic(auto, unfolding(crate::specs::Words::with_length))]
pub fn with_length(line: &[Token<'_>], count: usize) -> Result<(), AsmFault>
    ensures { TakesAll (λ x. x) result (with_length line.now count) }
{
    if line.len() == count {
        Ok(())
    } else {
        Err(AsmFault::Syntax(line_number(line)))
    }
}

/// At least so many words with the directive.
#[tactic(auto, unfolding(crate::specs::Words::with_length_from))]
pub fn with_length_from(line: &[Token<'_>], count: usize) -> Result<(), AsmFault>
    ensures exact { TakesAll (λ x. x) result (with_length_from line.now count) }
    ensures long { OnOk result (count ≤ length line.now) }
{
    if count <= line.len() {
        Ok(())
    } else {
        Err(AsmFault::Syntax(line_number(line)))
    }
}

/// The one operand of a line.
#[tactic(auto, unfolding(crate::specs::Words::only_operand))]
pub fn only_operand<'a>(line: &[Token<'a>]) -> Result<&'a str, AsmFault>
    ensures { TakesAll (λ text. text.now) result (only_operand line.now) }
{
    with_length(line, 2)?;
    operand(line, 1)
}

fn unsigned_short(line: usize, number: Option<i64>) -> Result<u16, AsmFault>
    ensures { TakesAll (λ n. n) result (unsigned_short line number) }
{
    match number {
        Some(number) if (0..=65_535).contains(&number) => Ok(number as u16),
        _ => Err(AsmFault::Syntax(line)),
    }
}

/// The integer from 0 to 65,535 at a place of a line.
#[tactic(auto, unfolding(crate::specs::Words::short_operand))]
pub fn short_operand(line: &[Token<'_>], index: usize) -> Result<u16, AsmFault>
    ensures { TakesAll (λ n. n) result (short_operand line.now index) }
{
    let text = operand(line, index)?;
    unsigned_short(line_number(line), integer(text))
}

// The bit of a flag (JVMS 4.1, 4.5, 4.6).
#[tactic(auto, unfolding(crate::specs::Words::flag_named))]
fn flag_named(word: &str) -> Option<u16>
    ensures { result ≡ flag_named word.now }
{
    if same_text(word, "public") {
        Some(AccessFlags::PUBLIC)
    } else if same_text(word, "private") {
        Some(AccessFlags::PRIVATE)
    } else if same_text(word, "protected") {
        Some(AccessFlags::PROTECTED)
    } else if same_text(word, "static") {
        Some(AccessFlags::STATIC)
    } else if same_text(word, "final") {
        Some(AccessFlags::FINAL)
    } else if same_text(word, "synchronized") {
        Some(AccessFlags::SYNCHRONIZED)
    } else if same_text(word, "volatile") {
        Some(AccessFlags::VOLATILE)
    } else if same_text(word, "transient") {
        Some(AccessFlags::TRANSIENT)
    } else if same_text(word, "abstract") {
        Some(AccessFlags::ABSTRACT)
    } else {
        None
    }
}

// Native is left out.
#[tactic(auto, unfolding(crate::specs::Words::not_a_flag))]
fn not_a_flag(line: usize, word: &str) -> AsmFault
    ensures { result ≡ not_a_flag line word.now }
{
    if same_text(word, "native") {
        AsmFault::LeftOut(AsmLeftOut::Part(LeftOutPart::Native), line)
    } else {
        AsmFault::Syntax(line)
    }
}

#[tactic(auto, unfolding(crate::specs::Words::flag_of))]
fn flag_of(token: &Token<'_>) -> Result<u16, AsmFault>
    ensures { TakesAll (λ mask. mask) result (flag_of token.now) }
{
    let word = word_text(token)?;
    match flag_named(word) {
        Some(mask) => Ok(mask),
        None => Err(not_a_flag(token.line(), word)),
    }
}

// The flags that some words are, beside some bits.
#[tactic(auto, using(crate::proofs::Flags::flag_steps))]
fn flags_from(bits: u16, words: &[Token<'_>]) -> Result<u16, AsmFault>
    ensures { TakesAll (λ bits. bits) result (flags_from bits words.now) }
{
    let mut all = bits;
    for word in words {
        let mask = flag_of(word)?;
        all |= mask;
    }
    Ok(all)
}

/// The flags beside some bits that the words between the directive and the one at an index are.
#[tactic(auto, unfolding(crate::specs::Words::flags_before))]
pub fn flags_before(bits: u16, line: &[Token<'_>], index: usize) -> Result<AccessFlags, AsmFault>
    requires some { 1 ≤ index }
    requires within { index ≤ length line.now }
    ensures { TakesAll (λ flags. flags.bits) result (flags_before bits line.now index) }
{
    let (front, _) = line.split_at(index);
    let (_, words) = front.split_at(1);
    let bits = flags_from(bits, words)?;
    Ok(AccessFlags { bits })
}

// The lines of a switch (Jasmin User Guide, "Instructions": lookupswitch and tableswitch; JVMS
// 6.5).

ghost use Rattle.std.specs.Prelude.{◌≡◌, ◌+◌, ◌<◌, ◌≤◌, ◌^◌, ◌+ℤ◌, pos, int_lt, List, [], length, drop};
ghost use Rattle.jm_bytes.specs.Reading.{GivesAll, TakesAll};
ghost use Rattle.jm_program.specs.Instructions.{is_above};
ghost use Rattle.jm_jasmin_lex.specs.Lines.{first_line};
ghost use Rattle.jm_jasmin_ops.specs.declared.fault.AsmFault.TheVariants.{OutOfMemory};
ghost use Rattle.jm_jasmin_ops.specs.Switches.{lines_of, line_number, is_word_of, keyed_row, row_of, table_of, with_target, table_step, table_rows, last_key, with_pair, lookup_step, lookup_rows};

use crate::fault::AsmFault;
use crate::labelled::{Label, LabelledLookup, LabelledPair, LabelledTable};
use crate::numbers::signed_int;
use crate::row::{LookupStep, Row, TableStep};
use crate::words::{label, word};
use jm_jasmin_lex::{Token, line_of};
use jm_program::Sequence;
use std::alloc::Global;

/// The number of a line, counted from 1.
fn line_number(line: &[Token<'_>]) -> usize
    ensures { result ≡ line_number line.now }
{
    match line.first() {
        None => 0,
        Some(token) => token.line(),
    }
}

fn is_word_of(text: &str, token: &Token<'_>) -> Result<bool, AsmFault>
    ensures { TakesAll (λ b. b) result (is_word_of text.now token.now) }
{
    let found = word(token)?;
    Ok(found == text)
}

// `default : L` or `KEY : L`.
#[tactic(auto, unfolding(crate::specs::Switches::keyed_row))]
fn keyed_row<'a>(
    key: &Token<'a>,
    colon: &Token<'a>,
    target: &Token<'a>,
) -> Result<Row<'a>, AsmFault>
    ensures { TakesAll (λ row. row) result (keyed_row key.now colon.now target.now) }
{
    let is_default = is_word_of("default", key)?;
    let is_colon = is_word_of(":", colon)?;
    let target = label(target)?;
    if !is_colon {
        return Err(AsmFault::Syntax(key.line()));
    }
    if is_default {
        return Ok(Row::Default(target));
    }
    let number = signed_int(key)?;
    Ok(Row::Pair(number, target))
}

// What a line below a switch says.
#[tactic(auto, unfolding(crate::specs::Switches::row_of))]
fn row_of<'a>(line: &[Token<'a>]) -> Result<Row<'a>, AsmFault>
    ensures { TakesAll (λ row. row) result (row_of line.now) }
{
    match line {
        [target] => {
            let target = label(target)?;
            Ok(Row::Target(target))
        }
        [key, colon, target] => keyed_row(key, colon, target),
        _ => Err(AsmFault::Syntax(line_number(line))),
    }
}

// The line that begins at a token.
fn line_at<'t, 'a>(tokens: &'t [Token<'a>], at: usize) -> &'t [Token<'a>]
    requires { at < length tokens.now }
    ensures line { result.now ≡ (first_line (drop at tokens.now)).0 }
    ensures room { at + length result.now ≤ length tokens.now }
    ensures some { 0 < length result.now }
{
    let (line, _) = line_of(&tokens[at..]);
    line
}

// ---- tableswitch

// The table of the targets, of which there is one at least.
fn table_of<'a>(
    low: i32,
    targets: Sequence<Label<'a>>,
    default: Label<'a>,
) -> Result<LabelledTable<'a>, AsmFault>
    ensures { TakesAll (λ t. t) result (table_of low targets.entry default.entry) }
{
    if targets.as_slice().is_empty() {
        return Err(AsmFault::BadCount(default.line()));
    }
    Ok(LabelledTable {
        low,
        targets,
        default,
    })
}

// Whether the key of the next target is an int.
fn has_room(low: i32, count: usize) -> bool
    ensures { result ≡ int_lt (low +ℤ pos count) (pos 2147483648) }
{
    let room = i64::from(i32::MAX) - i64::from(low) + 1;
    count < room as usize
}

// One more target, whose key is an int.
fn with_target<'a>(
    low: i32,
    targets: Sequence<Label<'a>>,
    target: Label<'a>,
) -> Result<Sequence<Label<'a>>, AsmFault>
    ensures { GivesAll (λ targets. targets) OutOfMemory result (with_target low targets.entry target.entry) }
{
    if !has_room(low, targets.as_slice().len()) {
        return Err(AsmFault::BadCount(target.line()));
    }
    let mut targets = targets.into_vec();
    targets.push(target)?;
    Ok(Sequence::new(targets))
}

// What a line says to the targets before it.
#[tactic(auto, unfolding(crate::specs::Switches::table_step))]
fn table_step<'a>(
    low: i32,
    targets: Sequence<Label<'a>>,
    line: &[Token<'a>],
) -> Result<TableStep<'a>, AsmFault>
    ensures { GivesAll (λ step. step) OutOfMemory result (table_step low targets.entry line.now) }
{
    match row_of(line)? {
        Row::Target(target) => {
            let more = with_target(low, targets, target)?;
            Ok(TableStep::More(more))
        }
        Row::Default(default) => {
            let table = table_of(low, targets, default)?;
            Ok(TableStep::Done(table))
        }
        Row::Pair(_, _) => Err(AsmFault::Syntax(line_number(line))),
    }
}

/// The table of the lines that begin the tokens, behind as many tokens, and how many tokens it
/// takes with them.
#[tactic(auto, using(crate::proofs::Rows::table_steps))]
pub fn table_rows<'a>(
    alloc: Global,
    low: i32,
    line: usize,
    words: usize,
    tokens: &[Token<'a>],
) -> Result<(LabelledTable<'a>, usize), AsmFault>
    requires { words + length tokens.now < 2 ^ 64 }
    ensures { GivesAll (λ x. (x.0, x.1)) OutOfMemory result (table_rows low line [] words (lines_of tokens.now)) }
{
    let mut targets = Sequence::new(Vec::new(alloc));
    let mut last = line;
    let mut at = 0;
    while at < tokens.len() {
        let row = line_at(tokens, at);
        last = line_number(row);
        at += row.len();
        targets = match table_step(low, targets, row)? {
            TableStep::More(more) => more,
            TableStep::Done(table) => return Ok((table, words + at)),
        };
    }
    Err(AsmFault::Syntax(last))
}

// ---- lookupswitch

fn last_key(pairs: &[LabelledPair<'_>]) -> Option<i32>
    ensures { result ≡ last_key pairs.now }
{
    pairs.last().map(|pair| pair.key)
}

fn is_above(previous: Option<i32>, key: i32) -> bool
    ensures { result ≡ is_above previous key }
{
    match previous {
        None => true,
        Some(previous) => previous < key,
    }
}

// One more pair, whose key is above the one before it.
fn with_pair<'a>(
    pairs: Sequence<LabelledPair<'a>>,
    key: i32,
    target: Label<'a>,
) -> Result<Sequence<LabelledPair<'a>>, AsmFault>
    ensures { GivesAll (λ pairs. pairs) OutOfMemory result (with_pair pairs.entry key target.entry) }
{
    if !is_above(last_key(pairs.as_slice()), key) {
        return Err(AsmFault::BadCount(target.line()));
    }
    let mut pairs = pairs.into_vec();
    pairs.push(LabelledPair { key, target })?;
    Ok(Sequence::new(pairs))
}

// What a line says to the pairs before it.
#[tactic(auto, unfolding(crate::specs::Switches::lookup_step))]
fn lookup_step<'a>(
    pairs: Sequence<LabelledPair<'a>>,
    line: &[Token<'a>],
) -> Result<LookupStep<'a>, AsmFault>
    ensures { GivesAll (λ step. step) OutOfMemory result (lookup_step pairs.entry line.now) }
{
    match row_of(line)? {
        Row::Pair(key, target) => {
            let more = with_pair(pairs, key, target)?;
            Ok(LookupStep::More(more))
        }
        Row::Default(default) => Ok(LookupStep::Done(LabelledLookup { pairs, default })),
        Row::Target(_) => Err(AsmFault::Syntax(line_number(line))),
    }
}

/// The pairs of the lines that begin the tokens, behind as many tokens, and how many tokens they
/// take with them.
#[tactic(auto, using(crate::proofs::Rows::lookup_steps))]
pub fn lookup_rows<'a>(
    alloc: Global,
    line: usize,
    words: usize,
    tokens: &[Token<'a>],
) -> Result<(LabelledLookup<'a>, usize), AsmFault>
    requires { words + length tokens.now < 2 ^ 64 }
    ensures { GivesAll (λ x. (x.0, x.1)) OutOfMemory result (lookup_rows line [] words (lines_of tokens.now)) }
{
    let mut pairs = Sequence::new(Vec::new(alloc));
    let mut last = line;
    let mut at = 0;
    while at < tokens.len() {
        let row = line_at(tokens, at);
        last = line_number(row);
        at += row.len();
        pairs = match lookup_step(pairs, row)? {
            LookupStep::More(more) => more,
            LookupStep::Done(lookup) => return Ok((lookup, words + at)),
        };
    }
    Err(AsmFault::Syntax(last))
}

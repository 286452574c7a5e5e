// The lines of a method's body (Jasmin User Guide, "Method Definitions", "Labels", "Jasmin Assembler Directives").

ghost use Rattle.std.specs.Prelude.{◌≡◌, ◌<◌, ◌^◌, IfOk, slice_get, codes};
ghost use Rattle.jm_bytes.specs.Reading.{GivesAll, TakesAll};
ghost use Rattle.jm_jasmin_ops.specs.declared.fault.AsmFault.TheVariants.{OutOfMemory};
ghost use Rattle.jm_jasmin.specs.Lines.{Reads};
ghost use Rattle.jm_jasmin.specs.Items.{limit_line, line_line, throws_line, catch_type_at, has_catch_words, catch_line, ends_with_colon, is_label, is_label_line, without_last, label_line, instruction_lines, label_or_instruction, item_at};

use crate::lines::{Lines, is_word_at, is_word_token, line_number};
use crate::symbols::{class_name_at, units_at};
use crate::words::{only_operand, short_operand, with_length};
use jm_jasmin_lex::Token;
use jm_jasmin_ops::{AsmFault, LabelledInstr, instruction};
use jm_program::{LineNumber, Name};
use std::alloc::Global;

const COLON: u8 = 58;

/// A row of the exception table, by its labels (Jasmin User Guide, .catch).
#[derive(Drop)]
pub struct CatchRow {
    /// The class that is caught, or none for every one.
    pub catch_type: Option<Name>,
    pub start: Name,
    pub end: Name,
    pub target: Name,
    /// The line that it stands in.
    pub line: usize,
}

/// What a line of a body says, or the lines of a switch.
#[derive(Drop)]
pub enum Item<'a> {
    StackLimit(u16),
    LocalsLimit(u16),
    Line(LineNumber),
    Catch(CatchRow),
    /// A label, and the number of the instructions before it.
    Label(Name, u32),
    Instruction(LabelledInstr<'a>),
    /// What is read and dropped.
    Dropped,
}

// .limit stack N, .limit locals N
#[tactic(auto, unfolding(crate::specs::Items::limit_line))]
fn limit_line<'a>(line: &[Token<'_>]) -> Result<Item<'a>, AsmFault>
    ensures { TakesAll (λ item. item) result (limit_line line.now) }
{
    with_length(line, 3)?;
    let limit = short_operand(line, 2)?;
    if is_word_at(line, 1, "stack") {
        Ok(Item::StackLimit(limit))
    } else if is_word_at(line, 1, "locals") {
        Ok(Item::LocalsLimit(limit))
    } else {
        Err(AsmFault::Syntax(line_number(line)))
    }
}

// .line N
#[tactic(auto, unfolding(crate::specs::Items::line_line))]
fn line_line<'a>(number: u32, line: &[Token<'_>]) -> Result<Item<'a>, AsmFault>
    ensures { TakesAll (λ item. item) result (line_line number line.now) }
{
    with_length(line, 2)?;
    let source_line = short_operand(line, 1)?;
    Ok(Item::Line(LineNumber {
        start: number,
        line: source_line,
    }))
}

// .throws NAME
#[tactic(auto, unfolding(crate::specs::Items::throws_line))]
fn throws_line<'a>(line: &[Token<'_>]) -> Result<Item<'a>, AsmFault>
    ensures { TakesAll (λ item. item) result (throws_line line.now) }
{
    only_operand(line)?;
    Ok(Item::Dropped)
}

// all, or the name of a class.
#[tactic(auto, unfolding(crate::specs::Items::catch_type_at))]
fn catch_type_at(alloc: Global, line: &[Token<'_>], index: usize) -> Result<Option<Name>, AsmFault>
    ensures { GivesAll (λ name. name) OutOfMemory result (catch_type_at line.now index) }
{
    if is_word_at(line, index, "all") {
        return Ok(None);
    }
    let name = class_name_at(alloc, line, index)?;
    Ok(Some(name))
}

#[tactic(auto, unfolding(crate::specs::Items::has_catch_words))]
fn has_catch_words(line: &[Token<'_>]) -> bool
    ensures { result ≡ has_catch_words line.now }
{
    is_word_at(line, 2, "from") && is_word_at(line, 4, "to") && is_word_at(line, 6, "using")
}

// .catch C from L1 to L2 using L3
#[tactic(auto, unfolding(crate::specs::Items::catch_line, crate::specs::Items::with_catch_words))]
fn catch_line<'a>(alloc: Global, line: &[Token<'_>]) -> Result<Item<'a>, AsmFault>
    ensures { GivesAll (λ item. item) OutOfMemory result (catch_line line.now) }
{
    with_length(line, 8)?;
    if !has_catch_words(line) {
        return Err(AsmFault::Syntax(line_number(line)));
    }
    let catch_type = catch_type_at(alloc, line, 1)?;
    let start = units_at(alloc, line, 3)?;
    let end = units_at(alloc, line, 5)?;
    let target = units_at(alloc, line, 7)?;
    Ok(Item::Catch(CatchRow {
        catch_type,
        start: Name::new(start),
        end: Name::new(end),
        target: Name::new(target),
        line: line_number(line),
    }))
}

fn ends_with_colon(text: &[u8]) -> bool
    ensures { result ≡ ends_with_colon text.now }
{
    let length = text.len();
    1 < length && text[length - 1] == COLON
}

// NAME: alone in its line.
#[tactic(auto, unfolding(crate::specs::Items::is_label_line))]
fn is_label_line(line: &[Token<'_>]) -> bool
    ensures { result ≡ is_label_line line.now }
{
    match line.first() {
        None => false,
        Some(token) => {
            line.len() == 1 && is_word_token(token) && ends_with_colon(token.text().as_bytes())
        }
    }
}

#[tactic(auto, unfolding(crate::specs::Items::without_last))]
fn without_last(mut units: Vec<u16>) -> Vec<u16>
    ensures { result.items ≡ without_last units.items }
{
    units.truncate(units.len().saturating_sub(1));
    units
}

#[tactic(auto, unfolding(crate::specs::Items::label_line))]
fn label_line<'a>(alloc: Global, number: u32, line: &[Token<'_>]) -> Result<Item<'a>, AsmFault>
    ensures { GivesAll (λ item. item) OutOfMemory result (label_line number line.now) }
{
    let units = units_at(alloc, line, 0)?;
    Ok(Item::Label(Name::new(without_last(units)), number))
}

// An instruction takes one line, a switch several.
#[tactic(auto, unfolding(crate::specs::Items::instruction_lines))]
fn instruction_lines<'a>(alloc: Global, lines: &mut Lines<'_, 'a>) -> Result<Item<'a>, AsmFault>
    ensures { Reads (λ item. item) result lines.new (instruction_lines lines.old) }
{
    let line = instruction(alloc, lines.tokens())?;
    lines.skip(line.used);
    Ok(Item::Instruction(line.instruction))
}

#[tactic(auto, unfolding(crate::specs::Items::label_or_instruction, crate::specs::Lines::by_line))]
fn label_or_instruction<'a>(
    alloc: Global,
    number: u32,
    lines: &mut Lines<'_, 'a>,
) -> Result<Item<'a>, AsmFault>
    ensures { Reads (λ item. item) result lines.new (label_or_instruction number lines.old) }
{
    if is_label_line(lines.line()) {
        let line = lines.next_line();
        label_line(alloc, number, line)
    } else {
        instruction_lines(alloc, lines)
    }
}

/// What the next line says, or the lines of a switch, behind so many instructions.
#[tactic(auto, unfolding(crate::specs::Items::item_at, crate::specs::Lines::by_line))]
pub fn item_at<'a>(
    alloc: Global,
    number: u32,
    lines: &mut Lines<'_, 'a>,
) -> Result<Item<'a>, AsmFault>
    ensures { Reads (λ item. item) result lines.new (item_at number lines.old) }
{
    if lines.begins(".limit") {
        let line = lines.next_line();
        limit_line(line)
    } else if lines.begins(".line") {
        let line = lines.next_line();
        line_line(number, line)
    } else if lines.begins(".var") {
        lines.next_line();
        Ok(Item::Dropped)
    } else if lines.begins(".throws") {
        let line = lines.next_line();
        throws_line(line)
    } else if lines.begins(".catch") {
        let line = lines.next_line();
        catch_line(alloc, line)
    } else {
        label_or_instruction(alloc, number, lines)
    }
}

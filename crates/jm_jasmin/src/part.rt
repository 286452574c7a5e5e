// The parts of a code, from the items of its body (JVMS 4.7.3, 4.7.12).

ghost use Rattle.std.specs.Prelude.{◌≡◌, ◌++◌, IfOk};
ghost use Rattle.std.specs.HashMap.{get};
ghost use Rattle.jm_bytes.specs.Reading.{GivesAll, TakesAll, each};
ghost use Rattle.jm_program.specs.Names.{same_text};
ghost use Rattle.jm_jasmin_ops.specs.declared.fault.AsmFault.TheVariants.{OutOfMemory};
ghost use Rattle.jm_jasmin.specs.Labels.{part_of};
ghost use Rattle.jm_jasmin.specs.Body.{instruction_in, handler_in, line_in, tables_of};

use crate::item::Item;
use crate::labels::{handler_of, instruction_of};
use jm_jasmin_ops::AsmFault;
use jm_program::{Handler, Instr, LineNumber, Name, Sequence};
use std::alloc::{AllocError, Global};
use std::collections::HashMap;

/// What becomes of an item.
#[derive(Drop)]
pub enum Part {
    Instruction(Instr),
    /// A row of the exception table.
    Handler(Handler),
    Line(LineNumber),
    Nothing,
}

/// The parts of a code, each kind in the order of the text.
#[derive(Drop)]
pub struct Tables {
    pub instructions: Sequence<Instr>,
    pub handlers: Sequence<Handler>,
    pub lines: Sequence<LineNumber>,
}

#[tactic(auto, unfolding(crate::specs::Labels::part_of))]
fn part_of(
    alloc: Global,
    values: &HashMap<Name, u32>,
    count: u32,
    item: Item<'_>,
) -> Result<Part, AsmFault>
    ensures { GivesAll (λ p. p) OutOfMemory result (part_of (get same_text values.now) count item.entry) }
{
    match item {
        Item::Instruction(instruction) => {
            let instr = instruction_of(alloc, values, count, instruction)?;
            Ok(Part::Instruction(instr))
        }
        Item::Catch(row) => {
            let handler = handler_of(values, count, row)?;
            Ok(Part::Handler(handler))
        }
        Item::Line(entry) => {
            if entry.start < count {
                Ok(Part::Line(entry))
            } else {
                Ok(Part::Nothing)
            }
        }
        _ => Ok(Part::Nothing),
    }
}

/// What becomes of each item.
#[tactic(auto, using(jm_bytes::proofs::Taken::taken_steps))]
pub fn parts_of(
    alloc: Global,
    values: &HashMap<Name, u32>,
    count: u32,
    items: Vec<Item<'_>>,
) -> Result<Vec<Part>, AsmFault>
    ensures { GivesAll (λ v. v.items) OutOfMemory result (each (part_of (get same_text values.now) count) items.entry.items) }
{
    let mut parts = Vec::with_capacity(alloc, items.len())?;
    for item in items {
        let part = part_of(alloc, values, count, item)?;
        parts.push(part)?;
    }
    Ok(parts)
}

// The tables with one more part.
#[tactic(auto, using(crate::proofs::PartTables::table_steps))]
fn with_part(tables: Tables, part: Part) -> Result<Tables, AllocError>
    ensures instructions { IfOk result (λ t. t.instructions ≡ tables.instructions ++ instruction_in part) }
    ensures handlers { IfOk result (λ t. t.handlers ≡ tables.handlers ++ handler_in part) }
    ensures lines { IfOk result (λ t. t.lines ≡ tables.lines ++ line_in part) }
{
    match part {
        Part::Instruction(instr) => {
            let mut instructions = tables.instructions.into_vec();
            instructions.push(instr)?;
            Ok(Tables {
                instructions: Sequence::new(instructions),
                handlers: tables.handlers,
                lines: tables.lines,
            })
        }
        Part::Handler(handler) => {
            let mut handlers = tables.handlers.into_vec();
            handlers.push(handler)?;
            Ok(Tables {
                instructions: tables.instructions,
                handlers: Sequence::new(handlers),
                lines: tables.lines,
            })
        }
        Part::Line(entry) => {
            let mut lines = tables.lines.into_vec();
            lines.push(entry)?;
            Ok(Tables {
                instructions: tables.instructions,
                handlers: tables.handlers,
                lines: Sequence::new(lines),
            })
        }
        Part::Nothing => Ok(tables),
    }
}

/// The parts by their kinds.
#[tactic(auto, unfolding(crate::specs::Body::tables_of), using(crate::proofs::PartTables::table_steps))]
pub fn tables_of(alloc: Global, parts: Vec<Part>) -> Result<Tables, AllocError>
    ensures { IfOk result (λ t. t ≡ tables_of parts.items) }
{
    let mut tables = Tables {
        instructions: Sequence::new(Vec::new(alloc)),
        handlers: Sequence::new(Vec::new(alloc)),
        lines: Sequence::new(Vec::new(alloc)),
    };
    for part in parts {
        tables = with_part(tables, part)?;
    }
    Ok(tables)
}

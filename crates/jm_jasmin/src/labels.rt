// Labels and what uses them (Jasmin User Guide, "Labels"): each use becomes the number of an instruction.

ghost use Rattle.std.specs.Prelude.{◌≡◌};
ghost use Rattle.std.specs.HashMap.{get};
ghost use Rattle.jm_bytes.specs.Reading.{GivesAll, TakesAll, each};
ghost use Rattle.jm_program.specs.Names.{same_text};
ghost use Rattle.jm_jasmin_ops.specs.declared.fault.AsmFault.TheVariants.{OutOfMemory};
ghost use Rattle.jm_jasmin.specs.Labels.{end_at, place_at, target, pair_of, table_of, lookup_of, instruction_of, handler_of};

use crate::item::CatchRow;
use jm_jasmin_ops::{AsmFault, Label, LabelledInstr, LabelledLookup, LabelledPair, LabelledTable};
use jm_program::{
    Handler, Instr, LookupSwitch, Name, Plain, Sequence, Shared, SwitchPair, TableSwitch,
    code_units,
};
use std::alloc::Global;
use std::collections::HashMap;

/// The value of a label.
pub fn value_of(values: &HashMap<Name, u32>, name: &Name) -> Option<u32>
    ensures { result ≡ get same_text values.now name.now }
{
    values.get(name).copied()
}

// Where a range may end.
fn end_at(line: usize, value: Option<u32>) -> Result<u32, AsmFault>
    ensures { TakesAll (λ n. n) result (end_at line value) }
{
    match value {
        None => Err(AsmFault::NoLabel(line)),
        Some(value) => Ok(value),
    }
}

// Where an instruction stands.
fn place_at(count: u32, line: usize, value: Option<u32>) -> Result<u32, AsmFault>
    ensures { TakesAll (λ n. n) result (place_at count line value) }
{
    match value {
        None => Err(AsmFault::NoLabel(line)),
        Some(value) => {
            if value < count {
                Ok(value)
            } else {
                Err(AsmFault::NoLabel(line))
            }
        }
    }
}

// The number of the instruction that a label names.
#[tactic(auto, unfolding(crate::specs::Labels::target))]
fn target(
    alloc: Global,
    values: &HashMap<Name, u32>,
    count: u32,
    label: &Label<'_>,
) -> Result<u32, AsmFault>
    ensures { GivesAll (λ n. n) OutOfMemory result (target (get same_text values.now) count label.now) }
{
    let units = code_units(alloc, label.name())?;
    let value = value_of(values, &Name::new(units));
    place_at(count, label.line(), value)
}

#[tactic(auto, using(jm_bytes::proofs::Loops::each_steps))]
fn targets(
    alloc: Global,
    values: &HashMap<Name, u32>,
    count: u32,
    labels: &[Label<'_>],
) -> Result<Vec<u32>, AsmFault>
    ensures { GivesAll (λ v. v.items) OutOfMemory result (each (target (get same_text values.now) count) labels.now) }
{
    let mut all = Vec::new(alloc);
    for label in labels {
        let number = target(alloc, values, count, label)?;
        all.push(number)?;
    }
    Ok(all)
}

#[tactic(auto, unfolding(crate::specs::Labels::pair_of))]
fn pair_of(
    alloc: Global,
    values: &HashMap<Name, u32>,
    count: u32,
    pair: &LabelledPair<'_>,
) -> Result<SwitchPair, AsmFault>
    ensures { GivesAll (λ p. p) OutOfMemory result (pair_of (get same_text values.now) count pair.now) }
{
    let target = target(alloc, values, count, &pair.target)?;
    Ok(SwitchPair {
        key: pair.key,
        target,
    })
}

#[tactic(auto, using(jm_bytes::proofs::Loops::each_steps))]
fn pairs(
    alloc: Global,
    values: &HashMap<Name, u32>,
    count: u32,
    labelled: &[LabelledPair<'_>],
) -> Result<Vec<SwitchPair>, AsmFault>
    ensures { GivesAll (λ v. v.items) OutOfMemory result (each (pair_of (get same_text values.now) count) labelled.now) }
{
    let mut all = Vec::new(alloc);
    for pair in labelled {
        let numbered = pair_of(alloc, values, count, pair)?;
        all.push(numbered)?;
    }
    Ok(all)
}

#[tactic(auto, unfolding(crate::specs::Labels::table_of))]
fn table_of(
    alloc: Global,
    values: &HashMap<Name, u32>,
    count: u32,
    table: &LabelledTable<'_>,
) -> Result<Instr, AsmFault>
    ensures { GivesAll (λ i. i) OutOfMemory result (table_of (get same_text values.now) count table.now) }
{
    let targets = targets(alloc, values, count, table.targets.as_slice())?;
    let default = target(alloc, values, count, &table.default)?;
    let table = Shared::new(
        alloc,
        TableSwitch {
            low: table.low,
            targets: Sequence::new(targets),
            default,
        },
    )?;
    Ok(Instr::Plain(Plain::TableSwitch(table)))
}

#[tactic(auto, unfolding(crate::specs::Labels::lookup_of))]
fn lookup_of(
    alloc: Global,
    values: &HashMap<Name, u32>,
    count: u32,
    lookup: &LabelledLookup<'_>,
) -> Result<Instr, AsmFault>
    ensures { GivesAll (λ i. i) OutOfMemory result (lookup_of (get same_text values.now) count lookup.now) }
{
    let pairs = pairs(alloc, values, count, lookup.pairs.as_slice())?;
    let default = target(alloc, values, count, &lookup.default)?;
    let lookup = Shared::new(
        alloc,
        LookupSwitch {
            pairs: Sequence::new(pairs),
            default,
        },
    )?;
    Ok(Instr::Plain(Plain::LookupSwitch(lookup)))
}

/// An instruction with its targets.
#[tactic(auto, unfolding(crate::specs::Labels::instruction_of))]
pub fn instruction_of(
    alloc: Global,
    values: &HashMap<Name, u32>,
    count: u32,
    instruction: LabelledInstr<'_>,
) -> Result<Instr, AsmFault>
    ensures { GivesAll (λ i. i) OutOfMemory result (instruction_of (get same_text values.now) count instruction.entry) }
{
    match instruction {
        LabelledInstr::Named(instr) => Ok(instr),
        LabelledInstr::Branch(branch, label) => {
            let target = target(alloc, values, count, &label)?;
            Ok(Instr::Plain(Plain::Branch(branch, target)))
        }
        LabelledInstr::TableSwitch(table) => table_of(alloc, values, count, &table),
        LabelledInstr::LookupSwitch(lookup) => lookup_of(alloc, values, count, &lookup),
    }
}

/// A row of the exception table (JVMS 4.7.3).
#[tactic(auto, unfolding(crate::specs::Labels::handler_of))]
pub fn handler_of(
    values: &HashMap<Name, u32>,
    count: u32,
    row: CatchRow,
) -> Result<Handler, AsmFault>
    ensures { TakesAll (λ h. h) result (handler_of (get same_text values.now) count row) }
{
    let start = match place_at(count, row.line, value_of(values, &row.start)) {
        Ok(start) => start,
        Err(fault) => {
            drop(row);
            return Err(fault);
        }
    };
    let end = match end_at(row.line, value_of(values, &row.end)) {
        Ok(end) => end,
        Err(fault) => {
            drop(row);
            return Err(fault);
        }
    };
    let target = match place_at(count, row.line, value_of(values, &row.target)) {
        Ok(target) => target,
        Err(fault) => {
            drop(row);
            return Err(fault);
        }
    };
    Ok(Handler {
        start,
        end,
        target,
        catch_type: row.catch_type,
    })
}

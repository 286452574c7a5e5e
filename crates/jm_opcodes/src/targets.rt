//! Branch targets: from offsets to the numbers of the instructions that begin there (JVMS 4.9.1).

ghost use Rattle.std.specs.Prelude.{◌≡◌, ◌<◌, ◌^◌, List, length, map, IfOk};
ghost use Rattle.jm_bytes.specs.Reading.{GivesAll, TakesAll, each};
ghost use Rattle.jm_class_format.specs.declared.fault.CodeFault.TheVariants.{OutOfMemory};
ghost use Rattle.jm_class_format.specs.declared.instruction.PlacedInstr.{PlacedInstr};
ghost use Rattle.jm_class_format.specs.Code.{number_of, table_numbered, pair_numbered, lookup_numbered, plain_numbered, numbered, all_numbered};

use crate::starts::Starts;
use jm_class_format::{CodeFault, IndexedInstr, PlacedInstr};
use jm_program::{LookupSwitch, Plain, Sequence, Shared, SwitchPair, TableSwitch};
use std::alloc::Global;

/// The number of the instruction at a target.
#[tactic(auto, unfolding(jm_class_format::specs::Code::number_of))]
fn number_at(starts: &Starts, target: u32) -> Result<u32, CodeFault>
    ensures { TakesAll (λ n. n) result (number_of starts.now target) }
{
    starts.number_at(target).ok_or(CodeFault::BadTarget)
}

#[tactic(auto, using(jm_bytes::proofs::Loops::each_steps))]
fn numbers_at(alloc: Global, starts: &Starts, targets: &[u32]) -> Result<Vec<u32>, CodeFault>
    ensures { GivesAll (λ v. v.items) OutOfMemory result (each (number_of starts.now) targets.now) }
{
    let mut numbers = Vec::new(alloc);
    for target in targets {
        let number = number_at(starts, *target)?;
        numbers.push(number)?;
    }
    Ok(numbers)
}

#[tactic(auto, unfolding(jm_class_format::specs::Code::table_numbered))]
fn table_numbered(
    alloc: Global,
    starts: &Starts,
    table: &TableSwitch,
) -> Result<TableSwitch, CodeFault>
    ensures { GivesAll (λ x. x) OutOfMemory result (table_numbered starts.now table.now) }
{
    let default = number_at(starts, table.default)?;
    let targets = numbers_at(alloc, starts, table.targets.as_slice())?;
    Ok(TableSwitch {
        low: table.low,
        targets: Sequence::new(targets),
        default,
    })
}

#[tactic(auto, unfolding(jm_class_format::specs::Code::pair_numbered))]
fn pair_numbered(starts: &Starts, pair: SwitchPair) -> Result<SwitchPair, CodeFault>
    ensures { TakesAll (λ x. x) result (pair_numbered starts.now pair) }
{
    let target = number_at(starts, pair.target)?;
    Ok(SwitchPair {
        key: pair.key,
        target,
    })
}

#[tactic(auto, using(jm_bytes::proofs::Loops::each_steps))]
fn pairs_at(
    alloc: Global,
    starts: &Starts,
    pairs: &[SwitchPair],
) -> Result<Vec<SwitchPair>, CodeFault>
    ensures { GivesAll (λ v. v.items) OutOfMemory result (each (pair_numbered starts.now) pairs.now) }
{
    let mut all = Vec::new(alloc);
    for pair in pairs {
        let numbered = pair_numbered(starts, *pair)?;
        all.push(numbered)?;
    }
    Ok(all)
}

#[tactic(auto, unfolding(jm_class_format::specs::Code::lookup_numbered))]
fn lookup_numbered(
    alloc: Global,
    starts: &Starts,
    lookup: &LookupSwitch,
) -> Result<LookupSwitch, CodeFault>
    ensures { GivesAll (λ x. x) OutOfMemory result (lookup_numbered starts.now lookup.now) }
{
    let default = number_at(starts, lookup.default)?;
    let pairs = pairs_at(alloc, starts, lookup.pairs.as_slice())?;
    Ok(LookupSwitch {
        pairs: Sequence::new(pairs),
        default,
    })
}

// A plain instruction gets the numbers of its targets.
#[tactic(auto, unfolding(jm_class_format::specs::Code::plain_numbered))]
fn number_plain(alloc: Global, starts: &Starts, plain: &mut Plain) -> Result<(), CodeFault>
    ensures { GivesAll (λ _. plain.new) OutOfMemory result (plain_numbered starts.now plain.old) }
{
    match plain {
        Plain::Branch(_, target) => {
            *target = number_at(starts, *target)?;
        }
        Plain::TableSwitch(table) => {
            let numbered = table_numbered(alloc, starts, table.get())?;
            *table = Shared::new(alloc, numbered)?;
        }
        Plain::LookupSwitch(lookup) => {
            let numbered = lookup_numbered(alloc, starts, lookup.get())?;
            *lookup = Shared::new(alloc, numbered)?;
        }
        _ => {}
    }
    Ok(())
}

// An instruction gets the numbers of its targets.
#[tactic(auto, unfolding(jm_class_format::specs::Code::instr_numbered, jm_class_format::specs::Code::numbered))]
fn number(alloc: Global, starts: &Starts, placed: &mut PlacedInstr) -> Result<(), CodeFault>
    ensures offset { placed.new.offset ≡ placed.old.offset }
    ensures given { GivesAll (λ _. placed.new) OutOfMemory result (numbered starts.now placed.old) }
{
    if let IndexedInstr::Plain(plain) = &mut placed.instr {
        number_plain(alloc, starts, plain)?;
    }
    Ok(())
}

// Each instruction gets the numbers of its targets, in its place.
#[tactic(auto, using(crate::proofs::InPlace::in_place_steps))]
fn number_each(alloc: Global, starts: &Starts, code: &mut [PlacedInstr]) -> Result<(), CodeFault>
    ensures offsets { map (λ (p : PlacedInstr). p.offset) code.new ≡ map (λ (p : PlacedInstr). p.offset) code.old }
    ensures given { GivesAll (λ _. code.new) OutOfMemory result (each (numbered starts.now) code.old) }
{
    for placed in code.iter_mut() {
        number(alloc, starts, placed)?;
    }
    Ok(())
}

/// The same instructions, with the numbers of their targets, and where they begin.
#[tactic(auto, unfolding(jm_class_format::specs::Code::all_numbered))]
pub fn all_numbered(
    alloc: Global,
    placed: Vec<PlacedInstr>,
) -> Result<(Vec<PlacedInstr>, Starts), CodeFault>
    requires { length placed.items < 2 ^ 32 }
    ensures len { IfOk result (λ x. length x.0.items ≡ length placed.items) }
    ensures starts { IfOk result (λ x. x.1 ≡ map (λ (p : PlacedInstr). p.offset) x.0.items) }
    ensures given { GivesAll (λ x. x.0.items) OutOfMemory result (all_numbered placed.items) }
{
    if placed.is_empty() {
        return Err(CodeFault::Cut(0));
    }
    let mut code = placed;
    let starts = Starts::new(alloc, &code)?;
    number_each(alloc, &starts, &mut code)?;
    Ok((code, starts))
}

//! The operands of `tableswitch` and `lookupswitch` (JVMS 6.5).

ghost use Rattle.std.specs.Prelude.{◌≡◌, ◌<◌, List, [], Option};
ghost use Rattle.jm_bytes.specs.Reading.{Gives, Takes, TakesAs};
ghost use Rattle.jm_bytes.specs.Format.{Format, many, repeated};
ghost use Rattle.jm_program.specs.Instructions.{is_above};
ghost use Rattle.jm_class_format.specs.declared.fault.CodeFault.TheVariants.{OutOfMemory};
ghost use Rattle.jm_class_format.specs.Instructions.{padding, far_target, natural, count_from, switch_range, table_switch, last_key, next_pair, pair_count, lookup_switch};

use crate::operands::far_target;
use jm_bytes::Reader;
use jm_class_format::{CodeFault, IndexedInstr};
use jm_program::{LookupSwitch, Plain, Sequence, Shared, SwitchPair, TableSwitch};
use std::alloc::Global;

/// Leaves out the padding of a switch: up to a multiple of four from the start of the code.
#[tactic(auto, unfolding(jm_class_format::specs::Instructions::padding))]
fn skip_padding<'a>(at: u32, reader: &mut Reader<'a>) -> Result<&'a [u8], CodeFault>
    ensures { TakesAs (λ x. x.now) result reader.new ((padding at).read reader.old) }
{
    let count = 3 - at % 4;
    let Ok(bytes) = reader.take(count as usize) else {
        return Err(CodeFault::Cut(at));
    };
    Ok(bytes)
}

/// How many ints there are from low to high, unless high is below low.
#[tactic(auto, unfolding(jm_class_format::specs::Instructions::natural, jm_class_format::specs::Instructions::count_from))]
fn count_from(low: i32, high: i32) -> Option<u64>
    ensures { result ≡ count_from low high }
{
    let difference = i64::from(high) - i64::from(low);
    if difference < 0 {
        None
    } else {
        Some(difference as u64 + 1)
    }
}

/// Low, and how many ints there are from low to high.
#[tactic(auto, unfolding(jm_class_format::specs::Instructions::switch_range))]
fn switch_range(at: u32, reader: &mut Reader<'_>) -> Result<(i32, u64), CodeFault>
    ensures { Takes result reader.new ((switch_range at).read reader.old) }
{
    let Ok(low) = reader.s4() else {
        return Err(CodeFault::Cut(at));
    };
    let Ok(high) = reader.s4() else {
        return Err(CodeFault::Cut(at));
    };
    let count = count_from(low, high).ok_or(CodeFault::BadOpcode(at))?;
    Ok((low, count))
}

#[tactic(auto, using(jm_bytes::proofs::Loops::many_steps))]
fn far_targets(
    alloc: Global,
    at: u32,
    count: u64,
    reader: &mut Reader<'_>,
) -> Result<Vec<u32>, CodeFault>
    requires { at < 65536 }
    ensures { Gives (λ v. v.items) OutOfMemory result reader.new ((many count (far_target at)).read reader.old) }
{
    let mut targets = Vec::new(alloc);
    for _ in 0..count {
        let target = far_target(at, reader)?;
        targets.push(target)?;
    }
    Ok(targets)
}

/// The operands of `tableswitch` (JVMS 6.5).
#[tactic(auto, unfolding(jm_class_format::specs::Instructions::table_switch))]
pub fn table_switch(
    alloc: Global,
    at: u32,
    reader: &mut Reader<'_>,
) -> Result<IndexedInstr, CodeFault>
    requires { at < 65536 }
    ensures { Gives (λ x. x) OutOfMemory result reader.new ((table_switch at).read reader.old) }
{
    skip_padding(at, reader)?;
    let default = far_target(at, reader)?;
    let (low, count) = switch_range(at, reader)?;
    let targets = far_targets(alloc, at, count, reader)?;
    let table = TableSwitch {
        low,
        targets: Sequence::new(targets),
        default,
    };
    let table = Shared::new(alloc, table)?;
    Ok(IndexedInstr::Plain(Plain::TableSwitch(table)))
}

fn last_key(pairs: &[SwitchPair]) -> Option<i32>
    ensures { result ≡ last_key pairs.now }
{
    let pair = pairs.last()?;
    Some(pair.key)
}

fn is_above(previous: Option<i32>, key: i32) -> bool
    ensures { result ≡ is_above previous key }
{
    match previous {
        None => true,
        Some(previous) => previous < key,
    }
}

/// The next pair of `lookupswitch`, whose key is above the one before it.
#[tactic(auto, unfolding(jm_class_format::specs::Instructions::next_pair))]
fn next_pair(
    at: u32,
    mut pairs: Vec<SwitchPair>,
    reader: &mut Reader<'_>,
) -> Result<Vec<SwitchPair>, CodeFault>
    requires { at < 65536 }
    ensures { Gives (λ v. v.items) OutOfMemory result reader.new ((next_pair at pairs.items).read reader.old) }
{
    let Ok(key) = reader.s4() else {
        return Err(CodeFault::Cut(at));
    };
    if !is_above(last_key(&pairs), key) {
        return Err(CodeFault::BadOpcode(at));
    }
    let target = far_target(at, reader)?;
    pairs.push(SwitchPair { key, target })?;
    Ok(pairs)
}

#[tactic(auto, using(jm_bytes::proofs::Loops::repeated_steps))]
fn switch_pairs(
    alloc: Global,
    at: u32,
    count: u32,
    reader: &mut Reader<'_>,
) -> Result<Vec<SwitchPair>, CodeFault>
    requires { at < 65536 }
    ensures { Gives (λ v. v.items) OutOfMemory result reader.new ((repeated count (next_pair at) []).read reader.old) }
{
    let mut pairs = Vec::new(alloc);
    for _ in 0..count {
        pairs = next_pair(at, pairs, reader)?;
    }
    Ok(pairs)
}

#[tactic(auto, unfolding(jm_class_format::specs::Instructions::natural))]
fn natural(n: i32) -> Option<u32>
    ensures { result ≡ natural n }
{
    if n < 0 { None } else { Some(n as u32) }
}

#[tactic(auto, unfolding(jm_class_format::specs::Instructions::pair_count))]
fn pair_count(at: u32, reader: &mut Reader<'_>) -> Result<u32, CodeFault>
    ensures { Takes result reader.new ((pair_count at).read reader.old) }
{
    let Ok(count) = reader.s4() else {
        return Err(CodeFault::Cut(at));
    };
    let count = natural(count).ok_or(CodeFault::BadOpcode(at))?;
    Ok(count)
}

/// The operands of `lookupswitch` (JVMS 6.5).
#[tactic(auto, unfolding(jm_class_format::specs::Instructions::lookup_switch))]
pub fn lookup_switch(
    alloc: Global,
    at: u32,
    reader: &mut Reader<'_>,
) -> Result<IndexedInstr, CodeFault>
    requires { at < 65536 }
    ensures { Gives (λ x. x) OutOfMemory result reader.new ((lookup_switch at).read reader.old) }
{
    skip_padding(at, reader)?;
    let default = far_target(at, reader)?;
    let count = pair_count(at, reader)?;
    let pairs = switch_pairs(alloc, at, count, reader)?;
    let lookup = LookupSwitch {
        pairs: Sequence::new(pairs),
        default,
    };
    let lookup = Shared::new(alloc, lookup)?;
    Ok(IndexedInstr::Plain(Plain::LookupSwitch(lookup)))
}

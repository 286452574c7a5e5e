// The two switches (JVMS 6.5 tableswitch, lookupswitch).

ghost use Rattle.std.specs.Prelude.{◌≡◌, ◌++◌, ◌<◌, ◌^◌, ◌+ℤ◌, ◌-ℤ◌, pos, int_le, length, IsTrue, OnOk, FitsSigned, All};
ghost use Rattle.std.specs.Int.{w32};
ghost use Rattle.jm_bytes.specs.Reading.{GivesAll};
ghost use Rattle.jm_bytes.proofs.Loops.{with_front_all};
ghost use Rattle.jm_program.specs.Instructions.{has_high};
ghost use Rattle.jm_encode.specs.declared.fault.EncodeFault.TheVariants.{OutOfMemory};
ghost use Rattle.jm_encode.specs.Encoding.{texts, far_text, switch_text, range_text, table_text, pair_text, lookup_text};
ghost use Rattle.jm_encode.specs.Ranges.{PairInRange};

use crate::fault::EncodeFault;
use crate::size::padding_size;
use crate::target::put_far;
use jm_bytes::{put_s4, put_u4};
use jm_program::{LookupSwitch, SwitchPair, TableSwitch};
use std::alloc::AllocError;

/// Appends the opcode of a switch that stands at an offset, and its padding.
#[tactic(auto, unfolding(crate::specs::Encoding::switch_text))]
fn put_switch(out: &mut Vec<u8>, at: u16, byte: u8) -> Result<(), AllocError>
    ensures { OnOk result (out.new.items ≡ out.old.items ++ switch_text at byte) }
{
    out.push(byte)?;
    out.resize(out.len() + padding_size(at), 0)?;
    Ok(())
}

/// The last of so many ints from low on.
fn high_of(low: i32, count: usize) -> i32
    requires some { 0 < count }
    requires high { IsTrue (int_le (low +ℤ pos count) (pos 2147483648)) }
    ensures { result ≡ (low +ℤ pos count) -ℤ pos 1 }
{
    let high = i64::from(low) + count as i64 - 1;
    high as i32
}

/// Appends low, and high, where there are so many ints from low to high.
#[tactic(auto, unfolding(crate::specs::Encoding::range_text))]
fn put_range(out: &mut Vec<u8>, low: i32, count: usize) -> Result<(), AllocError>
    requires some { 0 < count }
    requires high { IsTrue (int_le (low +ℤ pos count) (pos 2147483648)) }
    ensures { OnOk result (out.new.items ≡ out.old.items ++ range_text low count) }
{
    put_s4(out, low)?;
    put_s4(out, high_of(low, count))
}

#[tactic(auto, using(crate::proofs::Appending::texts_steps))]
fn put_targets(
    out: &mut Vec<u8>,
    starts: &[u16],
    at: u16,
    targets: &[u32],
) -> Result<(), EncodeFault>
    ensures { GivesAll (λ _. out.new.items) OutOfMemory result (with_front_all out.old.items (texts (far_text starts.now at) targets.now)) }
{
    for target in targets {
        put_far(out, starts, at, *target)?;
    }
    Ok(())
}

/// Appends a `tableswitch` that stands at an offset.
#[tactic(auto, unfolding(crate::specs::Encoding::table_text, jm_bytes::proofs::Loops::with_front_all))]
pub fn put_table(
    out: &mut Vec<u8>,
    starts: &[u16],
    at: u16,
    table: &TableSwitch,
) -> Result<(), EncodeFault>
    requires { IsTrue (has_high table.now) }
    ensures given { GivesAll (λ _. out.new.items) OutOfMemory result (with_front_all out.old.items (table_text starts.now at table.now)) }
    ensures range { OnOk result (FitsSigned w32 table.now.low) }
{
    let targets = table.targets.as_slice();
    put_switch(out, at, 170)?;
    put_far(out, starts, at, table.default)?;
    put_range(out, table.low, targets.len())?;
    put_targets(out, starts, at, targets)
}

/// Appends a key and its target.
#[tactic(auto, unfolding(crate::specs::Encoding::pair_text, jm_bytes::proofs::Loops::with_front_all))]
fn put_pair(out: &mut Vec<u8>, starts: &[u16], at: u16, pair: SwitchPair) -> Result<(), EncodeFault>
    ensures given { GivesAll (λ _. out.new.items) OutOfMemory result (with_front_all out.old.items (pair_text starts.now at pair)) }
    ensures range { PairInRange pair }
{
    put_s4(out, pair.key)?;
    put_far(out, starts, at, pair.target)
}

#[tactic(auto, using(crate::proofs::Appending::texts_steps))]
fn put_pairs(
    out: &mut Vec<u8>,
    starts: &[u16],
    at: u16,
    pairs: &[SwitchPair],
) -> Result<(), EncodeFault>
    ensures given { GivesAll (λ _. out.new.items) OutOfMemory result (with_front_all out.old.items (texts (pair_text starts.now at) pairs.now)) }
    ensures range { OnOk result (All PairInRange pairs.now) }
{
    for pair in pairs {
        put_pair(out, starts, at, *pair)?;
    }
    Ok(())
}

/// Appends a `lookupswitch` that stands at an offset.
#[tactic(auto, unfolding(crate::specs::Encoding::lookup_text, jm_bytes::proofs::Loops::with_front_all))]
pub fn put_lookup(
    out: &mut Vec<u8>,
    starts: &[u16],
    at: u16,
    lookup: &LookupSwitch,
) -> Result<(), EncodeFault>
    requires { length lookup.now.pairs < 2 ^ 31 }
    ensures given { GivesAll (λ _. out.new.items) OutOfMemory result (with_front_all out.old.items (lookup_text starts.now at lookup.now)) }
    ensures range { OnOk result (All PairInRange lookup.now.pairs) }
{
    let pairs = lookup.pairs.as_slice();
    put_switch(out, at, 171)?;
    put_far(out, starts, at, lookup.default)?;
    put_u4(out, pairs.len() as u32)?;
    put_pairs(out, starts, at, pairs)
}

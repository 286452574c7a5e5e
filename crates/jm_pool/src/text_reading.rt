// Modified UTF-8 to UTF-16 code units (JVMS 4.4.7).

ghost use Rattle.std.specs.Prelude.{◌≡◌, ◌<◌, ◌≤◌, List, length, OnOk, IfOk, IfSome};
ghost use Rattle.jm_bytes.specs.Reading.{GivesAll, Takes};
ghost use Rattle.jm_bytes.specs.Format.{Format, Whole};
ghost use Rattle.jm_class_format.specs.declared.fault.PoolFault.TheVariants.{OutOfMemory};
ghost use Rattle.jm_class_format.specs.ModifiedUtf8.{lead_at, unit_of_two, unit_of_three, six_bits, unit_after, code_unit, text};
ghost use Rattle.jm_pool.specs.Leads.{HasFewBits};

use jm_bytes::Reader;
use jm_class_format::{Lead, PoolFault};
use std::alloc::Global;

// What the first byte of a code unit tells.
#[tactic(auto, unfolding(jm_class_format::specs::ModifiedUtf8::lead_at))]
fn lead_of(byte: u8) -> Option<Lead>
    ensures value { result ≡ lead_at byte }
    ensures few { IfSome result HasFewBits }
{
    match byte {
        0x01..=0x7F => Some(Lead::One(byte)),
        0xC0..=0xDF => Some(Lead::Two(byte - 0xC0)),
        0xE0..=0xEF => Some(Lead::Three(byte - 0xE0)),
        _ => None,
    }
}

// The bits of a byte after the first.
#[tactic(auto, unfolding(jm_class_format::specs::ModifiedUtf8::six_bits, jm_class_format::specs::ModifiedUtf8::six_bits_of))]
fn six_bits(reader: &mut Reader<'_>) -> Result<u8, PoolFault>
    ensures taken { Takes result reader.new (six_bits.read reader.old) }
    ensures fewer { OnOk result (length reader.new ≤ length reader.old) }
    ensures few { IfOk result (λ n. n < 64) }
{
    let Ok(byte) = reader.u1() else {
        return Err(PoolFault::BadUtf8);
    };
    match byte {
        0x80..=0xBF => Ok(byte - 0x80),
        _ => Err(PoolFault::BadUtf8),
    }
}

// The code unit of two bytes' bits, which is 0 or wants two bytes.
#[tactic(auto, unfolding(jm_class_format::specs::ModifiedUtf8::unit_of_two))]
fn unit_of_two(high: u8, low: u8) -> Option<u16>
    requires { low < 64 }
    ensures { result ≡ unit_of_two high low }
{
    let unit = u16::from(high) * 64 + u16::from(low);
    if unit == 0 || 0x80 <= unit {
        Some(unit)
    } else {
        None
    }
}

// The code unit of three bytes' bits, which wants three bytes.
#[tactic(auto, unfolding(jm_class_format::specs::ModifiedUtf8::unit_of_three))]
fn unit_of_three(high: u8, middle: u8, low: u8) -> Option<u16>
    requires high { high < 16 }
    requires middle { middle < 64 }
    requires low { low < 64 }
    ensures { result ≡ unit_of_three high middle low }
{
    let unit = u16::from(high) * 4096 + u16::from(middle) * 64 + u16::from(low);
    if 0x800 <= unit { Some(unit) } else { None }
}

// The code unit that begins so.
#[tactic(auto, unfolding(jm_class_format::specs::ModifiedUtf8::unit_after))]
fn unit_after(lead: Lead, reader: &mut Reader<'_>) -> Result<u16, PoolFault>
    requires { HasFewBits lead }
    ensures taken { Takes result reader.new ((unit_after lead).read reader.old) }
    ensures fewer { OnOk result (length reader.new ≤ length reader.old) }
{
    match lead {
        Lead::One(unit) => Ok(u16::from(unit)),
        Lead::Two(high) => {
            let low = six_bits(reader)?;
            match unit_of_two(high, low) {
                Some(unit) => Ok(unit),
                None => Err(PoolFault::BadUtf8),
            }
        }
        Lead::Three(high) => {
            let middle = six_bits(reader)?;
            let low = six_bits(reader)?;
            match unit_of_three(high, middle, low) {
                Some(unit) => Ok(unit),
                None => Err(PoolFault::BadUtf8),
            }
        }
    }
}

// The code unit at an offset, which does not depend on it.
#[tactic(auto, unfolding(jm_class_format::specs::ModifiedUtf8::code_unit))]
fn code_unit_at(at: usize, reader: &mut Reader<'_>) -> Result<u16, PoolFault>
    ensures taken { Takes result reader.new ((code_unit at).read reader.old) }
    ensures fewer { OnOk result (length reader.new < length reader.old) }
{
    let Ok(byte) = reader.u1() else {
        return Err(PoolFault::BadUtf8);
    };
    let Some(lead) = lead_of(byte) else {
        return Err(PoolFault::BadUtf8);
    };
    let unit = unit_after(lead, reader)?;
    Ok(unit)
}

/// The UTF-16 code units that bytes spell in modified UTF-8 (JVMS 4.4.7).
///
/// # Errors
/// `BadUtf8` where the bytes spell none: a byte 00 or one from F0 on, a code unit cut short or in
/// a longer form than it needs, `C0 80` for U+0000 apart. `OutOfMemory` where a growth was refused.
#[tactic(auto, using(jm_bytes::proofs::Loops::run_steps, jm_class_format::specs::ModifiedUtf8::code_unit_filled))]
pub fn code_units(alloc: Global, bytes: &[u8]) -> Result<Vec<u16>, PoolFault>
    ensures { GivesAll (λ v. v.items) OutOfMemory result (text.read bytes.now) }
{
    // a code unit has a byte at least
    let mut units = Vec::with_capacity(alloc, bytes.len())?;
    let mut reader = Reader::new(bytes);
    while !reader.is_empty() {
        let at = bytes.len() - reader.len();
        let unit = code_unit_at(at, &mut reader)?;
        units.push(unit)?;
    }
    Ok(units)
}

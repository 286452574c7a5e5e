// UTF-16 code units to modified UTF-8 (JVMS 4.4.7).

ghost use Rattle.std.specs.Prelude.{◌≡◌, ◌++◌, OnOk, IfOk, length};
ghost use Rattle.jm_class_format.specs.ModifiedUtf8.{unit_bytes, text_bytes};
ghost use Rattle.jm_pool.specs.Building.{u2_of};

use std::alloc::{AllocError, Global};

// Puts the bytes of a code unit at the end.
#[tactic(auto, using(std::proofs::lemmas::List::append_assoc), unfolding(jm_class_format::specs::ModifiedUtf8::unit_bytes))]
fn put_unit(out: &mut Vec<u8>, unit: u16) -> Result<(), AllocError>
    ensures { OnOk result (out.new.items ≡ out.old.items ++ unit_bytes unit) }
{
    if 1 <= unit && unit <= 0x7F {
        out.push(unit as u8)?;
    } else if unit <= 0x7FF {
        out.push((0xC0 + unit / 64) as u8)?;
        out.push((0x80 + unit % 64) as u8)?;
    } else {
        out.push((0xE0 + unit / 4096) as u8)?;
        out.push((0x80 + unit / 64 % 64) as u8)?;
        out.push((0x80 + unit % 64) as u8)?;
    }
    Ok(())
}

// How many bytes a code unit takes.
#[tactic(auto, unfolding(jm_class_format::specs::ModifiedUtf8::unit_bytes))]
fn unit_length(unit: u16) -> u16
    ensures { result ≡ length (unit_bytes unit) }
{
    match unit {
        0x01..=0x7F => 1,
        0x00 | 0x80..=0x7FF => 2,
        _ => 3,
    }
}

/// How many bytes spell code units in modified UTF-8 (JVMS 4.4.7), where that fits a `u2`.
#[tactic(auto, using(crate::proofs::TextLengths::length_steps))]
pub fn text_length(units: &[u16]) -> Option<u16>
    ensures { result ≡ u2_of (length (text_bytes units.now)) }
{
    let mut length: u16 = 0;
    for unit in units {
        length = length.checked_add(unit_length(*unit))?;
    }
    Some(length)
}

/// Puts the bytes that spell code units in modified UTF-8 (JVMS 4.4.7) at the end.
///
/// # Errors
/// `AllocError` where a growth was refused; some of the bytes are then put.
#[tactic(auto, using(jm_bytes::proofs::Loops::text_steps))]
pub fn put_text(out: &mut Vec<u8>, units: &[u16]) -> Result<(), AllocError>
    ensures { OnOk result (out.new.items ≡ out.old.items ++ text_bytes units.now) }
{
    for unit in units {
        put_unit(out, *unit)?;
    }
    Ok(())
}

/// The bytes that spell code units in modified UTF-8 (JVMS 4.4.7): each in its shortest form, but
/// U+0000 as `C0 80`.
///
/// # Errors
/// `AllocError` where a growth was refused.
pub fn modified_utf8(alloc: Global, units: &[u16]) -> Result<Vec<u8>, AllocError>
    ensures { IfOk result (λ v. v.items ≡ text_bytes units.now) }
{
    let mut out = Vec::new(alloc);
    put_text(&mut out, units)?;
    Ok(out)
}

// Numbers, written as bytes, high byte first.

ghost use Rattle.std.specs.Prelude.{◌≡◌, ◌++◌, OnOk, OnErr};
ghost use Rattle.std.specs.Int.{w8, w16, w32, w64, to_be_bytes};
ghost use Rattle.jm_bytes.specs.Writing.{signed_bytes};

use byteorder::{BigEndian, ByteOrder};
use std::alloc::AllocError;

/// Writes a byte (JVMS 4, `u1`).
///
/// # Errors
/// [`AllocError`] where `out` could not grow; it is then unchanged.
pub fn put_u1(out: &mut Vec<u8>, n: u8) -> Result<(), AllocError>
    ensures ok { OnOk result (out.new.items ≡ out.old.items ++ to_be_bytes w8 n) }
    ensures err { OnErr result (out.new.items ≡ out.old.items) }
{
    out.extend_from_slice(&[n])?;
    Ok(())
}

/// Writes a number as two bytes, high byte first (JVMS 4, `u2`).
///
/// # Errors
/// [`AllocError`] where `out` could not grow; it is then unchanged.
pub fn put_u2(out: &mut Vec<u8>, n: u16) -> Result<(), AllocError>
    ensures ok { OnOk result (out.new.items ≡ out.old.items ++ to_be_bytes w16 n) }
    ensures err { OnErr result (out.new.items ≡ out.old.items) }
{
    let mut bytes = [0; 2];
    BigEndian::write_u16(&mut bytes, n);
    out.extend_from_slice(&bytes)?;
    Ok(())
}

/// Writes a number as four bytes, high byte first (JVMS 4, `u4`).
///
/// # Errors
/// [`AllocError`] where `out` could not grow; it is then unchanged.
pub fn put_u4(out: &mut Vec<u8>, n: u32) -> Result<(), AllocError>
    ensures ok { OnOk result (out.new.items ≡ out.old.items ++ to_be_bytes w32 n) }
    ensures err { OnErr result (out.new.items ≡ out.old.items) }
{
    let mut bytes = [0; 4];
    BigEndian::write_u32(&mut bytes, n);
    out.extend_from_slice(&bytes)?;
    Ok(())
}

/// Writes a number as eight bytes, high byte first.
///
/// # Errors
/// [`AllocError`] where `out` could not grow; it is then unchanged.
pub fn put_u8(out: &mut Vec<u8>, n: u64) -> Result<(), AllocError>
    ensures ok { OnOk result (out.new.items ≡ out.old.items ++ to_be_bytes w64 n) }
    ensures err { OnErr result (out.new.items ≡ out.old.items) }
{
    let mut bytes = [0; 8];
    BigEndian::write_u64(&mut bytes, n);
    out.extend_from_slice(&bytes)?;
    Ok(())
}

/// Writes a number as one byte of two's complement.
///
/// # Errors
/// [`AllocError`] where `out` could not grow; it is then unchanged.
pub fn put_s1(out: &mut Vec<u8>, n: i8) -> Result<(), AllocError>
    ensures ok { OnOk result (out.new.items ≡ out.old.items ++ signed_bytes w8 n) }
    ensures err { OnErr result (out.new.items ≡ out.old.items) }
{
    put_u1(out, n.cast_unsigned())
}

/// Writes a number as two bytes of two's complement, high byte first.
///
/// # Errors
/// [`AllocError`] where `out` could not grow; it is then unchanged.
pub fn put_s2(out: &mut Vec<u8>, n: i16) -> Result<(), AllocError>
    ensures ok { OnOk result (out.new.items ≡ out.old.items ++ signed_bytes w16 n) }
    ensures err { OnErr result (out.new.items ≡ out.old.items) }
{
    put_u2(out, n.cast_unsigned())
}

/// Writes a number as four bytes of two's complement, high byte first (JVMS 4.4.4).
///
/// # Errors
/// [`AllocError`] where `out` could not grow; it is then unchanged.
pub fn put_s4(out: &mut Vec<u8>, n: i32) -> Result<(), AllocError>
    ensures ok { OnOk result (out.new.items ≡ out.old.items ++ signed_bytes w32 n) }
    ensures err { OnErr result (out.new.items ≡ out.old.items) }
{
    put_u4(out, n.cast_unsigned())
}

/// Writes a number as eight bytes of two's complement, high byte first (JVMS 4.4.5).
///
/// # Errors
/// [`AllocError`] where `out` could not grow; it is then unchanged.
pub fn put_s8(out: &mut Vec<u8>, n: i64) -> Result<(), AllocError>
    ensures ok { OnOk result (out.new.items ≡ out.old.items ++ signed_bytes w64 n) }
    ensures err { OnErr result (out.new.items ≡ out.old.items) }
{
    put_u8(out, n.cast_unsigned())
}

// Bytes as they stand in the data: a control character, `<` and a backslash are escaped.

ghost use Rattle.std.specs.Prelude.{◌≡◌, ◌++◌, ◌<◌, OnOk};
ghost use Rattle.jm_page.specs.Escapes.{IsHarmless, escaped, escaped_byte, hex_digit, joined};

use std::alloc::AllocError;

// A digit of a hexadecimal number.
fn hex_digit(digit: u8) -> u8
    requires { digit < 16 }
    ensures { result ≡ hex_digit digit }
{
    if digit < 10 { 48 + digit } else { 55 + digit }
}

// Writes a byte.
#[tactic(auto, unfolding(crate::specs::Escapes::escaped_byte))]
fn write_byte(out: &mut Vec<u8>, byte: u8) -> Result<(), AllocError>
    ensures { OnOk result (out.new.items ≡ out.old.items ++ escaped_byte byte) }
{
    if 32 <= byte && byte != 60 && byte != 92 {
        out.extend_from_slice(&[byte])?;
        Ok(())
    } else {
        let high = hex_digit(byte / 16);
        let low = hex_digit(byte % 16);
        out.extend_from_slice(&[92, 117, 48, 48, high, low])?;
        Ok(())
    }
}

/// Writes bytes so that no `<`, no control character and no bare backslash is among them.
/// `AllocError`: a growth was refused; some of the bytes may be written then.
#[tactic(auto, using(crate::proofs::Harmless::escaped_harmless))]
pub(crate) fn write_escaped(out: &mut Vec<u8>, text: &[u8]) -> Result<(), AllocError>
    ensures written { OnOk result (out.new.items ≡ out.old.items ++ escaped text.now) }
    ensures harmless { IsHarmless (escaped text.now) }
{
    for byte in text {
        write_byte(out, *byte)?;
    }
    Ok(())
}

/// Writes lines, each ended by a line feed, in one line of the data, each ended by a tab.
#[tactic(auto, unfolding(crate::specs::Escapes::joined_byte))]
pub fn write_joined(out: &mut Vec<u8>, text: &[u8]) -> Result<(), AllocError>
    ensures { OnOk result (out.new.items ≡ out.old.items ++ joined text.now) }
{
    for byte in text {
        if *byte == 10 {
            out.extend_from_slice(&[9])?;
        } else {
            write_byte(out, *byte)?;
        }
    }
    Ok(())
}

//! What a byte stands for as an opcode (JVMS 6.5, 7).

ghost use Rattle.std.specs.Prelude.{◌≡◌};
ghost use Rattle.jm_class_format.specs.Opcodes.{opcode_at};

use jm_class_format::{Opcode, opcodes};

/// What the byte stands for as an opcode, or none.
pub fn opcode_of(byte: u8) -> Option<Opcode>
    ensures { result ≡ opcode_at byte }
{
    match opcodes().get(usize::from(byte)) {
        Some((_, opcode)) => Some(*opcode),
        None => None,
    }
}

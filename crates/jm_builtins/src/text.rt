// Names from ASCII texts.

ghost use Rattle.std.specs.Prelude.{◌≡◌, IfOk};

use jm_program::Name;
use std::alloc::{AllocError, Global};

/// The name that an ASCII text spells: its code units are the text's bytes.
pub fn name_of(alloc: Global, text: &str) -> Result<Name, AllocError>
    ensures { IfOk result (λ n. n ≡ text.now) }
{
    let bytes = text.as_bytes();
    let mut units = vec![in alloc; 0; bytes.len()]?;
    for (index, byte) in bytes.iter().enumerate() {
        units[index] = u16::from(*byte);
    }
    Ok(Name::new(units))
}

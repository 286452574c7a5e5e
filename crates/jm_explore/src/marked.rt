// Bytes as lines behind a mark.

ghost use Rattle.std.specs.Prelude.{◌≡◌, ◌++◌, IfOk};
ghost use Rattle.jm_explore.specs.Marked.{marked};

use std::alloc::AllocError;

/// Adds the lines of some bytes, each behind a mark. A last line that lacks its line feed gets one, and
/// a line `\` follows. `AllocError`: a growth was refused.
pub(crate) fn add_marked(text: &mut Vec<u8>, mark: &str, bytes: &[u8]) -> Result<(), AllocError>
    ensures { IfOk result (λ _. text.new.items ≡ text.old.items ++ marked mark.now bytes.now) }
{
    let mut begins = true;
    for byte in bytes {
        if begins {
            text.extend_from_slice(mark.as_bytes())?;
        }
        text.push(*byte)?;
        begins = *byte == b'\n';
    }
    if !begins {
        text.extend_from_slice("\n\\\n".as_bytes())?;
    }
    Ok(())
}

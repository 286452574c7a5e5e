// Lines of an answer.

ghost use Rattle.std.specs.Prelude.{◌≡◌, IfOk};
ghost use Rattle.std.specs.List.{flat_map};
ghost use Rattle.jm_debug.specs.Views.{Lines};
ghost use Rattle.jm_debug.specs.Session.{ended, bytes_of};

use std::alloc::AllocError;

/// The lines that were written, or the line `none` where there are none.
pub fn or_none(mut text: String) -> Result<String, AllocError>
    ensures { (lines : Lines) → text.bytes.items ≡ flat_map ended lines → IfOk result (λ answer. answer.bytes.items ≡ bytes_of lines) }
{
    if text.is_empty() {
        text.push_str("none\n")?;
    }
    Ok(text)
}

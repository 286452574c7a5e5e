// An event of a film, and its first view.

ghost use Rattle.std.specs.Prelude.{◌≡◌, ◌++◌, List, OnOk};
ghost use Rattle.jm_page.specs.Escapes.{IsHarmless};
ghost use Rattle.jm_page.specs.Sections.{IsSameView, Part, apply, delta};
ghost use Rattle.jm_page.specs.Data.{event_text, head_text, output_text, view_text};

use crate::change::write_change;
use crate::escape::write_escaped;
use crate::row::write_line;
use crate::section::{Section, write_section};
use std::alloc::AllocError;

// Writes who made an event, and the kind of its reply.
#[tactic(auto, unfolding(crate::specs::Data::head_text))]
fn write_head(out: &mut Vec<u8>, who: &str, kind: &str) -> Result<(), AllocError>
    ensures { OnOk result (out.new.items ≡ out.old.items ++ head_text who.now kind.now) }
{
    out.extend_from_slice(&[69])?;
    write_escaped(out, who.as_bytes())?;
    out.extend_from_slice(&[32])?;
    write_escaped(out, kind.as_bytes())?;
    out.extend_from_slice(&[10])?;
    Ok(())
}

// Writes the output that an event added, if there is any.
#[tactic(auto, unfolding(crate::specs::Data::output_text))]
fn write_output(out: &mut Vec<u8>, output: &[u8]) -> Result<(), AllocError>
    ensures { OnOk result (out.new.items ≡ out.old.items ++ output_text output.now) }
{
    if output.is_empty() {
        Ok(())
    } else {
        write_line(out, 34, output)
    }
}

/// Writes an event: who made it (a thread's number, `minor` or `full`), the kind of its reply, the
/// output that it added, and what leads from the view before it to the one behind it. Made to a view
/// that shows what the view before shows, that gives one that shows what the view behind shows.
/// `AllocError`: a growth was refused; a part of the event may be written then.
#[tactic(auto, using(crate::proofs::Applying::leads_from, crate::proofs::Harmless::event_harmless))]
pub fn write_event(
    out: &mut Vec<u8>,
    who: &str,
    kind: &str,
    output: &[u8],
    old: &[Section],
    new: &[Section],
) -> Result<(), AllocError>
    ensures written { OnOk result (out.new.items ≡ out.old.items ++ event_text who.now kind.now output.now (delta old.now new.now)) }
    ensures leads { (seen : List Part) → IsSameView seen old.now → IsSameView (apply seen (delta old.now new.now)) new.now }
    ensures harmless { IsHarmless (event_text who.now kind.now output.now (delta old.now new.now)) }
{
    write_head(out, who, kind)?;
    write_output(out, output)?;
    write_change(out, old, new)
}

/// Writes a whole view: what is shown behind the event of a number. `AllocError`: a growth was
/// refused; a part of it may be written then.
#[tactic(auto, using(crate::proofs::Harmless::view_harmless))]
pub fn write_view(out: &mut Vec<u8>, number: &str, view: &[Section]) -> Result<(), AllocError>
    ensures written { OnOk result (out.new.items ≡ out.old.items ++ view_text number.now view.now) }
    ensures harmless { IsHarmless (view_text number.now view.now) }
{
    write_line(out, 86, number.as_bytes())?;
    for section in view {
        write_section(out, section)?;
    }
    Ok(())
}

// What leads from one view to the next one.

ghost use Rattle.std.specs.Prelude.{◌≡◌, ◌++◌, List, OnOk};
ghost use Rattle.std.specs.List.{flat_map};
ghost use Rattle.std.specs.Option.{option_copied};
ghost use Rattle.jm_page.specs.Escapes.{IsHarmless};
ghost use Rattle.jm_page.specs.Sections.{IsSameView, Part, apply, delta, has_changed, is_gone, same_text};
ghost use Rattle.jm_page.specs.Data.{change_text, text_if_changed, text_if_gone};

use crate::row::write_line;
use crate::section::{Section, shown_at, write_section};
use std::alloc::AllocError;

// Whether two sections, or none, show the same.
fn is_same(text: Option<&str>, other: Option<&str>) -> bool
    ensures { result ≡ same_text (option_copied text.entry) (option_copied other.entry) }
{
    match text {
        Some(text) => match other {
            Some(other) => text == other,
            None => false,
        },
        None => match other {
            Some(_) => false,
            None => true,
        },
    }
}

// Whether what is shown under a key is other than it was.
fn has_changed(old: &[Section], new: &[Section], key: &str) -> bool
    ensures { result ≡ has_changed old.now new.now key.now }
{
    let before = shown_at(old, key);
    let after = shown_at(new, key);
    !is_same(before, after)
}

// Whether nothing is shown under a key any more.
fn is_gone(new: &[Section], key: &str) -> bool
    ensures { result ≡ is_gone new.now key.now }
{
    match shown_at(new, key) {
        Some(_) => false,
        None => true,
    }
}

// Writes the sections of the next view that are other than they were.
#[tactic(auto, unfolding(crate::specs::Data::text_if_changed))]
fn write_changed(out: &mut Vec<u8>, old: &[Section], new: &[Section]) -> Result<(), AllocError>
    ensures { OnOk result (out.new.items ≡ out.old.items ++ flat_map (text_if_changed old.now new.now) new.now) }
{
    for section in new {
        if has_changed(old, new, section.key()) {
            write_section(out, section)?;
        }
    }
    Ok(())
}

// Writes the keys of the view before that are gone.
#[tactic(auto, unfolding(crate::specs::Data::text_if_gone))]
fn write_gone(out: &mut Vec<u8>, old: &[Section], new: &[Section]) -> Result<(), AllocError>
    ensures { OnOk result (out.new.items ≡ out.old.items ++ flat_map (text_if_gone new.now) old.now) }
{
    for section in old {
        if is_gone(new, section.key()) {
            write_line(out, 45, section.key().as_bytes())?;
        }
    }
    Ok(())
}

/// Writes what leads from a view to the next one: each section that is other than it was, and the key
/// of each that is gone. Made to a view that shows what the view before shows, that gives one that
/// shows what the next one shows. `AllocError`: a growth was refused; a part of it may be written
/// then. It compares each section with each other one at most.
#[tactic(auto, using(crate::proofs::Applying::leads_from, crate::proofs::Harmless::change_harmless))]
pub fn write_change(out: &mut Vec<u8>, old: &[Section], new: &[Section]) -> Result<(), AllocError>
    ensures written { OnOk result (out.new.items ≡ out.old.items ++ change_text (delta old.now new.now)) }
    ensures leads { (seen : List Part) → IsSameView seen old.now → IsSameView (apply seen (delta old.now new.now)) new.now }
    ensures harmless { IsHarmless (change_text (delta old.now new.now)) }
{
    write_changed(out, old, new)?;
    write_gone(out, old, new)
}

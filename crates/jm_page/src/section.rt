// A section of a view: its key, and its lines.

ghost use Rattle.std.specs.Prelude.{◌≡◌, ◌++◌, OnOk, find, option_map};
ghost use Rattle.std.specs.Option.{option_copied};
ghost use Rattle.std.specs.Str.{bytes_eq};
ghost use Rattle.std.specs.String.{string_bytes};
ghost use Rattle.jm_page.specs.Sections.{Part, shown_at};
ghost use Rattle.jm_page.specs.Data.{part_text};

use crate::escape::{write_escaped, write_joined};
use std::alloc::AllocError;
use std::marker::Model;

/// A section of a view: its key, and its lines, each ended by a line feed.
#[derive(Drop)]
pub struct Section {
    key: String,
    text: String,
}

impl Model for Section {
    ghost use Rattle.std.specs.String.{string_bytes};
    ghost use Rattle.jm_page.specs.Sections.{Part};

    ghost Value = { Part };

    ghost view = { λ s. record { key = string_bytes s.key; text = string_bytes s.text } };
}

impl Section {
    /// The section of a key and its lines, each ended by a line feed.
    pub fn new(key: String, text: String) -> Section
        ensures { result ≡ record { key = string_bytes key; text = string_bytes text } }
    {
        Section { key, text }
    }

    /// Its key.
    pub fn key(&self) -> &str
        ensures { result.now ≡ self.now.key }
    {
        self.key.as_str()
    }

    /// Its lines, each ended by a line feed.
    pub fn text(&self) -> &str
        ensures { result.now ≡ self.now.text }
    {
        self.text.as_str()
    }
}

// The first section that has a key.
fn found<'a>(view: &'a [Section], key: &str) -> Option<&'a Section>
    ensures { option_map (λ s. s.now) result ≡ find (λ (p : Part). bytes_eq p.key key.now) view.now }
{
    view.iter().find(|section| section.key() == key)
}

/// What a view shows under a key: the lines of the first section that has it. It looks at each
/// section once at most.
pub fn shown_at<'a>(view: &'a [Section], key: &str) -> Option<&'a str>
    ensures { option_copied result ≡ shown_at view.now key.now }
{
    match found(view, key) {
        Some(section) => Some(section.text()),
        None => None,
    }
}

/// Writes a section: its key, and its lines, each ended by a tab.
#[tactic(auto, unfolding(crate::specs::Data::part_text))]
pub fn write_section(out: &mut Vec<u8>, section: &Section) -> Result<(), AllocError>
    ensures { OnOk result (out.new.items ≡ out.old.items ++ part_text section.now) }
{
    out.extend_from_slice(&[43])?;
    write_escaped(out, section.key().as_bytes())?;
    out.extend_from_slice(&[9])?;
    write_joined(out, section.text().as_bytes())?;
    out.extend_from_slice(&[10])?;
    Ok(())
}

// The text of an entry, or the list of all.

ghost use Rattle.std.specs.Prelude.{◌≡◌, ◌++◌, IfOk, string_bytes};
ghost use Rattle.std.specs.List.{flat_map};
ghost use Rattle.std.specs.Option.{option_map};
ghost use Rattle.jm_explain.specs.Items.{item, item_line, list_of};
ghost use Rattle.jm_explain.specs.Table.{explained, items};

use crate::entry::Entry;
use crate::{assembler_texts, class_files, instructions, links, pools, runs, sessions, statuses};
use std::alloc::{AllocError, Global};

// Writes the lines of some entries behind a text.
fn add_lines(text: &mut String, entries: &[Entry]) -> Result<(), AllocError>
    ensures { IfOk result (λ _. string_bytes text.new ≡ string_bytes text.old ++ flat_map (λ e. item_line (item e)) entries.now) }
{
    for entry in entries {
        write!(text, "{} {}: {}\n", entry.number, entry.name, entry.meaning)?;
    }
    Ok(())
}

// The lines of all entries.
fn list(alloc: Global) -> Result<String, AllocError>
    ensures { IfOk result (λ text. string_bytes text ≡ list_of items) }
{
    let mut text = String::new(alloc);
    add_lines(&mut text, statuses::entries())?;
    add_lines(&mut text, instructions::entries())?;
    add_lines(&mut text, pools::entries())?;
    add_lines(&mut text, class_files::entries())?;
    add_lines(&mut text, assembler_texts::entries())?;
    add_lines(&mut text, links::entries())?;
    add_lines(&mut text, runs::entries())?;
    add_lines(&mut text, sessions::entries())?;
    Ok(text)
}

/// What is said of an entry, or where there is none the list: a line for each entry, by number. The
/// error says that a growth was refused.
#[tactic(auto, unfolding(crate::specs::Table::explained))]
pub fn explanation(alloc: Global, asked: Option<Entry>) -> Result<String, AllocError>
    ensures { IfOk result (λ text. string_bytes text ≡ explained (option_map item asked)) }
{
    match asked {
        Some(entry) => format!(in alloc; "{entry}"),
        None => list(alloc),
    }
}

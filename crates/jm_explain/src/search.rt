// The entry of a number or of a name.

ghost use Rattle.std.specs.Prelude.{◌≡◌, ◌==◌, find, map};
ghost use Rattle.std.specs.Option.{option_map};
ghost use Rattle.jm_explain.specs.Items.{item};
ghost use Rattle.jm_explain.specs.Asked.{Asks, is_asked};
ghost use Rattle.jm_explain.specs.Table.{items};

use crate::entry::Entry;
use crate::{assembler_texts, class_files, instructions, links, pools, runs, sessions, statuses};

/// By what an entry is asked for.
#[derive(Clone, Copy)]
pub enum Asked<'a> {
    Number(u32),
    /// One of the entry's names.
    Name(&'a str),
}

// Whether an entry is asked for.
fn is_asked(entry: &Entry, asked: Asked<'_>) -> bool
    ensures { result ≡ is_asked asked.entry (item entry.now) }
{
    match asked {
        Asked::Number(number) => entry.number == number,
        Asked::Name(name) => entry.names.contains(&name),
    }
}

// The first of some entries that is asked for, where it stands.
fn found<'a>(entries: &'a [Entry], asked: Asked<'_>) -> Option<&'a Entry>
    ensures { option_map (λ e. e.now) result ≡ find (λ e. is_asked asked.entry (item e)) entries.now }
{
    entries.iter().find(|entry| is_asked(entry, asked))
}

// The first of some entries that is asked for.
fn first_of(entries: &[Entry], asked: Asked<'_>) -> Option<Entry>
    ensures { option_map item result ≡ find (is_asked asked.entry) (map item entries.now) }
{
    match found(entries, asked) {
        Some(entry) => Some(*entry),
        None => None,
    }
}

/// The entry that is asked for, of those of one name the first; `None` where no entry has the number or
/// the name.
pub fn entry_of(asked: Asked<'_>) -> Option<Entry>
    ensures { option_map item result ≡ find (is_asked asked.entry) items }
{
    first_of(statuses::entries(), asked)
        .or(first_of(instructions::entries(), asked))
        .or(first_of(pools::entries(), asked))
        .or(first_of(class_files::entries(), asked))
        .or(first_of(assembler_texts::entries(), asked))
        .or(first_of(links::entries(), asked))
        .or(first_of(runs::entries(), asked))
        .or(first_of(sessions::entries(), asked))
}

/// What a word asks for: the number that its digits spell, with or without a plus, and else a name.
pub fn asked_by(word: &str) -> Asked<'_>
    ensures { Asks word.now result }
{
    match word.parse::<u32>() {
        Ok(number) => Asked::Number(number),
        Err(_) => Asked::Name(word),
    }
}

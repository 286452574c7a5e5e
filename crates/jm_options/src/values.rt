// The values that the matches of a subcommand hold.

ghost use Rattle.std.specs.Prelude.{◌≡◌, ℕ, [], IfOk, MatchOption, Some, codes, map, option_map, string_bytes, unwrap_or};
ghost use Rattle.clap.specs.Words.{all_of, first_of, found_of, rows_of};
ghost use Rattle.jm_options.specs.Asked.{Finds, HoldsNumber, HoldsProgram, HoldsStress, MayHoldNumber, is_set, stress_word};
ghost use Rattle.jm_options.specs.declared.request.Stress.{Stress};

use crate::fault::UsageFault;
use crate::request::{MAX_COPIERS, MAX_HEAP, MIN_HEAP, ProgramOptions, Stress};
use crate::usage::{nothing_asked, stress_of_several, unknown_stress};
use clap::ArgMatches;
use std::alloc::{AllocError, Global};

// The number under a name, if it is within the limits.
pub fn number_within(matches: &ArgMatches<'_>, name: &str, low: u32, high: u32) -> Option<u32>
    ensures { let rows = rows_of (found_of matches.now) in
        MatchOption result ((n : ℕ) → HoldsNumber name.now low high rows n → ⊥) (HoldsNumber name.now low high rows) }
{
    let number = matches.get_one::<u32>(name)?;
    if low <= number && number <= high {
        Some(number)
    } else {
        None
    }
}

// The number under a name, which has to be there.
pub fn number_asked(
    alloc: Global,
    matches: &ArgMatches<'_>,
    name: &str,
    low: u32,
    high: u32,
) -> Result<u32, UsageFault>
    ensures { Finds result (HoldsNumber name.now low high (rows_of (found_of matches.now))) }
{
    match number_within(matches, name, low, high) {
        Some(number) => Ok(number),
        None => Err(nothing_asked(alloc)),
    }
}

// The number under a name, if one is given.
pub fn number_given(
    alloc: Global,
    matches: &ArgMatches<'_>,
    name: &str,
    low: u32,
    high: u32,
) -> Result<Option<u32>, UsageFault>
    ensures { Finds result (MayHoldNumber name.now low high (rows_of (found_of matches.now))) }
{
    let Some(_text) = matches.get_str(name) else {
        return Ok(None);
    };
    match number_within(matches, name, low, high) {
        Some(number) => Ok(Some(number)),
        None => Err(nothing_asked(alloc)),
    }
}

// Whether the flag of a name is set.
pub fn is_set(matches: &ArgMatches<'_>, name: &str) -> bool
    ensures { result ≡ is_set (first_of name.now (rows_of (found_of matches.now))) }
{
    match matches.get_str(name) {
        Some(text) => text == "true",
        None => false,
    }
}

// The text under a name, which has to be there.
pub fn text_asked(alloc: Global, matches: &ArgMatches<'_>, name: &str) -> Result<String, UsageFault>
    ensures { Finds result (λ text. first_of name.now (rows_of (found_of matches.now)) ≡ Some (string_bytes text)) }
{
    let Some(text) = matches.get_str(name) else {
        return Err(nothing_asked(alloc));
    };
    Ok(String::from_str(alloc, text)?)
}

// The text under a name, if there is one.
pub fn text_given(
    alloc: Global,
    matches: &ArgMatches<'_>,
    name: &str,
) -> Result<Option<String>, UsageFault>
    ensures { Finds result (λ text. first_of name.now (rows_of (found_of matches.now)) ≡ option_map string_bytes text) }
{
    let Some(text) = matches.get_str(name) else {
        return Ok(None);
    };
    Ok(Some(String::from_str(alloc, text)?))
}

// The texts, each by itself.
fn strings_of(alloc: Global, texts: &[&str]) -> Result<Vec<String>, AllocError>
    ensures { IfOk result (λ strings. map (λ s. string_bytes s) strings.items ≡ map (λ t. t.now) texts.now) }
{
    let mut strings = Vec::new(alloc);
    for text in texts {
        strings.push(String::from_str(alloc, text)?)?;
    }
    Ok(strings)
}

// The files, of which one has to be there.
fn files_asked(alloc: Global, matches: &ArgMatches<'_>) -> Result<Vec<String>, UsageFault>
    ensures { Finds result (λ files. all_of (codes "file") (rows_of (found_of matches.now)) ≡ Some (map (λ s. string_bytes s) files.items)) }
{
    let Some(files) = matches.get_strs("file") else {
        return Err(nothing_asked(alloc));
    };
    Ok(strings_of(alloc, files)?)
}

// The texts under a name, one for each time that it is given.
fn texts_given(
    alloc: Global,
    matches: &ArgMatches<'_>,
    name: &str,
) -> Result<Vec<String>, UsageFault>
    ensures { Finds result (λ texts. unwrap_or (all_of name.now (rows_of (found_of matches.now))) [] ≡ map (λ s. string_bytes s) texts.items) }
{
    let Some(texts) = matches.get_strs(name) else {
        return Ok(Vec::new(alloc));
    };
    Ok(strings_of(alloc, texts)?)
}

// The classes of a program, of whose files one has to be there.
pub fn program_asked(alloc: Global, matches: &ArgMatches<'_>) -> Result<ProgramOptions, UsageFault>
    ensures { Finds result (HoldsProgram (rows_of (found_of matches.now))) }
{
    Ok(ProgramOptions {
        folders: texts_given(alloc, matches, "path")?,
        main: text_given(alloc, matches, "main")?,
        files: files_asked(alloc, matches)?,
    })
}

// The limit of the heap.
pub fn heap_asked(alloc: Global, matches: &ArgMatches<'_>) -> Result<u32, UsageFault>
    ensures { Finds result (HoldsNumber (codes "heap") 16 16777216 (rows_of (found_of matches.now))) }
{
    number_asked(alloc, matches, "heap", MIN_HEAP, MAX_HEAP)
}

// How many copiers there are.
pub fn copiers_asked(alloc: Global, matches: &ArgMatches<'_>) -> Result<u32, UsageFault>
    ensures { Finds result (HoldsNumber (codes "copiers") 1 16 (rows_of (found_of matches.now))) }
{
    number_asked(alloc, matches, "copiers", 1, MAX_COPIERS)
}

// The kind of collection that a word names.
fn stress_named(word: &str) -> Option<Stress>
    ensures { MatchOption result ((s : Stress) → word.now ≡ stress_word s → ⊥) (λ s. word.now ≡ stress_word s) }
{
    match word {
        "minor" => Some(Stress::Minor),
        "full" => Some(Stress::Full),
        _ => None,
    }
}

// The kind of collection that is asked for where there are so many workers, if one is.
pub fn stress_given(
    alloc: Global,
    matches: &ArgMatches<'_>,
    workers: u32,
) -> Result<Option<Stress>, UsageFault>
    ensures { Finds result (HoldsStress (rows_of (found_of matches.now)) workers) }
{
    let Some(word) = matches.get_str("stress") else {
        return Ok(None);
    };
    let Some(stress) = stress_named(word) else {
        return Err(unknown_stress(alloc, word));
    };
    if workers != 1 {
        return Err(stress_of_several(alloc));
    }
    Ok(Some(stress))
}

// The words of a line.

ghost use Rattle.std.specs.Prelude.{◌≡◌, ◌∷◌, ◌<◌, ◌≤◌, length, nat_eq, IfSome, position, codes};
ghost use Rattle.std.specs.Option.{option_copied};
ghost use Rattle.std.specs.List.{position_or_len};
ghost use Rattle.jm_world.specs.Schedules.{number_within};
ghost use Rattle.jm_schedule.specs.Words.{with_digit, words_after};
ghost use Rattle.jm_debug.specs.Commands.{Reads, ReadsAs, number, count, name, object_number, words_of, no_word, one_word, two_words};

use crate::fault::DebugFault;
use jm_program::Name;
use std::alloc::Global;

const BLANK: u16 = 32;

const NUMBER_SIGN: u16 = 35;

/// How often a line may repeat its event.
const MAX_REPEATS: u64 = 1_000_000;

// Where the first blank stands, or how many code units there are.
fn blank_at(line: &[u16]) -> usize
    ensures { result ≡ position_or_len (λ u. nat_eq u 32) line.now }
{
    let mut at = 0;
    for unit in line {
        if *unit == BLANK {
            return at;
        }
        at += 1;
    }
    at
}

/// The first word of a line, and what follows the blank behind it if there is one.
pub fn first_word(line: &[u16]) -> (&[u16], Option<&[u16]>)
    ensures { words_of line.now ≡ result.0.now ∷ words_after (option_copied result.1) }
{
    let end = blank_at(line);
    if end < line.len() {
        (&line[..end], Some(&line[end + 1..]))
    } else {
        (line, None)
    }
}

/// That there are no words.
pub fn no_word(words: Option<&[u16]>) -> Result<(), DebugFault>
    ensures { Reads result (no_word (words_after (option_copied words.entry))) }
{
    match words {
        None => Ok(()),
        Some(_) => Err(DebugFault::BadCommand),
    }
}

/// The word, where there is one alone.
#[tactic(auto, using(crate::proofs::WordCounts::one_alone, crate::proofs::WordCounts::not_alone))]
pub fn one_word(words: Option<&[u16]>) -> Result<&[u16], DebugFault>
    ensures { ReadsAs (λ w. w.now) result (one_word (words_after (option_copied words.entry))) }
{
    let Some(line) = words else {
        return Err(DebugFault::BadCommand);
    };
    let (word, rest) = first_word(line);
    no_word(rest)?;
    Ok(word)
}

/// The words, where there are two.
#[tactic(auto, using(crate::proofs::WordCounts::two_alone, crate::proofs::WordCounts::not_two))]
pub fn two_words(words: Option<&[u16]>) -> Result<(&[u16], &[u16]), DebugFault>
    ensures { ReadsAs (λ w. (w.0.now, w.1.now)) result (two_words (words_after (option_copied words.entry))) }
{
    let Some(line) = words else {
        return Err(DebugFault::BadCommand);
    };
    let (first, rest) = first_word(line);
    let second = one_word(rest)?;
    Ok((first, second))
}

// The number that a digit more makes of a number, if it is at most `high`.
#[tactic(auto, unfolding(jm_schedule::specs::Words::with_digit))]
fn with_digit(high: u64, value: u64, unit: u16) -> Option<u64>
    ensures { result ≡ with_digit high value unit }
{
    if unit < 48 {
        return None;
    }
    if 57 < unit {
        return None;
    }
    let longer = value.checked_mul(10)?.checked_add(u64::from(unit - 48))?;
    (longer <= high).then_some(longer)
}

// The number that decimal digits spell, at least one of them, if it lies from `low` to `high`.
fn number_within(low: u64, high: u64, word: &[u16]) -> Option<u64>
    ensures value { result ≡ number_within low high word.now }
    ensures within { IfSome result (λ n. n ≤ high) }
{
    if word.is_empty() {
        return None;
    }
    let mut value = 0;
    for unit in word {
        value = with_digit(high, value, *unit)?;
    }
    (low <= value).then_some(value)
}

/// A number below 2^64.
pub fn number(word: &[u16]) -> Result<u64, DebugFault>
    ensures { Reads result (number word.now) }
{
    match number_within(0, u64::MAX, word) {
        Some(number) => Ok(number),
        None => Err(DebugFault::BadCommand),
    }
}

/// How often an event is made.
pub fn count(word: &[u16]) -> Result<u32, DebugFault>
    ensures { Reads result (count word.now) }
{
    match number_within(1, MAX_REPEATS, word) {
        Some(count) => Ok(count as u32),
        None => Err(DebugFault::BadCommand),
    }
}

/// The number of an object, behind a `#`.
pub fn object_number(word: &[u16]) -> Result<u64, DebugFault>
    ensures { Reads result (object_number word.now) }
{
    match word {
        [NUMBER_SIGN, digits @ ..] => number(digits),
        _ => Err(DebugFault::BadCommand),
    }
}

/// A name, which is not empty.
pub fn name(alloc: Global, word: &[u16]) -> Result<Name, DebugFault>
    ensures { Reads result (name word.now) }
{
    if word.is_empty() {
        return Err(DebugFault::BadCommand);
    }
    Ok(Name::shared(alloc, word)?)
}

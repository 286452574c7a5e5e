// What a line spells.

ghost use Rattle.std.specs.Prelude.{◌≡◌, ◌∷◌, Some, None, nat_lt, codes, option_map};
ghost use Rattle.std.specs.Option.{option_copied};
ghost use Rattle.std.specs.List.{list_all};
ghost use Rattle.jm_world.specs.Schedules.{repeat_count, seat_number, kind_named, marked, repeated, with_words, with_step_words, words_line, spelled};
ghost use Rattle.jm_schedule.specs.Words.{words_of, words_after};
ghost use Rattle.jm_schedule.specs.Lines.{line_of, spelled_of};

use crate::word::{first_word, number_within, same_text, two_words};
use jm_world::{Event, ReplyKind};

/// How often a line may repeat its event.
const MAX_REPEATS: u64 = 1_000_000;

/// The largest number of a seat.
const LAST_SEAT: u64 = 15;

/// What a record has beside an event: the seat that made it, and what it came to.
#[derive(Clone, Copy)]
pub struct Mark {
    pub seat: u8,
    pub kind: ReplyKind,
}

/// An event, and how often it happens.
#[derive(Clone, Copy)]
pub struct Line {
    pub event: Event,
    pub count: u32,
    pub mark: Option<Mark>,
}

/// What a line spells: nothing, an event, or what no line may say.
#[derive(Clone, Copy)]
pub enum Spelled {
    Silent,
    Spells(Line),
    Strange,
}

fn seat_number(word: &[u8]) -> Option<u8>
    ensures { result ≡ seat_number word.now }
{
    match word {
        [b'@', digits @ ..] => {
            let seat = number_within(0, LAST_SEAT, digits)?;
            Some(seat as u8)
        }
        _ => None,
    }
}

fn kind_named(word: &[u8]) -> Option<ReplyKind>
    ensures { result ≡ kind_named word.now }
{
    if same_text(word, b"done") {
        Some(ReplyKind::Done)
    } else if same_text(word, b"blocked") {
        Some(ReplyKind::Blocked)
    } else if same_text(word, b"ended") {
        Some(ReplyKind::Ended)
    } else if same_text(word, b"none") {
        Some(ReplyKind::None)
    } else if same_text(word, b"stopped") {
        Some(ReplyKind::Stopped)
    } else {
        None
    }
}

// The event once, with the seat and the kind that two words name.
fn marked(event: Event, seat: &[u8], kind: &[u8]) -> Option<Line>
    ensures { option_map line_of result ≡ marked event (seat_number seat.now) (kind_named kind.now) }
{
    let seat = seat_number(seat)?;
    let kind = kind_named(kind)?;
    Some(Line {
        event,
        count: 1,
        mark: Some(Mark { seat, kind }),
    })
}

// The event as often as a word says.
fn repeated(event: Event, count: &[u8]) -> Option<Line>
    ensures { option_map line_of result ≡ repeated event (repeat_count count.now) }
{
    let count = number_within(1, MAX_REPEATS, count)?;
    Some(Line {
        event,
        count: count as u32,
        mark: None,
    })
}

fn once(event: Event) -> Line
    ensures { line_of result ≡ record { event = event; count = 1; mark = None } }
{
    Line {
        event,
        count: 1,
        mark: None,
    }
}

// An event and the words after it: none, or a seat and a kind.
fn with_words(event: Event, words: Option<&[u8]>) -> Option<Line>
    ensures { option_map line_of result ≡ with_words event (words_after (option_copied words.entry)) }
{
    match words {
        None => Some(once(event)),
        Some(text) => {
            let (seat, kind) = two_words(text)?;
            marked(event, seat, kind)
        }
    }
}

// A step and the words after it: none, `x` and a count, or a seat and a kind.
fn with_step_words(event: Event, words: Option<&[u8]>) -> Option<Line>
    ensures { option_map line_of result ≡ with_step_words event (words_after (option_copied words.entry)) }
{
    match words {
        None => Some(once(event)),
        Some(text) => {
            let (first, second) = two_words(text)?;
            if same_text(first, b"x") {
                repeated(event, second)
            } else {
                marked(event, first, second)
            }
        }
    }
}

// The words after `t`: a thread's number, and what stands after it.
fn step_line(text: &[u8]) -> Option<Line>
    ensures { option_map line_of result ≡ words_line (codes "t" ∷ words_of text.now) }
{
    let (number, rest) = first_word(text);
    let thread = number_within(0, u64::MAX, number)?;
    with_step_words(Event::Step(thread), rest)
}

fn words_line(text: &[u8]) -> Option<Line>
    ensures { option_map line_of result ≡ words_line (words_of text.now) }
{
    let (word, rest) = first_word(text);
    if same_text(word, b"minor") {
        with_words(Event::Minor, rest)
    } else if same_text(word, b"full") {
        with_words(Event::Full, rest)
    } else if same_text(word, b"t") {
        step_line(rest?)
    } else {
        None
    }
}

fn is_ascii(text: &[u8]) -> bool
    ensures { result ≡ list_all (λ b. nat_lt b 128) text.now }
{
    text.iter().all(|byte| *byte < 128)
}

/// What a line spells, without its line feed.
pub fn read_line(line: &[u8]) -> Spelled
    ensures { spelled_of result ≡ spelled line.now }
{
    match line {
        [] => Spelled::Silent,
        [b'#', text @ ..] => {
            if is_ascii(text) {
                Spelled::Silent
            } else {
                Spelled::Strange
            }
        }
        _ => match words_line(line) {
            Some(line) => Spelled::Spells(line),
            None => Spelled::Strange,
        },
    }
}

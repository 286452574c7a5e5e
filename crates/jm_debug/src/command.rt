// What a line asks of the debugger.

ghost use Rattle.std.specs.Prelude.{◌≡◌, ◌∷◌};
ghost use Rattle.std.specs.Option.{option_copied};
ghost use Rattle.std.specs.List.{list_any};
ghost use Rattle.jm_program.specs.Texts.{utf16_of};
ghost use Rattle.jm_schedule.specs.Words.{words_after};
ghost use Rattle.jm_debug.specs.Commands.{Reads, ends_line, times, steps, frame_of, view_command, event_command, words_command, command};

use crate::fault::DebugFault;
use crate::place::Place;
use crate::word::{count, first_word, name, no_word, number, object_number, one_word, two_words};
use jm_program::{Name, code_units, is_text};
use std::alloc::Global;

const LINE_FEED: u16 = 10;

const CARRIAGE_RETURN: u16 = 13;

/// What a line asks of the debugger.
#[derive(Drop)]
pub enum Command {
    /// Lets [`Command::Continue`] stop before this instruction.
    Break { place: Place },
    /// Takes the break away.
    Clear { place: Place },
    /// So many events of the thread of a number.
    Step { thread: u64, count: u32 },
    /// A collection of the young objects.
    Minor,
    /// A collection of all objects.
    Full,
    /// Events of all threads in turn, up to a break.
    Continue,
    /// The frames of a thread.
    Where { thread: u64 },
    /// The local variables of a frame, which is counted from the top one, 0.
    Locals { thread: u64, frame: u64 },
    /// The operands of a frame.
    Stack { thread: u64, frame: u64 },
    /// The static fields of a class.
    Statics { class: Name },
    /// The object of a number, with its fields or elements.
    Object { number: u64 },
    /// The reachable objects.
    Heap,
    /// The monitors that are held.
    Monitors,
}

// Whether a line has the end of one in it.
fn has_line_end(line: &[u16]) -> bool
    ensures { result ≡ list_any ends_line line.now }
{
    line.iter()
        .any(|unit| *unit == LINE_FEED || *unit == CARRIAGE_RETURN)
}

// How often: once where nothing is said.
fn times(words: Option<&[u16]>) -> Result<u32, DebugFault>
    ensures { Reads result (times (words_after (option_copied words.entry))) }
{
    let Some(line) = words else {
        return Ok(1);
    };
    let (word, rest) = first_word(line);
    no_word(rest)?;
    count(word)
}

// A thread, and how often it makes an event.
fn steps(words: Option<&[u16]>) -> Result<Command, DebugFault>
    ensures { Reads result (steps (words_after (option_copied words.entry))) }
{
    let Some(line) = words else {
        return Err(DebugFault::BadCommand);
    };
    let (thread, rest) = first_word(line);
    let thread = number(thread)?;
    let count = times(rest)?;
    Ok(Command::Step { thread, count })
}

// The number of a thread, and that of one of its frames.
fn frame_of(words: Option<&[u16]>) -> Result<(u64, u64), DebugFault>
    ensures { Reads result (frame_of (words_after (option_copied words.entry))) }
{
    let (thread, frame) = two_words(words)?;
    let thread = number(thread)?;
    let frame = number(frame)?;
    Ok((thread, frame))
}

// What shows a part of the world.
fn view_command(alloc: Global, word: &[u16], words: Option<&[u16]>) -> Result<Command, DebugFault>
    ensures { Reads result (view_command word.now (words_after (option_copied words.entry))) }
{
    if is_text(word, b"where") {
        let thread = number(one_word(words)?)?;
        Ok(Command::Where { thread })
    } else if is_text(word, b"locals") {
        let (thread, frame) = frame_of(words)?;
        Ok(Command::Locals { thread, frame })
    } else if is_text(word, b"stack") {
        let (thread, frame) = frame_of(words)?;
        Ok(Command::Stack { thread, frame })
    } else if is_text(word, b"statics") {
        let class = name(alloc, one_word(words)?)?;
        Ok(Command::Statics { class })
    } else if is_text(word, b"object") {
        let number = object_number(one_word(words)?)?;
        Ok(Command::Object { number })
    } else if is_text(word, b"heap") {
        no_word(words)?;
        Ok(Command::Heap)
    } else if is_text(word, b"monitors") {
        no_word(words)?;
        Ok(Command::Monitors)
    } else {
        Err(DebugFault::BadCommand)
    }
}

// What makes events, or else shows a part of the world.
fn event_command(alloc: Global, word: &[u16], words: Option<&[u16]>) -> Result<Command, DebugFault>
    ensures { Reads result (event_command word.now (words_after (option_copied words.entry))) }
{
    if is_text(word, b"step") {
        steps(words)
    } else if is_text(word, b"minor") {
        no_word(words)?;
        Ok(Command::Minor)
    } else if is_text(word, b"full") {
        no_word(words)?;
        Ok(Command::Full)
    } else if is_text(word, b"continue") {
        no_word(words)?;
        Ok(Command::Continue)
    } else {
        view_command(alloc, word, words)
    }
}

// The command of a word, and of the words behind it.
fn words_command(alloc: Global, word: &[u16], words: Option<&[u16]>) -> Result<Command, DebugFault>
    ensures { Reads result (words_command (word.now ∷ words_after (option_copied words.entry))) }
{
    if is_text(word, b"break") {
        let place = Place::read(alloc, one_word(words)?)?;
        Ok(Command::Break { place })
    } else if is_text(word, b"clear") {
        let place = Place::read(alloc, one_word(words)?)?;
        Ok(Command::Clear { place })
    } else {
        event_command(alloc, word, words)
    }
}

impl Command {
    /// The command that a line denotes, which is handed over without its line feed: words parted by
    /// one blank each. `BadCommand`: exactly where it denotes none: a word that is none, a number
    /// that is no number or past its range, a place or a `#K` of another shape, a word missing or
    /// too many, the end of a line inside it. `OutOfMemory`: a growth was refused.
    #[tactic(auto, unfolding(crate::specs::Commands::command))]
    pub fn parse(alloc: Global, line: &str) -> Result<Command, DebugFault>
        ensures { Reads result (command (utf16_of line.now)) }
    {
        let units = code_units(alloc, line)?;
        if has_line_end(&units) {
            return Err(DebugFault::BadCommand);
        }
        let (word, words) = first_word(&units);
        words_command(alloc, word, words)
    }
}

// The texts of values, places, lines of the source, stages and replies.

ghost use Rattle.std.specs.Prelude.{◌≡◌, Some, None};
ghost use Rattle.jm_machine.specs.Readers.{model_value, name_of_frame};
ghost use Rattle.jm_debug.specs.Texts.{value_text, place_text, place_in, best_of, line_entry, line_in, line_text, stage_text, kind_text};
ghost use Rattle.jm_debug.specs.Answering.{model_place};

use jm_heap::Heap;
use jm_machine::{MethodFrame, WorldValue};
use jm_program::{LineNumber, Method, MethodDescriptor, Name};
use jm_world::{ReplyKind, Stage};
use std::fmt;
use std::fmt::Display;

/// A value; a reference is the number of its object.
#[derive(Clone, Copy)]
pub struct ValueText(pub WorldValue);

#[tactic(auto, unfolding(crate::specs::Texts::value_text, crate::specs::Texts::reference_text))]
impl Display for ValueText {
    ghost output = { λ text. Some (value_text (model_value text.0)) };

    fn fmt<W: fmt::Write>(&self, f: &mut fmt::Formatter<W>) -> fmt::Result {
        match self.0 {
            WorldValue::Int(number) => write!(f, "int {number}"),
            WorldValue::Long(number) => write!(f, "long {number}"),
            WorldValue::Null => f.write_str("null"),
            WorldValue::Ref(number) => write!(f, "#{number}"),
        }
    }
}

/// An instruction of a method, as it is written: CLASS.METHODDESC:N.
#[derive(Clone, Copy)]
pub struct PlaceText<'a> {
    pub class: &'a Name,
    pub method: &'a Name,
    pub descriptor: &'a MethodDescriptor,
    pub instruction: u64,
}

#[tactic(auto, unfolding(crate::specs::Texts::place_text))]
impl Display for PlaceText<'_> {
    ghost output = { λ p. Some (place_text (record {
      class = p.class.now;
      method = p.method.now;
      descriptor = p.descriptor.now;
      instruction = p.instruction;
    })) };

    fn fmt<W: fmt::Write>(&self, f: &mut fmt::Formatter<W>) -> fmt::Result {
        let class = self.class;
        let method = self.method;
        let descriptor = self.descriptor;
        let instruction = self.instruction;
        write!(f, "{class}.{method}{descriptor}:{instruction}")
    }
}

/// Where the frame of a method stands.
pub fn place_of_method<'a, H: Heap>(frame: &MethodFrame<'a, H>) -> PlaceText<'a>
    ensures { model_place result ≡ place_in (name_of_frame frame.now) frame.now.activation.at }
{
    let method = frame.method();
    PlaceText {
        class: &frame.class().parts().name,
        method: &method.name,
        descriptor: &method.descriptor,
        instruction: frame.at() as u64,
    }
}

// The better one of two entries for an instruction, if there is one that does not begin behind it.
fn best_of(at: u64, best: Option<LineNumber>, line: LineNumber) -> Option<LineNumber>
    ensures { result ≡ best_of at best line }
{
    if at < u64::from(line.start) {
        return best;
    }
    match best {
        Some(best) if line.start < best.start => Some(best),
        _ => Some(line),
    }
}

// The entry of an instruction.
fn line_entry(lines: &[LineNumber], at: u64) -> Option<LineNumber>
    ensures { result ≡ line_entry at None lines.now }
{
    let mut best = None;
    for line in lines {
        best = best_of(at, best, *line);
    }
    best
}

/// The line of an instruction of a method, where it is known.
pub fn line_of(method: &Method, at: u64) -> Option<LineNumber>
    ensures { result ≡ line_in at (Some method.now) }
{
    match &method.code {
        Some(code) => line_entry(code.lines.as_slice(), at),
        None => None,
    }
}

/// A line of the source behind a place, if it is known.
#[derive(Clone, Copy)]
pub struct LineText(pub Option<LineNumber>);

#[tactic(auto, unfolding(crate::specs::Texts::line_text))]
impl Display for LineText {
    ghost output = { λ text. Some (line_text text.0) };

    fn fmt<W: fmt::Write>(&self, f: &mut fmt::Formatter<W>) -> fmt::Result {
        match self.0 {
            Some(entry) => {
                let line = entry.line;
                write!(f, " line {line}")
            }
            None => Ok(()),
        }
    }
}

/// What is next in the initialization of a class.
#[derive(Clone, Copy)]
pub struct StageText(pub Stage);

#[tactic(auto, unfolding(crate::specs::Texts::stage_text))]
impl Display for StageText {
    ghost output = { λ text. Some (stage_text text.0) };

    fn fmt<W: fmt::Write>(&self, f: &mut fmt::Formatter<W>) -> fmt::Result {
        f.write_str(match self.0 {
            Stage::Begin => "begin",
            Stage::Superclass => "super",
            Stage::Initializer => "clinit",
            Stage::End => "end",
        })
    }
}

/// What an event came to.
#[derive(Clone, Copy)]
pub struct KindText(pub ReplyKind);

#[tactic(auto, unfolding(crate::specs::Texts::kind_text))]
impl Display for KindText {
    ghost output = { λ text. Some (kind_text text.0) };

    fn fmt<W: fmt::Write>(&self, f: &mut fmt::Formatter<W>) -> fmt::Result {
        f.write_str(match self.0 {
            ReplyKind::Done => "done",
            ReplyKind::Blocked => "blocked",
            ReplyKind::Ended => "ended",
            ReplyKind::None => "none",
            ReplyKind::Stopped => "stopped",
        })
    }
}

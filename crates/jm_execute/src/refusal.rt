// Why a job is not done.

ghost use Rattle.std.specs.Prelude.{◌≡◌, Some};
ghost use Rattle.std.specs.Fmt.{WritesOnOk};
ghost use Rattle.jm_execute.specs.Reasons.{reason_says, reason_status, reason_text};
ghost use Rattle.jm_execute.specs.Refusals.{reason_of};

use crate::file_name::FileName;
use jm_class_reader::ReadFault;
use jm_class_writer::WriteFault;
use jm_explain::Status;
use jm_jasmin::AsmFault;
use jm_linker::LinkFault;
use std::fmt;
use std::fmt::Display;

/// Why a job is not done, as a line of standard error says it.
#[derive(Drop)]
pub enum Refusal<'a> {
    /// The file of this name could not be read.
    NotRead(&'a str),
    /// The file of this name spells no class.
    BadClass(&'a str, ReadFault),
    /// The file of this name holds a text that denotes no class.
    BadText(&'a str, AsmFault),
    /// The class of the text of this name passes a limit of class files.
    Unwritten(&'a str, WriteFault),
    Unlinked(LinkFault),
    HeapTooSmall,
    /// The line of this number, from 1, spells no event, or one too many.
    BadSchedule(u64),
}

impl Refusal<'_> {
    /// The status that the program ends with.
    pub fn status(&self) -> Status
        ensures { result ≡ reason_status (reason_of self.now) }
    {
        match self {
            Refusal::NotRead(_) => Status::Files,
            Refusal::BadClass(_, _) => Status::Refused,
            Refusal::BadText(_, _) => Status::Refused,
            Refusal::Unwritten(_, _) => Status::Refused,
            Refusal::Unlinked(_) => Status::Refused,
            Refusal::HeapTooSmall => Status::Refused,
            Refusal::BadSchedule(_) => Status::BadSchedule,
        }
    }

    /// Writes what is said of it.
    pub(crate) fn write_said<W: fmt::Write>(&self, f: &mut fmt::Formatter<W>) -> fmt::Result
        ensures { WritesOnOk W.write_str_gives f.old result (reason_says (reason_of self.now)) f.new }
    {
        match self {
            Refusal::NotRead(file) => write!(f, "{}: not read", FileName(file)),
            Refusal::BadClass(file, fault) => write!(f, "{}: {fault}", FileName(file)),
            Refusal::BadText(file, fault) => write!(f, "{}: {fault}", FileName(file)),
            Refusal::Unwritten(file, fault) => write!(f, "{}: {fault}", FileName(file)),
            Refusal::Unlinked(fault) => write!(f, "{fault}"),
            Refusal::HeapTooSmall => f.write_str("63 HeapTooSmall"),
            Refusal::BadSchedule(line) => write!(f, "70 BadSchedule({line})"),
        }
    }
}

impl Display for Refusal<'_> {
    ghost output = { λ refusal. Some (reason_text (reason_of refusal)) };

    fn fmt<W: fmt::Write>(&self, f: &mut fmt::Formatter<W>) -> fmt::Result {
        f.write_str("jm: ")?;
        self.write_said(f)
    }
}

/// What keeps a run from its first event, or a class file from being written.
#[derive(Drop)]
pub enum Obstacle<'a> {
    Refused(Refusal<'a>),
    OutOfMemory,
}

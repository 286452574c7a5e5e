// Why a text is no class.

ghost use Rattle.std.specs.Prelude.{◌≡◌, Some};
ghost use Rattle.jm_bytes.specs.Reading.{fault_as};
ghost use Rattle.jm_jasmin_ops.specs.FaultTexts.{fault_text, left_out_text};
ghost use Rattle.jm_jasmin_ops.specs.Faults.{line_of, of_read};

use crate::directive::LeftOutDirective;
use jm_class_format::{LeftOutOp, LeftOutPart, ReadFault};
use std::alloc::{AllocError, AllocFailed};
use std::error::Error;
use std::fmt;

/// What the profile leaves out of an assembler text.
#[derive(Clone, Copy, PartialEq, Eq)]
pub enum AsmLeftOut {
    /// An instruction, or an element type of `newarray`.
    Instruction(LeftOutOp),
    /// A part of a class.
    Part(LeftOutPart),
    /// A branch offset as a number, in place of a label.
    Offset,
    /// A directive.
    Directive(LeftOutDirective),
}

#[tactic(auto, unfolding(crate::specs::FaultTexts::left_out_text))]
impl fmt::Display for AsmLeftOut {
    ghost output = { λ what. Some (left_out_text what) };

    fn fmt<W: fmt::Write>(&self, f: &mut fmt::Formatter<W>) -> fmt::Result {
        match self {
            AsmLeftOut::Instruction(op) => write!(f, "{op}"),
            AsmLeftOut::Part(part) => write!(f, "{part}"),
            AsmLeftOut::Offset => f.write_str("numeric branch offset"),
            AsmLeftOut::Directive(directive) => write!(f, "{directive}"),
        }
    }
}

/// Why a text is no class, with the line, counted from 1.
#[derive(Clone, Copy, PartialEq, Eq)]
pub enum AsmFault {
    /// A text that is no descriptor of the kind that its place needs (JVMS 4.3).
    BadDescriptor(usize),
    /// A text that is no name of the kind that its place needs (JVMS 4.2).
    BadName(usize),
    /// Something that is neither a word nor a string.
    BadToken(usize),
    /// A line that the grammar does not have there.
    Syntax(usize),
    /// A label that its method has already.
    DuplicateLabel(usize),
    /// A label that its method does not have, or that stands behind the last instruction.
    NoLabel(usize),
    /// A number or a count that does not fit its place: an invokeinterface count, the dimensions of
    /// multianewarray, locals, a table without targets or past the last int, keys that do not
    /// rise, an empty range.
    BadCount(usize),
    /// What the profile leaves out.
    LeftOut(AsmLeftOut, usize),
    /// A growth was refused.
    OutOfMemory,
}

#[tactic(auto, unfolding(crate::specs::FaultTexts::fault_text))]
impl fmt::Display for AsmFault {
    ghost output = { λ fault. Some (fault_text fault) };

    fn fmt<W: fmt::Write>(&self, f: &mut fmt::Formatter<W>) -> fmt::Result {
        match self {
            AsmFault::BadDescriptor(line) => write!(f, "1 BadDescriptor({line})"),
            AsmFault::BadName(line) => write!(f, "2 BadName({line})"),
            AsmFault::BadToken(line) => write!(f, "40 BadToken({line})"),
            AsmFault::Syntax(line) => write!(f, "41 Syntax({line})"),
            AsmFault::DuplicateLabel(line) => write!(f, "42 DuplicateLabel({line})"),
            AsmFault::NoLabel(line) => write!(f, "43 NoLabel({line})"),
            AsmFault::BadCount(line) => write!(f, "45 BadCount({line})"),
            AsmFault::LeftOut(what, _) => write!(f, "46 LeftOut({what})"),
            AsmFault::OutOfMemory => f.write_str("61 OutOfMemory"),
        }
    }
}

impl Error for AsmFault {}

/// As it is displayed.
impl fmt::Debug for AsmFault {
    fn fmt<W: fmt::Write>(&self, f: &mut fmt::Formatter<W>) -> fmt::Result {
        fmt::Display::fmt(self, f)
    }
}

impl AsmFault {
    /// The line of the fault, counted from 1; none for want of memory.
    pub fn line(&self) -> Option<usize>
        ensures { result ≡ line_of self.now }
    {
        match self {
            AsmFault::BadDescriptor(line)
            | AsmFault::BadName(line)
            | AsmFault::BadToken(line)
            | AsmFault::Syntax(line)
            | AsmFault::DuplicateLabel(line)
            | AsmFault::NoLabel(line)
            | AsmFault::BadCount(line)
            | AsmFault::LeftOut(_, line) => Some(*line),
            AsmFault::OutOfMemory => None,
        }
    }

    /// The fault of a name or a type, at a line. A fault of a class file's bytes, which no name
    /// and no type has, is 41.
    pub fn of_read(line: usize, fault: ReadFault) -> AsmFault
        ensures { result ≡ of_read line fault }
    {
        match fault {
            ReadFault::BadDescriptor => AsmFault::BadDescriptor(line),
            ReadFault::BadName => AsmFault::BadName(line),
            ReadFault::LeftOut(part) => AsmFault::LeftOut(AsmLeftOut::Part(part), line),
            ReadFault::OutOfMemory => AsmFault::OutOfMemory,
            _ => AsmFault::Syntax(line),
        }
    }
}

/// What was read of a name or a type in a line, or its fault there.
pub fn at_line<T: Drop>(line: usize, read: Result<T, ReadFault>) -> Result<T, AsmFault>
    ensures { result ≡ fault_as (of_read line) read }
{
    match read {
        Ok(value) => Ok(value),
        Err(fault) => Err(AsmFault::of_read(line, fault)),
    }
}

impl From<AllocError> for AsmFault {
    ghost use Rattle.jm_jasmin_ops.specs.declared.fault.AsmFault.TheVariants.{OutOfMemory};

    ghost from_gives = { λ _ fault. fault ≡ OutOfMemory };

    fn from(_error: AllocError) -> AsmFault {
        AsmFault::OutOfMemory
    }
}

impl<T: Drop> From<AllocFailed<T>> for AsmFault {
    ghost use Rattle.jm_jasmin_ops.specs.declared.fault.AsmFault.TheVariants.{OutOfMemory};

    ghost from_gives = { λ _ fault. fault ≡ OutOfMemory };

    fn from(_error: AllocFailed<T>) -> AsmFault {
        AsmFault::OutOfMemory
    }
}

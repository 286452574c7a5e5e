// The code of a method, and the rules that it keeps (JVMS 4.7.3, 4.9.1).

ghost use Rattle.std.specs.Prelude.{◌≡◌, List, ℕ, Option};
ghost use Rattle.std.specs.List.{list_all};
ghost use Rattle.jm_program.specs.Instructions.{instr_fits};
ghost use Rattle.jm_program.specs.Codes.{catch_type_fits, handler_fits, line_fits, code_fits};

use crate::instruction::Instr;
use crate::name::Name;
use crate::sequence::Sequence;

/// The code of a method (JVMS 4.7.3). An instruction's number is its place among the
/// instructions, from 0.
#[derive(PartialEq, Eq)]
pub struct Code {
    /// The depth of the operand stack in units: a long takes two.
    pub max_stack: u16,
    /// The number of local variables: a long takes two.
    pub max_locals: u16,
    pub instructions: Sequence<Instr>,
    /// The exception table, in its order.
    pub handlers: Sequence<Handler>,
    /// The line number table, in its order.
    pub lines: Sequence<LineNumber>,
}

// Written out, so that whoever lets go of one makes a call (docs/DECISIONS.md).
impl Drop for Code {
    fn drop(self) {
        let Code {
            max_stack: _,
            max_locals: _,
            instructions: _,
            handlers: _,
            lines: _,
        } = self;
    }
}

/// A row of the exception table (JVMS 4.7.3). The range goes from `start`, included, to `end`,
/// excluded.
#[derive(PartialEq, Eq)]
pub struct Handler {
    pub start: u32,
    pub end: u32,
    /// The number of the handler's first instruction.
    pub target: u32,
    /// The class that is caught, or none for every one.
    pub catch_type: Option<Name>,
}

// Written out, so that whoever lets go of one makes a call (docs/DECISIONS.md).
impl Drop for Handler {
    fn drop(self) {
        let Handler {
            start: _,
            end: _,
            target: _,
            catch_type: _,
        } = self;
    }
}

/// A row of the line number table (JVMS 4.7.12): the instructions from `start` on come from the
/// line.
#[derive(Clone, Copy, PartialEq, Eq)]
pub struct LineNumber {
    pub start: u32,
    pub line: u16,
}

impl Handler {
    /// Whether it can stand in a code of so many instructions (JVMS 4.7.3).
    pub fn fits(&self, count: usize) -> bool
        ensures { result ≡ handler_fits count self.now }
    {
        self.start < self.end
            && self.end as usize <= count
            && (self.target as usize) < count
            && catch_type_fits(&self.catch_type)
    }
}

impl LineNumber {
    /// Whether it can stand in a code of so many instructions (JVMS 4.7.12).
    pub fn fits(&self, count: usize) -> bool
        ensures { result ≡ line_fits count self.now }
    {
        (self.start as usize) < count
    }
}

impl Code {
    /// Whether it can be the code of a method whose arguments, its receiver included, take so
    /// many slots (JVMS 4.7.3, 4.7.12, 4.9.1).
    pub fn fits(&self, slots: u16) -> bool
        ensures { result ≡ code_fits slots self.now }
    {
        let count = self.instructions.as_slice().len();
        slots <= self.max_locals
            && 0 < count
            && instructions_fit(self.instructions.as_slice(), count)
            && handlers_fit(self.handlers.as_slice(), count)
            && lines_fit(self.lines.as_slice(), count)
    }
}

fn catch_type_fits(catch_type: &Option<Name>) -> bool
    ensures { result ≡ catch_type_fits catch_type.now }
{
    match catch_type {
        None => true,
        Some(name) => name.is_class_name(),
    }
}

fn instructions_fit(instructions: &[Instr], count: usize) -> bool
    ensures { result ≡ list_all (instr_fits count) instructions.now }
{
    instructions
        .iter()
        .all(|instruction| instruction.fits(count))
}

fn handlers_fit(handlers: &[Handler], count: usize) -> bool
    ensures { result ≡ list_all (handler_fits count) handlers.now }
{
    handlers.iter().all(|handler| handler.fits(count))
}

fn lines_fit(lines: &[LineNumber], count: usize) -> bool
    ensures { result ≡ list_all (line_fits count) lines.now }
{
    lines.iter().all(|line| line.fits(count))
}

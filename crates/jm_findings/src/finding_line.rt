// The line of a finding.

ghost use Rattle.std.specs.Prelude.{◌≡◌, ◌++◌, Some, option_copied, slice_get};
ghost use Rattle.std.specs.Fmt.{WritesOnOk};
ghost use Rattle.jm_builtins.specs.List.{the_builtins};
ghost use Rattle.jm_findings.specs.Places.{class_text};
ghost use Rattle.jm_findings.specs.Lines.{catch_in_class, catch_in_method, catch_text, finding_line, handler_in, instruction_in, site_text, use_in_class, use_in_method, use_text};

use crate::class::{write_class, write_numbered_class};
use crate::main_classes::write_main;
use crate::overloads::write_instead;
use crate::place::write_place;
use crate::reference::write_needed;
use jm_builtins::BuiltIn;
use jm_linker::{Finding, LinkFault, Site};
use jm_program::{Class, ClassParts, Handler, Instr, Method};
use std::fmt;
use std::fmt::Display;

/// A finding of a program, as a line says it: the number and the name of what is wrong, what is needed and
/// where it is needed, and what there is instead.
#[derive(Clone, Copy)]
pub struct FindingLine<'a> {
    pub program: &'a [Class],
    /// All built-in classes.
    pub built_ins: &'a [BuiltIn],
    pub finding: &'a Finding,
    ghost complete: { built_ins.now ≡ the_builtins },
}

// The instruction of a number in a method's code.
fn instruction_in(method: &Method, number: usize) -> Option<&Instr>
    ensures { option_copied result ≡ instruction_in method.now number }
{
    match &method.code {
        Some(code) => code.instructions.as_slice().get(number),
        None => None,
    }
}

// The row of a number in the exception table of a method's code.
fn handler_in(method: &Method, number: usize) -> Option<&Handler>
    ensures { option_copied result ≡ handler_in method.now number }
{
    match &method.code {
        Some(code) => code.handlers.as_slice().get(number),
        None => None,
    }
}

#[tactic(auto, unfolding(crate::specs::Lines::catch_text))]
fn write_catch<W: fmt::Write>(
    f: &mut fmt::Formatter<W>,
    class: &ClassParts,
    method: &Method,
    number: usize,
) -> fmt::Result
    ensures { WritesOnOk W.write_str_gives f.old result (catch_text class.now method.now (handler_in method.now number)) f.new }
{
    match handler_in(method, number) {
        Some(handler) => {
            write_place(f, class, method, u64::from(handler.target))?;
            f.write_str(", as a catch type")
        }
        None => Ok(()),
    }
}

#[tactic(auto, unfolding(crate::specs::Lines::catch_in_method))]
fn write_catch_in<W: fmt::Write>(
    f: &mut fmt::Formatter<W>,
    class: &ClassParts,
    method: usize,
    number: usize,
) -> fmt::Result
    ensures { WritesOnOk W.write_str_gives f.old result (catch_in_method class.now (slice_get class.now.methods method) number) f.new }
{
    match class.methods.as_slice().get(method) {
        Some(method) => write_catch(f, class, method, number),
        None => Ok(()),
    }
}

// Writes the class of a number, and as what it names a class over it.
fn write_over<W: fmt::Write>(
    f: &mut fmt::Formatter<W>,
    program: &[Class],
    number: usize,
    words: &str,
) -> fmt::Result
    ensures { WritesOnOk W.write_str_gives f.old result (class_text (slice_get program.now number) ++ words.now) f.new }
{
    write_class(f, program, number)?;
    f.write_str(words)
}

impl FindingLine<'_> {
    #[tactic(auto, unfolding(crate::specs::Lines::use_text))]
    fn write_use<W: fmt::Write>(
        &self,
        f: &mut fmt::Formatter<W>,
        class: &ClassParts,
        method: &Method,
        number: usize,
    ) -> fmt::Result
        ensures { WritesOnOk W.write_str_gives f.old result
            (use_text self.now.program.now self.now.finding.now.fault class.now method.now number (instruction_in method.now number)) f.new }
    {
        let fault = &self.finding.fault;
        match instruction_in(method, number) {
            Some(instruction) => {
                write_needed(f, fault, instruction)?;
                write_place(f, class, method, number as u64)?;
                write_instead(f, self.program, self.built_ins, fault, instruction)
            }
            None => Ok(()),
        }
    }

    #[tactic(auto, unfolding(crate::specs::Lines::use_in_method))]
    fn write_use_in<W: fmt::Write>(
        &self,
        f: &mut fmt::Formatter<W>,
        class: &ClassParts,
        method: usize,
        number: usize,
    ) -> fmt::Result
        ensures { WritesOnOk W.write_str_gives f.old result
            (use_in_method self.now.program.now self.now.finding.now.fault class.now (slice_get class.now.methods method) number) f.new }
    {
        match class.methods.as_slice().get(method) {
            Some(method) => self.write_use(f, class, method, number),
            None => Ok(()),
        }
    }

    #[tactic(auto, unfolding(crate::specs::Lines::use_in_class))]
    fn write_instruction<W: fmt::Write>(
        &self,
        f: &mut fmt::Formatter<W>,
        class: usize,
        method: usize,
        number: usize,
    ) -> fmt::Result
        ensures { WritesOnOk W.write_str_gives f.old result
            (use_in_class self.now.program.now self.now.finding.now.fault (slice_get self.now.program.now class) method number) f.new }
    {
        match self.program.get(class) {
            Some(class) => self.write_use_in(f, class.parts(), method, number),
            None => Ok(()),
        }
    }

    #[tactic(auto, unfolding(crate::specs::Lines::catch_in_class))]
    fn write_handler<W: fmt::Write>(
        &self,
        f: &mut fmt::Formatter<W>,
        class: usize,
        method: usize,
        number: usize,
    ) -> fmt::Result
        ensures { WritesOnOk W.write_str_gives f.old result (catch_in_class (slice_get self.now.program.now class) method number) f.new }
    {
        match self.program.get(class) {
            Some(class) => write_catch_in(f, class.parts(), method, number),
            None => Ok(()),
        }
    }

    #[tactic(auto, unfolding(crate::specs::Lines::site_text))]
    fn write_site<W: fmt::Write>(&self, f: &mut fmt::Formatter<W>) -> fmt::Result
        ensures { WritesOnOk W.write_str_gives f.old result
            (site_text self.now.program.now self.now.finding.now.fault self.now.finding.now.site) f.new }
    {
        match self.finding.site {
            Site::Class(class) => write_numbered_class(f, self.program, class),
            Site::Superclass(class) => write_over(f, self.program, class, ", as its superclass"),
            Site::Interface { class, .. } => {
                write_over(f, self.program, class, ", as its superinterface")
            }
            Site::Main => write_main(f, self.program),
            Site::Instruction {
                class,
                method,
                instruction,
            } => self.write_instruction(f, class, method, instruction),
            Site::Handler {
                class,
                method,
                handler,
            } => self.write_handler(f, class, method, handler),
        }
    }
}

#[tactic(auto, unfolding(crate::specs::Lines::finding_line))]
impl Display for FindingLine<'_> {
    ghost output = { λ line. Some (finding_line line.program.now line.finding.now) };

    fn fmt<W: fmt::Write>(&self, f: &mut fmt::Formatter<W>) -> fmt::Result {
        let fault = &self.finding.fault;
        write!(f, "{fault}: ")?;
        self.write_site(f)
    }
}

// What an instruction refers to.

ghost use Rattle.std.specs.Fmt.{WritesOnOk};
ghost use Rattle.jm_findings.specs.Places.{member_text, needed_text};

use jm_linker::LinkFault;
use jm_program::{FieldRef, Instr, MethodRef};
use std::fmt;
use std::fmt::Display;

// A field, as it is written: CLASS.NAME TYPE.
#[derive(Clone, Copy)]
struct FieldText<'a>(&'a FieldRef);

#[tactic(auto, unfolding(crate::specs::Places::field_text))]
impl Display for FieldText<'_> {
    ghost use Rattle.std.specs.Prelude.{Some};
    ghost use Rattle.jm_findings.specs.Places.{field_text};

    ghost output = { λ text. Some (field_text text.0.now) };

    fn fmt<W: fmt::Write>(&self, f: &mut fmt::Formatter<W>) -> fmt::Result {
        let class = &self.0.class;
        let name = &self.0.name;
        let descriptor = &self.0.descriptor;
        write!(f, "{class}.{name} {descriptor}")
    }
}

// A method, as it is written: CLASS.NAMETYPE.
#[derive(Clone, Copy)]
struct MethodText<'a>(&'a MethodRef);

#[tactic(auto, unfolding(crate::specs::Places::method_text))]
impl Display for MethodText<'_> {
    ghost use Rattle.std.specs.Prelude.{Some};
    ghost use Rattle.jm_findings.specs.Places.{method_text};

    ghost output = { λ text. Some (method_text text.0.now) };

    fn fmt<W: fmt::Write>(&self, f: &mut fmt::Formatter<W>) -> fmt::Result {
        let class = &self.0.class;
        let name = &self.0.name;
        let descriptor = &self.0.descriptor;
        write!(f, "{class}.{name}{descriptor}")
    }
}

#[tactic(auto, unfolding(crate::specs::Places::member_text))]
fn write_member<W: fmt::Write>(f: &mut fmt::Formatter<W>, instruction: &Instr) -> fmt::Result
    ensures { WritesOnOk W.write_str_gives f.old result (member_text instruction.now) f.new }
{
    match instruction {
        Instr::Field(_, field) => {
            let field = FieldText(field.get());
            write!(f, "{field}, needed by ")
        }
        Instr::Invoke(_, method) => {
            let method = MethodText(method.get());
            write!(f, "{method}, needed by ")
        }
        _ => Ok(()),
    }
}

/// Writes the member that an instruction refers to, where its name alone does not say what is wrong.
#[tactic(auto, unfolding(crate::specs::Places::needed_text))]
pub fn write_needed<W: fmt::Write>(
    f: &mut fmt::Formatter<W>,
    fault: &LinkFault,
    instruction: &Instr,
) -> fmt::Result
    ensures { WritesOnOk W.write_str_gives f.old result (needed_text fault.now instruction.now) f.new }
{
    match fault {
        LinkFault::NoField(_) | LinkFault::NoMethod(_) | LinkFault::WrongKind(_) => {
            write_member(f, instruction)
        }
        _ => Ok(()),
    }
}

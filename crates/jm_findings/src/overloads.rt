// The methods that there are of a name.

ghost use Rattle.std.specs.List.{flat_map};
ghost use Rattle.std.specs.Prelude.{◌≡◌};
ghost use Rattle.std.specs.Fmt.{WritesOnOk};
ghost use Rattle.jm_builtins.specs.List.{the_builtins};
ghost use Rattle.jm_findings.specs.Others.{also_method, first_method, instead_text, methods_named, there_are};

use crate::class::methods_of_class;
use jm_builtins::BuiltIn;
use jm_linker::LinkFault;
use jm_program::{Class, ClassRef, Instr, Method, Name};
use std::fmt;

// Writes the types of the other methods that have the name.
#[tactic(auto, unfolding(crate::specs::Others::also_method))]
fn write_more<W: fmt::Write>(
    f: &mut fmt::Formatter<W>,
    name: &Name,
    methods: &[Method],
) -> fmt::Result
    ensures { WritesOnOk W.write_str_gives f.old result (flat_map (also_method name.now) methods.now) f.new }
{
    for other in methods {
        if other.name == *name {
            let descriptor = &other.descriptor;
            write!(f, ", {descriptor}")?;
        }
    }
    Ok(())
}

// Writes the type of the first method of the name, and those of the others behind it.
#[tactic(auto, unfolding(crate::specs::Others::first_method))]
fn write_first<W: fmt::Write>(
    f: &mut fmt::Formatter<W>,
    name: &Name,
    method: &Method,
    others: &[Method],
) -> fmt::Result
    ensures { WritesOnOk W.write_str_gives f.old result (first_method name.now method.now others.now) f.new }
{
    let descriptor = &method.descriptor;
    write!(f, "; there are {descriptor}")?;
    write_more(f, name, others)
}

// Writes the types of the methods that have the name, if there are some.
fn write_overloads<W: fmt::Write>(
    f: &mut fmt::Formatter<W>,
    name: &Name,
    methods: &[Method],
) -> fmt::Result
    ensures { WritesOnOk W.write_str_gives f.old result (there_are name.now methods.now) f.new }
{
    for (number, method) in methods.iter().enumerate() {
        if method.name == *name {
            return write_first(f, name, method, &methods[number + 1..]);
        }
    }
    Ok(())
}

#[tactic(auto, unfolding(crate::specs::Others::methods_named))]
fn write_methods_named<W: fmt::Write>(
    f: &mut fmt::Formatter<W>,
    program: &[Class],
    built_ins: &[BuiltIn],
    class: &ClassRef,
    name: &Name,
) -> fmt::Result
    requires { built_ins.now ≡ the_builtins }
    ensures { WritesOnOk W.write_str_gives f.old result (methods_named program.now class.now name.now) f.new }
{
    match class {
        ClassRef::Class(class) => {
            write_overloads(f, name, methods_of_class(program, built_ins, class))
        }
        ClassRef::Array(_) => Ok(()),
    }
}

/// Writes, where a method is not there, those of its name that the class declares.
#[tactic(auto, unfolding(crate::specs::Others::instead_text))]
pub fn write_instead<W: fmt::Write>(
    f: &mut fmt::Formatter<W>,
    program: &[Class],
    built_ins: &[BuiltIn],
    fault: &LinkFault,
    instruction: &Instr,
) -> fmt::Result
    requires { built_ins.now ≡ the_builtins }
    ensures { WritesOnOk W.write_str_gives f.old result (instead_text program.now fault.now instruction.now) f.new }
{
    match (fault, instruction) {
        (LinkFault::NoMethod(_), Instr::Invoke(_, method)) => {
            let method = method.get();
            write_methods_named(f, program, built_ins, &method.class, &method.name)
        }
        _ => Ok(()),
    }
}

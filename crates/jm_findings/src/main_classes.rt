// The classes that declare main.

ghost use Rattle.std.specs.List.{flat_map};
ghost use Rattle.std.specs.Fmt.{WritesOnOk};
ghost use Rattle.jm_findings.specs.Others.{also_main, first_main, main_text, there_is_main};

use crate::class::is_main_class;
use jm_program::Class;
use std::fmt;

// Writes the other classes that declare main.
#[tactic(auto, unfolding(crate::specs::Others::also_main))]
fn write_more<W: fmt::Write>(f: &mut fmt::Formatter<W>, classes: &[Class]) -> fmt::Result
    ensures { WritesOnOk W.write_str_gives f.old result (flat_map also_main classes.now) f.new }
{
    for class in classes {
        if is_main_class(class) {
            let name = &class.parts().name;
            write!(f, ", {name}")?;
        }
    }
    Ok(())
}

// Writes the first class that declares main, and the others behind it.
#[tactic(auto, unfolding(crate::specs::Others::first_main))]
fn write_first<W: fmt::Write>(
    f: &mut fmt::Formatter<W>,
    class: &Class,
    others: &[Class],
) -> fmt::Result
    ensures { WritesOnOk W.write_str_gives f.old result (first_main class.now others.now) f.new }
{
    let name = &class.parts().name;
    write!(f, "; there is one in {name}")?;
    write_more(f, others)
}

// Writes the classes that declare main, if there are some.
fn write_others<W: fmt::Write>(f: &mut fmt::Formatter<W>, classes: &[Class]) -> fmt::Result
    ensures { WritesOnOk W.write_str_gives f.old result (there_is_main classes.now) f.new }
{
    for (number, class) in classes.iter().enumerate() {
        if is_main_class(class) {
            return write_first(f, class, &classes[number + 1..]);
        }
    }
    Ok(())
}

/// Writes the first class of a program whose first class declares no main, and those that declare one.
#[tactic(auto, unfolding(crate::specs::Others::main_text))]
pub fn write_main<W: fmt::Write>(f: &mut fmt::Formatter<W>, program: &[Class]) -> fmt::Result
    ensures { WritesOnOk W.write_str_gives f.old result (main_text program.now) f.new }
{
    match program.split_first() {
        Some((first, others)) => {
            let name = &first.parts().name;
            write!(f, "{name}")?;
            write_others(f, others)
        }
        None => f.write_str("no class"),
    }
}

// Classes by number and by name.

ghost use Rattle.std.specs.Prelude.{◌≡◌, ◌∷◌, [], slice_get};
ghost use Rattle.std.specs.Fmt.{WritesOnOk};
ghost use Rattle.jm_program.specs.Names.{same_text};
ghost use Rattle.jm_builtins.specs.List.{the_builtins};
ghost use Rattle.jm_world.specs.Classes.{built_in_named, class_named};
ghost use Rattle.jm_findings.specs.Others.{has_main, methods_of};
ghost use Rattle.jm_findings.specs.Places.{class_text, counted_text, numbered_text};

use jm_builtins::BuiltIn;
use jm_linker::has_main;
use jm_program::{Class, Method, Name};
use std::{fmt, slice};

/// Writes the name of the class of a number, counted from 0.
#[tactic(auto, unfolding(crate::specs::Places::class_text))]
pub fn write_class<W: fmt::Write>(
    f: &mut fmt::Formatter<W>,
    program: &[Class],
    number: usize,
) -> fmt::Result
    ensures { WritesOnOk W.write_str_gives f.old result (class_text (slice_get program.now number)) f.new }
{
    match program.get(number) {
        Some(class) => {
            let name = &class.parts().name;
            write!(f, "{name}")
        }
        None => Ok(()),
    }
}

// Writes the name of a class and its number.
#[tactic(auto, unfolding(crate::specs::Places::counted_text))]
fn write_counted<W: fmt::Write>(
    f: &mut fmt::Formatter<W>,
    class: &Class,
    counted: usize,
) -> fmt::Result
    ensures { WritesOnOk W.write_str_gives f.old result (counted_text class.now counted) f.new }
{
    let name = &class.parts().name;
    write!(f, "{name}, class {counted}")
}

/// Writes the name of the class of a number, counted from 0, and the number, counted from 1.
#[tactic(auto, unfolding(crate::specs::Places::numbered_text))]
pub fn write_numbered_class<W: fmt::Write>(
    f: &mut fmt::Formatter<W>,
    program: &[Class],
    number: usize,
) -> fmt::Result
    ensures { WritesOnOk W.write_str_gives f.old result (numbered_text (slice_get program.now number) number) f.new }
{
    match program.get(number) {
        Some(class) => write_counted(f, class, number + 1),
        None => Ok(()),
    }
}

/// Whether a run could begin with the class.
pub fn is_main_class(class: &Class) -> bool
    ensures { result ≡ has_main class.now }
{
    has_main(slice::from_ref(class))
}

// The methods of the built-in class of the name, of which there are none where there is no such class.
fn methods_of_built_in<'a>(built_ins: &'a [BuiltIn], name: &Name) -> &'a [Method]
    ensures { result.now ≡ methods_of (built_in_named built_ins.now name.now) }
{
    for class in built_ins {
        if class.name == *name {
            return class.methods.as_slice();
        }
    }
    &[]
}

/// The methods that the class of the name declares: the program's class, or else a built-in one. There
/// are none where there is no such class.
#[tactic(auto, unfolding(jm_world::specs::Classes::class_named))]
pub fn methods_of_class<'a>(
    program: &'a [Class],
    built_ins: &'a [BuiltIn],
    name: &Name,
) -> &'a [Method]
    requires { built_ins.now ≡ the_builtins }
    ensures { result.now ≡ methods_of (class_named program.now name.now) }
{
    for class in program {
        if class.parts().name == *name {
            return class.parts().methods.as_slice();
        }
    }
    methods_of_built_in(built_ins, name)
}

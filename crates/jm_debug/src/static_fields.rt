// The static fields of a class.

ghost use Rattle.std.specs.Prelude.{◌≡◌, ◌++◌, OnOk, IfOk, is_some, option_map};
ghost use Rattle.std.specs.List.{flat_map, list_any};
ghost use Rattle.jm_program.specs.Names.{same_text};
ghost use Rattle.jm_program.specs.declared.class.ClassParts.{ClassParts};
ghost use Rattle.jm_builtins.specs.declared.built_in.BuiltIn.{BuiltIn};
ghost use Rattle.jm_world.specs.Classes.{class_named};
ghost use Rattle.jm_world.specs.World.{World};
ghost use Rattle.jm_machine.specs.Readers.{model_static};
ghost use Rattle.jm_machine.specs.View.{MatchesWorld};
ghost use Rattle.jm_debug.specs.Views.{lines_from, lines_of, static_lines, statics_lines};
ghost use Rattle.jm_debug.specs.Session.{ended, bytes_of, Shows};

use crate::answer::or_none;
use crate::fault::DebugFault;
use crate::text::ValueText;
use jm_builtins::{BuiltIn, builtins};
use jm_heap::Heap;
use jm_machine::{Machine, WorldStatic, WorldStatics};
use jm_program::{Class, Name, Sequence};
use std::alloc::{AllocError, Global};
use std::fmt::Write;

// Whether a class of the program has the name.
fn is_of_program(program: &[Class], name: &Name) -> bool
    ensures { result ≡ list_any (λ (c : ClassParts). same_text c.name name.now) program.now }
{
    program.iter().any(|class| class.parts().name == *name)
}

// Whether a built-in class has the name.
fn is_built_in(classes: &Sequence<BuiltIn>, name: &Name) -> bool
    ensures { result ≡ list_any (λ (b : BuiltIn). same_text b.name name.now) classes.now }
{
    classes.as_slice().iter().any(|class| class.name == *name)
}

// Whether there is a class of the name.
#[tactic(auto, using(crate::proofs::ClassesNamed::is_class_named))]
fn is_class(alloc: Global, program: &[Class], name: &Name) -> Result<bool, AllocError>
    ensures { IfOk result (λ is. is ≡ is_some (class_named program.now name.now)) }
{
    if is_of_program(program, name) {
        return Ok(true);
    }
    let classes = builtins(alloc)?;
    Ok(is_built_in(&classes, name))
}

// Writes the line of a static field, if there is one and the class declares it.
#[tactic(auto, using(crate::proofs::Written::one_line), unfolding(crate::specs::Views::static_text))]
fn write_static(
    out: &mut String,
    class: &Name,
    index: usize,
    field: Option<WorldStatic<'_>>,
) -> Result<(), AllocError>
    ensures { OnOk result (out.new.bytes.items
        ≡ out.old.bytes.items ++ flat_map ended (lines_of (static_lines class.now) index (option_map model_static field.entry))) }
{
    let Some(field) = field else {
        return Ok(());
    };
    if field.class != class {
        return Ok(());
    }
    let name = field.name;
    let descriptor = field.descriptor;
    let value = ValueText(field.value);
    write!(out, "{name} {descriptor} = {value}\n")
}

/// Writes the lines of the static fields that a class declares, in its order. `AllocError`: a growth was
/// refused; some of them may stand there then.
pub fn write_statics<H: Heap>(
    out: &mut String,
    class: &Name,
    statics: &WorldStatics<'_, H>,
) -> Result<(), AllocError>
    ensures { OnOk result (out.new.bytes.items ≡ out.old.bytes.items ++ flat_map ended (lines_from (static_lines class.now) 0 statics.now)) }
{
    for index in 0..statics.len() {
        write_static(out, class, index, statics.get(index))?;
    }
    Ok(())
}

/// The static fields that a class declares, in its order. `NoSuch`: there is no class of the name;
/// `OutOfMemory`: a growth was refused.
pub fn statics<H: Heap>(
    alloc: Global,
    machine: &Machine<H>,
    class: &Name,
) -> Result<String, DebugFault>
    ensures { (w : World) → MatchesWorld machine.now w → Shows (λ t. t.bytes.items) result (statics_lines w class.now) }
{
    if is_class(alloc, machine.program(), class)? {
        let statics = machine.statics();
        let mut out = String::new(alloc);
        write_statics(&mut out, class, &statics)?;
        Ok(or_none(out)?)
    } else {
        Err(DebugFault::NoSuch)
    }
}

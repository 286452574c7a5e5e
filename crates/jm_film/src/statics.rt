// Static fields, class by class.

ghost use Rattle.std.specs.Prelude.{◌≡◌, ◌++◌, ◌∷◌, OnOk, IfOk, map};
ghost use Rattle.std.specs.List.{flat_map};
ghost use Rattle.jm_world.specs.Classes.{system_class};
ghost use Rattle.jm_world.specs.World.{World};
ghost use Rattle.jm_machine.specs.View.{MatchesWorld};
ghost use Rattle.jm_film.specs.Shown.{class_name, statics_section};

use crate::section::put_if_any;
use jm_debug::write_statics;
use jm_heap::Heap;
use jm_machine::{Machine, WorldStatics};
use jm_page::Section;
use jm_program::{Class, Name};
use std::alloc::{AllocError, Global};

/// The code units of `java/lang/System`.
const SYSTEM: [u16; 16] = [
    106, 97, 118, 97, 47, 108, 97, 110, 103, 47, 83, 121, 115, 116, 101, 109,
];

// The name of java/lang/System.
fn system_name(alloc: Global) -> Result<Name, AllocError>
    ensures { IfOk result (λ name. name ≡ system_class) }
{
    Name::shared(alloc, &SYSTEM)
}

// Puts the static fields that a class declares, if it declares any.
fn put_declared<H: Heap>(
    alloc: Global,
    view: &mut Vec<Section>,
    class: &Name,
    statics: &WorldStatics<'_, H>,
) -> Result<(), AllocError>
    ensures { OnOk result (view.new.items ≡ view.old.items ++ statics_section statics.now class.now) }
{
    let key = format!(in alloc; "c {class}")?;
    let mut text = String::new(alloc);
    write_statics(&mut text, class, statics)?;
    put_if_any(view, key, text)
}

// Puts the static fields of classes.
fn put_all_declared<H: Heap>(
    alloc: Global,
    view: &mut Vec<Section>,
    classes: &[Class],
    statics: &WorldStatics<'_, H>,
) -> Result<(), AllocError>
    ensures { OnOk result (view.new.items ≡ view.old.items ++ flat_map (statics_section statics.now) (map class_name classes.now)) }
{
    for class in classes {
        put_declared(alloc, view, &class.parts().name, statics)?;
    }
    Ok(())
}

/// Puts the static fields of java/lang/System, and of the program's classes.
pub fn put_statics<H: Heap>(
    alloc: Global,
    view: &mut Vec<Section>,
    machine: &Machine<H>,
) -> Result<(), AllocError>
    ensures { (w : World) → MatchesWorld machine.now w
        → OnOk result (view.new.items ≡ view.old.items ++ flat_map (statics_section w.statics) (system_class ∷ map class_name w.program)) }
{
    let statics = machine.statics();
    let system = system_name(alloc)?;
    put_declared(alloc, view, &system, &statics)?;
    put_all_declared(alloc, view, machine.program(), &statics)?;
    Ok(())
}

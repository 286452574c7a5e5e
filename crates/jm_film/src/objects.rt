// The monitors that are held, and the objects that are reachable.

ghost use Rattle.std.specs.Prelude.{◌≡◌, ◌++◌, ◌∷◌, [], OnOk, codes, length, map};
ghost use Rattle.std.specs.Fmt.{decimal};
ghost use Rattle.jm_world.specs.World.{World};
ghost use Rattle.jm_machine.specs.ReachedObjects.{reached_objects, numbered_cells};
ghost use Rattle.jm_machine.specs.View.{MatchesWorld};
ghost use Rattle.jm_debug.specs.Views.{heap_text, monitor_lines};
ghost use Rattle.jm_film.specs.Shown.{heap_section, object_section, section, section_of};

use crate::section::{put, put_if_any};
use jm_debug::{write_heap, write_monitors, write_parts, write_type};
use jm_heap::Heap;
use jm_machine::{Machine, WorldObject, WorldObjects};
use jm_page::Section;
use std::alloc::{AllocError, Global};
use std::fmt::Write;

/// Puts the monitors that are held, if any is.
pub fn put_monitors<H: Heap>(
    alloc: Global,
    view: &mut Vec<Section>,
    machine: &Machine<H>,
) -> Result<(), AllocError>
    ensures { (w : World) → MatchesWorld machine.now w → OnOk result (view.new.items ≡ view.old.items ++ section_of (codes "m") (monitor_lines w)) }
{
    let Ok(monitors) = machine.monitors() else {
        return Err(AllocError);
    };
    let key = String::from_str(alloc, "m")?;
    let mut text = String::new(alloc);
    write_monitors(&mut text, &monitors)?;
    put_if_any(view, key, text)
}

// Writes how many cells an object takes, behind its class.
fn write_cells(out: &mut String, cells: u64) -> Result<(), AllocError>
    ensures { OnOk result (out.new.bytes.items ≡ out.old.bytes.items ++ (codes " " ++ decimal cells ++ codes " cells\n")) }
{
    write!(out, " {cells} cells\n")
}

// Puts an object: its class and its cells, and its fields or elements.
fn put_object<H: Heap>(
    alloc: Global,
    view: &mut Vec<Section>,
    number: u64,
    object: &WorldObject<'_, H>,
) -> Result<(), AllocError>
    ensures { OnOk result (view.new.items ≡ view.old.items ++ object_section object.now.program (number, object.now.object) ∷ []) }
{
    let key = format!(in alloc; "#{number}")?;
    let mut text = String::new(alloc);
    write_type(alloc, &mut text, object.kind())?;
    write_cells(&mut text, object.cells())?;
    write_parts(&mut text, object)?;
    put(view, key, text)
}

// Puts objects.
fn put_objects<H: Heap>(
    alloc: Global,
    view: &mut Vec<Section>,
    objects: &WorldObjects<'_, H>,
) -> Result<(), AllocError>
    ensures { OnOk result (view.new.items ≡ view.old.items ++ map (object_section objects.now.program) objects.now.objects) }
{
    for index in 0..objects.len() {
        let Some(found) = objects.get(index) else {
            return Ok(());
        };
        put_object(alloc, view, found.number, &found.object)?;
    }
    Ok(())
}

// Puts how much is reachable, and the limit.
fn put_size<H: Heap>(
    alloc: Global,
    view: &mut Vec<Section>,
    objects: &WorldObjects<'_, H>,
    limit: u64,
) -> Result<(), AllocError>
    ensures { OnOk result (view.new.items
        ≡ view.old.items ++ section (codes "h") (heap_text (length objects.now.objects) (numbered_cells objects.now.objects) limit ∷ []) ∷ []) }
{
    let key = String::from_str(alloc, "h")?;
    let mut text = String::new(alloc);
    write_heap(&mut text, objects.len(), objects.cells(), limit)?;
    put(view, key, text)
}

/// Puts how much is reachable, and each reachable object, in the order of their numbers. It looks at each
/// of them once.
pub fn put_heap<H: Heap>(
    alloc: Global,
    view: &mut Vec<Section>,
    machine: &Machine<H>,
) -> Result<(), AllocError>
    ensures { (w : World) → MatchesWorld machine.now w
        → OnOk result (view.new.items ≡ view.old.items ++ heap_section w ∷ map (object_section w.program) (reached_objects w)) }
{
    let Ok(objects) = machine.objects() else {
        return Err(AllocError);
    };
    put_size(alloc, view, &objects, machine.heap().limit())?;
    put_objects(alloc, view, &objects)?;
    Ok(())
}

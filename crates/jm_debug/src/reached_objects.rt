// All objects that are reachable.

ghost use Rattle.std.specs.Prelude.{◌≡◌, ◌++◌, OnOk, Some};
ghost use Rattle.std.specs.List.{flat_map};
ghost use Rattle.jm_world.specs.World.{World};
ghost use Rattle.jm_machine.specs.View.{MatchesWorld};
ghost use Rattle.jm_debug.specs.Views.{lines_from, object_text, heap_text, heap_lines, numbered_lines};
ghost use Rattle.jm_debug.specs.Session.{ended, Shows};

use crate::fault::DebugFault;
use crate::reached_object::{write_number, write_type};
use jm_heap::Heap;
use jm_machine::{Machine, WorldObject, WorldObjects};
use std::alloc::{AllocError, Global};
use std::fmt::Write;

/// Writes the line of how many objects are reachable, how many cells they take, and how many cells there
/// may be. `AllocError`: a growth was refused; a part of the line may stand there then.
#[tactic(auto, unfolding(crate::specs::Views::heap_text))]
pub fn write_heap(
    out: &mut String,
    objects: usize,
    cells: u64,
    limit: u64,
) -> Result<(), AllocError>
    ensures { OnOk result (out.new.bytes.items ≡ out.old.bytes.items ++ ended (heap_text objects cells limit)) }
{
    write!(
        out,
        "reachable {objects} objects {cells} cells limit {limit}\n"
    )
}

// Writes the line of an object.
fn write_object<H: Heap>(
    alloc: Global,
    out: &mut String,
    number: u64,
    object: &WorldObject<'_, H>,
) -> Result<(), AllocError>
    ensures { OnOk result (out.new.bytes.items ≡ out.old.bytes.items ++ ended (object_text number object.now.object)) }
{
    write_number(out, number)?;
    write_type(alloc, out, object.kind())?;
    out.push_str("\n")
}

// Writes the lines of objects.
fn write_objects<H: Heap>(
    alloc: Global,
    out: &mut String,
    objects: &WorldObjects<'_, H>,
) -> Result<(), AllocError>
    ensures { OnOk result (out.new.bytes.items ≡ out.old.bytes.items ++ flat_map ended (lines_from numbered_lines 0 objects.now.objects)) }
{
    for index in 0..objects.len() {
        let Some(found) = objects.get(index) else {
            return Ok(());
        };
        write_object(alloc, out, found.number, &found.object)?;
    }
    Ok(())
}

/// The objects that are reachable, by number, below how many they are, how many cells they take and how
/// many there may be. `OutOfMemory`: a growth was refused. It looks at each of them once.
pub fn heap<H: Heap>(alloc: Global, machine: &Machine<H>) -> Result<String, DebugFault>
    ensures { (w : World) → MatchesWorld machine.now w → Shows (λ t. t.bytes.items) result (Some (heap_lines w)) }
{
    let objects = machine.objects()?;
    let mut out = String::new(alloc);
    write_heap(
        &mut out,
        objects.len(),
        objects.cells(),
        machine.heap().limit(),
    )?;
    write_objects(alloc, &mut out, &objects)?;
    Ok(out)
}

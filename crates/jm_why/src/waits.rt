// What a thread holds, and what it waits for.

ghost use Rattle.std.specs.Prelude.{◌≡◌, ◌++◌, OnOk, codes, map, option_map};
ghost use Rattle.std.specs.List.{flat_map};
ghost use Rattle.jm_program.specs.JasminUnits.{name_text};
ghost use Rattle.jm_world.specs.Monitors.{monitor_in};
ghost use Rattle.jm_world.specs.World.{World, thread_at};
ghost use Rattle.jm_machine.specs.Readers.{frame_at, model_frame, model_monitor, IsOfProgram};
ghost use Rattle.jm_machine.specs.View.{MatchesWorld};
ghost use Rattle.jm_why.specs.Waits.{awaited_text, frame_waits, held_by, holds_text, object_text, owner_text, top_waits, waits_text};

use jm_blocked_threads::{asked_by_method, is_waiting};
use jm_heap::Heap;
use jm_machine::{Machine, WorldFrame, WorldMonitor};
use jm_program::Name;
use std::alloc::AllocError;
use std::fmt::Write;

// Writes a monitor, if a thread holds it.
fn write_held(out: &mut String, thread: u64, monitor: WorldMonitor) -> Result<(), AllocError>
    ensures { OnOk result (out.new.bytes.items ≡ out.old.bytes.items ++ held_by thread (model_monitor monitor)) }
{
    let object = monitor.object;
    if monitor.owner == thread {
        write!(out, ", holds #{object}")
    } else {
        Ok(())
    }
}

// Writes those of some monitors that a thread holds.
fn write_each_held(
    out: &mut String,
    thread: u64,
    monitors: &[WorldMonitor],
) -> Result<(), AllocError>
    ensures { OnOk result (out.new.bytes.items ≡ out.old.bytes.items ++ flat_map (held_by thread) (map model_monitor monitors.now)) }
{
    for monitor in monitors {
        write_held(out, thread, *monitor)?;
    }
    Ok(())
}

/// Writes the monitors that a thread holds. `AllocError`: a growth was refused.
pub fn write_holds<H: Heap>(
    out: &mut String,
    machine: &Machine<H>,
    thread: u64,
) -> Result<(), AllocError>
    ensures { (w : World) → MatchesWorld machine.now w → OnOk result (out.new.bytes.items ≡ out.old.bytes.items ++ holds_text w thread) }
{
    let Ok(monitors) = machine.monitors() else {
        return Err(AllocError);
    };
    write_each_held(out, thread, &monitors)
}

// Writes who holds a monitor.
fn write_owner(out: &mut String, monitor: Option<WorldMonitor>) -> Result<(), AllocError>
    ensures { OnOk result (out.new.bytes.items ≡ out.old.bytes.items ++ owner_text (option_map model_monitor monitor)) }
{
    let Some(monitor) = monitor else {
        return Ok(());
    };
    let owner = monitor.owner;
    write!(out, " of t{owner}")
}

// Writes who holds the monitor of an object.
fn write_owner_of<H: Heap>(
    out: &mut String,
    machine: &Machine<H>,
    object: u64,
) -> Result<(), AllocError>
    ensures { (w : World) → MatchesWorld machine.now w → OnOk result (out.new.bytes.items ≡ out.old.bytes.items ++ owner_text (monitor_in w.monitors object)) }
{
    write_owner(out, machine.monitor(object))
}

// Writes the object whose monitor is waited for, and who holds it.
fn write_object<H: Heap>(
    out: &mut String,
    machine: &Machine<H>,
    object: u64,
) -> Result<(), AllocError>
    ensures { (w : World) → MatchesWorld machine.now w → OnOk result (out.new.bytes.items ≡ out.old.bytes.items ++ awaited_text w object) }
{
    write!(out, ", waits for #{object}")?;
    write_owner_of(out, machine, object)
}

// Writes the object whose monitor is waited for, if there is one.
fn write_object_if<H: Heap>(
    out: &mut String,
    machine: &Machine<H>,
    object: Option<u64>,
) -> Result<(), AllocError>
    ensures { (w : World) → MatchesWorld machine.now w → OnOk result (out.new.bytes.items ≡ out.old.bytes.items ++ object_text w object) }
{
    match object {
        Some(object) => write_object(out, machine, object),
        None => Ok(()),
    }
}

fn write_class(out: &mut String, class: &Name) -> Result<(), AllocError>
    ensures { OnOk result (out.new.bytes.items ≡ out.old.bytes.items ++ (codes ", waits for class " ++ name_text class.now)) }
{
    write!(out, ", waits for class {class}")
}

// Writes what the frame at the top of a blocked thread waits for.
fn write_frame_waits<H: Heap>(
    out: &mut String,
    machine: &Machine<H>,
    frame: &WorldFrame<'_, H>,
) -> Result<(), AllocError>
    ensures { (w : World) → MatchesWorld machine.now w → IsOfProgram w.program frame.now
        → OnOk result (out.new.bytes.items ≡ out.old.bytes.items ++ frame_waits w (model_frame frame.now)) }
{
    match frame {
        WorldFrame::Method(frame) => write_object_if(out, machine, asked_by_method(frame)),
        WorldFrame::Initialization { class, .. } => write_class(out, &class.parts().name),
        WorldFrame::Entry => out.push_str(", waits for its own monitor"),
    }
}

// Writes what a blocked thread waits for.
fn write_top_waits<H: Heap>(
    out: &mut String,
    machine: &Machine<H>,
    thread: u64,
) -> Result<(), AllocError>
    ensures { (w : World) → MatchesWorld machine.now w
        → OnOk result (out.new.bytes.items ≡ out.old.bytes.items ++ top_waits w (frame_at (thread_at w thread) 0)) }
{
    match machine.frame(thread, 0) {
        Some(frame) => write_frame_waits(out, machine, &frame),
        None => Ok(()),
    }
}

/// Writes what a thread waits for that was blocked at its last event. `AllocError`: a growth was refused.
pub fn write_waits<H: Heap>(
    out: &mut String,
    machine: &Machine<H>,
    waiting: &[u64],
    thread: u64,
) -> Result<(), AllocError>
    ensures { (w : World) → MatchesWorld machine.now w → OnOk result (out.new.bytes.items ≡ out.old.bytes.items ++ waits_text w waiting.now thread) }
{
    if is_waiting(waiting, thread) {
        write_top_waits(out, machine, thread)
    } else {
        Ok(())
    }
}

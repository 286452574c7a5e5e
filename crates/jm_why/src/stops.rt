// What stopped a run.

ghost use Rattle.std.specs.Prelude.{◌≡◌, ◌++◌, OnOk};
ghost use Rattle.jm_world.specs.World.{World, reach_cells, thread_at};
ghost use Rattle.jm_machine.specs.View.{MatchesWorld};
ghost use Rattle.jm_why.specs.Stops.{full_text, stop_at, stop_line, stop_of_thread, stop_told, wanted_text};

use crate::faults::write_fault;
use crate::frames::write_frames;
use crate::kept::Stopped;
use jm_heap::Heap;
use jm_machine::{Machine, StopText};
use jm_world::{Event, Stop};
use std::alloc::AllocError;
use std::fmt::Write;

// Writes how full the heap was, and what was left of it.
fn write_cells(out: &mut String, cells: u64, limit: u64) -> Result<(), AllocError>
    ensures { OnOk result (out.new.bytes.items ≡ out.old.bytes.items ++ full_text cells limit) }
{
    let left = limit.saturating_sub(cells);
    write!(
        out,
        "found {cells} of {limit} cells reachable\nwanted more than the {left} that are left: --heap N\n"
    )
}

// Writes how full the heap is.
fn write_full<H: Heap>(out: &mut String, machine: &Machine<H>) -> Result<(), AllocError>
    ensures { (w : World) → MatchesWorld machine.now w
        → OnOk result (out.new.bytes.items ≡ out.old.bytes.items ++ full_text (reach_cells w) w.limit) }
{
    match machine.objects() {
        Ok(objects) => write_cells(out, objects.cells(), machine.heap().limit()),
        Err(_) => Err(AllocError),
    }
}

// Writes what was found and wanted.
fn write_wanted<H: Heap>(
    out: &mut String,
    machine: &Machine<H>,
    thread: u64,
    stop: Stop,
) -> Result<(), AllocError>
    ensures { (w : World) → MatchesWorld machine.now w
        → OnOk result (out.new.bytes.items ≡ out.old.bytes.items ++ wanted_text w stop (thread_at w thread)) }
{
    match stop {
        Stop::TagFault(fault) => write_fault(out, machine, thread, fault),
        Stop::HeapFull => write_full(out, machine),
        Stop::SerialsEnd => Ok(()),
    }
}

// Writes the line of a stop.
#[tactic(auto, unfolding(crate::specs::Stops::stop_line))]
fn write_stop_line(out: &mut String, thread: u64, number: u64, stop: Stop) -> Result<(), AllocError>
    ensures { OnOk result (out.new.bytes.items ≡ out.old.bytes.items ++ stop_line thread number stop) }
{
    let stop = StopText(stop);
    write!(out, "t{thread} stopped at event {number}: {stop}\n")
}

// Writes a stop that a step of a thread came to.
fn write_stop_of<H: Heap>(
    out: &mut String,
    machine: &Machine<H>,
    number: u64,
    thread: u64,
    stop: Stop,
) -> Result<(), AllocError>
    ensures { (w : World) → MatchesWorld machine.now w
        → OnOk result (out.new.bytes.items ≡ out.old.bytes.items ++ stop_of_thread w number thread stop) }
{
    write_stop_line(out, thread, number, stop)?;
    write_frames(out, machine, thread)?;
    write_wanted(out, machine, thread, stop)
}

// Writes a stop that the event of a number came to.
fn write_stop_at<H: Heap>(
    out: &mut String,
    machine: &Machine<H>,
    stop: Stop,
    stopped: Stopped,
) -> Result<(), AllocError>
    ensures { (w : World) → MatchesWorld machine.now w
        → OnOk result (out.new.bytes.items ≡ out.old.bytes.items ++ stop_at w stopped.number stop stopped.event) }
{
    match stopped.event {
        Event::Step(thread) => write_stop_of(out, machine, stopped.number, thread, stop),
        Event::Minor => Ok(()),
        Event::Full => Ok(()),
    }
}

/// Writes a stop: its thread and event, the thread's frames, and what was found and wanted. `AllocError`: a growth was
/// refused.
pub fn write_stopped<H: Heap>(
    out: &mut String,
    machine: &Machine<H>,
    stop: Stop,
    stopped: Option<Stopped>,
) -> Result<(), AllocError>
    ensures { (w : World) → MatchesWorld machine.now w
        → OnOk result (out.new.bytes.items ≡ out.old.bytes.items ++ stop_told w stop stopped) }
{
    match stopped {
        Some(stopped) => write_stop_at(out, machine, stop, stopped),
        None => Ok(()),
    }
}

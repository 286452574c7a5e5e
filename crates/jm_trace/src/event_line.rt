// The line of an event.

ghost use Rattle.std.specs.Prelude.{◌≡◌, ◌++◌, OnOk};
ghost use Rattle.jm_world.specs.World.{World, thread_at};
ghost use Rattle.jm_machine.specs.Readers.{frame_at};
ghost use Rattle.jm_machine.specs.View.{MatchesWorld};
ghost use Rattle.jm_debug.specs.Texts.{reference_text};
ghost use Rattle.jm_debug.specs.Views.{object_text};
ghost use Rattle.jm_trace.specs.EventLines.{event_part, line_before, line_behind, place_part, standing_part, thread_part, thrown_text};

use crate::doing::{write_place, write_standing};
use jm_debug::text::KindText;
use jm_debug::write_type;
use jm_heap::Heap;
use jm_machine::{Machine, WorldObject};
use jm_world::{Event, ReplyKind};
use std::alloc::{AllocError, Global};
use std::fmt::Write;

// Writes the number of an object, and its class.
#[tactic(auto, unfolding(jm_debug::specs::Views::object_text, jm_debug::specs::Texts::reference_text))]
fn write_object<H: Heap>(
    alloc: Global,
    out: &mut String,
    number: u64,
    object: &WorldObject<'_, H>,
) -> Result<(), AllocError>
    ensures { OnOk result (out.new.bytes.items ≡ out.old.bytes.items ++ object_text number object.now.object) }
{
    write!(out, "#{number} ")?;
    write_type(alloc, out, object.kind())
}

// Writes the number of an object.
#[tactic(auto, unfolding(jm_debug::specs::Texts::reference_text))]
fn write_reference(out: &mut String, number: u64) -> Result<(), AllocError>
    ensures { OnOk result (out.new.bytes.items ≡ out.old.bytes.items ++ reference_text number) }
{
    write!(out, "#{number}")
}

/// Writes an object that is thrown: its number, and its class where it is reachable. `AllocError`: a growth was refused;
/// a part of it may stand there then. It looks at each reachable object once at most.
pub fn write_thrown<H: Heap>(
    alloc: Global,
    out: &mut String,
    machine: &Machine<H>,
    number: u64,
) -> Result<(), AllocError>
    ensures { (w : World) → MatchesWorld machine.now w → OnOk result (out.new.bytes.items ≡ out.old.bytes.items ++ thrown_text w number) }
{
    match machine.object(number) {
        Ok(Some(object)) => write_object(alloc, out, number, &object),
        Ok(None) => write_reference(out, number),
        Err(_) => Err(AllocError),
    }
}

// Writes where a thread stands, if it has a frame.
fn write_place_part<H: Heap>(
    out: &mut String,
    machine: &Machine<H>,
    thread: u64,
) -> Result<(), AllocError>
    ensures { (w : World) → MatchesWorld machine.now w
        → OnOk result (out.new.bytes.items ≡ out.old.bytes.items ++ place_part w (frame_at (thread_at w thread) 0)) }
{
    let Some(frame) = machine.frame(thread, 0) else {
        return Ok(());
    };
    out.push_str(" ")?;
    write_place(out, &frame)
}

// Writes where a thread stands and what is next there, if it has a frame.
fn write_standing_part<H: Heap>(
    out: &mut String,
    machine: &Machine<H>,
    thread: u64,
) -> Result<(), AllocError>
    ensures { (w : World) → MatchesWorld machine.now w
        → OnOk result (out.new.bytes.items ≡ out.old.bytes.items ++ standing_part w (frame_at (thread_at w thread) 0)) }
{
    let Some(frame) = machine.frame(thread, 0) else {
        return Ok(());
    };
    out.push_str(" ")?;
    write_standing(out, &frame)
}

// Writes what is next of a thread, unless it has ended: a stage of unwinding where an exception is pending.
fn write_thread<H: Heap>(
    alloc: Global,
    out: &mut String,
    machine: &Machine<H>,
    thread: u64,
) -> Result<(), AllocError>
    ensures { (w : World) → MatchesWorld machine.now w → OnOk result (out.new.bytes.items ≡ out.old.bytes.items ++ thread_part w thread) }
{
    if !machine.is_live(thread) {
        return Ok(());
    }
    match machine.pending(thread) {
        Some(pending) => {
            write_place_part(out, machine, thread)?;
            out.push_str(": unwind ")?;
            write_thrown(alloc, out, machine, pending)
        }
        None => write_standing_part(out, machine, thread),
    }
}

// Writes what an event is: a thread and what is next of it, or a collection.
fn write_event<H: Heap>(
    alloc: Global,
    out: &mut String,
    machine: &Machine<H>,
    event: Event,
) -> Result<(), AllocError>
    ensures { (w : World) → MatchesWorld machine.now w → OnOk result (out.new.bytes.items ≡ out.old.bytes.items ++ event_part w event) }
{
    match event {
        Event::Step(thread) => {
            write!(out, "t{thread}")?;
            write_thread(alloc, out, machine, thread)
        }
        Event::Minor => out.push_str("minor"),
        Event::Full => out.push_str("full"),
    }
}

/// Writes what an event of a number is, in the world before it. `AllocError`: a growth was refused.
#[tactic(auto, unfolding(crate::specs::EventLines::line_before))]
pub fn write_before<H: Heap>(
    alloc: Global,
    out: &mut String,
    machine: &Machine<H>,
    number: u64,
    event: Event,
) -> Result<(), AllocError>
    ensures { (w : World) → MatchesWorld machine.now w → OnOk result (out.new.bytes.items ≡ out.old.bytes.items ++ line_before number w event) }
{
    write!(out, "{number} ")?;
    write_event(alloc, out, machine, event)
}

/// Writes what an event came to, and ends its line. `AllocError`: a growth was refused.
#[tactic(auto, unfolding(crate::specs::EventLines::line_behind))]
pub fn write_behind(out: &mut String, kind: ReplyKind) -> Result<(), AllocError>
    ensures { OnOk result (out.new.bytes.items ≡ out.old.bytes.items ++ line_behind kind) }
{
    let kind = KindText(kind);
    write!(out, " -> {kind}\n")
}

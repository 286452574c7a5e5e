// The places that hold a break.

ghost use Rattle.std.specs.Prelude.{◌≡◌, ◌++◌, OnOk, OnErr, IfOk, option_map};
ghost use Rattle.std.specs.List.{list_any};
ghost use Rattle.jm_world.specs.World.{World, thread_at};
ghost use Rattle.jm_machine.specs.Readers.{model_frame};
ghost use Rattle.jm_machine.specs.View.{MatchesWorld};
ghost use Rattle.jm_debug.specs.Session.{ended, same_place, holds_break, with_break, without_break, place_of_frame, place_of_thread, break_at, break_text};
ghost use Rattle.jm_debug.specs.Answering.{model_place};

use crate::place::Place;
use crate::text::{PlaceText, place_of_method};
use jm_heap::Heap;
use jm_machine::{Machine, WorldFrame};
use std::alloc::{AllocError, Global};
use std::fmt::Write;

// Whether a place is another. The instruction's number tells most of them apart.
#[tactic(auto, using(crate::proofs::SamePlaces::same_descriptor))]
pub(crate) fn is_same(place: PlaceText<'_>, other: &Place) -> bool
    ensures { result ≡ same_place (model_place place.entry) other.now }
{
    place.instruction == other.instruction
        && *place.class == other.class
        && *place.method == other.method
        && *place.descriptor == other.descriptor
}

fn holds_break(breaks: &[Place], place: PlaceText<'_>) -> bool
    ensures { result ≡ holds_break breaks.now (model_place place.entry) }
{
    breaks.iter().any(|other| is_same(place, other))
}

/// Puts a break at a place, if it holds none. After an error the breaks are as they were.
pub fn put_break(breaks: &mut Vec<Place>, place: Place) -> Result<(), AllocError>
    ensures done { OnOk result (breaks.new.items ≡ with_break place breaks.old.items) }
    ensures same { OnErr result (breaks.new.items ≡ breaks.old.items) }
{
    if holds_break(breaks, place.text()) {
        drop(place);
        return Ok(());
    }
    breaks.push(place)?;
    Ok(())
}

/// Takes the break at a place away, if it holds one.
pub fn take_break(breaks: &mut Vec<Place>, place: &Place)
    ensures { breaks.new.items ≡ without_break place.now breaks.old.items }
{
    breaks.retain(|other| !is_same(place.text(), other));
}

// Where a frame stands, if it is a method's.
fn place_of<'a, H: Heap>(frame: &WorldFrame<'a, H>) -> Option<PlaceText<'a>>
    ensures { option_map model_place result ≡ place_of_frame (model_frame frame.now) }
{
    match frame {
        WorldFrame::Method(frame) => Some(place_of_method(frame)),
        WorldFrame::Initialization { .. } => None,
        WorldFrame::Entry => None,
    }
}

// The line of a break at which a thread stands, if it holds one.
fn line_at(
    alloc: Global,
    breaks: &[Place],
    thread: u64,
    place: PlaceText<'_>,
) -> Result<Option<String>, AllocError>
    ensures { IfOk result (λ line. option_map (λ t. t.bytes.items) line
        ≡ option_map (λ p. ended (break_text thread p)) (break_at breaks.now (Some (model_place place.entry)))) }
{
    if holds_break(breaks, place) {
        let mut line = String::new(alloc);
        write!(line, "break t{thread} {place}\n")?;
        return Ok(Some(line));
    }
    Ok(None)
}

/// The line of the break at which a thread stands, if it stands at one. Where no break is set nothing
/// is compared.
pub fn break_line<H: Heap>(
    alloc: Global,
    machine: &Machine<H>,
    breaks: &[Place],
    thread: u64,
) -> Result<Option<String>, AllocError>
    ensures { (w : World) → MatchesWorld machine.now w
        → IfOk result (λ line. option_map (λ t. t.bytes.items) line
        ≡ option_map (λ p. ended (break_text thread p)) (break_at breaks.now (place_of_thread (thread_at w thread)))) }
{
    if breaks.is_empty() {
        return Ok(None);
    }
    let Some(frame) = machine.frame(thread, 0) else {
        return Ok(None);
    };
    let Some(place) = place_of(&frame) else {
        return Ok(None);
    };
    line_at(alloc, breaks, thread, place)
}

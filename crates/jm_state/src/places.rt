// The places that threads and static fields hold.

ghost use Rattle.std.specs.Prelude.{◌≡◌, ◌++◌, OnOk, IfOk, length, map, reverse, drop, flat_map};
ghost use Rattle.std.specs.Slice.Iter.{iter_rest};
ghost use Rattle.jm_values.specs.Shape.{list_shape, option_shape};
ghost use Rattle.jm_values.specs.Rename.{refs, value_shape, locals_shape, stack_shape};
ghost use Rattle.jm_world.specs.Frames.{number_shape, optional_number_shape};
ghost use Rattle.jm_state.specs.Places.{IsPutBack};
ghost use Rattle.jm_state.specs.Places.{method_shape, stack_frame_shape, live_object, with_live_object};
ghost use Rattle.jm_monitors.specs.HeldMonitors.{held_shape};
ghost use Rattle.jm_state.specs.Places.{held_thread, held_thread_shape, thread_places, places_of};
ghost use Rattle.jm_state.specs.View.{view_of};

use crate::state::State;
use crate::thread::{Ending, StackFrame, Thread};
use jm_frames::{Frame, Local, put_value};
use jm_heap::Roots;
use jm_monitors::Monitors;
use jm_values::{Place, Value};
use std::alloc::{AllocError, Global};
use std::slice::Iter;

// Adds the place of a reference, if there is one.
fn push_place(roots: &mut Roots, place: Option<Place>) -> Result<(), AllocError>
    ensures { OnOk result (roots.new ≡ roots.old ++ optional_number_shape.refs place) }
{
    match place {
        Some(place) => roots.push(place),
        None => Ok(()),
    }
}

// Adds the place of a value that is a reference.
fn push_value(roots: &mut Roots, value: Value) -> Result<(), AllocError>
    ensures { OnOk result (roots.new ≡ roots.old ++ refs value) }
{
    match value {
        Value::Ref(place) => roots.push(place),
        _ => Ok(()),
    }
}

// Adds the place of a local variable that is a reference.
fn push_local(roots: &mut Roots, local: Option<Value>) -> Result<(), AllocError>
    ensures { OnOk result (roots.new ≡ roots.old ++ (option_shape value_shape).refs local) }
{
    match local {
        Some(value) => push_value(roots, value),
        None => Ok(()),
    }
}

// Adds the places of local variables.
fn push_locals(roots: &mut Roots, locals: &[Local]) -> Result<(), AllocError>
    ensures { OnOk result (roots.new ≡ roots.old ++ locals_shape.refs locals.now) }
{
    for local in locals {
        push_local(roots, local.value())?;
    }
    Ok(())
}

// Adds the places of operands, from the top, which is the last.
fn push_operands(roots: &mut Roots, operands: &[Value]) -> Result<(), AllocError>
    ensures { OnOk result (roots.new ≡ roots.old ++ stack_shape.refs (reverse operands.now)) }
{
    let count = operands.len();
    for depth in 0..count {
        push_value(roots, operands[count - 1 - depth])?;
    }
    Ok(())
}

// Adds the places of static fields.
fn push_statics(roots: &mut Roots, statics: &[Value]) -> Result<(), AllocError>
    ensures { OnOk result (roots.new ≡ roots.old ++ stack_shape.refs statics.now) }
{
    for value in statics {
        push_value(roots, *value)?;
    }
    Ok(())
}

// Adds the places of a method's frame.
fn push_method(roots: &mut Roots, frame: &Frame) -> Result<(), AllocError>
    ensures { OnOk result (roots.new ≡ roots.old ++ method_shape.refs frame.now) }
{
    push_locals(roots, frame.locals())?;
    push_operands(roots, frame.operands())?;
    push_place(roots, frame.monitor())
}

// Adds the places of a frame.
fn push_frame(roots: &mut Roots, frame: &StackFrame) -> Result<(), AllocError>
    ensures { OnOk result (roots.new ≡ roots.old ++ stack_frame_shape.refs frame.now) }
{
    match frame {
        StackFrame::Method(frame) => push_method(roots, frame),
        StackFrame::Initialization { .. } => Ok(()),
        StackFrame::Entry => Ok(()),
    }
}

// Adds the places of frames, from the top, which is the last.
fn push_frames(roots: &mut Roots, frames: &[StackFrame]) -> Result<(), AllocError>
    ensures { OnOk result (roots.new ≡ roots.old ++ (list_shape stack_frame_shape).refs (reverse frames.now)) }
{
    let count = frames.len();
    for depth in 0..count {
        push_frame(roots, &frames[count - 1 - depth])?;
    }
    Ok(())
}

// Adds the place of a thread's object, while the thread has not ended.
fn push_object(roots: &mut Roots, thread: &Thread) -> Result<(), AllocError>
    ensures { OnOk result (roots.new ≡ roots.old ++ optional_number_shape.refs (live_object thread.now.ending thread.now.object)) }
{
    match thread.ending {
        Ending::Running => push_place(roots, thread.object),
        Ending::Returned => Ok(()),
        Ending::EndedBy(_) => Ok(()),
    }
}

// Adds the places of a thread.
fn push_thread(roots: &mut Roots, thread: &Thread) -> Result<(), AllocError>
    ensures { OnOk result (roots.new ≡ roots.old ++ thread_places thread.now) }
{
    push_object(roots, thread)?;
    push_place(roots, thread.pending)?;
    push_frames(roots, &thread.frames)
}

// Adds the places of threads.
fn push_threads(roots: &mut Roots, threads: &[Thread]) -> Result<(), AllocError>
    ensures { OnOk result (roots.new ≡ roots.old ++ flat_map thread_places threads.now) }
{
    for thread in threads {
        push_thread(roots, thread)?;
    }
    Ok(())
}

// Adds the places of the objects of monitors.
fn push_monitors(roots: &mut Roots, monitors: &Monitors) -> Result<(), AllocError>
    ensures { OnOk result (roots.new ≡ roots.old ++ (list_shape held_shape).refs monitors.now) }
{
    for place in monitors.places() {
        roots.push(place)?;
    }
    Ok(())
}

// Adds the places of literals.
fn push_literals(roots: &mut Roots, literals: &[Place]) -> Result<(), AllocError>
    ensures { OnOk result (roots.new ≡ roots.old ++ (list_shape number_shape).refs literals.now) }
{
    for place in literals {
        roots.push(*place)?;
    }
    Ok(())
}

/// All places that a state holds, in order: of each thread its object while it has not ended, its
/// pending exception and its frames from the top, of a frame its local variables, its operands from
/// the top and its monitor's object (JVMS 2.6); then those of static fields, of held monitors and
/// of literals. Linear in what they hold. `AllocError`: a growth was refused.
pub fn gather<H>(alloc: Global, state: &State<H>) -> Result<Roots, AllocError>
    ensures { IfOk result (λ roots. roots ≡ places_of (view_of state.now)) }
{
    let mut roots = Roots::new(alloc);
    push_threads(&mut roots, &state.threads)?;
    push_statics(&mut roots, &state.statics)?;
    push_monitors(&mut roots, &state.monitors)?;
    push_literals(&mut roots, &state.literals)?;
    Ok(roots)
}

// Puts the next place where a reference is, if there is one, and takes it.
fn put_place(place: &mut Option<Place>, places: &mut Iter<'_, Place>)
    ensures place { place.new ≡ optional_number_shape.refill (iter_rest places.old) place.old }
    ensures left { iter_rest places.new ≡ drop (length (optional_number_shape.refs place.old)) (iter_rest places.old) }
{
    if let Some(_) = *place {
        if let Some(moved) = places.next() {
            *place = Some(*moved);
        }
    }
}

// Puts the next places into a method's frame.
fn put_method(frame: &mut Frame, places: &mut Iter<'_, Place>)
    ensures frame { frame.new ≡ method_shape.refill (iter_rest places.old) frame.old }
    ensures left { iter_rest places.new ≡ drop (length (method_shape.refs frame.old)) (iter_rest places.old) }
{
    frame.put_places(places);
    let mut monitor = frame.monitor();
    put_place(&mut monitor, places);
    frame.set_monitor(monitor);
}

// Puts the next places into a frame.
fn put_frame(frame: &mut StackFrame, places: &mut Iter<'_, Place>)
    ensures frame { frame.new ≡ stack_frame_shape.refill (iter_rest places.old) frame.old }
    ensures left { iter_rest places.new ≡ drop (length (stack_frame_shape.refs frame.old)) (iter_rest places.old) }
{
    if let StackFrame::Method(frame) = frame {
        put_method(frame, places);
    }
}

// Puts the next places into frames, from the top, which is the last.
fn put_frames(frames: &mut [StackFrame], places: &mut Iter<'_, Place>)
    ensures frames { reverse frames.new ≡ (list_shape stack_frame_shape).refill (iter_rest places.old) (reverse frames.old) }
    ensures left { iter_rest places.new ≡ drop (length ((list_shape stack_frame_shape).refs (reverse frames.old))) (iter_rest places.old) }
{
    let count = frames.len();
    for depth in 0..count {
        put_frame(&mut frames[count - 1 - depth], places);
    }
}

// Puts the next place where a thread's object is, while the thread has not ended.
fn put_object(thread: &mut Thread, places: &mut Iter<'_, Place>)
    ensures thread { thread.new ≡ record thread.old {
      object = with_live_object thread.old.ending
          (optional_number_shape.refill (iter_rest places.old) (live_object thread.old.ending thread.old.object)) thread.old.object;
    } }
    ensures left { iter_rest places.new ≡ drop (length (optional_number_shape.refs (live_object thread.old.ending thread.old.object))) (iter_rest places.old) }
{
    match thread.ending {
        Ending::Running => put_place(&mut thread.object, places),
        Ending::Returned => {}
        Ending::EndedBy(_) => {}
    }
}

// Puts the next places into a thread.
fn put_thread(thread: &mut Thread, places: &mut Iter<'_, Place>)
    ensures thread { held_thread thread.new ≡ held_thread_shape.refill (iter_rest places.old) (held_thread thread.old) }
    ensures left { iter_rest places.new ≡ drop (length (thread_places thread.old)) (iter_rest places.old) }
{
    put_object(thread, places);
    put_place(&mut thread.pending, places);
    put_frames(&mut thread.frames, places);
}

// Puts the next places into threads.
fn put_threads(threads: &mut [Thread], places: &mut Iter<'_, Place>)
    ensures threads { map held_thread threads.new ≡ (list_shape held_thread_shape).refill (iter_rest places.old) (map held_thread threads.old) }
    ensures left { iter_rest places.new ≡ drop (length ((list_shape held_thread_shape).refs (map held_thread threads.old))) (iter_rest places.old) }
{
    for thread in threads.iter_mut() {
        put_thread(thread, places);
    }
}

// Puts the next places into static fields.
fn put_statics(statics: &mut [Value], places: &mut Iter<'_, Place>)
    ensures statics { statics.new ≡ stack_shape.refill (iter_rest places.old) statics.old }
    ensures left { iter_rest places.new ≡ drop (length (stack_shape.refs statics.old)) (iter_rest places.old) }
{
    for value in statics.iter_mut() {
        put_value(value, places);
    }
}

// Takes the next place; where there is none, it stays as it is.
fn put_number(place: &mut Place, places: &mut Iter<'_, Place>)
    ensures place { place.new ≡ number_shape.refill (iter_rest places.old) place.old }
    ensures left { iter_rest places.new ≡ drop 1 (iter_rest places.old) }
{
    if let Some(moved) = places.next() {
        *place = *moved;
    }
}

// Puts the next places into literals.
fn put_literals(literals: &mut [Place], places: &mut Iter<'_, Place>)
    ensures { literals.new ≡ (list_shape number_shape).refill (iter_rest places.old) literals.old }
{
    for place in literals.iter_mut() {
        put_number(place, places);
    }
}

/// Puts places back where they were gathered, in the same order: after a collection, which has
/// moved them with their objects. It takes no memory.
pub fn put_back<H>(state: &mut State<H>, roots: &Roots)
    ensures places { IsPutBack roots.now (view_of state.old) (view_of state.new) }
    ensures heap { state.new.heap ≡ state.old.heap }
{
    let mut places = roots.as_slice().iter();
    put_threads(&mut state.threads, &mut places);
    put_statics(&mut state.statics, &mut places);
    state.monitors.put_places(&mut places);
    put_literals(&mut state.literals, &mut places);
}

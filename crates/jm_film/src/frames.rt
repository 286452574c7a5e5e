// Frames: where each stands, its local variables and its operands.

ghost use Rattle.std.specs.Prelude.{◌≡◌, ◌++◌, List, OnOk, IfOk, Some, codes, length};
ghost use Rattle.std.specs.List.{flat_map};
ghost use Rattle.jm_program.specs.declared.class.ClassParts.{ClassParts};
ghost use Rattle.jm_world.specs.Classes.{method_named};
ghost use Rattle.jm_world.specs.Frames.{method_frame};
ghost use Rattle.jm_world.specs.World.{World, Thread, thread_at};
ghost use Rattle.jm_machine.specs.Readers.{name_of_frame, model_frame, IsOfProgram};
ghost use Rattle.jm_machine.specs.View.{MatchesWorld};
ghost use Rattle.jm_debug.specs.Views.{locals_of_frame, stack_of_frame};
ghost use Rattle.jm_debug.specs.Session.{ended};
ghost use Rattle.jm_film.specs.Shown.{frame_key, frame_sections, frames_sections, place_lines, section_of};

use crate::section::put_if_any;
use jm_debug::text::{LineText, PlaceText, StageText, line_of};
use jm_debug::{write_locals, write_stack};
use jm_heap::Heap;
use jm_machine::{Machine, MethodFrame, WorldFrame};
use jm_page::Section;
use std::alloc::{AllocError, Global};
use std::fmt::Write;

// Writes where a method's frame stands, with the line of the source if it is known.
#[tactic(auto, using(crate::proofs::PlacesWritten::method_place), unfolding(jm_debug::specs::Texts::frame_text))]
fn write_method_place<H: Heap>(
    out: &mut String,
    frame: &MethodFrame<'_, H>,
) -> Result<(), AllocError>
    ensures { (program : List ClassParts) → method_named program (name_of_frame frame.now) ≡ Some frame.now.method
        → OnOk result (out.new.bytes.items ≡ out.old.bytes.items
        ++ flat_map ended (place_lines program (method_frame (name_of_frame frame.now) frame.now.activation frame.now.monitor))) }
{
    let class = frame.class();
    let method = frame.method();
    let instruction = frame.at() as u64;
    let place = PlaceText {
        class: &class.parts().name,
        method: &method.name,
        descriptor: &method.descriptor,
        instruction,
    };
    let line = LineText(line_of(method, instruction));
    write!(out, "{place}{line}\n")
}

// Writes where a frame stands, or that its thread has not begun.
#[tactic(auto, using(jm_debug::proofs::Written::one_line), unfolding(jm_debug::specs::Texts::frame_text))]
fn write_place<H: Heap>(out: &mut String, frame: &WorldFrame<'_, H>) -> Result<(), AllocError>
    ensures { (program : List ClassParts) → IsOfProgram program frame.now
        → OnOk result (out.new.bytes.items ≡ out.old.bytes.items ++ flat_map ended (place_lines program (model_frame frame.now))) }
{
    match frame {
        WorldFrame::Method(frame) => write_method_place(out, frame),
        WorldFrame::Initialization { class, stage } => {
            let class = &class.parts().name;
            let stage = StageText(*stage);
            write!(out, "init {class} {stage}\n")
        }
        WorldFrame::Entry => write!(out, "entry\n"),
    }
}

// Puts where a frame stands.
fn put_place<H: Heap>(
    alloc: Global,
    view: &mut Vec<Section>,
    thread: u64,
    height: usize,
    frame: &WorldFrame<'_, H>,
) -> Result<(), AllocError>
    ensures { (program : List ClassParts) → IsOfProgram program frame.now
        → OnOk result (view.new.items ≡ view.old.items ++ section_of (frame_key (codes "w") thread height) (place_lines program (model_frame frame.now))) }
{
    let key = format!(in alloc; "w {thread} {height}")?;
    let mut text = String::new(alloc);
    write_place(&mut text, frame)?;
    put_if_any(view, key, text)
}

// Puts a frame's local variables, if any is set.
fn put_locals<H: Heap>(
    alloc: Global,
    view: &mut Vec<Section>,
    thread: u64,
    height: usize,
    frame: &WorldFrame<'_, H>,
) -> Result<(), AllocError>
    ensures { OnOk result (view.new.items ≡ view.old.items ++ section_of (frame_key (codes "l") thread height) (locals_of_frame (model_frame frame.now))) }
{
    match frame {
        WorldFrame::Method(frame) => {
            let key = format!(in alloc; "l {thread} {height}")?;
            let mut text = String::new(alloc);
            write_locals(&mut text, frame)?;
            put_if_any(view, key, text)
        }
        WorldFrame::Initialization { .. } => Ok(()),
        WorldFrame::Entry => Ok(()),
    }
}

// Puts a frame's operands, if there is one.
fn put_stack<H: Heap>(
    alloc: Global,
    view: &mut Vec<Section>,
    thread: u64,
    height: usize,
    frame: &WorldFrame<'_, H>,
) -> Result<(), AllocError>
    ensures { OnOk result (view.new.items ≡ view.old.items ++ section_of (frame_key (codes "s") thread height) (stack_of_frame (model_frame frame.now))) }
{
    match frame {
        WorldFrame::Method(frame) => {
            let key = format!(in alloc; "s {thread} {height}")?;
            let mut text = String::new(alloc);
            write_stack(&mut text, frame)?;
            put_if_any(view, key, text)
        }
        WorldFrame::Initialization { .. } => Ok(()),
        WorldFrame::Entry => Ok(()),
    }
}

// Puts the sections of a frame, which has so many below it.
fn put_frame<H: Heap>(
    alloc: Global,
    view: &mut Vec<Section>,
    thread: u64,
    height: usize,
    frame: &WorldFrame<'_, H>,
) -> Result<(), AllocError>
    ensures { (program : List ClassParts) → IsOfProgram program frame.now
        → OnOk result (view.new.items ≡ view.old.items ++ frame_sections program thread height (model_frame frame.now)) }
{
    put_place(alloc, view, thread, height, frame)?;
    put_locals(alloc, view, thread, height, frame)?;
    put_stack(alloc, view, thread, height, frame)?;
    Ok(())
}

// How many frames a thread has.
fn frames_of<H: Heap>(machine: &Machine<H>, thread: u64) -> Result<usize, AllocError>
    ensures { (w : World) (t : Thread) → MatchesWorld machine.now w → thread_at w thread ≡ Some t → IfOk result (λ count. count ≡ length t.frames) }
{
    for depth in 0..usize::MAX {
        let Some(_frame) = machine.frame(thread, depth) else {
            return Ok(depth);
        };
    }
    Err(AllocError)
}

/// Puts the sections of a thread's frames, with the top one first.
pub fn put_frames<H: Heap>(
    alloc: Global,
    view: &mut Vec<Section>,
    machine: &Machine<H>,
    thread: u64,
) -> Result<(), AllocError>
    ensures { (w : World) (t : Thread) → MatchesWorld machine.now w → thread_at w thread ≡ Some t
        → OnOk result (view.new.items ≡ view.old.items ++ frames_sections w.program thread t.frames) }
{
    let count = frames_of(machine, thread)?;
    for depth in 0..count {
        let Some(frame) = machine.frame(thread, depth) else {
            return Ok(());
        };
        put_frame(alloc, view, thread, count - 1 - depth, &frame)?;
    }
    Ok(())
}

// Where a thread stands.

ghost use Rattle.std.specs.Prelude.{◌≡◌, ◌++◌, List, OnOk, Some};
ghost use Rattle.std.specs.List.{flat_map};
ghost use Rattle.std.specs.Option.{option_copied};
ghost use Rattle.jm_program.specs.declared.class.ClassParts.{ClassParts};
ghost use Rattle.jm_world.specs.World.{World, Thread, thread_at};
ghost use Rattle.jm_machine.specs.Readers.{model_frame, IsOfProgram};
ghost use Rattle.jm_machine.specs.View.{MatchesWorld};
ghost use Rattle.jm_debug.specs.Views.{lines_from, frame_lines, pending_lines, end_lines, thread_lines, where_lines};
ghost use Rattle.jm_debug.specs.Session.{ended, Shows};

use crate::answer::or_none;
use crate::fault::DebugFault;
use crate::text::{LineText, StageText, line_of, place_of_method};
use jm_heap::Heap;
use jm_machine::{Machine, WorldFrame};
use jm_program::Name;
use std::alloc::{AllocError, Global};
use std::fmt::Write;

// Writes where a frame stands: of a method with the line of the source, if it is known.
#[tactic(auto, using(crate::proofs::Written::one_line, crate::proofs::FramesWritten::method_line), unfolding(crate::specs::Texts::frame_text))]
fn write_frame<H: Heap>(
    out: &mut String,
    depth: usize,
    frame: &WorldFrame<'_, H>,
) -> Result<(), AllocError>
    ensures { (program : List ClassParts) → IsOfProgram program frame.now
        → OnOk result (out.new.bytes.items ≡ out.old.bytes.items ++ flat_map ended (frame_lines program depth (model_frame frame.now))) }
{
    match frame {
        WorldFrame::Method(frame) => {
            let place = place_of_method(frame);
            let line = LineText(line_of(frame.method(), frame.at() as u64));
            write!(out, "{depth} {place}{line}\n")
        }
        WorldFrame::Initialization { class, stage } => {
            let class = &class.parts().name;
            let stage = StageText(*stage);
            write!(out, "{depth} init {class} {stage}\n")
        }
        WorldFrame::Entry => write!(out, "{depth} entry\n"),
    }
}

// Writes the frames of a thread, with the top one first.
fn write_frames<H: Heap>(
    out: &mut String,
    machine: &Machine<H>,
    thread: u64,
) -> Result<(), AllocError>
    ensures { (w : World) (t : Thread) → MatchesWorld machine.now w → thread_at w thread ≡ Some t
        → OnOk result (out.new.bytes.items ≡ out.old.bytes.items ++ flat_map ended (lines_from (frame_lines w.program) 0 t.frames)) }
{
    for depth in 0..usize::MAX {
        let Some(frame) = machine.frame(thread, depth) else {
            return Ok(());
        };
        write_frame(out, depth, &frame)?;
    }
    Err(AllocError)
}

// Writes a pending exception, if there is one.
#[tactic(auto, using(crate::proofs::Written::one_line), unfolding(crate::specs::Texts::reference_text))]
fn write_pending(out: &mut String, pending: Option<u64>) -> Result<(), AllocError>
    ensures { OnOk result (out.new.bytes.items ≡ out.old.bytes.items ++ flat_map ended (pending_lines pending)) }
{
    match pending {
        Some(number) => write!(out, "pending #{number}\n"),
        None => Ok(()),
    }
}

/// Writes the line that tells how a thread has ended: by an exception of a class, whose name is in
/// UTF-16 code units, or by its last return. `AllocError`: a growth was refused; a part of the line may
/// stand there then.
#[tactic(auto, using(crate::proofs::Written::one_line))]
pub fn write_end(alloc: Global, out: &mut String, class: Option<&[u16]>) -> Result<(), AllocError>
    ensures { OnOk result (out.new.bytes.items ≡ out.old.bytes.items ++ flat_map ended (end_lines (option_copied class.entry))) }
{
    match class {
        Some(units) => {
            let class = Name::shared(alloc, units)?;
            write!(out, "ended by {class}\n")
        }
        None => write!(out, "ended\n"),
    }
}

// Writes where a thread stands, or how it has ended.
fn write_thread<H: Heap>(
    alloc: Global,
    out: &mut String,
    machine: &Machine<H>,
    thread: u64,
) -> Result<(), AllocError>
    ensures { (w : World) (t : Thread) → MatchesWorld machine.now w → thread_at w thread ≡ Some t
        → OnOk result (out.new.bytes.items ≡ out.old.bytes.items ++ flat_map ended (thread_lines w.program t t.ending)) }
{
    if machine.is_live(thread) {
        write_pending(out, machine.pending(thread))?;
        write_frames(out, machine, thread)
    } else {
        write_end(alloc, out, machine.ended_by(thread))
    }
}

/// Where a thread stands: its pending exception, and its frames with the top one first; or how it has
/// ended. `NoSuch`: no thread has the number; `OutOfMemory`: a growth was refused.
pub fn frames<H: Heap>(
    alloc: Global,
    machine: &Machine<H>,
    thread: u64,
) -> Result<String, DebugFault>
    ensures { (w : World) → MatchesWorld machine.now w → Shows (λ t. t.bytes.items) result (where_lines w thread) }
{
    if thread == 0 {
        return Err(DebugFault::NoSuch);
    }
    if (machine.threads() as u64) < thread {
        return Err(DebugFault::NoSuch);
    }
    let mut out = String::new(alloc);
    write_thread(alloc, &mut out, machine, thread)?;
    Ok(or_none(out)?)
}

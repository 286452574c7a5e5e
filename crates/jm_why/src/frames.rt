// The frames of a thread, a line each.

ghost use Rattle.std.specs.Prelude.{◌≡◌, ◌++◌, List, OnOk};
ghost use Rattle.jm_program.specs.declared.class.ClassParts.{ClassParts};
ghost use Rattle.jm_world.specs.World.{World};
ghost use Rattle.jm_machine.specs.Readers.{model_frame, IsOfProgram};
ghost use Rattle.jm_machine.specs.View.{MatchesWorld};
ghost use Rattle.jm_why.specs.Kept.{frame_line, frames_text};

use jm_heap::Heap;
use jm_machine::{Machine, WorldFrame};
use jm_trace::write_standing;
use std::alloc::AllocError;
use std::fmt::Write;

// Writes the line of a frame that is so many below the top.
#[tactic(auto, unfolding(crate::specs::Kept::frame_line))]
fn write_frame<H: Heap>(
    out: &mut String,
    depth: usize,
    frame: &WorldFrame<'_, H>,
) -> Result<(), AllocError>
    ensures { (program : List ClassParts) → IsOfProgram program frame.now
        → OnOk result (out.new.bytes.items ≡ out.old.bytes.items ++ frame_line program depth (model_frame frame.now)) }
{
    write!(out, "{depth} ")?;
    write_standing(out, frame)?;
    out.push_str("\n")
}

/// Writes the lines of a thread's frames, with the top one first. `AllocError`: a growth was refused; some of them may
/// stand there then.
pub fn write_frames<H: Heap>(
    out: &mut String,
    machine: &Machine<H>,
    thread: u64,
) -> Result<(), AllocError>
    ensures { (w : World) → MatchesWorld machine.now w → OnOk result (out.new.bytes.items ≡ out.old.bytes.items ++ frames_text w thread) }
{
    for depth in 0..usize::MAX {
        let Some(frame) = machine.frame(thread, depth) else {
            return Ok(());
        };
        write_frame(out, depth, &frame)?;
    }
    Err(AllocError)
}

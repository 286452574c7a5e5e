// What a blocked thread waits for.

ghost use Rattle.std.specs.Prelude.{◌≡◌, ◌++◌, List, OnOk, Some, option_map};
ghost use Rattle.std.specs.List.{flat_map};
ghost use Rattle.jm_program.specs.declared.class.ClassParts.{ClassParts};
ghost use Rattle.jm_world.specs.World.{World, Thread, thread_at};
ghost use Rattle.jm_machine.specs.Readers.{model_frame, IsOfProgram};
ghost use Rattle.jm_machine.specs.View.{MatchesWorld};
ghost use Rattle.jm_debug.specs.Session.{ended};
ghost use Rattle.jm_blocked_threads.specs.Asked.{asked_by, asked_by_top, entering};
ghost use Rattle.jm_film.specs.Shown.{asked_lines};

use jm_blocked_threads::asked_by_method;
use jm_heap::Heap;
use jm_machine::{Machine, WorldFrame};
use std::alloc::AllocError;
use std::fmt::Write;

// Writes the object whose monitor is asked for, if there is one.
#[tactic(auto, using(jm_debug::proofs::Written::one_line), unfolding(jm_debug::specs::Texts::reference_text))]
fn write_object(out: &mut String, object: Option<u64>) -> Result<(), AllocError>
    ensures { OnOk result (out.new.bytes.items ≡ out.old.bytes.items ++ flat_map ended (asked_lines (option_map entering object))) }
{
    match object {
        Some(number) => write!(out, "#{number}\n"),
        None => Ok(()),
    }
}

// Writes what a frame at the top asks for: an object, or the class whose initialization another thread makes.
#[tactic(auto, using(jm_debug::proofs::Written::one_line))]
fn write_asked<H: Heap>(out: &mut String, frame: &WorldFrame<'_, H>) -> Result<(), AllocError>
    ensures { (program : List ClassParts) → IsOfProgram program frame.now
        → OnOk result (out.new.bytes.items ≡ out.old.bytes.items ++ flat_map ended (asked_lines (asked_by program (model_frame frame.now)))) }
{
    match frame {
        WorldFrame::Method(frame) => write_object(out, asked_by_method(frame)),
        WorldFrame::Initialization { class, .. } => {
            let class = &class.parts().name;
            write!(out, "class {class}\n")
        }
        WorldFrame::Entry => Ok(()),
    }
}

/// Writes what a blocked thread waits for, as far as it is told.
pub fn write_waits<H: Heap>(
    out: &mut String,
    machine: &Machine<H>,
    thread: u64,
) -> Result<(), AllocError>
    ensures { (w : World) (t : Thread) → MatchesWorld machine.now w → thread_at w thread ≡ Some t
        → OnOk result (out.new.bytes.items ≡ out.old.bytes.items ++ flat_map ended (asked_lines (asked_by_top w.program t.frames))) }
{
    match machine.frame(thread, 0) {
        Some(frame) => write_asked(out, &frame),
        None => Ok(()),
    }
}

// The end of a thread.

ghost use Rattle.std.specs.Prelude.{◌≡◌, ℕ, List, Option, Ok, false};
ghost use Rattle.jm_world.specs.Next.{goes};
ghost use Rattle.jm_world.specs.World.{is_running};
ghost use Rattle.jm_state.specs.Parts.{ending_part};
ghost use Rattle.jm_state.specs.declared.halt.StepEnd.TheVariants.{Done};
ghost use Rattle.jm_state.specs.declared.thread.StackFrame.{StackFrame};
ghost use Rattle.jm_interp.specs.At.{OnThread, Does};
ghost use Rattle.jm_interp.specs.Ending.{ended_as};

use crate::at::At;
use jm_heap::Heap;
use jm_state::{Ending, State};

/// Ends a thread: it has no frames and no pending exception, and one thread less is live.
pub(crate) fn end_thread<H: Heap>(at: At<'_>, state: &mut State<H>, ending: Ending)
    requires { (fs : List StackFrame) × (p : Option ℕ) × OnThread H.content at state.old fs p
        × (is_running (ending_part at.linked.now.program ending) ≡ false) }
    ensures ends { Does H.content at.entry state.old (Ok Done) state.new
        (λ w number t. goes (ended_as w number t (ending_part at.entry.linked.now.program ending))) }
    ensures heap { state.new.heap ≡ state.old.heap }
{
    let thread = &mut state.threads[at.index];
    thread.frames.clear();
    thread.pending = None;
    thread.ending = ending;
    state.live -= 1;
}

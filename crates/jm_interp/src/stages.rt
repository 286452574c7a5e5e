// The stages of unwinding and of the initialization of a class, each by itself.

ghost use Rattle.std.specs.Prelude.{◌≡◌, ◌-◌, ◌≤◌, ◌∷◌, ℕ, List, Some, None};
ghost use Rattle.jm_world.specs.Frames.{Frame, initialization_frame};
ghost use Rattle.jm_world.specs.Initialization.{initialize};
ghost use Rattle.jm_world.specs.Matches.{Matches};
ghost use Rattle.jm_world.specs.Throwing.{unwind};
ghost use Rattle.jm_world.specs.World.{World, Thread as ModelThread, thread_at};
ghost use Rattle.jm_world.specs.declared.stage.Stage.{Stage};
ghost use Rattle.jm_heap.specs.Allocation.{NewLie};
ghost use Rattle.jm_state.specs.Ends.{Ended};
ghost use Rattle.jm_state.specs.Parts.{state_parts};
ghost use Rattle.jm_state.specs.Runnable.{StateRuns};
ghost use Rattle.jm_state.specs.declared.thread.StackFrame.{StackFrame};
ghost use Rattle.jm_state.specs.declared.thread.StackFrame.TheVariants.{Initialization};
ghost use Rattle.jm_interp.specs.Standing.{OwnObject, StandsAt, running};

use crate::at::At;
use crate::stepping::step_at;
use jm_heap::Heap;
use jm_linked::Linked;
use jm_state::{Halt, State, StepEnd};
use std::alloc::Global;

/// Makes one stage of unwinding of a thread that runs and whose exception is pending, by the
/// thread's number from 1 (JVMS 2.10, 3.12, 5.5, 6.5 athrow). The first handler of the top frame's
/// method that catches, in the order of the table, goes on with the exception as the one operand; else
/// the top frame is dropped, and with the last one the thread ends by the exception. Where it is an
/// initialization's, the class has failed, and an exception that is no Error gives its place to a new
/// ExceptionInInitializerError. Stopped: that cannot be made, or the method of the handler has a
/// `max_stack` of 0. OutOfMemory: a growth was refused. Then the state is beside the same world as
/// before. An exception that the stage makes lies in the nursery of the number.
pub fn unwind_stage<H: Heap>(
    alloc: Global,
    linked: &Linked,
    state: &mut State<H>,
    number: u64,
    nursery: usize,
) -> Result<StepEnd, Halt>
    requires runs { StateRuns linked.now state.old }
    requires matched { (w : World) × Matches (state_parts H.content linked.now state.old) w }
    requires from_one { 1 ≤ number }
    requires here { (object : OwnObject) × (place : ℕ) × (fs : List StackFrame)
        × StandsAt state.old.threads.items (number - 1) fs (running object (Some place)) }
    ensures next { (w : World) (t : ModelThread) (k : ℕ) → Matches (state_parts H.content linked.now state.old) w → thread_at w number ≡ Some t
        → t.pending ≡ Some k → Ended result (state_parts H.content linked.now state.new) w (unwind w number t k) }
    ensures runs { StateRuns linked.now state.new }
    ensures nursery { NewLie (λ p. H.nursery_of p nursery) (H.content state.old.heap) (H.content state.new.heap) }
{
    // the program is linked
    let _methods = linked.methods();
    let at = At {
        alloc,
        linked,
        index: (number - 1) as usize,
        nursery,
    };
    step_at(at, state)
}

/// Makes one stage of the initialization of a class (JVMS 5.5) of a thread that runs, whose top
/// frame is an initialization's, and which has no pending exception, by the thread's number from 1.
/// Of any of the program's classes, whose superclass comes first; a class that failed throws
/// NoClassDefFoundError. Blocked: another thread initializes the class, and nothing changed. Stopped:
/// an exception cannot be made. OutOfMemory: a growth was refused. Then the state is beside the same
/// world as before. An exception that the stage makes lies in the nursery of the number.
pub fn init_stage<H: Heap>(
    alloc: Global,
    linked: &Linked,
    state: &mut State<H>,
    number: u64,
    nursery: usize,
) -> Result<StepEnd, Halt>
    requires runs { StateRuns linked.now state.old }
    requires matched { (w : World) × Matches (state_parts H.content linked.now state.old) w }
    requires from_one { 1 ≤ number }
    requires here { (object : OwnObject) × (class : ℕ) × (stage : Stage) × (below : List StackFrame)
        × StandsAt state.old.threads.items (number - 1) (Initialization class stage ∷ below) (running object None) }
    ensures next { (w : World) (t : ModelThread) (class : List ℕ) (stage : Stage) (below : List Frame) → Matches (state_parts H.content linked.now state.old) w
        → thread_at w number ≡ Some t → t.pending ≡ None → t.frames ≡ initialization_frame class stage ∷ below
        → Ended result (state_parts H.content linked.now state.new) w (initialize w number t class stage below) }
    ensures runs { StateRuns linked.now state.new }
    ensures nursery { NewLie (λ p. H.nursery_of p nursery) (H.content state.old.heap) (H.content state.new.heap) }
{
    // the program is linked
    let _methods = linked.methods();
    let at = At {
        alloc,
        linked,
        index: (number - 1) as usize,
        nursery,
    };
    step_at(at, state)
}

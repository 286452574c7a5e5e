// The frames of a thread.

ghost use Rattle.std.specs.Prelude.{◌≡◌, ◌+◌, ◌<◌, ◌^◌, ℕ, List, ◌∷◌, Ok, drop};
ghost use Rattle.jm_frames.specs.FrameView.{FrameView};
ghost use Rattle.jm_world.specs.Here.{with_frames};
ghost use Rattle.jm_world.specs.Next.{goes};
ghost use Rattle.jm_state.specs.declared.halt.StepEnd.TheVariants.{Done};
ghost use Rattle.jm_state.specs.declared.thread.StackFrame.{StackFrame};
ghost use Rattle.jm_state.specs.declared.thread.StackFrame.TheVariants.{Method, Initialization};
ghost use Rattle.jm_interp.specs.At.{OnFrames, Does};
ghost use Rattle.jm_interp.specs.Catching.{monitor_on_top};
ghost use Rattle.jm_interp.specs.Initializing.{Began, class_on_top};
ghost use Rattle.jm_interp.specs.Returned.{Took, Left};
ghost use Rattle.jm_interp.specs.Standing.{ThreadRest, Stands, HasTop, Topped};

use crate::at::At;
use jm_frames::Frame;
use jm_heap::Heap;
use jm_state::{Halt, StackFrame, State, Thread};
use jm_values::{Place, TagFault, Value};
use jm_world::{Stage, Stop};
use std::alloc::AllocError;

/// Drops the top frame, if there is one.
pub(crate) fn drop_top(thread: &mut Thread)
    ensures { (fs : List StackFrame) (r : ThreadRest) → Stands thread.old fs r → Stands thread.new (drop 1 fs) r }
{
    let _top = thread.frames.pop();
}

/// A step that drops the top frame, if there is one.
pub(crate) fn leave_frame<H: Heap>(at: At<'_>, state: &mut State<H>)
    requires { OnFrames H.content at state.old }
    ensures does { Does H.content at.entry state.old (Ok Done) state.new (λ w number t. goes (with_frames w number t (drop 1 t.frames))) }
    ensures heap { state.new.heap ≡ state.old.heap }
{
    drop_top(&mut state.threads[at.index]);
}

/// The class whose initialization's frame is on top; none where a method's is, and without a frame.
pub(crate) fn class_on_top(thread: &Thread) -> Option<u32>
    ensures { (fs : List StackFrame) (r : ThreadRest) → Stands thread.now fs r → result ≡ class_on_top fs }
{
    let Some(top) = thread.frames.last() else {
        return None;
    };
    match top {
        StackFrame::Method(_) => None,
        StackFrame::Initialization { class, stage: _ } => Some(*class),
        StackFrame::Entry => None,
    }
}

/// The object whose monitor the method of the top frame entered, if it entered one.
pub(crate) fn monitor_on_top(thread: &Thread) -> Option<Place>
    ensures { (fs : List StackFrame) (r : ThreadRest) → Stands thread.now fs r → result ≡ monitor_on_top fs }
{
    let Some(top) = thread.frames.last() else {
        return None;
    };
    match top {
        StackFrame::Method(frame) => frame.monitor(),
        StackFrame::Initialization { class: _, stage: _ } => None,
        StackFrame::Entry => None,
    }
}

/// Goes to a stage of an initialization, whose frame is on top.
pub(crate) fn go_to_stage(thread: &mut Thread, class: u32, stage: Stage)
    requires { HasTop thread.old }
    ensures { Topped thread.old (λ f below. Stands thread.new (Initialization class stage ∷ below)) }
{
    if let Some(top) = thread.frames.last_mut() {
        *top = StackFrame::Initialization { class, stage };
    }
}

/// Puts a frame on top of the top one, which becomes that of an initialization at a stage.
/// `AllocError`: the growth was refused, and the frames are as they were.
pub(crate) fn begin_above(
    thread: &mut Thread,
    class: u32,
    stage: Stage,
    above: StackFrame,
) -> Result<(), AllocError>
    requires { HasTop thread.old }
    ensures { Topped thread.old (λ f below r. Began result thread.new class stage above f below r) }
{
    thread.frames.push(above)?;
    let count = thread.frames.len();
    thread.frames[count - 2] = StackFrame::Initialization { class, stage };
    Ok(())
}

// Takes the result of a method that was called, if it has one, on the operands of the caller, which
// moves on. `Overflow`: `max_stack` has no room for it (JVMS 2.6.2), and nothing has changed.
#[inline(always)]
fn take_result(frame: &mut Frame, value: Option<Value>) -> Result<(), TagFault>
    requires { frame.old.activation.at + 1 < 2 ^ 64 }
    ensures { Took result value frame.old frame.new }
{
    match value {
        Some(value) => match frame.push(value) {
            Ok(()) => {
                frame.go_on();
                Ok(())
            }
            Err(fault) => Err(fault),
        },
        None => {
            if !frame.has_room(0) {
                return Err(TagFault::Overflow);
            }
            frame.go_on();
            Ok(())
        }
    }
}

// Keeps the memory of a frame that has ended in the frame on top, if that is a method's.
#[inline(always)]
fn keep_memory(thread: &mut Thread, ended: Frame)
    ensures { (fs : List StackFrame) (r : ThreadRest) → Stands thread.old fs r → Stands thread.new fs r }
{
    let Some(top) = thread.frames.last_mut() else {
        return;
    };
    match top {
        StackFrame::Method(caller) => caller.keep(ended),
        StackFrame::Initialization { class: _, stage: _ } => {}
        StackFrame::Entry => {}
    }
}

// Drops the top frame, if there is one; the frame below keeps its memory, if both are methods'.
#[inline(always)]
fn end_top(thread: &mut Thread)
    ensures { (fs : List StackFrame) (r : ThreadRest) → Stands thread.old fs r → Stands thread.new (drop 1 fs) r }
{
    let Some(top) = thread.frames.pop() else {
        return;
    };
    match top {
        StackFrame::Method(ended) => keep_memory(thread, ended),
        StackFrame::Initialization { class: _, stage: _ } => {}
        StackFrame::Entry => {}
    }
}

/// Returns to the frame below the top one: if a method runs in it, it takes the result, if there is
/// one, and moves on; the frame of an initialization stays as it is. `Overflow` where the operands do
/// not fit. OutOfMemory: its instruction has no number after it, which no code that fits in memory
/// has. Nothing has changed then.
#[inline(always)]
pub(crate) fn leave_top(thread: &mut Thread, value: Option<Value>) -> Result<(), Halt>
    requires { (f : FrameView) × (b : StackFrame) × (below : List StackFrame) × (r : ThreadRest) × Stands thread.old (Method f ∷ b ∷ below) r }
    ensures { (f : FrameView) (b : StackFrame) (below : List StackFrame) (r : ThreadRest) → Stands thread.old (Method f ∷ b ∷ below) r
        → Left result thread.new value f b below r }
{
    let count = thread.frames.len();
    match &mut thread.frames[count - 2] {
        StackFrame::Method(frame) => {
            if frame.at() == usize::MAX {
                return Err(Halt::OutOfMemory);
            }
            match take_result(frame, value) {
                Ok(()) => {
                    end_top(thread);
                    Ok(())
                }
                Err(fault) => Err(Halt::Stopped(Stop::TagFault(fault))),
            }
        }
        StackFrame::Initialization { class: _, stage: _ } => {
            let _top = thread.frames.pop();
            Ok(())
        }
        StackFrame::Entry => {
            let _top = thread.frames.pop();
            Ok(())
        }
    }
}

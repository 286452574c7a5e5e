// The top frame of a thread, where a method runs.

ghost use Rattle.std.specs.Prelude.{◌≡◌, ◌+◌, ◌<◌, ◌≤◌, ◌^◌, ◌∷◌, List, drop};
ghost use Rattle.jm_frames.specs.FrameView.{FrameView, with_stack, gone_to};
ghost use Rattle.jm_frames.specs.Made.{outcome};
ghost use Rattle.jm_ops.specs.Flows.{flow_outcome};
ghost use Rattle.jm_ops.specs.SingleFrame.{IsOrdered};
ghost use Rattle.jm_values.specs.Activation.{units};
ghost use Rattle.jm_values.specs.Constants.{push_constant};
ghost use Rattle.jm_values.specs.PlainRows.{row_plain};
ghost use Rattle.jm_state.specs.declared.thread.StackFrame.{StackFrame};
ghost use Rattle.jm_state.specs.declared.thread.StackFrame.TheVariants.{Method};
ghost use Rattle.jm_interp.specs.Standing.{ThreadRest, Stands, RunsMethod, MayGoOn, InAnyMethod};
ghost use Rattle.jm_interp.specs.Stepped.{IsStepped};

use jm_frames::{Frame, Spare};
use jm_ops::{Fault, Flow, step};
use jm_program::Plain;
use jm_state::{StackFrame, Thread};
use jm_values::{TagFault, Value};

/// The top frame, a method's.
#[inline]
pub(crate) fn top_method(thread: &Thread) -> &Frame
    requires { RunsMethod thread.now }
    ensures { InAnyMethod thread.now (λ f below r. result.now ≡ f) }
{
    let Some(top) = thread.frames.last() else {
        unreachable!();
    };
    match top {
        StackFrame::Method(frame) => frame,
        StackFrame::Initialization { class: _, stage: _ } => unreachable!(),
        StackFrame::Entry => unreachable!(),
    }
}

/// Takes the memory that the top frame, a method's, keeps for those that are called from it.
#[inline]
pub(crate) fn take_spare(thread: &mut Thread) -> Spare
    requires { RunsMethod thread.old }
    ensures { (fs : List StackFrame) (r : ThreadRest) → Stands thread.old fs r → Stands thread.new fs r }
{
    let Some(top) = thread.frames.last_mut() else {
        unreachable!();
    };
    match top {
        StackFrame::Method(frame) => frame.take_spare(),
        StackFrame::Initialization { class: _, stage: _ } => unreachable!(),
        StackFrame::Entry => unreachable!(),
    }
}

/// Makes a plain instruction in the top frame. A refused one leaves the frame as it was.
#[inline]
pub(crate) fn step_top(thread: &mut Thread, op: &Plain) -> Result<Flow, Fault>
    requires there { MayGoOn thread.old }
    requires ordered { IsOrdered op.now }
    ensures { InAnyMethod thread.old (IsStepped (row_plain op.now) (flow_outcome result) thread.new) }
{
    let Some(top) = thread.frames.last_mut() else {
        unreachable!();
    };
    match top {
        StackFrame::Method(frame) => step(frame, op),
        StackFrame::Initialization { class: _, stage: _ } => unreachable!(),
        StackFrame::Entry => unreachable!(),
    }
}

/// Pushes a value in the top frame, and goes on.
#[inline]
pub(crate) fn push_top(thread: &mut Thread, value: Value) -> Result<(), TagFault>
    requires { MayGoOn thread.old }
    ensures { InAnyMethod thread.old (IsStepped (push_constant value) (outcome result) thread.new) }
{
    let Some(top) = thread.frames.last_mut() else {
        unreachable!();
    };
    match top {
        StackFrame::Method(frame) => match frame.push(value) {
            Ok(()) => {
                frame.go_on();
                Ok(())
            }
            Err(fault) => Err(fault),
        },
        StackFrame::Initialization { class: _, stage: _ } => unreachable!(),
        StackFrame::Entry => unreachable!(),
    }
}

/// Puts a value in the place of so many operands on top of the top frame, where `max_stack` has room
/// for it, and goes on.
#[inline]
pub(crate) fn replace_top(thread: &mut Thread, count: usize, value: Value)
    requires { (f : FrameView) × (below : List StackFrame) × (r : ThreadRest) × Stands thread.old (Method f ∷ below) r × (f.activation.at + 1 < 2 ^ 64)
        × (units (value ∷ drop count f.activation.stack) ≤ f.activation.max_stack) }
    ensures { InAnyMethod thread.old (λ f below.
        Stands thread.new (Method (gone_to (with_stack f (value ∷ drop count f.activation.stack)) (f.activation.at + 1)) ∷ below)) }
{
    let Some(top) = thread.frames.last_mut() else {
        unreachable!();
    };
    match top {
        StackFrame::Method(frame) => {
            frame.replace(count, value);
            frame.go_on();
        }
        StackFrame::Initialization { class: _, stage: _ } => unreachable!(),
        StackFrame::Entry => unreachable!(),
    }
}

/// Drops so many operands of the top frame, and goes on.
#[inline]
pub(crate) fn drop_top(thread: &mut Thread, count: usize)
    requires { MayGoOn thread.old }
    ensures { InAnyMethod thread.old (λ f below.
        Stands thread.new (Method (gone_to (with_stack f (drop count f.activation.stack)) (f.activation.at + 1)) ∷ below)) }
{
    let Some(top) = thread.frames.last_mut() else {
        unreachable!();
    };
    match top {
        StackFrame::Method(frame) => {
            frame.drop_operands(count);
            frame.go_on();
        }
        StackFrame::Initialization { class: _, stage: _ } => unreachable!(),
        StackFrame::Entry => unreachable!(),
    }
}

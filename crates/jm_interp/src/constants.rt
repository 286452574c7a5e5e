// Instructions that push one value.

ghost use Rattle.std.specs.Prelude.{◌≡◌, ◌+◌, ◌<◌, ◌^◌, nat_le};
ghost use Rattle.jm_values.specs.Activation.{category, units};
ghost use Rattle.jm_values.specs.Rename.{rename};
ghost use Rattle.jm_values.specs.Content.{name_of};
ghost use Rattle.jm_world.specs.Here.{push as here_push};
ghost use Rattle.jm_linked.specs.Links.{Links};
ghost use Rattle.jm_linked.specs.declared.instruction.LinkedInstr.{LinkedInstr};
ghost use Rattle.jm_interp.specs.At.{InMethod, Holds, StandsOn, Does, Steps, in_method};
ghost use Rattle.jm_interp.specs.MethodRuns.{GoesOnOrNot};
ghost use Rattle.jm_interp.specs.Pushing.{Pushes};
ghost use Rattle.jm_interp.specs.Standing.{InAnyMethod, RunsMethod};
ghost use Rattle.jm_interp.specs.StaticRows.{PushesHeld};

use crate::at::At;
use crate::top_frame::{push_top, replace_top, top_method};
use jm_heap::Heap;
use jm_state::{Halt, State, StepEnd, Thread};
use jm_values::Value;
use jm_world::Stop;

/// Pushes a value in the top frame, and goes on.
#[inline]
pub(crate) fn push<H: Heap>(at: At<'_>, state: &mut State<H>, value: Value) -> Result<StepEnd, Halt>
    requires here { (h : InMethod H.content at state.old) × (h.frame.activation.at + 1 < 2 ^ 64) }
    requires held { Holds H.content at state.old value }
    ensures does { Does H.content at.entry state.old result state.new
        (in_method (λ here. here_push here (rename (name_of (H.content state.old.heap)) value) here.frame.stack)) }
    ensures heap { state.new.heap ≡ state.old.heap }
{
    match push_top(&mut state.threads[at.index], value) {
        Ok(()) => Ok(StepEnd::Done),
        Err(fault) => Err(Halt::Stopped(Stop::TagFault(fault))),
    }
}

/// Pushes the value of an instruction that pushes one: `ldc` of an int or a string, `ldc2_w` of a
/// long, or `getstatic` of System.out (JVMS 6.5).
#[inline]
pub(crate) fn push_value<H: Heap>(
    at: At<'_>,
    state: &mut State<H>,
    value: Value,
) -> Result<StepEnd, Halt>
    requires { (li : LinkedInstr) × StandsOn H.content at state.old (Links at.linked.now li)
        × Pushes state.old.statics.items state.old.literals.items li value }
    ensures steps { Steps H.content at.entry state.old result state.new }
    ensures heap { state.new.heap ≡ state.old.heap }
{
    push(at, state, value)
}

// Whether max_stack has room for a value on top of the operands (JVMS 2.6.2).
#[inline]
fn has_room_for(thread: &Thread, value: &Value) -> bool
    requires { RunsMethod thread.now }
    ensures { InAnyMethod thread.now (λ f below r. result ≡ nat_le (units f.activation.stack + category value.now) f.activation.max_stack) }
{
    let more = match value {
        Value::Long(_) => 2,
        _ => 1,
    };
    top_method(thread).has_room(more)
}

/// Ends a row of a run that pushes a value, and answers whether it goes on; nothing has changed where
/// max_stack has no room for it.
#[inline]
pub(crate) fn try_push<H: Heap>(at: At<'_>, state: &mut State<H>, value: Value) -> bool
    requires here { (h : InMethod H.content at state.old) × (h.frame.activation.at + 1 < 2 ^ 64) }
    requires pushes { PushesHeld H.content at state.old value }
    ensures { GoesOnOrNot H.content at.entry result state.old state.new }
{
    if !has_room_for(&state.threads[at.index], &value) {
        return false;
    }
    replace_top(&mut state.threads[at.index], 0, value);
    true
}

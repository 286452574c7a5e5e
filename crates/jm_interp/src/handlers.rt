// Exception handlers (JVMS 2.10, 3.12, 4.7.3).

ghost use Rattle.std.specs.Prelude.{◌≡◌, ◌<◌, List, length};
ghost use Rattle.std.specs.List.{AllByRecursion};
ghost use Rattle.jm_world.specs.Throwing.{catches};
ghost use Rattle.jm_world.specs.World.{World};
ghost use Rattle.jm_linked.specs.Links.{CatchesClass, handler_in};
ghost use Rattle.jm_state.specs.Parts.{named_type};
ghost use Rattle.jm_state.specs.Runnable.{FrameRuns};
ghost use Rattle.jm_state.specs.declared.thread.StackFrame.{StackFrame};
ghost use Rattle.jm_interp.specs.Catching.{Caught, IsKnown, target_among, target_in, target_on_top};
ghost use Rattle.jm_interp.specs.Standing.{InAnyMethod, RunsMethod, Stands, ThreadRest};

use crate::object_kind::is_of;
use jm_heap::ClassId;
use jm_linked::{Linked, LinkedHandler};
use jm_state::{StackFrame, Thread};
use jm_values::{Place, TagFault, Value};

// Whether a handler catches, at an instruction, an exception that is marked so: its range has the
// instruction, the start in and the end out, and its class is the exception's or above it.
#[inline]
fn catches(linked: &Linked, handler: LinkedHandler, index: usize, thrown: ClassId) -> bool
    requires known { IsKnown linked.now.program thrown }
    requires named { CatchesClass linked.now.program handler }
    ensures { (w : World) → w.program ≡ linked.now.program
        → result ≡ catches w index (named_type linked.now.program thrown) (handler_in linked.now.program handler) }
{
    if index < handler.start as usize || handler.end as usize <= index {
        return false;
    }
    match handler.catch_type {
        Some(class) => is_of(linked, thrown, class),
        None => true,
    }
}

// Where the first of some handlers begins that catches, in their order.
fn target_among(
    linked: &Linked,
    handlers: &[LinkedHandler],
    index: usize,
    thrown: ClassId,
) -> Option<u32>
    requires known { IsKnown linked.now.program thrown }
    requires named { AllByRecursion (CatchesClass linked.now.program) handlers.now }
    ensures { (w : World) → w.program ≡ linked.now.program
        → result ≡ target_among w linked.now.program index (named_type linked.now.program thrown) handlers.now }
{
    for handler in handlers {
        if catches(linked, *handler, index, thrown) {
            return Some(handler.target);
        }
    }
    None
}

// Where the first handler of a method begins that catches, in the order of the table.
fn target_in(linked: &Linked, method: usize, index: usize, thrown: ClassId) -> Option<u32>
    requires there { method < length linked.now.methods }
    requires known { IsKnown linked.now.program thrown }
    ensures { (w : World) → w.program ≡ linked.now.program
        → result ≡ target_in w linked.now method index (named_type linked.now.program thrown) }
{
    let handlers = linked.methods()[method].handlers.as_slice();
    target_among(linked, handlers, index, thrown)
}

/// Where the first handler begins that catches an exception, marked so, in the top frame; none where
/// no method runs in it (JVMS 3.12).
pub(crate) fn target_on_top(linked: &Linked, thread: &Thread, thrown: ClassId) -> Option<u32>
    requires known { IsKnown linked.now.program thrown }
    requires methods { (fs : List StackFrame) × (r : ThreadRest) × Stands thread.now fs r × AllByRecursion (FrameRuns linked.now) fs }
    ensures { (fs : List StackFrame) (r : ThreadRest) → Stands thread.now fs r → (w : World) → w.program ≡ linked.now.program
        → result ≡ target_on_top w linked.now (named_type linked.now.program thrown) fs }
{
    let Some(top) = thread.frames.last() else {
        return None;
    };
    match top {
        StackFrame::Method(frame) => target_in(linked, frame.method(), frame.at(), thrown),
        StackFrame::Initialization { class: _, stage: _ } => None,
        StackFrame::Entry => None,
    }
}

/// A reference to an exception takes the place of all operands of the top frame, which goes to the
/// handler that begins at an instruction, and no exception is pending. `Overflow`: `max_stack` is 0, and
/// nothing has changed.
pub(crate) fn catch_on_top(thread: &mut Thread, place: Place, target: u32) -> Result<(), TagFault>
    requires { RunsMethod thread.old }
    ensures { InAnyMethod thread.old (Caught result thread.new place target) }
{
    let Some(top) = thread.frames.last_mut() else {
        unreachable!();
    };
    match top {
        StackFrame::Method(frame) => {
            let count = frame.operands().len();
            if frame.operand(0).is_none() && !frame.has_room(1) {
                return Err(TagFault::Overflow);
            }
            frame.replace(count, Value::Ref(place));
            frame.go_to(target as usize);
            thread.pending = None;
            Ok(())
        }
        StackFrame::Initialization { class: _, stage: _ } => unreachable!(),
        StackFrame::Entry => unreachable!(),
    }
}

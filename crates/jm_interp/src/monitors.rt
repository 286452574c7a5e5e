// `monitorenter`, `monitorexit`, and the monitors of synchronized methods (JVMS 2.11.10, 6.5).

ghost use Rattle.std.specs.Prelude.{◌≡◌, ◌+◌, ◌<◌, ◌^◌, [], ◌∷◌, option_map, is_some};
ghost use Rattle.jm_values.specs.Content.{name_of};
ghost use Rattle.jm_program.specs.declared.instruction.operation.MonitorOp.TheVariants as monitor;
ghost use Rattle.jm_world.specs.Frames.{optional_number_shape};
ghost use Rattle.jm_world.specs.Matches.{Matches};
ghost use Rattle.jm_world.specs.Monitors.{enter, enter_if, leave};
ghost use Rattle.jm_world.specs.Next.{goes};
ghost use Rattle.jm_world.specs.World.{World};
ghost use Rattle.jm_state.specs.Runnable.{StateRuns};
ghost use Rattle.jm_linked.specs.Links.{Links};
ghost use Rattle.jm_linked.specs.declared.instruction.LinkedInstr.TheVariants as linked_instr;
ghost use Rattle.jm_interp.specs.At.{OnFrames, StandsOn, HoldsAll, Does, Steps, parts_at, MakesIn};
ghost use Rattle.jm_interp.specs.Locking.{BesideAny, Lies, LeftAs, OnlyMonitors};

use crate::at::At;
use crate::throwing::throws;
use crate::top_object::{go_on_without, object_at, refuse};
use jm_builtins::BuiltInClass;
use jm_heap::Heap;
use jm_monitors::Entering;
use jm_state::{Halt, State, StepEnd};
use jm_values::{Place, TagFault};
use jm_world::Stop;

/// Enters the monitor of an object (JVMS 6.5 monitorenter). Blocked: another thread holds it.
/// Stopped: it would have been entered 2^31 times. OutOfMemory: a growth was refused. Nothing has
/// changed then.
pub(crate) fn enter<H: Heap>(
    at: At<'_>,
    state: &mut State<H>,
    object: Place,
) -> Result<StepEnd, Halt>
    requires on { OnFrames H.content at state.old }
    requires held { HoldsAll H.content at state.old (object ∷ []) }
    ensures rest { OnlyMonitors state.old state.new }
    ensures does { Does H.content at.entry state.old result state.new (λ w number t. enter w number (name_of (H.content state.old.heap) object) goes) }
{
    let serial = state.heap.serial(object);
    match state.monitors.enter(serial, object, at.index as u64 + 1) {
        Ok(Entering::Entered) => Ok(StepEnd::Done),
        Ok(Entering::Blocked) => Ok(StepEnd::Blocked),
        Ok(Entering::CountEnds) => Err(Halt::Stopped(Stop::TagFault(TagFault::MonitorCount))),
        Err(_) => Err(Halt::OutOfMemory),
    }
}

/// The same of a synchronized method's receiver, if there is one.
pub(crate) fn enter_if<H: Heap>(
    at: At<'_>,
    state: &mut State<H>,
    object: Option<Place>,
) -> Result<StepEnd, Halt>
    requires on { OnFrames H.content at state.old }
    requires held { HoldsAll H.content at state.old (optional_number_shape.refs object) }
    ensures rest { OnlyMonitors state.old state.new }
    ensures does { Does H.content at.entry state.old result state.new
        (λ w number t. enter_if w number (option_map (name_of (H.content state.old.heap)) object) goes) }
{
    match object {
        Some(object) => enter(at, state, object),
        None => Ok(StepEnd::Done),
    }
}

/// Whether the thread holds the monitor of an object.
pub(crate) fn owns<H: Heap>(at: At<'_>, state: &State<H>, object: Place) -> bool
    requires numbered { at.index + 1 < 2 ^ 64 }
    requires lies { Lies H.content state.now object }
    ensures { (w : World) → Matches (parts_at H.content at.entry state.now) w
        → result ≡ is_some (leave w (at.entry.index + 1) (name_of (H.content state.now.heap) object)) }
{
    match state.monitors.get(state.heap.serial(object)) {
        Some(held) => held.owner == at.index as u64 + 1,
        None => false,
    }
}

/// Leaves the monitor of an object (JVMS 6.5 monitorexit). False: the thread does not hold it, and
/// nothing has changed.
pub(crate) fn leave<H: Heap>(at: At<'_>, state: &mut State<H>, object: Place) -> bool
    requires numbered { at.index + 1 < 2 ^ 64 }
    requires beside { BesideAny H.content at.linked.now state.old }
    requires lies { Lies H.content state.old object }
    ensures rest { OnlyMonitors state.old state.new }
    ensures runs { StateRuns at.entry.linked.now state.new }
    ensures left { (w : World) → Matches (parts_at H.content at.entry state.old) w
        → LeftAs result (leave w (at.entry.index + 1) (name_of (H.content state.old.heap) object)) (parts_at H.content at.entry state.new) w }
{
    let serial = state.heap.serial(object);
    state.monitors.exit(serial, at.index as u64 + 1)
}

/// Makes `monitorenter` (JVMS 6.5): the monitor of the object on top is entered. Null throws
/// NullPointerException.
#[inline(never)]
pub(crate) fn enter_top<H: Heap>(at: At<'_>, state: &mut State<H>) -> Result<StepEnd, Halt>
    requires { StandsOn H.content at state.old (Links at.linked.now (linked_instr.Monitor monitor.Enter)) }
    ensures steps { Steps H.content at.entry state.old result state.new }
    ensures nursery { MakesIn H.content H.nursery_of at.entry state.old state.new }
{
    let object = match object_at(&state.threads[at.index], 0) {
        Ok(object) => object,
        Err(refusal) => return refuse(at, state, refusal),
    };
    match enter(at, state, object) {
        Ok(StepEnd::Done) => {
            go_on_without(at, state, 1);
            Ok(StepEnd::Done)
        }
        Ok(StepEnd::Blocked) => Ok(StepEnd::Blocked),
        Err(halt) => Err(halt),
    }
}

/// Makes `monitorexit` (JVMS 6.5): the monitor of the object on top is left. Null throws
/// NullPointerException, and a thread that does not hold it gets IllegalMonitorStateException.
#[inline(never)]
pub(crate) fn leave_top<H: Heap>(at: At<'_>, state: &mut State<H>) -> Result<StepEnd, Halt>
    requires { StandsOn H.content at state.old (Links at.linked.now (linked_instr.Monitor monitor.Exit)) }
    ensures steps { Steps H.content at.entry state.old result state.new }
    ensures nursery { MakesIn H.content H.nursery_of at.entry state.old state.new }
{
    let object = match object_at(&state.threads[at.index], 0) {
        Ok(object) => object,
        Err(refusal) => return refuse(at, state, refusal),
    };
    if !leave(at, state, object) {
        return throws(
            at,
            state,
            BuiltInClass::IllegalMonitorStateException.number(),
        );
    }
    go_on_without(at, state, 1);
    Ok(StepEnd::Done)
}

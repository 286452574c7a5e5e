// Starts of threads (JVMS 2.5.1, java/lang/Thread).

ghost use Rattle.std.specs.Prelude.{◌≡◌, ◌+◌, ◌<◌, ◌^◌, [], ◌∷◌, IfOk, OnErr, OnOk, drop};
ghost use Rattle.jm_values.specs.Content.{name_of};
ghost use Rattle.jm_world.specs.BuiltInMethods.{start_thread};
ghost use Rattle.jm_state.specs.Runnable.{StateRuns};
ghost use Rattle.jm_interp.specs.At.{InMethod, HoldsAll, Steps, MakesIn};
ghost use Rattle.jm_interp.specs.Starting.{IsNew, Added, LooksAlike};
ghost use Rattle.jm_interp.specs.TopObject.{StepIs};

use crate::at::At;
use crate::throwing::throws;
use crate::top_object::go_on_without;
use jm_builtins::BuiltInClass;
use jm_heap::Heap;
use jm_state::{Ending, Halt, StackFrame, State, StepEnd, Thread};
use jm_values::Place;
use std::alloc::{AllocError, Global};

// A thread that has not begun.
fn new_thread(alloc: Global, object: Place, serial: u64) -> Result<Thread, AllocError>
    ensures { IfOk result (λ thread. IsNew thread object serial) }
{
    let mut frames = Vec::with_capacity(alloc, 1)?;
    frames.push_reserved(StackFrame::Entry);
    Ok(Thread {
        object: Some(object),
        serial: Some(serial),
        frames,
        pending: None,
        ending: Ending::Running,
    })
}

// Puts a thread behind the others. `AllocError`: a growth was refused, and nothing has changed.
fn add_thread<H: Heap>(
    at: At<'_>,
    state: &mut State<H>,
    object: Place,
    serial: u64,
) -> Result<(), AllocError>
    requires { StateRuns at.linked.now state.old }
    ensures added { OnOk result (Added state.old state.new object serial) }
    ensures refused { OnErr result (LooksAlike state.old state.new) }
{
    let thread = new_thread(at.alloc, object, serial)?;
    state.threads.reserve(1)?;
    match state.started.insert(serial) {
        Ok(_) => {
            state.threads.push_reserved(thread);
            state.live += 1;
            Ok(())
        }
        Err(_) => Err(AllocError),
    }
}

/// Starts the thread of an object (java/lang/Thread.start): the thread is the last one, and begins
/// with `run`. A second start of one object throws IllegalThreadStateException. OutOfMemory: a growth
/// was refused, and nothing has changed.
pub(crate) fn start_thread<H: Heap>(
    at: At<'_>,
    state: &mut State<H>,
    object: Place,
) -> Result<StepEnd, Halt>
    requires here { (h : InMethod H.content at state.old) × (h.frame.activation.at + 1 < 2 ^ 64) }
    requires held { HoldsAll H.content at state.old (object ∷ []) }
    requires step { StepIs H.content at state.old (λ here. start_thread here (name_of (H.content state.old.heap) object) (drop 1 here.frame.stack)) }
    ensures steps { Steps H.content at.entry state.old result state.new }
    ensures nursery { MakesIn H.content H.nursery_of at.entry state.old state.new }
{
    let serial = state.heap.serial(object);
    if state.started.contains(&serial) {
        return throws(
            at,
            state,
            BuiltInClass::IllegalThreadStateException.number(),
        );
    }
    match add_thread(at, state, object, serial) {
        Ok(()) => {
            go_on_without(at, state, 1);
            Ok(StepEnd::Done)
        }
        Err(_) => Err(Halt::OutOfMemory),
    }
}

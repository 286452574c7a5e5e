// How a program is loaded.

ghost use Rattle.std.specs.Prelude.{◌≡◌, ◌<◌, ◌^◌, IfOk, Some, None, false, slice_get};
ghost use Rattle.jm_linked.specs.declared.method.LinkedMethod.{LinkedMethod as Method};
ghost use Rattle.jm_machine.specs.Start.{IsEmpty, first_frames};
ghost use Rattle.jm_state.specs.Parts.{state_parts};
ghost use Rattle.jm_state.specs.Runnable.{StateRuns};
ghost use Rattle.jm_world.specs.Loading.{loaded_world, is_too_small};
ghost use Rattle.jm_world.specs.Matches.{Matches};

use crate::fault::OutOfMemory;
use crate::first_objects::{make_first_objects, pass_limit, string_places};
use crate::static_fields::first_values;
use jm_frames::Frame;
use jm_heap::Heap;
use jm_linked::Linked;
use jm_monitors::{InitStates, Monitors};
use jm_state::{Ending, StackFrame, State, Thread};
use jm_values::{Place, Value};
use jm_world::Stage;
use std::alloc::{AllocError, Global};
use std::collections::BTreeSet;

// Main's frame, whose one argument is its first local variable, and above it the initialization of
// its class.
pub(crate) fn make_first_frames(
    alloc: Global,
    linked: &Linked,
    arguments: Place,
) -> Result<Vec<StackFrame>, AllocError>
    ensures { IfOk result (λ frames. (m : Method) → slice_get linked.now.methods linked.now.main ≡ Some m → frames.items ≡ first_frames linked.now.main m arguments) }
{
    let number = linked.main() as usize;
    let main = &linked.methods()[number];
    let mut frame = Frame::new(alloc, number, None, main.max_stack, main.max_locals.max(1))?;
    frame.set_local(0, Some(Value::Ref(arguments)));
    let mut frames = Vec::with_capacity(alloc, 2)?;
    frames.push_reserved(StackFrame::Method(frame));
    frames.push_reserved(StackFrame::Initialization {
        class: main.class,
        stage: Stage::Begin,
    });
    Ok(frames)
}

/// Whether the first objects pass a limit: the print stream of System.out, main's empty array, and
/// of each literal its array of chars and its String. It takes no memory.
pub(crate) fn is_too_small(linked: &Linked, limit: u64) -> bool
    ensures { result ≡ is_too_small linked.now.program limit }
{
    // The literals of a linked program are those of its classes.
    let _classes = linked.classes();
    pass_limit(linked.literals(), limit)
}

// The state from which a run begins, over a heap with room for the first objects.
pub(crate) fn make_first_state<H: Heap + Drop>(
    alloc: Global,
    linked: &Linked,
    mut heap: H,
) -> Result<State<H>, OutOfMemory>
    requires empty { IsEmpty (H.content heap) }
    requires room { is_too_small linked.now.program (H.content heap).limit ≡ false }
    requires small { (H.content heap).limit < 2 ^ 64 }
    ensures loaded { IfOk result (λ state. Matches (state_parts H.content linked.now state) (loaded_world linked.now.program (H.content heap).limit)) }
    ensures runs { IfOk result (λ state. StateRuns linked.now state) }
{
    let program = linked.classes();
    let places = make_first_objects(alloc, &mut heap, linked.literals())?;
    let out = places.get(0);
    let arguments = places.get(1);
    let frames = make_first_frames(alloc, linked, arguments)?;
    let mut threads = Vec::with_capacity(alloc, 1)?;
    threads.push_reserved(Thread {
        object: None,
        serial: None,
        frames,
        pending: None,
        ending: Ending::Running,
    });
    let statics = first_values(alloc, program, out)?;
    let classes = InitStates::new(alloc, program.len())?;
    let literals = string_places(alloc, &places)?;
    Ok(State {
        heap,
        threads,
        live: 1,
        statics,
        classes,
        literals,
        started: BTreeSet::new(alloc),
        monitors: Monitors::new(alloc),
        output: Vec::new(alloc),
        stop: None,
    })
}

// One event.

ghost use Rattle.std.specs.Prelude.{◌≡◌, ◌+◌, ◌<◌, ◌≤◌, ◌^◌, ℕ, MatchResult, OnErr, OnOk, Some, None, length, true};
ghost use Rattle.jm_world.specs.World.{World, Thread as ModelThread, thread_at};
ghost use Rattle.jm_world.specs.Run.{after, after_event, after_step};
ghost use Rattle.jm_world.specs.Stepping.{step_thread};
ghost use Rattle.jm_world.specs.declared.event.Event.TheVariants.{Step};
ghost use Rattle.jm_heap.specs.Allocation.{NewLie};
ghost use Rattle.jm_heap.specs.Collection.{IsAsBefore};
ghost use Rattle.jm_state.specs.Parts.{state_parts};
ghost use Rattle.jm_state.specs.Places.{places_of};
ghost use Rattle.jm_state.specs.Reached.{LeavesReachable};
ghost use Rattle.jm_state.specs.Runnable.{StateRuns};
ghost use Rattle.jm_state.specs.View.{view_of};
ghost use Rattle.jm_state.specs.declared.thread.Ending.TheVariants.{Running};
ghost use Rattle.jm_interp.specs.PlainRuns.{MakesDone};
ghost use Rattle.jm_interp.specs.ThreadRuns.{IsWithin, Makes};
ghost use Rattle.jm_machine.specs.Answered.{IsAnswered, MayWantMemory};
ghost use Rattle.jm_machine.specs.Collected.{CollectsIn, LeavesAfter};
ghost use Rattle.jm_machine.specs.Threads.{ending_numbered, is_live};
ghost use Rattle.jm_machine.specs.View.{IsBeside};

use crate::fault::OutOfMemory;
use jm_heap::{Heap, Kind};
use jm_interp::{Run, run_plain, run_thread, step_thread};
use jm_linked::Linked;
use jm_state::{Ending, Halt, State, StepEnd, Thread, collect};
use jm_world::{Event, Reply, ReplyKind};
use std::alloc::Global;

// How the thread of a number, counted from 1, has ended; None where there is no such thread.
pub(crate) fn ending_of(threads: &[Thread], number: u64) -> Option<Ending>
    ensures { result ≡ ending_numbered threads.now number }
{
    let index = number.checked_sub(1)?;
    match threads.get(index as usize) {
        Some(thread) => Some(thread.ending),
        None => None,
    }
}

// The reply of a kind. It walks over no thread.
pub(crate) fn reply_of<H>(state: &State<H>, kind: ReplyKind) -> Reply
    ensures { result ≡ record { kind = kind; made = length state.now.threads.items; live = state.now.live } }
{
    Reply {
        kind,
        made: state.threads.len() as u64,
        live: state.live as u64,
    }
}

// Makes a step of a thread that has not ended.
fn step_running<H: Heap>(
    alloc: Global,
    linked: &Linked,
    state: &mut State<H>,
    nursery: usize,
    number: u64,
) -> Result<ReplyKind, OutOfMemory>
    requires runs { StateRuns linked.now state.old }
    requires matched { (w : World) × IsBeside H.content linked.now state.old w }
    requires running { ending_numbered state.old.threads.items number ≡ Some Running }
    ensures event { (w : World) (t : ModelThread) → IsBeside H.content linked.now state.old w → thread_at w number ≡ Some t → MatchResult result (λ kind. IsAnswered (state_parts H.content linked.now state.new) kind (after_step w (step_thread w number t))) (λ _. IsBeside H.content linked.now state.new w) }
    ensures runs { StateRuns linked.now state.new }
    ensures nursery { NewLie (λ p. H.nursery_of p nursery) (H.content state.old.heap) (H.content state.new.heap) }
{
    match step_thread(alloc, linked, state, number, nursery) {
        Ok(StepEnd::Done) => Ok(ReplyKind::Done),
        Ok(StepEnd::Blocked) => Ok(ReplyKind::Blocked),
        Err(Halt::Stopped(stop)) => {
            state.stop = Some(stop);
            Ok(ReplyKind::Stopped)
        }
        Err(Halt::OutOfMemory) => Err(OutOfMemory),
    }
}

// Makes a step of the thread of a number.
fn step_numbered<H: Heap>(
    alloc: Global,
    linked: &Linked,
    state: &mut State<H>,
    nursery: usize,
    number: u64,
) -> Result<ReplyKind, OutOfMemory>
    requires runs { StateRuns linked.now state.old }
    requires matched { (w : World) × IsBeside H.content linked.now state.old w }
    ensures event { (w : World) → IsBeside H.content linked.now state.old w → MatchResult result (λ kind. IsAnswered (state_parts H.content linked.now state.new) kind (after_event w (Step number))) (λ _. IsBeside H.content linked.now state.new w) }
    ensures live { (w : World) → IsBeside H.content linked.now state.old w → OnErr result (is_live w number ≡ true) }
    ensures runs { StateRuns linked.now state.new }
    ensures nursery { NewLie (λ p. H.nursery_of p nursery) (H.content state.old.heap) (H.content state.new.heap) }
{
    match ending_of(&state.threads, number) {
        None => Ok(ReplyKind::None),
        Some(Ending::Running) => step_running(alloc, linked, state, nursery, number),
        Some(Ending::Returned) => Ok(ReplyKind::Ended),
        Some(Ending::EndedBy(_)) => Ok(ReplyKind::Ended),
    }
}

// Collects, which changes nothing of the world.
fn collect_kind<H: Heap>(
    alloc: Global,
    linked: &Linked,
    state: &mut State<H>,
    kind: Kind,
) -> Result<ReplyKind, OutOfMemory>
    requires runs { StateRuns linked.now state.old }
    requires matched { (w : World) × IsBeside H.content linked.now state.old w }
    ensures kept { (w : World) → IsBeside H.content linked.now state.old w → IsBeside H.content linked.now state.new w }
    ensures runs { StateRuns linked.now state.new }
    ensures kind { MatchResult result (λ kind. kind ≡ ReplyKind.Done) (λ _. Unit {0}) }
    ensures leaves { (w : World) → IsBeside H.content linked.now state.old w → OnOk result (LeavesReachable kind (H.content state.new.heap) w) }
    ensures word { OnOk result (H.leaves kind state.old.heap state.new.heap (places_of (view_of state.old)) (places_of (view_of state.new))) }
    ensures as_before { IsAsBefore (H.content state.old.heap) (H.content state.new.heap) }
{
    match collect(alloc, linked, state, kind) {
        Ok(()) => Ok(ReplyKind::Done),
        Err(_) => Err(OutOfMemory),
    }
}

// Makes an event, and says what it came to.
pub(crate) fn make_event<H: Heap>(
    alloc: Global,
    linked: &Linked,
    state: &mut State<H>,
    nursery: usize,
    event: Event,
) -> Result<ReplyKind, OutOfMemory>
    requires runs { StateRuns linked.now state.old }
    requires matched { (w : World) × IsBeside H.content linked.now state.old w }
    ensures event { (w : World) → IsBeside H.content linked.now state.old w → MatchResult result (λ kind. IsAnswered (state_parts H.content linked.now state.new) kind (after w event)) (λ _. IsBeside H.content linked.now state.new w) }
    ensures wants { (w : World) → IsBeside H.content linked.now state.old w → OnErr result (MayWantMemory w event) }
    ensures leaves { (w : World) → IsBeside H.content linked.now state.old w → OnOk result (LeavesAfter event (H.content state.new.heap) w) }
    ensures collects { OnOk result (CollectsIn H.leaves event state.old.heap (view_of state.old) state.new.heap (view_of state.new)) }
    ensures nursery { NewLie (λ p. H.nursery_of p nursery) (H.content state.old.heap) (H.content state.new.heap) }
    ensures runs { StateRuns linked.now state.new }
{
    if state.stop.is_some() {
        return Ok(ReplyKind::Stopped);
    }
    match event {
        Event::Step(number) => step_numbered(alloc, linked, state, nursery, number),
        Event::Minor => collect_kind(alloc, linked, state, Kind::Minor),
        Event::Full => collect_kind(alloc, linked, state, Kind::Full),
    }
}

// Makes steps of a thread, one after the other, while they are instructions that touch one frame
// alone and go on, at most so many, and answers how many: none where the machine has stopped, or
// where there is no such thread or it has ended.
#[inline]
pub(crate) fn make_plain<H: Heap>(
    linked: &Linked,
    state: &mut State<H>,
    number: u64,
    most: usize,
) -> usize
    requires runs { StateRuns linked.now state.old }
    requires matched { (w : World) × IsBeside H.content linked.now state.old w }
    ensures steps { (w : World) → IsBeside H.content linked.now state.old w → MakesDone (state_parts H.content linked.now state.new) number result w }
    ensures runs { StateRuns linked.now state.new }
    ensures most { result ≤ most }
{
    if state.stop.is_some() {
        return 0;
    }
    match ending_of(&state.threads, number) {
        Some(Ending::Running) => run_plain(linked, state, number, most),
        Some(Ending::Returned) => 0,
        Some(Ending::EndedBy(_)) => 0,
        None => 0,
    }
}

// Makes steps of a thread, one after the other, at most so many: none where the machine has stopped,
// or where there is no such thread or it has ended.
#[inline]
pub(crate) fn make_many<H: Heap>(
    alloc: Global,
    linked: &Linked,
    state: &mut State<H>,
    nursery: usize,
    number: u64,
    most: usize,
) -> Run
    requires runs { StateRuns linked.now state.old }
    requires matched { (w : World) × IsBeside H.content linked.now state.old w }
    ensures steps { (w : World) → IsBeside H.content linked.now state.old w → Makes result (state_parts H.content linked.now state.new) number w }
    ensures runs { StateRuns linked.now state.new }
    ensures most { IsWithin most result }
{
    if state.stop.is_some() {
        return Run::Alike(0);
    }
    match ending_of(&state.threads, number) {
        Some(Ending::Running) => run_thread(alloc, linked, state, number, nursery, most),
        Some(Ending::Returned) => Run::Alike(0),
        Some(Ending::EndedBy(_)) => Run::Alike(0),
        None => Run::Alike(0),
    }
}

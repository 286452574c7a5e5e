// Unwinding.

ghost use Rattle.std.specs.Prelude.{◌≡◌, ◌<◌, ◌+◌, List, Some, Ok, IfSome, drop, length, false, codes};
ghost use Rattle.jm_program.specs.declared.code.Handler.{Handler};
ghost use Rattle.jm_world.specs.Classes.{error_class};
ghost use Rattle.jm_world.specs.World.{ended_by, is_running, with_state};
ghost use Rattle.jm_world.specs.Next.{goes};
ghost use Rattle.jm_world.specs.Throwing.{class_name, unwound_anew};
ghost use Rattle.jm_world.specs.declared.class_state.ClassState.TheVariants.{Failed};
ghost use Rattle.jm_state.specs.Parts.{ending_part, named_type, program_class_name};
ghost use Rattle.jm_state.specs.declared.halt.StepEnd.TheVariants.{Done};
ghost use Rattle.jm_state.specs.declared.thread.StackFrame.{StackFrame};
ghost use Rattle.jm_interp.specs.At.{OnThread, OnFrames, Does, Steps, MakesIn};
ghost use Rattle.jm_interp.specs.Catching.{IsKnown, InThrowing, dropped_by, failed_by, handles, is_of, monitor_on_top};
ghost use Rattle.jm_interp.specs.Ending.{unwound_to};

use crate::at::At;
use crate::ending::end_thread;
use crate::frames::{class_on_top, leave_frame, monitor_on_top};
use crate::handlers::{catch_on_top, target_on_top};
use crate::monitors::{leave, owns};
use crate::object_kind::{is_known, is_of};
use crate::throwing::leave_pending;
use jm_builtins::BuiltInClass;
use jm_heap::{ClassId, Heap};
use jm_linked::Linked;
use jm_state::{Ending, Halt, State, StepEnd};
use jm_values::Place;
use jm_world::Stop;

// The end by an exception of a class. An array, which nothing throws, has no class: its number is
// the one past the last class's, and there is none where numbers have come to their end.
fn ending_by(linked: &Linked, thrown: ClassId) -> Option<Ending>
    ensures { IfSome result (λ ending. ending_part linked.now.program ending ≡ ended_by (class_name (named_type linked.now.program thrown))) }
{
    match thrown {
        ClassId::Instance(class) => Some(Ending::EndedBy(class)),
        ClassId::Array(_) => {
            let built_in = linked.built_ins().len();
            let classes = linked.classes().len();
            if classes >= u32::MAX as usize - built_in {
                return None;
            }
            Some(Ending::EndedBy((built_in + classes) as u32))
        }
    }
}

// Drops the top frame, and with the last one the thread ends so.
fn drop_frame<H: Heap>(at: At<'_>, state: &mut State<H>, ending: Ending)
    requires { OnFrames H.content at state.old × (is_running (ending_part at.linked.now.program ending) ≡ false) }
    ensures does { Does H.content at.entry state.old (Ok Done) state.new
        (λ w number t. unwound_to w number t (drop 1 t.frames) (ending_part at.entry.linked.now.program ending)) }
    ensures heap { state.new.heap ≡ state.old.heap }
{
    if state.threads[at.index].frames.len() > 1 {
        leave_frame(at, state);
        return;
    }
    end_thread(at, state, ending);
}

// Marks a class as failed (JVMS 5.5).
fn mark_failed<H: Heap>(at: At<'_>, state: &mut State<H>, class: u32)
    requires { OnFrames H.content at state.old × (class < length at.linked.now.program) }
    ensures does { Does H.content at.entry state.old (Ok Done) state.new
        (λ w number t. goes (with_state w (program_class_name at.entry.linked.now.program class) Failed)) }
    ensures heap { state.new.heap ≡ state.old.heap }
{
    state.classes.fail(class);
}

// Drops the frame of the initialization of a class, which has failed; with the last frame the thread
// ends so.
fn fail<H: Heap>(at: At<'_>, state: &mut State<H>, class: u32, ending: Ending)
    requires { OnFrames H.content at state.old × (class < length at.linked.now.program)
        × (is_running (ending_part at.linked.now.program ending) ≡ false) }
    ensures does { Does H.content at.entry state.old (Ok Done) state.new
        (λ w number t. unwound_to (with_state w (program_class_name at.entry.linked.now.program class) Failed) number t (drop 1 t.frames)
        (ending_part at.entry.linked.now.program ending)) }
    ensures heap { state.new.heap ≡ state.old.heap }
{
    mark_failed(at, state, class);
    drop_frame(at, state, ending);
}

// The same with a new ExceptionInInitializerError in the place of the pending exception (JVMS 5.5). It
// is made first: where it cannot be, nothing has changed.
fn fail_anew<H: Heap>(at: At<'_>, state: &mut State<H>, class: u32) -> Result<StepEnd, Halt>
    requires { OnFrames H.content at state.old × (class < length at.linked.now.program) }
    ensures does { Does H.content at.entry state.old result state.new
        (λ w number t. unwound_anew w (with_state w (program_class_name at.entry.linked.now.program class) Failed) number t (drop 1 t.frames)
        (codes "java/lang/ExceptionInInitializerError")) }
    ensures nursery { MakesIn H.content H.nursery_of at.entry state.old state.new }
{
    let error = BuiltInClass::ExceptionInInitializerError.number();
    match leave_pending(at, state, error) {
        Ok(()) => {
            fail(at, state, class, Ending::EndedBy(error));
            Ok(StepEnd::Done)
        }
        Err(halt) => Err(halt),
    }
}

// Goes to the handler that begins at an instruction, in the top frame, with the exception as the one
// operand. Overflow where `max_stack` is 0, and nothing has changed.
fn handle<H: Heap>(
    at: At<'_>,
    state: &mut State<H>,
    place: Place,
    target: u32,
) -> Result<StepEnd, Halt>
    requires { InThrowing H.content at state.old place }
    ensures does { (handler : Handler) → handler.target ≡ target → Does H.content at.entry state.old result state.new (handles handler) }
    ensures heap { state.new.heap ≡ state.old.heap }
{
    match catch_on_top(&mut state.threads[at.index], place, target) {
        Ok(()) => Ok(StepEnd::Done),
        Err(fault) => Err(Halt::Stopped(Stop::TagFault(fault))),
    }
}

// Drops the frame of the initialization of a class, which has failed: an exception that is no Error
// gives its place to a new ExceptionInInitializerError (JVMS 5.5).
fn fail_by<H: Heap>(
    at: At<'_>,
    state: &mut State<H>,
    class: u32,
    thrown: ClassId,
    ending: Ending,
) -> Result<StepEnd, Halt>
    requires on { OnFrames H.content at state.old }
    requires class { class < length at.linked.now.program }
    requires known { IsKnown at.linked.now.program thrown }
    requires ends { is_running (ending_part at.linked.now.program ending) ≡ false }
    ensures does { Does H.content at.entry state.old result state.new
        (failed_by (is_of at.entry.linked.now.program (named_type at.entry.linked.now.program thrown) error_class)
        (program_class_name at.entry.linked.now.program class) (ending_part at.entry.linked.now.program ending)) }
    ensures nursery { MakesIn H.content H.nursery_of at.entry state.old state.new }
{
    if is_of(at.linked, thrown, BuiltInClass::Error.number()) {
        fail(at, state, class, ending);
        return Ok(StepEnd::Done);
    }
    fail_anew(at, state, class)
}

// Drops the top frame and leaves the monitor of an object, which it entered: a thread that does not hold
// it has a new IllegalMonitorStateException in the place of the pending exception (JVMS 6.5 athrow). With
// the last frame the thread ends by the exception. The new one is made first: where it cannot be, nothing
// has changed.
fn drop_synchronized<H: Heap>(
    at: At<'_>,
    state: &mut State<H>,
    object: Place,
    ending: Ending,
) -> Result<StepEnd, Halt>
    requires on { (h : OnFrames H.content at state.old) × (monitor_on_top h.frames ≡ Some object) }
    requires ends { is_running (ending_part at.linked.now.program ending) ≡ false }
    ensures does { Does H.content at.entry state.old result state.new (dropped_by (ending_part at.entry.linked.now.program ending)) }
    ensures nursery { MakesIn H.content H.nursery_of at.entry state.old state.new }
{
    if owns(at, state, object) {
        let _left = leave(at, state, object);
        drop_frame(at, state, ending);
        return Ok(StepEnd::Done);
    }
    let error = BuiltInClass::IllegalMonitorStateException.number();
    match leave_pending(at, state, error) {
        Ok(()) => {
            drop_frame(at, state, Ending::EndedBy(error));
            Ok(StepEnd::Done)
        }
        Err(halt) => Err(halt),
    }
}

// Drops the top frame, and leaves its monitor, if it entered one. With the last frame the thread ends by
// the exception.
fn drop_method<H: Heap>(at: At<'_>, state: &mut State<H>, ending: Ending) -> Result<StepEnd, Halt>
    requires { OnFrames H.content at state.old × (is_running (ending_part at.linked.now.program ending) ≡ false) }
    ensures does { Does H.content at.entry state.old result state.new (dropped_by (ending_part at.entry.linked.now.program ending)) }
    ensures nursery { MakesIn H.content H.nursery_of at.entry state.old state.new }
{
    if let Some(object) = monitor_on_top(&state.threads[at.index]) {
        return drop_synchronized(at, state, object, ending);
    }
    drop_frame(at, state, ending);
    Ok(StepEnd::Done)
}

/// Makes one stage of unwinding (JVMS 2.10, 3.12, 5.5). The first handler of the top frame's method
/// that catches the exception goes on with it as the one operand; else the frame is dropped, and with
/// the last one the thread ends by the exception's class. Where the frame is an initialization's, its
/// class has failed, and an exception that is no Error gives its place to a new
/// ExceptionInInitializerError.
#[inline(never)]
pub(crate) fn unwind_top<H: Heap>(
    at: At<'_>,
    state: &mut State<H>,
    place: Place,
) -> Result<StepEnd, Halt>
    requires { (fs : List StackFrame) × OnThread H.content at state.old fs (Some place) }
    ensures steps { Steps H.content at.entry state.old result state.new }
    ensures nursery { MakesIn H.content H.nursery_of at.entry state.old state.new }
{
    let thrown = state.heap.class_of(place);
    if !is_known(at.linked, thrown) {
        return Err(Halt::OutOfMemory);
    }
    let Some(ending) = ending_by(at.linked, thrown) else {
        return Err(Halt::OutOfMemory);
    };
    if let Some(class) = class_on_top(&state.threads[at.index]) {
        return fail_by(at, state, class, thrown, ending);
    }
    match target_on_top(at.linked, &state.threads[at.index], thrown) {
        Some(target) => handle(at, state, place, target),
        None => drop_method(at, state, ending),
    }
}

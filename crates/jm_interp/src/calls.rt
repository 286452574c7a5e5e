// Calls of methods that have code.

ghost use Rattle.std.specs.Prelude.{◌≡◌, ◌-◌, ◌<◌, ◌∷◌, List, Some, None, IfOk, IfSome, OnOk, true, false, drop, option_map, slice_get, vec_len, vec_capacity};
ghost use Rattle.jm_program.specs.declared.code.Code.{Code};
ghost use Rattle.jm_state.specs.Arguments.{beginning, on_top};
ghost use Rattle.jm_frames.specs.FrameView.{with_stack};
ghost use Rattle.jm_values.specs.Content.{name_of};
ghost use Rattle.jm_state.specs.declared.thread.StackFrame.{StackFrame as HeldFrame};
ghost use Rattle.jm_state.specs.declared.thread.StackFrame.TheVariants.{Method};
ghost use Rattle.jm_linked.specs.declared.method.LinkedMethod.{LinkedMethod};
ghost use Rattle.jm_world.specs.Classes.{FoundMethod};
ghost use Rattle.jm_interp.specs.At.{Does, in_method, MakesIn};
ghost use Rattle.jm_interp.specs.Calls.{IsCalled, ThreadCalls, MayCall, calls_with, callee_with};
ghost use Rattle.jm_interp.specs.Standing.{ThreadRest, Stands, RunsMethod, InAnyMethod};

use crate::at::At;
use crate::monitors::enter_if;
use crate::throwing::throws;
use crate::top_frame::{take_spare, top_method};
use jm_builtins::BuiltInClass;
use jm_frames::Frame;
use jm_heap::Heap;
use jm_state::{Callee, Halt, StackFrame, State, StepEnd, Thread, arguments_on, called_frame_in};
use jm_values::Place;
use std::alloc::AllocError;

/// Calls a method, by its number among those with code: its frame begins with so many operands on top
/// as its arguments, and the caller's loses them and stays at its instruction (JVMS 2.6, 6.5
/// invokestatic). With 512 frames StackOverflowError is thrown instead (JVMS 2.5.2). A method that is
/// synchronized enters a monitor first (JVMS 2.11.10): Blocked where another thread holds it, Stopped
/// where it would have been entered 2^31 times. OutOfMemory: a growth was refused. Nothing has changed
/// then.
pub(crate) fn call<H: Heap>(
    at: At<'_>,
    state: &mut State<H>,
    method: u32,
    count: usize,
    monitor: Option<Place>,
) -> Result<StepEnd, Halt>
    requires { MayCall H.content at state.old method count monitor }
    ensures does { (found : FoundMethod) (code : Code) → IsCalled at.entry.linked.now method found code
        → Does H.content at.entry state.old result state.new
        (in_method (calls_with found code count (option_map (name_of (H.content state.old.heap)) monitor))) }
    ensures nursery { MakesIn H.content H.nursery_of at.entry state.old state.new }
{
    if state.threads[at.index].frames.len() >= 512 {
        return throws(at, state, BuiltInClass::StackOverflowError.number());
    }
    let made = frame_of(at, &mut state.threads[at.index], method, count, monitor);
    let Ok(frame) = made else {
        return Err(Halt::OutOfMemory);
    };
    match enter_if(at, state, frame.monitor()) {
        Ok(StepEnd::Done) => {
            push_called(&mut state.threads[at.index], frame, count);
            Ok(StepEnd::Done)
        }
        Ok(StepEnd::Blocked) => Ok(StepEnd::Blocked),
        Err(halt) => Err(halt),
    }
}

/// The frame of a method that is called by the top frame, with so many of its operands, in memory that
/// the top frame keeps, if it keeps some; the thread has room for it then, and its frames stay. `AllocError`: a growth was refused.
#[inline(always)]
pub(crate) fn frame_of(
    at: At<'_>,
    thread: &mut Thread,
    method: u32,
    count: usize,
    monitor: Option<Place>,
) -> Result<Frame, AllocError>
    requires { ThreadCalls at.linked.now method count thread.old }
    ensures frame { (m : LinkedMethod) → slice_get at.entry.linked.now.methods method ≡ Some m
        → InAnyMethod thread.old (λ f below r. IfOk result (λ frame. frame ≡ beginning (callee_with method m monitor) (on_top count f.activation.stack))) }
    ensures stays { (fs : List HeldFrame) (r : ThreadRest) → Stands thread.old fs r → Stands thread.new fs r }
    ensures room { OnOk result (vec_len thread.new.frames < vec_capacity thread.new.frames) }
{
    let linked = &at.linked.methods()[method as usize];
    let callee = Callee {
        method: method as usize,
        monitor,
        max_stack: linked.max_stack,
        max_locals: linked.max_locals,
    };
    let spare = take_spare(thread);
    let frame = called_frame_in(spare, callee, arguments_on(top_method(thread), count))?;
    thread.frames.reserve(1)?;
    Ok(frame)
}

// Begins the frame of a method that the top frame, a method's, calls with so many of its operands, which it loses, in
// memory that it keeps; none, and nothing has changed, where that does not do.
#[inline(always)]
fn begin_on_top(at: At<'_>, thread: &mut Thread, method: u32, count: usize) -> Option<Frame>
    requires { ThreadCalls at.linked.now method count thread.old }
    ensures begun { (m : LinkedMethod) → slice_get at.entry.linked.now.methods method ≡ Some m → InAnyMethod thread.old (λ f below r. IfSome result (λ frame.
        (frame ≡ beginning (callee_with method m None) (on_top count f.activation.stack))
        × Stands thread.new (Method (with_stack f (drop count f.activation.stack)) ∷ below) r)) }
    ensures stays { result ≡ None → (fs : List HeldFrame) (r : ThreadRest) → Stands thread.old fs r → Stands thread.new fs r }
    ensures room { vec_capacity thread.new.frames - vec_len thread.new.frames ≡ vec_capacity thread.old.frames - vec_len thread.old.frames }
{
    let linked = &at.linked.methods()[method as usize];
    let Some(top) = thread.frames.last_mut() else {
        unreachable!();
    };
    match top {
        StackFrame::Method(frame) => {
            frame.call(method as usize, linked.max_stack, linked.max_locals, count)
        }
        StackFrame::Initialization { class: _, stage: _ } => unreachable!(),
        StackFrame::Entry => unreachable!(),
    }
}

/// Calls a method that enters no monitor, by its number among those with code, from the top frame, with so many of its
/// operands, which it loses; answers whether it was called. It is not where there is no room for one more frame, or
/// the top frame keeps no memory that does; nothing has changed then.
#[inline(always)]
pub(crate) fn call_on_top(at: At<'_>, thread: &mut Thread, method: u32, count: usize) -> bool
    requires { ThreadCalls at.linked.now method count thread.old }
    ensures called { result ≡ true → (m : LinkedMethod) → slice_get at.entry.linked.now.methods method ≡ Some m → InAnyMethod thread.old (λ f below.
        Stands thread.new (Method (beginning (callee_with method m None) (on_top count f.activation.stack))
        ∷ Method (with_stack f (drop count f.activation.stack)) ∷ below)) }
    ensures stays { result ≡ false → (fs : List HeldFrame) (r : ThreadRest) → Stands thread.old fs r → Stands thread.new fs r }
{
    if thread.frames.len() == thread.frames.capacity() {
        return false;
    }
    match begin_on_top(at, thread, method, count) {
        Some(frame) => {
            thread.frames.push_reserved(StackFrame::Method(frame));
            true
        }
        None => false,
    }
}

/// Puts a frame, for which there is room, above the top one, a method's, which loses so many operands.
#[inline(always)]
pub(crate) fn push_called(thread: &mut Thread, frame: Frame, count: usize)
    requires method { RunsMethod thread.old }
    requires room { vec_len thread.old.frames < vec_capacity thread.old.frames }
    ensures { InAnyMethod thread.old (λ f below. Stands thread.new (Method frame ∷ Method (with_stack f (drop count f.activation.stack)) ∷ below)) }
{
    thread.frames.push_reserved(StackFrame::Method(frame));
    let number = thread.frames.len();
    match &mut thread.frames[number - 2] {
        StackFrame::Method(caller) => caller.drop_operands(count),
        StackFrame::Initialization { class: _, stage: _ } => unreachable!(),
        StackFrame::Entry => unreachable!(),
    }
}

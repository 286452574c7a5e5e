// Classes that are to be initialized before they are used (JVMS 5.5).

ghost use Rattle.std.specs.Prelude.{◌≡◌, ◌≤◌, ℕ, List, length};
ghost use Rattle.jm_builtins.specs.List.{the_builtins};
ghost use Rattle.jm_linked.specs.Links.{NamesClass, class_name_of};
ghost use Rattle.jm_state.specs.declared.thread.StackFrame.{StackFrame as HeldFrame};
ghost use Rattle.jm_interp.specs.At.{InMethod, Does, in_method, MakesIn};
ghost use Rattle.jm_interp.specs.Readiness.{Readiness, BegunOnTop, begins};
ghost use Rattle.jm_interp.specs.Standing.{ThreadRest, Stands};

use crate::at::At;
use crate::throwing::throw;
use jm_builtins::BuiltInClass;
use jm_heap::Heap;
use jm_state::{Halt, StackFrame, State, StepEnd, Thread};
use jm_world::{ClassState, Stage};
use std::alloc::AllocError;

/// Whether nothing is to be done for a class by this thread before it is used, by the class's number
/// among all: it is done, or in progress by this thread. A built-in class always is.
#[inline]
pub(crate) fn is_ready<H: Heap>(at: At<'_>, state: &State<H>, class: u32) -> bool
    requires here { InMethod H.content at state.now }
    requires named { (name : List ℕ) × NamesClass at.linked.now.program class name }
    ensures { Readiness H.content at.entry state.now class result }
{
    let built_in = at.linked.built_ins().len() as u32;
    if class < built_in {
        return true;
    }
    match state.classes.get(class - built_in) {
        ClassState::Done => true,
        ClassState::InProgress(owner) => owner == at.index as u64 + 1,
        ClassState::NotBegun => false,
        ClassState::Failed => false,
    }
}

// Puts the frame of the initialization of a class on top. `AllocError`: the growth was refused, and
// the frames are as they were.
fn begin_on_top(thread: &mut Thread, class: u32) -> Result<(), AllocError>
    ensures { (fs : List HeldFrame) (r : ThreadRest) → Stands thread.old fs r → BegunOnTop result thread.new class fs r }
{
    thread.frames.push(StackFrame::Initialization {
        class,
        stage: Stage::Begin,
    })?;
    Ok(())
}

/// Begins the initialization of one of the program's classes, by its number among all, on top of the
/// frames: the instruction is made again afterwards. With 512 frames StackOverflowError is thrown
/// instead (JVMS 2.5.2). OutOfMemory: the growth was refused, and nothing has changed.
#[cold]
pub(crate) fn begin_initialization<H: Heap>(
    at: At<'_>,
    state: &mut State<H>,
    class: u32,
) -> Result<StepEnd, Halt>
    requires here { InMethod H.content at state.old }
    requires own { (name : List ℕ) × NamesClass at.linked.now.program class name × (length the_builtins ≤ class) }
    ensures does { Does H.content at.entry state.old result state.new (in_method (begins (class_name_of at.entry.linked.now.program class))) }
    ensures nursery { MakesIn H.content H.nursery_of at.entry state.old state.new }
{
    if state.threads[at.index].frames.len() >= 512 {
        return throw(at, state, BuiltInClass::StackOverflowError.number());
    }
    let number = class - at.linked.built_ins().len() as u32;
    match begin_on_top(&mut state.threads[at.index], number) {
        Ok(()) => Ok(StepEnd::Done),
        Err(_) => Err(Halt::OutOfMemory),
    }
}

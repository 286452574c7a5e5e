// The initialization of a class.

ghost use Rattle.std.specs.Prelude.{◌≡◌, ◌+◌, ◌<◌, ◌∷◌, ℕ, List, None, Some, Ok, drop, length, slice_get, codes};
ghost use Rattle.jm_world.specs.Frames.{initialization_frame};
ghost use Rattle.jm_world.specs.Here.{push_frame};
ghost use Rattle.jm_world.specs.Initialization.{at_stage, finish};
ghost use Rattle.jm_world.specs.Next.{goes, throw};
ghost use Rattle.jm_world.specs.declared.class_state.ClassState.TheVariants.{NotBegun};
ghost use Rattle.jm_world.specs.declared.stage.Stage.{Stage};
ghost use Rattle.jm_world.specs.declared.stage.Stage.TheVariants.{Begin, Superclass, Initializer};
ghost use Rattle.jm_state.specs.Parts.{program_class_name};
ghost use Rattle.jm_state.specs.declared.halt.StepEnd.TheVariants.{Done};
ghost use Rattle.jm_state.specs.declared.thread.StackFrame.{StackFrame};
ghost use Rattle.jm_state.specs.declared.thread.StackFrame.TheVariants.{Initialization};
ghost use Rattle.jm_interp.specs.At.{OnThread, OnFrames, Does, Steps, MakesIn};
ghost use Rattle.jm_interp.specs.ConstantValues.{puts_in_progress};

use crate::at::At;
use crate::constant_values::{constants_of, set_constants};
use crate::frames::{begin_above, drop_top, go_to_stage, leave_frame};
use crate::initializers::run_initializer;
use crate::superclass::{number_among_all, own_superclass};
use crate::throwing::{leave_pending, throw};
use jm_builtins::BuiltInClass;
use jm_heap::Heap;
use jm_state::{Halt, StackFrame, State, StepEnd};
use jm_world::{ClassState, Stage};

/// Makes one stage of the initialization whose frame is on top (JVMS 5.5), of any of the program's
/// classes.
#[inline(never)]
pub(crate) fn initialize_top<H: Heap>(
    at: At<'_>,
    state: &mut State<H>,
    class: u32,
    stage: Stage,
) -> Result<StepEnd, Halt>
    requires { (below : List StackFrame) × OnThread H.content at state.old (Initialization class stage ∷ below) None }
    ensures steps { Steps H.content at.entry state.old result state.new }
    ensures nursery { MakesIn H.content H.nursery_of at.entry state.old state.new }
{
    match stage {
        Stage::Begin => begin(at, state, class),
        Stage::Superclass => superclass_first(at, state, class),
        Stage::Initializer => run_initializer(at, state, class),
        Stage::End => {
            finish(at, state, class);
            Ok(StepEnd::Done)
        }
    }
}

/// Marks the class as done, and drops the frame.
pub(crate) fn finish<H: Heap>(at: At<'_>, state: &mut State<H>, class: u32)
    requires { (stage : Stage) × (below : List StackFrame) × OnThread H.content at state.old (Initialization class stage ∷ below) None }
    ensures does { Does H.content at.entry state.old (Ok Done) state.new
        (λ w number t. finish w number t (program_class_name at.entry.linked.now.program class) (drop 1 t.frames)) }
    ensures heap { state.new.heap ≡ state.old.heap }
{
    state.classes.finish(class);
    drop_top(&mut state.threads[at.index]);
}

// Throws NoClassDefFoundError, and drops the frame of a class that failed. The exception is made
// first: where it cannot be, nothing has changed.
fn refuse_class<H: Heap>(at: At<'_>, state: &mut State<H>) -> Result<StepEnd, Halt>
    requires { OnFrames H.content at state.old }
    ensures does { Does H.content at.entry state.old result state.new
        (λ w number t. throw w number (record t { frames = drop 1 t.frames }) (codes "java/lang/NoClassDefFoundError")) }
    ensures nursery { MakesIn H.content H.nursery_of at.entry state.old state.new }
{
    match leave_pending(at, state, BuiltInClass::NoClassDefFoundError.number()) {
        Ok(()) => {
            leave_frame(at, state);
            Ok(StepEnd::Done)
        }
        Err(halt) => Err(halt),
    }
}

// The class is in progress by this thread, and the superclass is next (JVMS 5.5).
fn put_in_progress<H: Heap>(at: At<'_>, state: &mut State<H>, class: u32)
    requires { (below : List StackFrame) × OnThread H.content at state.old (Initialization class Begin ∷ below) None }
    ensures does { Does H.content at.entry state.old (Ok Done) state.new
        (puts_in_progress (program_class_name at.entry.linked.now.program class)) }
    ensures heap { state.new.heap ≡ state.old.heap }
{
    state.classes.begin(class, at.index as u64 + 1);
    go_to_stage(&mut state.threads[at.index], class, Stage::Superclass);
}

// The class is in progress by this thread, and its fields with constants have them (JVMS 5.5). The
// superclass is next. OutOfMemory past the end of numbers, to which no program that fits in memory
// comes; nothing has changed then.
fn begin_anew<H: Heap>(at: At<'_>, state: &mut State<H>, class: u32) -> Result<StepEnd, Halt>
    requires { (below : List StackFrame) × OnThread H.content at state.old (Initialization class Begin ∷ below) None
        × (slice_get state.old.classes class ≡ Some NotBegun) }
    ensures steps { Steps H.content at.entry state.old result state.new }
    ensures heap { state.new.heap ≡ state.old.heap }
{
    let Some(number) = number_among_all(at.linked, class) else {
        return Err(Halt::OutOfMemory);
    };
    if constants_of(at.linked, class).len() > u32::MAX as usize {
        return Err(Halt::OutOfMemory);
    }
    put_in_progress(at, state, class);
    set_constants(at, state, class, number);
    Ok(StepEnd::Done)
}

// Begins it: a class that is done, or in progress by this thread, needs none, another thread's
// progress is waited for, and a class that failed cannot be used.
fn begin<H: Heap>(at: At<'_>, state: &mut State<H>, class: u32) -> Result<StepEnd, Halt>
    requires { (below : List StackFrame) × OnThread H.content at state.old (Initialization class Begin ∷ below) None }
    ensures steps { Steps H.content at.entry state.old result state.new }
    ensures nursery { MakesIn H.content H.nursery_of at.entry state.old state.new }
{
    match state.classes.get(class) {
        ClassState::Done => {
            leave_frame(at, state);
            Ok(StepEnd::Done)
        }
        ClassState::InProgress(owner) => {
            if owner != at.index as u64 + 1 {
                return Ok(StepEnd::Blocked);
            }
            leave_frame(at, state);
            Ok(StepEnd::Done)
        }
        ClassState::NotBegun => begin_anew(at, state, class),
        ClassState::Failed => refuse_class(at, state),
    }
}

// Goes on to the initializer of the class.
fn to_initializer<H: Heap>(at: At<'_>, state: &mut State<H>, class: u32)
    requires { (stage : Stage) × (below : List StackFrame) × OnThread H.content at state.old (Initialization class stage ∷ below) None }
    ensures does { Does H.content at.entry state.old (Ok Done) state.new
        (λ w number t. goes (at_stage w number t (program_class_name at.entry.linked.now.program class) Initializer (drop 1 t.frames))) }
    ensures heap { state.new.heap ≡ state.old.heap }
{
    go_to_stage(&mut state.threads[at.index], class, Stage::Initializer);
}

// Goes on to the initializer of the class, with the initialization of its superclass on top; with
// 512 frames StackOverflowError is thrown instead, and the frame stays. OutOfMemory: the growth was
// refused, and nothing has changed.
fn begin_superclass<H: Heap>(
    at: At<'_>,
    state: &mut State<H>,
    class: u32,
    above: u32,
) -> Result<StepEnd, Halt>
    requires { (stage : Stage) × (below : List StackFrame) × OnThread H.content at state.old (Initialization class stage ∷ below) None
        × (above < length at.linked.now.program) }
    ensures does { Does H.content at.entry state.old result state.new
        (λ w number t. push_frame w number t (initialization_frame (program_class_name at.entry.linked.now.program class) Initializer ∷ drop 1 t.frames)
        (initialization_frame (program_class_name at.entry.linked.now.program above) Begin)) }
    ensures nursery { MakesIn H.content H.nursery_of at.entry state.old state.new }
{
    if state.threads[at.index].frames.len() >= 512 {
        return throw(at, state, BuiltInClass::StackOverflowError.number());
    }
    match begin_above(
        &mut state.threads[at.index],
        class,
        Stage::Initializer,
        StackFrame::Initialization {
            class: above,
            stage: Stage::Begin,
        },
    ) {
        Ok(()) => Ok(StepEnd::Done),
        Err(_) => Err(Halt::OutOfMemory),
    }
}

// The superclass is initialized first, if there is one that is not done: a built-in class always is.
// OutOfMemory also past the end of numbers, to which no program that fits in memory comes.
fn superclass_first<H: Heap>(at: At<'_>, state: &mut State<H>, class: u32) -> Result<StepEnd, Halt>
    requires { (below : List StackFrame) × OnThread H.content at state.old (Initialization class Superclass ∷ below) None }
    ensures steps { Steps H.content at.entry state.old result state.new }
    ensures nursery { MakesIn H.content H.nursery_of at.entry state.old state.new }
{
    let Some(number) = number_among_all(at.linked, class) else {
        return Err(Halt::OutOfMemory);
    };
    let Some(above) = own_superclass(at.linked, number) else {
        to_initializer(at, state, class);
        return Ok(StepEnd::Done);
    };
    match state.classes.get(above) {
        ClassState::Done => {
            to_initializer(at, state, class);
            Ok(StepEnd::Done)
        }
        _ => begin_superclass(at, state, class, above),
    }
}

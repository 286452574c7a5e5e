// The entry of a thread (JVMS 2.5.1).

ghost use Rattle.std.specs.Prelude.{◌≡◌, None, Some, List, [], ◌∷◌, IfOk, slice_get};
ghost use Rattle.jm_state.specs.Arguments.{beginning};
ghost use Rattle.jm_values.specs.declared.value.Value.TheVariants.{Ref};
ghost use Rattle.jm_linked.specs.declared.method.LinkedMethod.{LinkedMethod};
ghost use Rattle.jm_state.specs.declared.thread.StackFrame.{StackFrame as HeldFrame};
ghost use Rattle.jm_state.specs.declared.thread.StackFrame.TheVariants.{Entry, Method};
ghost use Rattle.jm_interp.specs.At.{OnThread, Steps, MakesIn};
ghost use Rattle.jm_interp.specs.Calls.{callee_with};
ghost use Rattle.jm_interp.specs.Entering.{BeginsCode, BeginsWithoutCode, BeginsSelected, HasLocals};
ghost use Rattle.jm_interp.specs.Standing.{Stands, HasTop, Topped};

use crate::at::At;
use crate::class_number::is_numbered;
use crate::declared::{declared_method, member_of};
use crate::ending::end_thread;
use crate::invocation::{monitor_of, parameters_of};
use crate::monitors::enter_if;
use crate::selections::class_of;
use crate::throwing::throw;
use jm_builtins::BuiltInClass;
use jm_frames::Frame;
use jm_heap::Heap;
use jm_linked::{MemberNumber, Selected};
use jm_program::AccessFlags;
use jm_state::{Callee, Ending, Halt, StackFrame, State, StepEnd, Thread, called_frame};
use jm_values::{Place, TagFault, Value};
use jm_world::Stop;
use std::alloc::AllocError;

// The selector of `run()V`, which java/lang/Thread declares.
const RUN: u32 = 14;

// The frame of `run` that begins, by its number among the methods with code, whose one argument is the
// thread's object.
fn run_frame(
    at: At<'_>,
    number: u32,
    object: Place,
    monitor: Option<Place>,
) -> Result<Frame, AllocError>
    requires { HasLocals at.linked.now number 1 }
    ensures { (m : LinkedMethod) → slice_get at.entry.linked.now.methods number ≡ Some m
        → IfOk result (λ frame. frame ≡ beginning (callee_with number m monitor) (Ref object ∷ [])) }
{
    let method = &at.linked.methods()[number as usize];
    let callee = Callee {
        method: number as usize,
        monitor,
        max_stack: method.max_stack,
        max_locals: method.max_locals,
    };
    called_frame(at.alloc, callee, &[Value::Ref(object)])
}

// Puts a method's frame in the place of the top one.
fn replace_frame(thread: &mut Thread, frame: Frame)
    requires { HasTop thread.old }
    ensures { Topped thread.old (λ f below. Stands thread.new (Method frame ∷ below)) }
{
    if let Some(top) = thread.frames.last_mut() {
        *top = StackFrame::Method(frame);
    }
}

// Goes on with `run`, by its number among the methods with code: the monitor of a synchronized one is
// entered, and its frame stands in the place of the entry frame.
fn enter_code<H: Heap>(
    at: At<'_>,
    state: &mut State<H>,
    number: u32,
    object: Place,
) -> Result<StepEnd, Halt>
    requires { BeginsCode H.content at state.old object number }
    ensures steps { Steps H.content at.entry state.old result state.new }
    ensures nursery { MakesIn H.content H.nursery_of at.entry state.old state.new }
{
    // `run` has no parameters
    let Some(_none) = parameters_of(at.linked, number) else {
        return Err(Halt::OutOfMemory);
    };
    let monitor = monitor_of(at.linked, number, object);
    let Ok(frame) = run_frame(at, number, object, monitor) else {
        return Err(Halt::OutOfMemory);
    };
    match enter_if(at, state, frame.monitor()) {
        Ok(StepEnd::Done) => {
            replace_frame(&mut state.threads[at.index], frame);
            Ok(StepEnd::Done)
        }
        Ok(StepEnd::Blocked) => Ok(StepEnd::Blocked),
        Err(halt) => Err(halt),
    }
}

// `run` has no code: an abstract one throws AbstractMethodError, and with the built-in one the thread
// ends.
fn enter_without_code<H: Heap>(
    at: At<'_>,
    state: &mut State<H>,
    method: MemberNumber,
) -> Result<StepEnd, Halt>
    requires { BeginsWithoutCode H.content at state.old method }
    ensures steps { Steps H.content at.entry state.old result state.new }
    ensures nursery { MakesIn H.content H.nursery_of at.entry state.old state.new }
{
    let Some(declared) = declared_method(at.linked, method) else {
        return Err(Halt::OutOfMemory);
    };
    if declared.flags.has(AccessFlags::ABSTRACT) {
        return throw(at, state, BuiltInClass::AbstractMethodError.number());
    }
    end_thread(at, state, Ending::Returned);
    Ok(StepEnd::Done)
}

// Begins with what was selected: nothing throws AbstractMethodError.
fn enter_selected<H: Heap>(
    at: At<'_>,
    state: &mut State<H>,
    selected: Selected,
    object: Place,
) -> Result<StepEnd, Halt>
    requires { BeginsSelected H.content at state.old object selected }
    ensures steps { Steps H.content at.entry state.old result state.new }
    ensures nursery { MakesIn H.content H.nursery_of at.entry state.old state.new }
{
    match selected {
        Selected::Nothing => throw(at, state, BuiltInClass::AbstractMethodError.number()),
        Selected::WithoutCode(number) => match member_of(at.linked, number) {
            Some(method) => enter_without_code(at, state, method),
            None => Err(Halt::OutOfMemory),
        },
        Selected::Coded(number) => enter_code(at, state, number, object),
    }
}

/// Begins a thread, whose entry frame is on top: `run` of its object's class is selected, and its frame
/// stands in the place of the entry frame (JVMS 2.5.1). Blocked: another thread holds the monitor of
/// a synchronized `run`. OutOfMemory: a growth was refused. Nothing has changed then.
#[inline(never)]
pub(crate) fn enter_thread<H: Heap>(at: At<'_>, state: &mut State<H>) -> Result<StepEnd, Halt>
    requires { (below : List HeldFrame) × OnThread H.content at state.old (Entry ∷ below) None }
    ensures steps { Steps H.content at.entry state.old result state.new }
    ensures nursery { MakesIn H.content H.nursery_of at.entry state.old state.new }
{
    let Some(object) = state.threads[at.index].object else {
        return Err(Halt::Stopped(Stop::TagFault(TagFault::WrongKind)));
    };
    let class = class_of(state.heap.class_of(object));
    if !is_numbered(at.linked, class) {
        return Err(Halt::OutOfMemory);
    }
    let selected = at.linked.select(class, RUN);
    enter_selected(at, state, selected, object)
}

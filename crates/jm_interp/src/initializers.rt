// The initializer of a class, `<clinit>` (JVMS 2.9, 5.5).

ghost use Rattle.std.specs.Prelude.{◌≡◌, ◌<◌, [], ◌∷◌, List, IfOk, Some, None, drop, length, slice_get};
ghost use Rattle.jm_program.specs.declared.class.ClassParts.{ClassParts};
ghost use Rattle.jm_program.specs.declared.code.Code.{Code};
ghost use Rattle.jm_world.specs.Classes.{FoundMethod};
ghost use Rattle.jm_world.specs.Initialization.{call_initializer};
ghost use Rattle.jm_world.specs.declared.stage.Stage.{Stage};
ghost use Rattle.jm_world.specs.declared.stage.Stage.TheVariants.{Initializer};
ghost use Rattle.jm_state.specs.Arguments.{beginning};
ghost use Rattle.jm_linked.specs.Links.{IsLinked};
ghost use Rattle.jm_linked.specs.Tables.{IsInitializer};
ghost use Rattle.jm_linked.specs.declared.method.LinkedMethod.{LinkedMethod};
ghost use Rattle.jm_state.specs.Parts.{program_class_name};
ghost use Rattle.jm_state.specs.declared.thread.StackFrame.{StackFrame};
ghost use Rattle.jm_state.specs.declared.thread.StackFrame.TheVariants.{Initialization};
ghost use Rattle.jm_interp.specs.At.{OnThread, Does, Steps, MakesIn};
ghost use Rattle.jm_interp.specs.Calls.{IsCalled, callee_of};

use crate::at::At;
use crate::declared::declared_method;
use crate::frames::begin_above;
use crate::initialization::finish;
use crate::invocation::code_number;
use crate::superclass::number_among_all;
use crate::throwing::throw;
use jm_builtins::BuiltInClass;
use jm_frames::Frame;
use jm_heap::Heap;
use jm_linked::{Linked, MemberNumber};
use jm_state::{Callee, Halt, StackFrame, State, StepEnd, called_frame};
use jm_values::TagFault;
use jm_world::{Stage, Stop};
use std::alloc::{AllocError, Global};

// The number of the initializer of a class among the class's methods, by the class's number among the
// program's; none of a class that has no initializer.
fn initializer_of(linked: &Linked, class: u32) -> Option<u32>
    requires { IsLinked linked.now }
    ensures { (c : ClassParts) → slice_get linked.now.program class ≡ Some c → IsInitializer c result }
{
    match linked.tables().initializers.as_slice().get(class as usize) {
        Some(number) => *number,
        None => None,
    }
}

// The frame of a method without arguments that begins, by its number among those with code.
fn first_frame(alloc: Global, linked: &Linked, number: u32) -> Result<Frame, AllocError>
    requires { number < length linked.now.methods }
    ensures { (m : LinkedMethod) → slice_get linked.now.methods number ≡ Some m → IfOk result (λ frame. frame ≡ beginning (callee_of number m) []) }
{
    let method = &linked.methods()[number as usize];
    let callee = Callee {
        method: number as usize,
        monitor: None,
        max_stack: method.max_stack,
        max_locals: method.max_locals,
    };
    called_frame(alloc, callee, &[])
}

// Calls the initializer, by its number among those with code: its frame is on top of that of the
// class's initialization, which ends after it. With 512 frames StackOverflowError is thrown instead,
// and the frame stays. OutOfMemory: a growth was refused, and nothing has changed.
fn call_initializer<H: Heap>(
    at: At<'_>,
    state: &mut State<H>,
    class: u32,
    number: u32,
) -> Result<StepEnd, Halt>
    requires { (stage : Stage) × (below : List StackFrame) × OnThread H.content at state.old (Initialization class stage ∷ below) None
        × (number < length at.linked.now.methods) }
    ensures does { (found : FoundMethod) (code : Code) → IsCalled at.entry.linked.now number found code
        → Does H.content at.entry state.old result state.new
        (λ w n t. call_initializer w n t (program_class_name at.entry.linked.now.program class) (drop 1 t.frames) found (Some code)) }
    ensures nursery { MakesIn H.content H.nursery_of at.entry state.old state.new }
{
    if state.threads[at.index].frames.len() >= 512 {
        return throw(at, state, BuiltInClass::StackOverflowError.number());
    }
    let Ok(frame) = first_frame(at.alloc, at.linked, number) else {
        return Err(Halt::OutOfMemory);
    };
    let above = StackFrame::Method(frame);
    match begin_above(&mut state.threads[at.index], class, Stage::End, above) {
        Ok(()) => Ok(StepEnd::Done),
        Err(_) => Err(Halt::OutOfMemory),
    }
}

/// Calls the initializer of a class, by its number among the program's; without one the class is done
/// (JVMS 5.5). WrongKind: it has no code. OutOfMemory: a growth was refused; also past the end of
/// numbers, to which no program that fits in memory comes. Nothing has changed then.
pub(crate) fn run_initializer<H: Heap>(
    at: At<'_>,
    state: &mut State<H>,
    class: u32,
) -> Result<StepEnd, Halt>
    requires { (below : List StackFrame) × OnThread H.content at state.old (Initialization class Initializer ∷ below) None }
    ensures steps { Steps H.content at.entry state.old result state.new }
    ensures nursery { MakesIn H.content H.nursery_of at.entry state.old state.new }
{
    let Some(member) = initializer_of(at.linked, class) else {
        finish(at, state, class);
        return Ok(StepEnd::Done);
    };
    let Some(among_all) = number_among_all(at.linked, class) else {
        return Err(Halt::OutOfMemory);
    };
    let method = MemberNumber {
        class: among_all,
        member,
    };
    let Some(declared) = declared_method(at.linked, method) else {
        return Err(Halt::OutOfMemory);
    };
    if declared.code.is_none() {
        return Err(Halt::Stopped(Stop::TagFault(TagFault::WrongKind)));
    }
    match code_number(at.linked, method) {
        Some(number) => call_initializer(at, state, class, number),
        None => Err(Halt::OutOfMemory),
    }
}

// Frames as readers tell them.

ghost use Rattle.std.specs.Prelude.{◌≡◌, ◌<◌, length, option_map, slice_get, Some};
ghost use Rattle.jm_values.specs.Content.{AllResident, name_of};
ghost use Rattle.jm_world.specs.Classes.{method_named};
ghost use Rattle.jm_values.specs.Rename.{activation_shape};
ghost use Rattle.jm_world.specs.Frames.{rename_frame, optional_number_shape};
ghost use Rattle.jm_state.specs.Parts.{frame_part};
ghost use Rattle.jm_state.specs.Places.{stack_frame_shape, method_shape};
ghost use Rattle.jm_state.specs.Runnable.{FrameRuns};
ghost use Rattle.jm_linked.specs.Links.{name_of_number};
ghost use Rattle.jm_machine.specs.Readers.{model_value, model_frame, name_of_frame, IsOfProgram};

use crate::code_method::{CodeMethod, code_method};
use crate::value::{WorldValue, world_local, world_value};
use jm_frames::Frame;
use jm_heap::Heap;
use jm_linked::Linked;
use jm_program::{Class, Method};
use jm_state::StackFrame;
use jm_world::Stage;
use std::marker::Model;

/// The frame of a method that runs, as the world has it (JVMS 2.6): references are numbers of
/// objects. It borrows from the machine and copies nothing.
#[derive(Drop)]
pub struct MethodFrame<'a, H: Heap> {
    heap: &'a H,
    class: &'a Class,
    method: &'a Method,
    frame: &'a Frame,
}

impl<'a, H: Heap> Model for MethodFrame<'a, H> {
    ghost use Rattle.jm_values.specs.Rename.{activation_shape};
    ghost use Rattle.jm_values.specs.Content.{AllResident, name_of};
    ghost use Rattle.jm_world.specs.Frames.{optional_number_shape};
    ghost use Rattle.jm_state.specs.Places.{method_shape};
    ghost use Rattle.jm_machine.specs.MethodFrames.{MethodFrameView};

    ghost Value = { MethodFrameView };

    ghost view = { λ f. record { class = f.class.now; method = f.method.now; activation = activation_shape.rename (name_of (H.content f.heap.now)) f.frame.now.activation; monitor = optional_number_shape.rename (name_of (H.content f.heap.now)) f.frame.now.monitor } };

    ghost invariant = { λ f. AllResident (H.content f.heap.now) (method_shape.refs f.frame.now) };
}

impl<'a, H: Heap> MethodFrame<'a, H> {
    /// The class that declares the method.
    pub fn class(&self) -> &'a Class
        ensures { result.now ≡ self.now.class }
    {
        self.class
    }

    /// The method, with its code.
    pub fn method(&self) -> &'a Method
        ensures { result.now ≡ self.now.method }
    {
        self.method
    }

    /// The number of the instruction, counted from the first one of the method, which is 0.
    pub fn at(&self) -> usize
        ensures { result ≡ self.now.activation.at }
    {
        self.frame.at()
    }

    /// How many local variables there are, set or not (JVMS 2.6.1).
    pub fn max_locals(&self) -> usize
        ensures { result ≡ length self.now.activation.locals }
    {
        self.frame.max_locals()
    }

    /// The value of a local variable: the outer `None` is that there is none of that number, the
    /// inner one that it is not set (JVMS 2.6.1).
    pub fn local(&self, number: usize) -> Option<Option<WorldValue>>
        ensures { option_map (option_map model_value) result ≡ slice_get self.now.activation.locals number }
    {
        let local = self.frame.local(number)?;
        Some(world_local(self.heap, local))
    }

    /// How many operands there are; a long is one (JVMS 2.6.2).
    pub fn operands(&self) -> usize
        ensures { result ≡ length self.now.activation.stack }
    {
        self.frame.operands().len()
    }

    /// The operand that is so many below the top, if there is one.
    pub fn operand(&self, depth: usize) -> Option<WorldValue>
        ensures { option_map model_value result ≡ slice_get self.now.activation.stack depth }
    {
        let value = self.frame.operand(depth)?;
        Some(world_value(self.heap, value))
    }

    /// The number of the object whose monitor a synchronized method entered (JVMS 2.11.10).
    pub fn monitor(&self) -> Option<u64>
        ensures { result ≡ self.now.monitor }
    {
        let place = self.frame.monitor()?;
        Some(self.heap.serial(place))
    }
}

/// A frame of a thread (JVMS 2.6).
#[derive(Drop)]
pub enum WorldFrame<'a, H: Heap> {
    /// Of a method that runs.
    Method(MethodFrame<'a, H>),
    /// Of the initialization of a class, with what is next in it (JVMS 5.5).
    Initialization { class: &'a Class, stage: Stage },
    /// Of a thread that has not begun.
    Entry,
}

// The frame of a method, whose references are places in the heap.
fn method_frame<'a, H: Heap>(
    heap: &'a H,
    linked: &'a Linked,
    frame: &'a Frame,
) -> MethodFrame<'a, H>
    requires runs { frame.now.method < length linked.now.methods }
    requires resident { AllResident (H.content heap.now) (method_shape.refs frame.now) }
    ensures activation { result.activation ≡ activation_shape.rename (name_of (H.content heap.now)) frame.now.activation }
    ensures monitor { result.monitor ≡ optional_number_shape.rename (name_of (H.content heap.now)) frame.now.monitor }
    ensures named { name_of_number linked.now frame.now.method ≡ name_of_frame result }
    ensures found { method_named linked.now.program (name_of_frame result) ≡ Some result.method }
{
    let CodeMethod { class, method } = code_method(linked, frame.method());
    MethodFrame {
        heap,
        class,
        method,
        frame,
    }
}

// A frame of a thread, whose references are places in the heap.
pub(crate) fn world_frame<'a, H: Heap>(
    heap: &'a H,
    linked: &'a Linked,
    frame: &'a StackFrame,
) -> WorldFrame<'a, H>
    requires runs { FrameRuns linked.now frame.now }
    requires resident { AllResident (H.content heap.now) (stack_frame_shape.refs frame.now) }
    ensures frame { model_frame result ≡ rename_frame (name_of (H.content heap.now)) (frame_part linked.now frame.now) }
    ensures method { IsOfProgram linked.now.program result }
{
    match frame {
        StackFrame::Method(frame) => WorldFrame::Method(method_frame(heap, linked, frame)),
        StackFrame::Initialization { class, stage } => WorldFrame::Initialization {
            class: &linked.classes()[*class as usize],
            stage: *stage,
        },
        StackFrame::Entry => WorldFrame::Entry,
    }
}

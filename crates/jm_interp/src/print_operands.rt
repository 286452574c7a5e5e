// The operands of a method of a print stream.

ghost use Rattle.std.specs.Prelude.{◌≡◌, ◌+◌, ◌∷◌};
ghost use Rattle.jm_frames.specs.FrameView.{with_stack, gone_to};
ghost use Rattle.jm_state.specs.declared.thread.StackFrame.TheVariants.{Method};
ghost use Rattle.jm_interp.specs.Printing.{text_of, receiver_of, with_text, printing_of, left_by};
ghost use Rattle.jm_interp.specs.Standing.{Stands, RunsMethod, MayGoOn, InAnyMethod};

use crate::top_frame::top_method;
use jm_linked::{PrintMethod, Printed};
use jm_state::{StackFrame, Thread};
use jm_values::{Place, TagFault, Value};

/// The argument of a method of a print stream.
#[derive(Clone, Copy, Drop)]
pub(crate) enum Text {
    Int(i32),
    Long(i64),
    Char(i32),
    /// None for null.
    String(Option<Place>),
    Nothing,
}

/// What a method of a print stream takes of the operands.
#[derive(Clone, Copy, Drop)]
pub(crate) struct Printing {
    /// None for null.
    pub receiver: Option<Place>,
    pub text: Text,
}

// The argument, of its type.
fn text_of(printed: Printed, operand: Option<Value>) -> Result<Text, TagFault>
    ensures { result ≡ text_of printed operand }
{
    match operand {
        None => Err(TagFault::Underflow),
        Some(value) => match printed {
            Printed::Int => match value {
                Value::Int(n) => Ok(Text::Int(n)),
                _ => Err(TagFault::WrongTag),
            },
            Printed::Char => match value {
                Value::Int(n) => Ok(Text::Char(n)),
                _ => Err(TagFault::WrongTag),
            },
            Printed::Long => match value {
                Value::Long(n) => Ok(Text::Long(n)),
                _ => Err(TagFault::WrongTag),
            },
            Printed::String => match value {
                Value::Ref(place) => Ok(Text::String(Some(place))),
                Value::Null => Ok(Text::String(None)),
                _ => Err(TagFault::WrongTag),
            },
        },
    }
}

// The receiver, none for null.
fn receiver_of(operand: Option<Value>) -> Result<Option<Place>, TagFault>
    ensures { result ≡ receiver_of operand }
{
    match operand {
        None => Err(TagFault::Underflow),
        Some(value) => match value {
            Value::Ref(place) => Ok(Some(place)),
            Value::Null => Ok(None),
            _ => Err(TagFault::WrongTag),
        },
    }
}

// The argument and the receiver below it.
fn with_text(
    printed: Printed,
    argument: Option<Value>,
    below: Option<Value>,
) -> Result<Printing, TagFault>
    ensures { result ≡ with_text (text_of printed argument) below }
{
    match text_of(printed, argument) {
        Ok(text) => match receiver_of(below) {
            Ok(receiver) => Ok(Printing { receiver, text }),
            Err(fault) => Err(fault),
        },
        Err(fault) => Err(fault),
    }
}

/// What a method takes of the operands of the top frame, which stay. `Underflow`: there are fewer
/// operands than it takes; `WrongTag`: one is of another type.
pub(crate) fn operands_of(thread: &Thread, method: PrintMethod) -> Result<Printing, TagFault>
    requires { RunsMethod thread.now }
    ensures { InAnyMethod thread.now (λ f below r. result ≡ printing_of method f.activation.stack) }
{
    let frame = top_method(thread);
    match method {
        PrintMethod::Print(printed) => with_text(printed, frame.operand(0), frame.operand(1)),
        PrintMethod::Println(printed) => with_text(printed, frame.operand(0), frame.operand(1)),
        PrintMethod::EndLine => match receiver_of(frame.operand(0)) {
            Ok(receiver) => Ok(Printing {
                receiver,
                text: Text::Nothing,
            }),
            Err(fault) => Err(fault),
        },
    }
}

/// Pops the operands of a method in the top frame, and goes on.
pub(crate) fn pop_operands(thread: &mut Thread, method: PrintMethod)
    requires { MayGoOn thread.old }
    ensures { InAnyMethod thread.old (λ f below.
        Stands thread.new (Method (gone_to (with_stack f (left_by method f.activation.stack)) (f.activation.at + 1)) ∷ below)) }
{
    if let Some(top) = thread.frames.last_mut() {
        match top {
            StackFrame::Method(frame) => match method {
                PrintMethod::EndLine => {
                    let _receiver = frame.pop();
                    frame.go_on();
                }
                _ => {
                    let _argument = frame.pop();
                    let _receiver = frame.pop();
                    frame.go_on();
                }
            },
            StackFrame::Initialization { class: _, stage: _ } => {}
            StackFrame::Entry => {}
        }
    }
}

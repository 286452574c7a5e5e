// Calls of instance methods that have no code: abstract ones, and those of built-in classes.

ghost use Rattle.std.specs.Prelude.{◌≡◌, ◌&&◌, ◌||◌, List, ℕ, length, nat_eq, nat_lt, not};
ghost use Rattle.jm_program.specs.Names.{same_text};
ghost use Rattle.jm_builtins.specs.List.{the_builtins};
ghost use Rattle.jm_builtins.specs.Numbers.{number_of};
ghost use Rattle.jm_builtins.specs.declared.built_in_class.BuiltInClass.TheVariants.{PrintStream, String, Thread};
ghost use Rattle.jm_world.specs.Classes.{print_stream_class, string_class, thread_class};
ghost use Rattle.jm_linked.specs.Links.{NamesClass};
ghost use Rattle.jm_interp.specs.At.{Steps, MakesIn};
ghost use Rattle.jm_interp.specs.Invoking.{CallsWithoutCode, IsCharAt};
ghost use Rattle.jm_interp.specs.TopObject.{ComesTo};

use crate::at::At;
use crate::class_number::PRINT_STREAM;
use crate::declared::declared_method;
use crate::string_methods::{CHAR_AT, LENGTH, char_at, length_of};
use crate::strings::STRING;
use crate::thread_starts::start_thread;
use crate::top_object::{Refusal, drop_and_go_on, int_at, object_at, refuse, replace};
use jm_builtins::BuiltInClass;
use jm_heap::Heap;
use jm_linked::{Linked, MemberNumber};
use jm_program::AccessFlags;
use jm_state::{Halt, State, StepEnd};
use jm_values::{Place, Value};

const THREAD: u32 = BuiltInClass::Thread as u32;

// `start` of java/lang/Thread, by its number among the methods of the class.
const START: u32 = 1;

// Whether a class is one of the three built-in ones with other methods than a constructor, by its number.
fn has_other_methods(class: u32) -> bool
    ensures { result ≡ (nat_eq class (number_of String) || nat_eq class (number_of PrintStream) || nat_eq class (number_of Thread)) }
{
    class == STRING || class == PRINT_STREAM || class == THREAD
}

// Whether the one method of a built-in class, if it has one, is a constructor, which changes nothing.
fn has_constructor_alone(linked: &Linked, class: u32) -> bool
    ensures { (name : List ℕ) → NamesClass linked.now.program class name → result ≡ (nat_lt class (length the_builtins)
        && not (same_text name string_class || same_text name print_stream_class || same_text name thread_class)) }
{
    // the program is linked
    let _methods = linked.methods();
    if class as usize >= linked.built_ins().len() {
        return false;
    }
    !has_other_methods(class)
}

// What charAt comes to for the index on top, of the String below it.
fn char_on_top<H: Heap>(at: At<'_>, state: &State<H>, string: Place) -> Result<Value, Refusal>
    requires { IsCharAt H.content at state.now string }
    ensures { ComesTo H.content at.entry state.now 2 result }
{
    let index = int_at(&state.threads[at.index], 0)?;
    char_at(at, state, string, index)
}

// Calls a method of java/lang/String, by its number in the class.
fn call_of_string<H: Heap>(
    at: At<'_>,
    state: &mut State<H>,
    member: u32,
    string: Place,
) -> Result<StepEnd, Halt>
    requires { CallsWithoutCode H.content at state.old (record { class = number_of String; member = member }) string }
    ensures steps { Steps H.content at.entry state.old result state.new }
    ensures nursery { MakesIn H.content H.nursery_of at.entry state.old state.new }
{
    match member {
        LENGTH => {
            // the operands are within max_stack
            let _receiver = object_at(&state.threads[at.index], 0);
            let length = length_of(at, state, string);
            replace(at, state, 1, length)
        }
        CHAR_AT => {
            let char = char_on_top(at, state, string);
            replace(at, state, 2, char)
        }
        _ => unreachable!(),
    }
}

// Calls a method of java/lang/Thread, by its number in the class: the constructor and `run` change
// nothing.
fn call_of_thread<H: Heap>(
    at: At<'_>,
    state: &mut State<H>,
    member: u32,
    thread: Place,
) -> Result<StepEnd, Halt>
    requires { CallsWithoutCode H.content at state.old (record { class = number_of Thread; member = member }) thread }
    ensures steps { Steps H.content at.entry state.old result state.new }
    ensures nursery { MakesIn H.content H.nursery_of at.entry state.old state.new }
{
    if member == START {
        return start_thread(at, state, thread);
    }
    drop_and_go_on(at, state, 1)
}

/// Calls an instance method that has no code, by the number with which its class declares it: an
/// abstract one throws AbstractMethodError (JVMS 6.5 invokevirtual), and one of a built-in class is one
/// event. OutOfMemory: the class declares no method of that number, as it does, or it is one of
/// java/io/PrintStream's, which are called by an instruction of their own.
pub(crate) fn call_without_code<H: Heap>(
    at: At<'_>,
    state: &mut State<H>,
    method: MemberNumber,
    receiver: Place,
) -> Result<StepEnd, Halt>
    requires { CallsWithoutCode H.content at state.old method receiver }
    ensures steps { Steps H.content at.entry state.old result state.new }
    ensures nursery { MakesIn H.content H.nursery_of at.entry state.old state.new }
{
    let Some(declared) = declared_method(at.linked, method) else {
        return Err(Halt::OutOfMemory);
    };
    if declared.flags.has(AccessFlags::ABSTRACT) {
        return refuse(
            at,
            state,
            Refusal::Throws(BuiltInClass::AbstractMethodError),
        );
    }
    if method.class == STRING {
        return call_of_string(at, state, method.member, receiver);
    }
    if method.class == THREAD {
        return call_of_thread(at, state, method.member, receiver);
    }
    if !has_constructor_alone(at.linked, method.class) {
        return Err(Halt::OutOfMemory);
    }
    let count = declared.descriptor.parameters.as_slice().len() + 1;
    drop_and_go_on(at, state, count)
}

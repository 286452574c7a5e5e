// Arrays of arrays that are made at once (JVMS 6.5 multianewarray).

ghost use Rattle.std.specs.Prelude.{◌≡◌, ◌<◌, ◌≤◌, [], Ok, Some, IfErr, IfOk, OnOk, slice_get};
ghost use Rattle.jm_program.specs.declared.instruction.operation.TypeOp.TheVariants as type_op;
ghost use Rattle.jm_values.specs.Activation.{units};
ghost use Rattle.jm_world.specs.Types.{type_of_ref};
ghost use Rattle.jm_linked.specs.Links.{Links};
ghost use Rattle.jm_linked.specs.declared.instruction.LinkedInstr.TheVariants as linked_instr;
ghost use Rattle.jm_interp.specs.ArrayRows.{length_in};
ghost use Rattle.jm_interp.specs.ArraysOfArrays.{CountsForAll, IsLengthPushed, IsPushed, NegativeOrNoMemory, RefusedAs, counts_of, lengths_in};
ghost use Rattle.jm_interp.specs.At.{StandsOn, Steps, MakesIn};
ghost use Rattle.jm_interp.specs.Standing.{InAnyMethod, RunsMethod};
ghost use Rattle.jm_interp.specs.TopObject.{IsRefused, int_of};

use crate::arrays::{component_of_type, length_in};
use crate::at::At;
use crate::top_frame::top_method;
use crate::top_object::{Refusal, int_in, make_all_on_top, refuse};
use jm_builtins::BuiltInClass;
use jm_frames::Frame;
use jm_heap::Heap;
use jm_linked::LinkedType;
use jm_state::{Halt, State, StepEnd, Thread};
use std::alloc::Global;

// Puts the int that is so many operands below the top of a frame at the end of a list.
fn push_int(frame: &Frame, depth: usize, ints: &mut Vec<i32>) -> Result<(), Refusal>
    ensures ok { OnOk result (IsPushed ints.old.items ints.new.items (int_of (slice_get frame.now.activation.stack depth))) }
    ensures room { units frame.now.activation.stack ≤ frame.now.activation.max_stack }
    ensures err { IfErr result (λ why. RefusedAs (int_of (slice_get frame.now.activation.stack depth)) why) }
{
    match int_in(frame, depth) {
        Ok(int) => match ints.push(int) {
            Ok(()) => Ok(()),
            Err(_) => Err(Refusal::OutOfMemory),
        },
        Err(refusal) => Err(refusal),
    }
}

// So many ints on top of a frame, the lowest of them first; they stay. `Underflow`: there are fewer
// operands; `WrongTag`: one is of another type. The first from the top decides.
fn counts_in(alloc: Global, frame: &Frame, dimensions: u8) -> Result<Vec<i32>, Refusal>
    ensures ok { IfOk result (λ counts. counts_of dimensions [] frame.now.activation.stack ≡ Ok counts.items) }
    ensures room { OnOk result (0 < dimensions → units frame.now.activation.stack ≤ frame.now.activation.max_stack) }
    ensures err { IfErr result (λ why. RefusedAs (counts_of dimensions [] frame.now.activation.stack) why) }
{
    let mut counts = Vec::new(alloc);
    for depth in 0..dimensions {
        push_int(frame, depth as usize, &mut counts)?;
    }
    counts.reverse();
    Ok(counts)
}

// The same of the top frame.
fn counts_at(alloc: Global, thread: &Thread, dimensions: u8) -> Result<Vec<i32>, Refusal>
    requires { RunsMethod thread.now }
    ensures ok { InAnyMethod thread.now (λ f below r. IfOk result (λ counts. counts_of dimensions [] f.activation.stack ≡ Ok counts.items)) }
    ensures room { InAnyMethod thread.now (λ f below r. OnOk result (0 < dimensions → units f.activation.stack ≤ f.activation.max_stack)) }
    ensures err { InAnyMethod thread.now (λ f below r. IfErr result (λ why. RefusedAs (counts_of dimensions [] f.activation.stack) why)) }
{
    counts_in(alloc, top_method(thread), dimensions)
}

// Puts a length that is not negative at the end of a list.
fn push_length(count: i32, lengths: &mut Vec<u32>) -> Result<(), Refusal>
    ensures ok { OnOk result (IsLengthPushed lengths.old.items lengths.new.items (length_in count)) }
    ensures err { IfErr result (λ why. NegativeOrNoMemory (length_in count) why) }
{
    match length_in(count) {
        Some(length) => match lengths.push(length) {
            Ok(()) => Ok(()),
            Err(_) => Err(Refusal::OutOfMemory),
        },
        None => Err(Refusal::Throws(BuiltInClass::NegativeArraySizeException)),
    }
}

// The lengths of arrays by their counts. A negative one throws NegativeArraySizeException.
fn lengths_of(alloc: Global, counts: &[i32]) -> Result<Vec<u32>, Refusal>
    ensures ok { IfOk result (λ lengths. lengths_in counts.now ≡ Some lengths.items) }
    ensures err { IfErr result (λ why. NegativeOrNoMemory (lengths_in counts.now) why) }
{
    let mut lengths = Vec::new(alloc);
    for count in counts {
        push_length(*count, &mut lengths)?;
    }
    Ok(lengths)
}

// The lengths of arrays by the counts on top, so many.
fn lengths_on_top<H: Heap>(
    at: At<'_>,
    state: &State<H>,
    array: LinkedType,
    dimensions: u8,
) -> Result<Vec<u32>, Refusal>
    requires { StandsOn H.content at state.now (Links at.linked.now (linked_instr.Type (type_op.NewArrays dimensions) array)) }
    ensures ok { (h : StandsOn H.content at.entry state.now (Links at.entry.linked.now (linked_instr.Type (type_op.NewArrays dimensions) array)))
        → IfOk result (λ lengths. CountsForAll H.content at.entry state.now (type_of_ref h.is.0) dimensions lengths.items) }
    ensures err { IfErr result (λ why. IsRefused H.content at.entry state.now why) }
{
    match counts_at(at.alloc, &state.threads[at.index], dimensions) {
        Ok(counts) => lengths_of(at.alloc, counts.as_slice()),
        Err(refusal) => Err(refusal),
    }
}

/// Makes `multianewarray` (JVMS 6.5): an array of a type with the arrays below it, in so many
/// dimensions. A negative count throws NegativeArraySizeException, whatever the others are. The counts
/// stay on the operands until all arrays are made; the machine stops where they cannot be made, and
/// none is.
#[inline(never)]
pub(crate) fn new_arrays<H: Heap>(
    at: At<'_>,
    state: &mut State<H>,
    array: LinkedType,
    dimensions: u8,
) -> Result<StepEnd, Halt>
    requires { StandsOn H.content at state.old (Links at.linked.now (linked_instr.Type (type_op.NewArrays dimensions) array)) }
    ensures steps { Steps H.content at.entry state.old result state.new }
    ensures nursery { MakesIn H.content H.nursery_of at.entry state.old state.new }
{
    match lengths_on_top(at, state, array, dimensions) {
        Ok(lengths) => {
            let component = component_of_type(array).below();
            make_all_on_top(
                at,
                state,
                dimensions as usize,
                component,
                lengths.as_slice(),
            )
        }
        Err(refusal) => refuse(at, state, refusal),
    }
}

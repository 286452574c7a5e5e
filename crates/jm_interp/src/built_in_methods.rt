// The methods of a print stream.

ghost use Rattle.std.specs.Prelude.{◌≡◌};
ghost use Rattle.jm_linked.specs.Links.{Links};
ghost use Rattle.jm_linked.specs.declared.instruction.LinkedInstr.TheVariants as linked_instr;
ghost use Rattle.jm_interp.specs.At.{StandsOn, Steps, MakesIn};
ghost use Rattle.jm_interp.specs.Printing.{is_print_stream};

use crate::at::At;
use crate::class_number::{PRINT_STREAM, null_pointer_exception};
use crate::print_operands::{operands_of, pop_operands};
use crate::text::print_text;
use crate::throwing::throws;
use jm_heap::{ClassId, Heap};
use jm_linked::PrintMethod;
use jm_state::{Halt, State, StepEnd};
use jm_values::TagFault;
use jm_world::Stop;

// Whether an object is a print stream.
fn is_print_stream(id: ClassId) -> bool
    ensures { result ≡ is_print_stream id }
{
    match id {
        ClassId::Instance(class) => class == PRINT_STREAM,
        ClassId::Array(_) => false,
    }
}

/// Makes invokevirtual or invokespecial of a method of a print stream: it writes at the end of the output,
/// which is as it was where a growth is refused. Null throws NullPointerException.
#[inline(never)]
pub(crate) fn print<H: Heap>(
    at: At<'_>,
    state: &mut State<H>,
    method: PrintMethod,
) -> Result<StepEnd, Halt>
    requires { StandsOn H.content at state.old (Links at.linked.now (linked_instr.Print method)) }
    ensures steps { Steps H.content at.entry state.old result state.new }
    ensures nursery { MakesIn H.content H.nursery_of at.entry state.old state.new }
{
    let printing = match operands_of(&state.threads[at.index], method) {
        Ok(printing) => printing,
        Err(fault) => return Err(Halt::Stopped(Stop::TagFault(fault))),
    };
    let Some(receiver) = printing.receiver else {
        return throws(at, state, null_pointer_exception(at.linked));
    };
    if !is_print_stream(state.heap.class_of(receiver)) {
        return Err(Halt::Stopped(Stop::TagFault(TagFault::WrongKind)));
    }
    match print_text(&mut state.output, &state.heap, printing.text, method) {
        Ok(()) => {
            pop_operands(&mut state.threads[at.index], method);
            Ok(StepEnd::Done)
        }
        Err(halt) => Err(halt),
    }
}

// Arguments among operands, by the types of a method's parameters.

ghost use Rattle.std.specs.Prelude.{◌≡◌, ◌≤◌, [], Ok, Err, MatchResult, drop, length, map, reverse};
ghost use Rattle.jm_world.specs.Types.{operand_of, element_operand};
ghost use Rattle.jm_state.specs.Arguments.{on_top, popped};

use crate::arguments::is_of;
use jm_frames::Frame;
use jm_program::{BaseType, ElementType, FieldType, OperandType};
use jm_values::TagFault;

// The operands that hold values of a type that is no array (JVMS 2.11.1).
fn element_operand(element: &ElementType) -> OperandType
    ensures { result ≡ element_operand element.now }
{
    match element {
        ElementType::Base(BaseType::Long) => OperandType::Long,
        ElementType::Base(_) => OperandType::Int,
        ElementType::Class(_) => OperandType::Reference,
    }
}

// The operands that hold values of a type.
fn operand_of(parameter: &FieldType) -> OperandType
    ensures { result ≡ operand_of parameter.now }
{
    if parameter.dimensions > 0 {
        return OperandType::Reference;
    }
    element_operand(&parameter.element)
}

/// That the operands on top are of the types of a method's parameters, the last one nearest the top;
/// the operands stay. `Underflow`: there are fewer; `WrongTag`: one is of another type. The one
/// nearest the top is told of (JVMS 6.5 invokevirtual).
pub fn test_parameters(frame: &Frame, parameters: &[FieldType]) -> Result<(), TagFault>
    ensures { MatchResult result
        (λ done. (length parameters.now ≤ length frame.now.activation.stack)
        × (popped (map operand_of (reverse parameters.now)) [] frame.now.activation.stack
        ≡ Ok (on_top (length parameters.now) frame.now.activation.stack, drop (length parameters.now) frame.now.activation.stack)))
        (λ fault. popped (map operand_of (reverse parameters.now)) [] frame.now.activation.stack ≡ Err fault) }
{
    let count = parameters.len();
    for depth in 0..count {
        let Some(operand) = frame.operand(depth) else {
            return Err(TagFault::Underflow);
        };
        if !is_of(operand_of(&parameters[count - 1 - depth]), operand) {
            return Err(TagFault::WrongTag);
        }
    }
    Ok(())
}

// What variables keep of values: an int is narrowed (JVMS 6.5 bastore, castore, sastore, ireturn).

ghost use Rattle.std.specs.Prelude.{◌≡◌};
ghost use Rattle.jm_program.specs.declared.descriptor.ElementType.TheVariants as element_type;
ghost use Rattle.jm_world.specs.Types.{narrow, narrow_int, operand_of as operand_of_type};
ghost use Rattle.jm_interp.specs.Narrowing.{operand_of, base_of, kept};

use jm_frames::numbers::{to_byte, to_char, to_short};
use jm_linked::ValueKind;
use jm_program::{BaseType, ElementType, FieldType, OperandType};
use jm_values::Value;

/// What a variable of a primitive type keeps of an int.
#[inline(always)]
pub(crate) fn narrow_int(base: BaseType, number: i32) -> i32
    ensures { result ≡ narrow_int (element_type.Base base) number }
{
    match base {
        BaseType::Byte => to_byte(number),
        BaseType::Char => to_char(number),
        BaseType::Short => to_short(number),
        BaseType::Boolean => (number.cast_unsigned() % 2).cast_signed(),
        BaseType::Int | BaseType::Long | BaseType::Float | BaseType::Double => number,
    }
}

/// The operands that values of a kind are (JVMS 2.11.1).
#[inline]
pub(crate) fn operand_of(kind: ValueKind) -> OperandType
    ensures { result ≡ operand_of kind }
{
    match kind {
        ValueKind::Boolean | ValueKind::Byte | ValueKind::Char => OperandType::Int,
        ValueKind::Short | ValueKind::Int => OperandType::Int,
        ValueKind::Long => OperandType::Long,
        ValueKind::Reference => OperandType::Reference,
    }
}

// The primitive type as which an int is narrowed.
#[inline(always)]
fn base_of(kind: ValueKind) -> BaseType
    ensures { result ≡ base_of kind }
{
    match kind {
        ValueKind::Boolean => BaseType::Boolean,
        ValueKind::Byte => BaseType::Byte,
        ValueKind::Char => BaseType::Char,
        ValueKind::Short => BaseType::Short,
        ValueKind::Int | ValueKind::Long | ValueKind::Reference => BaseType::Int,
    }
}

/// What a variable of a kind keeps of a value.
#[inline(always)]
pub(crate) fn keep(kind: ValueKind, value: Value) -> Value
    ensures { result ≡ kept kind value }
{
    match value {
        Value::Int(number) => Value::Int(narrow_int(base_of(kind), number)),
        _ => value,
    }
}

/// The operands that hold values of a type (JVMS 2.11.1).
pub(crate) fn operand_of_type(field_type: &FieldType) -> OperandType
    ensures { result ≡ operand_of_type field_type.now }
{
    if field_type.dimensions > 0 {
        return OperandType::Reference;
    }
    match &field_type.element {
        ElementType::Base(BaseType::Long) => OperandType::Long,
        ElementType::Base(_) => OperandType::Int,
        ElementType::Class(_) => OperandType::Reference,
    }
}

/// What a field of a type keeps of a value (JVMS 6.5 putfield, putstatic).
pub(crate) fn narrow(field_type: &FieldType, value: Value) -> Value
    ensures { result ≡ narrow field_type.now value }
{
    match (&field_type.element, value) {
        (ElementType::Base(base), Value::Int(number)) => Value::Int(narrow_int(*base, number)),
        _ => value,
    }
}

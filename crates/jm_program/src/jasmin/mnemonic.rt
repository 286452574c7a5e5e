// The mnemonics of the instructions, by families.

ghost use Rattle.std.specs.Prelude.{◌≡◌, Some};
ghost use Rattle.jm_program.specs.Mnemonics.{operand_letter, integral_letter, index_digit, small_int_digit, small_long_digit, stack_mnemonic, arithmetic_name, shift_name, bitwise_name, conversion_mnemonic, comparison_name, equality_name, null_mnemonic, branch_mnemonic, array_letter, primitive_name, array_line, return_mnemonic, monitor_mnemonic, field_mnemonic, invoke_mnemonic, type_mnemonic};

use crate::instruction::{
    Arithmetic, ArrayKind, ArrayOp, Bitwise, Branch, Comparison, Conversion, Equality, FieldOp,
    Integral, InvokeOp, MonitorOp, OperandType, PrimitiveType, ReturnOp, Shift, ShortIndex,
    SmallInt, SmallLong, StackOp, TypeOp,
};
use std::fmt;
use std::fmt::Display;

/// The letter i, l or a.
#[tactic(auto, unfolding(crate::specs::Mnemonics::operand_letter))]
impl Display for OperandType {
    ghost output = { λ op. Some (operand_letter op) };

    fn fmt<W: fmt::Write>(&self, f: &mut fmt::Formatter<W>) -> fmt::Result {
        f.write_str(match self {
            OperandType::Int => "i",
            OperandType::Long => "l",
            OperandType::Reference => "a",
        })
    }
}

/// The letter i or l.
#[tactic(auto, unfolding(crate::specs::Mnemonics::integral_letter))]
impl Display for Integral {
    ghost output = { λ op. Some (integral_letter op) };

    fn fmt<W: fmt::Write>(&self, f: &mut fmt::Formatter<W>) -> fmt::Result {
        f.write_str(match self {
            Integral::Int => "i",
            Integral::Long => "l",
        })
    }
}

/// The digit of a short form.
#[tactic(auto, unfolding(crate::specs::Mnemonics::index_digit))]
impl Display for ShortIndex {
    ghost output = { λ op. Some (index_digit op) };

    fn fmt<W: fmt::Write>(&self, f: &mut fmt::Formatter<W>) -> fmt::Result {
        f.write_str(match self {
            ShortIndex::Zero => "0",
            ShortIndex::One => "1",
            ShortIndex::Two => "2",
            ShortIndex::Three => "3",
        })
    }
}

/// The end of `iconst_m1` to `iconst_5`.
#[tactic(auto, unfolding(crate::specs::Mnemonics::small_int_digit))]
impl Display for SmallInt {
    ghost output = { λ op. Some (small_int_digit op) };

    fn fmt<W: fmt::Write>(&self, f: &mut fmt::Formatter<W>) -> fmt::Result {
        f.write_str(match self {
            SmallInt::MinusOne => "m1",
            SmallInt::Zero => "0",
            SmallInt::One => "1",
            SmallInt::Two => "2",
            SmallInt::Three => "3",
            SmallInt::Four => "4",
            SmallInt::Five => "5",
        })
    }
}

/// The digit of `lconst_0` and `lconst_1`.
#[tactic(auto, unfolding(crate::specs::Mnemonics::small_long_digit))]
impl Display for SmallLong {
    ghost output = { λ op. Some (small_long_digit op) };

    fn fmt<W: fmt::Write>(&self, f: &mut fmt::Formatter<W>) -> fmt::Result {
        f.write_str(match self {
            SmallLong::Zero => "0",
            SmallLong::One => "1",
        })
    }
}

/// The mnemonic.
#[tactic(auto, unfolding(crate::specs::Mnemonics::stack_mnemonic))]
impl Display for StackOp {
    ghost output = { λ op. Some (stack_mnemonic op) };

    fn fmt<W: fmt::Write>(&self, f: &mut fmt::Formatter<W>) -> fmt::Result {
        f.write_str(match self {
            StackOp::Pop => "pop",
            StackOp::Pop2 => "pop2",
            StackOp::Dup => "dup",
            StackOp::DupX1 => "dup_x1",
            StackOp::DupX2 => "dup_x2",
            StackOp::Dup2 => "dup2",
            StackOp::Dup2X1 => "dup2_x1",
            StackOp::Dup2X2 => "dup2_x2",
            StackOp::Swap => "swap",
        })
    }
}

/// The mnemonic without its letter.
#[tactic(auto, unfolding(crate::specs::Mnemonics::arithmetic_name))]
impl Display for Arithmetic {
    ghost output = { λ op. Some (arithmetic_name op) };

    fn fmt<W: fmt::Write>(&self, f: &mut fmt::Formatter<W>) -> fmt::Result {
        f.write_str(match self {
            Arithmetic::Add => "add",
            Arithmetic::Sub => "sub",
            Arithmetic::Mul => "mul",
            Arithmetic::Div => "div",
            Arithmetic::Rem => "rem",
        })
    }
}

/// The mnemonic without its letter.
#[tactic(auto, unfolding(crate::specs::Mnemonics::shift_name))]
impl Display for Shift {
    ghost output = { λ op. Some (shift_name op) };

    fn fmt<W: fmt::Write>(&self, f: &mut fmt::Formatter<W>) -> fmt::Result {
        f.write_str(match self {
            Shift::Left => "shl",
            Shift::Right => "shr",
            Shift::UnsignedRight => "ushr",
        })
    }
}

/// The mnemonic without its letter.
#[tactic(auto, unfolding(crate::specs::Mnemonics::bitwise_name))]
impl Display for Bitwise {
    ghost output = { λ op. Some (bitwise_name op) };

    fn fmt<W: fmt::Write>(&self, f: &mut fmt::Formatter<W>) -> fmt::Result {
        f.write_str(match self {
            Bitwise::And => "and",
            Bitwise::Or => "or",
            Bitwise::Xor => "xor",
        })
    }
}

/// The mnemonic.
#[tactic(auto, unfolding(crate::specs::Mnemonics::conversion_mnemonic))]
impl Display for Conversion {
    ghost output = { λ op. Some (conversion_mnemonic op) };

    fn fmt<W: fmt::Write>(&self, f: &mut fmt::Formatter<W>) -> fmt::Result {
        f.write_str(match self {
            Conversion::IntToLong => "i2l",
            Conversion::LongToInt => "l2i",
            Conversion::IntToByte => "i2b",
            Conversion::IntToChar => "i2c",
            Conversion::IntToShort => "i2s",
        })
    }
}

/// The end of the mnemonic.
#[tactic(auto, unfolding(crate::specs::Mnemonics::comparison_name))]
impl Display for Comparison {
    ghost output = { λ op. Some (comparison_name op) };

    fn fmt<W: fmt::Write>(&self, f: &mut fmt::Formatter<W>) -> fmt::Result {
        f.write_str(match self {
            Comparison::Equal => "eq",
            Comparison::NotEqual => "ne",
            Comparison::Less => "lt",
            Comparison::GreaterOrEqual => "ge",
            Comparison::Greater => "gt",
            Comparison::LessOrEqual => "le",
        })
    }
}

/// The end of the mnemonic.
#[tactic(auto, unfolding(crate::specs::Mnemonics::equality_name))]
impl Display for Equality {
    ghost output = { λ op. Some (equality_name op) };

    fn fmt<W: fmt::Write>(&self, f: &mut fmt::Formatter<W>) -> fmt::Result {
        f.write_str(match self {
            Equality::Equal => "eq",
            Equality::NotEqual => "ne",
        })
    }
}

// `ifnull` or `ifnonnull`.
#[tactic(auto, unfolding(crate::specs::Mnemonics::null_mnemonic))]
fn null_mnemonic(equality: Equality) -> &'static str
    ensures { result.now ≡ null_mnemonic equality }
{
    match equality {
        Equality::Equal => "ifnull",
        Equality::NotEqual => "ifnonnull",
    }
}

/// The letter of the elements.
#[tactic(auto, unfolding(crate::specs::Mnemonics::array_letter))]
impl Display for ArrayKind {
    ghost output = { λ op. Some (array_letter op) };

    fn fmt<W: fmt::Write>(&self, f: &mut fmt::Formatter<W>) -> fmt::Result {
        f.write_str(match self {
            ArrayKind::Int => "i",
            ArrayKind::Long => "l",
            ArrayKind::Reference => "a",
            ArrayKind::Byte => "b",
            ArrayKind::Char => "c",
            ArrayKind::Short => "s",
        })
    }
}

/// The name of the type.
#[tactic(auto, unfolding(crate::specs::Mnemonics::primitive_name))]
impl Display for PrimitiveType {
    ghost output = { λ op. Some (primitive_name op) };

    fn fmt<W: fmt::Write>(&self, f: &mut fmt::Formatter<W>) -> fmt::Result {
        f.write_str(match self {
            PrimitiveType::Boolean => "boolean",
            PrimitiveType::Char => "char",
            PrimitiveType::Byte => "byte",
            PrimitiveType::Short => "short",
            PrimitiveType::Int => "int",
            PrimitiveType::Long => "long",
        })
    }
}

/// The mnemonic.
#[tactic(auto, unfolding(crate::specs::Mnemonics::return_mnemonic))]
impl Display for ReturnOp {
    ghost output = { λ op. Some (return_mnemonic op) };

    fn fmt<W: fmt::Write>(&self, f: &mut fmt::Formatter<W>) -> fmt::Result {
        f.write_str(match self {
            ReturnOp::Int => "ireturn",
            ReturnOp::Long => "lreturn",
            ReturnOp::Reference => "areturn",
            ReturnOp::Void => "return",
        })
    }
}

/// The mnemonic.
#[tactic(auto, unfolding(crate::specs::Mnemonics::monitor_mnemonic))]
impl Display for MonitorOp {
    ghost output = { λ op. Some (monitor_mnemonic op) };

    fn fmt<W: fmt::Write>(&self, f: &mut fmt::Formatter<W>) -> fmt::Result {
        f.write_str(match self {
            MonitorOp::Enter => "monitorenter",
            MonitorOp::Exit => "monitorexit",
        })
    }
}

/// The mnemonic.
#[tactic(auto, unfolding(crate::specs::Mnemonics::field_mnemonic))]
impl Display for FieldOp {
    ghost output = { λ op. Some (field_mnemonic op) };

    fn fmt<W: fmt::Write>(&self, f: &mut fmt::Formatter<W>) -> fmt::Result {
        f.write_str(match self {
            FieldOp::GetStatic => "getstatic",
            FieldOp::PutStatic => "putstatic",
            FieldOp::GetField => "getfield",
            FieldOp::PutField => "putfield",
        })
    }
}

/// The mnemonic.
#[tactic(auto, unfolding(crate::specs::Mnemonics::invoke_mnemonic))]
impl Display for InvokeOp {
    ghost output = { λ op. Some (invoke_mnemonic op) };

    fn fmt<W: fmt::Write>(&self, f: &mut fmt::Formatter<W>) -> fmt::Result {
        f.write_str(match self {
            InvokeOp::Virtual => "invokevirtual",
            InvokeOp::Special => "invokespecial",
            InvokeOp::Static => "invokestatic",
            InvokeOp::Interface => "invokeinterface",
        })
    }
}

/// The mnemonic.
#[tactic(auto, unfolding(crate::specs::Mnemonics::type_mnemonic))]
impl Display for TypeOp {
    ghost output = { λ op. Some (type_mnemonic op) };

    fn fmt<W: fmt::Write>(&self, f: &mut fmt::Formatter<W>) -> fmt::Result {
        f.write_str(match self {
            TypeOp::NewArray => "anewarray",
            TypeOp::NewArrays(_) => "multianewarray",
            TypeOp::CheckCast => "checkcast",
            TypeOp::InstanceOf => "instanceof",
        })
    }
}

/// The mnemonic.
#[tactic(auto, unfolding(crate::specs::Mnemonics::branch_mnemonic))]
impl Display for Branch {
    ghost output = { λ op. Some (branch_mnemonic op) };

    fn fmt<W: fmt::Write>(&self, f: &mut fmt::Formatter<W>) -> fmt::Result {
        match self {
            Branch::If(comparison) => write!(f, "if{comparison}"),
            Branch::IfInts(comparison) => write!(f, "if_icmp{comparison}"),
            Branch::IfReferences(equality) => write!(f, "if_acmp{equality}"),
            Branch::IfNull(equality) => f.write_str(null_mnemonic(*equality)),
            Branch::Goto => f.write_str("goto"),
            Branch::GotoW => f.write_str("goto_w"),
        }
    }
}

/// The instruction, as `iaload` or `newarray int`.
#[tactic(auto, unfolding(crate::specs::Mnemonics::array_line))]
impl Display for ArrayOp {
    ghost output = { λ op. Some (array_line op) };

    fn fmt<W: fmt::Write>(&self, f: &mut fmt::Formatter<W>) -> fmt::Result {
        match self {
            ArrayOp::Load(kind) => write!(f, "{kind}aload"),
            ArrayOp::Store(kind) => write!(f, "{kind}astore"),
            ArrayOp::New(element) => write!(f, "newarray {element}"),
            ArrayOp::Length => f.write_str("arraylength"),
        }
    }
}

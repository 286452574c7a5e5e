// What an instruction takes, in words.

ghost use Rattle.std.specs.Prelude.{◌≡◌, ◌++◌, OnOk};
ghost use Rattle.jm_why.specs.Needs.{array_words, behind_too, field_needs, invoke_needs, needs, plain_needs, simple_needs, stack_words, type_word};

use jm_program::{
    ArrayKind, ArrayOp, Branch, Conversion, FieldOp, FieldRef, Instr, Integral, InvokeOp,
    MethodRef, OperandType, Plain, ReturnOp, Simple, StackOp, TypeOp,
};
use std::alloc::AllocError;
use std::fmt::Write;

fn type_word(operand: OperandType) -> &'static str
    ensures { result.now ≡ type_word operand }
{
    match operand {
        OperandType::Int => "int",
        OperandType::Long => "long",
        OperandType::Reference => "reference",
    }
}

// A long takes the local variable behind it too.
fn behind_too(operand: OperandType) -> &'static str
    ensures { result.now ≡ behind_too operand }
{
    match operand {
        OperandType::Int | OperandType::Reference => "",
        OperandType::Long => " and the next",
    }
}

fn stack_words(op: StackOp) -> &'static str
    ensures { result.now ≡ stack_words op }
{
    match op {
        StackOp::Pop | StackOp::Dup => "one that is no long",
        StackOp::Pop2 | StackOp::Dup2 => "a long or two others",
        StackOp::DupX1 | StackOp::Swap => "two that are no longs",
        StackOp::DupX2 => "a long or two others, one that is no long",
        StackOp::Dup2X1 => "one that is no long, a long or two others",
        StackOp::Dup2X2 => "a long or two others, a long or two others",
    }
}

// Writes what an instruction of one byte takes.
fn write_simple(out: &mut String, op: Simple) -> Result<(), AllocError>
    ensures { OnOk result (out.new.bytes.items ≡ out.old.bytes.items ++ simple_needs op) }
{
    match op {
        Simple::Nop | Simple::Null | Simple::IntConstant(_) | Simple::LongConstant(_) => {
            out.push_str("no operand")
        }
        Simple::Load(operand, number) => {
            let word = type_word(operand);
            let more = behind_too(operand);
            write!(out, "{word} in local variable {number}{more}")
        }
        Simple::Store(operand, number) => {
            let word = type_word(operand);
            let more = behind_too(operand);
            write!(out, "{word}, local variable {number}{more}")
        }
        Simple::Stack(op) => out.push_str(stack_words(op)),
        Simple::Arithmetic(_, Integral::Int) | Simple::Bitwise(_, Integral::Int) => {
            out.push_str("int, int")
        }
        Simple::Arithmetic(_, Integral::Long) | Simple::Bitwise(_, Integral::Long) => {
            out.push_str("long, long")
        }
        Simple::Negate(Integral::Int) => out.push_str("int"),
        Simple::Negate(Integral::Long) => out.push_str("long"),
        Simple::Shift(_, Integral::Int) => out.push_str("int, int"),
        Simple::Shift(_, Integral::Long) => out.push_str("long, int"),
        Simple::Convert(Conversion::LongToInt) => out.push_str("long"),
        Simple::Convert(_) => out.push_str("int"),
        Simple::CompareLongs => out.push_str("long, long"),
    }
}

// Writes what an instruction takes that touches one frame alone.
fn write_plain(out: &mut String, plain: &Plain) -> Result<(), AllocError>
    ensures { OnOk result (out.new.bytes.items ≡ out.old.bytes.items ++ plain_needs plain.now) }
{
    match plain {
        Plain::Simple(op) => write_simple(out, *op),
        Plain::PushByte(_) | Plain::PushShort(_) => out.push_str("no operand"),
        Plain::Load(operand, number) => {
            let word = type_word(*operand);
            let more = behind_too(*operand);
            write!(out, "{word} in local variable {number}{more}")
        }
        Plain::Store(operand, number) => {
            let word = type_word(*operand);
            let more = behind_too(*operand);
            write!(out, "{word}, local variable {number}{more}")
        }
        Plain::Increment(number, _) => write!(out, "int in local variable {number}"),
        Plain::Branch(Branch::If(_), _) => out.push_str("int"),
        Plain::Branch(Branch::IfInts(_), _) => out.push_str("int, int"),
        Plain::Branch(Branch::IfReferences(_), _) => out.push_str("reference, reference"),
        Plain::Branch(Branch::IfNull(_), _) => out.push_str("reference"),
        Plain::Branch(Branch::Goto | Branch::GotoW, _) => out.push_str("no operand"),
        Plain::TableSwitch(_) | Plain::LookupSwitch(_) => out.push_str("int"),
    }
}

fn array_words(op: ArrayOp) -> &'static str
    ensures { result.now ≡ array_words op }
{
    match op {
        ArrayOp::Load(ArrayKind::Int) => "array of ints, int",
        ArrayOp::Load(ArrayKind::Long) => "array of longs, int",
        ArrayOp::Load(ArrayKind::Reference) => "array of references, int",
        ArrayOp::Load(ArrayKind::Byte) => "array of bytes or booleans, int",
        ArrayOp::Load(ArrayKind::Char) => "array of chars, int",
        ArrayOp::Load(ArrayKind::Short) => "array of shorts, int",
        ArrayOp::Store(ArrayKind::Int) => "array of ints, int, int",
        ArrayOp::Store(ArrayKind::Long) => "array of longs, int, long",
        ArrayOp::Store(ArrayKind::Reference) => "array of references, int, reference",
        ArrayOp::Store(ArrayKind::Byte) => "array of bytes or booleans, int, int",
        ArrayOp::Store(ArrayKind::Char) => "array of chars, int, int",
        ArrayOp::Store(ArrayKind::Short) => "array of shorts, int, int",
        ArrayOp::New(_) => "int",
        ArrayOp::Length => "array",
    }
}

// Writes what is taken for a field.
fn write_field(out: &mut String, op: FieldOp, field: &FieldRef) -> Result<(), AllocError>
    ensures { OnOk result (out.new.bytes.items ≡ out.old.bytes.items ++ field_needs op field.now) }
{
    let class = &field.class;
    let descriptor = &field.descriptor;
    match op {
        FieldOp::GetStatic => out.push_str("no operand"),
        FieldOp::PutStatic => write!(out, "{descriptor}"),
        FieldOp::GetField => write!(out, "{class}"),
        FieldOp::PutField => write!(out, "{class}, {descriptor}"),
    }
}

// Writes what is taken for a call.
fn write_invoke(out: &mut String, op: InvokeOp, method: &MethodRef) -> Result<(), AllocError>
    ensures { OnOk result (out.new.bytes.items ≡ out.old.bytes.items ++ invoke_needs op method.now) }
{
    let class = &method.class;
    let descriptor = &method.descriptor;
    match op {
        InvokeOp::Static => write!(out, "the arguments of {descriptor}"),
        InvokeOp::Virtual | InvokeOp::Special | InvokeOp::Interface => {
            write!(out, "{class}, the arguments of {descriptor}")
        }
    }
}

/// Writes what an instruction takes (JVMS 6.5): its operands with the lowest first, and its local variable. `AllocError`:
/// a growth was refused; a part of it may stand there then.
#[tactic(auto, unfolding(crate::specs::Needs::needs))]
pub fn write_needs(out: &mut String, instruction: &Instr) -> Result<(), AllocError>
    ensures { OnOk result (out.new.bytes.items ≡ out.old.bytes.items ++ needs instruction.now) }
{
    match instruction {
        Instr::Plain(plain) => write_plain(out, plain),
        Instr::Array(op) => out.push_str(array_words(*op)),
        Instr::Return(ReturnOp::Int) => out.push_str("int"),
        Instr::Return(ReturnOp::Long) => out.push_str("long"),
        Instr::Return(ReturnOp::Reference) => out.push_str("reference"),
        Instr::Return(ReturnOp::Void) => out.push_str("no operand"),
        Instr::Throw => out.push_str("java/lang/Throwable"),
        Instr::Monitor(_) => out.push_str("reference"),
        Instr::Constant(_) | Instr::New(_) => out.push_str("no operand"),
        Instr::Field(op, field) => write_field(out, *op, field.get()),
        Instr::Invoke(op, method) => write_invoke(out, *op, method.get()),
        Instr::Type(TypeOp::NewArray, _) => out.push_str("int"),
        Instr::Type(TypeOp::NewArrays(dimensions), _) => write!(out, "{dimensions} times int"),
        Instr::Type(TypeOp::CheckCast | TypeOp::InstanceOf, _) => out.push_str("reference"),
    }
}

//! The table of opcodes as data (JVMS 6.5, 7): the row of a byte has its mnemonic and what it stands for.

ghost use Rattle.std.specs.Prelude.{◌≡◌, map};
ghost use Rattle.jm_class_format.specs.Opcodes.{opcodes};
ghost use Rattle.jm_class_format.specs.Mnemonics.{mnemonic};

use crate::opcode::{LeftOutOp, Opcode};
use jm_program::{
    Arithmetic, ArrayKind, ArrayOp, Bitwise, Branch, Comparison, Conversion, Equality, FieldOp,
    Integral, InvokeOp, MonitorOp, OperandType, ReturnOp, Shift, ShortIndex, Simple, SmallInt,
    SmallLong, StackOp, TypeOp,
};

static OPCODES: [(&str, Opcode); 202] = [
    // 0 to 20: constants
    ("nop", Opcode::Simple(Simple::Nop)),
    ("aconst_null", Opcode::Simple(Simple::Null)),
    (
        "iconst_m1",
        Opcode::Simple(Simple::IntConstant(SmallInt::MinusOne)),
    ),
    (
        "iconst_0",
        Opcode::Simple(Simple::IntConstant(SmallInt::Zero)),
    ),
    (
        "iconst_1",
        Opcode::Simple(Simple::IntConstant(SmallInt::One)),
    ),
    (
        "iconst_2",
        Opcode::Simple(Simple::IntConstant(SmallInt::Two)),
    ),
    (
        "iconst_3",
        Opcode::Simple(Simple::IntConstant(SmallInt::Three)),
    ),
    (
        "iconst_4",
        Opcode::Simple(Simple::IntConstant(SmallInt::Four)),
    ),
    (
        "iconst_5",
        Opcode::Simple(Simple::IntConstant(SmallInt::Five)),
    ),
    (
        "lconst_0",
        Opcode::Simple(Simple::LongConstant(SmallLong::Zero)),
    ),
    (
        "lconst_1",
        Opcode::Simple(Simple::LongConstant(SmallLong::One)),
    ),
    ("fconst_0", Opcode::LeftOut(LeftOutOp::FConst0)),
    ("fconst_1", Opcode::LeftOut(LeftOutOp::FConst1)),
    ("fconst_2", Opcode::LeftOut(LeftOutOp::FConst2)),
    ("dconst_0", Opcode::LeftOut(LeftOutOp::DConst0)),
    ("dconst_1", Opcode::LeftOut(LeftOutOp::DConst1)),
    ("bipush", Opcode::PushByte),
    ("sipush", Opcode::PushShort),
    ("ldc", Opcode::LoadConstant),
    ("ldc_w", Opcode::LoadConstantWide),
    ("ldc2_w", Opcode::LoadLong),
    // 21 to 53: loads
    ("iload", Opcode::Load(OperandType::Int)),
    ("lload", Opcode::Load(OperandType::Long)),
    ("fload", Opcode::LeftOut(LeftOutOp::FLoad)),
    ("dload", Opcode::LeftOut(LeftOutOp::DLoad)),
    ("aload", Opcode::Load(OperandType::Reference)),
    (
        "iload_0",
        Opcode::Simple(Simple::Load(OperandType::Int, ShortIndex::Zero)),
    ),
    (
        "iload_1",
        Opcode::Simple(Simple::Load(OperandType::Int, ShortIndex::One)),
    ),
    (
        "iload_2",
        Opcode::Simple(Simple::Load(OperandType::Int, ShortIndex::Two)),
    ),
    (
        "iload_3",
        Opcode::Simple(Simple::Load(OperandType::Int, ShortIndex::Three)),
    ),
    (
        "lload_0",
        Opcode::Simple(Simple::Load(OperandType::Long, ShortIndex::Zero)),
    ),
    (
        "lload_1",
        Opcode::Simple(Simple::Load(OperandType::Long, ShortIndex::One)),
    ),
    (
        "lload_2",
        Opcode::Simple(Simple::Load(OperandType::Long, ShortIndex::Two)),
    ),
    (
        "lload_3",
        Opcode::Simple(Simple::Load(OperandType::Long, ShortIndex::Three)),
    ),
    ("fload_0", Opcode::LeftOut(LeftOutOp::FLoad0)),
    ("fload_1", Opcode::LeftOut(LeftOutOp::FLoad1)),
    ("fload_2", Opcode::LeftOut(LeftOutOp::FLoad2)),
    ("fload_3", Opcode::LeftOut(LeftOutOp::FLoad3)),
    ("dload_0", Opcode::LeftOut(LeftOutOp::DLoad0)),
    ("dload_1", Opcode::LeftOut(LeftOutOp::DLoad1)),
    ("dload_2", Opcode::LeftOut(LeftOutOp::DLoad2)),
    ("dload_3", Opcode::LeftOut(LeftOutOp::DLoad3)),
    (
        "aload_0",
        Opcode::Simple(Simple::Load(OperandType::Reference, ShortIndex::Zero)),
    ),
    (
        "aload_1",
        Opcode::Simple(Simple::Load(OperandType::Reference, ShortIndex::One)),
    ),
    (
        "aload_2",
        Opcode::Simple(Simple::Load(OperandType::Reference, ShortIndex::Two)),
    ),
    (
        "aload_3",
        Opcode::Simple(Simple::Load(OperandType::Reference, ShortIndex::Three)),
    ),
    ("iaload", Opcode::Array(ArrayOp::Load(ArrayKind::Int))),
    ("laload", Opcode::Array(ArrayOp::Load(ArrayKind::Long))),
    ("faload", Opcode::LeftOut(LeftOutOp::FALoad)),
    ("daload", Opcode::LeftOut(LeftOutOp::DALoad)),
    ("aaload", Opcode::Array(ArrayOp::Load(ArrayKind::Reference))),
    ("baload", Opcode::Array(ArrayOp::Load(ArrayKind::Byte))),
    ("caload", Opcode::Array(ArrayOp::Load(ArrayKind::Char))),
    ("saload", Opcode::Array(ArrayOp::Load(ArrayKind::Short))),
    // 54 to 86: stores
    ("istore", Opcode::Store(OperandType::Int)),
    ("lstore", Opcode::Store(OperandType::Long)),
    ("fstore", Opcode::LeftOut(LeftOutOp::FStore)),
    ("dstore", Opcode::LeftOut(LeftOutOp::DStore)),
    ("astore", Opcode::Store(OperandType::Reference)),
    (
        "istore_0",
        Opcode::Simple(Simple::Store(OperandType::Int, ShortIndex::Zero)),
    ),
    (
        "istore_1",
        Opcode::Simple(Simple::Store(OperandType::Int, ShortIndex::One)),
    ),
    (
        "istore_2",
        Opcode::Simple(Simple::Store(OperandType::Int, ShortIndex::Two)),
    ),
    (
        "istore_3",
        Opcode::Simple(Simple::Store(OperandType::Int, ShortIndex::Three)),
    ),
    (
        "lstore_0",
        Opcode::Simple(Simple::Store(OperandType::Long, ShortIndex::Zero)),
    ),
    (
        "lstore_1",
        Opcode::Simple(Simple::Store(OperandType::Long, ShortIndex::One)),
    ),
    (
        "lstore_2",
        Opcode::Simple(Simple::Store(OperandType::Long, ShortIndex::Two)),
    ),
    (
        "lstore_3",
        Opcode::Simple(Simple::Store(OperandType::Long, ShortIndex::Three)),
    ),
    ("fstore_0", Opcode::LeftOut(LeftOutOp::FStore0)),
    ("fstore_1", Opcode::LeftOut(LeftOutOp::FStore1)),
    ("fstore_2", Opcode::LeftOut(LeftOutOp::FStore2)),
    ("fstore_3", Opcode::LeftOut(LeftOutOp::FStore3)),
    ("dstore_0", Opcode::LeftOut(LeftOutOp::DStore0)),
    ("dstore_1", Opcode::LeftOut(LeftOutOp::DStore1)),
    ("dstore_2", Opcode::LeftOut(LeftOutOp::DStore2)),
    ("dstore_3", Opcode::LeftOut(LeftOutOp::DStore3)),
    (
        "astore_0",
        Opcode::Simple(Simple::Store(OperandType::Reference, ShortIndex::Zero)),
    ),
    (
        "astore_1",
        Opcode::Simple(Simple::Store(OperandType::Reference, ShortIndex::One)),
    ),
    (
        "astore_2",
        Opcode::Simple(Simple::Store(OperandType::Reference, ShortIndex::Two)),
    ),
    (
        "astore_3",
        Opcode::Simple(Simple::Store(OperandType::Reference, ShortIndex::Three)),
    ),
    ("iastore", Opcode::Array(ArrayOp::Store(ArrayKind::Int))),
    ("lastore", Opcode::Array(ArrayOp::Store(ArrayKind::Long))),
    ("fastore", Opcode::LeftOut(LeftOutOp::FAStore)),
    ("dastore", Opcode::LeftOut(LeftOutOp::DAStore)),
    (
        "aastore",
        Opcode::Array(ArrayOp::Store(ArrayKind::Reference)),
    ),
    ("bastore", Opcode::Array(ArrayOp::Store(ArrayKind::Byte))),
    ("castore", Opcode::Array(ArrayOp::Store(ArrayKind::Char))),
    ("sastore", Opcode::Array(ArrayOp::Store(ArrayKind::Short))),
    // 87 to 95: stack
    ("pop", Opcode::Simple(Simple::Stack(StackOp::Pop))),
    ("pop2", Opcode::Simple(Simple::Stack(StackOp::Pop2))),
    ("dup", Opcode::Simple(Simple::Stack(StackOp::Dup))),
    ("dup_x1", Opcode::Simple(Simple::Stack(StackOp::DupX1))),
    ("dup_x2", Opcode::Simple(Simple::Stack(StackOp::DupX2))),
    ("dup2", Opcode::Simple(Simple::Stack(StackOp::Dup2))),
    ("dup2_x1", Opcode::Simple(Simple::Stack(StackOp::Dup2X1))),
    ("dup2_x2", Opcode::Simple(Simple::Stack(StackOp::Dup2X2))),
    ("swap", Opcode::Simple(Simple::Stack(StackOp::Swap))),
    // 96 to 132: math
    (
        "iadd",
        Opcode::Simple(Simple::Arithmetic(Arithmetic::Add, Integral::Int)),
    ),
    (
        "ladd",
        Opcode::Simple(Simple::Arithmetic(Arithmetic::Add, Integral::Long)),
    ),
    ("fadd", Opcode::LeftOut(LeftOutOp::FAdd)),
    ("dadd", Opcode::LeftOut(LeftOutOp::DAdd)),
    (
        "isub",
        Opcode::Simple(Simple::Arithmetic(Arithmetic::Sub, Integral::Int)),
    ),
    (
        "lsub",
        Opcode::Simple(Simple::Arithmetic(Arithmetic::Sub, Integral::Long)),
    ),
    ("fsub", Opcode::LeftOut(LeftOutOp::FSub)),
    ("dsub", Opcode::LeftOut(LeftOutOp::DSub)),
    (
        "imul",
        Opcode::Simple(Simple::Arithmetic(Arithmetic::Mul, Integral::Int)),
    ),
    (
        "lmul",
        Opcode::Simple(Simple::Arithmetic(Arithmetic::Mul, Integral::Long)),
    ),
    ("fmul", Opcode::LeftOut(LeftOutOp::FMul)),
    ("dmul", Opcode::LeftOut(LeftOutOp::DMul)),
    (
        "idiv",
        Opcode::Simple(Simple::Arithmetic(Arithmetic::Div, Integral::Int)),
    ),
    (
        "ldiv",
        Opcode::Simple(Simple::Arithmetic(Arithmetic::Div, Integral::Long)),
    ),
    ("fdiv", Opcode::LeftOut(LeftOutOp::FDiv)),
    ("ddiv", Opcode::LeftOut(LeftOutOp::DDiv)),
    (
        "irem",
        Opcode::Simple(Simple::Arithmetic(Arithmetic::Rem, Integral::Int)),
    ),
    (
        "lrem",
        Opcode::Simple(Simple::Arithmetic(Arithmetic::Rem, Integral::Long)),
    ),
    ("frem", Opcode::LeftOut(LeftOutOp::FRem)),
    ("drem", Opcode::LeftOut(LeftOutOp::DRem)),
    ("ineg", Opcode::Simple(Simple::Negate(Integral::Int))),
    ("lneg", Opcode::Simple(Simple::Negate(Integral::Long))),
    ("fneg", Opcode::LeftOut(LeftOutOp::FNeg)),
    ("dneg", Opcode::LeftOut(LeftOutOp::DNeg)),
    (
        "ishl",
        Opcode::Simple(Simple::Shift(Shift::Left, Integral::Int)),
    ),
    (
        "lshl",
        Opcode::Simple(Simple::Shift(Shift::Left, Integral::Long)),
    ),
    (
        "ishr",
        Opcode::Simple(Simple::Shift(Shift::Right, Integral::Int)),
    ),
    (
        "lshr",
        Opcode::Simple(Simple::Shift(Shift::Right, Integral::Long)),
    ),
    (
        "iushr",
        Opcode::Simple(Simple::Shift(Shift::UnsignedRight, Integral::Int)),
    ),
    (
        "lushr",
        Opcode::Simple(Simple::Shift(Shift::UnsignedRight, Integral::Long)),
    ),
    (
        "iand",
        Opcode::Simple(Simple::Bitwise(Bitwise::And, Integral::Int)),
    ),
    (
        "land",
        Opcode::Simple(Simple::Bitwise(Bitwise::And, Integral::Long)),
    ),
    (
        "ior",
        Opcode::Simple(Simple::Bitwise(Bitwise::Or, Integral::Int)),
    ),
    (
        "lor",
        Opcode::Simple(Simple::Bitwise(Bitwise::Or, Integral::Long)),
    ),
    (
        "ixor",
        Opcode::Simple(Simple::Bitwise(Bitwise::Xor, Integral::Int)),
    ),
    (
        "lxor",
        Opcode::Simple(Simple::Bitwise(Bitwise::Xor, Integral::Long)),
    ),
    ("iinc", Opcode::Increment),
    // 133 to 147: conversions
    (
        "i2l",
        Opcode::Simple(Simple::Convert(Conversion::IntToLong)),
    ),
    ("i2f", Opcode::LeftOut(LeftOutOp::I2F)),
    ("i2d", Opcode::LeftOut(LeftOutOp::I2D)),
    (
        "l2i",
        Opcode::Simple(Simple::Convert(Conversion::LongToInt)),
    ),
    ("l2f", Opcode::LeftOut(LeftOutOp::L2F)),
    ("l2d", Opcode::LeftOut(LeftOutOp::L2D)),
    ("f2i", Opcode::LeftOut(LeftOutOp::F2I)),
    ("f2l", Opcode::LeftOut(LeftOutOp::F2L)),
    ("f2d", Opcode::LeftOut(LeftOutOp::F2D)),
    ("d2i", Opcode::LeftOut(LeftOutOp::D2I)),
    ("d2l", Opcode::LeftOut(LeftOutOp::D2L)),
    ("d2f", Opcode::LeftOut(LeftOutOp::D2F)),
    (
        "i2b",
        Opcode::Simple(Simple::Convert(Conversion::IntToByte)),
    ),
    (
        "i2c",
        Opcode::Simple(Simple::Convert(Conversion::IntToChar)),
    ),
    (
        "i2s",
        Opcode::Simple(Simple::Convert(Conversion::IntToShort)),
    ),
    // 148 to 166: comparisons
    ("lcmp", Opcode::Simple(Simple::CompareLongs)),
    ("fcmpl", Opcode::LeftOut(LeftOutOp::FCmpL)),
    ("fcmpg", Opcode::LeftOut(LeftOutOp::FCmpG)),
    ("dcmpl", Opcode::LeftOut(LeftOutOp::DCmpL)),
    ("dcmpg", Opcode::LeftOut(LeftOutOp::DCmpG)),
    ("ifeq", Opcode::Branch(Branch::If(Comparison::Equal))),
    ("ifne", Opcode::Branch(Branch::If(Comparison::NotEqual))),
    ("iflt", Opcode::Branch(Branch::If(Comparison::Less))),
    (
        "ifge",
        Opcode::Branch(Branch::If(Comparison::GreaterOrEqual)),
    ),
    ("ifgt", Opcode::Branch(Branch::If(Comparison::Greater))),
    ("ifle", Opcode::Branch(Branch::If(Comparison::LessOrEqual))),
    (
        "if_icmpeq",
        Opcode::Branch(Branch::IfInts(Comparison::Equal)),
    ),
    (
        "if_icmpne",
        Opcode::Branch(Branch::IfInts(Comparison::NotEqual)),
    ),
    (
        "if_icmplt",
        Opcode::Branch(Branch::IfInts(Comparison::Less)),
    ),
    (
        "if_icmpge",
        Opcode::Branch(Branch::IfInts(Comparison::GreaterOrEqual)),
    ),
    (
        "if_icmpgt",
        Opcode::Branch(Branch::IfInts(Comparison::Greater)),
    ),
    (
        "if_icmple",
        Opcode::Branch(Branch::IfInts(Comparison::LessOrEqual)),
    ),
    (
        "if_acmpeq",
        Opcode::Branch(Branch::IfReferences(Equality::Equal)),
    ),
    (
        "if_acmpne",
        Opcode::Branch(Branch::IfReferences(Equality::NotEqual)),
    ),
    // 167 to 177: control
    ("goto", Opcode::Branch(Branch::Goto)),
    ("jsr", Opcode::LeftOut(LeftOutOp::Jsr)),
    ("ret", Opcode::LeftOut(LeftOutOp::Ret)),
    ("tableswitch", Opcode::TableSwitch),
    ("lookupswitch", Opcode::LookupSwitch),
    ("ireturn", Opcode::Return(ReturnOp::Int)),
    ("lreturn", Opcode::Return(ReturnOp::Long)),
    ("freturn", Opcode::LeftOut(LeftOutOp::FReturn)),
    ("dreturn", Opcode::LeftOut(LeftOutOp::DReturn)),
    ("areturn", Opcode::Return(ReturnOp::Reference)),
    ("return", Opcode::Return(ReturnOp::Void)),
    // 178 to 195: references
    ("getstatic", Opcode::Field(FieldOp::GetStatic)),
    ("putstatic", Opcode::Field(FieldOp::PutStatic)),
    ("getfield", Opcode::Field(FieldOp::GetField)),
    ("putfield", Opcode::Field(FieldOp::PutField)),
    ("invokevirtual", Opcode::Invoke(InvokeOp::Virtual)),
    ("invokespecial", Opcode::Invoke(InvokeOp::Special)),
    ("invokestatic", Opcode::Invoke(InvokeOp::Static)),
    ("invokeinterface", Opcode::InvokeInterface),
    ("invokedynamic", Opcode::LeftOut(LeftOutOp::InvokeDynamic)),
    ("new", Opcode::New),
    ("newarray", Opcode::NewArray),
    ("anewarray", Opcode::Type(TypeOp::NewArray)),
    ("arraylength", Opcode::Array(ArrayOp::Length)),
    ("athrow", Opcode::Throw),
    ("checkcast", Opcode::Type(TypeOp::CheckCast)),
    ("instanceof", Opcode::Type(TypeOp::InstanceOf)),
    ("monitorenter", Opcode::Monitor(MonitorOp::Enter)),
    ("monitorexit", Opcode::Monitor(MonitorOp::Exit)),
    // 196 to 201: extended
    ("wide", Opcode::Wide),
    ("multianewarray", Opcode::NewArrays),
    ("ifnull", Opcode::Branch(Branch::IfNull(Equality::Equal))),
    (
        "ifnonnull",
        Opcode::Branch(Branch::IfNull(Equality::NotEqual)),
    ),
    ("goto_w", Opcode::BranchWide(Branch::GotoW)),
    ("jsr_w", Opcode::LeftOut(LeftOutOp::JsrW)),
];

/// The mnemonics and what they stand for, in the order of the bytes from 0 on.
pub fn opcodes() -> &'static [(&'static str, Opcode)]
    ensures meanings { map (λ r. r.1) result.now ≡ opcodes }
    ensures mnemonics { map (λ r. r.0.now) result.now ≡ map mnemonic opcodes }
{
    &OPCODES
}

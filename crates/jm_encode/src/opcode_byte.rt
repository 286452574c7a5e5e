// The opcode of each instruction (JVMS 6.5, 7), by families.

ghost use Rattle.std.specs.Prelude.{◌≡◌};
ghost use Rattle.jm_encode.specs.OpcodeBytes.{int_byte, long_byte, load_byte, store_byte, short_load_byte, short_store_byte, stack_byte, arithmetic_byte, negate_byte, shift_byte, bitwise_byte, conversion_byte, simple_byte, if_byte, if_ints_byte, if_references_byte, if_null_byte, branch_byte, array_load_byte, array_store_byte, element_code, return_byte, monitor_byte, field_byte, invoke_byte, type_byte};

use jm_program::{
    Arithmetic, ArrayKind, Bitwise, Branch, Comparison, Conversion, Equality, FieldOp, Integral,
    InvokeOp, MonitorOp, OperandType, PrimitiveType, ReturnOp, Shift, ShortIndex, Simple, SmallInt,
    SmallLong, StackOp, TypeOp,
};

/// `iconst_m1` to `iconst_5`.
#[tactic(auto, unfolding(crate::specs::OpcodeBytes::int_byte))]
fn int_byte(n: SmallInt) -> u8
    ensures { result ≡ int_byte n }
{
    match n {
        SmallInt::MinusOne => 2,
        SmallInt::Zero => 3,
        SmallInt::One => 4,
        SmallInt::Two => 5,
        SmallInt::Three => 6,
        SmallInt::Four => 7,
        SmallInt::Five => 8,
    }
}

/// `lconst_0` and `lconst_1`.
#[tactic(auto, unfolding(crate::specs::OpcodeBytes::long_byte))]
fn long_byte(n: SmallLong) -> u8
    ensures { result ≡ long_byte n }
{
    match n {
        SmallLong::Zero => 9,
        SmallLong::One => 10,
    }
}

/// `iload`, `lload` and `aload`.
#[tactic(auto, unfolding(crate::specs::OpcodeBytes::load_byte))]
pub fn load_byte(kind: OperandType) -> u8
    ensures { result ≡ load_byte kind }
{
    match kind {
        OperandType::Int => 21,
        OperandType::Long => 22,
        OperandType::Reference => 25,
    }
}

/// `istore`, `lstore` and `astore`.
#[tactic(auto, unfolding(crate::specs::OpcodeBytes::store_byte))]
pub fn store_byte(kind: OperandType) -> u8
    ensures { result ≡ store_byte kind }
{
    match kind {
        OperandType::Int => 54,
        OperandType::Long => 55,
        OperandType::Reference => 58,
    }
}

/// `iload_0` to `iload_3`, `lload_0` to `lload_3` and `aload_0` to `aload_3`.
#[tactic(auto, unfolding(crate::specs::OpcodeBytes::short_load_byte))]
fn short_load_byte(kind: OperandType, index: ShortIndex) -> u8
    ensures { result ≡ short_load_byte kind index }
{
    match (kind, index) {
        (OperandType::Int, ShortIndex::Zero) => 26,
        (OperandType::Int, ShortIndex::One) => 27,
        (OperandType::Int, ShortIndex::Two) => 28,
        (OperandType::Int, ShortIndex::Three) => 29,
        (OperandType::Long, ShortIndex::Zero) => 30,
        (OperandType::Long, ShortIndex::One) => 31,
        (OperandType::Long, ShortIndex::Two) => 32,
        (OperandType::Long, ShortIndex::Three) => 33,
        (OperandType::Reference, ShortIndex::Zero) => 42,
        (OperandType::Reference, ShortIndex::One) => 43,
        (OperandType::Reference, ShortIndex::Two) => 44,
        (OperandType::Reference, ShortIndex::Three) => 45,
    }
}

/// `istore_0` to `istore_3`, `lstore_0` to `lstore_3` and `astore_0` to `astore_3`.
#[tactic(auto, unfolding(crate::specs::OpcodeBytes::short_store_byte))]
fn short_store_byte(kind: OperandType, index: ShortIndex) -> u8
    ensures { result ≡ short_store_byte kind index }
{
    match (kind, index) {
        (OperandType::Int, ShortIndex::Zero) => 59,
        (OperandType::Int, ShortIndex::One) => 60,
        (OperandType::Int, ShortIndex::Two) => 61,
        (OperandType::Int, ShortIndex::Three) => 62,
        (OperandType::Long, ShortIndex::Zero) => 63,
        (OperandType::Long, ShortIndex::One) => 64,
        (OperandType::Long, ShortIndex::Two) => 65,
        (OperandType::Long, ShortIndex::Three) => 66,
        (OperandType::Reference, ShortIndex::Zero) => 75,
        (OperandType::Reference, ShortIndex::One) => 76,
        (OperandType::Reference, ShortIndex::Two) => 77,
        (OperandType::Reference, ShortIndex::Three) => 78,
    }
}

/// `pop` to `swap`.
#[tactic(auto, unfolding(crate::specs::OpcodeBytes::stack_byte))]
fn stack_byte(op: StackOp) -> u8
    ensures { result ≡ stack_byte op }
{
    match op {
        StackOp::Pop => 87,
        StackOp::Pop2 => 88,
        StackOp::Dup => 89,
        StackOp::DupX1 => 90,
        StackOp::DupX2 => 91,
        StackOp::Dup2 => 92,
        StackOp::Dup2X1 => 93,
        StackOp::Dup2X2 => 94,
        StackOp::Swap => 95,
    }
}

/// `iadd` to `lrem`.
#[tactic(auto, unfolding(crate::specs::OpcodeBytes::arithmetic_byte))]
fn arithmetic_byte(op: Arithmetic, kind: Integral) -> u8
    ensures { result ≡ arithmetic_byte op kind }
{
    match (op, kind) {
        (Arithmetic::Add, Integral::Int) => 96,
        (Arithmetic::Add, Integral::Long) => 97,
        (Arithmetic::Sub, Integral::Int) => 100,
        (Arithmetic::Sub, Integral::Long) => 101,
        (Arithmetic::Mul, Integral::Int) => 104,
        (Arithmetic::Mul, Integral::Long) => 105,
        (Arithmetic::Div, Integral::Int) => 108,
        (Arithmetic::Div, Integral::Long) => 109,
        (Arithmetic::Rem, Integral::Int) => 112,
        (Arithmetic::Rem, Integral::Long) => 113,
    }
}

/// `ineg` and `lneg`.
#[tactic(auto, unfolding(crate::specs::OpcodeBytes::negate_byte))]
fn negate_byte(kind: Integral) -> u8
    ensures { result ≡ negate_byte kind }
{
    match kind {
        Integral::Int => 116,
        Integral::Long => 117,
    }
}

/// `ishl` to `lushr`.
#[tactic(auto, unfolding(crate::specs::OpcodeBytes::shift_byte))]
fn shift_byte(op: Shift, kind: Integral) -> u8
    ensures { result ≡ shift_byte op kind }
{
    match (op, kind) {
        (Shift::Left, Integral::Int) => 120,
        (Shift::Left, Integral::Long) => 121,
        (Shift::Right, Integral::Int) => 122,
        (Shift::Right, Integral::Long) => 123,
        (Shift::UnsignedRight, Integral::Int) => 124,
        (Shift::UnsignedRight, Integral::Long) => 125,
    }
}

/// `iand` to `lxor`.
#[tactic(auto, unfolding(crate::specs::OpcodeBytes::bitwise_byte))]
fn bitwise_byte(op: Bitwise, kind: Integral) -> u8
    ensures { result ≡ bitwise_byte op kind }
{
    match (op, kind) {
        (Bitwise::And, Integral::Int) => 126,
        (Bitwise::And, Integral::Long) => 127,
        (Bitwise::Or, Integral::Int) => 128,
        (Bitwise::Or, Integral::Long) => 129,
        (Bitwise::Xor, Integral::Int) => 130,
        (Bitwise::Xor, Integral::Long) => 131,
    }
}

/// `i2l` to `i2s`.
#[tactic(auto, unfolding(crate::specs::OpcodeBytes::conversion_byte))]
fn conversion_byte(op: Conversion) -> u8
    ensures { result ≡ conversion_byte op }
{
    match op {
        Conversion::IntToLong => 133,
        Conversion::LongToInt => 136,
        Conversion::IntToByte => 145,
        Conversion::IntToChar => 146,
        Conversion::IntToShort => 147,
    }
}

/// The instructions of one byte that touch one frame alone.
#[tactic(auto, unfolding(crate::specs::OpcodeBytes::simple_byte))]
pub fn simple_byte(simple: Simple) -> u8
    ensures { result ≡ simple_byte simple }
{
    match simple {
        Simple::Nop => 0,
        Simple::Null => 1,
        Simple::IntConstant(n) => int_byte(n),
        Simple::LongConstant(n) => long_byte(n),
        Simple::Load(kind, index) => short_load_byte(kind, index),
        Simple::Store(kind, index) => short_store_byte(kind, index),
        Simple::Stack(op) => stack_byte(op),
        Simple::Arithmetic(op, kind) => arithmetic_byte(op, kind),
        Simple::Negate(kind) => negate_byte(kind),
        Simple::Shift(op, kind) => shift_byte(op, kind),
        Simple::Bitwise(op, kind) => bitwise_byte(op, kind),
        Simple::Convert(op) => conversion_byte(op),
        Simple::CompareLongs => 148,
    }
}

/// `ifeq` to `ifle`.
#[tactic(auto, unfolding(crate::specs::OpcodeBytes::if_byte))]
fn if_byte(comparison: Comparison) -> u8
    ensures { result ≡ if_byte comparison }
{
    match comparison {
        Comparison::Equal => 153,
        Comparison::NotEqual => 154,
        Comparison::Less => 155,
        Comparison::GreaterOrEqual => 156,
        Comparison::Greater => 157,
        Comparison::LessOrEqual => 158,
    }
}

/// `if_icmpeq` to `if_icmple`.
#[tactic(auto, unfolding(crate::specs::OpcodeBytes::if_ints_byte))]
fn if_ints_byte(comparison: Comparison) -> u8
    ensures { result ≡ if_ints_byte comparison }
{
    match comparison {
        Comparison::Equal => 159,
        Comparison::NotEqual => 160,
        Comparison::Less => 161,
        Comparison::GreaterOrEqual => 162,
        Comparison::Greater => 163,
        Comparison::LessOrEqual => 164,
    }
}

/// `if_acmpeq` and `if_acmpne`.
#[tactic(auto, unfolding(crate::specs::OpcodeBytes::if_references_byte))]
fn if_references_byte(equality: Equality) -> u8
    ensures { result ≡ if_references_byte equality }
{
    match equality {
        Equality::Equal => 165,
        Equality::NotEqual => 166,
    }
}

/// `ifnull` and `ifnonnull`.
#[tactic(auto, unfolding(crate::specs::OpcodeBytes::if_null_byte))]
fn if_null_byte(equality: Equality) -> u8
    ensures { result ≡ if_null_byte equality }
{
    match equality {
        Equality::Equal => 198,
        Equality::NotEqual => 199,
    }
}

/// The branches with one target.
#[tactic(auto, unfolding(crate::specs::OpcodeBytes::branch_byte))]
pub fn branch_byte(branch: Branch) -> u8
    ensures { result ≡ branch_byte branch }
{
    match branch {
        Branch::If(c) => if_byte(c),
        Branch::IfInts(c) => if_ints_byte(c),
        Branch::IfReferences(e) => if_references_byte(e),
        Branch::IfNull(e) => if_null_byte(e),
        Branch::Goto => 167,
        Branch::GotoW => 200,
    }
}

/// `iaload` to `saload`.
#[tactic(auto, unfolding(crate::specs::OpcodeBytes::array_load_byte))]
pub fn array_load_byte(kind: ArrayKind) -> u8
    ensures { result ≡ array_load_byte kind }
{
    match kind {
        ArrayKind::Int => 46,
        ArrayKind::Long => 47,
        ArrayKind::Reference => 50,
        ArrayKind::Byte => 51,
        ArrayKind::Char => 52,
        ArrayKind::Short => 53,
    }
}

/// `iastore` to `sastore`.
#[tactic(auto, unfolding(crate::specs::OpcodeBytes::array_store_byte))]
pub fn array_store_byte(kind: ArrayKind) -> u8
    ensures { result ≡ array_store_byte kind }
{
    match kind {
        ArrayKind::Int => 79,
        ArrayKind::Long => 80,
        ArrayKind::Reference => 83,
        ArrayKind::Byte => 84,
        ArrayKind::Char => 85,
        ArrayKind::Short => 86,
    }
}

/// The operand of `newarray` (JVMS 6.5 newarray, table 6.5.newarray-A).
#[tactic(auto, unfolding(crate::specs::OpcodeBytes::element_code))]
pub fn element_code(element: PrimitiveType) -> u8
    ensures { result ≡ element_code element }
{
    match element {
        PrimitiveType::Boolean => 4,
        PrimitiveType::Char => 5,
        PrimitiveType::Byte => 8,
        PrimitiveType::Short => 9,
        PrimitiveType::Int => 10,
        PrimitiveType::Long => 11,
    }
}

/// `ireturn` to `return`.
#[tactic(auto, unfolding(crate::specs::OpcodeBytes::return_byte))]
pub fn return_byte(op: ReturnOp) -> u8
    ensures { result ≡ return_byte op }
{
    match op {
        ReturnOp::Int => 172,
        ReturnOp::Long => 173,
        ReturnOp::Reference => 176,
        ReturnOp::Void => 177,
    }
}

/// `monitorenter` and `monitorexit`.
#[tactic(auto, unfolding(crate::specs::OpcodeBytes::monitor_byte))]
pub fn monitor_byte(op: MonitorOp) -> u8
    ensures { result ≡ monitor_byte op }
{
    match op {
        MonitorOp::Enter => 194,
        MonitorOp::Exit => 195,
    }
}

/// `getstatic` to `putfield`.
#[tactic(auto, unfolding(crate::specs::OpcodeBytes::field_byte))]
pub fn field_byte(op: FieldOp) -> u8
    ensures { result ≡ field_byte op }
{
    match op {
        FieldOp::GetStatic => 178,
        FieldOp::PutStatic => 179,
        FieldOp::GetField => 180,
        FieldOp::PutField => 181,
    }
}

/// `invokevirtual` to `invokeinterface`.
#[tactic(auto, unfolding(crate::specs::OpcodeBytes::invoke_byte))]
pub fn invoke_byte(op: InvokeOp) -> u8
    ensures { result ≡ invoke_byte op }
{
    match op {
        InvokeOp::Virtual => 182,
        InvokeOp::Special => 183,
        InvokeOp::Static => 184,
        InvokeOp::Interface => 185,
    }
}

/// `anewarray`, `multianewarray`, `checkcast` and `instanceof`.
#[tactic(auto, unfolding(crate::specs::OpcodeBytes::type_byte))]
pub fn type_byte(op: TypeOp) -> u8
    ensures { result ≡ type_byte op }
{
    match op {
        TypeOp::NewArray => 189,
        TypeOp::NewArrays(_) => 197,
        TypeOp::CheckCast => 192,
        TypeOp::InstanceOf => 193,
    }
}

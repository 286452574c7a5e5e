/// What a local variable or an operand holds, by the letters i, l and a (JVMS 2.11.1).
#[derive(Clone, Copy, PartialEq, Eq)]
pub enum OperandType {
    Int,
    Long,
    Reference,
}

/// The types of arithmetic, by the letters i and l (JVMS 2.11.1).
#[derive(Clone, Copy, PartialEq, Eq)]
pub enum Integral {
    Int,
    Long,
}

/// A local variable that a short form names: `iload_0` to `iload_3` and their like.
#[derive(Clone, Copy, PartialEq, Eq)]
pub enum ShortIndex {
    Zero,
    One,
    Two,
    Three,
}

/// The int of `iconst_m1` to `iconst_5`.
#[derive(Clone, Copy, PartialEq, Eq)]
pub enum SmallInt {
    MinusOne,
    Zero,
    One,
    Two,
    Three,
    Four,
    Five,
}

/// The long of `lconst_0` and `lconst_1`.
#[derive(Clone, Copy, PartialEq, Eq)]
pub enum SmallLong {
    Zero,
    One,
}

/// What is done to the operand stack as it is (JVMS 2.11.6).
#[derive(Clone, Copy, PartialEq, Eq)]
pub enum StackOp {
    Pop,
    Pop2,
    Dup,
    DupX1,
    DupX2,
    Dup2,
    Dup2X1,
    Dup2X2,
    Swap,
}

/// Arithmetic on two operands (JVMS 2.11.3).
#[derive(Clone, Copy, PartialEq, Eq)]
pub enum Arithmetic {
    Add,
    Sub,
    Mul,
    Div,
    Rem,
}

/// A shift: `shl`, `shr` and `ushr` (JVMS 2.11.3).
#[derive(Clone, Copy, PartialEq, Eq)]
pub enum Shift {
    Left,
    Right,
    UnsignedRight,
}

/// A bitwise operation (JVMS 2.11.3).
#[derive(Clone, Copy, PartialEq, Eq)]
pub enum Bitwise {
    And,
    Or,
    Xor,
}

/// A conversion between integers: `i2l`, `l2i`, `i2b`, `i2c`, `i2s` (JVMS 2.11.4).
#[derive(Clone, Copy, PartialEq, Eq)]
pub enum Conversion {
    IntToLong,
    LongToInt,
    IntToByte,
    IntToChar,
    IntToShort,
}

/// How two ints, or an int and 0, are compared by a branch.
#[derive(Clone, Copy, PartialEq, Eq)]
pub enum Comparison {
    Equal,
    NotEqual,
    Less,
    GreaterOrEqual,
    Greater,
    LessOrEqual,
}

/// How two references are compared by a branch.
#[derive(Clone, Copy, PartialEq, Eq)]
pub enum Equality {
    Equal,
    NotEqual,
}

/// A branch with one target (JVMS 2.11.7).
#[derive(Clone, Copy, PartialEq, Eq)]
pub enum Branch {
    /// `ifeq` to `ifle`: an int beside 0.
    If(Comparison),
    /// `if_icmpeq` to `if_icmple`: two ints.
    IfInts(Comparison),
    /// `if_acmpeq` and `if_acmpne`: two references.
    IfReferences(Equality),
    /// `ifnull` (equal) and `ifnonnull` (not equal): a reference beside null.
    IfNull(Equality),
    Goto,
    GotoW,
}

/// The elements that an array load or store takes, by the letters i, l, a, b, c and s.
#[derive(Clone, Copy, PartialEq, Eq)]
pub enum ArrayKind {
    Int,
    Long,
    Reference,
    /// Bytes or booleans.
    Byte,
    Char,
    Short,
}

/// The element type of `newarray` (JVMS 6.5 newarray), float and double apart.
#[derive(Clone, Copy, PartialEq, Eq)]
pub enum PrimitiveType {
    Boolean,
    Char,
    Byte,
    Short,
    Int,
    Long,
}

/// What is done to an array, with no name of a class (JVMS 2.11.5).
#[derive(Clone, Copy, PartialEq, Eq)]
pub enum ArrayOp {
    Load(ArrayKind),
    Store(ArrayKind),
    New(PrimitiveType),
    Length,
}

/// A return: `ireturn`, `lreturn`, `areturn` and `return` (JVMS 2.11.8).
#[derive(Clone, Copy, PartialEq, Eq)]
pub enum ReturnOp {
    Int,
    Long,
    Reference,
    Void,
}

/// `monitorenter` and `monitorexit` (JVMS 2.11.10).
#[derive(Clone, Copy, PartialEq, Eq)]
pub enum MonitorOp {
    Enter,
    Exit,
}

/// What is done to a field: `getstatic`, `putstatic`, `getfield`, `putfield`.
#[derive(Clone, Copy, PartialEq, Eq, Hash)]
pub enum FieldOp {
    GetStatic,
    PutStatic,
    GetField,
    PutField,
}

/// How a method is invoked (JVMS 2.11.8).
#[derive(Clone, Copy, PartialEq, Eq, Hash)]
pub enum InvokeOp {
    Virtual,
    Special,
    Static,
    Interface,
}

/// What is done with a class, an interface or an array type.
#[derive(Clone, Copy, PartialEq, Eq, Hash)]
pub enum TypeOp {
    /// `anewarray`: an array whose elements are of the type.
    NewArray,
    /// `multianewarray`: an array of the type, with those below it, in so many dimensions.
    NewArrays(u8),
    CheckCast,
    InstanceOf,
}

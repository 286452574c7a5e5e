// Opcodes (JVMS 6.5, 7).

ghost use Rattle.std.specs.Prelude.{◌≡◌, Some};
ghost use Rattle.jm_class_format.specs.Mnemonics.{left_out_mnemonic};

use jm_program::{
    ArrayOp, Branch, FieldOp, InvokeOp, MonitorOp, OperandType, ReturnOp, Simple, TypeOp,
};
use std::fmt;

/// What an opcode stands for, and so which operands follow it (JVMS 6.5, 7).
#[derive(Clone, Copy)]
pub enum Opcode {
    Simple(Simple),
    /// `newarray` apart, which has an operand.
    Array(ArrayOp),
    Return(ReturnOp),
    /// `athrow`.
    Throw,
    Monitor(MonitorOp),
    /// `bipush`.
    PushByte,
    /// `sipush`.
    PushShort,
    /// `ldc`.
    LoadConstant,
    /// `ldc_w`.
    LoadConstantWide,
    /// `ldc2_w`.
    LoadLong,
    Load(OperandType),
    Store(OperandType),
    /// `iinc`.
    Increment,
    /// A branch by 16 bits.
    Branch(Branch),
    /// A branch by 32 bits.
    BranchWide(Branch),
    TableSwitch,
    LookupSwitch,
    Field(FieldOp),
    /// `invokeinterface` apart, which has more operands.
    Invoke(InvokeOp),
    InvokeInterface,
    New,
    /// `newarray`.
    NewArray,
    /// `multianewarray` apart, which has an operand more.
    Type(TypeOp),
    /// `multianewarray`.
    NewArrays,
    Wide,
    LeftOut(LeftOutOp),
}

/// An instruction that the profile leaves out, by its mnemonic, or an element type of `newarray`.
#[derive(Clone, Copy, PartialEq, Eq)]
pub enum LeftOutOp {
    FConst0,
    FConst1,
    FConst2,
    DConst0,
    DConst1,
    FLoad,
    DLoad,
    FLoad0,
    FLoad1,
    FLoad2,
    FLoad3,
    DLoad0,
    DLoad1,
    DLoad2,
    DLoad3,
    FALoad,
    DALoad,
    FStore,
    DStore,
    FStore0,
    FStore1,
    FStore2,
    FStore3,
    DStore0,
    DStore1,
    DStore2,
    DStore3,
    FAStore,
    DAStore,
    FAdd,
    DAdd,
    FSub,
    DSub,
    FMul,
    DMul,
    FDiv,
    DDiv,
    FRem,
    DRem,
    FNeg,
    DNeg,
    I2F,
    I2D,
    L2F,
    L2D,
    F2I,
    F2L,
    F2D,
    D2I,
    D2L,
    D2F,
    FCmpL,
    FCmpG,
    DCmpL,
    DCmpG,
    Jsr,
    Ret,
    FReturn,
    DReturn,
    InvokeDynamic,
    JsrW,
    /// `newarray float`.
    FloatArray,
    /// `newarray double`.
    DoubleArray,
}

impl fmt::Display for LeftOutOp {
    ghost output = { λ op. Some (left_out_mnemonic op) };

    fn fmt<W: fmt::Write>(&self, f: &mut fmt::Formatter<W>) -> fmt::Result {
        f.write_str(self.mnemonic())
    }
}

impl LeftOutOp {
    /// The mnemonic (JVMS 6.5), or the element type's name.
    #[tactic(auto, unfolding(crate::specs::Mnemonics::left_out_mnemonic))]
    pub fn mnemonic(self) -> &'static str
        ensures { result.now ≡ left_out_mnemonic self }
    {
        match self {
            LeftOutOp::FConst0 => "fconst_0",
            LeftOutOp::FConst1 => "fconst_1",
            LeftOutOp::FConst2 => "fconst_2",
            LeftOutOp::DConst0 => "dconst_0",
            LeftOutOp::DConst1 => "dconst_1",
            LeftOutOp::FLoad => "fload",
            LeftOutOp::DLoad => "dload",
            LeftOutOp::FLoad0 => "fload_0",
            LeftOutOp::FLoad1 => "fload_1",
            LeftOutOp::FLoad2 => "fload_2",
            LeftOutOp::FLoad3 => "fload_3",
            LeftOutOp::DLoad0 => "dload_0",
            LeftOutOp::DLoad1 => "dload_1",
            LeftOutOp::DLoad2 => "dload_2",
            LeftOutOp::DLoad3 => "dload_3",
            LeftOutOp::FALoad => "faload",
            LeftOutOp::DALoad => "daload",
            LeftOutOp::FStore => "fstore",
            LeftOutOp::DStore => "dstore",
            LeftOutOp::FStore0 => "fstore_0",
            LeftOutOp::FStore1 => "fstore_1",
            LeftOutOp::FStore2 => "fstore_2",
            LeftOutOp::FStore3 => "fstore_3",
            LeftOutOp::DStore0 => "dstore_0",
            LeftOutOp::DStore1 => "dstore_1",
            LeftOutOp::DStore2 => "dstore_2",
            LeftOutOp::DStore3 => "dstore_3",
            LeftOutOp::FAStore => "fastore",
            LeftOutOp::DAStore => "dastore",
            LeftOutOp::FAdd => "fadd",
            LeftOutOp::DAdd => "dadd",
            LeftOutOp::FSub => "fsub",
            LeftOutOp::DSub => "dsub",
            LeftOutOp::FMul => "fmul",
            LeftOutOp::DMul => "dmul",
            LeftOutOp::FDiv => "fdiv",
            LeftOutOp::DDiv => "ddiv",
            LeftOutOp::FRem => "frem",
            LeftOutOp::DRem => "drem",
            LeftOutOp::FNeg => "fneg",
            LeftOutOp::DNeg => "dneg",
            LeftOutOp::I2F => "i2f",
            LeftOutOp::I2D => "i2d",
            LeftOutOp::L2F => "l2f",
            LeftOutOp::L2D => "l2d",
            LeftOutOp::F2I => "f2i",
            LeftOutOp::F2L => "f2l",
            LeftOutOp::F2D => "f2d",
            LeftOutOp::D2I => "d2i",
            LeftOutOp::D2L => "d2l",
            LeftOutOp::D2F => "d2f",
            LeftOutOp::FCmpL => "fcmpl",
            LeftOutOp::FCmpG => "fcmpg",
            LeftOutOp::DCmpL => "dcmpl",
            LeftOutOp::DCmpG => "dcmpg",
            LeftOutOp::Jsr => "jsr",
            LeftOutOp::Ret => "ret",
            LeftOutOp::FReturn => "freturn",
            LeftOutOp::DReturn => "dreturn",
            LeftOutOp::InvokeDynamic => "invokedynamic",
            LeftOutOp::JsrW => "jsr_w",
            LeftOutOp::FloatArray => "float",
            LeftOutOp::DoubleArray => "double",
        }
    }
}

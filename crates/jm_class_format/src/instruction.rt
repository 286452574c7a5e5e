// Instructions of a class file (JVMS 6.5): what one names is an index of the constant pool.

use jm_program::{ArrayOp, FieldOp, InvokeOp, MonitorOp, Plain, ReturnOp, TypeOp};

/// An instruction as its bytes spell it: what it names is an index of the constant pool.
#[derive(Drop)]
pub enum IndexedInstr {
    /// Touches one frame alone and names nothing.
    Plain(Plain),
    Array(ArrayOp),
    Return(ReturnOp),
    /// `athrow`.
    Throw,
    Monitor(MonitorOp),
    /// `ldc` and `ldc_w`.
    Constant(u16),
    /// `ldc2_w`.
    LongConstant(u16),
    Field(FieldOp, u16),
    /// `invokevirtual`, `invokespecial` and `invokestatic`.
    Invoke(InvokeOp, u16),
    /// `invokeinterface`: the index, the count of argument slots and the byte after it.
    InvokeInterface(u16, u8, u8),
    /// `new`.
    New(u16),
    Type(TypeOp, u16),
}

/// An instruction of a code, and the offset of its opcode.
#[derive(Drop)]
pub struct PlacedInstr {
    pub offset: u32,
    pub instr: IndexedInstr,
}

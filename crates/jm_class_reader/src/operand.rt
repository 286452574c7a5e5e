// What an instruction names, as its bytes spell it.

ghost use Rattle.std.specs.Prelude.{◌≡◌};

use jm_program::{FieldOp, InvokeOp, TypeOp};

/// An instruction that names an entry of the constant pool, by the entry's index.
#[derive(Clone, Copy, PartialEq, Eq, Hash)]
pub enum Operand {
    /// `ldc` and `ldc_w`.
    Constant(u16),
    Field(FieldOp, u16),
    /// `invokevirtual`, `invokespecial` and `invokestatic`.
    Invoke(InvokeOp, u16),
    /// `invokeinterface`: the index, the count of argument slots and the byte after it.
    InvokeInterface(u16, u8, u8),
    /// `new`.
    New(u16),
    Type(TypeOp, u16),
}

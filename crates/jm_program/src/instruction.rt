//! The instructions (JVMS 6.5), grouped by families. No opcode number stands here; a branch
//! target is the number of an instruction.

mod operation;
mod plain;
mod rules;
mod symbolic;

pub use operation::{
    Arithmetic, ArrayKind, ArrayOp, Bitwise, Branch, Comparison, Conversion, Equality, FieldOp,
    Integral, InvokeOp, MonitorOp, OperandType, PrimitiveType, ReturnOp, Shift, ShortIndex,
    SmallInt, SmallLong, StackOp, TypeOp,
};
pub use plain::{LookupSwitch, Plain, Simple, SwitchPair, TableSwitch};
pub use symbolic::Instr;

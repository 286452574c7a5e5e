// Instructions, with what they name.

ghost use Rattle.std.specs.Prelude.{◌≡◌, IfOk};

use crate::constant::Constant;
use crate::instruction::operation::{ArrayOp, FieldOp, InvokeOp, MonitorOp, ReturnOp, TypeOp};
use crate::instruction::plain::Plain;
use crate::name::Name;
use crate::reference::{ClassRef, FieldRef, MethodRef};
use crate::shared::Shared;
use std::alloc::AllocError;

/// An instruction with its operands, by name.
#[derive(PartialEq, Eq)]
pub enum Instr {
    /// Touches one frame alone and names nothing.
    Plain(Plain),
    Array(ArrayOp),
    Return(ReturnOp),
    /// `athrow`.
    Throw,
    Monitor(MonitorOp),
    /// `ldc` of an int or a string, `ldc2_w` of a long.
    Constant(Constant),
    Field(FieldOp, Shared<FieldRef>),
    Invoke(InvokeOp, Shared<MethodRef>),
    /// `new`.
    New(Shared<Name>),
    Type(TypeOp, Shared<ClassRef>),
}

// Written out, so that whoever lets go of one makes a call (docs/DECISIONS.md).
impl Drop for Instr {
    fn drop(self) {
        match self {
            Instr::Plain(_)
            | Instr::Array(_)
            | Instr::Return(_)
            | Instr::Throw
            | Instr::Monitor(_)
            | Instr::Constant(_)
            | Instr::Field(_, _)
            | Instr::Invoke(_, _)
            | Instr::New(_)
            | Instr::Type(_, _) => {}
        }
    }
}

impl Instr {
    /// The same instruction once more; what it names is shared, and it takes no memory. The error
    /// is that of [`Shared::share`].
    pub fn share(&self) -> Result<Instr, AllocError>
        ensures { IfOk result (λ instr. instr ≡ self.now) }
    {
        match self {
            Instr::Plain(plain) => Ok(Instr::Plain(plain.share()?)),
            Instr::Array(op) => Ok(Instr::Array(*op)),
            Instr::Return(op) => Ok(Instr::Return(*op)),
            Instr::Throw => Ok(Instr::Throw),
            Instr::Monitor(op) => Ok(Instr::Monitor(*op)),
            Instr::Constant(constant) => Ok(Instr::Constant(constant.share()?)),
            Instr::Field(op, field) => Ok(Instr::Field(*op, field.share()?)),
            Instr::Invoke(op, method) => Ok(Instr::Invoke(*op, method.share()?)),
            Instr::New(name) => Ok(Instr::New(name.share()?)),
            Instr::Type(op, class) => Ok(Instr::Type(*op, class.share()?)),
        }
    }
}

// Why bytes are no constant pool.

ghost use Rattle.std.specs.Prelude.{◌≡◌, Some};
ghost use Rattle.jm_class_format.specs.FaultTexts.{code_fault_text, pool_fault_text};

use crate::opcode::LeftOutOp;
use std::alloc::{AllocError, AllocFailed};
use std::error::Error;
use std::fmt;

/// Why bytes are no constant pool.
#[derive(Clone, Copy, PartialEq, Eq)]
pub enum PoolFault {
    /// A tag of no kind of entry that is read.
    BadTag(u8),
    /// An index that names no entry of the kind that its place needs.
    BadIndex(u16),
    /// The bytes of a text are no modified UTF-8.
    BadUtf8,
    /// The bytes end inside the pool or its count.
    Cut,
    /// A growth was refused.
    OutOfMemory,
}

#[tactic(auto, unfolding(crate::specs::FaultTexts::pool_fault_text))]
impl fmt::Display for PoolFault {
    ghost output = { λ fault. Some (pool_fault_text fault) };

    fn fmt<W: fmt::Write>(&self, f: &mut fmt::Formatter<W>) -> fmt::Result {
        match self {
            PoolFault::BadTag(tag) => write!(f, "20 BadTag({tag})"),
            PoolFault::BadIndex(index) => write!(f, "21 BadIndex({index})"),
            PoolFault::BadUtf8 => f.write_str("22 BadUtf8"),
            PoolFault::Cut => f.write_str("24 Cut"),
            PoolFault::OutOfMemory => f.write_str("61 OutOfMemory"),
        }
    }
}

/// As it is displayed.
impl fmt::Debug for PoolFault {
    fn fmt<W: fmt::Write>(&self, f: &mut fmt::Formatter<W>) -> fmt::Result {
        fmt::Display::fmt(self, f)
    }
}

impl Error for PoolFault {}

impl From<jm_bytes::Cut> for PoolFault {
    ghost use Rattle.jm_class_format.specs.declared.fault.PoolFault.TheVariants.{Cut};

    ghost from_gives = { λ _ fault. fault ≡ Cut };

    fn from(_error: jm_bytes::Cut) -> PoolFault {
        PoolFault::Cut
    }
}

impl From<AllocError> for PoolFault {
    ghost use Rattle.jm_class_format.specs.declared.fault.PoolFault.TheVariants.{OutOfMemory};

    ghost from_gives = { λ _ fault. fault ≡ OutOfMemory };

    fn from(_error: AllocError) -> PoolFault {
        PoolFault::OutOfMemory
    }
}

impl<T: Drop> From<AllocFailed<T>> for PoolFault {
    ghost use Rattle.jm_class_format.specs.declared.fault.PoolFault.TheVariants.{OutOfMemory};

    ghost from_gives = { λ _ fault. fault ≡ OutOfMemory };

    fn from(_error: AllocFailed<T>) -> PoolFault {
        PoolFault::OutOfMemory
    }
}

/// Why bytes are no code. An offset is that of the instruction's opcode, or of `wide` before it.
#[derive(Clone, Copy, PartialEq, Eq)]
pub enum CodeFault {
    /// No opcode, or operands that it cannot have: a byte that `wide` cannot stand before, an
    /// element type that `newarray` has not, a range or keys of a switch out of order.
    BadOpcode(u32),
    /// An instruction that the profile leaves out.
    LeftOut(LeftOutOp),
    /// The bytes end inside an instruction, or there are none.
    Cut(u32),
    /// A target at which no instruction begins.
    BadTarget,
    /// A growth was refused.
    OutOfMemory,
}

#[tactic(auto, unfolding(crate::specs::FaultTexts::code_fault_text))]
impl fmt::Display for CodeFault {
    ghost output = { λ fault. Some (code_fault_text fault) };

    fn fmt<W: fmt::Write>(&self, f: &mut fmt::Formatter<W>) -> fmt::Result {
        match self {
            CodeFault::BadOpcode(at) => write!(f, "10 BadOpcode({at})"),
            CodeFault::LeftOut(op) => write!(f, "11 LeftOut({op})"),
            CodeFault::Cut(at) => write!(f, "12 Cut({at})"),
            CodeFault::BadTarget => f.write_str("13 BadTarget"),
            CodeFault::OutOfMemory => f.write_str("61 OutOfMemory"),
        }
    }
}

/// As it is displayed.
impl fmt::Debug for CodeFault {
    fn fmt<W: fmt::Write>(&self, f: &mut fmt::Formatter<W>) -> fmt::Result {
        fmt::Display::fmt(self, f)
    }
}

impl Error for CodeFault {}

impl From<AllocError> for CodeFault {
    ghost use Rattle.jm_class_format.specs.declared.fault.CodeFault.TheVariants.{OutOfMemory};

    ghost from_gives = { λ _ fault. fault ≡ OutOfMemory };

    fn from(_error: AllocError) -> CodeFault {
        CodeFault::OutOfMemory
    }
}

impl<T: Drop> From<AllocFailed<T>> for CodeFault {
    ghost use Rattle.jm_class_format.specs.declared.fault.CodeFault.TheVariants.{OutOfMemory};

    ghost from_gives = { λ _ fault. fault ≡ OutOfMemory };

    fn from(_error: AllocFailed<T>) -> CodeFault {
        CodeFault::OutOfMemory
    }
}

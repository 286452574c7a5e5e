// Why a class has no text.

ghost use Rattle.std.specs.Prelude.{◌≡◌};

use crate::unsaid::Unsaid;
use std::alloc::AllocError;
use std::fmt;
use thiserror::Error;

/// Why a class has no text.
#[derive(Clone, Copy, PartialEq, Eq, Error)]
pub enum DisassemblyFault {
    /// The first part of the class that its text cannot say, in the order of the text.
    #[error("90 NoText({0})")]
    NoText(Unsaid),
    /// A growth was refused.
    #[error("61 OutOfMemory")]
    OutOfMemory,
}

/// As it is displayed.
impl fmt::Debug for DisassemblyFault {
    fn fmt<W: fmt::Write>(&self, f: &mut fmt::Formatter<W>) -> fmt::Result {
        fmt::Display::fmt(self, f)
    }
}

impl From<AllocError> for DisassemblyFault {
    ghost use Rattle.jm_disassembler.specs.declared.fault.DisassemblyFault.TheVariants.{OutOfMemory};

    ghost from_gives = { λ _ fault. fault ≡ OutOfMemory };

    fn from(_error: AllocError) -> DisassemblyFault {
        DisassemblyFault::OutOfMemory
    }
}

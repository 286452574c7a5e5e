// Why a class has no class file.

ghost use Rattle.std.specs.Prelude.{◌≡◌, Some};
ghost use Rattle.jm_class_writer.specs.FaultTexts.{fault_text};

use jm_encode::EncodeFault;
use jm_pool::BuilderFault;
use std::alloc::{AllocError, AllocFailed};
use std::error::Error;
use std::fmt;

/// A limit of the class file that a class passes (JVMS 4.11), or want of memory.
#[derive(Clone, Copy, Debug, PartialEq, Eq)]
pub enum WriteFault {
    /// A displacement that the 16 bits of a branch do not hold.
    BranchTooFar,
    /// A code of more than 65,535 bytes.
    CodeTooLong,
    /// More constants than a pool has indexes.
    PoolFull,
    /// A count, or the bytes of a text, that two bytes cannot say.
    TooMany,
    /// A growth was refused.
    OutOfMemory,
}

#[tactic(auto, unfolding(crate::specs::FaultTexts::fault_text))]
impl fmt::Display for WriteFault {
    ghost output = { λ fault. Some (fault_text fault) };

    fn fmt<W: fmt::Write>(&self, f: &mut fmt::Formatter<W>) -> fmt::Result {
        f.write_str(match self {
            WriteFault::BranchTooFar => "14 BranchTooFar",
            WriteFault::CodeTooLong => "15 CodeTooLong",
            WriteFault::PoolFull => "23 PoolFull",
            WriteFault::TooMany => "36 TooMany",
            WriteFault::OutOfMemory => "61 OutOfMemory",
        })
    }
}

impl Error for WriteFault {}

impl From<AllocError> for WriteFault {
    ghost use Rattle.jm_class_writer.specs.declared.fault.WriteFault.TheVariants.{OutOfMemory};

    ghost from_gives = { λ _ fault. fault ≡ OutOfMemory };

    fn from(_error: AllocError) -> WriteFault {
        WriteFault::OutOfMemory
    }
}

impl<T: Drop> From<AllocFailed<T>> for WriteFault {
    ghost use Rattle.jm_class_writer.specs.declared.fault.WriteFault.TheVariants.{OutOfMemory};

    ghost from_gives = { λ _ fault. fault ≡ OutOfMemory };

    fn from(_error: AllocFailed<T>) -> WriteFault {
        WriteFault::OutOfMemory
    }
}

impl From<BuilderFault> for WriteFault {
    ghost use Rattle.jm_class_writer.specs.Faults.{of_builder};

    ghost from_gives = { λ error fault. fault ≡ of_builder error };

    fn from(error: BuilderFault) -> WriteFault {
        match error {
            BuilderFault::PoolFull => WriteFault::PoolFull,
            BuilderFault::TooMany => WriteFault::TooMany,
            BuilderFault::OutOfMemory => WriteFault::OutOfMemory,
        }
    }
}

impl From<EncodeFault> for WriteFault {
    ghost use Rattle.jm_class_writer.specs.Faults.{of_encode};

    ghost from_gives = { λ error fault. fault ≡ of_encode error };

    fn from(error: EncodeFault) -> WriteFault {
        match error {
            EncodeFault::BadTarget | EncodeFault::BranchTooFar => WriteFault::BranchTooFar,
            EncodeFault::CodeTooLong => WriteFault::CodeTooLong,
            EncodeFault::OutOfMemory => WriteFault::OutOfMemory,
        }
    }
}

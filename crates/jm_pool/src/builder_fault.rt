// Why a constant has no index in a pool that is built.

ghost use Rattle.std.specs.Prelude.{◌≡◌};

use std::alloc::{AllocError, AllocFailed};
use std::error::Error;
use std::fmt;

/// Why a constant has no index in a pool that is built.
#[derive(Clone, Copy, Debug, PartialEq, Eq)]
pub enum BuilderFault {
    /// The pool has no room for its entry: constant_pool_count would pass 65,535 (JVMS 4.1).
    PoolFull,
    /// A text of more than 65,535 bytes (JVMS 4.4.7).
    TooMany,
    /// A growth was refused.
    OutOfMemory,
}

impl fmt::Display for BuilderFault {
    fn fmt<W: fmt::Write>(&self, f: &mut fmt::Formatter<W>) -> fmt::Result {
        match self {
            BuilderFault::PoolFull => f.write_str("23 PoolFull"),
            BuilderFault::TooMany => f.write_str("36 TooMany"),
            BuilderFault::OutOfMemory => f.write_str("61 OutOfMemory"),
        }
    }
}

impl Error for BuilderFault {}

impl From<AllocError> for BuilderFault {
    ghost use Rattle.jm_pool.specs.declared.builder_fault.BuilderFault.TheVariants.{OutOfMemory};

    ghost from_gives = { λ _ fault. fault ≡ OutOfMemory };

    fn from(_error: AllocError) -> BuilderFault {
        BuilderFault::OutOfMemory
    }
}

impl<T: Drop> From<AllocFailed<T>> for BuilderFault {
    ghost use Rattle.jm_pool.specs.declared.builder_fault.BuilderFault.TheVariants.{OutOfMemory};

    ghost from_gives = { λ _ fault. fault ≡ OutOfMemory };

    fn from(_error: AllocFailed<T>) -> BuilderFault {
        BuilderFault::OutOfMemory
    }
}

// Why no object was made.

ghost use Rattle.std.specs.Prelude.{◌≡◌};

use std::alloc::AllocError;
use thiserror::Error;

/// Why a heap made no object.
#[derive(Clone, Copy, Debug, PartialEq, Eq, Error)]
pub enum HeapFault {
    /// A growth was refused.
    #[error("61 OutOfMemory")]
    OutOfMemory,
    /// The cells of what is reachable and those of the object pass the limit.
    #[error("62 HeapFull")]
    HeapFull,
    /// There have been 2^63 objects.
    #[error("64 SerialsEnd")]
    SerialsEnd,
}

impl From<AllocError> for HeapFault {
    ghost use Rattle.jm_heap.specs.declared.fault.HeapFault.TheVariants.{OutOfMemory};

    ghost from_gives = { λ _ fault. fault ≡ OutOfMemory };

    fn from(_error: AllocError) -> HeapFault {
        HeapFault::OutOfMemory
    }
}

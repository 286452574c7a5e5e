// Why the machine refuses.

ghost use Rattle.std.specs.Prelude.{◌≡◌};

use std::alloc::AllocError;
use thiserror::Error;

/// A growth was refused: the event was not made, and may be tried again.
#[derive(Clone, Copy, Debug, PartialEq, Eq, Drop, Error)]
#[error("61 OutOfMemory")]
pub struct OutOfMemory;

impl From<AllocError> for OutOfMemory {
    ghost from_gives = { λ _ _. Unit {0} };

    fn from(_error: AllocError) -> OutOfMemory {
        OutOfMemory
    }
}

/// A growth was refused in a run of events.
#[derive(Clone, Copy, Debug, PartialEq, Eq, Drop, Error)]
#[error("61 OutOfMemory")]
pub struct Interrupted {
    /// How many events were made before.
    pub made: usize,
}

/// Why a program was not loaded.
#[derive(Clone, Copy, Debug, PartialEq, Eq, Drop, Error)]
pub enum LoadFault {
    /// A growth was refused, or a literal has 2^32 code units or more, which no array has.
    #[error("61 OutOfMemory")]
    OutOfMemory,
    /// The first objects, those of the literals among them, pass the heap's limit.
    #[error("63 HeapTooSmall")]
    HeapTooSmall,
}

impl From<AllocError> for LoadFault {
    ghost use Rattle.jm_machine.specs.declared.fault.LoadFault.TheVariants.{OutOfMemory};

    ghost from_gives = { λ _ fault. fault ≡ OutOfMemory };

    fn from(_error: AllocError) -> LoadFault {
        LoadFault::OutOfMemory
    }
}

// Why bytes are no schedule.

ghost use Rattle.std.specs.Prelude.{◌≡◌};

use std::alloc::{AllocError, AllocFailed};
use thiserror::Error;

/// Why bytes give no schedule.
#[derive(Clone, Copy, Debug, PartialEq, Eq, Error)]
pub enum ScheduleFault {
    /// The line of this number, counted from 1, is strange, or the events pass the limit at it.
    #[error("70 BadSchedule({0})")]
    BadSchedule(u64),
    /// A growth was refused.
    #[error("61 OutOfMemory")]
    OutOfMemory,
}

impl<T: Drop> From<AllocFailed<T>> for ScheduleFault {
    ghost use Rattle.jm_schedule.specs.declared.fault.ScheduleFault.TheVariants.{OutOfMemory};

    ghost from_gives = { λ _ fault. fault ≡ OutOfMemory };

    fn from(_error: AllocFailed<T>) -> ScheduleFault {
        ScheduleFault::OutOfMemory
    }
}

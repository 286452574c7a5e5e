// Why words give no options, and the status that says so.

ghost use Rattle.std.specs.Prelude.{◌≡◌};
ghost use Rattle.jm_options.specs.Asked.{status_of};

use std::alloc::AllocError;
use thiserror::Error;

/// Why words give no options.
#[derive(Debug, Drop, Error)]
pub enum UsageFault {
    /// The words are refused, or ask for help: a text for the user.
    #[error("{0}")]
    Usage(String),
    /// A growth was refused.
    #[error("61 OutOfMemory")]
    OutOfMemory,
}

impl UsageFault {
    /// The status that the program ends with: 1 for refused words, 7 for want of memory.
    pub fn status(&self) -> u8
        ensures { result ≡ status_of self.now }
    {
        match self {
            UsageFault::Usage(_) => 1,
            UsageFault::OutOfMemory => 7,
        }
    }
}

impl From<AllocError> for UsageFault {
    ghost use Rattle.jm_options.specs.declared.fault.UsageFault.TheVariants.{OutOfMemory};

    ghost from_gives = { λ _ fault. fault ≡ OutOfMemory };

    fn from(_error: AllocError) -> UsageFault {
        UsageFault::OutOfMemory
    }
}

// Why a text is no descriptor.

ghost use Rattle.std.specs.Prelude.{◌≡◌};

use std::alloc::{AllocError, AllocFailed};
use thiserror::Error;

/// Why a text is no descriptor.
#[derive(Clone, Copy, Debug, PartialEq, Eq, Error)]
pub enum DescriptorFault {
    /// The shape is wrong: no `;`, a letter that is no type, two return types, more than 255
    /// argument slots or dimensions, or something after the type.
    #[error("1 BadDescriptor")]
    BadDescriptor,
    /// The shape is right around a name that is not the name of a class.
    #[error("2 BadName")]
    BadName,
    /// A growth was refused.
    #[error("61 OutOfMemory")]
    OutOfMemory,
}

impl From<AllocError> for DescriptorFault {
    ghost use Rattle.jm_program.specs.declared.fault.DescriptorFault.TheVariants.{OutOfMemory};

    ghost from_gives = { λ _ fault. fault ≡ OutOfMemory };

    fn from(_error: AllocError) -> DescriptorFault {
        DescriptorFault::OutOfMemory
    }
}

impl<T: Drop> From<AllocFailed<T>> for DescriptorFault {
    ghost use Rattle.jm_program.specs.declared.fault.DescriptorFault.TheVariants.{OutOfMemory};

    ghost from_gives = { λ _ fault. fault ≡ OutOfMemory };

    fn from(_error: AllocFailed<T>) -> DescriptorFault {
        DescriptorFault::OutOfMemory
    }
}

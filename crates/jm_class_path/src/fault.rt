// Why the files of a program are not known.

ghost use Rattle.std.specs.Prelude.{◌≡◌};

use jm_program::Name;
use std::alloc::AllocError;

/// Why the files of a program are not known.
#[derive(Drop)]
pub enum ProgramFault {
    /// The main class is named so, no file that was given or found holds it, and each holds a class.
    NoMain(Name),
    /// A growth was refused.
    OutOfMemory,
}

impl From<AllocError> for ProgramFault {
    ghost use Rattle.jm_class_path.specs.declared.fault.ProgramFault.TheVariants.{OutOfMemory};

    ghost from_gives = { λ _ fault. fault ≡ OutOfMemory };

    fn from(_error: AllocError) -> ProgramFault {
        ProgramFault::OutOfMemory
    }
}

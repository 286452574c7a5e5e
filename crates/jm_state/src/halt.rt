// What comes of a step.

ghost use Rattle.std.specs.Prelude.{◌≡◌};

use jm_world::Stop;
use std::alloc::AllocError;

/// What a step of a thread came to.
#[derive(Clone, Copy)]
pub enum StepEnd {
    Done,
    /// Another thread holds what is needed; nothing changed.
    Blocked,
}

/// Why a step was not made.
#[derive(Clone, Copy, Drop)]
pub enum Halt {
    /// The machine stops: nothing else has changed.
    Stopped(Stop),
    /// A growth was refused: nothing has changed.
    OutOfMemory,
}

impl From<AllocError> for Halt {
    ghost use Rattle.jm_state.specs.declared.halt.Halt.TheVariants.{OutOfMemory};

    ghost from_gives = { λ _ halt. halt ≡ OutOfMemory };

    fn from(_error: AllocError) -> Halt {
        Halt::OutOfMemory
    }
}

// Why a search was not finished.

ghost use Rattle.std.specs.Prelude.{◌≡◌};
ghost use Rattle.jm_explore.specs.declared.unfinished.Unfinished.TheVariants as unfinished;

use jm_machine::OutOfMemory;

/// Why not all schedules were tried.
#[derive(Clone, Copy, PartialEq, Eq, Drop)]
pub enum Unfinished {
    /// As many runs were made as may be.
    RunsEnd,
    /// A growth was refused.
    OutOfMemory,
    /// The first objects pass the limit of the heaps.
    HeapTooSmall,
}

impl From<OutOfMemory> for Unfinished {
    ghost from_gives = { λ _ why. why ≡ unfinished.OutOfMemory };

    fn from(_fault: OutOfMemory) -> Unfinished {
        Unfinished::OutOfMemory
    }
}

//! What a finished scan is, as the contract of a function that does nothing.

ghost use Rattle.std.specs.Prelude.{ℕ, Option};
ghost use Rattle.jm_blocks.specs.Objects.{Object};
ghost use Rattle.jm_copy.specs.Copying.{FinishedIsImage, Progress};

/// With all values of the new objects forwarded, and all roots, the new objects are the image of the
/// condemned ones, under the map of what was won.
pub fn a_finished_scan_is_an_image()
    ensures { (old new : ℕ → Option Object) (moved : ℕ → Option ℕ) (done : Progress) → FinishedIsImage old new moved done }
{}

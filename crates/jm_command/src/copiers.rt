// Copiers, by a number of the command line.

ghost use Rattle.std.specs.Prelude.{◌≡◌, ◌≤◌};

use jm_job::{Copiers, so_many_copiers};

// So many copiers.
pub fn copiers(count: u32) -> Copiers
    requires some { 1 ≤ count }
    requires few { count ≤ 16 }
    ensures { result.count ≡ count }
{
    so_many_copiers(count as u8)
}

// The table of a shared machine's seats.

use crate::origin::Origin;
use std::marker::Brand;

/// Names the table of a shared machine's seats and how many they are, beside the world in which
/// its journal begins, for contracts alone. Whoever makes a shared machine is generic in it, and
/// its caller picks the three by passing [`Brand`].
pub trait Sharing: Origin {
    ghost use Rattle.atomic_table.specs.Seated.{TableId};
    ghost use Rattle.std.specs.Prelude.{ℕ};

    ghost table: { TableId };

    ghost seats: { ℕ };
}

impl Sharing for Brand {
    ghost use Rattle.jm_shared.specs.SeatRule.{no_table};

    ghost table = { no_table };

    ghost seats = { 0 };
}

// The world in which a journal begins.

ghost use Rattle.std.specs.Prelude.{[]};

use std::marker::Brand;

/// Names the world in which a journal begins, for contracts alone. Whoever makes a journal is
/// generic in its origin, and its caller picks the world by passing [`Brand`].
pub trait Origin {
    ghost use Rattle.jm_world.specs.World.{World};

    ghost first: { World };
}

impl Origin for Brand {
    ghost use Rattle.jm_world.specs.Loading.{loaded_world};

    ghost first = { loaded_world [] 0 };
}

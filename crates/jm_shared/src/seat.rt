// What a worker makes turns with.

ghost use Rattle.std.specs.Prelude.{◌≡◌, ◌<◌};

use crate::rule::{Note, View};
use crate::sharing::Sharing;
use std::marker::{Model, PhantomData};

/// What a worker makes turns with. Contracts see its number and the receipts of its turns, in
/// order; the world in which they begin is that of its [`Sharing`].
#[derive(Drop)]
pub struct Seat<S: Sharing> {
    pub(crate) number: u8,
    pub(crate) token: atomic_table::Seat<Note, View>,
    pub(crate) sharing: PhantomData<S>,
}

impl<S: Sharing> Model for Seat<S> {
    ghost use Rattle.std.specs.Prelude.{◌≡◌, ◌<◌};
    ghost use Rattle.jm_shared.specs.declared.rule.Hand.{Hand};
    ghost use Rattle.jm_shared.specs.Seats.{IsToken, its_hand};

    ghost Value = { Hand };

    ghost view = { λ s. its_hand s.token.me };

    ghost invariant = { λ s. (s.token.table_id ≡ S.table) × IsToken s.token.me × (s.number ≡ (its_hand s.token.me).number) × (s.number < S.seats) };
}

impl<S: Sharing> Seat<S> {
    /// The number of the seat, from 0.
    pub fn number(&self) -> u8
        ensures number { result ≡ self.now.number }
        ensures below { result < S.seats }
    {
        self.number
    }
}

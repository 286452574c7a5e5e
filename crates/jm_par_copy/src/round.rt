// What the calls of a round are given: what all copiers read, and what one of them claims and copies with.

ghost use Rattle.jm_copy.specs.Copies.{IsSource};

use crate::owner::CopierBlocks;
use jm_copy::{Copies, Source};
use jm_forward::{Forwarding, Seat};

/// What all copiers of a collection read: what is copied from, the forwarding words, and the gate that each passes before
/// its claims.
#[derive(Drop)]
pub struct Round<'a, G> {
    pub from: Source<'a>,
    pub words: &'a Forwarding<CopierBlocks>,
    pub gate: &'a G,
    ghost source: { IsSource from.stores.now from.numbers.now },
}

/// What one copier claims and copies with: its number, how many claims it has made, its seat, and its own two stores.
#[derive(Drop)]
pub struct Own {
    pub number: usize,
    pub claims: u64,
    pub seat: Seat,
    pub to: Copies,
}

// A copier forwards its share of places.

ghost use Rattle.std.specs.Prelude.{◌≡◌, ◌<◌, ◌≤◌, List, [], OnOk};
ghost use Rattle.jm_par_copy.specs.Notes.{KeepsListed};
ghost use Rattle.jm_par_copy.specs.Roots.{AreRootsOf};
ghost use Rattle.jm_par_copy.specs.Claiming.{KeepsClaiming};
ghost use Rattle.jm_par_copy.specs.Steps.{AllReach, CanForward, IsAtWork, Learns, WorksOn};

use crate::gate::Gate;
use crate::round::{Own, Round};
use crate::step::forward;
use jm_values::Place;
use std::alloc::{AllocError, Global};

/// The new places of a copier's share of a list of places that are reached, in order: of those whose position is its number
/// modulo the number of copiers.
pub fn forward_share<G: Gate>(
    alloc: Global,
    round: &Round<'_, G>,
    own: &mut Own,
    all: &[Place],
    places: &mut Vec<Place>,
) -> Result<(), AllocError>
    requires claims { CanForward round.now own.old }
    requires number { (own.old.number < round.now.words.now.copiers) × (round.now.words.now.copiers ≤ 16) }
    requires working { IsAtWork round.now (λ done. done) own.old }
    requires reach { AllReach round.now all.now }
    requires none { places.old.items ≡ [] }
    ensures share { OnOk result (AreRootsOf round.now.from.stores.now all.now own.new.seat.hand.known own.old.number round.now.words.now.copiers places.new.items) }
    ensures working { OnOk result (WorksOn round.now own.old own.new) }
    ensures listed { OnOk result (KeepsListed own.old.to own.new.to) }
    ensures learns { OnOk result (Learns own.old own.new) }
    ensures on { KeepsClaiming own.old own.new }
{
    let copiers = round.words.copiers();
    let mut position = own.number;
    while position < all.len() {
        let place = forward(alloc, round, own, all[position])?;
        places.push(place)?;
        position += copiers;
    }
    Ok(())
}

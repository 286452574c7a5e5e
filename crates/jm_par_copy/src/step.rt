// One object is copied, unless another copier has.

ghost use Rattle.std.specs.Prelude.{ℕ, ◌<◌, IfOk, OnOk};
ghost use Rattle.jm_copy.specs.Numbers.{object_count};
ghost use Rattle.jm_par_copy.specs.Claiming.{KeepsClaiming};
ghost use Rattle.jm_par_copy.specs.Steps.{Becomes, CanForward, IsAtWork, IsFound, KeepsMade, Learns, ReachesIfThere, WorksOn};

use crate::gate::Gate;
use crate::round::{Own, Round};
use crate::store::{close_large, fill, reserve};
use jm_blocks::Block;
use jm_copy::{find, number};
use jm_values::Place;
use std::alloc::{AllocError, Global};

// Claims the condemned object of a number, of which it is known where it lies, with a place that is reserved among the
// copier's own, and copies it if the claim won; else the reservation is given up. It stands apart from `forward`, which is
// small without it.
#[inline(never)]
fn claim_and_copy<G: Gate>(
    alloc: Global,
    round: &Round<'_, G>,
    own: &mut Own,
    block: &Block,
    index: usize,
    number: usize,
) -> Result<Place, AllocError>
    requires claims { CanForward round.now own.old }
    requires working { IsAtWork round.now (λ done. done) own.old }
    requires found { (p : ℕ) × IsFound round.now block.now index number p }
    requires number { number < object_count round.now.from.stores.now }
    ensures forwarded { IfOk result (λ q. (p : ℕ) → IsFound round.now block.now index number p → Becomes round.now own.new p q) }
    ensures working { OnOk result (WorksOn round.now own.old own.new) }
    ensures learns { OnOk result (Learns own.old own.new) }
    ensures keeps { OnOk result (KeepsMade own.old own.new) }
    ensures on { KeepsClaiming own.old own.new }
{
    let reserved = reserve(alloc, &mut own.to, round.words.copiers(), block, index)?;
    round.gate.at_claim(own.number, own.claims);
    own.claims = own.claims.wrapping_add(1);
    let offered = reserved.place;
    let won = round.words.claim(&mut own.seat, number, offered);
    if won.number() != offered.number() {
        return Ok(won);
    }
    let (survival, cells) = (reserved.survival, reserved.cells);
    fill(&mut own.to, block, index, reserved)?;
    close_large(alloc, &mut own.to, round.words.copiers(), survival, cells)?;
    Ok(won)
}

/// The new place of the object at a place: the one that it was claimed with. Where nobody has
/// claimed it, it is claimed with a place that is reserved among the copier's own, and copied if the
/// claim won; else the reservation is given up.
#[inline]
pub fn forward<G: Gate>(
    alloc: Global,
    round: &Round<'_, G>,
    own: &mut Own,
    place: Place,
) -> Result<Place, AllocError>
    requires claims { CanForward round.now own.old }
    requires working { IsAtWork round.now (λ done. done) own.old }
    requires reached { ReachesIfThere round.now place }
    ensures forwarded { IfOk result (λ q. Becomes round.now own.new place q) }
    ensures working { OnOk result (WorksOn round.now own.old own.new) }
    ensures learns { OnOk result (Learns own.old own.new) }
    ensures keeps { OnOk result (KeepsMade own.old own.new) }
    ensures on { KeepsClaiming own.old own.new }
{
    let from = &round.from;
    let Some((block, index)) = find(from.stores, place) else {
        return Ok(place);
    };
    let number = number(from.stores, from.numbers, place);
    if let Some(known) = round.words.look(&mut own.seat, number) {
        return Ok(known);
    }
    claim_and_copy(alloc, round, own, block, index, number)
}

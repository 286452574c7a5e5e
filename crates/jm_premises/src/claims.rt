// Two copiers at the forwarding word of one object.

ghost use Rattle.std.specs.Prelude.{◌≡◌, ◌<◌, ◌%◌, []};

use jm_forward::{Forwarding, Ownership, Place, Seat};
use std::alloc::{AllocError, Global};

// Of n copiers the one of number c has the places that are c modulo n.
struct ByNumber;

impl Ownership for ByNumber {
    ghost use Rattle.std.specs.Prelude.{◌%◌};

    ghost owner = { λ copiers place. place % copiers };
}

// The place of the object after a copier has looked, and has claimed it with a place of its own where nobody had before.
fn look_or_claim(words: &Forwarding<ByNumber>, seat: &mut Seat, place: Place) -> Place
    requires table { seat.old.table ≡ words.now.table }
    requires object { 0 < words.now.objects }
    requires own { place % words.now.copiers ≡ seat.old.hand.copier }
    requires none { seat.old.hand.wins ≡ [] }
    ensures { seat.new.table ≡ seat.old.table }
{
    match words.look(seat, 0) {
        Some(found) => found,
        None => words.claim(seat, 0, place),
    }
}

/// What each of two copiers takes for the place of the object, one after the other; then they meet.
pub fn claim_by_two(alloc: Global) -> Result<(u64, u64), AllocError> {
    let (words, mut seats) = Forwarding::new(alloc, 1, 2)?;
    let first = look_or_claim(&words, &mut seats[0], Place::new(2));
    let second = look_or_claim(&words, &mut seats[1], Place::new(3));
    let _seats = words.meet(seats);
    Ok((first.number(), second.number()))
}

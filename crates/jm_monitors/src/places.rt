// The places of the objects of held monitors.

ghost use Rattle.std.specs.Prelude.{◌≡◌, drop, map};
ghost use Rattle.std.specs.Iterator.{YieldsFirst, item_count};
ghost use Rattle.std.specs.Slice.Iter.{iter_rest};
ghost use Rattle.jm_monitors.specs.Entries.{moved_to};

use crate::held::Held;
use jm_values::Place;
use std::collections::btree_map::Values;
use std::marker::Model;
use std::slice::Iter;

/// The places of the objects of held monitors, in the order of their serials, as far as they are
/// left.
#[derive(Drop)]
pub struct Places<'a> {
    held: Values<'a, u64, Held>,
}

impl<'a> Model for Places<'a> {
    ghost use Rattle.std.specs.Prelude.{ℕ, List, map};

    ghost Value = { List ℕ };

    ghost view = { λ p. map (λ h. h.place) p.held };
}

impl<'a> Places<'a> {
    pub(crate) fn new(held: Values<'a, u64, Held>) -> Places<'a>
        ensures { result ≡ map (λ h. h.place) held.entry }
    {
        Places { held }
    }
}

impl<'a> Iterator for Places<'a> {
    type Item = Place;

    ghost next_gives = { YieldsFirst (λ s. s) };

    ghost remaining = { item_count (λ s. s) };

    fn next(&mut self) -> Option<Place> {
        match self.held.next() {
            Some(held) => Some(held.place),
            None => None,
        }
    }
}

// Puts the next place where the object lies; where there is none, it stays.
pub(crate) fn put_next(held: &mut Held, places: &mut Iter<'_, Place>)
    ensures held { held.new ≡ moved_to (iter_rest places.old) held.old }
    ensures left { iter_rest places.new ≡ drop 1 (iter_rest places.old) }
{
    if let Some(place) = places.next() {
        held.place = *place;
    }
}

// The places beyond so many.
pub(crate) fn beyond(places: &[Place], count: usize) -> &[Place]
    ensures { result.now ≡ drop count places.now }
{
    if count < places.len() {
        &places[count..]
    } else {
        &places[places.len()..]
    }
}

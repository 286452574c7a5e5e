// The forwarding words of a collection by one thread.

ghost use Rattle.std.specs.Prelude.{◌≡◌, ◌<◌, length, replicate, slice_index, slice_set, IfOk};
ghost use Rattle.jm_copy.specs.Words.{place_of};

use jm_values::Place;
use std::alloc::{AllocError, Global};
use std::marker::Model;

/// A word for each condemned object, by its number: 0, or the place to which it was copied.
#[derive(Drop)]
pub struct Words {
    words: Vec<u64>,
}

impl Model for Words {
    ghost use Rattle.std.specs.Prelude.{ℕ, List, ◌<◌, ◌^◌, slice_index};

    ghost Value = { List ℕ };

    ghost view = { λ w. w.words.items };

    ghost invariant = { λ w. (i : ℕ) → slice_index w.words.items i < 2 ^ 63 };
}

impl Words {
    /// So many words, none of them set.
    pub fn new(alloc: Global, count: usize) -> Result<Words, AllocError>
        ensures { IfOk result (λ words. words ≡ replicate count 0) }
    {
        Ok(Words {
            words: vec![in alloc; 0u64; count]?,
        })
    }

    /// The place in the word of this number, or None where it was not set.
    #[inline]
    pub fn get(&self, number: usize) -> Option<Place>
        requires { number < length self.now }
        ensures { result ≡ place_of (slice_index self.now number) }
    {
        let word = self.words[number];
        if word == 0 {
            return None;
        }
        Some(Place::new(word))
    }

    /// Puts a place into the word of this number.
    #[inline]
    pub fn set(&mut self, number: usize, place: Place)
        requires { number < length self.old }
        ensures value { self.new ≡ slice_set self.old number place }
        ensures some { 0 < place }
    {
        self.words[number] = place.number();
    }
}

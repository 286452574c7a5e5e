// The places that a machine holds.

ghost use Rattle.std.specs.Prelude.{◌≡◌, ◌<◌, ◌++◌, ◌∷◌, [], length, slice_get, slice_set, Some, OnOk, OnErr};

use jm_values::Place;
use std::alloc::{AllocError, Global};
use std::marker::Model;

/// The list of all places that a machine holds: gathered before a collection, moved with the
/// objects by it, and written back after it.
pub struct Roots {
    places: Vec<Place>,
}

// Written out, so that whoever lets go of one makes a call (docs/DECISIONS.md).
impl Drop for Roots {
    fn drop(self) {
        let Roots { places: _ } = self;
    }
}

impl Model for Roots {
    ghost use Rattle.std.specs.Prelude.{ℕ, List};

    ghost Value = { List ℕ };

    ghost view = { λ r. r.places.items };
}

impl Roots {
    /// No roots.
    pub fn new(alloc: Global) -> Roots
        ensures { result ≡ [] }
    {
        Roots {
            places: Vec::new(alloc),
        }
    }

    /// How many roots there are.
    pub fn len(&self) -> usize
        ensures { result ≡ length self.now }
    {
        self.places.len()
    }

    /// The root of this number.
    pub fn get(&self, index: usize) -> Place
        requires { index < length self.now }
        ensures { slice_get self.now index ≡ Some result }
    {
        self.places[index]
    }

    /// The roots, in order.
    pub fn as_slice(&self) -> &[Place]
        ensures { result.now ≡ self.now }
    {
        self.places.as_slice()
    }

    /// Puts a place where the root of this number was.
    pub fn set(&mut self, index: usize, place: Place)
        requires { index < length self.old }
        ensures { self.new ≡ slice_set self.old index place }
    {
        self.places[index] = place;
    }

    /// Adds a root at the end; where a growth is refused, the roots stay as they were.
    pub fn push(&mut self, place: Place) -> Result<(), AllocError>
        ensures ok { OnOk result (self.new ≡ self.old ++ place ∷ []) }
        ensures err { OnErr result (self.new ≡ self.old) }
    {
        self.places.push(place)?;
        Ok(())
    }

    /// Takes all roots away, and keeps their memory.
    pub fn clear(&mut self)
        ensures { self.new ≡ [] }
    {
        self.places.clear();
    }
}

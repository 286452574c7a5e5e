// The marks of the objects of a lane.

ghost use Rattle.std.specs.Prelude.{◌≡◌, ℕ, ◌+◌, ◌<◌, ◌^◌, [], false, length, slice_index_or, slice_set, OnOk, OnErr};

use std::alloc::{AllocError, Global};
use std::marker::Model;

/// A mark for each object of a lane, by its number there. One past the end is off.
#[derive(Drop)]
pub struct Marks {
    marks: Vec<bool>,
}

impl Model for Marks {
    ghost use Rattle.std.specs.Prelude.{List, Bool};

    ghost Value = { List Bool };

    ghost view = { λ m. m.marks.items };
}

impl Marks {
    /// No marks.
    pub fn new(alloc: Global) -> Marks
        ensures { result ≡ [] }
    {
        Marks {
            marks: Vec::new(alloc),
        }
    }

    /// Whether the mark of this number is on.
    #[inline]
    pub fn is_on(&self, number: usize) -> bool
        ensures { result ≡ slice_index_or self.now number false }
    {
        if number >= self.marks.len() {
            return false;
        }
        self.marks[number]
    }

    /// Makes room for the mark of this number: no mark changes.
    pub fn make_room(&mut self, alloc: Global, number: usize) -> Result<(), AllocError>
        requires { number < 2 ^ 60 }
        ensures same { (k : ℕ) → slice_index_or self.new k false ≡ slice_index_or self.old k false }
        ensures ok { OnOk result (number < length self.new) }
        ensures err { OnErr result (self.new ≡ self.old) }
    {
        let count = self.marks.len();
        if number < count {
            return Ok(());
        }
        let off = vec![in alloc; false; number - count + 1]?;
        self.marks.extend_from_slice(&off)
    }

    /// Puts the mark of this number on or off.
    #[inline]
    pub fn put(&mut self, number: usize, on: bool)
        requires { number < length self.old }
        ensures { self.new ≡ slice_set self.old number on }
    {
        self.marks[number] = on;
    }
}

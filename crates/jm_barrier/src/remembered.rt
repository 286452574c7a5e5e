// The set of old objects that may point to young ones.

ghost use Rattle.std.specs.Prelude.{◌≡◌, ◌<◌, ◌^◌, ◌++◌, ◌∷◌, length, [], IfOk, IsOk, OnOk, OnErr, IsTrue, true, false};
ghost use Rattle.jm_values.specs.Reach.{AllDistinct, is_among};
ghost use Rattle.jm_barrier.specs.Marks.{is_marked, number_of, SameMarks, HasRoom, IsMarked, AreUnmarked, AreBare};
ghost use Rattle.jm_barrier.specs.Remembered.{noted};

use crate::marks::Marks;
use jm_blocks::Position;
use jm_values::Place;
use std::alloc::{AllocError, Global};
use std::marker::Model;
use std::mem;

/// How many lanes there are.
const LANES: usize = 64;

/// How many objects of a block have a number.
const OBJECTS: usize = 256;

// The object's number among those of its lane.
#[inline]
fn number_in_lane(position: Position) -> usize
    requires block { position.block < 2 ^ 49 }
    requires index { position.index < 256 }
    ensures { result ≡ number_of position.block position.index }
{
    position.block * OBJECTS + position.index
}

// Whether a place is marked.
#[inline]
fn is_marked(lanes: &Vec<Marks>, place: Place) -> bool
    requires { length lanes.now.items ≡ 64 }
    ensures { result ≡ is_marked lanes.now.items place }
{
    let position = Position::of(place);
    let marks = &lanes[position.lane as usize];
    marks.is_on(number_in_lane(position))
}

// Makes room for the mark of a place: no mark changes.
fn make_room(lanes: &mut Vec<Marks>, alloc: Global, place: Place) -> Result<(), AllocError>
    requires { length lanes.old.items ≡ 64 }
    ensures lanes { length lanes.new.items ≡ 64 }
    ensures same { SameMarks lanes.old.items lanes.new.items }
    ensures ok { OnOk result (HasRoom lanes.new.items place) }
{
    let position = Position::of(place);
    let marks = &mut lanes[position.lane as usize];
    marks.make_room(alloc, number_in_lane(position))
}

// Marks a place.
fn mark(lanes: &mut Vec<Marks>, place: Place)
    requires lanes { length lanes.old.items ≡ 64 }
    requires room { HasRoom lanes.old.items place }
    ensures { IsMarked lanes.old.items lanes.new.items place true }
{
    let position = Position::of(place);
    let marks = &mut lanes[position.lane as usize];
    marks.put(number_in_lane(position), true);
}

// Takes the mark of a place away.
fn unmark(lanes: &mut Vec<Marks>, place: Place)
    requires { length lanes.old.items ≡ 64 }
    ensures { IsMarked lanes.old.items lanes.new.items place false }
{
    let position = Position::of(place);
    let number = number_in_lane(position);
    let marks = &mut lanes[position.lane as usize];
    if marks.is_on(number) {
        marks.put(number, false);
    }
}

// Takes the marks of places away.
fn unmark_all(lanes: &mut Vec<Marks>, places: &[Place])
    requires { length lanes.old.items ≡ 64 }
    ensures { AreUnmarked lanes.old.items lanes.new.items places.now }
{
    for place in places {
        unmark(lanes, *place);
    }
}

// Lanes without marks.
fn no_marks(alloc: Global) -> Result<Vec<Marks>, AllocError>
    ensures { IfOk result (λ lanes. AreBare lanes.items) }
{
    let mut lanes = Vec::with_capacity(alloc, LANES)?;
    for _lane in 0..LANES {
        lanes.push(Marks::new(alloc))?;
    }
    Ok(lanes)
}

/// A set of places of old objects, in the order in which they were noted first.
pub struct Remembered {
    alloc: Global,
    lanes: Vec<Marks>,
    places: Vec<Place>,
}

// Written out, so that whoever lets go of one makes a call (docs/DECISIONS.md).
impl Drop for Remembered {
    fn drop(self) {
        let Remembered {
            alloc: _,
            lanes: _,
            places: _,
        } = self;
    }
}

impl Model for Remembered {
    ghost use Rattle.std.specs.Prelude.{ℕ, List};

    ghost Value = { List ℕ };

    ghost use Rattle.jm_barrier.specs.Marks.{IsRemembered};

    ghost view = { λ r. r.places.items };

    ghost invariant = { λ r. IsRemembered r.lanes.items r.places.items };
}

impl Remembered {
    /// No places.
    pub fn new(alloc: Global) -> Result<Remembered, AllocError>
        ensures { IfOk result (λ remembered. remembered ≡ []) }
    {
        Ok(Remembered {
            alloc,
            lanes: no_marks(alloc)?,
            places: Vec::new(alloc),
        })
    }

    /// Adds a place, unless it is there already: then no memory is taken. A growth that is refused
    /// changes nothing.
    #[inline(always)]
    pub fn note(&mut self, place: Place) -> Result<(), AllocError>
        ensures ok { OnOk result (self.new ≡ noted self.old place) }
        ensures again { IsTrue (is_among place self.old) → IsOk result }
        ensures err { OnErr result (self.new ≡ self.old) }
    {
        if is_marked(&self.lanes, place) {
            return Ok(());
        }
        self.add(place)
    }

    // Adds a place that is not there.
    fn add(&mut self, place: Place) -> Result<(), AllocError>
        requires { is_among place self.old ≡ false }
        ensures ok { OnOk result (self.new ≡ self.old ++ place ∷ []) }
        ensures err { OnErr result (self.new ≡ self.old) }
    {
        make_room(&mut self.lanes, self.alloc, place)?;
        self.places.push(place)?;
        mark(&mut self.lanes, place);
        Ok(())
    }

    /// Whether the place is there.
    #[inline]
    pub fn covers(&self, place: Place) -> bool
        ensures { result ≡ is_among place self.now }
    {
        is_marked(&self.lanes, place)
    }

    /// The places, each once.
    pub fn places(&self) -> &[Place]
        ensures value { result.now ≡ self.now }
        ensures distinct { AllDistinct self.now }
    {
        self.places.as_slice()
    }

    /// Takes all places out, each once; none is left. The time is that of the places alone.
    pub fn take(&mut self) -> Vec<Place>
        ensures value { result.items ≡ self.old }
        ensures distinct { AllDistinct result.items }
        ensures none { self.new ≡ [] }
    {
        let taken = mem::replace(&mut self.places, Vec::new(self.alloc));
        unmark_all(&mut self.lanes, taken.as_slice());
        taken
    }
}

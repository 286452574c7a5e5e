// A place, taken apart and put together.

ghost use Rattle.std.specs.Prelude.{◌≡◌, ◌<◌, ◌^◌};
ghost use Rattle.jm_blocks.specs.Places.{place_at, lane_of, block_of, index_of};

use jm_values::Place;

/// How many objects of a block have a number.
const OBJECTS: u64 = 256;

/// How many lanes there are, the one of number 0 included, which no block is in: so no place is 0.
const LANES: u64 = 64;

/// Where an object lies: the lane of its block, the block's number in the lane, and the object's
/// number in the block.
#[derive(Clone, Copy, PartialEq, Eq)]
pub struct Position {
    pub lane: u64,
    pub block: usize,
    pub index: usize,
}

impl Position {
    /// The parts of a place.
    #[inline]
    pub fn of(place: Place) -> Position
        ensures lane { result.lane ≡ lane_of place }
        ensures block { result.block ≡ block_of place }
        ensures index { result.index ≡ index_of place }
        ensures few { result.block < 2 ^ 49 }
        ensures small { result.index < 256 }
        ensures lanes { result.lane < 64 }
        ensures again { place_at result.lane result.block result.index ≡ place }
    {
        let number = place.number();
        Position {
            lane: number / OBJECTS % LANES,
            block: (number / OBJECTS / LANES) as usize,
            index: (number % OBJECTS) as usize,
        }
    }

    /// The place with these parts. The lane is from 1 to 63, the block's number below 2^49 and the
    /// object's below 256.
    #[inline]
    pub fn place(self) -> Place
        requires some_lane { 0 < self.lane }
        requires lane { self.lane < 64 }
        requires block { self.block < 2 ^ 49 }
        requires index { self.index < 256 }
        ensures value { result ≡ place_at self.lane self.block self.index }
        ensures lane { lane_of result ≡ self.lane }
        ensures block { block_of result ≡ self.block }
        ensures index { index_of result ≡ self.index }
    {
        Place::new((self.block as u64 * LANES + self.lane) * OBJECTS + self.index as u64)
    }
}

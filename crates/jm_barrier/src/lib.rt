//! The write barrier's set: the old objects into which a young reference may have been stored.
//!
//! A minor collection takes the young objects alone, so it has to know which old ones point to
//! them. [`Remembered`] is a set of places: contracts see it as the list of what was noted, each
//! once, in the order of the first notes. A mark for each object tells whether its place is there,
//! so that noting one again is a look at its mark, and takes no memory.
//!
//! The crate stands on `jm_blocks`, for the parts of a place.
#![tactic(auto)]

mod marks;
mod remembered;

pub use remembered::Remembered;

//! The generational heap: nurseries, a store of old objects, and a collector that copies.
//!
//! [`GenHeap`] makes each object in the nursery of its worker ([`nursery_of`] tells which one a place
//! is in), and keeps to what every heap promises (`jm_heap`), over any collector (`jm_copy`), of which
//! its proof knows the contract alone. Where the young objects and a new one would pass a quarter of
//! the limit, a minor collection takes the young ones; where all objects and the new one would pass
//! the limit, a full one takes all. All growths of a collection come before anything has changed, so
//! that a refused one leaves the objects as they were.
//!
//! A minor collection has to know which old objects point to young ones. A value that is set notes
//! them, and each collection leaves a list of those that it promoted; the next one looks through both
//! first. Their references are roots, and are written back afterwards.
//!
//! Contracts see the heap as its generations: the blocks of each nursery, those of the old objects, and
//! the old objects that are remembered. A heap's promise speaks of residents by serial, and stores,
//! nurseries and collectors speak of objects at places: `specs/Residents.antt` lists the objects of the
//! sixteen nurseries and of the old store as residents, with serials for places, and
//! `specs/Invariant.antt` says what a heap of generations keeps to: serials tell objects apart, each
//! reference is the place of an object, ages say which store an object is in, each old object that names a
//! young one is remembered, and the cells that the stores count are those of the residents, within the
//! limit. `specs/Steps.antt` and `specs/Collections.antt` say what the steps are, by what lies at places
//! afterwards. The laws here state that they are what a heap promises, and keep all that.
//!
//! The crate stands on `jm_copy`, `jm_barrier`, `jm_nursery`, `jm_blocks` and `jm_heap`.
#![tactic(auto)]

mod cells;
mod copying;
mod fields;
mod gen_heap;
mod generations;
mod laws;
mod pointers;
mod request;

pub use gen_heap::GenHeap;
pub use jm_nursery::nursery_of;
pub use laws::{
    a_full_collection_leaves_what_is_reached, a_minor_collection_leaves_the_old_and_the_reached,
    a_new_object_is_made, a_written_value_is_set,
};

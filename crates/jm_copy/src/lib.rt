//! The copying collector: what a collector promises, and a serial one.
//!
//! A [`Collector`] is given the condemned stores, whose lanes are 1, 2, .., and the store of the old
//! generation, which may have none of the objects that are condemned. It copies each condemned object
//! that the roots reach, once: at its first survival into a new store of the young, at its second into
//! the old store, above all that lie there. For a minor collection the nurseries are condemned and
//! the old store is the one that there is; for a full one all stores are, and the old store is new.
//! Contracts say what is left: the new objects are the image of the condemned, one for each of these that
//! is reached (`specs/Image.antt`).
//!
//! [`SerialCollector`] makes one pass over the live cells, as Cheney's collector does, with a mark in
//! each of the two stores that it fills. Where an object went stands in a table of words beside the
//! condemned blocks, which stay as they are, so that a refused growth leaves nothing to mend but the
//! old store, whose new objects are given up again.
//!
//! What holds while a collector copies is said once for all collectors. `specs/Copying.antt` is the
//! invariant of a copier, over what it knows of new places and what it has won, that is, copied itself: a
//! collector of one thread knows what it has won, and of several copiers each knows some places that others
//! have won. It speaks of functions from places to objects and no list of blocks, so that it serves whatever
//! stores a copier fills, and in whatever order it scans them. `proofs/Steps.antt` has a lemma for each step,
//! and the law [`a_finished_scan_is_an_image`] states the end: with all values forwarded and all roots, the
//! new objects are the image.
//!
//! The stores that a copier fills, which of an object's survivals a collection is, the marks of the scan, the numbers of
//! the condemned objects and the references of an object are public ([`Copies`], [`Survival`], [`Marks`], [`Starts`],
//! [`first_named`]), for collectors of several copiers, and so is the listing of the promoted objects that point to
//! young ones ([`note`]).
//!
//! The crate stands on `jm_blocks`.
#![tactic(auto)]

mod collector;
mod copies;
mod forward;
mod laws;
mod scan;
mod serial;
mod source;
mod starts;
mod survival;
mod words;

pub use collector::{Collector, Refused, Survivors};
pub use copies::{Copies, Named, first_named, next_named};
pub use laws::a_finished_scan_is_an_image;
pub use scan::{Marks, next, next_after, next_of, note, pass_on};
pub use serial::SerialCollector;
pub use source::{Source, find, number};
pub use starts::{Starts, number_all};
pub use survival::Survival;
pub use words::Words;

//! Nurseries: where new objects are made.
//!
//! Each worker makes its objects in a nursery of its own: a lane of blocks, the one of the worker's
//! number modulo 16, whose last block is the worker's current one. [`Nurseries`] are the sixteen of
//! them with the cells of all their objects, and the quota, a quarter of the heap's limit, past
//! which a minor collection comes first. Contracts see them as the limit and the list of the lanes'
//! blocks. A collection takes the stores and puts others in their place
//! ([`Nurseries::exchange`]): what was put in is what is held, and what was held comes out, so no
//! block is lost or held twice.
//!
//! The crate stands on `jm_blocks`.
#![tactic(auto)]

mod nurseries;

pub use nurseries::{Nurseries, empty_nurseries, nursery_of};

//! Values, places, and what the instructions that touch one frame alone do.
//!
//! A [`Value`] is what a local variable or an operand holds (JVMS 2.11.1), and a [`Place`] is what
//! a reference to an object holds. The rows of the plain instructions are definitions, in
//! `specs/`: `Activation` is the part of a frame that they touch, `Outcome` what comes of one,
//! `Steps` the words that carry the checks in their order, and then one module for each group of
//! instructions as JVMS 2.11 groups them, up to `PlainRows`. `Shape` and `Rename` say what it is
//! to see data under other names of their references. `Objects`, `Reach` and `Content` are what
//! heaps and the model have in common: what an object is, what is reached from roots, and what a
//! heap contains.
//!
//! The module [`laws`] has what holds of all rows: they commute with renaming, bring no new
//! reference, and keep an activation well formed. The crate stands on `jm_program`.
#![tactic(auto)]

mod fault;
pub mod laws;
mod place;
mod value;

pub use fault::TagFault;
pub use place::Place;
pub use value::Value;

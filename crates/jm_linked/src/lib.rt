//! A program whose names are resolved.
//!
//! A [`Linked`] keeps the classes of a program that loads, and beside them a table of all methods
//! with code, whose instructions name what they use by numbers. The relation between the two is
//! kept by the type (`specs/Links`), so that whoever runs the table runs the classes. Classes are
//! numbered with the built-in ones first, in their order, and then the program's.
//!
//! Beside the instructions of a method ([`LinkedCode`]) stands what is made at once at each: a plain
//! instruction that programs make often, or a few in a row ([`Frequent`]). One look at a tag tells
//! them apart.
//!
//! The crate stands on `jm_program`, `jm_builtins`, `jm_world` and `jm_tables`.
#![tactic(auto)]

mod assignability;
mod code;
mod frequent;
mod instruction;
mod kind;
mod linked;
mod method;
mod tables;

pub use assignability::letter;
pub use code::LinkedCode;
pub use frequent::{Frequent, IntOperation};
pub use instruction::{
    InvokedMethod, LinkedElement, LinkedInstr, LinkedType, MemberNumber, PrintMethod, Printed,
};
pub use kind::ValueKind;
pub use linked::Linked;
pub use method::{LinkedConstant, LinkedHandler, LinkedMethod, Selected};
pub use tables::Tables;

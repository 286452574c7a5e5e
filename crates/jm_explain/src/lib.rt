//! What `jm explain` says: the numbers of the refusals, the stops and the exit statuses, and of each
//! what it means, an example, and what to do.
//!
//! [`entry_of`] finds the entry of a number, of which there is one, or the first of a name; where a number is
//! both that of a refusal and a status, its entry tells of both. [`asked_by`] says which of the two a word is. [`explanation`] is the text of an entry, or the
//! list of all. The entries stand in a module for each group of numbers, from `statuses` to
//! `sessions`, and in `specs/Table.antt` too, which `make_specs.py` writes from these, so that the
//! contracts can say them. [`Status`] is the exit status itself.
//!
//! The crate stands on the standard library alone.
#![tactic(auto)]

mod assembler_texts;
mod class_files;
mod entry;
mod explaining;
mod instructions;
mod links;
mod pools;
mod runs;
mod search;
mod sessions;
mod status;
mod statuses;

pub use entry::Entry;
pub use explaining::explanation;
pub use search::{Asked, asked_by, entry_of};
pub use status::Status;

//! How the events of a run are chosen: listed, by workers, or recorded.
//!
//! [`make_by_workers`] makes the events that the workers of a shared machine choose, each by the
//! replies to its own turns. [`replay`] makes those of a record again, on one thread, and names the
//! first line whose kind is not that of the reply. What comes of either is said in one set of words
//! (`Choices`): all events were made, or those before a growth was refused, or a line differs.
//!
//! The crate stands on `jm_shared`, `jm_machine` and `jm_schedule`.
#![tactic(auto)]

mod making;
mod replaying;

pub use making::make_by_workers;
pub use replaying::replay;

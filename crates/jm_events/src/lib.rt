//! The events of a run, one after the other.
//!
//! Which events are due is known from the world in which they begin, and behind an event from whether it was blocked
//! ([`EventsDue`]): those of a schedule ([`Scheduled`]), or those that turns of the threads make ([`Turns`]). Whoever
//! makes a run makes each event and sees what it came to, and is told the next, and how often it may be made at once
//! ([`DueEvent`]); what is due is the list of the model.
//!
//! The turns keep the live threads in two queues, so that an event costs the same however many threads have ended.
//!
//! The crate stands on `jm_machine` and `jm_schedule`, its proofs on lemmas of `jm_debug` too.
#![tactic(auto)]

mod due;
mod pass;
mod scheduled;
mod turns;

pub use due::{DueEvent, EventsDue};
pub use scheduled::Scheduled;
pub use turns::Turns;

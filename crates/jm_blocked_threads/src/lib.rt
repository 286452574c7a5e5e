//! What a thread that is blocked waits for.
//!
//! A blocked thread waits for the monitor of an object, which is the receiver of its call or the operand of its
//! `monitorenter`, or for a class whose initialization another thread makes. What a thread asks for is a definition over
//! its frame at the top (`specs/Asked`), and a law says that it is what keeps the thread back in the model
//! ([`blocked_threads_wait_for_what_they_ask`]). Which threads were blocked at their last event is known from the replies
//! ([`waiting_after`]). Whoever shows a run tells it from these.
//!
//! The crate stands on `jm_machine`.
#![tactic(auto)]

mod asked;
mod blocked;
mod laws;

pub use asked::{asked_by_method, instruction_of};
pub use blocked::{is_blocked, is_waiting, waiting_after};
pub use laws::blocked_threads_wait_for_what_they_ask;

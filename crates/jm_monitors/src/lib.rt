//! What a run keeps of its classes' initializations and of its objects' monitors.
//!
//! [`InitStates`] has, of each of a program's classes, how far its initialization is (JVMS 5.5), with
//! a call for each change that the stages of an initialization make. [`Monitors`] has the monitors
//! that threads hold (JVMS 2.11.10), by the serials of their objects, which no collection changes, and
//! in their order: a thread enters and leaves, and a collector is told the places of the objects. The
//! crate stands on the model's words for both in `jm_world`.
#![tactic(auto)]

mod entering;
mod held;
mod init_states;
mod monitors;
mod places;

pub use entering::Entering;
pub use held::Held;
pub use init_states::InitStates;
pub use monitors::Monitors;
pub use places::Places;

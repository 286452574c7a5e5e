//! What each instruction that touches one frame alone does to its frame (JVMS 6.5).
//!
//! [`step_plain`] makes one of them: a constant, a load or a store, `iinc`, operand stack
//! management, arithmetic, a conversion, `lcmp`, a branch or a switch. It does exactly what the row
//! of `jm_values` says of the frame's activation, and answers where the frame goes on ([`Flow`]),
//! or why the instruction cannot be made ([`Fault`]); a refused instruction and one that throws
//! leave the frame as it was. [`step`] is the same for the instructions that name nothing, and
//! [`push_constant`] for a constant of any kind, a literal's reference included.
//!
//! A step takes no memory, looks up no name and copies no frame; its time does not grow with the
//! operand stack or the local variables, and only a `lookupswitch` searches, by halves. The crate
//! stands on `jm_frames`, whose calls are the families, and adds the branches, the switches and the
//! choice among them.
#![tactic(auto)]

mod branches;
mod flow;
pub mod laws;
mod plain;
mod switches;

pub use branches::step_branch;
pub use flow::{Fault, Flow, Thrown};
pub use plain::{push_constant, step, step_plain};

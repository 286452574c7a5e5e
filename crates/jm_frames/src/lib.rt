//! The frame of a method that runs (JVMS 2.6): its local variables and its operand stack.
//!
//! A [`Frame`] is made with the room for `max_stack` units of operands and `max_locals` local
//! variables, so that no later call takes memory. It is made in the memory of a frame that ended,
//! where its caller keeps some ([`Spare`]). Its calls are the families of instructions that
//! touch one frame alone: loads, stores and `iinc` (`locals`), operand stack management
//! (`operand_stack`), and arithmetic, shifts, bits, conversions and `lcmp` (`arithmetic`, over the
//! operations of [`numbers`]). Each does exactly what the row of `jm_values` says, and goes on to
//! the next instruction; a refused one answers the row's [`TagFault`] and leaves the frame as it
//! was.
#![tactic(auto)]

mod arithmetic;
mod frame;
mod local;
mod locals;
pub mod numbers;
mod operand_stack;
mod spare;

pub use arithmetic::Computed;
pub use frame::{Frame, put_value};
pub use jm_values::{Place, TagFault, Value};
pub use local::Local;
pub use spare::Spare;

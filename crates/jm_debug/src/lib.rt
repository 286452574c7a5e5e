//! The debugger: any moment of a run, shown.
//!
//! What a line of a session asks and what it answers is said in `specs/`, over the worlds of
//! `jm_world`: a session is a world, the places that hold a break, and whose turn it is; a line
//! denotes a [`Command`] or none; and a command answers bytes and leaves the next session, or is
//! refused. `proofs/Sessions` computes sessions of programs that are written out, byte for byte.
//! A [`Debugger`] has a machine, and is at a session of each world that the machine matches: what
//! [`Debugger::command`] answers to a line, and where it is then, is what that definition says, session
//! after session. [`Command::parse`] reads the line; [`frames`], [`locals`], [`stack`], [`statics`],
//! [`object`], [`heap`] and [`monitors`] show parts of the world, in the bytes of the answer; the
//! `write_` functions write parts of these for views that are put together otherwise.
//!
//! The crate stands on `jm_machine`, its contracts on the names of methods by number in `jm_linked`, and
//! its proofs on lemmas of `jm_schedule` too.
#![tactic(auto)]

mod answer;
mod breaks;
mod command;
mod debugger;
mod events;
mod fault;
mod frame;
mod held_monitors;
mod instruction;
mod marks;
mod place;
mod reached_object;
mod reached_objects;
mod static_fields;
pub mod text;
mod thread;
mod turn;
mod word;

pub use command::Command;
pub use debugger::Debugger;
pub use fault::DebugFault;
pub use frame::{locals, stack, write_locals, write_stack};
pub use held_monitors::{monitors, write_monitors};
pub use place::Place;
pub use reached_object::{object, write_parts, write_type};
pub use reached_objects::{heap, write_heap};
pub use static_fields::{statics, write_statics};
pub use thread::{frames, write_end};

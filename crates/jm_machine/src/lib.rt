//! The machine: a linked program, a heap of any kind, and what their run has made, one event at a
//! time.
//!
//! A [`Machine`] matches a world of the model (`jm_world`) in every part, and each event leads it
//! to a machine that matches the model's next world, with the model's reply. So the machine after
//! any list of events matches the fold of those events, which the contract of [`Machine::run`]
//! says. Its readers tell each part of that world, with references as numbers of objects; how it ended
//! has its words in lines ([`StopText`], [`ended_line`]). [`interleave`]
//! puts collections between events, which lead to the same world.
//!
//! The crate stands on `jm_interp`, `jm_state`, `jm_linked` and `jm_heap`; what a schedule spells is
//! read by `jm_schedule`.
#![tactic(auto)]

mod class;
mod code_method;
mod code_place;
mod declared_field;
mod end_texts;
mod event;
mod fault;
mod first_objects;
mod frame;
mod instance_fields;
mod interleaving;
mod load;
mod machine;
mod monitor;
mod object;
mod objects;
mod reached;
mod static_fields;
mod statics;
mod steps;
mod thread;
mod value;

pub use code_method::CodeMethod;
pub use code_place::CodePlace;
pub use end_texts::{StopText, ended_line};
pub use fault::{Interrupted, LoadFault, OutOfMemory};
pub use frame::{MethodFrame, WorldFrame};
pub use interleaving::{collection_of, interleave};
pub use jm_schedule::{Schedule, ScheduleFault, read_schedule};
pub use machine::Machine;
pub use monitor::WorldMonitor;
pub use object::{ElementKind, ObjectKind, WorldField, WorldObject};
pub use objects::{NumberedObject, WorldObjects};
pub use statics::{WorldStatic, WorldStatics};
pub use steps::{Steps, StepsEnd, StepsUpTo};
pub use value::WorldValue;

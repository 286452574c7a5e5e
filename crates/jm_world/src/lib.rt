//! The world: the whole model of what a program does, one event at a time.
//!
//! The crate is definitions above all: `specs/` says what loads, what objects, frames, threads
//! and worlds are, what each instruction does, how exceptions unwind, how classes are initialized
//! and what a list of events makes of a program, all in symbolic names and over a heap that only
//! grows. `docs/MODEL.md` says in which order to read it. The types here are those that a machine
//! answers in the same form: events, replies, stops, stages and states of classes.
//!
//! The crate stands on `jm_program`, `jm_builtins` and `jm_values`.
#![tactic(auto)]

mod class_state;
mod event;
mod laws;
mod reply;
mod stage;
mod stop;

pub use class_state::ClassState;
pub use event::Event;
pub use laws::{
    a_machine_reaches_what_its_world_does, events_agree, events_keep_code, events_keep_form,
    events_keep_frames, events_keep_names, objects_are_made_together, parts_have_shapes,
    plain_steps_commute, reach_is_the_least_set, runs_agree, runs_are_well_formed, runs_have_code,
    runs_have_what_is_named, runs_keep_frames, steps_are_apart, worlds_are_matched,
    worlds_are_themselves, worlds_up_to_numbers_tell_the_same,
};
pub use reply::{Reply, ReplyKind};
pub use stage::Stage;
pub use stop::Stop;

//! What holds of every run of the model, beside the laws of `jm_world`.
//!
//! The crate is laws alone: each is the contract of a function that does nothing, about every
//! world that the load of a program and a list of events make. `specs/` says what the laws say.
//! Nothing else stands on this crate.
//!
//! The crate stands on `jm_program`, `jm_builtins`, `jm_values` and `jm_world`.
#![tactic(auto)]

mod laws;

pub use laws::{
    events_keep_fields, events_keep_locals, events_stay_in_code, events_throw_throwables,
    programs_store_own, runs_have_fields, runs_have_locals, runs_have_places, runs_stay_in_code,
    runs_throw_throwables,
};

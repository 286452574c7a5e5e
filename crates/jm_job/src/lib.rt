//! What `jm` is to do, as a value: a [`Job`] with the files that were read for it, or a run that is told.
//!
//! The crate stands on the crates whose bounds and windows a job names.
#![tactic(auto)]

mod job;
mod told_job;

pub use job::{
    AssembleJob, Contents, Copiers, DebugJob, DisassembleJob, ExploreJob, InputFile, Job,
    ReplayJob, RunEvents, RunJob, Workers, several_workers, so_many_copiers,
};
pub use told_job::{FilmJob, ToldEvents, ToldJob, TraceJob};

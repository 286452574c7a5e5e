//! What a command line asks `jm` to do, once the files that it names are read.
//!
//! [`file_named`], [`program_asked`] and [`folder_named`] say what [`Options`](jm_options::Options) name that is read, and
//! [`file_written`] what is written. With the files that were read, [`command_of`] gives the [`Command`]: each number,
//! flag and file that was asked for, and no other.
//!
//! The crate stands on `jm_options`, on `jm_job` and on the crates whose bounds and windows a job names.
#![tactic(auto)]

mod asked;
mod command;
mod copiers;
mod explore;
mod files_read;
mod named;
mod replay;
mod run;
mod told;

pub use asked::command_of;
pub use command::{Command, Execution};
pub use files_read::FilesRead;
pub use named::{file_named, file_written, folder_named, program_asked};

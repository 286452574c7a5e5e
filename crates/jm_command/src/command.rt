// What is to be done.

use jm_explain::Entry;
use jm_job::{FilmJob, InputFile, Job, ToldJob, TraceJob};

/// A job, and where its record goes.
pub struct Execution {
    pub job: Job,
    /// The file that the record of a run is to be written to, if one is.
    pub record_file: Option<String>,
    /// Whether more is told of what was refused or of how the run ended.
    pub tells: bool,
}

// Written out, so that whoever lets go of one makes a call (docs/DECISIONS.md).
impl Drop for Execution {
    fn drop(self) {
        let Execution {
            job: _,
            record_file: _,
            tells: _,
        } = self;
    }
}

/// What a command line asks for, with the files that were read for it.
pub enum Command {
    /// `jm run`, `jm replay`, `jm explore`, `jm asm`, `jm dis` and `jm debug`.
    Execute(Execution),
    /// `jm check` of these files.
    Check(Vec<InputFile>),
    /// `jm check --list` of these files.
    List(Vec<InputFile>),
    /// `jm why`.
    Why(ToldJob),
    /// `jm trace`.
    Trace(TraceJob),
    /// `jm film`.
    Film(FilmJob),
    /// `jm explain` of this entry, or of the list.
    Explain(Option<Entry>),
    /// `jm version`.
    Version,
}

// Written out, so that whoever lets go of one makes a call (docs/DECISIONS.md).
impl Drop for Command {
    fn drop(self) {
        match self {
            Command::Execute(_)
            | Command::Check(_)
            | Command::List(_)
            | Command::Why(_)
            | Command::Trace(_)
            | Command::Film(_)
            | Command::Explain(_)
            | Command::Version => {}
        }
    }
}

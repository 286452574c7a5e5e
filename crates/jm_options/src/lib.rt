//! The command line of `jm`: which words it takes, and what they ask for.
//!
//! [`options`] reads the words of a command line as [`Options`], or says by a [`UsageFault`] what is
//! wrong with them. What it knows is
//! `jm run [--heap N] [--copiers N] [--schedule FILE] [--steps N] [--quantum N] [--workers N] [--stress minor|full] [--record FILE] [--show-heap] [--tell] PROGRAM`,
//! `jm replay [--heap N] [--copiers N] [--show-heap] [--tell] [--path DIR]... [--main NAME] RECORD FILE...`,
//! `jm explore [--switches N] [--steps N] [--runs N] [--slice N] [--outcome N] [--heap N] [--tell] PROGRAM`,
//! `jm check [--list] PROGRAM`,
//! `jm why [--heap N] [--copiers N] [--schedule FILE] [--steps N] [--quantum N] PROGRAM`,
//! `jm trace [--thread T] [--from N] [--most N] [--heap N] [--copiers N] [--schedule FILE] [--steps N] [--quantum N] PROGRAM`,
//! `jm film [--from N] [--heap N] [--copiers N] [--schedule FILE] [--steps N] [--quantum N] [--source DIR] PROGRAM`,
//! `jm asm IN OUT`, where OUT is another word than IN, `jm dis [--bare] FILE`,
//! `jm debug [--heap N] [--copiers N] [--tell] PROGRAM`, `jm explain [N|NAME]`, a number or a name that `jm_explain` tells of, and
//! `jm version`, which is `jm --version` too. PROGRAM is `[--path DIR]... [--main NAME] FILE...`. Any other option or subcommand is refused by its name. Each number of [`Options`] is within its limits:
//! that is an invariant of the types. The subcommands stand as rows in `command`, and their arguments in `argument`.
//!
//! The crate stands on `clap` and `jm_explain`.
#![tactic(auto)]

mod argument;
mod command;
mod fault;
mod request;
mod usage;
mod values;
mod words;

pub use fault::UsageFault;
pub use request::{
    AssembleOptions, CheckOptions, DebugOptions, DisassembleOptions, ExplainOptions,
    ExploreOptions, FilmOptions, MAX_COPIERS, MAX_EVENTS, MAX_FILM_STEPS, MAX_HEAP, MAX_QUANTUM,
    MAX_RUNS, MAX_SCHEDULE_STEPS, MAX_SLICE, MAX_STEPS, MAX_SWITCHES, MAX_WORKERS, MIN_HEAP,
    Options, ProgramOptions, ReplayOptions, RunOptions, SerialRun, Stress, TraceOptions,
};
pub use usage::read_and_written;
pub use words::options;

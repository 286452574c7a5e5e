//! What the commands of `jm` do with the files that they were given.
//!
//! [`execute`] does a [`Job`] and answers the [`Status`] of the program. For `jm run` it runs the classes of a program's
//! files by the events of a schedule, or by turns of its threads, or by those that several workers choose, and writes what
//! the Java program prints and how the run ended; for `jm replay` by the events of a record. For `jm explore` it tries the
//! schedules of the program and writes what they come to. For `jm asm` it writes the class file of the class that an
//! assembler text denotes, for `jm dis` the text of the class that a file holds. For `jm debug` it answers the lines of a
//! reader as the debugger does. Beside it [`film`], [`trace`] and [`why`] make a run and write what is told of it while its
//! events are made ([`tell_run`]); [`check`] writes all that is refused and missing in the classes of files; [`explain`]
//! writes what the table of `jm_explain` says of a number, and [`tell_version`] a line, for `jm version`;
//! and [`advise`] what more there is to say of a job that did not go well, by what `check` and `why` say.
//!
//! It knows no file and no terminal: the files' bytes stand in the job, the reader is any that is [`Readable`] and the two
//! writers any that are [`Watchable`], each [`Watched`], so that its contract can say which bytes are read and written, and
//! that one of them failed only where one of its calls did. The output and the lines of a run are those of the model's run
//! (`jm_world`) over the events that the schedule spells, or that the model's round robin chooses; the bytes of a class file
//! spell the class of its text (`jm_class_format`, `jm_jasmin`); the text of a class is that of the definition
//! (`jm_disassembler`), and denotes the class where a text can; the answers are those of the debugger's definition
//! (`jm_debug`) to the lines that the reader's bytes spell, one after the other.
//!
//! `program_file` says which class a file holds, `preparation` goes from files to a machine, `events` says where its events
//! come from (`jm_events`), `one_worker` makes them, and `workers` those that several choose; `report` and `ends` say how a
//! run ended. `replaying`, `exploring`, `assembly`, `disassembly` and `session` have the other jobs, the last
//! over the `lines` of its reader; `told_run` has what a `teller` tells, `quote` a line of a text, `checking` and `explanation` what their names say.
//! The writer and the reader of class files do not know one another, so [`written_and_read`] stands here: a class that is
//! written as a class file and read again is that class.
//!
//! It is the crate in which the others meet: it stands on the machine (`jm_machine`, `jm_shared`, `jm_gen_heap` with its
//! collectors `jm_copy` and `jm_par_copy`), what goes before it (`jm_class_reader`, `jm_jasmin`, `jm_linker`, `jm_schedule`) and
//! what is made of it (`jm_events`, `jm_choice`, `jm_explore`, `jm_debug`, `jm_film_run`, `jm_trace`, `jm_why`), on `jm_class_writer`,
//! `jm_disassembler` and `jm_findings`, on the jobs (`jm_job`) and on `jm_explain`.
#![tactic(auto)]

mod advice;
mod assembly;
mod checking;
mod copiers;
mod disassembly;
mod ends;
mod events;
mod execution;
mod explanation;
mod exploring;
mod file_name;
mod files;
mod film_execution;
mod finished;
mod laws;
mod lines;
mod one_worker;
mod preparation;
mod program_file;
mod quote;
mod readable;
mod reasons_of_end;
mod refusal;
mod replaying;
mod report;
mod round_trip;
mod session;
mod teller;
mod text_page;
mod told_preparation;
mod told_run;
mod tracing;
mod watchable;
mod watched;
mod workers;

pub use advice::advise;
pub use assembly::assemble_file;
pub use checking::check;
pub use disassembly::{ClassText, disassemble_file};
pub use ends::status_of;
pub use events::{RunPlan, RunSource};
pub use execution::execute;
pub use explanation::{explain, tell_version};
pub use exploring::Lack;
pub use file_name::FileName;
pub use files::{bytes_of, check_read};
pub use film_execution::film;
pub use finished::Finished;
pub use jm_explain::Status;
pub use jm_heap::Kind;
pub use jm_job::{
    AssembleJob, Contents, Copiers, DebugJob, DisassembleJob, ExploreJob, FilmJob, InputFile, Job,
    ReplayJob, RunEvents, RunJob, ToldEvents, ToldJob, TraceJob, Workers, several_workers,
    so_many_copiers,
};
pub use laws::{
    a_fault_of_a_file_is_one_line, an_outcome_is_that_of_its_run, class_of_its_text, equal_views,
    nothing_is_told_where_files_load, text_of_its_class,
};
pub use lines::{LineFault, NextLine, Unread};
pub use one_worker::{Made, make_journal};
pub use preparation::{
    Ready, ReadyToReplay, RunHeap, machine_of, prepare, prepare_exploration, prepare_replay,
    prepare_session,
};
pub use program_file::{class_in_file, class_in_text, class_of};
pub use readable::{ReadFailed, Readable, get_by_read};
pub use reasons_of_end::why;
pub use refusal::{Obstacle, Refusal};
pub use report::{
    end_text, heap_view, report_of, tell_unwritten, write_difference, write_out_of_memory,
};
pub use round_trip::written_and_read;
pub use session::answer_lines;
pub use teller::{FilmTeller, Teller, TraceTeller, WhyTeller};
pub use told_preparation::{ReadyToTell, prepare_told};
pub use told_run::tell_run;
pub use tracing::trace;
pub use watchable::{Watchable, WriteFailed, put_by_write, put_through_by_flush};
pub use watched::Watched;

//! `jm`: runs the program of some class files and assembler texts, by turns of its threads or by the
//! events of a schedule, tries its schedules, says all that is refused and missing in files, assembles texts into class
//! files, shows the text of a class, answers the commands of a session of the debugger, writes a run as lines or as a
//! page, tells how one ended, and says what the numbers of refusals and statuses mean.
//!
//! The command line is read by `jm_options`, what it asks for with its files is `jm_command`'s, and
//! what a job does is `jm_execute`'s. What stands here reads the files, hands them over with the
//! standard streams or the file to write, and ends with the status.
#![tactic(auto)]

ghost use Rattle.jm_command.specs.Named.{IsNamed};

mod disk;
mod files;
mod listing;
mod no_main;
mod output;
mod sources;
mod word;
mod written;

use files::files_read;
use jm_class_path::ProgramFault;
use jm_command::{Command, Execution, FilesRead, command_of};
use jm_execute::{
    Status, Watched, advise, check, execute, explain, film, tell_unwritten, tell_version, trace,
    why, write_out_of_memory,
};
use jm_options::{Options, UsageFault, options, read_and_written};
use jm_program::Name;
use listing::list;
use no_main::tell_no_main;
use output::Output;
use std::fs;
use std::process::ExitCode;
use std::sync::Wait;
use std::thread::Threads;
use word::{WordsFault, words};
use written::{written_over, written_over_program};

// Does a job, with its output where it belongs, and writes its record to its file, where one is named and there is a
// record. A run may start threads, and wait for its machine's lock, and a session for a line.
fn done_with_record(
    rt: &HostRuntime,
    wait: &(impl Threads + Wait + Sync),
    execution: &Execution,
) -> Status {
    let job = &execution.job;
    let mut input = Watched::new(rt.stdin());
    let mut out = Watched::new(Output::of(rt, job));
    let mut err = Watched::new(rt.stderr());
    let finished = execute(wait, rt.alloc(), job, &mut input, &mut out, &mut err);
    let (Some(text), Some(name)) = (&finished.record_text, &execution.record_file) else {
        return finished.status;
    };
    match fs::write(rt, name, text) {
        Ok(()) => finished.status,
        Err(_) => {
            let mut err = Watched::new(rt.stderr());
            tell_unwritten(rt.alloc(), name, &mut err);
            Status::Files
        }
    }
}

// Does a job, and tells more of it where that is asked for.
fn executed(
    rt: &HostRuntime,
    wait: &(impl Threads + Wait + Sync),
    execution: &Execution,
) -> Status {
    let status = done_with_record(rt, wait, execution);
    if execution.tells {
        let mut err = Watched::new(rt.stderr());
        advise(wait, rt.alloc(), &execution.job, status, &mut err);
    }
    status
}

// Says that a growth was refused.
fn out_of_memory(rt: &HostRuntime) -> Status {
    let mut err = Watched::new(rt.stderr());
    let _told = write_out_of_memory(&mut err);
    Status::OutOfMemory
}

// Says what is wrong with the command line, or how it is used.
fn refused(rt: &HostRuntime, text: &str) -> Status {
    let mut err = Watched::new(rt.stderr());
    let _told = err.write_all(text.as_bytes());
    Status::CommandLine
}

// Says what is wrong with what is asked for.
fn not_done(rt: &HostRuntime, fault: &UsageFault) -> Status {
    match fault {
        UsageFault::Usage(text) => refused(rt, text),
        UsageFault::OutOfMemory => out_of_memory(rt),
    }
}

// Does what is asked for. What runs a program may start threads, which collect the heap.
fn done(rt: &HostRuntime, wait: &(impl Threads + Wait + Sync), command: &Command) -> Status {
    let alloc = rt.alloc();
    let mut out = Watched::new(rt.stdout());
    let mut err = Watched::new(rt.stderr());
    match command {
        Command::Execute(execution) => executed(rt, wait, execution),
        Command::Check(files) => check(alloc, files, &mut out, &mut err),
        Command::List(files) => list(alloc, files, &mut out, &mut err),
        Command::Why(job) => why(wait, alloc, job, &mut out, &mut err),
        Command::Trace(job) => trace(wait, alloc, job, &mut out, &mut err),
        Command::Film(job) => film(wait, alloc, job, &mut out, &mut err),
        Command::Explain(entry) => explain(alloc, *entry, &mut out, &mut err),
        Command::Version => tell_version(&mut out, &mut err),
    }
}

// Does what is asked for with the files that were read. A file that was found is not written.
fn with_files(
    rt: &HostRuntime,
    wait: &(impl Threads + Wait + Sync),
    asked: Options,
    files: FilesRead,
) -> Status
    requires { IsNamed asked files }
{
    if let Some(name) = written_over_program(rt, &asked, &files.program) {
        return not_done(rt, &read_and_written(rt.alloc(), name));
    }
    done(rt, wait, &command_of(asked, files))
}

// Says that the main class of a name is not there.
fn without_main(rt: &HostRuntime, name: Name) -> Status {
    let mut err = Watched::new(rt.stderr());
    tell_no_main(rt.alloc(), name, &mut err)
}

// Reads the command line and the files that it names, and does what is asked for. A file that is read is not written.
fn status(rt: &HostRuntime, wait: &(impl Threads + Wait + Sync)) -> Status {
    let words = match words(rt) {
        Ok(words) => words,
        Err(WordsFault::OutOfMemory) => return out_of_memory(rt),
        Err(WordsFault::NotText) => return refused(rt, "error: a word is not UTF-8\n"),
    };
    let mut texts = Vec::new(rt.alloc());
    for word in &words {
        if texts.push(word.as_str()).is_err() {
            return out_of_memory(rt);
        }
    }
    let asked = match options(rt.alloc(), &texts) {
        Ok(asked) => asked,
        Err(fault) => return not_done(rt, &fault),
    };
    if let Some(name) = written_over(rt, &asked) {
        return not_done(rt, &read_and_written(rt.alloc(), name));
    }
    match files_read(rt, &asked) {
        Ok(files) => with_files(rt, wait, asked, files),
        Err(ProgramFault::NoMain(name)) => without_main(rt, name),
        Err(ProgramFault::OutOfMemory) => out_of_memory(rt),
    }
}

fn main(rt: HostRuntime) -> ExitCode {
    ExitCode::from(status(&rt, &rt).code())
}

// What options and the files that were read for them come to.

ghost use Rattle.std.specs.Prelude.{◌≡◌, None};
ghost use Rattle.jm_command.specs.Named.{IsNamed};
ghost use Rattle.jm_command.specs.Commands.{AsksFor, Executes, check_command};

use crate::command::{Command, Execution};
use crate::copiers::copiers;
use crate::explore::explore_job;
use crate::files_read::FilesRead;
use crate::replay::replay_job;
use crate::run::run_job;
use crate::told::{film_job, told_job, trace_job};
use jm_job::{AssembleJob, DebugJob, DisassembleJob, InputFile, Job};
use jm_options::{CheckOptions, Options};

// To do a job without a record.
fn without_record(job: Job, tells: bool) -> Command
    ensures { Executes result tells job }
{
    Command::Execute(Execution {
        job,
        record_file: None,
        tells,
    })
}

// To check files, or to list them.
fn check_command(asked: &CheckOptions, program: Vec<InputFile>) -> Command
    ensures { result ≡ check_command asked.now program }
{
    if asked.list {
        Command::List(program)
    } else {
        Command::Check(program)
    }
}

/// What options ask for, with the files that were read for them.
pub fn command_of(asked: Options, files: FilesRead) -> Command
    requires { IsNamed asked files }
    ensures { AsksFor asked files result }
{
    match asked {
        Options::Run(asked) => Command::Execute(Execution {
            job: Job::Run(run_job(&asked, files)),
            record_file: asked.record_file,
            tells: asked.tell,
        }),
        Options::Replay(asked) => {
            let job = replay_job(&asked, files.named.unwrap(), files.program);
            without_record(Job::Replay(job), asked.tell)
        }
        Options::Explore(asked) => {
            without_record(Job::Explore(explore_job(&asked, files.program)), asked.tell)
        }
        Options::Check(asked) => check_command(&asked, files.program),
        Options::Why(asked) => Command::Why(told_job(&asked, files)),
        Options::Trace(asked) => Command::Trace(trace_job(&asked, files)),
        Options::Film(asked) => Command::Film(film_job(&asked, files)),
        Options::Assemble(asked) => {
            let job = AssembleJob {
                text: files.named.unwrap(),
                output: asked.output,
            };
            without_record(Job::Assemble(job), false)
        }
        Options::Disassemble(asked) => {
            let job = DisassembleJob {
                file: files.named.unwrap(),
                bare: asked.bare,
            };
            without_record(Job::Disassemble(job), false)
        }
        Options::Debug(asked) => {
            let job = DebugJob {
                heap: asked.heap,
                copiers: copiers(asked.copiers),
                program: files.program,
            };
            without_record(Job::Debug(job), asked.tell)
        }
        Options::Explain(asked) => Command::Explain(asked.entry),
        Options::Version => Command::Version,
    }
}

// What `jm run` asks for.

ghost use Rattle.std.specs.Prelude.{◌≡◌, None, option_map};
ghost use Rattle.jm_command.specs.Commands.{AreRunEvents, IsRunJob, kind_of};

use crate::copiers::copiers;
use crate::files_read::FilesRead;
use jm_heap::Kind;
use jm_job::{InputFile, RunEvents, RunJob, several_workers};
use jm_options::{RunOptions, Stress};
use jm_schedule::round_robin;

// The kind of the collections between the events of a run, where such are asked for.
fn collections(asked: Option<Stress>) -> Option<Kind>
    ensures { result ≡ option_map kind_of asked }
{
    match asked {
        None => None,
        Some(Stress::Minor) => Some(Kind::Minor),
        Some(Stress::Full) => Some(Kind::Full),
    }
}

// The events of a run without a schedule: several workers choose them, or the threads take turns.
fn chosen_events(asked: &RunOptions) -> RunEvents
    ensures { AreRunEvents asked.now None result }
{
    if asked.workers >= 2 {
        RunEvents::Workers(several_workers(asked.workers as u8, asked.steps))
    } else {
        RunEvents::RoundRobin(round_robin(asked.steps, asked.quantum))
    }
}

// The events of a run, by the schedule where one was read.
fn run_events(asked: &RunOptions, schedule: Option<InputFile>) -> RunEvents
    ensures { AreRunEvents asked.now schedule result }
{
    match schedule {
        Some(schedule) => RunEvents::Schedule(schedule),
        None => chosen_events(asked),
    }
}

pub fn run_job(asked: &RunOptions, files: FilesRead) -> RunJob
    ensures { IsRunJob asked.now files result }
{
    RunJob {
        heap: asked.heap,
        copiers: copiers(asked.copiers),
        events: run_events(asked, files.named),
        program: files.program,
        show_heap: asked.show_heap,
        is_recorded: asked.record_file.is_some(),
        stress: collections(asked.stress),
    }
}

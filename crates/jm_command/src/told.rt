// What a run that is told is asked for.

ghost use Rattle.std.specs.Prelude.{◌≡◌, ◌≤◌};
ghost use Rattle.jm_command.specs.Commands.{AreToldEvents, IsFilmJob, IsToldJob, IsTraceJob};

use crate::copiers::copiers;
use crate::files_read::FilesRead;
use jm_film::Window;
use jm_job::{FilmJob, InputFile, ToldEvents, ToldJob, TraceJob};
use jm_options::{FilmOptions, MAX_STEPS, SerialRun, TraceOptions};
use jm_schedule::round_robin;
use jm_trace::Shown;

// The events of a run that is told, without a schedule so many at most.
fn told_events(asked: &SerialRun, most: u32, schedule: Option<InputFile>) -> ToldEvents
    requires some { 1 ≤ most }
    requires few { most ≤ 10000000 }
    ensures { AreToldEvents asked.now most schedule result }
{
    match schedule {
        Some(schedule) => ToldEvents::Schedule(schedule),
        None => ToldEvents::RoundRobin(round_robin(most, asked.quantum)),
    }
}

// A run that is told, without a schedule of so many events at most.
fn told_up_to(
    asked: &SerialRun,
    most: u32,
    schedule: Option<InputFile>,
    program: Vec<InputFile>,
) -> ToldJob
    requires some { 1 ≤ most }
    requires few { most ≤ 10000000 }
    ensures { IsToldJob asked.now most schedule program result }
{
    ToldJob {
        heap: asked.heap,
        copiers: copiers(asked.copiers),
        events: told_events(asked, most, schedule),
        program,
    }
}

pub fn told_job(asked: &SerialRun, files: FilesRead) -> ToldJob
    ensures { IsToldJob asked.now asked.now.steps files.named files.program result }
{
    told_up_to(asked, asked.steps, files.named, files.program)
}

pub fn trace_job(asked: &TraceOptions, files: FilesRead) -> TraceJob
    ensures { IsTraceJob asked.now files result }
{
    TraceJob {
        run: told_job(&asked.run, files),
        shown: Shown {
            thread: asked.thread.map(u64::from),
            first: u64::from(asked.first),
            most: asked.most,
        },
    }
}

// A film begins behind the event before the first that is shown, and its turns go on for as long as a
// run may.
pub fn film_job(asked: &FilmOptions, files: FilesRead) -> FilmJob
    ensures { IsFilmJob asked.now files result }
{
    FilmJob {
        run: told_up_to(&asked.run, MAX_STEPS, files.named, files.program),
        window: Window {
            from: asked.first - 1,
            steps: asked.run.steps,
        },
        sources: files.sources,
    }
}

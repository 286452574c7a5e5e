// What `jm why` does.

ghost use Rattle.std.specs.Prelude.{◌≡◌, false};
ghost use Rattle.jm_execute.specs.Tellings.{IsTold, most_of, told_verdict, why_telling};
ghost use Rattle.jm_execute.specs.Written.{words};

use crate::teller::WhyTeller;
use crate::told_run::tell_run;
use crate::watchable::Watchable;
use crate::watched::Watched;
use jm_explain::Status;
use jm_job::{ToldEvents, ToldJob};
use std::alloc::Global;
use std::thread::Threads;

// The most events of turns; a schedule spells its own.
fn most_of(events: &ToldEvents) -> Option<u64>
    ensures { result ≡ most_of events.now }
{
    match events {
        ToldEvents::Schedule(_) => None,
        ToldEvents::RoundRobin(turns) => Some(turns.steps as u64),
    }
}

/// Writes how a run ended, and where (docs/TRACING.md), once its events are made, on this thread. Where a growth was refused
/// nothing is written. The lines on `err`, the status, and what else is left where something fails, are those of
/// [`tell_run`](crate::tell_run).
///
/// Memory: each thread's frames at its last throws, as they are told, beside the machine.
pub fn why<W: Threads, O: Watchable, E: Watchable>(
    rt: &W,
    alloc: Global,
    job: &ToldJob,
    out: &mut Watched<O>,
    err: &mut Watched<E>,
) -> Status
    requires out { out.old.failed ≡ false }
    requires err { err.old.failed ≡ false }
    ensures { IsTold (words O.contents O.ends) (words E.contents E.ends) (why_telling (most_of job.now.events)) (told_verdict job.now) result out.old out.new err.old err.new }
{
    let teller = WhyTeller {
        limit: most_of(&job.events),
    };
    tell_run(rt, alloc, job, &teller, out, err)
}

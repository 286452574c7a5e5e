// What `jm trace` does.

ghost use Rattle.std.specs.Prelude.{◌≡◌, false};
ghost use Rattle.jm_execute.specs.Tellings.{IsTold, told_verdict, trace_telling};
ghost use Rattle.jm_execute.specs.Written.{words};

use crate::teller::TraceTeller;
use crate::told_run::tell_run;
use crate::watchable::Watchable;
use crate::watched::Watched;
use jm_explain::Status;
use jm_job::TraceJob;
use std::alloc::Global;
use std::thread::Threads;

/// Writes a line for each event of a run that is shown (docs/TRACING.md), while they are made, on this
/// thread. The lines on `err`, the status, and what is left where something fails, are those of
/// [`tell_run`](crate::tell_run).
///
/// Memory: a line, beside the machine.
pub fn trace<W: Threads, O: Watchable, E: Watchable>(
    rt: &W,
    alloc: Global,
    job: &TraceJob,
    out: &mut Watched<O>,
    err: &mut Watched<E>,
) -> Status
    requires out { out.old.failed ≡ false }
    requires err { err.old.failed ≡ false }
    ensures { IsTold (words O.contents O.ends) (words E.contents E.ends) (trace_telling job.now.shown) (told_verdict job.now.run) result out.old out.new err.old err.new }
{
    let teller = TraceTeller { shown: job.shown };
    tell_run(rt, alloc, &job.run, &teller, out, err)
}

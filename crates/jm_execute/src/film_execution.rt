// What `jm film` does.

ghost use Rattle.std.specs.Prelude.{◌≡◌, false};
ghost use Rattle.jm_execute.specs.Tellings.{IsTold, film_telling, told_verdict};
ghost use Rattle.jm_execute.specs.Written.{words};

use crate::teller::FilmTeller;
use crate::told_run::tell_run;
use crate::watchable::Watchable;
use crate::watched::Watched;
use jm_explain::Status;
use jm_job::FilmJob;
use std::alloc::Global;
use std::thread::Threads;

/// Writes some of the events of a run as a page (docs/FILM.md), while they are made, on this thread. The
/// events that are made are those that are not shown, and those that are. The lines on `err`, the
/// status, and what is left where something fails, are those of [`tell_run`](crate::tell_run).
///
/// Memory: two views and the data of one event, beside the machine.
pub fn film<W: Threads, O: Watchable, E: Watchable>(
    rt: &W,
    alloc: Global,
    job: &FilmJob,
    out: &mut Watched<O>,
    err: &mut Watched<E>,
) -> Status
    requires out { out.old.failed ≡ false }
    requires err { err.old.failed ≡ false }
    ensures { IsTold (words O.contents O.ends) (words E.contents E.ends) (film_telling job.now.window job.now.sources.items) (told_verdict job.now.run) result out.old out.new err.old err.new }
{
    let teller = FilmTeller {
        window: job.window,
        sources: &job.sources,
    };
    tell_run(rt, alloc, &job.run, &teller, out, err)
}

// What `jm explain` and `jm version` do.

ghost use Rattle.std.specs.Prelude.{◌≡◌, false};
ghost use Rattle.std.specs.Option.{option_map};
ghost use Rattle.jm_explain.specs.Items.{item};
ghost use Rattle.jm_explain.specs.Table.{explained};
ghost use Rattle.jm_execute.specs.Shown.{Shows, ShowsIfThereIsMemory, version_line};
ghost use Rattle.jm_execute.specs.Written.{words};

use crate::report::{tell_write_failed, write_out_of_memory};
use crate::watchable::Watchable;
use crate::watched::Watched;
use jm_explain::{Entry, Status, explanation};
use std::alloc::Global;

// Writes a text that is whole.
fn show<O: Watchable, E: Watchable>(
    text: &str,
    out: &mut Watched<O>,
    err: &mut Watched<E>,
) -> Status
    requires out { out.old.failed ≡ false }
    requires err { err.old.failed ≡ false }
    ensures { Shows (words O.contents O.ends) (words E.contents E.ends) text.now result out.old out.new err.old err.new }
{
    match out.write_all(text.as_bytes()) {
        Ok(()) => Status::Done,
        Err(_) => {
            tell_write_failed(err);
            Status::Files
        }
    }
}

/// Writes to `out` what is said of a number, or the list of all numbers where none is asked for, and
/// the status is `Done`.
///
/// Where a growth was refused nothing is written to `out`, `err` gets the line that says so, and the
/// status is `OutOfMemory`. Where a write to `out` fails, a beginning of the text stands in it, `err`
/// gets a line that says so, and the status is `Files`. A failing `err` changes no status.
pub fn explain<O: Watchable, E: Watchable>(
    alloc: Global,
    asked: Option<Entry>,
    out: &mut Watched<O>,
    err: &mut Watched<E>,
) -> Status
    requires out { out.old.failed ≡ false }
    requires err { err.old.failed ≡ false }
    ensures { ShowsIfThereIsMemory (words O.contents O.ends) (words E.contents E.ends) (explained (option_map item asked))
        result out.old out.new err.old err.new }
{
    match explanation(alloc, asked) {
        Ok(text) => show(&text, out, err),
        Err(_) => {
            let _told = write_out_of_memory(err);
            Status::OutOfMemory
        }
    }
}

/// Writes to `out` the version of `jm` and the kit that it is written for, and the status is `Done`.
/// Where that fails, it ends as [`explain`] does.
pub fn tell_version<O: Watchable, E: Watchable>(
    out: &mut Watched<O>,
    err: &mut Watched<E>,
) -> Status
    requires out { out.old.failed ≡ false }
    requires err { err.old.failed ≡ false }
    ensures { Shows (words O.contents O.ends) (words E.contents E.ends) version_line result out.old out.new err.old err.new }
{
    show("jm 0.1.0 (rattle-kit-13f)\n", out, err)
}

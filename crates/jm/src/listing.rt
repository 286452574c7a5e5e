// What `jm check --list` does.

ghost use Rattle.std.specs.Prelude.{◌≡◌, Some, false, IfOk, string_bytes};
ghost use Rattle.jm.specs.Listing.{listed};
ghost use Rattle.jm_execute.specs.Endings.{LinesTold};
ghost use Rattle.jm_execute.specs.Reports.{failure_line};
ghost use Rattle.jm_execute.specs.Shown.{ShowsIfThereIsMemory};
ghost use Rattle.jm_execute.specs.Written.{words};

use jm_execute::{FileName, InputFile, Status, Watchable, Watched, write_out_of_memory};
use std::alloc::{AllocError, Global};
use std::fmt::Write;

// The names of files, a line each.
fn listed(alloc: Global, files: &[InputFile]) -> Result<String, AllocError>
    ensures { IfOk result (λ text. string_bytes text ≡ listed files.now) }
{
    let mut text = String::new(alloc);
    for file in files {
        let name = FileName(&file.name);
        write!(text, "{name}\n")?;
    }
    Ok(text)
}

// Says that the output could not be written whole.
fn tell_write_failed<E: Watchable>(err: &mut Watched<E>)
    requires { err.old.failed ≡ false }
    ensures { LinesTold (words E.contents E.ends) (Some failure_line) err.new.failed err.old err.new }
{
    let _told = err.write_all(b"jm: write failed\n");
}

/// Writes the names of files to `out`, a line each, and the status is `Done`.
///
/// Where a growth was refused nothing is written to `out`, `err` gets the line that says so, and the
/// status is `OutOfMemory`. Where a write to `out` fails, a beginning of the lines stands in it, `err`
/// gets a line that says so, and the status is `Files`. A failing `err` changes no status.
pub fn list<O: Watchable, E: Watchable>(
    alloc: Global,
    files: &[InputFile],
    out: &mut Watched<O>,
    err: &mut Watched<E>,
) -> Status
    requires out { out.old.failed ≡ false }
    requires err { err.old.failed ≡ false }
    ensures { ShowsIfThereIsMemory (words O.contents O.ends) (words E.contents E.ends) (listed files.now) result out.old out.new err.old err.new }
{
    match listed(alloc, files) {
        Ok(text) => match out.write_all(text.as_bytes()) {
            Ok(()) => Status::Done,
            Err(_) => {
                tell_write_failed(err);
                Status::Files
            }
        },
        Err(_) => {
            let _told = write_out_of_memory(err);
            Status::OutOfMemory
        }
    }
}

// The main class that is named and not there.

ghost use Rattle.std.specs.Prelude.{◌≡◌, false, IfOk, string_bytes};
ghost use Rattle.jm.specs.NoMain.{TellsNoMain, no_class_line};
ghost use Rattle.jm_execute.specs.Written.{words};

use jm_execute::{Refusal, Status, Watchable, Watched, write_out_of_memory};
use jm_linker::LinkFault;
use jm_program::Name;
use std::alloc::{AllocError, Global};

// The line that says that a class is not there, as linking says it.
fn no_class_line(alloc: Global, name: Name) -> Result<String, AllocError>
    ensures { IfOk result (λ line. string_bytes line ≡ no_class_line name) }
{
    let refusal = Refusal::Unlinked(LinkFault::NoClass(name));
    format!(in alloc; "{refusal}\n")
}

/// Says that the main class of this name is not there, as linking says it of a class, and the status is
/// `Refused`. Where a growth was refused the line says that, and the status is `OutOfMemory`. A failing
/// `err` changes no status.
pub fn tell_no_main<E: Watchable>(alloc: Global, name: Name, err: &mut Watched<E>) -> Status
    requires { err.old.failed ≡ false }
    ensures { TellsNoMain (words E.contents E.ends) name result err.old err.new }
{
    match no_class_line(alloc, name) {
        Ok(line) => {
            let _told = err.write_all(line.as_bytes());
            Status::Refused
        }
        Err(_) => {
            let _told = write_out_of_memory(err);
            Status::OutOfMemory
        }
    }
}

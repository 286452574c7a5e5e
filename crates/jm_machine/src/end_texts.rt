// How a run ended, as lines say it.

ghost use Rattle.std.specs.Prelude.{◌≡◌, Some, IfOk, string_bytes};
ghost use Rattle.jm_machine.specs.EndTexts.{ended_line, stop_text};

use jm_program::Name;
use jm_world::Stop;
use std::alloc::{AllocError, Global};
use std::fmt;
use std::fmt::Display;

/// A stop as lines name it: by its number and its name, of an instruction that cannot be made with its
/// fault.
#[derive(Clone, Copy)]
pub struct StopText(pub Stop);

impl Display for StopText {
    ghost output = { λ text. Some (stop_text text.0) };

    fn fmt<W: fmt::Write>(&self, f: &mut fmt::Formatter<W>) -> fmt::Result {
        match self.0 {
            Stop::TagFault(fault) => write!(f, "60 TagFault({fault})"),
            Stop::HeapFull => f.write_str("62 HeapFull"),
            Stop::SerialsEnd => f.write_str("64 SerialsEnd"),
        }
    }
}

/// The line of the thread of a number, from 1, that an exception of a class has ended; the class's
/// name, in code units, stands there as in Jasmin. `AllocError`: a growth was refused.
pub fn ended_line(alloc: Global, number: u64, class: &[u16]) -> Result<String, AllocError>
    ensures { IfOk result (λ line. string_bytes line ≡ ended_line number class.now) }
{
    let class = Name::shared(alloc, class)?;
    format!(in alloc; "jm: thread {number} ended by {class}\n")
}

// What is said of words that are refused.

ghost use Rattle.std.specs.Prelude.{◌≡◌};
ghost use Rattle.clap.specs.Words.{kind_of};
ghost use Rattle.clap.specs.declared.error.kind.ErrorKind.TheVariants as kind;

use crate::fault::UsageFault;
use clap::Error;
use clap::error::ErrorKind;
use std::alloc::{AllocError, Global};

// A usage fault of this text.
fn usage(text: Result<String, AllocError>) -> UsageFault {
    match text {
        Ok(text) => UsageFault::Usage(text),
        Err(_) => UsageFault::OutOfMemory,
    }
}

// The text for words that `clap` took and that ask for nothing.
pub fn nothing_asked(alloc: Global) -> UsageFault {
    usage(String::from_str(
        alloc,
        "error: a value is missing\n\nFor more information, try '--help'.\n",
    ))
}

// The text for an assembly whose class file would take the place of its text.
pub fn one_file(alloc: Global, file: &str) -> UsageFault {
    usage(format!(in alloc;
        "error: '{file}' is both IN and OUT\n\nFor more information, try '--help'.\n"
    ))
}

/// What is said where the file that would be written is one of those that are read.
pub fn read_and_written(alloc: Global, file: &str) -> UsageFault {
    usage(format!(in alloc;
        "error: '{file}' is read, and would be written over\n\nFor more information, try '--help'.\n"
    ))
}

// The text for a number or a name of which there is nothing to say.
pub fn unknown_entry(alloc: Global, word: &str) -> UsageFault {
    usage(format!(in alloc;
        "error: invalid value '{word}' for '[N|NAME]': no refusal and no status has this number or name\n\nFor those that there are, try 'jm explain'.\n"
    ))
}

// The text for a kind of collection that there is not.
pub fn unknown_stress(alloc: Global, kind: &str) -> UsageFault {
    usage(format!(in alloc;
        "error: invalid value '{kind}' for '--stress <KIND>'\n  [possible values: minor, full]\n\nFor more information, try '--help'.\n"
    ))
}

// The text for collections between the events of several workers.
pub fn stress_of_several(alloc: Global) -> UsageFault {
    usage(String::from_str(
        alloc,
        "error: the argument '--stress <KIND>' cannot be used with several workers\n\nFor more information, try '--help'.\n",
    ))
}

// What `clap` refuses words with.
pub fn refusal(alloc: Global, error: &Error) -> UsageFault
    ensures { kind_of error.now ≡ kind.OutOfMemory → result ≡ UsageFault.OutOfMemory }
{
    if error.kind() == ErrorKind::OutOfMemory {
        return UsageFault::OutOfMemory;
    }
    usage(format!(in alloc; "{error}"))
}

// The files of a program, as they are read and what they hold.

ghost use Rattle.std.specs.Prelude.{◌≡◌, IfOk};
ghost use Rattle.jm.specs.Program.{class_in, is_read};

use crate::files::input_file;
use jm_class_path::FileReader;
use jm_execute::{Contents, InputFile, Obstacle, class_of};
use jm_program::Class;
use std::alloc::{AllocError, Global};

// Whether a file was read, as far as memory was not refused.
fn is_read(file: &InputFile) -> bool
    ensures { result ≡ is_read file.now }
{
    match &file.contents {
        Contents::Bytes(_) | Contents::OutOfMemory => true,
        Contents::NotRead => false,
    }
}

// The class that a file holds, if it holds one.
fn class_in(alloc: Global, file: &InputFile) -> Result<Option<Class>, AllocError>
    ensures { IfOk result (λ class. class ≡ class_in file.now) }
{
    match class_of(alloc, file) {
        Ok(class) => Ok(Some(class)),
        Err(Obstacle::Refused(_)) => Ok(None),
        Err(Obstacle::OutOfMemory) => Err(AllocError),
    }
}

/// Where the files of a program are read.
#[derive(Clone, Copy)]
pub struct Disk<'a> {
    pub rt: &'a HostRuntime,
}

impl FileReader<InputFile> for Disk<'_> {
    ghost use Rattle.jm.specs.Program.{input_files};

    ghost facts = { input_files };

    fn read_file(&self, _alloc: Global, name: &str) -> Result<InputFile, AllocError> {
        input_file(self.rt, name)
    }

    fn is_read(&self, file: &InputFile) -> bool {
        is_read(file)
    }

    fn class_in(&self, alloc: Global, file: &InputFile) -> Result<Option<Class>, AllocError> {
        class_in(alloc, file)
    }
}

// How the files of a program are read.

ghost use Rattle.std.specs.Prelude.{◌≡◌, IfOk};

use jm_program::Class;
use std::alloc::{AllocError, Global};

/// Reads files by their names, and the classes in them. What a file is, and what it holds, the reader says itself.
pub trait FileReader<F> {
    ghost use Rattle.jm_class_path.specs.Files.{FileFacts};

    /// The name of each file, whether it was read, and the class that it holds, if it holds one.
    ghost facts: { FileFacts F };

    /// The file of a name, with what reading it came to. The error says that a growth was refused.
    fn read_file(&self, alloc: Global, name: &str) -> Result<F, AllocError>
        ensures { IfOk result (λ file. facts.name_of file ≡ name.now) };

    /// Whether a file was read.
    fn is_read(&self, file: &F) -> bool
        ensures { result ≡ facts.is_read file.now };

    /// The class that a file holds, if it holds one. The error says that a growth was refused.
    fn class_in(&self, alloc: Global, file: &F) -> Result<Option<Class>, AllocError>
        ensures { IfOk result (λ class. class ≡ facts.class_in file.now) };
}

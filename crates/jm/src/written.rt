// The file that is written, beside those that are read.

use jm_command::{file_named, file_written, program_asked};
use jm_execute::InputFile;
use jm_options::Options;
use std::fs;
use std::os::unix::fs::MetadataExt;

/// A regular file, by its device and its number there. All names of one file have the same two.
#[derive(Clone, Copy, PartialEq, Eq)]
struct RegularFile {
    device: u64,
    number: u64,
}

// The regular file that a name leads to; none where it leads to nothing, or to what is no regular file.
fn regular_file(rt: &HostRuntime, name: &str) -> Option<RegularFile> {
    let found = fs::metadata(rt, name).ok()?;
    if found.is_file() {
        Some(RegularFile {
            device: found.dev(),
            number: found.ino(),
        })
    } else {
        None
    }
}

// Whether a regular file is one of those that are read.
fn is_read(rt: &HostRuntime, asked: &Options, file: RegularFile) -> bool {
    if let Some(name) = file_named(asked) {
        if regular_file(rt, name) == Some(file) {
            return true;
        }
    }
    let Some(program) = program_asked(asked) else {
        return false;
    };
    for name in &program.files {
        if regular_file(rt, name) == Some(file) {
            return true;
        }
    }
    false
}

/// The name of the file that is written, where it is a regular file that is read too.
pub fn written_over<'a>(rt: &HostRuntime, asked: &'a Options) -> Option<&'a str> {
    let name = file_written(asked)?;
    let file = regular_file(rt, name)?;
    if is_read(rt, asked, file) {
        Some(name)
    } else {
        None
    }
}

/// The name of the file that is written, where it is a regular file and one of a program's.
pub fn written_over_program<'a>(
    rt: &HostRuntime,
    asked: &'a Options,
    program: &[InputFile],
) -> Option<&'a str> {
    let name = file_written(asked)?;
    let file = regular_file(rt, name)?;
    for read in program {
        if regular_file(rt, &read.name) == Some(file) {
            return Some(name);
        }
    }
    None
}

// Files from their names.

ghost use Rattle.std.specs.Prelude.{◌≡◌, IfOk, MatchResult, None, Some, [], option_map};
ghost use Rattle.jm.specs.Program.{AreNoProgram, AreNotRead, AreProgram, AreProgramIfAsked, AreRead};
ghost use Rattle.jm_command.specs.Named.{name_of, program_asked};

use crate::disk::Disk;
use crate::sources::sources_of;
use jm_class_path::{ProgramFault, program_files};
use jm_command::{FilesRead, file_named, folder_named, program_asked};
use jm_execute::{Contents, InputFile};
use jm_options::{Options, ProgramOptions};
use jm_page::Source;
use std::alloc::AllocError;
use std::fs;
use std::io::ErrorKind;

/// The file of a name, with what reading it came to. The error says that a growth was refused.
pub fn input_file(rt: &HostRuntime, name: &str) -> Result<InputFile, AllocError>
    ensures { IfOk result (λ file. name_of file ≡ name.now) }
{
    let name = String::from_str(rt.alloc(), name)?;
    let contents = match fs::read(rt, name.as_str()) {
        Ok(bytes) => Contents::Bytes(bytes),
        Err(error) => match error.kind() {
            ErrorKind::OutOfMemory => Contents::OutOfMemory,
            _ => Contents::NotRead,
        },
    };
    Ok(InputFile { name, contents })
}

// The file of a name, where one is given.
fn file_if_named(rt: &HostRuntime, name: Option<&str>) -> Result<Option<InputFile>, AllocError>
    ensures { IfOk result (λ file. option_map (λ file. name_of file) file ≡ option_map (λ given. given.now) name.entry) }
{
    match name {
        Some(name) => Ok(Some(input_file(rt, name)?)),
        None => Ok(None),
    }
}

// The sources of a program below a folder, where one is given.
fn sources_if_named(
    rt: &HostRuntime,
    folder: Option<&str>,
    program: &[InputFile],
) -> Result<Vec<Source>, AllocError>
    ensures { IfOk result (λ sources. option_map (λ given. given.now) folder.entry ≡ None → sources.items ≡ []) }
{
    match folder {
        Some(folder) => sources_of(rt, folder, program),
        None => Ok(Vec::new(rt.alloc())),
    }
}

// The files of a program that is asked for, its main class's first.
fn program_read(rt: &HostRuntime, asked: &ProgramOptions) -> Result<Vec<InputFile>, ProgramFault>
    ensures { MatchResult result (λ files. AreProgram asked.now (Some files.items)) (λ fault. AreNoProgram asked.now fault) }
{
    let disk = Disk { rt };
    program_files(
        rt.alloc(),
        &disk,
        &asked.files,
        &asked.folders,
        asked.main.as_deref(),
    )
}

// The files of a program, where one is asked for.
fn program_if_asked(
    rt: &HostRuntime,
    asked: Option<&ProgramOptions>,
) -> Result<Vec<InputFile>, ProgramFault>
    ensures { let program = option_map (λ program. program.now) asked.entry in
        MatchResult result (λ files. AreProgramIfAsked program files.items) (λ fault. AreNotRead program fault) }
{
    match asked {
        Some(asked) => program_read(rt, asked),
        None => Ok(Vec::new(rt.alloc())),
    }
}

/// The files that options name and those that are found for them, with what reading them came to.
pub fn files_read(rt: &HostRuntime, asked: &Options) -> Result<FilesRead, ProgramFault>
    ensures { MatchResult result (AreRead asked.now) (AreNotRead (program_asked asked.now)) }
{
    let named = file_if_named(rt, file_named(asked))?;
    let program = program_if_asked(rt, program_asked(asked))?;
    let sources = sources_if_named(rt, folder_named(asked), &program)?;
    Ok(FilesRead {
        named,
        program,
        sources,
    })
}

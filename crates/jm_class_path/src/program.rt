// The files of a program: those that are given, and behind them those that are found.

ghost use Rattle.std.specs.Prelude.{◌≡◌, Some, IfOk, MatchResult, map, option_map, string_bytes};
ghost use Rattle.jm_class_path.specs.Programs.{IsNoProgram, IsProgram};

use crate::fault::ProgramFault;
use crate::finder::with_found;
use crate::main_class::with_main;
use crate::reader::FileReader;
use std::alloc::{AllocError, Global};

// The files of these names, in order.
fn files_of<F: Drop, R: FileReader<F>>(
    alloc: Global,
    reader: &R,
    names: &[String],
) -> Result<Vec<F>, AllocError>
    ensures { IfOk result (λ files. map R.facts.name_of files.items ≡ map (λ name. string_bytes name) names.now) }
{
    let mut files = Vec::with_capacity(alloc, names.len())?;
    for name in names {
        files.push(reader.read_file(alloc, name)?)?;
    }
    Ok(files)
}

/// The files of a program, its main class's first: those of these names, and behind them those that are
/// found below the folders for the classes that they use; where the main class is named, its file in
/// front of the others. `NoMain`: it is named, no file holds it, and each holds a
/// class.
pub fn program_files<F: Drop, R: FileReader<F>>(
    alloc: Global,
    reader: &R,
    names: &[String],
    folders: &[String],
    main: Option<&str>,
) -> Result<Vec<F>, ProgramFault>
    ensures { MatchResult result
        (λ files. IsProgram R.facts (map (λ name. string_bytes name) names.now) (map (λ folder. string_bytes folder) folders.now) (option_map (λ text. text.now) main.entry) (Some files.items))
        (λ fault. IsNoProgram R.facts (map (λ name. string_bytes name) names.now) (map (λ folder. string_bytes folder) folders.now) (option_map (λ text. text.now) main.entry) fault) }
{
    let given = files_of(alloc, reader, names)?;
    let files = with_found(alloc, reader, folders, given)?;
    with_main(alloc, reader, main, files)
}

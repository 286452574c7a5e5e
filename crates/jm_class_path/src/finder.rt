// The files that are found for the classes that a program uses.

ghost use Rattle.std.specs.Prelude.{◌≡◌, ◌++◌, IfOk, IfSome, IsSome, OnOk, Some, map, option_map, string_bytes};
ghost use Rattle.jm_class_path.specs.Files.{IsFoundAs, classes_held};
ghost use Rattle.jm_class_path.specs.Lookups.{AreFound, class_of_found, if_found};
ghost use Rattle.jm_class_path.specs.Programs.{AreWithFound};
ghost use Rattle.jm_class_path.specs.Search.{looked_for, next_name};

use crate::class_path::ClassPath;
use crate::folders::{Found, found_for};
use crate::reader::FileReader;
use jm_program::Class;
use std::alloc::{AllocError, Global};

// The classes of the files that hold one.
fn classes_held<F: Drop, R: FileReader<F>>(
    alloc: Global,
    reader: &R,
    files: &[F],
) -> Result<Vec<Class>, AllocError>
    ensures { IfOk result (λ classes. classes.items ≡ classes_held R.facts files.now) }
{
    let mut classes = Vec::new(alloc);
    for file in files {
        if let Some(class) = reader.class_in(alloc, file)? {
            classes.push(class)?;
        }
    }
    Ok(classes)
}

// The search behind the name that was next, for which this was found; the file stands behind others.
fn behind<F: Drop>(
    alloc: Global,
    path: ClassPath,
    files: &mut Vec<F>,
    found: Option<Found<F>>,
) -> Result<ClassPath, AllocError>
    requires next { IsSome (next_name path) }
    requires named { IfSome found (λ f. IfSome f.class (λ class. next_name path ≡ Some class.name)) }
    ensures path { IfOk result (λ after. option_map (λ name. looked_for path name (class_of_found (option_map (λ f. (f.file, f.class)) found))) (next_name path) ≡ Some after) }
    ensures files { OnOk result (files.new.items ≡ files.old.items ++ if_found (option_map (λ f. (f.file, f.class)) found)) }
{
    let Some(Found { file, class }) = found else {
        return Ok(path.not_found());
    };
    files.push(file)?;
    match class {
        Some(class) => path.found(alloc, class),
        None => Ok(path.not_found()),
    }
}

// The files that are found below folders for the names that classes use, and for those that the classes
// in these files use, in the order in which they were found.
fn find_classes<F: Drop, R: FileReader<F>>(
    alloc: Global,
    reader: &R,
    folders: &[String],
    given: Vec<Class>,
) -> Result<Vec<F>, AllocError>
    ensures { IfOk result (λ files. AreFound (IsFoundAs R.facts (map (λ folder. string_bytes folder) folders.now)) given.items files.items) }
{
    let mut path = ClassPath::new(alloc, given)?;
    let mut files = Vec::new(alloc);
    while let Some(name) = path.next_name() {
        let found = found_for(alloc, reader, folders, name)?;
        path = behind(alloc, path, &mut files, found)?;
    }
    Ok(files)
}

/// Some files, and behind them those that are found below folders for the classes that the files use,
/// and for those that these use. Without a folder none is looked for. The error says that a growth was
/// refused.
pub fn with_found<F: Drop, R: FileReader<F>>(
    alloc: Global,
    reader: &R,
    folders: &[String],
    given: Vec<F>,
) -> Result<Vec<F>, AllocError>
    ensures { IfOk result (λ files. AreWithFound R.facts (map (λ folder. string_bytes folder) folders.now) given.items files.items) }
{
    if folders.is_empty() {
        return Ok(given);
    }
    let classes = classes_held(alloc, reader, &given)?;
    let mut found = find_classes(alloc, reader, folders, classes)?;
    let mut files = given;
    files.append(&mut found)?;
    Ok(files)
}

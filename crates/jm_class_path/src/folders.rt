// What is found for the name of a class below folders.

ghost use Rattle.std.specs.Prelude.{◌≡◌, ◌∷◌, [], IfOk, IfSome, map, string_bytes};
ghost use Rattle.jm_class_path.specs.Files.{IsFoundAs, IsFoundIn};
ghost use Rattle.jm_class_path.specs.Places.{paths_below};

use crate::place::{path_of, stays_below};
use crate::reader::FileReader;
use jm_program::{Class, Name};
use std::alloc::{AllocError, Global};

/// A file that was found for the name of a class, and the class that it holds, if it holds one.
#[derive(Drop)]
pub struct Found<F> {
    pub file: F,
    pub class: Option<Class>,
}

// The file of a path with its class, where it was read and holds no class of another name.
fn found_at<F: Drop, R: FileReader<F>>(
    alloc: Global,
    reader: &R,
    path: &str,
    name: &Name,
) -> Result<Option<Found<F>>, AllocError>
    ensures { IfOk result (λ found. IfSome found (λ f. IsFoundIn R.facts (path.now ∷ []) name.now f.file f.class)) }
{
    let file = reader.read_file(alloc, path)?;
    if !reader.is_read(&file) {
        return Ok(None);
    }
    let class = reader.class_in(alloc, &file)?;
    match &class {
        Some(other) if other.parts().name != *name => Ok(None),
        _ => Ok(Some(Found { file, class })),
    }
}

// What is found for a name below a folder: a class file, or else an assembler text.
fn found_below<F: Drop, R: FileReader<F>>(
    alloc: Global,
    reader: &R,
    folder: &str,
    name: &Name,
) -> Result<Option<Found<F>>, AllocError>
    ensures { IfOk result (λ found. IfSome found (λ f. IsFoundIn R.facts (paths_below name.now folder.now) name.now f.file f.class)) }
{
    let class_file = path_of(alloc, folder, name, ".class")?;
    if let Some(found) = found_at(alloc, reader, &class_file, name)? {
        return Ok(Some(found));
    }
    let text = path_of(alloc, folder, name, ".j")?;
    found_at(alloc, reader, &text, name)
}

/// What is found for a name below the first of some folders below which something is. The error says
/// that a growth was refused.
pub fn found_for<F: Drop, R: FileReader<F>>(
    alloc: Global,
    reader: &R,
    folders: &[String],
    name: &Name,
) -> Result<Option<Found<F>>, AllocError>
    ensures { IfOk result (λ found. IfSome found (λ f. IsFoundAs R.facts (map (λ folder. string_bytes folder) folders.now) name.now f.file f.class)) }
{
    if !stays_below(name) {
        return Ok(None);
    }
    for folder in folders {
        if let Some(found) = found_below(alloc, reader, folder, name)? {
            return Ok(Some(found));
        }
    }
    Ok(None)
}

// The sources of a program's classes, below a folder.

use jm_class_path::Utf8;
use jm_execute::{InputFile, class_of};
use jm_page::Source;
use jm_program::Class;
use std::alloc::{AllocError, Global};
use std::fs;
use std::io::ErrorKind;

const SLASH: u16 = 47;

// The name of a class's source below a folder: that of its package and that of its file (JVMS 4.7.10).
// None where it names no file, or one in a folder of its own.
fn source_name(alloc: Global, folder: &str, class: &Class) -> Result<Option<String>, AllocError> {
    let parts = class.parts();
    let Some(file) = &parts.source_file else {
        return Ok(None);
    };
    let file = file.as_slice();
    if file.contains(&SLASH) {
        return Ok(None);
    }
    let units = parts.name.units();
    let package: &[u16] = match units.iter().rposition(|unit| *unit == SLASH) {
        Some(at) => &units[..=at],
        None => &[],
    };
    let name = format!(in alloc; "{folder}/{}{}", Utf8(package), Utf8(file))?;
    Ok(Some(name))
}

// The source of a class, if it is found below a folder and can be read.
fn source_of(rt: &HostRuntime, folder: &str, class: &Class) -> Result<Option<Source>, AllocError> {
    let Some(name) = source_name(rt.alloc(), folder, class)? else {
        return Ok(None);
    };
    let text = match fs::read(rt, name.as_str()) {
        Ok(text) => text,
        Err(error) => {
            return match error.kind() {
                ErrorKind::OutOfMemory => Err(AllocError),
                _ => Ok(None),
            };
        }
    };
    let class = class.parts().name.copy(rt.alloc())?;
    Ok(Some(Source { class, text }))
}

/// The sources of the classes that some files hold, as far as they are found below a folder. A file
/// that holds no class has none. The error says that a growth was refused.
pub fn sources_of(
    rt: &HostRuntime,
    folder: &str,
    files: &[InputFile],
) -> Result<Vec<Source>, AllocError> {
    let mut sources = Vec::new(rt.alloc());
    for file in files {
        let Ok(class) = class_of(rt.alloc(), file) else {
            continue;
        };
        if let Some(source) = source_of(rt, folder, &class)? {
            sources.push(source)?;
        }
    }
    Ok(sources)
}

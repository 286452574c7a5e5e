// What `jm check` does.

ghost use Rattle.std.specs.Prelude.{◌≡◌, ◌++◌, Some, codes, false, IfOk, OnOk, string_bytes};
ghost use Rattle.jm_execute.specs.Checks.{Checks, ChecksIfThereIsMemory, all_told, class_held, classes_held, main_class_of, cause_line, fault_at, fault_in, refused_line, refused_lines, text_fault, told_of};
ghost use Rattle.jm_execute.specs.Reasons.{reason_says};
ghost use Rattle.jm_execute.specs.Refusals.{reason_of};
ghost use Rattle.jm_execute.specs.Verdicts.{because, class_of};
ghost use Rattle.jm_execute.specs.Written.{words};

use crate::file_name::FileName;
use crate::program_file::class_of;
use crate::quote::Quote;
use crate::refusal::{Obstacle, Refusal};
use crate::report::{tell_write_failed, write_out_of_memory};
use crate::watchable::Watchable;
use crate::watched::Watched;
use jm_explain::Status;
use jm_findings::{MainClass, finding_lines};
use jm_jasmin::AsmFault;
use jm_job::{Contents, InputFile};
use jm_program::Class;
use std::alloc::{AllocError, Global};
use std::fmt;
use std::fmt::{Display, Write};

// Why a file holds no class, as a line of standard output says it.
#[derive(Drop)]
struct FileRefused<'a>(Refusal<'a>);

impl Display for FileRefused<'_> {
    ghost output = { λ told. Some (reason_says (reason_of told.0)) };

    fn fmt<W: fmt::Write>(&self, f: &mut fmt::Formatter<W>) -> fmt::Result {
        self.0.write_said(f)
    }
}

// The fault of a text, where a refusal is for one.
fn text_fault(refusal: &Refusal<'_>) -> Option<AsmFault>
    ensures { result ≡ text_fault (reason_of refusal.now) }
{
    match refusal {
        Refusal::BadText(_, fault) => Some(*fault),
        Refusal::NotRead(_)
        | Refusal::BadClass(_, _)
        | Refusal::Unwritten(_, _)
        | Refusal::Unlinked(_)
        | Refusal::HeapTooSmall
        | Refusal::BadSchedule(_) => None,
    }
}

// Writes where the fault of a text is, what is wrong, and its line.
fn add_fault(
    text: &mut String,
    name: &str,
    bytes: &[u8],
    fault: AsmFault,
    line: Option<usize>,
) -> Result<(), AllocError>
    ensures { OnOk result (string_bytes text.new ≡ string_bytes text.old ++ fault_at name.now bytes.now fault line) }
{
    let name = FileName(name);
    match line {
        Some(line) => {
            let quote = Quote { line, text: bytes };
            write!(text, "{name}:{line}: {fault}\n| {quote}\n")
        }
        None => write!(text, "{name}: {fault}\n"),
    }
}

// The same of the text in a file.
fn add_fault_in(text: &mut String, file: &InputFile, fault: AsmFault) -> Result<(), AllocError>
    ensures { OnOk result (string_bytes text.new ≡ string_bytes text.old ++ fault_in (string_bytes file.now.name) file.now.contents fault) }
{
    match &file.contents {
        Contents::Bytes(bytes) => add_fault(text, &file.name, bytes, fault, fault.line()),
        Contents::NotRead | Contents::OutOfMemory => {
            add_fault(text, &file.name, &[], fault, None)
        }
    }
}

// Writes why a file holds no class.
fn add_said(text: &mut String, refusal: Refusal<'_>) -> Result<(), AllocError>
    ensures { OnOk result (string_bytes text.new ≡ string_bytes text.old ++ (reason_says (reason_of refusal.entry) ++ codes "\n")) }
{
    let file = FileRefused(refusal);
    write!(text, "{file}\n")
}

// The same, or the fault of a text at its line.
fn add_refused(
    text: &mut String,
    file: &InputFile,
    refusal: Refusal<'_>,
    placed: bool,
) -> Result<(), AllocError>
    ensures { OnOk result (string_bytes text.new ≡ string_bytes text.old ++ cause_line placed file.now (because (reason_of refusal.entry))) }
{
    if !placed {
        return add_said(text, refusal);
    }
    match text_fault(&refusal) {
        Some(fault) => add_fault_in(text, file, fault),
        None => add_said(text, refusal),
    }
}

// What was seen of files: the classes that they hold, a line for each that holds none, and whether the
// main class is among the classes.
#[derive(Drop)]
struct Seen {
    classes: Vec<Class>,
    refused: String,
    main: MainClass,
}

// Looks at one more file.
fn see_file(
    alloc: Global,
    seen: &mut Seen,
    file: &InputFile,
    placed: bool,
) -> Result<(), AllocError>
    ensures classes { OnOk result (seen.new.classes.items ≡ seen.old.classes.items ++ class_held (class_of file.now)) }
    ensures refused { OnOk result (string_bytes seen.new.refused ≡ string_bytes seen.old.refused ++ refused_line placed file.now (class_of file.now)) }
    ensures main { OnOk result (seen.new.main ≡ seen.old.main) }
{
    match class_of(alloc, file) {
        Ok(class) => {
            seen.classes.push(class)?;
            Ok(())
        }
        Err(Obstacle::Refused(refusal)) => { add_refused(&mut seen.refused, file, refusal, placed) }
        Err(Obstacle::OutOfMemory) => Err(AllocError),
    }
}

// Looks at some more files.
fn see_more(
    alloc: Global,
    seen: &mut Seen,
    files: &[InputFile],
    placed: bool,
) -> Result<(), AllocError>
    ensures classes { OnOk result (seen.new.classes.items ≡ seen.old.classes.items ++ classes_held files.now) }
    ensures refused { OnOk result (string_bytes seen.new.refused ≡ string_bytes seen.old.refused ++ refused_lines placed files.now) }
    ensures main { OnOk result (seen.new.main ≡ seen.old.main) }
{
    for file in files {
        see_file(alloc, seen, file, placed)?;
    }
    Ok(())
}

// Looks at all files. The main class is that of the first.
fn see_files(alloc: Global, files: &[InputFile], placed: bool) -> Result<Seen, AllocError>
    ensures classes { IfOk result (λ seen. seen.classes.items ≡ classes_held files.now) }
    ensures refused { IfOk result (λ seen. string_bytes seen.refused ≡ refused_lines placed files.now) }
    ensures main { IfOk result (λ seen. seen.main ≡ main_class_of files.now) }
{
    let mut seen = Seen {
        classes: Vec::new(alloc),
        refused: String::new(alloc),
        main: MainClass::First,
    };
    let Some((first, others)) = files.split_first() else {
        return Ok(seen);
    };
    see_file(alloc, &mut seen, first, placed)?;
    if seen.classes.is_empty() {
        seen.main = MainClass::Unknown;
    }
    see_more(alloc, &mut seen, others, placed)?;
    Ok(seen)
}

/// All that is told of files: a line for each that holds no class, where the fault of a text is placed at its
/// line or not, and all that linking refuses. `AllocError`: a growth was refused.
pub(crate) fn findings_of(
    alloc: Global,
    files: &[InputFile],
    placed: bool,
) -> Result<String, AllocError>
    ensures { IfOk result (λ text. string_bytes text ≡ told_of placed files.now) }
{
    let Seen {
        classes,
        refused: mut text,
        main,
    } = see_files(alloc, files, placed)?;
    let lines = finding_lines(alloc, &classes, main)?;
    write!(text, "{lines}")?;
    Ok(text)
}

// Writes what is told of files.
fn tell<O: Watchable, E: Watchable>(
    text: &str,
    out: &mut Watched<O>,
    err: &mut Watched<E>,
) -> Status
    requires out { out.old.failed ≡ false }
    requires err { err.old.failed ≡ false }
    ensures { Checks (words O.contents O.ends) (words E.contents E.ends) text.now result out.old out.new err.old err.new }
{
    match out.write_all(text.as_bytes()) {
        Ok(()) => {
            if text.is_empty() {
                Status::Done
            } else {
                Status::Refused
            }
        }
        Err(_) => {
            tell_write_failed(err);
            Status::Files
        }
    }
}

/// Reads, assembles and links the classes of files without running them, and writes to `out` all that
/// is refused: a line for each file that could not be read or holds no class, in their order, and then
/// a line for each finding of linking among the classes of the others (`jm_findings`). Where the first
/// file holds no class nothing is told of a main class. The status is `Done` where there is nothing to
/// tell, which is exactly where the program loads, and else `Refused`.
///
/// Where a growth was refused nothing is written to `out`, `err` gets the line that says so, and the
/// status is `OutOfMemory`. Where a write to `out` fails, a beginning of the lines stands in it, `err`
/// gets a line that says so, and the status is `Files`. A failing `err` changes no status.
pub fn check<O: Watchable, E: Watchable>(
    alloc: Global,
    files: &[InputFile],
    out: &mut Watched<O>,
    err: &mut Watched<E>,
) -> Status
    requires out { out.old.failed ≡ false }
    requires err { err.old.failed ≡ false }
    ensures { ChecksIfThereIsMemory (words O.contents O.ends) (words E.contents E.ends) files.now result out.old out.new err.old err.new }
{
    match findings_of(alloc, files, false) {
        Ok(text) => tell(&text, out, err),
        Err(_) => {
            let _told = write_out_of_memory(err);
            Status::OutOfMemory
        }
    }
}

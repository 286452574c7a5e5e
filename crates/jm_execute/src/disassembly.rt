// From a class file, or from an assembler text, to the text of its class.

ghost use Rattle.std.specs.Prelude.{◌≡◌, not, IfErr, IfOk, string_bytes};
ghost use Rattle.jm_execute.specs.ClassTexts.{IsTextOf, unsaid_line, unsaid_status};
ghost use Rattle.jm_execute.specs.Refusals.{GivesText};
ghost use Rattle.jm_execute.specs.Verdicts.{class_of};

use crate::file_name::FileName;
use crate::program_file::class_of;
use crate::refusal::Obstacle;
use jm_disassembler::{Unsaid, class_text, first_unsaid};
use jm_explain::Status;
use jm_job::DisassembleJob;
use jm_program::Class;
use std::alloc::{AllocError, Global};

/// The text of a class, and the first part of the class that its text cannot say.
#[derive(Drop)]
pub struct ClassText {
    pub text: String,
    pub unsaid: Option<Unsaid>,
}

/// The line of the first part of the class in the file of this name that its text cannot say, if there is
/// one. `AllocError`: a growth was refused.
pub(crate) fn unsaid_line(
    alloc: Global,
    file: &str,
    unsaid: Option<Unsaid>,
) -> Result<String, AllocError>
    ensures { IfOk result (λ line. string_bytes line ≡ unsaid_line file.now unsaid) }
{
    match unsaid {
        None => Ok(String::new(alloc)),
        Some(part) => {
            let file = FileName(file);
            format!(in alloc; "jm: {file}: 90 NoText({part})\n")
        }
    }
}

/// The status of a text of a class, by the first part of it that its text cannot say.
pub(crate) fn unsaid_status(unsaid: Option<Unsaid>) -> Status
    ensures { result ≡ unsaid_status unsaid }
{
    match unsaid {
        None => Status::Done,
        Some(_) => Status::Refused,
    }
}

// The text of a class, without comments or with them.
fn text_of<'a>(alloc: Global, bare: bool, class: &Class) -> Result<ClassText, Obstacle<'a>>
    ensures text { IfOk result (IsTextOf (not bare) class.now) }
    ensures memory { IfErr result (λ obstacle. obstacle ≡ Obstacle.OutOfMemory) }
{
    match class_text(alloc, !bare, class) {
        Ok(text) => Ok(ClassText {
            text,
            unsaid: first_unsaid(class),
        }),
        Err(_) => Err(Obstacle::OutOfMemory),
    }
}

/// The text of the class that a job's file holds, also where a part of the class can stand in no
/// text. Where the file could not be read that is the obstacle, and then what is wrong with it.
pub fn disassemble_file(alloc: Global, job: &DisassembleJob) -> Result<ClassText, Obstacle<'_>>
    ensures { GivesText (not job.now.bare) result (class_of job.now.file) }
{
    let class = class_of(alloc, &job.file)?;
    text_of(alloc, job.bare, &class)
}

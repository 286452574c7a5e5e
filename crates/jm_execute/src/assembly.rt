// From an assembler text to the bytes of a class file.

ghost use Rattle.jm_execute.specs.Refusals.{GivesAssembled};
ghost use Rattle.jm_execute.specs.Verdicts.{assembly_verdict};

use crate::files::bytes_of;
use crate::program_file::{class_in_text, written_class};
use crate::refusal::Obstacle;
use jm_job::InputFile;
use std::alloc::Global;

/// The bytes of the class file of the class that a text denotes. Where the text could not be read
/// that is the obstacle; then what is wrong with the text, and then the limit of class files that
/// its class passes.
#[tactic(auto, unfolding(crate::specs::Verdicts::assembly_verdict))]
pub fn assemble_file(alloc: Global, file: &InputFile) -> Result<Vec<u8>, Obstacle<'_>>
    ensures { GivesAssembled result (assembly_verdict file.now) }
{
    let text = bytes_of(file)?;
    let class = class_in_text(alloc, &file.name, text)?;
    written_class(alloc, &file.name, &class)
}

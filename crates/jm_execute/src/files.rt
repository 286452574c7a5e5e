// What was read of the files of a job.

ghost use Rattle.jm_execute.specs.Refusals.{Gives};
ghost use Rattle.jm_execute.specs.Verdicts.{all_read, bytes_of};

use crate::refusal::{Obstacle, Refusal};
use jm_job::{Contents, InputFile};

/// The bytes of a file.
pub fn bytes_of(file: &InputFile) -> Result<&[u8], Obstacle<'_>>
    ensures { Gives result (bytes_of file.now) (λ bytes. bytes.now) }
{
    match &file.contents {
        Contents::Bytes(bytes) => Ok(bytes),
        Contents::NotRead => Err(Obstacle::Refused(Refusal::NotRead(&file.name))),
        Contents::OutOfMemory => Err(Obstacle::OutOfMemory),
    }
}

/// Whether all of the files were read; the first that was not is the obstacle.
pub fn check_read(files: &[InputFile]) -> Result<(), Obstacle<'_>>
    ensures { Gives result (all_read files.now) (λ read. read) }
{
    for file in files {
        let _bytes = bytes_of(file)?;
    }
    Ok(())
}

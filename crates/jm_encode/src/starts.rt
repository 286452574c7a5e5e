// Where the instructions of a code begin.

ghost use Rattle.std.specs.Prelude.{◌≡◌, length};
ghost use Rattle.jm_bytes.specs.Reading.{GivesAll};
ghost use Rattle.jm_encode.specs.declared.fault.EncodeFault.TheVariants.{OutOfMemory};
ghost use Rattle.jm_encode.specs.Encoding.{all_starts};

use crate::fault::EncodeFault;
use crate::size::size_at;
use jm_class_format::IndexedInstr;
use jm_program::MAX_CODE_BYTES;
use std::alloc::Global;

/// The offset of each instruction, unless the code is too long.
#[tactic(auto, unfolding(crate::specs::Encoding::all_starts), using(crate::proofs::LaidOut::layout_steps))]
pub fn all_starts(alloc: Global, instructions: &[IndexedInstr]) -> Result<Vec<u16>, EncodeFault>
    ensures { GivesAll (λ v. v.items) OutOfMemory result (all_starts instructions.now) }
{
    let mut starts = Vec::new(alloc);
    let mut at: u16 = 0;
    for instr in instructions {
        let size = size_at(at, instr);
        if MAX_CODE_BYTES - usize::from(at) < size {
            return Err(EncodeFault::CodeTooLong);
        }
        starts.push(at)?;
        at += size as u16;
    }
    Ok(starts)
}

// The code of a method in bytes.

ghost use Rattle.std.specs.Prelude.{◌≡◌, ◌<◌, ◌≤◌, length, IsTrue, IfOk, OnOk, All};
ghost use Rattle.std.specs.List.{list_all};
ghost use Rattle.jm_bytes.specs.Reading.{GivesAll};
ghost use Rattle.jm_class_format.specs.Code.{code};
ghost use Rattle.jm_encode.specs.declared.fault.EncodeFault.TheVariants.{OutOfMemory};
ghost use Rattle.jm_encode.specs.Encoding.{has_bytes, placed_from, starts_from, end_from, texts, placed_text, encoded};
ghost use Rattle.jm_encode.specs.Ranges.{InRange};

use crate::encoded::EncodedCode;
use crate::fault::EncodeFault;
use crate::instruction::put_instruction;
use crate::starts::all_starts;
use jm_class_format::IndexedInstr;
use jm_program::Sequence;
use std::alloc::Global;

/// The bytes of instructions that begin at these offsets.
fn all_bytes(
    alloc: Global,
    starts: &[u16],
    instructions: &[IndexedInstr],
) -> Result<Vec<u8>, EncodeFault>
    requires starts { starts.now ≡ starts_from 0 instructions.now }
    requires short { end_from 0 instructions.now ≤ 65535 }
    requires rules { IsTrue (list_all has_bytes instructions.now) }
    ensures given { GivesAll (λ v. v.items) OutOfMemory result (texts (placed_text starts.now) (placed_from 0 instructions.now)) }
    ensures range { OnOk result (All InRange instructions.now) }
{
    let mut out = Vec::new(alloc);
    for (i, instr) in instructions.iter().enumerate() {
        put_instruction(&mut out, starts, starts[i], instr)?;
    }
    Ok(out)
}

/// The bytes that spell instructions, and where each begins (JVMS 4.7.3, 6.5). A target is the
/// number of an instruction, and what an instruction names an index of the constant pool. An
/// index up to 255 takes the short form of its instruction, and padding is zeros.
///
/// There is at least one instruction, each switch keeps its rules (JVMS 6.5 tableswitch,
/// lookupswitch), and an interface method is invoked by `InvokeInterface` alone.
///
/// # Errors
/// [`EncodeFault::CodeTooLong`] where the code would have more than 65,535 bytes. Else, at the
/// first instruction at which one of them comes, [`EncodeFault::BadTarget`] for a target that is
/// no instruction's number, and [`EncodeFault::BranchTooFar`] for one that is farther than 16
/// bits can say. [`EncodeFault::OutOfMemory`] where a growth was refused.
#[tactic(auto, unfolding(crate::specs::Encoding::encoded))]
pub fn encode_code(alloc: Global, instructions: &[IndexedInstr]) -> Result<EncodedCode, EncodeFault>
    requires some { 0 < length instructions.now }
    requires rules { IsTrue (list_all has_bytes instructions.now) }
    ensures given { GivesAll (λ e. e) OutOfMemory result (encoded instructions.now) }
    ensures range { OnOk result (All InRange instructions.now) }
    // The bytes spell the instructions at their offsets.
    ensures spelled { IfOk result (λ e. code.Spells e.bytes (placed_from 0 instructions.now)) }
{
    let starts = all_starts(alloc, instructions)?;
    let bytes = all_bytes(alloc, &starts, instructions)?;
    Ok(EncodedCode {
        bytes: Sequence::new(bytes),
        starts: Sequence::new(starts),
    })
}

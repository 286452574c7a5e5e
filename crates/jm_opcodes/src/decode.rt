//! The code of a method: its instructions one after the other, then their targets as numbers.

ghost use Rattle.std.specs.Prelude.{◌≡◌, ◌<◌, ◌≤◌, length, map, List, Ok, IfOk, OnOk};
ghost use Rattle.jm_bytes.specs.Reading.{Gives, GivesAll};
ghost use Rattle.jm_bytes.specs.Format.{Format, Whole};
ghost use Rattle.jm_class_format.specs.declared.fault.CodeFault.TheVariants.{OutOfMemory};
ghost use Rattle.jm_class_format.specs.declared.instruction.PlacedInstr.{PlacedInstr};
ghost use Rattle.jm_class_format.specs.Code.{placed, placed_code, code};

use crate::instruction::instruction;
use crate::starts::Starts;
use crate::targets::all_numbered;
use jm_bytes::Reader;
use jm_class_format::{CodeFault, PlacedInstr};
use jm_program::MAX_CODE_BYTES;
use std::alloc::Global;

/// The instruction that stands at an offset of the code, with its offset.
#[tactic(auto, unfolding(jm_class_format::specs::Code::placed))]
fn placed(alloc: Global, at: usize, reader: &mut Reader<'_>) -> Result<PlacedInstr, CodeFault>
    ensures given { Gives (λ x. x) OutOfMemory result reader.new ((placed at).read reader.old) }
    ensures fewer { OnOk result (length reader.new < length reader.old) }
    ensures early { OnOk result (at < 65535) }
{
    if at >= MAX_CODE_BYTES {
        return Err(CodeFault::BadOpcode(65_535));
    }
    let offset = at as u32;
    let instr = instruction(alloc, offset, reader)?;
    Ok(PlacedInstr { offset, instr })
}

/// The instructions one after the other, their targets still offsets.
#[tactic(auto, using(jm_bytes::proofs::Loops::run_steps, jm_class_format::specs::Code::placed_filled))]
fn placed_in(alloc: Global, bytes: &[u8]) -> Result<Vec<PlacedInstr>, CodeFault>
    ensures few { IfOk result (λ v. length v.items ≤ 65535) }
    ensures given { GivesAll (λ v. v.items) OutOfMemory result (placed_code.read bytes.now) }
{
    let mut all = Vec::with_capacity(alloc, bytes.len().min(MAX_CODE_BYTES))?;
    let mut reader = Reader::new(bytes);
    while !reader.is_empty() {
        let at = bytes.len() - reader.len();
        let one = placed(alloc, at, &mut reader)?;
        all.push(one)?;
    }
    Ok(all)
}

/// The instructions that the bytes of a code spell, and where they begin: as [`decode_code`], whose
/// errors it has, for callers that look offsets up.
#[tactic(auto, unfolding(jm_class_format::specs::Code::code))]
pub fn decode_placed(alloc: Global, bytes: &[u8]) -> Result<(Vec<PlacedInstr>, Starts), CodeFault>
    ensures few { IfOk result (λ x. length x.0.items ≤ 65535) }
    ensures starts { IfOk result (λ x. x.1 ≡ map (λ (p : PlacedInstr). p.offset) x.0.items) }
    ensures given { GivesAll (λ x. x.0.items) OutOfMemory result (code.read bytes.now) }
{
    let placed = placed_in(alloc, bytes)?;
    let all = all_numbered(alloc, placed)?;
    Ok(all)
}

fn code_in(alloc: Global, bytes: &[u8]) -> Result<Vec<PlacedInstr>, CodeFault>
    ensures few { IfOk result (λ v. length v.items ≤ 65535) }
    ensures given { GivesAll (λ v. v.items) OutOfMemory result (code.read bytes.now) }
{
    let placed = decode_placed(alloc, bytes)?;
    Ok(placed.0)
}

/// The instructions that the bytes of a code spell, each with the offset of its opcode and with
/// the numbers of its targets (JVMS 4.7.3, 4.9.1, 6.5).
///
/// # Errors
/// The first of these in the order of the bytes: [`CodeFault::BadOpcode`] and
/// [`CodeFault::LeftOut`] where an instruction is none that is read or begins behind the 65,535
/// bytes that a code can have, and [`CodeFault::Cut`] where the bytes end inside one or there is
/// none. Else [`CodeFault::BadTarget`] where a branch leads to no instruction. [`CodeFault::OutOfMemory`] where a growth was refused.
pub fn decode_code(alloc: Global, bytes: &[u8]) -> Result<Vec<PlacedInstr>, CodeFault>
    ensures few { IfOk result (λ v. length v.items ≤ 65535) }
    ensures spelled { IfOk result (λ v. code.Spells bytes.now v.items) }
    // What the bytes spell is given, unless memory runs out.
    ensures only { (instrs : List PlacedInstr) → code.Spells bytes.now instrs → GivesAll (λ v. v.items) OutOfMemory result (Ok instrs) }
    // A fault is the one that the definition names.
    ensures exact { GivesAll (λ v. v.items) OutOfMemory result (code.read bytes.now) }
{
    code_in(alloc, bytes)
}

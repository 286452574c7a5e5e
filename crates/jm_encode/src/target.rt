// Targets in bytes: the signed distance from the branch's own opcode (JVMS 6.5 goto).

ghost use Rattle.std.specs.Prelude.{◌≡◌};
ghost use Rattle.jm_bytes.specs.Reading.{GivesAll, TakesAll};
ghost use Rattle.jm_bytes.proofs.Loops.{with_front_all};
ghost use Rattle.jm_encode.specs.declared.fault.EncodeFault.TheVariants.{OutOfMemory};
ghost use Rattle.jm_encode.specs.Encoding.{distance, in_16_bits, near_text, far_text, branch_text};

use crate::fault::EncodeFault;
use crate::opcode_byte::branch_byte;
use jm_bytes::{put_s2, put_s4};
use jm_program::Branch;

/// How far the instruction of a number is from an offset.
#[tactic(auto, unfolding(crate::specs::Encoding::distance))]
fn distance(starts: &[u16], at: u16, target: u32) -> Result<i32, EncodeFault>
    ensures { TakesAll (λ jump. jump) result (distance starts.now at target) }
{
    let start = starts.get(target as usize).ok_or(EncodeFault::BadTarget)?;
    Ok(i32::from(*start) - i32::from(at))
}

/// The distance, unless it is too far for 16 bits.
#[tactic(auto, unfolding(crate::specs::Encoding::in_16_bits))]
fn in_16_bits(jump: i32) -> Result<i16, EncodeFault>
    ensures { TakesAll (λ jump. jump) result (in_16_bits jump) }
{
    if -32_768 <= jump && jump <= 32_767 {
        Ok(jump as i16)
    } else {
        Err(EncodeFault::BranchTooFar)
    }
}

/// Appends a target in two bytes.
#[tactic(auto, unfolding(crate::specs::Encoding::near_text, jm_bytes::proofs::Loops::with_front_all))]
fn put_near(out: &mut Vec<u8>, starts: &[u16], at: u16, target: u32) -> Result<(), EncodeFault>
    ensures { GivesAll (λ _. out.new.items) OutOfMemory result (with_front_all out.old.items (near_text starts.now at target)) }
{
    let jump = distance(starts, at, target)?;
    let jump = in_16_bits(jump)?;
    put_s2(out, jump)?;
    Ok(())
}

/// Appends a target in four bytes.
#[tactic(auto, unfolding(crate::specs::Encoding::far_text, jm_bytes::proofs::Loops::with_front_all))]
pub fn put_far(out: &mut Vec<u8>, starts: &[u16], at: u16, target: u32) -> Result<(), EncodeFault>
    ensures { GivesAll (λ _. out.new.items) OutOfMemory result (with_front_all out.old.items (far_text starts.now at target)) }
{
    let jump = distance(starts, at, target)?;
    put_s4(out, jump)?;
    Ok(())
}

/// Appends a branch that stands at an offset.
#[tactic(auto, unfolding(crate::specs::Encoding::branch_text, jm_bytes::proofs::Loops::with_front_all))]
pub fn put_branch(
    out: &mut Vec<u8>,
    starts: &[u16],
    at: u16,
    branch: Branch,
    target: u32,
) -> Result<(), EncodeFault>
    ensures { GivesAll (λ _. out.new.items) OutOfMemory result (with_front_all out.old.items (branch_text starts.now at branch target)) }
{
    out.push(branch_byte(branch))?;
    match branch {
        Branch::GotoW => put_far(out, starts, at, target),
        _ => put_near(out, starts, at, target),
    }
}

//! Where the instructions of a code begin, and which instruction begins at an offset.

ghost use Rattle.std.specs.Prelude.{◌≡◌, ◌==◌, ◌<◌, ◌^◌, [], List, ℕ, length, map, OnOk, IfOk};
ghost use Rattle.std.specs.List.{position};
ghost use Rattle.jm_class_format.specs.declared.instruction.PlacedInstr.{PlacedInstr};
ghost use Rattle.jm_opcodes.specs.StartTable.{IsTable, Notes};

use jm_class_format::PlacedInstr;
use std::alloc::{AllocError, Global};
use std::marker::Model;

/// Where the instructions of a code begin. In a contract it is the list of their offsets.
#[derive(Drop)]
pub struct Starts {
    starts: Vec<u32>,
    numbers: Vec<Option<u32>>,
}

impl Model for Starts {
    ghost use Rattle.std.specs.Prelude.{List, ℕ};
    ghost use Rattle.jm_opcodes.specs.StartTable.{IsTable};

    ghost Value = { List ℕ };

    ghost view = { λ s. s.starts.items };

    ghost invariant = { λ s. IsTable s.numbers.items s.starts.items };
}

/// Puts down that the instruction of that number begins at an offset, unless one does already.
fn note(numbers: &mut Vec<Option<u32>>, start: u32, number: u32) -> Result<(), AllocError>
    ensures { OnOk result (Notes numbers.old.items numbers.new.items start number) }
{
    let start = start as usize;
    if numbers.len() <= start {
        numbers.resize(start + 1, None)?;
    }
    if numbers[start].is_none() {
        numbers[start] = Some(number);
    }
    Ok(())
}

// A place for each offset up to the last instruction's, with no number yet.
#[tactic(auto, using(crate::proofs::Positions::nothing_noted))]
fn no_numbers(alloc: Global, starts: &[u32]) -> Result<Vec<Option<u32>>, AllocError>
    ensures { IfOk result (λ v. IsTable v.items []) }
{
    let mut numbers = Vec::new(alloc);
    let Some(last) = starts.last() else {
        return Ok(numbers);
    };
    numbers.resize(*last as usize + 1, None)?;
    Ok(numbers)
}

fn numbers_of(alloc: Global, starts: &[u32]) -> Result<Vec<Option<u32>>, AllocError>
    requires { length starts.now < 2 ^ 32 }
    ensures { IfOk result (λ v. IsTable v.items starts.now) }
{
    let mut numbers = no_numbers(alloc, starts)?;
    for (number, start) in starts.iter().enumerate() {
        note(&mut numbers, *start, number as u32)?;
    }
    Ok(numbers)
}

impl Starts {
    /// Where these instructions begin.
    ///
    /// # Errors
    /// [`AllocError`] where a growth was refused.
    pub fn new(alloc: Global, code: &[PlacedInstr]) -> Result<Starts, AllocError>
        requires { length code.now < 2 ^ 32 }
        ensures { IfOk result (λ s. s ≡ map (λ (p : PlacedInstr). p.offset) code.now) }
    {
        let starts: Vec<u32> = code.iter().map(|p| p.offset).collect(alloc)?;
        let numbers = numbers_of(alloc, &starts)?;
        Ok(Starts { starts, numbers })
    }

    /// The number of the instruction that begins at an offset, if one does.
    pub fn number_at(&self, offset: u32) -> Option<u32>
        ensures { result ≡ position (λ start. start == offset) self.now }
    {
        match self.numbers.get(offset as usize) {
            Some(number) => *number,
            None => None,
        }
    }
}

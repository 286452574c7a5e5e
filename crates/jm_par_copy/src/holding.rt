// The blocks that a copier was given.

ghost use Rattle.std.specs.Prelude.{◌≡◌, ◌≢◌, ℕ, ◌<◌, ◌≤◌, List, OnOk, Some, length, slice_get};
ghost use Rattle.jm_par_copy.specs.Holding.{AreGiven, AreSamePieces};
ghost use Rattle.jm_par_copy.specs.Notes.{AreNoted, KeepsListed};
ghost use Rattle.jm_par_copy.specs.Claiming.{KeepsClaiming};
ghost use Rattle.jm_par_copy.specs.Steps.{CanForward, IsAtGiven, Learns, ScansGiven};

use crate::gate::Gate;
use crate::piece::{Piece, scan_piece};
use crate::round::{Own, Round};
use jm_copy::Marks;
use std::alloc::{AllocError, Global};

// Scans one block of those that the copier was given, to its end. The marks are those of its own stores.
fn scan_one<G: Gate>(
    alloc: Global,
    round: &Round<'_, G>,
    own: &mut Own,
    marks: &Marks,
    given: &mut Vec<Piece>,
    number: usize,
) -> Result<(), AllocError>
    requires claims { CanForward round.now own.old }
    requires given { AreGiven own.old.seat.hand own.old.to given.old.items }
    requires holding { IsAtGiven round.now own.old marks.now given.old.items }
    requires there { number < length given.old.items }
    ensures holding { OnOk result (ScansGiven round.now own.old own.new marks.now given.old.items given.new.items) }
    ensures given { OnOk result (AreGiven own.new.seat.hand own.new.to given.new.items) }
    ensures many { length given.new.items ≡ length given.old.items }
    ensures same { OnOk result (AreSamePieces given.old.items given.new.items) }
    ensures end { OnOk result ((x : Piece) → slice_get given.new.items number ≡ Some x → x.mark ≡ length x.block) }
    ensures others { (i : ℕ) → i ≢ number → slice_get given.new.items i ≡ slice_get given.old.items i }
    ensures listed { OnOk result (KeepsListed own.old.to own.new.to) }
    ensures noted { OnOk result (own.old.to.young.lane ≡ 1 → AreNoted given.old.items → AreNoted given.new.items) }
    ensures learns { OnOk result (Learns own.old own.new) }
    ensures on { KeepsClaiming own.old own.new }
{
    scan_piece(alloc, round, own, &mut given[number])?;
    Ok(())
}

/// Scans the first `count` blocks that the copier was given, each to its end.
pub fn scan_all_given<G: Gate>(
    alloc: Global,
    round: &Round<'_, G>,
    own: &mut Own,
    marks: &Marks,
    given: &mut Vec<Piece>,
    count: usize,
) -> Result<(), AllocError>
    requires claims { CanForward round.now own.old }
    requires given { AreGiven own.old.seat.hand own.old.to given.old.items }
    requires holding { IsAtGiven round.now own.old marks.now given.old.items }
    requires count { count ≤ length given.old.items }
    ensures holding { OnOk result (ScansGiven round.now own.old own.new marks.now given.old.items given.new.items) }
    ensures given { OnOk result (AreGiven own.new.seat.hand own.new.to given.new.items) }
    ensures many { length given.new.items ≡ length given.old.items }
    ensures same { OnOk result (AreSamePieces given.old.items given.new.items) }
    ensures end { OnOk result ((i : ℕ) (x : Piece) → i < count → slice_get given.new.items i ≡ Some x → x.mark ≡ length x.block) }
    ensures listed { OnOk result (KeepsListed own.old.to own.new.to) }
    ensures noted { OnOk result (own.old.to.young.lane ≡ 1 → AreNoted given.old.items → AreNoted given.new.items) }
    ensures learns { OnOk result (Learns own.old own.new) }
    ensures on { KeepsClaiming own.old own.new }
{
    for number in 0..count {
        scan_one(alloc, round, own, marks, given, number)?;
    }
    Ok(())
}

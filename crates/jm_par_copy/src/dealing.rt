// Blocks are dealt out between rounds.

ghost use Rattle.std.specs.Prelude.{◌<◌, List, ◌∷◌, ◌++◌, length, IfOk, OnOk};
ghost use Rattle.jm_par_copy.specs.Copiers.{KeepSeats, KeepsSeat};
ghost use Rattle.jm_par_copy.specs.Dealing.{AreDealt, AreGathered, IsGivenOne, IsTaken};

use crate::copier::Copier;
use crate::large::large_array;
use crate::piece::Piece;
use std::alloc::{AllocError, Global};

// All given blocks of one copier are put at the end of a list.
fn take_given(copier: &mut Copier, all: &mut Vec<Piece>) -> Result<(), AllocError>
    ensures taken { OnOk result (IsTaken copier.old copier.new all.old.items all.new.items) }
    ensures seat { KeepsSeat copier.old copier.new }
{
    all.append(&mut copier.given)?;
    Ok(())
}

// All given blocks of the copier of a number are put at the end of a list.
fn take_from(
    copiers: &mut Vec<Copier>,
    number: usize,
    all: &mut Vec<Piece>,
) -> Result<(), AllocError>
    requires { number < length copiers.old.items }
    ensures dealt { OnOk result (AreGathered copiers.old.items copiers.new.items all.old.items all.new.items) }
    ensures seats { KeepSeats copiers.old.items copiers.new.items }
{
    take_given(&mut copiers[number], all)?;
    Ok(())
}

// All given blocks of all copiers are put at the end of a list, in order of copier and then of filling.
fn gather(copiers: &mut Vec<Copier>, all: &mut Vec<Piece>) -> Result<(), AllocError>
    ensures dealt { OnOk result (AreGathered copiers.old.items copiers.new.items all.old.items all.new.items) }
    ensures seats { KeepSeats copiers.old.items copiers.new.items }
{
    let count = copiers.len();
    for number in 0..count {
        take_from(copiers, number, all)?;
    }
    Ok(())
}

// Gives a copier one block more.
fn give_one(copier: &mut Copier, piece: Piece) -> Result<(), AllocError>
    ensures given { OnOk result (IsGivenOne copier.old copier.new piece) }
    ensures seat { KeepsSeat copier.old copier.new }
{
    copier.given.push(piece)?;
    Ok(())
}

// Gives the copier of a number one block more.
fn add(copiers: &mut Vec<Copier>, number: usize, piece: Piece) -> Result<(), AllocError>
    requires { number < length copiers.old.items }
    ensures dealt { OnOk result ((aside : List Piece) → AreDealt copiers.old.items (piece ∷ aside) copiers.new.items aside) }
    ensures seats { KeepSeats copiers.old.items copiers.new.items }
{
    give_one(&mut copiers[number], piece)?;
    Ok(())
}

// Deals one block: to the copier of a number if something of it is left to scan, and else it is set aside, and so is
// one that is a large array. The number of the copier that gets the next one.
fn deal_one(
    copiers: &mut Vec<Copier>,
    next: usize,
    piece: Piece,
    aside: &mut Vec<Piece>,
) -> Result<usize, AllocError>
    requires { next < length copiers.old.items }
    ensures next { IfOk result (λ n. n < length copiers.old.items) }
    ensures dealt { OnOk result (AreDealt copiers.old.items (piece ∷ aside.old.items) copiers.new.items aside.new.items) }
    ensures seats { KeepSeats copiers.old.items copiers.new.items }
{
    if piece.mark == piece.block.len() || large_array(&piece).is_some() {
        aside.push(piece)?;
        return Ok(next);
    }
    let count = copiers.len();
    add(copiers, next, piece)?;
    if next + 1 == count {
        return Ok(0);
    }
    Ok(next + 1)
}

// Deals blocks: of those with something left to scan the one of number j to copier j modulo n; the others are
// set aside, and the large arrays of which nothing is scanned.
fn deal_out(
    copiers: &mut Vec<Copier>,
    pieces: Vec<Piece>,
    aside: &mut Vec<Piece>,
) -> Result<(), AllocError>
    requires some { 0 < length copiers.old.items }
    ensures dealt { OnOk result (AreDealt copiers.old.items (pieces.items ++ aside.old.items) copiers.new.items aside.new.items) }
    ensures seats { KeepSeats copiers.old.items copiers.new.items }
{
    let mut next = 0;
    for piece in pieces {
        next = deal_one(copiers, next, piece, aside)?;
    }
    Ok(())
}

/// Deals out anew the given blocks of all copiers: those that are scanned to their ends are set aside, and so are large
/// arrays of which nothing is scanned; of the others, in order of copier and then of filling, the one of number j goes
/// to copier j modulo n.
pub fn deal(
    alloc: Global,
    copiers: &mut Vec<Copier>,
    aside: &mut Vec<Piece>,
) -> Result<(), AllocError>
    requires some { 0 < length copiers.old.items }
    ensures dealt { OnOk result (AreDealt copiers.old.items aside.old.items copiers.new.items aside.new.items) }
    ensures seats { KeepSeats copiers.old.items copiers.new.items }
{
    let mut pieces = Vec::new(alloc);
    gather(copiers, &mut pieces)?;
    deal_out(copiers, pieces, aside)?;
    Ok(())
}

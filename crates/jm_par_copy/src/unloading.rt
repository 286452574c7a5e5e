// What all copiers hold is put into one store of the young and one of the old.

ghost use Rattle.std.specs.Prelude.{◌≡◌, ◌≢◌, ◌⊎◌, ℕ, ◌<◌, ◌≤◌, ◌^◌, IfOk, OnOk};
ghost use Rattle.jm_par_copy.specs.Ending.{AllLoads, AreLoads, IsBeside, IsLoad, IsLoaded, seats_in, stock, stocks, stored};
ghost use Rattle.jm_par_copy.specs.Holding.{held_objects};
ghost use Rattle.jm_par_copy.specs.Pieces.{IsPiece, objects_of};

use crate::copier::Copier;
use crate::merging::{move_all, put_piece};
use crate::piece::Piece;
use jm_blocks::BlockStore;
use std::alloc::{AllocError, Global};
use std::mem;

/// The lane of the survivors that stay young, which is that of the nursery of number 0.
pub(crate) const YOUNG: u64 = 1;

// Puts a block into that of two stores whose lane it has.
fn put_by_lane(
    alloc: Global,
    piece: Piece,
    young: &mut BlockStore,
    promoted: &mut BlockStore,
) -> Result<(), AllocError>
    requires lanes { young.old.lane ≢ promoted.old.lane }
    requires piece { IsPiece piece }
    requires lane { (piece.lane ≡ young.old.lane) ⊎ (piece.lane ≡ promoted.old.lane) }
    requires beside { IsBeside (objects_of piece) young.old promoted.old }
    ensures { OnOk result (IsLoaded (objects_of piece) young.old promoted.old young.new promoted.new) }
{
    if piece.lane == young.lane() {
        put_piece(alloc, piece, young)?;
        return Ok(());
    }
    put_piece(alloc, piece, promoted)?;
    Ok(())
}

// Puts blocks into two stores, each into that of its lane.
fn put_pieces(
    alloc: Global,
    pieces: Vec<Piece>,
    young: &mut BlockStore,
    promoted: &mut BlockStore,
) -> Result<(), AllocError>
    requires lanes { young.old.lane ≢ promoted.old.lane }
    requires loads { AreLoads young.old.lane promoted.old.lane pieces.items }
    requires beside { IsBeside (held_objects pieces.items) young.old promoted.old }
    ensures { OnOk result (IsLoaded (held_objects pieces.items) young.old promoted.old young.new promoted.new) }
{
    for piece in pieces {
        put_by_lane(alloc, piece, young, promoted)?;
    }
    Ok(())
}

// Moves a copier's own blocks into two stores.
fn unload_own(
    alloc: Global,
    copier: &mut Copier,
    young: &mut BlockStore,
    promoted: &mut BlockStore,
) -> Result<(), AllocError>
    requires lanes { young.old.lane ≢ promoted.old.lane }
    requires load { IsLoad young.old.lane promoted.old.lane copier.old }
    requires beside { IsBeside (stored copier.old.own.to.young copier.old.own.to.tenured) young.old promoted.old }
    ensures loaded { OnOk result (IsLoaded (stored copier.old.own.to.young copier.old.own.to.tenured) young.old promoted.old young.new promoted.new) }
    ensures given { copier.new.given.items ≡ copier.old.given.items }
    ensures seat { copier.new.own.seat ≡ copier.old.own.seat }
{
    move_all(alloc, &mut copier.own.to.young, young)?;
    move_all(alloc, &mut copier.own.to.tenured, promoted)?;
    Ok(())
}

// Puts all blocks of a copier into two stores: its own, and those that it was given.
fn unload(
    alloc: Global,
    copier: &mut Copier,
    young: &mut BlockStore,
    promoted: &mut BlockStore,
) -> Result<(), AllocError>
    requires lanes { young.old.lane ≢ promoted.old.lane }
    requires load { IsLoad young.old.lane promoted.old.lane copier.old }
    requires beside { IsBeside (stock copier.old) young.old promoted.old }
    ensures loaded { OnOk result (IsLoaded (stock copier.old) young.old promoted.old young.new promoted.new) }
    ensures seat { copier.new.own.seat ≡ copier.old.own.seat }
{
    unload_own(alloc, copier, young, promoted)?;
    let given = mem::replace(&mut copier.given, Vec::new(alloc));
    put_pieces(alloc, given, young, promoted)?;
    Ok(())
}

// Puts all blocks of all copiers and those set aside into two stores.
fn unload_all(
    alloc: Global,
    copiers: &mut [Copier],
    aside: Vec<Piece>,
    young: &mut BlockStore,
    promoted: &mut BlockStore,
) -> Result<(), AllocError>
    requires lanes { young.old.lane ≢ promoted.old.lane }
    requires loads { AllLoads young.old.lane promoted.old.lane copiers.old aside.items }
    requires beside { IsBeside (stocks copiers.old aside.items) young.old promoted.old }
    ensures loaded { OnOk result (IsLoaded (stocks copiers.old aside.items) young.old promoted.old young.new promoted.new) }
    ensures seats { seats_in copiers.new ≡ seats_in copiers.old }
{
    let Some((first, rest)) = copiers.split_first_mut() else {
        put_pieces(alloc, aside, young, promoted)?;
        return Ok(());
    };
    unload(alloc, first, young, promoted)?;
    unload_all(alloc, rest, aside, young, promoted)?;
    Ok(())
}

/// What all copiers hold, with the blocks that are set aside, in a store of the young and one of the old, whose lane
/// is given. The store of the old is begun with `empty` empty blocks, of which no step is made: none of the copiers' old
/// blocks should lie among them. Where one does the answer is the same, and takes longer. The copiers keep their seats,
/// also where a growth is refused.
pub fn put_together(
    alloc: Global,
    copiers: &mut Vec<Copier>,
    aside: Vec<Piece>,
    old_lane: u64,
    empty: usize,
) -> Result<(BlockStore, BlockStore), AllocError>
    requires lane { (1 < old_lane) × (old_lane < 64) }
    requires few { empty ≤ 2 ^ 49 }
    requires loads { AllLoads 1 old_lane copiers.old.items aside.items }
    ensures young_lane { IfOk result (λ r. r.0.lane ≡ 1) }
    ensures old_lane { IfOk result (λ r. r.1.lane ≡ old_lane) }
    ensures all { IfOk result (λ r. (n : ℕ) → stored r.0 r.1 n ≡ stocks copiers.old.items aside.items n) }
    ensures seats { seats_in copiers.new.items ≡ seats_in copiers.old.items }
{
    let mut young = BlockStore::new(alloc, YOUNG);
    let mut promoted = BlockStore::starting_at(alloc, old_lane, empty)?;
    unload_all(
        alloc,
        copiers.as_mut_slice(),
        aside,
        &mut young,
        &mut promoted,
    )?;
    Ok((young, promoted))
}

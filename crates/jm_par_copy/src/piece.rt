// A block that was moved to a copier.

ghost use Rattle.std.specs.Prelude.{◌≡◌, ◌≢◌, ℕ, ◌+◌, ◌-◌, ◌<◌, ◌++◌, ◌∷◌, [], List, Some, IfOk, IfSome, OnOk, if◌then◌else◌, length, slice_get};
ghost use Rattle.jm_values.specs.declared.value.Value.TheVariants.{Ref};
ghost use Rattle.jm_heap.specs.Packing.{Fits, kind_of};
ghost use Rattle.jm_blocks.specs.Objects.{Object};
ghost use Rattle.jm_copy.specs.Marks.{at};
ghost use Rattle.jm_copy.specs.Naming.{IsEnded, NamesNext};
ghost use Rattle.jm_copy.specs.Pointing.{points_to};
ghost use Rattle.jm_par_copy.specs.Notes.{IsNoted, KeepsListed};
ghost use Rattle.jm_par_copy.specs.Claiming.{KeepsClaiming};
ghost use Rattle.jm_par_copy.specs.Pieces.{BecomesGiven, IsPiece, IsSamePiece, OthersAre, place_in, progress_of};
ghost use Rattle.jm_par_copy.specs.Steps.{CanForward, IsAtPiece, Learns, ScansPiece, WorksInPiece};

use crate::gate::Gate;
use crate::round::{Own, Round};
use crate::step::forward;
use jm_blocks::{Block, Position};
use jm_copy::{Copies, Named, first_named, next_named};
use jm_values::{Place, Value};
use std::alloc::{AllocError, Global};

/// A block with its lane and number; its objects below the mark are scanned. If it is an old one, the places of those
/// of them that point to young ones are listed, each once.
#[derive(Drop)]
pub struct Piece {
    pub lane: u64,
    pub number: usize,
    pub block: Block,
    pub mark: usize,
    pub pointing: Vec<Place>,
}

// The first reference among the values of the object of a number.
#[inline(always)]
fn named_first(block: &Block, index: usize) -> Option<Named>
    requires { index < length block.now }
    ensures { (a : Object) → slice_get block.now index ≡ Some a → NamesNext a 0 result }
{
    let (_, values) = block.object_at(index);
    first_named(values)
}

// The first reference of the object of a number after one, where the end of its references is known.
#[inline(always)]
fn named_after(block: &Block, index: usize, number: usize, end: usize) -> Option<Named>
    requires { (a : Object) × (slice_get block.now index ≡ Some a) × IsEnded a.values (kind_of a.class) number end }
    ensures names { (a : Object) → slice_get block.now index ≡ Some a → NamesNext a (number + 1) result }
    ensures end { IfSome result (λ r. r.end ≡ end) }
{
    if number + 1 >= end {
        return None;
    }
    let (_, values) = block.object_at(index);
    next_named(values, number, end)
}

// Forwards a reference of an object of the block, of which all values before it are forwarded, and answers whether it
// names a young object afterwards.
#[inline(always)]
fn forward_given<G: Gate>(
    alloc: Global,
    round: &Round<'_, G>,
    own: &mut Own,
    piece: &mut Piece,
    index: usize,
    named: Named,
) -> Result<bool, AllocError>
    requires claims { CanForward round.now own.old }
    requires piece { IsPiece piece.old }
    requires working { IsAtPiece round.now (λ done. at done (place_in piece.old index) named.number) own.old piece.old }
    requires there { (a : Object) × (slice_get piece.old.block index ≡ Some a) × (slice_get a.values named.number ≡ Some (Ref named.place)) × ((p : ℕ) → Fits (kind_of a.class) (Ref p)) }
    ensures working { OnOk result (WorksInPiece round.now own.old own.new piece.old piece.new index named.number) }
    ensures names { IfOk result (λ b. (a : Object) → slice_get piece.old.block index ≡ Some a → BecomesGiven own.old.to.young.lane piece.old piece.new index named.number a b) }
    ensures others { OnOk result (OthersAre piece.old piece.new index) }
    ensures listed { OnOk result (KeepsListed own.old.to own.new.to) }
    ensures same { OnOk result (IsSamePiece piece.old piece.new) }
    ensures mark { piece.new.mark ≡ piece.old.mark }
    ensures pointing { piece.new.pointing ≡ piece.old.pointing }
    ensures learns { OnOk result (Learns own.old own.new) }
    ensures on { KeepsClaiming own.old own.new }
{
    let copy = forward(alloc, round, own, named.place)?;
    piece.block.set(index, named.number, Value::Ref(copy));
    Ok(own.to.is_young(copy))
}

// Forwards each reference of the object at the mark, moves the mark past it, and answers whether one of them names a
// young object afterwards.
fn scan_given<G: Gate>(
    alloc: Global,
    round: &Round<'_, G>,
    own: &mut Own,
    piece: &mut Piece,
) -> Result<bool, AllocError>
    requires claims { CanForward round.now own.old }
    requires piece { IsPiece piece.old }
    requires working { IsAtPiece round.now (progress_of piece.old) own.old piece.old }
    requires there { piece.old.mark < length piece.old.block }
    ensures working { OnOk result (ScansPiece round.now own.old own.new piece.old piece.new) }
    ensures same { OnOk result (IsSamePiece piece.old piece.new) }
    ensures mark { OnOk result (piece.new.mark ≡ piece.old.mark + 1) }
    ensures points { IfOk result (λ b. (a : Object) → slice_get piece.new.block piece.old.mark ≡ Some a → b ≡ points_to own.old.to.young.lane a.values) }
    ensures others { OnOk result (OthersAre piece.old piece.new piece.old.mark) }
    ensures pointing { piece.new.pointing ≡ piece.old.pointing }
    ensures listed { OnOk result (KeepsListed own.old.to own.new.to) }
    ensures learns { OnOk result (Learns own.old own.new) }
    ensures on { KeepsClaiming own.old own.new }
{
    let index = piece.mark;
    let mut points = false;
    let mut next = named_first(&piece.block, index);
    while let Some(named) = next {
        let Named { number, end, .. } = named;
        let names = forward_given(alloc, round, own, piece, index, named)?;
        points = points || names;
        next = named_after(&piece.block, index, number, end);
    }
    piece.mark = index + 1;
    Ok(points)
}

// Lists the place of the last object below the mark, if it lies in an old block and points to a young one.
#[inline]
fn note_last(to: &Copies, piece: &mut Piece, points: bool) -> Result<(), AllocError>
    requires { (0 < piece.old.mark) × IsPiece piece.old }
    ensures lane { piece.new.lane ≡ piece.old.lane }
    ensures number { piece.new.number ≡ piece.old.number }
    ensures block { piece.new.block ≡ piece.old.block }
    ensures mark { piece.new.mark ≡ piece.old.mark }
    ensures young { OnOk result (piece.old.lane ≡ to.now.young.lane → piece.new.pointing.items ≡ piece.old.pointing.items) }
    ensures old { OnOk result (piece.old.lane ≢ to.now.young.lane → piece.new.pointing.items ≡ (if points then piece.old.pointing.items ++ place_in piece.old (piece.old.mark - 1) ∷ [] else piece.old.pointing.items)) }
{
    if !points {
        return Ok(());
    }
    if piece.lane == to.young.lane() {
        return Ok(());
    }
    let position = Position {
        lane: piece.lane,
        block: piece.number,
        index: piece.mark - 1,
    };
    piece.pointing.push(position.place())?;
    Ok(())
}

/// Scans a block that the copier was given, from its mark to its end. If it is an old one, the places of those of its
/// objects that point to young ones are listed with it.
pub fn scan_piece<G: Gate>(
    alloc: Global,
    round: &Round<'_, G>,
    own: &mut Own,
    piece: &mut Piece,
) -> Result<(), AllocError>
    requires claims { CanForward round.now own.old }
    requires piece { IsPiece piece.old }
    requires working { IsAtPiece round.now (progress_of piece.old) own.old piece.old }
    ensures working { OnOk result (ScansPiece round.now own.old own.new piece.old piece.new) }
    ensures same { OnOk result (IsSamePiece piece.old piece.new) }
    ensures end { OnOk result (piece.new.mark ≡ length piece.new.block) }
    ensures listed { OnOk result (KeepsListed own.old.to own.new.to) }
    ensures noted { OnOk result (own.old.to.young.lane ≡ 1 → IsNoted piece.old → IsNoted piece.new) }
    ensures learns { OnOk result (Learns own.old own.new) }
    ensures on { KeepsClaiming own.old own.new }
{
    let first = piece.mark;
    let count = piece.block.len();
    for _object in first..count {
        let points = scan_given(alloc, round, own, piece)?;
        note_last(&own.to, piece, points)?;
    }
    Ok(())
}

// Large arrays that are set aside are scanned by all copiers, one after the other.

ghost use Rattle.std.specs.Prelude.{◌≡◌, ◌<◌, ◌≤◌, ℕ, List, OnOk, length};
ghost use Rattle.jm_blocks.specs.declared.header.Header.{Header};
ghost use Rattle.jm_par_copy.specs.Copiers.{AreCopying, KeepPlaced, KeepSeats, NoneRefused};
ghost use Rattle.jm_par_copy.specs.Pieces.{IsPiece};
ghost use Rattle.jm_par_copy.specs.Spans.{AreSpans, IsArray, IsScannedJointly};
ghost use Rattle.jm_par_copy.specs.Steps.{AllReach, AreReadyFor, MakeRounds};

use crate::copier::Copier;
use crate::gate::Gate;
use crate::large::{large_array, put_references};
use crate::piece::Piece;
use crate::round::Round;
use crate::running::none_refused;
use crate::spans::{join_spans, make_spans};
use jm_heap::Reference;
use std::alloc::{AllocError, Global};
use std::thread::Threads;

// One round of all copiers in which each forwards its span.
fn make_spans_of_all<R: Threads, G: Gate + Sync>(
    rt: &R,
    alloc: Global,
    round: &Round<'_, G>,
    references: &[Reference],
    copiers: &mut Vec<Copier>,
)
    requires some { 0 < length copiers.old.items }
    requires ready { AreReadyFor round.now copiers.old.items }
    requires reach { AllReach round.now references.now }
    ensures rounds { MakeRounds round.now copiers.old.items copiers.new.items }
    ensures spans { NoneRefused copiers.new.items → AreSpans round.now.from.stores.now references.now copiers.new.items }
{
    make_spans(rt, alloc, round, references, copiers.as_mut_slice());
}

// Scans a block, if it is a large array of which nothing is scanned.
fn scan_large<R: Threads, G: Gate + Sync>(
    rt: &R,
    alloc: Global,
    round: &Round<'_, G>,
    copiers: &mut Vec<Copier>,
    piece: &mut Piece,
) -> Result<(), AllocError>
    requires some { 0 < length copiers.old.items }
    requires ready { AreReadyFor round.now copiers.old.items }
    requires piece { IsPiece piece.old }
    requires reach { (h : Header) (rs : List ℕ) → IsArray piece.old h rs → piece.old.mark ≡ 0 → AllReach round.now rs }
    ensures ok { OnOk result (IsScannedJointly round.now.from.stores.now round.now.from.roots.now copiers.old.items copiers.new.items piece.old piece.new) }
    ensures seats { KeepSeats copiers.old.items copiers.new.items }
{
    let Some(references) = large_array(piece) else {
        return Ok(());
    };
    make_spans_of_all(rt, alloc, round, references, copiers);
    if !none_refused(copiers.as_slice()) {
        return Err(AllocError);
    }
    let all = join_spans(alloc, copiers.as_slice())?;
    put_references(alloc, piece, all.as_slice())
}

// So the block of a number of those that are set aside.
fn scan_at<R: Threads, G: Gate + Sync>(
    rt: &R,
    alloc: Global,
    round: &Round<'_, G>,
    copiers: &mut Vec<Copier>,
    aside: &mut Vec<Piece>,
    number: usize,
) -> Result<(), AllocError>
    requires some { 0 < length copiers.old.items }
    requires copying { AreCopying round.now.from.stores.now round.now.from.roots.now round.now.words.now copiers.old.items aside.old.items }
    requires there { number < length aside.old.items }
    ensures copying { OnOk result (AreCopying round.now.from.stores.now round.now.from.roots.now round.now.words.now copiers.new.items aside.new.items) }
    ensures placed { OnOk result (KeepPlaced copiers.old.items copiers.new.items aside.old.items aside.new.items) }
    ensures many { length aside.new.items ≡ length aside.old.items }
    ensures seats { KeepSeats copiers.old.items copiers.new.items }
{
    scan_large(rt, alloc, round, copiers, &mut aside[number])?;
    Ok(())
}

/// Scans the blocks that are set aside from a number on, each that is a large array of which nothing is scanned: all copiers
/// forward its references, each a span of them, and these are put in their place. Where a growth is refused some may have
/// been forwarded, and none is put.
pub fn scan_all_large<R: Threads, G: Gate + Sync>(
    rt: &R,
    alloc: Global,
    round: &Round<'_, G>,
    copiers: &mut Vec<Copier>,
    aside: &mut Vec<Piece>,
    from: usize,
) -> Result<(), AllocError>
    requires some { 0 < length copiers.old.items }
    requires copying { AreCopying round.now.from.stores.now round.now.from.roots.now round.now.words.now copiers.old.items aside.old.items }
    ensures copying { OnOk result (AreCopying round.now.from.stores.now round.now.from.roots.now round.now.words.now copiers.new.items aside.new.items) }
    ensures placed { OnOk result (KeepPlaced copiers.old.items copiers.new.items aside.old.items aside.new.items) }
    ensures seats { KeepSeats copiers.old.items copiers.new.items }
{
    let count = aside.len();
    for number in from..count {
        scan_at(rt, alloc, round, copiers, aside, number)?;
    }
    Ok(())
}

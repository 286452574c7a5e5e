// Large arrays of references, each alone in a block that is set aside.

ghost use Rattle.std.specs.Prelude.{◌≡◌, ◌≢◌, ℕ, ◌++◌, ◌∷◌, [], List, IfSome, OnOk, if◌then◌else◌, length, map};
ghost use Rattle.jm_heap.specs.Packing.{kind_of, reference};
ghost use Rattle.jm_heap.specs.declared.storage.Storage.TheVariants as kind;
ghost use Rattle.jm_blocks.specs.declared.header.Header.{Header};
ghost use Rattle.jm_copy.specs.Pointing.{names_lane, points_to};
ghost use Rattle.jm_par_copy.specs.Pieces.{IsPiece, place_in};
ghost use Rattle.jm_par_copy.specs.Spans.{IsArray, IsPutLarge};

use crate::piece::Piece;
use jm_blocks::{Block, Position};
use jm_heap::{Elements, Lies, Reference};
use jm_values::Value;
use std::alloc::{AllocError, Global};

/// An array is large from this number of references on.
pub(crate) const LARGE: usize = 65_536;

/// The lane of the young.
const YOUNG: u64 = 1;

// Whether a reference names a place in a lane.
#[inline]
fn names_into(one: Reference, lane: u64) -> bool
    ensures { result ≡ names_lane lane (reference one) }
{
    match one.value() {
        Value::Ref(place) => Position::of(place).lane == lane,
        Value::Int(_) | Value::Long(_) | Value::Null => false,
    }
}

/// Whether one of several references names a place in a lane.
pub fn points_into(references: &[Reference], lane: u64) -> bool
    ensures { result ≡ points_to lane (map reference references.now) }
{
    for number in 0..references.len() {
        if names_into(references[number], lane) {
            return true;
        }
    }
    false
}

/// The references of a large array that is alone in a block and of which nothing is scanned, if the block is such a one.
pub fn large_array(piece: &Piece) -> Option<&[Reference]>
    ensures { IfSome result (λ rs. (h : Header) × IsArray piece.now h rs.now × (piece.now.mark ≡ 0) × (kind.References ≡ kind_of h.class)) }
{
    if piece.mark != 0 {
        return None;
    }
    if piece.block.len() != 1 {
        return None;
    }
    let (_header, values) = piece.block.object_at(0);
    match values {
        Elements::References(references) => {
            if references.len() < LARGE {
                return None;
            }
            Some(references)
        }
        _ => None,
    }
}

// Lists the place of the first object of a block, if it is an old one and the object points to a young one.
fn note_first(piece: &mut Piece, points: bool) -> Result<(), AllocError>
    requires { IsPiece piece.old }
    ensures lane { piece.new.lane ≡ piece.old.lane }
    ensures number { piece.new.number ≡ piece.old.number }
    ensures young { OnOk result (piece.old.lane ≡ 1 → piece.new.pointing.items ≡ piece.old.pointing.items) }
    ensures old { OnOk result (piece.old.lane ≢ 1 → piece.new.pointing.items ≡ (if points then piece.old.pointing.items ++ place_in piece.old 0 ∷ [] else piece.old.pointing.items)) }
{
    if !points {
        return Ok(());
    }
    if piece.lane == YOUNG {
        return Ok(());
    }
    let position = Position {
        lane: piece.lane,
        block: piece.number,
        index: 0,
    };
    piece.pointing.push(position.place())?;
    Ok(())
}

/// Puts other references in the place of those of an array that is alone in a block, as many, and marks it scanned. If
/// the block is an old one and one of them names a young place, the array is listed with it.
pub fn put_references(
    alloc: Global,
    piece: &mut Piece,
    references: &[Reference],
) -> Result<(), AllocError>
    requires piece { IsPiece piece.old }
    requires array { (h : Header) × (rs : List ℕ) × IsArray piece.old h rs × (piece.old.mark ≡ 0) × (length references.now ≡ length rs) × (kind.References ≡ kind_of h.class) }
    ensures ok { OnOk result ((h : Header) (rs : List ℕ) → IsArray piece.old h rs → IsPutLarge piece.old piece.new rs references.now) }
{
    let (header, _values) = piece.block.object_at(0);
    let mut block = Block::new(alloc);
    block.bump(header, Elements::References(references))?;
    note_first(piece, points_into(references, YOUNG))?;
    piece.block = block;
    piece.mark = 1;
    Ok(())
}

// The end of a collection.

ghost use Rattle.std.specs.Prelude.{◌≡◌, ◌≢◌, ℕ, ◌<◌, List, ◌++◌, IfOk, OnErr, OnOk, length};
ghost use Rattle.jm_blocks.specs.Stores.{objects_in};
ghost use Rattle.jm_forward.specs.Hands.{Agree, all_wins};
ghost use Rattle.jm_par_copy.specs.Copiers.{AllRooted, AreCopying, AreEnded, ArePlaced, hands};
ghost use Rattle.jm_par_copy.specs.Ending.{IsCollectedBy, seats_in};
ghost use Rattle.jm_par_copy.specs.Notes.{all_listed, listed_with};
ghost use Rattle.jm_par_copy.specs.Seats.{AreNumbered};

use crate::copier::Copier;
use crate::merging::move_all;
use crate::new_roots::root_places;
use crate::owner::CopierBlocks;
use crate::piece::Piece;
use crate::unloading::put_together;
use jm_blocks::BlockStore;
use jm_copy::Source;
use jm_forward::Forwarding;
use jm_values::Place;
use std::alloc::{AllocError, Global};

/// What a collection leaves beside the old store: the store of the survivors that stay young, the places of the
/// promoted objects that point to young ones, each once, and the new places of the roots.
#[derive(Drop)]
pub struct Copied {
    pub young: BlockStore,
    pub remembered: Vec<Place>,
    pub roots: Vec<Place>,
}

// Puts the places that are listed with blocks behind others.
fn add_listed_with(pieces: &[Piece], places: &mut Vec<Place>) -> Result<(), AllocError>
    ensures { OnOk result (places.new.items ≡ places.old.items ++ listed_with pieces.now) }
{
    for piece in pieces {
        places.extend_from_slice(piece.pointing.as_slice())?;
    }
    Ok(())
}

// Puts the places that one copier has listed, and those that are listed with its blocks, behind others.
fn add_listed_by(copier: &Copier, places: &mut Vec<Place>) -> Result<(), AllocError>
    ensures { OnOk result ((own : List ℕ) × (own ≡ places.old.items ++ copier.now.pointing.items) × (places.new.items ≡ own ++ listed_with copier.now.given.items)) }
{
    places.extend_from_slice(copier.pointing.as_slice())?;
    add_listed_with(copier.given.as_slice(), places)?;
    Ok(())
}

// All places that copiers have listed, and those that are listed with their blocks and with those that are set aside.
fn all_pointing(
    alloc: Global,
    copiers: &[Copier],
    aside: &[Piece],
) -> Result<Vec<Place>, AllocError>
    ensures { IfOk result (λ places. places.items ≡ all_listed copiers.now aside.now) }
{
    let mut places = Vec::new(alloc);
    for copier in copiers {
        add_listed_by(copier, &mut places)?;
    }
    add_listed_with(aside, &mut places)?;
    Ok(places)
}

/// Puts what all copiers hold, who have ended, into one store of the young and into the old store. A block in which a
/// copier went on takes the place of the old store's, whose objects it has with the new ones above them. With the wins of
/// copiers that have met, that is a collection. Where a growth is refused the old store has the objects that it had. The
/// copiers keep their seats.
pub fn finish(
    alloc: Global,
    from: Source<'_>,
    words: &Forwarding<CopierBlocks>,
    copiers: &mut Vec<Copier>,
    aside: Vec<Piece>,
    tenured: &mut BlockStore,
) -> Result<Copied, AllocError>
    requires copying { AreCopying from.stores.now from.roots.now words.now copiers.old.items aside.items }
    requires ended { AreEnded copiers.old.items aside.items }
    requires rooted { AllRooted from.stores.now from.roots.now copiers.old.items }
    requires numbered { AreNumbered words.now 0 copiers.old.items }
    requires many { (length copiers.old.items ≡ words.now.copiers) × (0 < words.now.copiers) }
    requires apart { tenured.old.lane ≢ 1 }
    requires placed { ArePlaced 1 tenured.old copiers.old.items aside.items }
    ensures ok { IfOk result (λ r. Agree (hands copiers.old.items) → IsCollectedBy from.entry.stores.now tenured.old from.entry.roots.now (all_wins (hands copiers.old.items)) r.young tenured.new r.remembered.items r.roots.items) }
    ensures err { OnErr result ((n : ℕ) → objects_in tenured.new n ≡ objects_in tenured.old n) }
    ensures seats { seats_in copiers.new.items ≡ seats_in copiers.old.items }
{
    let roots = root_places(alloc, from, words, copiers.as_slice())?;
    let remembered = all_pointing(alloc, copiers.as_slice(), aside.as_slice())?;
    // Each copier has one of the last blocks of the old store, and has begun there or above.
    let below = tenured.len().saturating_sub(copiers.len());
    let (young, mut promoted) = put_together(alloc, copiers, aside, tenured.lane(), below)?;
    move_all(alloc, &mut promoted, tenured)?;
    Ok(Copied {
        young,
        remembered,
        roots,
    })
}

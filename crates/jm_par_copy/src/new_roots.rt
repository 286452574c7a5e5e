// The new places of all roots, which the copiers have found.

ghost use Rattle.std.specs.Prelude.{◌≡◌, ◌<◌, ℕ, Some, IfOk, length, slice_get};
ghost use Rattle.jm_forward.specs.Hands.{all_known};
ghost use Rattle.jm_copy.specs.Copying.{AreForwarded, Forwarded};
ghost use Rattle.jm_copy.specs.Condemned.{objects_at};
ghost use Rattle.jm_par_copy.specs.Copiers.{AllRooted, hands};
ghost use Rattle.jm_par_copy.specs.Seats.{AreNumbered};
ghost use Rattle.jm_par_copy.specs.Working.{Pairs};

use crate::copier::Copier;
use crate::owner::CopierBlocks;
use jm_copy::Source;
use jm_forward::Forwarding;
use jm_values::Place;
use std::alloc::{AllocError, Global};

// The new place of the root at a position: of n copiers the one of number position modulo n has it.
fn root_place(
    from: Source<'_>,
    words: &Forwarding<CopierBlocks>,
    copiers: &[Copier],
    position: usize,
) -> Place
    requires rooted { AllRooted from.stores.now from.roots.now copiers.now }
    requires numbered { AreNumbered words.now 0 copiers.now }
    requires many { (length copiers.now ≡ words.now.copiers) × (0 < words.now.copiers) }
    requires there { position < length from.roots.now }
    ensures { (p : ℕ) → slice_get from.entry.roots.now position ≡ Some p → Forwarded (objects_at from.entry.stores.now) (Pairs from.entry.stores.now (all_known (hands copiers.now))) p result }
{
    let count = copiers.len();
    let copier = &copiers[position % count];
    copier.roots[position / count]
}

/// The new places of all roots, in order.
pub fn root_places(
    alloc: Global,
    from: Source<'_>,
    words: &Forwarding<CopierBlocks>,
    copiers: &[Copier],
) -> Result<Vec<Place>, AllocError>
    requires rooted { AllRooted from.stores.now from.roots.now copiers.now }
    requires numbered { AreNumbered words.now 0 copiers.now }
    requires many { (length copiers.now ≡ words.now.copiers) × (0 < words.now.copiers) }
    ensures many { IfOk result (λ r. length r.items ≡ length from.entry.roots.now) }
    ensures forwarded { IfOk result (λ r. AreForwarded (objects_at from.entry.stores.now) (Pairs from.entry.stores.now (all_known (hands copiers.now))) from.entry.roots.now r.items) }
{
    let count = from.roots.len();
    let mut places = Vec::with_capacity(alloc, count)?;
    for position in 0..count {
        let place = root_place(from, words, copiers, position);
        places.push_reserved(place);
    }
    Ok(places)
}

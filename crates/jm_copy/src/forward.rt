// One object is copied, and one value forwarded.

ghost use Rattle.std.specs.Prelude.{◌≡◌, ◌<◌, ℕ, Some, IfOk, OnOk, OnErr, length, slice_get};
ghost use Rattle.jm_values.specs.declared.value.Value.TheVariants.{Ref};
ghost use Rattle.jm_heap.specs.Packing.{Fits, kind_of};
ghost use Rattle.jm_blocks.specs.Objects.{Object};
ghost use Rattle.jm_copy.specs.Copying.{Forwarded, Moves, Progress, raw_copy};
ghost use Rattle.jm_copy.specs.Image.{IsReached};
ghost use Rattle.jm_copy.specs.Condemned.{objects_at};
ghost use Rattle.jm_copy.specs.Copies.{AreRoots, Extends, IsCopying, IsNoted, IsSource, KeepsCopying, made};
ghost use Rattle.jm_copy.specs.Marks.{at, AllStay, BecomesValue, ForwardsValue, OthersStay};
ghost use Rattle.jm_copy.specs.Words.{moved};

use crate::copies::Copies;
use crate::source::{Source, find, number};
use jm_blocks::Block;
use jm_values::{Place, Value};
use std::alloc::{AllocError, Global};

// Copies an object of a block, and writes its new place into the word of its number. A growth that is refused changes
// nothing.
#[inline(never)]
fn copy(
    alloc: Global,
    to: &mut Copies,
    block: &Block,
    index: usize,
    number: usize,
) -> Result<Place, AllocError>
    requires there { (o : Object) × (slice_get block.now index ≡ Some o) }
    requires within { number < length to.old.words }
    ensures ok { IfOk result (λ p. (o : Object) → slice_get block.now index ≡ Some o → IsNoted to.old to.new number p (raw_copy o)) }
    ensures err { OnErr result (to.new ≡ to.old) }
{
    let place = to.put(alloc, block, index)?;
    to.words.set(number, place);
    Ok(place)
}

/// The new place of the object at a place, which is copied now if it was not before; a place that is
/// not condemned stays. Where a growth is refused nothing is copied.
#[inline]
pub fn forward(
    alloc: Global,
    from: Source<'_>,
    to: &mut Copies,
    place: Place,
) -> Result<Place, AllocError>
    requires source { IsSource from.stores.now from.numbers.now }
    requires copying { (done : Progress) × IsCopying from.stores.now from.roots.now to.old done }
    requires reached { (o : Object) → objects_at from.stores.now place ≡ Some o → IsReached (objects_at from.stores.now) from.roots.now place }
    ensures forwarded { IfOk result (λ q. Forwarded (objects_at from.entry.stores.now) (Moves (moved from.entry.stores.now to.new.words)) place q) }
    ensures copying { OnOk result (KeepsCopying from.entry.stores.now from.entry.roots.now to.old to.new) }
    ensures keeps { OnOk result ((n : ℕ) (a : Object) → made to.old n ≡ Some a → made to.new n ≡ Some a) }
    ensures passed { OnOk result (AllStay to.old to.new) }
    ensures extends { Extends from.entry.stores.now to.old to.new }
{
    let Some((block, index)) = find(from.stores, place) else {
        return Ok(place);
    };
    let number = number(from.stores, from.numbers, place);
    if let Some(copied) = to.words.get(number) {
        return Ok(copied);
    }
    let copied = copy(alloc, to, block, index, number)?;
    Ok(copied)
}

/// The new places of the roots.
pub fn forward_roots(
    alloc: Global,
    from: Source<'_>,
    to: &mut Copies,
) -> Result<Vec<Place>, AllocError>
    requires source { IsSource from.stores.now from.numbers.now }
    requires copying { (done : Progress) × IsCopying from.stores.now from.roots.now to.old done }
    ensures forwarded { IfOk result (λ r. AreRoots from.entry.stores.now from.entry.roots.now to.new r.items) }
    ensures copying { OnOk result (KeepsCopying from.entry.stores.now from.entry.roots.now to.old to.new) }
    ensures extends { Extends from.entry.stores.now to.old to.new }
{
    let roots = from.roots;
    let mut places = Vec::with_capacity(alloc, roots.len())?;
    for root in roots {
        let place = forward(alloc, from, to, *root)?;
        places.push_reserved(place);
    }
    Ok(places)
}

/// Forwards a reference of a new object, of which all values before it are forwarded, and answers whether
/// it names a young object afterwards.
#[inline(always)]
pub fn forward_named(
    alloc: Global,
    from: Source<'_>,
    to: &mut Copies,
    place: Place,
    number: usize,
    named: Place,
) -> Result<bool, AllocError>
    requires source { IsSource from.stores.now from.numbers.now }
    requires copying { (done : Progress) × IsCopying from.stores.now from.roots.now to.old (at done place number) }
    requires there { (a : Object) × (made to.old place ≡ Some a) × (slice_get a.values number ≡ Some (Ref named)) × ((p : ℕ) → Fits (kind_of a.class) (Ref p)) }
    ensures copying { OnOk result (ForwardsValue from.entry.stores.now from.entry.roots.now to.old to.new place number) }
    ensures names { IfOk result (λ b. (a : Object) → made to.old place ≡ Some a → BecomesValue to.old to.new place number a b) }
    ensures passed { OnOk result (OthersStay to.old to.new place) }
    ensures extends { Extends from.entry.stores.now to.old to.new }
{
    let copy = forward(alloc, from, to, named)?;
    to.set(place, number, Value::Ref(copy));
    Ok(to.is_young(copy))
}

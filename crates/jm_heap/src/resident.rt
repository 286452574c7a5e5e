// The serials of what lies in slots.

ghost use Rattle.std.specs.Prelude.{◌≡◌, IfOk};
ghost use Rattle.jm_heap.specs.Slots.{serials_of};

use crate::slot::Slot;
use std::alloc::{AllocError, Global};

/// The serials of what lies in slots, in the order of the slots.
pub fn serials(alloc: Global, slots: &Vec<Slot>) -> Result<Vec<u64>, AllocError>
    ensures { IfOk result (λ serials. serials.items ≡ serials_of slots.now.items) }
{
    slots.iter().filter_map(|slot| slot.serial()).collect(alloc)
}

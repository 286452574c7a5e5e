// Giving slots free.

ghost use Rattle.std.specs.Prelude.{◌≡◌, ◌<◌, ◌≤◌, length, None, slice_set};
ghost use Rattle.jm_heap.specs.Slots.{slot_cells, slots_cells};
ghost use Rattle.jm_heap.specs.Stored.{Swept};

use crate::slot::Slot;

// No slot has this number.
const NO_SLOT: usize = usize::MAX;

/// The cells of what lies in a slot.
fn cells(slot: &Slot) -> u64
    ensures { result ≡ slot_cells slot.now }
{
    match slot.class() {
        None => 0,
        Some(class) => class.size(slot.values().len() as u64),
    }
}

// Puts a slot at the head of the list of free ones.
fn free_slot(slots: &mut Vec<Slot>, used: &mut u64, index: usize, next: usize)
    requires within { index < length slots.old.items }
    requires used { used.old ≡ slots_cells slots.old.items }
    ensures items { slots.new.items ≡ slice_set slots.old.items index None }
    ensures used { used.new ≡ slots_cells slots.new.items }
    ensures fewer { used.new ≤ used.old }
{
    *used -= cells(&slots[index]);
    slots[index] = Slot::free(next);
}

/// Frees each slot that is not marked, and answers the first free one; `used` is then the cells of
/// what is left.
pub fn sweep(slots: &mut Vec<Slot>, marks: &Vec<bool>, used: &mut u64) -> usize
    requires many { length marks.now.items ≡ length slots.old.items }
    requires used { used.old ≡ slots_cells slots.old.items }
    ensures { Swept slots.old.items slots.new.items marks.now.items used.new }
{
    let mut free = NO_SLOT;
    for index in 0..slots.len() {
        if !marks[index] {
            free_slot(slots, used, index, free);
            free = index;
        }
    }
    free
}

// The cells of nurseries.

ghost use Rattle.std.specs.Prelude.{◌≡◌, ◌<◌, ◌^◌};
ghost use Rattle.jm_nursery.specs.Nurseries.{young_cells};
ghost use Rattle.jm_gen_heap.specs.Collections.{AreWhole};

use jm_blocks::BlockStore;

/// The cells of all objects of nurseries, where they are fewer than 2^64. It looks at no block.
pub fn young_cells(stores: &[BlockStore]) -> u64
    ensures value { young_cells stores.now < 2 ^ 64 → result ≡ young_cells stores.now }
    ensures short { AreWhole stores.now }
{
    let mut cells = 0u64;
    for number in 0..stores.len() {
        cells = cells.saturating_add(stores[number].cells());
    }
    cells
}

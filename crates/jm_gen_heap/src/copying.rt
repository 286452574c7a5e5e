// The stores of a heap are handed to its collector, and others are put in their place.

ghost use Rattle.std.specs.Prelude.{◌≡◌, ℕ, ◌+◌, ◌<◌, ◌≤◌, ◌^◌, List, ◌++◌, ◌∷◌, [], IfOk, OnErr};
ghost use Rattle.jm_blocks.specs.Stores.{Blocks, objects_in, store_cells};
ghost use Rattle.jm_nursery.specs.Nurseries.{AreNurseries, young_cells};
ghost use Rattle.jm_gen_heap.specs.Generations.{old_lane};
ghost use Rattle.jm_gen_heap.specs.Collections.{AreSurvivors, AreWhole, IsWhole};
ghost use Rattle.jm_gen_heap.specs.Copying.{ArePutIn, IsCopied};

use crate::cells::young_cells;
use jm_blocks::BlockStore;
use jm_copy::{Collector, Refused, Survivors};
use jm_nursery::{Nurseries, empty_nurseries};
use jm_values::Place;
use std::alloc::{AllocError, Global};
use std::mem;

/// The lane of the old objects, behind those of the nurseries.
pub const OLD_LANE: u64 = 17;

/// The stores of a heap.
#[derive(Drop)]
pub struct Stores {
    pub young: Vec<BlockStore>,
    pub tenured: BlockStore,
}

/// What a collection leaves: the stores, and the old objects that point to young ones and that it
/// promoted.
#[derive(Drop)]
pub struct Copied {
    pub stores: Stores,
    pub promoted: Vec<Place>,
}

// What a collection leaves, with nurseries of which the first is that of the survivors.
fn take_survivors(mut young: Vec<BlockStore>, survivors: Survivors) -> Copied
    requires nurseries { AreNurseries young.items }
    requires none { young_cells young.items ≡ 0 }
    requires lane { survivors.young.lane ≡ 1 }
    ensures young { AreSurvivors survivors.young result.stores.young.items }
    ensures tenured { result.stores.tenured ≡ survivors.tenured }
    ensures promoted { result.promoted ≡ survivors.remembered }
{
    let Survivors {
        young: survived,
        tenured,
        remembered,
    } = survivors;
    young[0] = survived;
    Copied {
        stores: Stores { young, tenured },
        promoted: remembered,
    }
}

// The old store that a refused collection hands back, in its lane, which one without objects may
// have lost.
fn in_old_lane(alloc: Global, store: BlockStore) -> BlockStore
    ensures lane { result.lane ≡ old_lane }
    ensures same { (before : Blocks) → before.lane ≡ old_lane → ((p : ℕ) → objects_in store p ≡ objects_in before p)
        → (p : ℕ) → objects_in result p ≡ objects_in before p }
{
    if store.lane() == OLD_LANE {
        return store;
    }
    BlockStore::new(alloc, OLD_LANE)
}

/// Takes the stores out and copies the young objects that the roots reach, with empty stores in their
/// place meanwhile. Where a growth is refused, the objects are put back as they were, and the roots
/// have not changed.
pub fn copy_young<C: Collector>(
    alloc: Global,
    collector: &C,
    young: &mut Nurseries,
    tenured: &mut BlockStore,
    roots: &mut Vec<Place>,
) -> Result<Copied, AllocError>
    requires { tenured.old.lane ≡ old_lane }
    ensures ok { IfOk result (λ c. IsCopied young.old.lanes tenured.old roots.old.items
        c.stores.young.items c.stores.tenured c.promoted.items roots.new.items) }
    ensures limit { young.new.limit ≡ young.old.limit }
    ensures young { OnErr result (young.new ≡ young.old) }
    ensures lane { OnErr result (tenured.new.lane ≡ old_lane) }
    ensures tenured { OnErr result ((p : ℕ) → objects_in tenured.new p ≡ objects_in tenured.old p) }
    ensures roots { OnErr result (roots.new.items ≡ roots.old.items) }
{
    let nurseries = empty_nurseries(alloc)?;
    let placeholder = empty_nurseries(alloc)?;
    let cells = young.cells();
    let condemned = young.exchange(placeholder, 0);
    let store = mem::replace(tenured, BlockStore::new(alloc, OLD_LANE));
    match collector.collect(alloc, condemned, store, roots) {
        Ok(survivors) => Ok(take_survivors(nurseries, survivors)),
        Err(refused) => {
            let Refused {
                condemned,
                tenured: store,
            } = refused;
            let _placeholder = young.exchange(condemned, cells);
            *tenured = in_old_lane(alloc, store);
            Err(AllocError)
        }
    }
}

// The stores out of their list, the last of which is that of the old objects.
fn apart(alloc: Global, mut all: Vec<BlockStore>) -> Stores
    ensures { (young : List Blocks) (tenured : Blocks) → all.items ≡ young ++ tenured ∷ [] → (result.young.items ≡ young) × (result.tenured ≡ tenured) }
{
    let tenured = match all.pop() {
        Some(store) => store,
        None => BlockStore::new(alloc, OLD_LANE),
    };
    Stores {
        young: all,
        tenured,
    }
}

/// Takes the stores out and copies the objects that the roots reach, with empty stores in their place
/// meanwhile. Where a growth is refused, the stores are put back, and the roots have not changed.
pub fn copy_all<C: Collector>(
    alloc: Global,
    collector: &C,
    young: &mut Nurseries,
    tenured: &mut BlockStore,
    roots: &mut Vec<Place>,
) -> Result<Copied, AllocError>
    requires { tenured.old.lane ≡ old_lane }
    ensures ok { IfOk result (λ c. IsCopied (young.old.lanes ++ tenured.old ∷ []) (record { lane = old_lane; lists = [] }) roots.old.items
        c.stores.young.items c.stores.tenured c.promoted.items roots.new.items) }
    ensures limit { young.new.limit ≡ young.old.limit }
    ensures young { OnErr result (young.new ≡ young.old) }
    ensures tenured { OnErr result (tenured.new ≡ tenured.old) }
    ensures roots { OnErr result (roots.new.items ≡ roots.old.items) }
{
    let nurseries = empty_nurseries(alloc)?;
    let placeholder = empty_nurseries(alloc)?;
    let cells = young.cells();
    let mut all = young.exchange(placeholder, 0);
    if all.reserve(1).is_err() {
        let _placeholder = young.exchange(all, cells);
        return Err(AllocError);
    }
    all.push_reserved(mem::replace(tenured, BlockStore::new(alloc, OLD_LANE)));
    match collector.collect(alloc, all, BlockStore::new(alloc, OLD_LANE), roots) {
        Ok(survivors) => Ok(take_survivors(nurseries, survivors)),
        Err(refused) => {
            let Stores {
                young: condemned,
                tenured: store,
            } = apart(alloc, refused.condemned);
            let _placeholder = young.exchange(condemned, cells);
            *tenured = store;
            Err(AllocError)
        }
    }
}

/// Puts stores in the place of those that were taken out, and answers the cells of the old objects.
pub fn put_stores(young: &mut Nurseries, tenured: &mut BlockStore, stores: Stores) -> u64
    requires small { young.old.limit < 2 ^ 32 }
    requires nurseries { AreNurseries stores.young.items }
    requires within { AreWhole stores.young.items → IsWhole stores.tenured →
        young_cells stores.young.items + store_cells stores.tenured.lists ≤ young.old.limit }
    ensures { ArePutIn young.old young.new stores.young.items stores.tenured tenured.new result }
{
    let Stores {
        young: nurseries,
        tenured: store,
    } = stores;
    let young_cells = young_cells(&nurseries);
    let cells = store.cells();
    let _placeholder = young.exchange(nurseries, young_cells);
    *tenured = store;
    cells
}

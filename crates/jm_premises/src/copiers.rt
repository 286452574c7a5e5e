// A collection by two copiers, without a heap.

ghost use Rattle.std.specs.Prelude.{◌≡◌, IfOk};
ghost use Rattle.jm_copy.specs.Condemned.{AreLanes};
ghost use Rattle.jm_heap.specs.declared.class_id.ClassId.TheVariants.{Instance};

use crate::gates::CountingGate;
use crate::machines::CELLS;
use anyhow::bail;
use jm_blocks::{BlockStore, Header};
use jm_copy::{Source, number_all};
use jm_forward::Forwarding;
use jm_heap::{ClassId, Elements};
use jm_nursery::Nurseries;
use jm_par_copy::{CopierBlocks, Round, copy_with};
use jm_values::{Place, Value};
use std::alloc::{AllocError, Global};
use std::sync::atomic::{AtomicU64, Ordering};
use std::thread::Threads;

// The lanes of the young, which are condemned, and of the old.
const YOUNG: u64 = 1;

const OLD: u64 = 2;

// The most objects here.
const MOST: usize = 3;

/// What a collection leaves: how many objects, after how many claims, and how many seats come back.
#[derive(Clone, Copy)]
pub struct Copied {
    pub objects: usize,
    pub claims: u64,
    pub seats: usize,
}

// The header of a new object of this number in the world.
fn header_of(serial: u64) -> Header
    ensures { result.class ≡ Instance 7 }
{
    Header {
        serial,
        class: ClassId::Instance(7),
        age: 0,
    }
}

// Puts an object of one field, of 3 cells, into a store, and answers its place.
fn put_object(
    alloc: Global,
    store: &mut BlockStore,
    serial: u64,
    field: Value,
) -> Result<Place, AllocError> {
    let place = store.reserve(3)?;
    let fields = [field];
    store.fill(
        alloc,
        header_of(serial),
        Elements::Fields(fields.as_slice()),
    )?;
    Ok(place)
}

/// Puts such an object into the first nursery, and answers how many cells are taken there.
#[tactic(auto, unfolding(jm_heap::specs::Cells::class_size))]
pub fn put_young(alloc: Global) -> Result<u64, AllocError> {
    let mut young = Nurseries::new(alloc, CELLS)?;
    young.make(alloc, 0, header_of(0), Value::Null, 1)?;
    Ok(young.cells())
}

// A store of the lane of the young as the only one that is condemned.
#[tactic(auto, using(crate::proofs::Lanes::one_lane))]
fn condemned_alone(alloc: Global, store: BlockStore) -> anyhow::Result<Vec<BlockStore>>
    ensures { IfOk result (λ stores. AreLanes stores.items) }
{
    if store.lane() != YOUNG {
        bail!("another lane");
    }
    let mut stores = Vec::new(alloc);
    stores.push(store)?;
    Ok(stores)
}

// How many objects a store has.
fn count_objects(store: &BlockStore) -> usize {
    let mut count = 0;
    for number in 0..store.len() {
        count = usize::saturating_add(count, store.block(number).len());
    }
    count
}

// Copies what a root reaches, by two copiers.
fn copied_from<R: Threads>(
    rt: &R,
    alloc: Global,
    condemned: &[BlockStore],
    root: Place,
) -> anyhow::Result<Copied>
    requires { AreLanes condemned.now }
{
    let (numbers, count) = number_all(alloc, condemned)?;
    if count > MOST {
        bail!("more objects than were put");
    }
    let (words, mut seats) = Forwarding::<CopierBlocks>::new(alloc, count, 2)?;
    let roots = [root];
    let from = Source {
        stores: condemned,
        numbers: numbers.as_slice(),
        roots: roots.as_slice(),
    };
    let passed = AtomicU64::new(0);
    let gate = CountingGate { passed: &passed };
    let round = Round {
        from,
        words: &words,
        gate: &gate,
    };
    let mut tenured = BlockStore::new(alloc, OLD);
    let copied = copy_with(rt, alloc, &round, &mut seats, &mut tenured)?;
    Ok(Copied {
        objects: count_objects(&copied.young),
        claims: passed.load(Ordering::SeqCst),
        seats: seats.len(),
    })
}

/// Copies two of three objects, the third of which names the first, and is the root. One copier has it, and makes both
/// claims.
pub fn copy_by_two<R: Threads>(rt: &R, alloc: Global) -> anyhow::Result<Copied> {
    let mut store = BlockStore::new(alloc, YOUNG);
    let first = put_object(alloc, &mut store, 0, Value::Null)?;
    put_object(alloc, &mut store, 1, Value::Ref(first))?;
    let third = put_object(alloc, &mut store, 2, Value::Ref(first))?;
    let condemned = condemned_alone(alloc, store)?;
    copied_from(rt, alloc, condemned.as_slice(), third)
}

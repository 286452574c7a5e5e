// The nurseries of the workers.

ghost use Rattle.std.specs.Prelude.{◌≡◌, ℕ, ◌+◌, ◌-◌, ◌*◌, ◌/◌, ◌%◌, ◌<◌, ◌≤◌, ◌^◌, [], Some, IfOk, OnErr, length, map, slice_get, replicate, nat_le};
ghost use Rattle.jm_values.specs.Objects.{default_of};
ghost use Rattle.jm_blocks.specs.Objects.{Object, object_of};
ghost use Rattle.jm_heap.specs.Packing.{Fits, kind_of};
ghost use Rattle.jm_heap.specs.declared.storage.Storage.TheVariants as kind;
ghost use Rattle.jm_blocks.specs.Places.{lane_of};
ghost use Rattle.jm_blocks.specs.Stores.{Blocks, objects_in, HasObject, IsEmpty, IsLast};
ghost use Rattle.jm_blocks.specs.Cells.{object_cells};
ghost use Rattle.jm_nursery.specs.Nurseries.{Young, AreNurseries, CanHoldYoung, HasYoungValue, IsMade, IsUnmade, IsWritten, quota, young_cells, nursery_at};

use jm_blocks::{BlockStore, Header, Position};
use jm_program::OperandType;
use jm_values::{Place, Value};
use std::alloc::{AllocError, Global};
use std::marker::Model;
use std::mem;

/// How many nurseries there are.
const NURSERIES: usize = 16;

/// The nursery in which a place is, or None where it is in a lane of none.
#[inline]
pub fn nursery_of(place: Place) -> Option<usize>
    ensures { result ≡ nursery_at place }
{
    let position = Position::of(place);
    if position.lane >= 1 && position.lane <= NURSERIES as u64 {
        Some((position.lane - 1) as usize)
    } else {
        None
    }
}

/// Sixteen nurseries without blocks, which a collection may fill.
pub fn empty_nurseries(alloc: Global) -> Result<Vec<BlockStore>, AllocError>
    ensures { IfOk result (λ stores. AreNurseries stores.items × (young_cells stores.items ≡ 0)) }
{
    let mut stores = Vec::with_capacity(alloc, NURSERIES)?;
    for number in 0..NURSERIES {
        stores.push(BlockStore::new(alloc, number as u64 + 1))?;
    }
    Ok(stores)
}

// The cells of the object at a place.
fn cells_at(store: &BlockStore, place: Place) -> u64
    requires { HasObject store.now place }
    ensures { (o : Object) → objects_in store.now place ≡ Some o → result ≡ object_cells o }
{
    let (header, values) = store.object_at(place);
    header.class.size(values.len() as u64)
}

/// The blocks of sixteen workers' nurseries, and the cells of all their objects.
pub struct Nurseries {
    limit: u32,
    cells: u64,
    stores: Vec<BlockStore>,
}

// Written out, so that whoever lets go of one makes a call (docs/DECISIONS.md).
impl Drop for Nurseries {
    fn drop(self) {
        let Nurseries {
            limit: _,
            cells: _,
            stores: _,
        } = self;
    }
}

impl Model for Nurseries {
    ghost use Rattle.jm_nursery.specs.Nurseries.{Young, IsYoung};

    ghost Value = { Young };

    ghost view = { λ n. record { limit = n.limit; lanes = n.stores.items } };

    ghost invariant = { λ n. IsYoung n.limit n.cells n.stores.items };
}

impl Nurseries {
    /// Nurseries without objects, in a heap with this limit in cells.
    pub fn new(alloc: Global, limit: u32) -> Result<Nurseries, AllocError>
        ensures limit { IfOk result (λ young. young.limit ≡ limit) }
        ensures empty { IfOk result (λ young. AreNurseries young.lanes × (young_cells young.lanes ≡ 0)) }
    {
        Ok(Nurseries {
            limit,
            cells: 0,
            stores: empty_nurseries(alloc)?,
        })
    }

    /// A quarter of the limit, rounded down: so many cells young objects may have before a minor
    /// collection.
    pub fn quota(&self) -> u64
        ensures { result ≡ quota self.now }
    {
        self.limit as u64 / 4
    }

    /// The cells of all objects.
    pub fn cells(&self) -> u64
        ensures value { result ≡ young_cells self.now.lanes }
        ensures within { result ≤ self.now.limit }
    {
        self.cells
    }

    /// Whether the cells with so many more stay within the quota.
    #[inline]
    pub fn has_room(&self, cells: u64) -> bool
        requires { cells < 2 ^ 63 }
        ensures { result ≡ nat_le (young_cells self.now.lanes + cells) (quota self.now) }
    {
        let quota = self.limit as u64 / 4;
        self.cells + cells <= quota
    }

    /// The stores of the nurseries, in order; the last block of each is its worker's current one.
    pub fn stores(&self) -> &[BlockStore]
        ensures value { result.now ≡ self.now.lanes }
        ensures nurseries { AreNurseries self.now.lanes }
    {
        self.stores.as_slice()
    }

    /// Makes an object in the nursery of a worker, its number modulo 16; all values are copies of
    /// one. A growth that is refused changes nothing.
    pub fn make(
        &mut self,
        alloc: Global,
        worker: usize,
        header: Header,
        value: Value,
        count: u32,
    ) -> Result<Place, AllocError>
        requires room { let o = object_of header (replicate count value) in young_cells self.old.lanes + object_cells o ≤ self.old.limit }
        requires fits { Fits (kind_of header.class) value }
        ensures ok { let o = object_of header (replicate count value) in IfOk result (λ p. IsMade self.old self.new (worker % 16) p o) }
        ensures err { OnErr result (self.new ≡ self.old) }
    {
        let size = header.class.size(count as u64);
        let store = &mut self.stores[worker % NURSERIES];
        let place = store.reserve(size)?;
        store.fill_copies(alloc, header, value, count)?;
        self.cells += size;
        Ok(place)
    }

    /// Makes an object with the default values of these fields in the nursery of a worker, as `make`
    /// does. A growth that is refused changes nothing.
    #[inline]
    pub fn make_defaults(
        &mut self,
        alloc: Global,
        worker: usize,
        header: Header,
        fields: &[OperandType],
    ) -> Result<Place, AllocError>
        requires short { length fields.now < 2 ^ 32 }
        requires room { young_cells self.old.lanes + object_cells (object_of header (map default_of fields.now)) ≤ self.old.limit }
        requires instance { kind.Fields ≡ kind_of header.class }
        ensures ok { IfOk result (λ p. IsMade self.old self.new (worker % 16) p (object_of header (map default_of fields.now))) }
        ensures err { OnErr result (self.new ≡ self.old) }
    {
        let size = header.class.size(fields.len() as u64);
        let store = &mut self.stores[worker % NURSERIES];
        let place = store.reserve(size)?;
        store.fill_defaults(alloc, header, fields)?;
        self.cells += size;
        Ok(place)
    }

    /// Gives up the last object in the nursery of a worker, its number modulo 16, if there is one. Where
    /// there is none nothing changes.
    pub fn pop(&mut self, worker: usize)
        ensures popped { (s : Blocks) (p : ℕ) → slice_get self.old.lanes (worker % 16) ≡ Some s → HasObject s p → IsLast s p
            → (o : Object) × IsUnmade self.old self.new (worker % 16) p o }
        ensures empty { (s : Blocks) → slice_get self.old.lanes (worker % 16) ≡ Some s → IsEmpty s → self.new ≡ self.old }
    {
        let number = worker % NURSERIES;
        let Some(place) = self.stores[number].last() else {
            return;
        };
        let size = cells_at(&self.stores[number], place);
        let store = &mut self.stores[number];
        store.pop();
        self.cells -= size;
    }

    /// Changes one value of the object at a place in the lane of a nursery.
    #[inline(always)]
    pub fn set(&mut self, place: Place, number: usize, value: Value)
        requires there { HasYoungValue self.old.lanes place number }
        requires fits { CanHoldYoung self.old.lanes place value }
        ensures { IsWritten self.old self.new place number value }
    {
        let position = Position::of(place);
        let store = &mut self.stores[position.lane as usize - 1];
        store.set(place, number, value);
    }

    /// Puts other stores in the place of those of all nurseries, which it hands over: no block is
    /// lost or held twice. Who puts them in has counted their cells.
    pub fn exchange(&mut self, stores: Vec<BlockStore>, cells: u64) -> Vec<BlockStore>
        requires nurseries { AreNurseries stores.items }
        requires counted { cells ≡ young_cells stores.items }
        requires within { cells ≤ self.old.limit }
        ensures out { result.items ≡ self.old.lanes }
        ensures held { self.new ≡ record { limit = self.old.limit; lanes = stores.items } }
        ensures nurseries { AreNurseries result.items }
    {
        self.cells = cells;
        mem::replace(&mut self.stores, stores)
    }
}

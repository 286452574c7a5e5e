// The young and the old objects of a heap.

ghost use Rattle.std.specs.Prelude.{◌≡◌, ℕ, ◌+◌, ◌%◌, ◌/◌, ◌<◌, ◌≤◌, ◌^◌, ◌++◌, [], Some, true, false};
ghost use Rattle.std.specs.Prelude.{IfOk, IfErr, OnOk, OnErr, IsTrue, IsFalse, length, map, take, drop, nat_le, vec_capacity};
ghost use Rattle.jm_values.specs.Rename.{refs, rename};
ghost use Rattle.jm_values.specs.Reach.{AllDistinct};
ghost use Rattle.jm_values.specs.Shape.{Among};
ghost use Rattle.jm_values.specs.Content.{AllResident, IsSet, name_of, serial_at};
ghost use Rattle.jm_values.specs.Content.{HasValue as HasContent};
ghost use Rattle.jm_values.specs.declared.value.Value.{Value};
ghost use Rattle.jm_heap.specs.Cells.{class_size, resident_cells};
ghost use Rattle.jm_heap.specs.Allocation.{AreRefusedHere, MadeHere, IsRefusedHere};
ghost use Rattle.jm_heap.specs.NewObject.{new_object};
ghost use Rattle.jm_values.specs.Objects.{size_by};
ghost use Rattle.jm_heap.specs.Elements.{elements, element_kind};
ghost use Rattle.jm_heap.specs.Packing.{Fits, kind_of};
ghost use Rattle.jm_blocks.specs.Objects.{Object, object_of};
ghost use Rattle.jm_blocks.specs.Places.{lane_of};
ghost use Rattle.jm_blocks.specs.Stores.{HasObject, HasValue, objects_in};
ghost use Rattle.jm_nursery.specs.Nurseries.{IsMade, young_cells};
ghost use Rattle.jm_gen_heap.specs.Generations.{lying, all_cells, old_lane, stores_of};
ghost use Rattle.jm_gen_heap.specs.Residents.{content_of};
ghost use Rattle.jm_gen_heap.specs.Invariant.{AreGenerations};
ghost use Rattle.jm_gen_heap.specs.Allocating.{AllLieAsBefore};
ghost use Rattle.jm_gen_heap.specs.Steps.{IsWritten};
ghost use Rattle.jm_gen_heap.specs.Collections.{AreWrittenBack, LeavesAllReached, fields_of};
ghost use Rattle.jm_barrier.specs.Remembered.{noted};
ghost use Rattle.jm_gen_heap.specs.Pointers.{IsSettled, StillPoint, names_young};
ghost use Rattle.jm_gen_heap.specs.Held.{IsPutNew, IsSetOld};
ghost use Rattle.jm_gen_heap.specs.Minor.{LeavesMinor};
ghost use Rattle.jm_gen_heap.specs.Several.{AreAllPut, AreBackBefore, AreFirstPut, EndsInPut, EndsInPuts, IsAbove, IsAlike, IsBackBefore, all_sizes};
ghost use Rattle.jm_gen_heap.specs.Serials.{all_serials, block_serials, store_serials};

use crate::copying::{Copied, OLD_LANE, copy_all, copy_young, put_stores};
use crate::fields::{add_fields, put_fields};
use crate::pointers::{Pointers, names_young};
use crate::request::{default_element, header_of};
use jm_blocks::{Block, BlockStore, Header, Position};
use jm_copy::Collector;
use jm_heap::{Elements, HeapFault, Roots, Shape};
use jm_nursery::Nurseries;
use jm_values::{Place, Value};
use std::alloc::{AllocError, Global};
use std::marker::Model;

// How many objects there can be, so that each has a serial.
const MAX_SERIALS: u64 = 1 << 63;

// The roots, and the references in the fields of the old objects that point to young ones, which are
// all noted first.
fn minor_roots(
    alloc: Global,
    pointers: &mut Pointers,
    tenured: &BlockStore,
    roots: &Roots,
) -> Result<Vec<Place>, AllocError>
    ensures still { StillPoint tenured.now pointers.old pointers.new }
    ensures settled { OnOk result (IsSettled tenured.now pointers.old pointers.new) }
    ensures distinct { OnOk result (AllDistinct pointers.new.noted) }
    ensures ok { IfOk result (λ places. places.items ≡ roots.now ++ fields_of tenured.now pointers.new.noted) }
{
    pointers.settle(tenured)?;
    let mut places = list_of(alloc, roots)?;
    add_fields(&mut places, tenured, pointers.noted())?;
    Ok(places)
}

// The roots as a list.
fn list_of(alloc: Global, roots: &Roots) -> Result<Vec<Place>, AllocError>
    ensures { IfOk result (λ places. places.items ≡ roots.now) }
{
    let mut places = Vec::new(alloc);
    places.extend_from_slice(roots.as_slice())?;
    Ok(places)
}

// Puts the first places of a list in the place of the roots.
fn put_roots(roots: &mut Roots, places: &Vec<Place>)
    requires { length roots.old ≤ length places.now.items }
    ensures { roots.new ≡ take (length roots.old) places.now.items }
{
    for number in 0..roots.len() {
        roots.set(number, places[number]);
    }
}

// Notes an old object that gets a value, if that names a young one.
#[inline]
fn note_young(pointers: &mut Pointers, place: Place, value: &Value) -> Result<(), AllocError>
    ensures noted { names_young value.now ≡ true → OnOk result (pointers.new ≡ record { noted = noted pointers.old.noted place; left = pointers.old.left }) }
    ensures same { names_young value.now ≡ false → pointers.new ≡ pointers.old }
    ensures err { OnErr result (pointers.new ≡ pointers.old) }
{
    if names_young(value) {
        return pointers.note(place);
    }
    Ok(())
}

// Changes one value of an old object, which is remembered where the value names a young one. Where a
// growth is refused, nothing has changed. It is called, so that a heap's `set` is small enough to lie
// where it is used: that takes fewer instructions than the call does, for an old object too.
#[inline(never)]
fn set_old(
    pointers: &mut Pointers,
    tenured: &mut BlockStore,
    place: Place,
    number: usize,
    value: Value,
) -> Result<(), AllocError>
    requires there { HasValue tenured.old place number }
    requires fits { (o : Object) → objects_in tenured.old place ≡ Some o → Fits (kind_of o.class) value }
    ensures ok { OnOk result (IsSetOld tenured.old tenured.new pointers.old pointers.new place number value) }
    ensures err { OnErr result ((tenured.new ≡ tenured.old) × (pointers.new ≡ pointers.old)) }
{
    note_young(pointers, place, &value)?;
    tenured.set(place, number, value);
    Ok(())
}

// Puts an object with default values into a nursery. Where a growth is refused, no object is there.
fn put_new(
    alloc: Global,
    young: &mut Nurseries,
    nursery: usize,
    header: Header,
    shape: Shape<'_>,
) -> Result<Place, AllocError>
    requires class { header.class ≡ (new_object shape).type }
    requires small { young.old.limit < 2 ^ 32 }
    requires room { young_cells young.old.lanes + size_by class_size (new_object shape) ≤ young.old.limit }
    ensures ok { IfOk result (λ p. IsMade young.old young.new (nursery % 16) p (object_of header (new_object shape.entry).values)) }
    ensures err { OnErr result (young.new ≡ young.old) }
{
    match shape {
        Shape::Instance { fields, .. } => { young.make_defaults(alloc, nursery, header, fields) }
        Shape::Array { component, length } => {
            young.make(alloc, nursery, header, default_element(component), length)
        }
    }
}

// Writes the places that a minor collection moved back: the first ones are the roots, the others the
// references of the noted objects. These and the promoted ones are then all that may point to young
// objects.
fn write_back(
    tenured: &mut BlockStore,
    pointers: &mut Pointers,
    promoted: Vec<Place>,
    places: &Vec<Place>,
    roots: &mut Roots,
)
    requires there { (p : ℕ) → Among p pointers.old.noted → HasObject tenured.old p }
    requires enough { length places.now.items ≡ length roots.old + length (fields_of tenured.old pointers.old.noted) }
    ensures fields { AreWrittenBack pointers.old.noted (drop (length roots.old) places.now.items) tenured.old tenured.new }
    ensures roots { roots.new ≡ take (length roots.old) places.now.items }
    ensures pointers { pointers.new ≡ record { noted = []; left = pointers.old.noted ++ promoted.items } }
{
    put_fields(tenured, pointers.noted(), places, roots.len());
    put_roots(roots, places);
    let noted = pointers.take();
    pointers.put(noted, promoted);
}

/// The nurseries, the store of the old objects, and the old objects that may point to young ones.
pub struct Generations {
    alloc: Global,
    limit: u32,
    next: u64,
    young: Nurseries,
    tenured: BlockStore,
    tenured_cells: u64,
    pointers: Pointers,
}

// Written out, so that whoever lets go of one makes a call (docs/DECISIONS.md).
impl Drop for Generations {
    fn drop(self) {
        let Generations {
            alloc: _,
            limit: _,
            next: _,
            young: _,
            tenured: _,
            tenured_cells: _,
            pointers: _,
        } = self;
    }
}

impl Model for Generations {
    ghost use Rattle.jm_gen_heap.specs.Generations.{Generations};
    ghost use Rattle.jm_gen_heap.specs.Held.{AreHeld, held};

    ghost Value = { Generations };

    ghost view = { λ g. held g.limit g.next g.young g.tenured g.pointers };

    ghost invariant = { λ g. AreHeld g.limit g.next g.young g.tenured g.tenured_cells g.pointers };
}

impl Generations {
    /// No objects, in a heap of so many cells, whose next serial is 0.
    pub fn new(alloc: Global, limit: u32) -> Result<Generations, AllocError>
        ensures { IfOk result (λ g. content_of g ≡ record { limit = limit; next = 0; residents = [] }) }
    {
        Ok(Generations {
            alloc,
            limit,
            next: 0,
            young: Nurseries::new(alloc, limit)?,
            tenured: BlockStore::new(alloc, OLD_LANE),
            tenured_cells: 0,
            pointers: Pointers::new(alloc)?,
        })
    }

    // The store of the object at a place.
    #[inline]
    fn store_of(&self, place: Place) -> &BlockStore
        requires { (k : ℕ) × (serial_at (content_of self.now) place ≡ Some k) }
        ensures there { (o : Object) → lying self.now place ≡ Some o → objects_in result.now place ≡ Some o }
        ensures keeps { AreGenerations self.now }
    {
        let position = Position::of(place);
        if position.lane == OLD_LANE {
            return &self.tenured;
        }
        &self.young.stores()[position.lane as usize - 1]
    }

    /// One value of the object at a place.
    #[inline]
    pub fn get(&self, place: Place, index: u32) -> Value
        requires { (v : Value) × HasContent (content_of self.now) place index v }
        ensures value { HasContent (content_of self.now) place index (rename (name_of (content_of self.now)) result) }
        ensures resident { AllResident (content_of self.now) (refs result) }
    {
        self.store_of(place).get(place, index as usize)
    }

    /// The object at a place: its header and its values, which are fewer than 2^32.
    #[inline(always)]
    pub fn object_at(&self, place: Place) -> (Header, Elements<'_>)
        requires { (k : ℕ) × (serial_at (content_of self.now) place ≡ Some k) }
        ensures short { length (elements result.1) < 2 ^ 32 }
        ensures value { lying self.now place ≡ Some (object_of result.0 (elements result.1)) }
        ensures kind { element_kind result.1 ≡ kind_of result.0.class }
        ensures keeps { AreGenerations self.now }
    {
        self.store_of(place).object_at(place)
    }

    /// Changes one value of the object at a place. An old object that gets a reference to a young one
    /// is remembered. Where a growth is refused, nothing has changed.
    #[inline(always)]
    pub fn set(&mut self, place: Place, index: u32, value: Value) -> Result<(), AllocError>
        requires there { (v : Value) × HasContent (content_of self.old) place index v }
        requires names { AllResident (content_of self.old) (refs value) }
        requires fits { (o : Object) → lying self.old place ≡ Some o → Fits (kind_of o.class) value }
        ensures ok { OnOk result (IsWritten self.old self.new place index value) }
        ensures set { OnOk result (IsSet (content_of self.old) (content_of self.new) place index value) }
        ensures err { OnErr result (self.new ≡ self.old) }
        ensures old { OnErr result (lane_of place ≡ old_lane) }
    {
        let position = Position::of(place);
        if position.lane == OLD_LANE {
            return set_old(
                &mut self.pointers,
                &mut self.tenured,
                place,
                index as usize,
                value,
            );
        }
        self.young.set(place, index as usize, value);
        Ok(())
    }

    /// The cells of all objects.
    #[inline]
    pub fn used(&self) -> u64
        ensures value { result ≡ all_cells self.now }
        ensures cells { result ≡ resident_cells (content_of self.now) }
        ensures within { result ≤ self.now.limit }
        ensures keeps { AreGenerations self.now }
    {
        self.young.cells() + self.tenured_cells
    }

    /// The limit in cells.
    #[inline]
    pub fn limit(&self) -> u64
        ensures value { result ≡ self.now.limit }
        ensures small { result < 2 ^ 32 }
    {
        self.limit as u64
    }

    /// Whether an object of so many cells fits beside all objects.
    #[inline]
    pub fn fits(&self, cells: u64) -> bool
        ensures value { result ≡ nat_le (all_cells self.now + cells) self.now.limit }
        ensures small { self.now.limit < 2 ^ 32 }
        ensures keeps { AreGenerations self.now }
    {
        cells <= self.limit() - self.used()
    }

    /// Whether the young objects stay within the quota with one of so many cells more.
    #[inline]
    pub fn is_within_quota(&self, cells: u64) -> bool
        requires { cells < 2 ^ 63 }
        ensures { result ≡ nat_le (young_cells self.now.nurseries + cells) (self.now.limit / 4) }
    {
        self.young.has_room(cells)
    }

    /// Makes an object in a nursery, which fits beside all objects.
    #[inline]
    pub fn make(&mut self, nursery: usize, shape: Shape<'_>) -> Result<Place, HeapFault>
        requires { all_cells self.old + size_by class_size (new_object shape) ≤ self.old.limit }
        ensures ok { IfOk result (λ p. IsPutNew self.old self.new p (nursery % 16) (new_object shape.entry)) }
        ensures made { IfOk result (λ p. MadeHere (content_of self.old) (content_of self.new) p (new_object shape.entry)) }
        ensures above { IfOk result (λ p. IsAbove self.old p (nursery % 16)) }
        ensures keeps { AreGenerations self.new }
        ensures same { OnErr result (self.new ≡ self.old) }
        ensures err { IfErr result (IsRefusedHere (content_of self.old) (new_object shape.entry)) }
    {
        if self.next >= MAX_SERIALS {
            return Err(HeapFault::SerialsEnd);
        }
        let header = header_of(shape, self.next);
        let place = put_new(self.alloc, &mut self.young, nursery, header, shape)?;
        self.next += 1;
        Ok(place)
    }

    // Gives up the object that was made last, in a nursery.
    fn unmake(&mut self, nursery: usize)
        requires { EndsInPut self.old (nursery % 16) }
        ensures { IsBackBefore self.old self.new (nursery % 16) }
    {
        self.young.pop(nursery);
        self.next -= 1;
    }

    // Gives up so many objects that were made last, in a nursery.
    fn unmake_all(&mut self, nursery: usize, count: usize)
        requires { EndsInPuts self.old (nursery % 16) count }
        ensures { AreBackBefore self.old self.new (nursery % 16) count }
    {
        for _ in 0..count {
            self.unmake(nursery);
        }
    }

    // Makes objects in a nursery, one after the other, until all are made or one is refused.
    fn make_each(
        &mut self,
        nursery: usize,
        shapes: &[Shape<'_>],
        places: &mut Vec<Place>,
    ) -> Result<(), HeapFault>
        requires none { places.old.items ≡ [] }
        requires reserved { length shapes.now ≤ vec_capacity places.old }
        requires fits { all_cells self.old + all_sizes (map new_object shapes.now) ≤ self.old.limit }
        ensures put { AreFirstPut self.old places.new.items (nursery % 16) (map new_object shapes.now) (length places.new.items) self.new }
        ensures ok { OnOk result (length places.new.items ≡ length shapes.now) }
        ensures keeps { AreGenerations self.old }
        ensures err { IfErr result (AreRefusedHere (content_of self.old) (map new_object shapes.now)) }
    {
        let _cells = self.used();
        for number in 0..shapes.len() {
            match self.make(nursery, shapes[number]) {
                Ok(place) => places.push_reserved(place),
                Err(fault) => return Err(fault),
            }
        }
        Ok(())
    }

    // Whether there are serials for so many objects more.
    fn has_serials(&self, count: usize) -> bool
        ensures yes { IsTrue result → self.now.next + count ≤ 2 ^ 63 }
        ensures no { IsFalse result → 2 ^ 63 < self.now.next + count }
    {
        self.next <= MAX_SERIALS && count as u64 <= MAX_SERIALS - self.next
    }

    /// Makes objects in a nursery, all or none, in the order of their shapes, which fit beside all
    /// objects. The list of their places is reserved first; where a growth is refused, those that were
    /// made are given up, the last one first.
    pub fn make_all(
        &mut self,
        nursery: usize,
        shapes: &[Shape<'_>],
    ) -> Result<Vec<Place>, HeapFault>
        requires { all_cells self.old + all_sizes (map new_object shapes.now) ≤ self.old.limit }
        ensures ok { IfOk result (λ places. AreAllPut self.old self.new places.items (nursery % 16) (map new_object shapes.now)) }
        ensures none { OnErr result (IsAlike self.old self.new) }
        ensures keeps { AreGenerations self.old }
        ensures err { IfErr result (AreRefusedHere (content_of self.old) (map new_object shapes.now)) }
    {
        let _cells = self.used();
        if !self.has_serials(shapes.len()) {
            return Err(HeapFault::SerialsEnd);
        }
        let mut places = Vec::with_capacity(self.alloc, shapes.len())?;
        match self.make_each(nursery, shapes, &mut places) {
            Ok(()) => Ok(places),
            Err(fault) => {
                self.unmake_all(nursery, places.len());
                Err(fault)
            }
        }
    }

    /// Gives up young objects that the roots and the old objects do not reach. Where a growth is
    /// refused, nothing has changed.
    pub fn collect_young<C: Collector>(
        &mut self,
        collector: &C,
        roots: &mut Roots,
    ) -> Result<(), AllocError>
        requires { AllResident (content_of self.old) roots.old }
        ensures ok { OnOk result (LeavesMinor self.old self.new roots.old roots.new) }
        ensures keeps { AreGenerations self.new }
        ensures same { OnErr result (content_of self.new ≡ content_of self.old) }
        ensures lie { OnErr result (AllLieAsBefore self.old self.new) }
        ensures roots { OnErr result (roots.new ≡ roots.old) }
    {
        let mut places = minor_roots(self.alloc, &mut self.pointers, &self.tenured, roots)?;
        match copy_young(
            self.alloc,
            collector,
            &mut self.young,
            &mut self.tenured,
            &mut places,
        ) {
            Ok(copied) => {
                let mut stores = copied.stores;
                write_back(
                    &mut stores.tenured,
                    &mut self.pointers,
                    copied.promoted,
                    &places,
                    roots,
                );
                self.tenured_cells = put_stores(&mut self.young, &mut self.tenured, stores);
                Ok(())
            }
            Err(fault) => {
                self.tenured_cells = self.tenured.cells();
                Err(fault)
            }
        }
    }

    /// Gives up all objects that the roots do not reach. Where a growth is refused, nothing has
    /// changed.
    pub fn collect_all<C: Collector>(
        &mut self,
        collector: &C,
        roots: &mut Roots,
    ) -> Result<(), AllocError>
        requires { AllResident (content_of self.old) roots.old }
        ensures ok { OnOk result (LeavesAllReached self.old self.new roots.old roots.new) }
        ensures keeps { AreGenerations self.new }
        ensures same { OnErr result (self.new ≡ self.old) }
        ensures roots { OnErr result (roots.new ≡ roots.old) }
    {
        let mut places = list_of(self.alloc, roots)?;
        let copied = copy_all(
            self.alloc,
            collector,
            &mut self.young,
            &mut self.tenured,
            &mut places,
        )?;
        let Copied { stores, promoted } = copied;
        put_roots(roots, &places);
        self.pointers.put(promoted, Vec::new(self.alloc));
        self.tenured_cells = put_stores(&mut self.young, &mut self.tenured, stores);
        Ok(())
    }

    /// The serials of all objects.
    pub fn serials(&self) -> Result<Vec<u64>, AllocError>
        ensures all { IfOk result (λ serials. serials.items ≡ all_serials (stores_of self.now)) }
        ensures keeps { AreGenerations self.now }
    {
        let mut serials = Vec::new(self.alloc);
        for store in self.young.stores() {
            add_serials(&mut serials, store)?;
        }
        add_serials(&mut serials, &self.tenured)?;
        Ok(serials)
    }
}

// Adds the serials of the objects of a block to a list.
fn add_block(serials: &mut Vec<u64>, block: &Block) -> Result<(), AllocError>
    ensures { OnOk result (serials.new.items ≡ serials.old.items ++ block_serials (take 256 block.now)) }
{
    for index in 0..block.len() {
        let Some((header, _)) = block.object(index) else {
            return Ok(());
        };
        serials.push(header.serial)?;
    }
    Ok(())
}

// Adds the serials of the objects of a store to a list.
fn add_serials(serials: &mut Vec<u64>, store: &BlockStore) -> Result<(), AllocError>
    ensures { OnOk result (serials.new.items ≡ serials.old.items ++ store_serials store.now) }
{
    for number in 0..store.len() {
        add_block(serials, store.block(number))?;
    }
    Ok(())
}

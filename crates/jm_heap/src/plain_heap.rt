// The heap that never moves an object.

ghost use Rattle.std.specs.Prelude.{[], OnOk, OnErr, IfOk, IfErr, ◌≡◌, ◌+◌, ◌≤◌, ◌<◌, ◌^◌, ℕ, List, Some, None, length, map, sum_by, slice_get};
ghost use Rattle.jm_values.specs.declared.value.Value.{Value};
ghost use Rattle.jm_values.specs.Rename.{rename, refs};
ghost use Rattle.jm_heap.specs.Cells.{class_size, resident_cells};
ghost use Rattle.jm_heap.specs.NewObject.{new_object, AreShort};
ghost use Rattle.jm_heap.specs.Allocation.{AllMadeHere, AreRefused, AreRefusedHere, HasRoom, NoneIsNoRoom, IsRefused, IsRefusedHere, MadeHereOrNot, RoomIsRefused};
ghost use Rattle.jm_heap.specs.Residents.{AreResident};
ghost use Rattle.jm_heap.specs.Collection.{AreAsBeforeMaking, Collected, IsAsBefore, IsAsBeforeMaking, IsTidied, IsUnmoved, LeavesReached, LeavesUnmoved};
ghost use Rattle.jm_values.specs.Objects.{ObjectOf, size_by};
ghost use Rattle.jm_values.specs.Content.{Content, HasValue, IsSet, IsSound, Kept, Made, MadeAll, AllResident, used_by, serial_at, object_at, name_of};
ghost use Rattle.jm_heap.specs.declared.class_id.ClassId.{ClassId};

use crate::class_id::ClassId;
use crate::elements::Elements;
use crate::fault::HeapFault;
use crate::heap::{Heap, Kind};
use crate::mark::mark;
use crate::new_object;
use crate::resident::serials;
use crate::roots::Roots;
use crate::shape::{Shape, cells_of_all};
use crate::slot::Slot;
use crate::slots::{class_at, object_at, serial_at, store, store_all, values_at, write};
use crate::sweep::sweep;
use jm_values::{Place, Value};
use std::alloc::{AllocError, Global};
use std::marker::Model;

// How many objects there can be, so that each has a serial.
const MAX_SERIALS: u64 = 1 << 63;

/// A heap that never moves an object: each place keeps its object until a full collection empties
/// it.
pub struct PlainHeap {
    alloc: Global,
    limit: u32,
    next: u64,
    used: u64,
    free: usize,
    slots: Vec<Slot>,
}

// Written out, so that whoever lets go of one makes a call (docs/DECISIONS.md).
impl Drop for PlainHeap {
    fn drop(self) {
        let PlainHeap {
            alloc: _,
            limit: _,
            next: _,
            used: _,
            free: _,
            slots: _,
        } = self;
    }
}

impl Model for PlainHeap {
    ghost use Rattle.jm_values.specs.Content.{Content};
    ghost use Rattle.jm_heap.specs.declared.class_id.ClassId.{ClassId};
    ghost use Rattle.jm_heap.specs.Slots.{content_of};
    ghost use Rattle.jm_heap.specs.PlainHeap.{IsPlainHeap};

    ghost Value = { Content ClassId };

    ghost view = { λ h. content_of h.limit h.next h.slots.items };

    ghost invariant = { λ h. IsPlainHeap h.limit h.next h.used h.slots.items };
}

impl PlainHeap {
    /// An empty heap of so many cells, whose next serial is 0.
    pub fn new(alloc: Global, limit: u32) -> PlainHeap
        ensures { result ≡ record { limit = limit; next = 0; residents = [] } }
    {
        PlainHeap {
            alloc,
            limit,
            next: 0,
            used: 0,
            free: usize::MAX,
            slots: Vec::new(alloc),
        }
    }

    /// The value of a number of the object at a place.
    #[inline]
    pub fn get(&self, place: Place, index: u32) -> Value
        requires { (v : Value) × HasValue self.now place index v }
        ensures value { HasValue self.now place index (rename (name_of self.now) result) }
        ensures resident { AllResident self.now (refs result) }
    {
        values_at(&self.slots, place)[index as usize]
    }

    /// The class or array type of the object at a place, and its values, which are fewer than 2^32.
    #[inline]
    pub fn object(&self, place: Place) -> (ClassId, &[Value])
        requires { (k : ℕ) × (o : ObjectOf ClassId) × (serial_at self.now place ≡ Some k) × (object_at self.now k ≡ Some o) }
        ensures class { (k : ℕ) (o : ObjectOf ClassId) → serial_at self.now place ≡ Some k → object_at self.now k ≡ Some o → result.0 ≡ o.type }
        ensures length { (k : ℕ) (o : ObjectOf ClassId) → serial_at self.now place ≡ Some k → object_at self.now k ≡ Some o → length result.1.now ≡ length o.values }
        ensures short { length result.1.now < 2 ^ 32 }
        ensures values { (i : ℕ) (v : Value) → slice_get result.1.now i ≡ Some v → HasValue self.now place i (rename (name_of self.now) v) }
        ensures resident { (i : ℕ) (v : Value) → slice_get result.1.now i ≡ Some v → AllResident self.now (refs v) }
    {
        object_at(&self.slots, place)
    }

    /// Changes one value of the object at a place.
    #[inline]
    pub fn set(&mut self, place: Place, index: u32, value: Value)
        requires there { (v : Value) × HasValue self.old place index v }
        requires resident { AllResident self.old (refs value) }
        ensures { IsSet self.old self.new place index value }
    {
        write(&mut self.slots, place, index, value);
    }

    // Empties the places that the roots do not reach.
    fn collect_all(&mut self, roots: &[Place]) -> Result<(), AllocError>
        requires { AllResident self.old roots.now }
        ensures ok { OnOk result (Collected self.old roots.now self.new) }
        ensures left { OnOk result (resident_cells self.new ≡ used_by class_size self.old roots.now) }
        ensures err { OnErr result (self.new ≡ self.old) }
    {
        let marks = mark(self.alloc, &self.slots, roots)?;
        self.free = sweep(&mut self.slots, &marks, &mut self.used);
        Ok(())
    }

    /// Makes an object with default values where the cells of the residents and its own are within
    /// the limit, and answers its place; no other object moves or goes. None: they are not, and
    /// nothing has changed. SerialsEnd: there is room, and there have been 2^63 objects.
    /// OutOfMemory: a growth is refused. Nothing has changed then.
    #[inline]
    pub fn allocate_here(
        &mut self,
        _nursery: usize,
        shape: Shape<'_>,
    ) -> Result<Option<Place>, HeapFault>
        ensures ok { IfOk result (λ made. MadeHereOrNot self.old self.new made (new_object shape.entry)) }
        ensures full { IfOk result (λ made. NoneIsNoRoom self.old made (new_object shape.entry)) }
        ensures room { OnErr result (HasRoom self.old (new_object shape.entry)) }
        ensures same { OnErr result (self.new ≡ self.old) }
        ensures err { IfErr result (IsRefusedHere self.old (new_object shape.entry)) }
    {
        let cells = shape.cells();
        if cells > self.limit as u64 - self.used {
            return Ok(None);
        }
        if self.next >= MAX_SERIALS {
            return Err(HeapFault::SerialsEnd);
        }
        let slot = new_object::make(self.alloc, self.next, shape)?;
        let place = store(&mut self.slots, &mut self.free, slot)?;
        self.next += 1;
        self.used += cells;
        Ok(Some(place))
    }

    /// Makes an object with default values, and answers its place. It collects first where it
    /// would not fit otherwise; what the roots reach stays as it is, after a refusal too.
    ///
    /// HeapFull comes exactly where the cells of what the roots reach and those of the object
    /// pass the limit, SerialsEnd where they do not and there have been 2^63 objects, and
    /// OutOfMemory where a growth is refused. Nothing that the roots reach moves.
    #[inline]
    pub fn allocate(
        &mut self,
        nursery: usize,
        roots: &mut Roots,
        shape: Shape<'_>,
    ) -> Result<Place, HeapFault>
        requires sound { IsSound self.old }
        requires resident { AllResident self.old roots.old }
        ensures ok { IfOk result (λ place. Made class_size self.old roots.old self.new roots.new place (new_object shape.entry)) }
        ensures kept { OnErr result (Kept self.old roots.old self.new roots.new) }
        ensures next { OnErr result (self.new.next ≡ self.old.next) }
        ensures as_before { IsAsBeforeMaking self.old self.new }
        ensures err { IfErr result (IsRefused self.old roots.old (new_object shape.entry)) }
        ensures unmoved { IsUnmoved self.old roots.old self.new }
        ensures roots { roots.new ≡ roots.old }
    {
        match self.allocate_here(nursery, shape)? {
            Some(place) => Ok(place),
            None => self.allocate_collected(nursery, roots.as_slice(), shape),
        }
    }

    // Makes an object after a full collection.
    fn allocate_collected(
        &mut self,
        nursery: usize,
        roots: &[Place],
        shape: Shape<'_>,
    ) -> Result<Place, HeapFault>
        requires sound { IsSound self.old }
        requires resident { AllResident self.old roots.now }
        ensures ok { IfOk result (λ place. Made class_size self.old roots.now self.new roots.now place (new_object shape.entry)) }
        ensures kept { OnErr result (Kept self.old roots.now self.new roots.now) }
        ensures next { OnErr result (self.new.next ≡ self.old.next) }
        ensures as_before { IsAsBeforeMaking self.old self.new }
        ensures err { IfErr result (IsRefused self.old roots.now (new_object shape.entry)) }
        ensures unmoved { IsUnmoved self.old roots.now self.new }
    {
        self.collect_all(roots)?;
        match self.allocate_here(nursery, shape)? {
            Some(place) => Ok(place),
            None => Err(HeapFault::HeapFull),
        }
    }

    /// Makes objects with default values, all or none, in the order of their shapes, and answers their
    /// places. It collects first where they would not fit otherwise; what the roots reach stays as it
    /// is, after a refusal too.
    ///
    /// HeapFull comes exactly where the cells of what the roots reach and those of the objects pass the
    /// limit, SerialsEnd where they do not and there would be more than 2^63 objects, and OutOfMemory
    /// where a growth is refused. Nothing that the roots reach moves.
    pub fn allocate_all(
        &mut self,
        _nursery: usize,
        roots: &mut Roots,
        shapes: &[Shape<'_>],
    ) -> Result<Vec<Place>, HeapFault>
        requires sound { IsSound self.old }
        requires resident { AllResident self.old roots.old }
        ensures ok { IfOk result (λ places. MadeAll class_size self.old roots.old self.new roots.new places.items (map new_object shapes.now)) }
        ensures kept { OnErr result (Kept self.old roots.old self.new roots.new) }
        ensures next { OnErr result (self.new.next ≡ self.old.next) }
        ensures as_before { AreAsBeforeMaking self.old self.new }
        ensures err { IfErr result (AreRefused self.old roots.old (map new_object shapes.now)) }
        ensures unmoved { IsUnmoved self.old roots.old self.new }
        ensures roots { roots.new ≡ roots.old }
    {
        let Some(cells) = cells_of_all(shapes, self.limit) else {
            return Err(HeapFault::HeapFull);
        };
        self.make_room(cells, roots.as_slice())?;
        self.allocate_all_here(cells, shapes)
    }

    // Collects all where so many cells do not fit beside the residents. HeapFull: nor do they then.
    fn make_room(&mut self, cells: u64, roots: &[Place]) -> Result<(), HeapFault>
        requires sound { IsSound self.old }
        requires resident { AllResident self.old roots.now }
        ensures room { OnOk result (resident_cells self.new + cells ≤ self.new.limit) }
        ensures tidied { IsTidied self.old roots.now self.new }
        ensures err { IfErr result (RoomIsRefused self.old roots.now cells) }
    {
        if cells <= self.limit as u64 - self.used {
            return Ok(());
        }
        self.collect_all(roots)?;
        if cells > self.limit as u64 - self.used {
            return Err(HeapFault::HeapFull);
        }
        Ok(())
    }

    // Makes objects that take so many cells, for which there is room, or none.
    fn allocate_all_here(
        &mut self,
        cells: u64,
        shapes: &[Shape<'_>],
    ) -> Result<Vec<Place>, HeapFault>
        requires cells { cells ≡ sum_by (size_by class_size) (map new_object shapes.now) }
        requires short { AreShort (map new_object shapes.now) }
        requires room { resident_cells self.old + cells ≤ self.old.limit }
        ensures ok { IfOk result (λ places. AllMadeHere self.old self.new places.items (map new_object shapes.now)) }
        ensures same { OnErr result (self.new ≡ self.old) }
        ensures err { IfErr result (AreRefusedHere self.old (map new_object shapes.now)) }
    {
        let count = shapes.len() as u64;
        if self.next > MAX_SERIALS - count {
            return Err(HeapFault::SerialsEnd);
        }
        let objects = new_object::make_all(self.alloc, self.next, shapes)?;
        let places = store_all(self.alloc, &mut self.slots, &mut self.free, objects)?;
        self.next += count;
        self.used += cells;
        Ok(places)
    }

    /// Gives up the objects that the roots do not reach, with `Full`, and none with `Minor`. Where a
    /// growth is refused, nothing has changed. What the roots reach keeps its place.
    pub fn collect(&mut self, roots: &mut Roots, kind: Kind) -> Result<(), AllocError>
        requires sound { IsSound self.old }
        requires resident { AllResident self.old roots.old }
        ensures kept { Kept self.old roots.old self.new roots.new }
        ensures next { self.new.next ≡ self.old.next }
        ensures as_before { IsAsBefore self.old self.new }
        ensures ok { OnOk result (LeavesReached kind self.old roots.old self.new) }
        ensures err { OnErr result ((self.new ≡ self.old) × (roots.new ≡ roots.old)) }
        ensures exact { OnOk result (LeavesUnmoved kind self.old self.new roots.old roots.new) }
        ensures unmoved { IsUnmoved self.old roots.old self.new }
        ensures roots { roots.new ≡ roots.old }
    {
        match kind {
            Kind::Minor => Ok(()),
            Kind::Full => self.collect_all(roots.as_slice()),
        }
    }

    /// How many values the object at a place has.
    #[inline]
    pub fn length(&self, place: Place) -> u32
        requires { (k : ℕ) × (o : ObjectOf ClassId) × (serial_at self.now place ≡ Some k) × (object_at self.now k ≡ Some o) }
        ensures { (k : ℕ) (o : ObjectOf ClassId) → serial_at self.now place ≡ Some k → object_at self.now k ≡ Some o → result ≡ length o.values }
    {
        values_at(&self.slots, place).len() as u32
    }

    /// The class or array type of the object at a place.
    #[inline]
    pub fn class_of(&self, place: Place) -> ClassId
        requires { (k : ℕ) × (o : ObjectOf ClassId) × (serial_at self.now place ≡ Some k) × (object_at self.now k ≡ Some o) }
        ensures { (k : ℕ) (o : ObjectOf ClassId) → serial_at self.now place ≡ Some k → object_at self.now k ≡ Some o → result ≡ o.type }
    {
        class_at(&self.slots, place).unwrap_or(ClassId::Instance(0))
    }

    /// The serial of the object at a place.
    #[inline]
    pub fn serial(&self, place: Place) -> u64
        requires { (k : ℕ) × (serial_at self.now place ≡ Some k) }
        ensures { serial_at self.now place ≡ Some result }
    {
        serial_at(&self.slots, place).unwrap_or(0)
    }

    /// The serials of the residents, rising.
    pub fn resident(&self) -> Result<Vec<u64>, AllocError>
        ensures { IfOk result (λ serials. AreResident self.now serials.items) }
    {
        let mut serials = serials(self.alloc, &self.slots)?;
        serials.sort_unstable();
        Ok(serials)
    }

    /// The cells of the residents.
    #[inline]
    pub fn used(&self) -> u64
        ensures value { result ≡ resident_cells self.now }
        ensures within { result ≤ self.now.limit }
    {
        self.used
    }

    /// The limit in cells.
    #[inline]
    pub fn limit(&self) -> u64
        ensures { result ≡ self.now.limit }
    {
        self.limit as u64
    }
}

impl Heap for PlainHeap {
    ghost content = { λ h. h };

    // it has no nurseries, and counts no collections
    ghost nursery_of = { λ place number. Unit {0} };

    ghost survived = { λ h place count. Unit {0} };

    // a value lies in its slot, and is changed there
    ghost free = { λ h place. Unit {0} };

    ghost leaves = { λ kind old new roots moved. LeavesUnmoved kind old new roots moved };

    ghost lie_as_before = { λ old new. new ≡ old };

    // what the roots reach stays where it is, and so do they
    ghost refused = { λ old new roots moved cells. IsUnmoved old roots new × (moved ≡ roots) };

    #[inline]
    fn allocate(
        &mut self,
        nursery: usize,
        roots: &mut Roots,
        shape: Shape<'_>,
    ) -> Result<Place, HeapFault> {
        PlainHeap::allocate(self, nursery, roots, shape)
    }

    #[inline]
    fn allocate_here(
        &mut self,
        nursery: usize,
        shape: Shape<'_>,
    ) -> Result<Option<Place>, HeapFault>
        ensures ok { IfOk result (λ made. MadeHereOrNot self.old self.new made (new_object shape.entry)) }
        ensures full { IfOk result (λ made. NoneIsNoRoom self.old made (new_object shape.entry)) }
        ensures room { OnErr result (HasRoom self.old (new_object shape.entry)) }
        ensures same { OnErr result (self.new ≡ self.old) }
        ensures err { IfErr result (IsRefusedHere self.old (new_object shape.entry)) }
    {
        PlainHeap::allocate_here(self, nursery, shape)
    }

    fn allocate_all(
        &mut self,
        nursery: usize,
        roots: &mut Roots,
        shapes: &[Shape<'_>],
    ) -> Result<Vec<Place>, HeapFault> {
        PlainHeap::allocate_all(self, nursery, roots, shapes)
    }

    #[inline]
    fn object(&self, place: Place) -> (ClassId, Elements<'_>) {
        let (class, values) = PlainHeap::object(self, place);
        (class, Elements::Fields(values))
    }

    fn get(&self, place: Place, index: u32) -> Value {
        PlainHeap::get(self, place, index)
    }

    fn set(&mut self, place: Place, index: u32, value: Value) -> Result<(), AllocError> {
        PlainHeap::set(self, place, index, value);
        Ok(())
    }

    fn length(&self, place: Place) -> u32 {
        PlainHeap::length(self, place)
    }

    fn class_of(&self, place: Place) -> ClassId {
        PlainHeap::class_of(self, place)
    }

    fn serial(&self, place: Place) -> u64 {
        PlainHeap::serial(self, place)
    }

    fn collect(&mut self, roots: &mut Roots, kind: Kind) -> Result<(), AllocError> {
        PlainHeap::collect(self, roots, kind)
    }

    fn resident(&self) -> Result<Vec<u64>, AllocError> {
        PlainHeap::resident(self)
    }

    fn used(&self) -> u64 {
        PlainHeap::used(self)
    }

    fn limit(&self) -> u64 {
        PlainHeap::limit(self)
    }
}

// The generational heap.

ghost use Rattle.std.specs.Prelude.{◌≡◌, ℕ, ◌%◌, ◌+◌, ◌<◌, ◌≤◌, ◌^◌, [], Some, None, IfOk, IfErr, OnOk, OnErr, IfSome, length, map, slice_get};
ghost use Rattle.jm_values.specs.declared.value.Value.{Value};
ghost use Rattle.jm_values.specs.Rename.{rename, refs};
ghost use Rattle.jm_values.specs.Objects.{ObjectOf, size_by};
ghost use Rattle.jm_values.specs.Content.{AllResident, HasValue, IsSet, Kept, Made, MadeAll, serial_at, object_at, name_of};
ghost use Rattle.jm_heap.specs.Cells.{class_size, resident_cells};
ghost use Rattle.jm_heap.specs.Elements.{elements, element_kind};
ghost use Rattle.jm_heap.specs.Holding.{CanHold};
ghost use Rattle.jm_heap.specs.Packing.{kind_of};
ghost use Rattle.jm_heap.specs.NewObject.{new_object};
ghost use Rattle.jm_heap.specs.Residents.{AreResident};
ghost use Rattle.jm_heap.specs.Allocation.{AllPlaces, AreRefused, IsRefused, IsRefusedHere, MadeHereOrNot};
ghost use Rattle.jm_heap.specs.Collection.{AreAsBeforeMaking, IsAsBefore, IsAsBeforeMaking, LeavesReached};
ghost use Rattle.jm_heap.specs.declared.class_id.ClassId.{ClassId};
ghost use Rattle.jm_nursery.specs.Nurseries.{nursery_at};
ghost use Rattle.jm_gen_heap.specs.Residents.{content_of};
ghost use Rattle.jm_gen_heap.specs.Invariant.{AreGenerations};
ghost use Rattle.jm_gen_heap.specs.Allocating.{AllLieAsBefore, AllSurvived, Fits, HasAged, HasMadeRoom, HasNoRoom, HasSurvived, IsAllocated, Leaves, LieAsBeforeOrLeft, OldStay, PutBehind, PutHere};
ghost use Rattle.jm_gen_heap.specs.Several.{AreAllocated, IsReady, all_sizes};
ghost use Rattle.jm_gen_heap.specs.Steps.{IsWritten};

use crate::generations::Generations;
use jm_copy::Collector;
use jm_heap::{ClassId, Elements, Heap, HeapFault, Kind, Roots, Shape, cells_of_all};
use jm_values::{Place, Value};
use std::alloc::{AllocError, Global};
use std::marker::Model;

/// A heap of two generations. New objects are made in sixteen nurseries, and a collection copies
/// those that are reached: at its first survival an object stays young, at its second it becomes old.
/// A minor collection takes the young objects alone, for which the old ones that point to young ones
/// are remembered; a full one takes all.
pub struct GenHeap<C> {
    collector: C,
    generations: Generations,
}

// Written out, so that whoever lets go of one makes a call (docs/DECISIONS.md).
impl<C: Drop> Drop for GenHeap<C> {
    fn drop(self) {
        let GenHeap {
            collector: _,
            generations: _,
        } = self;
    }
}

impl<C> Model for GenHeap<C> {
    ghost use Rattle.jm_gen_heap.specs.Generations.{Generations};

    ghost Value = { Generations };

    ghost view = { λ h. h.generations };
}

impl<C: Collector> GenHeap<C> {
    /// An empty heap of so many cells, whose next serial is 0, with its collector.
    pub fn new(alloc: Global, limit: u32, collector: C) -> Result<GenHeap<C>, AllocError>
    where
        C: Drop,
        ensures { IfOk result (λ h. content_of h ≡ record { limit = limit; next = 0; residents = [] }) }
    {
        Ok(GenHeap {
            collector,
            generations: Generations::new(alloc, limit)?,
        })
    }

    /// Makes an object in the nursery of a number modulo 16, where the cells of the young objects and
    /// its own stay within a quarter of the limit, rounded down, and those of all objects and its own
    /// within the limit. None: they do not, and nothing has changed. SerialsEnd: there have been 2^63
    /// objects. OutOfMemory: a growth is refused. Nothing has changed then.
    #[inline]
    pub fn allocate_here(
        &mut self,
        nursery: usize,
        shape: Shape<'_>,
    ) -> Result<Option<Place>, HeapFault>
        ensures ok { IfOk result (λ made. MadeHereOrNot (content_of self.old) (content_of self.new) made (new_object shape.entry)) }
        ensures put { IfOk result (λ made. PutHere self.old self.new made (nursery % 16) (new_object shape.entry)) }
        ensures keeps { AreGenerations self.old }
        ensures same { OnErr result (self.new ≡ self.old) }
        ensures err { IfErr result (IsRefusedHere (content_of self.old) (new_object shape.entry)) }
    {
        let cells = shape.cells();
        if !self.generations.fits(cells) {
            return Ok(None);
        }
        if !self.generations.is_within_quota(cells) {
            return Ok(None);
        }
        let place = self.generations.make(nursery, shape)?;
        Ok(Some(place))
    }

    // Collects the young objects, or all where an object of so many cells does not fit beside all that
    // there are.
    fn make_room(&mut self, roots: &mut Roots, cells: u64) -> Result<(), HeapFault>
        requires { AllResident (content_of self.old) roots.old }
        ensures kept { Kept (content_of self.old) roots.old (content_of self.new) roots.new }
        ensures next { (content_of self.new).next ≡ (content_of self.old).next }
        ensures as_before { IsAsBefore (content_of self.old) (content_of self.new) }
        ensures stays { OldStay self.old self.new cells }
        ensures room { OnOk result (HasMadeRoom self.old self.new roots.old roots.new cells) }
        ensures ok { OnOk result (Fits self.new cells) }
        ensures survived { OnOk result (AllSurvived self.new) }
        ensures keeps { AreGenerations self.new }
        ensures were { AreGenerations self.old }
        ensures err { IfErr result (HasNoRoom (content_of self.old) roots.old cells) }
        ensures refused { OnErr result (LieAsBeforeOrLeft self.old self.new roots.old roots.new cells) }
    {
        if self.generations.fits(cells) {
            self.generations.collect_young(&self.collector, roots)?;
            return Ok(());
        }
        self.generations.collect_all(&self.collector, roots)?;
        if self.generations.fits(cells) {
            return Ok(());
        }
        Err(HeapFault::HeapFull)
    }

    // Makes an object after a collection.
    fn allocate_collected(
        &mut self,
        nursery: usize,
        roots: &mut Roots,
        shape: Shape<'_>,
    ) -> Result<Place, HeapFault>
        requires { AllResident (content_of self.old) roots.old }
        ensures ok { IfOk result (λ place. Made class_size (content_of self.old) roots.old (content_of self.new) roots.new place (new_object shape.entry)) }
        ensures put { IfOk result (λ place. PutBehind self.old self.new roots.old roots.new place (nursery % 16) (new_object shape.entry)) }
        ensures aged { OnOk result (HasAged self.old self.new) }
        ensures kept { OnErr result (Kept (content_of self.old) roots.old (content_of self.new) roots.new) }
        ensures next { OnErr result ((content_of self.new).next ≡ (content_of self.old).next) }
        ensures as_before { IsAsBeforeMaking (content_of self.old) (content_of self.new) }
        ensures stays { OldStay self.old self.new (size_by class_size (new_object shape.entry)) }
        ensures err { IfErr result (IsRefused (content_of self.old) roots.old (new_object shape.entry)) }
        ensures refused { OnErr result (LieAsBeforeOrLeft self.old self.new roots.old roots.new (size_by class_size (new_object shape.entry))) }
    {
        self.make_room(roots, shape.cells())?;
        self.generations.make(nursery, shape)
    }

    /// Makes an object with default values in the nursery of a number modulo 16, and answers its
    /// place; it has survived no collection. A minor collection comes first where the cells of the
    /// young objects and its own would pass a quarter of the limit, a full one where those of all
    /// objects and its own would pass the limit, and else nothing but the new object is changed. What
    /// the roots reach stays as it is, after a refusal too, and every old object where its cells fit
    /// beside all. After a refusal all objects lie where they lay, or where that collection left them.
    ///
    /// HeapFull comes exactly where the cells of what the roots reach and those of the object
    /// pass the limit, SerialsEnd where they do not and there have been 2^63 objects, and
    /// OutOfMemory where a growth is refused.
    #[inline]
    pub fn allocate(
        &mut self,
        nursery: usize,
        roots: &mut Roots,
        shape: Shape<'_>,
    ) -> Result<Place, HeapFault>
        requires { AllResident (content_of self.old) roots.old }
        ensures ok { IfOk result (λ place. Made class_size (content_of self.old) roots.old (content_of self.new) roots.new place (new_object shape.entry)) }
        ensures made { IfOk result (λ place. IsAllocated self.old self.new roots.old roots.new place (nursery % 16) (new_object shape.entry)) }
        ensures nursery { IfOk result (λ place. nursery_at place ≡ Some (nursery % 16)) }
        ensures fresh { IfOk result (λ place. HasSurvived self.new place 0) }
        ensures aged { OnOk result (HasAged self.old self.new) }
        ensures kept { OnErr result (Kept (content_of self.old) roots.old (content_of self.new) roots.new) }
        ensures next { OnErr result ((content_of self.new).next ≡ (content_of self.old).next) }
        ensures as_before { IsAsBeforeMaking (content_of self.old) (content_of self.new) }
        ensures stays { OldStay self.old self.new (size_by class_size (new_object shape.entry)) }
        ensures err { IfErr result (IsRefused (content_of self.old) roots.old (new_object shape.entry)) }
        ensures refused { OnErr result (LieAsBeforeOrLeft self.old self.new roots.old roots.new (size_by class_size (new_object shape.entry))) }
    {
        match self.allocate_here(nursery, shape)? {
            Some(place) => Ok(place),
            None => self.allocate_collected(nursery, roots, shape),
        }
    }

    // Collects where so many cells do not fit beside all objects, or not within the quota beside the young
    // ones.
    fn make_ready(&mut self, roots: &mut Roots, cells: u64) -> Result<(), HeapFault>
        requires resident { AllResident (content_of self.old) roots.old }
        requires small { cells < 2 ^ 63 }
        ensures kept { Kept (content_of self.old) roots.old (content_of self.new) roots.new }
        ensures next { (content_of self.new).next ≡ (content_of self.old).next }
        ensures as_before { IsAsBefore (content_of self.old) (content_of self.new) }
        ensures stays { OldStay self.old self.new cells }
        ensures ready { OnOk result (IsReady self.old self.new roots.old roots.new cells) }
        ensures ok { OnOk result (Fits self.new cells) }
        ensures were { AreGenerations self.old }
        ensures err { IfErr result (HasNoRoom (content_of self.old) roots.old cells) }
        ensures refused { OnErr result (LieAsBeforeOrLeft self.old self.new roots.old roots.new cells) }
    {
        if self.generations.fits(cells) && self.generations.is_within_quota(cells) {
            return Ok(());
        }
        self.make_room(roots, cells)
    }

    /// Makes objects with default values in the nursery of a number modulo 16, all or none, in the order
    /// of their shapes, and answers their places; they have survived no collection. A collection comes
    /// first where it would for one object of as many cells (`allocate`), and no shapes answer no places.
    /// What the roots reach stays as it is, after a refusal too, and every old object where the cells fit
    /// beside all. After a refusal all objects lie where they lay, or where that collection left them.
    ///
    /// HeapFull comes exactly where the cells of what the roots reach and those of all objects pass the
    /// limit, SerialsEnd where they do not and there would be more than 2^63 objects, and OutOfMemory
    /// where a growth is refused: no object is made then.
    pub fn allocate_all(
        &mut self,
        nursery: usize,
        roots: &mut Roots,
        shapes: &[Shape<'_>],
    ) -> Result<Vec<Place>, HeapFault>
        requires { AllResident (content_of self.old) roots.old }
        ensures ok { IfOk result (λ places. MadeAll class_size (content_of self.old) roots.old (content_of self.new) roots.new places.items (map new_object shapes.now)) }
        ensures made { IfOk result (λ places. AreAllocated self.old self.new roots.old roots.new places.items (nursery % 16) (map new_object shapes.now)) }
        ensures nursery { IfOk result (λ places. AllPlaces (λ place. nursery_at place ≡ Some (nursery % 16)) places.items) }
        ensures fresh { IfOk result (λ places. AllPlaces (λ place. HasSurvived self.new place 0) places.items) }
        ensures kept { OnErr result (Kept (content_of self.old) roots.old (content_of self.new) roots.new) }
        ensures next { OnErr result ((content_of self.new).next ≡ (content_of self.old).next) }
        ensures as_before { AreAsBeforeMaking (content_of self.old) (content_of self.new) }
        ensures stays { OldStay self.old self.new (all_sizes (map new_object shapes.now)) }
        ensures err { IfErr result (AreRefused (content_of self.old) roots.old (map new_object shapes.now)) }
        ensures refused { OnErr result (LieAsBeforeOrLeft self.old self.new roots.old roots.new (all_sizes (map new_object shapes.now))) }
    {
        let _used = self.generations.used();
        let limit = self.generations.limit();
        let Some(cells) = cells_of_all(shapes, limit as u32) else {
            return Err(HeapFault::HeapFull);
        };
        self.make_ready(roots, cells)?;
        self.generations.make_all(nursery, shapes)
    }

    /// Gives up objects that the roots do not reach: with `Full` all of them, with `Minor` the young
    /// ones that no remembered old object reaches either. Where a growth is refused, nothing has
    /// changed, and all objects lie where they lay.
    pub fn collect(&mut self, roots: &mut Roots, kind: Kind) -> Result<(), AllocError>
        requires { AllResident (content_of self.old) roots.old }
        ensures kept { Kept (content_of self.old) roots.old (content_of self.new) roots.new }
        ensures next { (content_of self.new).next ≡ (content_of self.old).next }
        ensures as_before { IsAsBefore (content_of self.old) (content_of self.new) }
        ensures ok { OnOk result (LeavesReached kind (content_of self.old) roots.old (content_of self.new)) }
        ensures exact { OnOk result (Leaves kind self.old self.new roots.old roots.new) }
        ensures err { OnErr result ((content_of self.new ≡ content_of self.old) × (roots.new ≡ roots.old)) }
        ensures lie { OnErr result (AllLieAsBefore self.old self.new) }
    {
        let _cells = self.generations.used();
        match kind {
            Kind::Minor => self.generations.collect_young(&self.collector, roots),
            Kind::Full => self.generations.collect_all(&self.collector, roots),
        }
    }

    /// The class or array type of the object at a place, and its values, which are fewer than 2^32.
    #[inline(always)]
    pub fn object(&self, place: Place) -> (ClassId, Elements<'_>)
        requires { (k : ℕ) × (o : ObjectOf ClassId) × (serial_at (content_of self.now) place ≡ Some k) × (object_at (content_of self.now) k ≡ Some o) }
        ensures class { (k : ℕ) (o : ObjectOf ClassId) → serial_at (content_of self.now) place ≡ Some k
            → object_at (content_of self.now) k ≡ Some o → result.0 ≡ o.type }
        ensures length { (k : ℕ) (o : ObjectOf ClassId) → serial_at (content_of self.now) place ≡ Some k
            → object_at (content_of self.now) k ≡ Some o → length (elements result.1) ≡ length o.values }
        ensures short { length (elements result.1) < 2 ^ 32 }
        ensures values { (i : ℕ) (v : Value) → slice_get (elements result.1) i ≡ Some v → HasValue (content_of self.now) place i (rename (name_of (content_of self.now)) v) }
        ensures resident { (i : ℕ) (v : Value) → slice_get (elements result.1) i ≡ Some v → AllResident (content_of self.now) (refs v) }
        ensures kind { element_kind result.1 ≡ kind_of result.0 }
    {
        let (header, values) = self.generations.object_at(place);
        (header.class, values)
    }

    /// The value of a number of the object at a place.
    #[inline]
    pub fn get(&self, place: Place, index: u32) -> Value
        requires { (v : Value) × HasValue (content_of self.now) place index v }
        ensures value { HasValue (content_of self.now) place index (rename (name_of (content_of self.now)) result) }
        ensures resident { AllResident (content_of self.now) (refs result) }
    {
        self.generations.get(place, index)
    }

    /// Changes one value of the object at a place. Where a growth is refused, nothing has changed; at a
    /// place in a nursery none is.
    #[inline(always)]
    pub fn set(&mut self, place: Place, index: u32, value: Value) -> Result<(), AllocError>
        requires there { (v : Value) × HasValue (content_of self.old) place index v }
        requires resident { AllResident (content_of self.old) (refs value) }
        requires fits { CanHold (content_of self.old) place value }
        ensures ok { OnOk result (IsSet (content_of self.old) (content_of self.new) place index value) }
        ensures exact { OnOk result (IsWritten self.old self.new place index value) }
        ensures err { OnErr result (self.new ≡ self.old) }
        ensures young { OnErr result ((n : ℕ) × (nursery_at place ≡ Some n) → ⊥) }
    {
        let _cells = self.generations.used();
        self.generations.set(place, index, value)
    }

    /// How many values the object at a place has.
    #[inline]
    pub fn length(&self, place: Place) -> u32
        requires { (k : ℕ) × (o : ObjectOf ClassId) × (serial_at (content_of self.now) place ≡ Some k) × (object_at (content_of self.now) k ≡ Some o) }
        ensures { (k : ℕ) (o : ObjectOf ClassId) → serial_at (content_of self.now) place ≡ Some k
            → object_at (content_of self.now) k ≡ Some o → result ≡ length o.values }
    {
        let (_, values) = self.generations.object_at(place);
        values.len() as u32
    }

    /// The class or array type of the object at a place.
    #[inline]
    pub fn class_of(&self, place: Place) -> ClassId
        requires { (k : ℕ) × (o : ObjectOf ClassId) × (serial_at (content_of self.now) place ≡ Some k) × (object_at (content_of self.now) k ≡ Some o) }
        ensures { (k : ℕ) (o : ObjectOf ClassId) → serial_at (content_of self.now) place ≡ Some k
            → object_at (content_of self.now) k ≡ Some o → result ≡ o.type }
    {
        let (header, _) = self.generations.object_at(place);
        header.class
    }

    /// The serial of the object at a place.
    #[inline]
    pub fn serial(&self, place: Place) -> u64
        requires { (k : ℕ) × (serial_at (content_of self.now) place ≡ Some k) }
        ensures { serial_at (content_of self.now) place ≡ Some result }
    {
        let (header, _) = self.generations.object_at(place);
        header.serial
    }

    /// The serials of the residents, rising.
    pub fn resident(&self) -> Result<Vec<u64>, AllocError>
        ensures { IfOk result (λ serials. AreResident (content_of self.now) serials.items) }
    {
        let mut serials = self.generations.serials()?;
        serials.sort_unstable();
        Ok(serials)
    }

    /// The cells of the residents. Whatever was done before, each old object that names a young one is
    /// remembered, and what else the generations keep to holds.
    #[inline]
    pub fn used(&self) -> u64
        ensures value { result ≡ resident_cells (content_of self.now) }
        ensures within { result ≤ (content_of self.now).limit }
        ensures keeps { AreGenerations self.now }
    {
        self.generations.used()
    }

    /// The limit in cells.
    #[inline]
    pub fn limit(&self) -> u64
        ensures { result ≡ (content_of self.now).limit }
    {
        self.generations.limit()
    }
}

impl<C: Collector> Heap for GenHeap<C> {
    ghost content = { λ h. content_of h };

    // sixteen nurseries, told by the place
    ghost nursery_of = { λ place number. nursery_at place ≡ Some (number % 16) };

    ghost survived = { λ h place count. HasSurvived h place count };

    // a young object is changed in place, and nothing is noted of it
    ghost free = { λ h place. (n : ℕ) × (nursery_at place ≡ Some n) };

    ghost leaves = { λ kind g h roots moved. Leaves kind g h roots moved };

    ghost lie_as_before = { λ g h. AllLieAsBefore g h };

    ghost refused = { λ g h roots moved cells. LieAsBeforeOrLeft g h roots moved cells };

    #[inline]
    fn allocate(
        &mut self,
        nursery: usize,
        roots: &mut Roots,
        shape: Shape<'_>,
    ) -> Result<Place, HeapFault> {
        GenHeap::allocate(self, nursery, roots, shape)
    }

    #[inline]
    fn allocate_here(
        &mut self,
        nursery: usize,
        shape: Shape<'_>,
    ) -> Result<Option<Place>, HeapFault> {
        GenHeap::allocate_here(self, nursery, shape)
    }

    fn allocate_all(
        &mut self,
        nursery: usize,
        roots: &mut Roots,
        shapes: &[Shape<'_>],
    ) -> Result<Vec<Place>, HeapFault> {
        GenHeap::allocate_all(self, nursery, roots, shapes)
    }

    #[inline(always)]
    fn object(&self, place: Place) -> (ClassId, Elements<'_>) {
        GenHeap::object(self, place)
    }

    #[inline]
    fn get(&self, place: Place, index: u32) -> Value {
        GenHeap::get(self, place, index)
    }

    #[inline(always)]
    fn set(&mut self, place: Place, index: u32, value: Value) -> Result<(), AllocError> {
        GenHeap::set(self, place, index, value)
    }

    #[inline]
    fn length(&self, place: Place) -> u32 {
        GenHeap::length(self, place)
    }

    #[inline]
    fn class_of(&self, place: Place) -> ClassId {
        GenHeap::class_of(self, place)
    }

    #[inline]
    fn serial(&self, place: Place) -> u64 {
        GenHeap::serial(self, place)
    }

    fn collect(&mut self, roots: &mut Roots, kind: Kind) -> Result<(), AllocError> {
        GenHeap::collect(self, roots, kind)
    }

    fn resident(&self) -> Result<Vec<u64>, AllocError> {
        GenHeap::resident(self)
    }

    fn used(&self) -> u64 {
        GenHeap::used(self)
    }

    fn limit(&self) -> u64 {
        GenHeap::limit(self)
    }
}

// What a heap promises.

ghost use Rattle.std.specs.Prelude.{◌≡◌, ℕ, ◌<◌, ◌≤◌, ◌^◌, List, IfOk, OnOk, OnErr, IfErr, IfSome, Some, length, map, slice_get, sum_by};
ghost use Rattle.jm_values.specs.Rename.{rename, refs};
ghost use Rattle.jm_values.specs.declared.value.Value.{Value};
ghost use Rattle.jm_values.specs.Objects.{ObjectOf, size_by};
ghost use Rattle.jm_values.specs.Content.{Content, IsSound, AllResident, Kept, Made, MadeAll, HasValue, IsSet, serial_at, object_at, name_of};
ghost use Rattle.jm_heap.specs.Cells.{class_size, resident_cells};
ghost use Rattle.jm_heap.specs.Elements.{elements, element_kind, LieAs};
ghost use Rattle.jm_heap.specs.Holding.{CanHold};
ghost use Rattle.jm_heap.specs.Packing.{kind_of};
ghost use Rattle.jm_heap.specs.NewObject.{new_object};
ghost use Rattle.jm_heap.specs.Residents.{AreResident};
ghost use Rattle.jm_heap.specs.Allocation.{AllPlaces, AreRefused, IsRefused, IsRefusedHere, MadeHereOrNot};
ghost use Rattle.jm_heap.specs.Collection.{AreAsBeforeMaking, IsAsBefore, IsAsBeforeMaking, LeavesReached};
ghost use Rattle.jm_heap.specs.declared.class_id.ClassId.{ClassId};
ghost use Rattle.jm_heap.specs.declared.heap.Kind.{Kind};

use crate::class_id::ClassId;
use crate::elements::Elements;
use crate::fault::HeapFault;
use crate::roots::Roots;
use crate::shape::Shape;
use jm_values::{Place, Value};
use std::alloc::AllocError;

/// Which objects a collection may give up.
#[derive(Clone, Copy)]
pub enum Kind {
    /// Those that the heap chooses to look at.
    Minor,
    /// All.
    Full,
}

/// A heap, which may move its objects. Its content is its limit in cells, the serial of the next
/// object, and the residents: the objects that have a place, each with its serial, and with values
/// that name serials. An instance takes 2 cells and one for each field (a long is one cell). An array
/// takes 3 and what its elements take, packed: a cell for a reference or a long, half a cell for an int,
/// and so on, rounded up (`element_cells`).
///
/// A content is sound where no two residents have one place or one serial, and each serial is below
/// the next one. A new heap's is, and each call leaves it so.
///
/// Beside its content a heap says, where it has something to say, in which nursery a place lies, how
/// many collections an object has survived, what a collection leaves, and what a refusal does.
pub trait Heap {
    ghost content: { Self → Content ClassId };

    // whether a place lies in the nursery of a number
    ghost nursery_of: { ℕ → ℕ → Type 0 };

    // whether the object at a place has survived so many collections
    ghost survived: { Self → ℕ → ℕ → Type 0 };

    // whether a value of the object at a place is changed without a growth
    ghost free: { Self → ℕ → Type 0 };

    // what a collection of a kind makes of a heap, and of the roots that it was given
    ghost leaves: { Kind → Self → Self → List ℕ → List ℕ → Type 0 };

    // whether each object lies where it lay, as it was, with what it has survived
    ghost lie_as_before: { Self → Self → Type 0 };

    // what a refusal to make objects of so many cells makes of a heap, and of the roots that it was given
    ghost refused: { Self → Self → List ℕ → List ℕ → ℕ → Type 0 };

    /// Makes an object with default values (JVMS 2.3, 2.4), in the nursery of a number, which has no
    /// part in what it is, and answers its place; the object has survived no collection. It may
    /// collect first: the roots are then moved with their objects, after a refusal too, and what they
    /// reach stays as it is. Each other resident was one before, as it is.
    ///
    /// HeapFull comes exactly where the cells of what the roots reach and those of the object
    /// pass the limit, SerialsEnd where they do not and there have been 2^63 objects, and
    /// OutOfMemory where a growth is refused.
    fn allocate(
        &mut self,
        nursery: usize,
        roots: &mut Roots,
        shape: Shape<'_>,
    ) -> Result<Place, HeapFault>
        requires sound { IsSound (content self.old) }
        requires resident { AllResident (content self.old) roots.old }
        ensures ok { IfOk result (λ place. Made class_size (content self.old) roots.old (content self.new) roots.new place (new_object shape.entry)) }
        ensures nursery { IfOk result (λ place. nursery_of place nursery) }
        ensures fresh { IfOk result (λ place. survived self.new place 0) }
        ensures kept { OnErr result (Kept (content self.old) roots.old (content self.new) roots.new) }
        ensures next { OnErr result ((content self.new).next ≡ (content self.old).next) }
        ensures as_before { IsAsBeforeMaking (content self.old) (content self.new) }
        ensures err { IfErr result (IsRefused (content self.old) roots.old (new_object shape.entry)) }
        ensures refused { OnErr result (refused self.old self.new roots.old roots.new (size_by class_size (new_object shape.entry))) };

    /// Makes an object where that needs no collection, and so no roots; no other object moves or
    /// goes. With None nothing has changed, and `allocate` decides: when None comes is the heap's
    /// own business. SerialsEnd and OutOfMemory come as in `allocate`, HeapFull never, and nothing
    /// has changed then.
    fn allocate_here(
        &mut self,
        nursery: usize,
        shape: Shape<'_>,
    ) -> Result<Option<Place>, HeapFault>
        requires { IsSound (content self.old) }
        ensures ok { IfOk result (λ made. MadeHereOrNot (content self.old) (content self.new) made (new_object shape.entry)) }
        ensures nursery { IfOk result (λ made. IfSome made (λ place. nursery_of place nursery)) }
        ensures fresh { IfOk result (λ made. IfSome made (λ place. survived self.new place 0)) }
        ensures same { OnErr result (content self.new ≡ content self.old) }
        ensures err { IfErr result (IsRefusedHere (content self.old) (new_object shape.entry)) };

    /// Makes objects with default values, all or none, in the order of their shapes, in the nursery of a
    /// number, and answers their places; `allocate` is the case of one shape, and no shapes answer no
    /// places. It may collect first, as `allocate` does, and what is reached stays as it is. A `set` on
    /// a place that it answers takes no memory until objects are made again or the heap is collected.
    ///
    /// HeapFull comes exactly where the cells of what the roots reach and those of all objects pass the
    /// limit, SerialsEnd where they do not and there would be more than 2^63 objects, and OutOfMemory
    /// where a growth is refused: no object is made then.
    fn allocate_all(
        &mut self,
        nursery: usize,
        roots: &mut Roots,
        shapes: &[Shape<'_>],
    ) -> Result<Vec<Place>, HeapFault>
        requires sound { IsSound (content self.old) }
        requires resident { AllResident (content self.old) roots.old }
        ensures ok { IfOk result (λ places. MadeAll class_size (content self.old) roots.old (content self.new) roots.new places.items (map new_object shapes.now)) }
        ensures nursery { IfOk result (λ places. AllPlaces (λ place. nursery_of place nursery) places.items) }
        ensures fresh { IfOk result (λ places. AllPlaces (λ place. survived self.new place 0) places.items) }
        ensures free { IfOk result (λ places. AllPlaces (free self.new) places.items) }
        ensures kept { OnErr result (Kept (content self.old) roots.old (content self.new) roots.new) }
        ensures next { OnErr result ((content self.new).next ≡ (content self.old).next) }
        ensures as_before { AreAsBeforeMaking (content self.old) (content self.new) }
        ensures err { IfErr result (AreRefused (content self.old) roots.old (map new_object shapes.now)) }
        ensures refused { OnErr result (refused self.old self.new roots.old roots.new (sum_by (size_by class_size) (map new_object shapes.now))) };

    /// The class or array type of the object at a place, and its values, which are fewer than 2^32: the
    /// fields of an instance, in the order of its shape, or the elements of an array. It takes no
    /// memory.
    fn object(&self, place: Place) -> (ClassId, Elements<'_>)
        requires { (k : ℕ) × (o : ObjectOf ClassId) × (serial_at (content self.now) place ≡ Some k) × (object_at (content self.now) k ≡ Some o) }
        ensures class { (k : ℕ) (o : ObjectOf ClassId) → serial_at (content self.now) place ≡ Some k → object_at (content self.now) k ≡ Some o → result.0 ≡ o.type }
        ensures length { (k : ℕ) (o : ObjectOf ClassId) → serial_at (content self.now) place ≡ Some k → object_at (content self.now) k ≡ Some o → length (elements result.1) ≡ length o.values }
        ensures short { length (elements result.1) < 2 ^ 32 }
        ensures values { (i : ℕ) (v : Value) → slice_get (elements result.1) i ≡ Some v → HasValue (content self.now) place i (rename (name_of (content self.now)) v) }
        ensures resident { (i : ℕ) (v : Value) → slice_get (elements result.1) i ≡ Some v → AllResident (content self.now) (refs v) }
        ensures lie { LieAs (element_kind result.1) (kind_of result.0) };

    /// The value of a number of the object at a place: a field of an instance, in the order of
    /// its shape, or an element of an array. It takes no memory.
    fn get(&self, place: Place, index: u32) -> Value
        requires { (v : Value) × HasValue (content self.now) place index v }
        ensures value { HasValue (content self.now) place index (rename (name_of (content self.now)) result) }
        ensures resident { AllResident (content self.now) (refs result) };

    /// Changes one value of the object at a place, to one that an object of its type holds. Where a
    /// growth is refused, nothing has changed; at a place that `allocate_all` answered none is, until
    /// objects are made again or the heap is collected.
    fn set(&mut self, place: Place, index: u32, value: Value) -> Result<(), AllocError>
        requires sound { IsSound (content self.old) }
        requires there { (v : Value) × HasValue (content self.old) place index v }
        requires resident { AllResident (content self.old) (refs value) }
        requires fits { CanHold (content self.old) place value }
        ensures ok { OnOk result (IsSet (content self.old) (content self.new) place index value) }
        ensures err { OnErr result (content self.new ≡ content self.old) }
        ensures free { OnErr result (free self.old place → ⊥) }
        ensures stays { (p : ℕ) → free self.old p → free self.new p };

    /// How many values the object at a place has. It takes no memory.
    fn length(&self, place: Place) -> u32
        requires { (k : ℕ) × (o : ObjectOf ClassId) × (serial_at (content self.now) place ≡ Some k) × (object_at (content self.now) k ≡ Some o) }
        ensures { (k : ℕ) (o : ObjectOf ClassId) → serial_at (content self.now) place ≡ Some k → object_at (content self.now) k ≡ Some o → result ≡ length o.values };

    /// The class or array type of the object at a place. It takes no memory.
    fn class_of(&self, place: Place) -> ClassId
        requires { (k : ℕ) × (o : ObjectOf ClassId) × (serial_at (content self.now) place ≡ Some k) × (object_at (content self.now) k ≡ Some o) }
        ensures { (k : ℕ) (o : ObjectOf ClassId) → serial_at (content self.now) place ≡ Some k → object_at (content self.now) k ≡ Some o → result ≡ o.type };

    /// The serial of the object at a place. It takes no memory.
    fn serial(&self, place: Place) -> u64
        requires { (k : ℕ) × (serial_at (content self.now) place ≡ Some k) }
        ensures { serial_at (content self.now) place ≡ Some result };

    /// Gives up objects that the roots do not reach: all of them with `Full`. The roots are moved
    /// with their objects, and what they reach stays as it is. Where a growth is refused, nothing
    /// has changed, and each object lies where it lay.
    fn collect(&mut self, roots: &mut Roots, kind: Kind) -> Result<(), AllocError>
        requires sound { IsSound (content self.old) }
        requires resident { AllResident (content self.old) roots.old }
        ensures kept { Kept (content self.old) roots.old (content self.new) roots.new }
        ensures next { (content self.new).next ≡ (content self.old).next }
        ensures as_before { IsAsBefore (content self.old) (content self.new) }
        ensures ok { OnOk result (LeavesReached kind (content self.old) roots.old (content self.new)) }
        ensures leaves { OnOk result (leaves kind self.old self.new roots.old roots.new) }
        ensures err { OnErr result ((content self.new ≡ content self.old) × (roots.new ≡ roots.old)) }
        ensures lie { OnErr result (lie_as_before self.old self.new) };

    /// The serials of the residents, rising.
    fn resident(&self) -> Result<Vec<u64>, AllocError>
        requires { IsSound (content self.now) }
        ensures { IfOk result (λ serials. AreResident (content self.now) serials.items) };

    /// The cells of the residents, at most the limit after every call. It takes no memory.
    fn used(&self) -> u64
        ensures value { result ≡ resident_cells (content self.now) }
        ensures within { result ≤ (content self.now).limit };

    /// The limit in cells. It takes no memory.
    fn limit(&self) -> u64
        ensures { result ≡ (content self.now).limit };
}

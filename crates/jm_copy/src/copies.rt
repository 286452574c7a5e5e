// What a collection has made so far.

ghost use Rattle.std.specs.Prelude.{◌≡◌, ◌≢◌, ◌+◌, ◌<◌, ◌≤◌, ℕ, length, slice_get, Some, MatchOption, IfOk, IfSome, OnErr, nat_eq};
ghost use Rattle.jm_values.specs.declared.value.Value.TheVariants.{Ref};
ghost use Rattle.jm_heap.specs.Elements.{elements, element_kind};
ghost use Rattle.jm_heap.specs.Packing.{Fits, kind_of};
ghost use Rattle.jm_blocks.specs.Objects.{Object, aged, with_value};
ghost use Rattle.jm_blocks.specs.Places.{lane_of};
ghost use Rattle.jm_blocks.specs.Stores.{objects_in, EndsBlock, IsAfter};
ghost use Rattle.jm_copy.specs.Copying.{IsReplaced, raw_copy};
ghost use Rattle.jm_copy.specs.Naming.{IsEnded, NamesFirst, NamesNext, NoneNamed};
ghost use Rattle.jm_copy.specs.Copies.{HasMade, IsPut, IsPutIn, Stays, made, store_of};

use crate::survival::Survival;
use crate::words::Words;
use jm_blocks::{Block, BlockStore, Position};
use jm_heap::Elements;
use jm_values::{Place, Value};
use std::alloc::{AllocError, Global};

/// The forwarding words, the store of the survivors that stay young, and the old one, of which the
/// objects above the kept place are new.
#[derive(Drop)]
pub struct Copies {
    pub words: Words,
    pub young: BlockStore,
    pub tenured: BlockStore,
    pub kept: Option<Place>,
}

// Puts a copy of an object of a block, of that age, above all others of a store. A growth that is refused changes
// nothing.
#[inline(always)]
fn push(
    alloc: Global,
    store: &mut BlockStore,
    block: &Block,
    index: usize,
    age: u8,
) -> Result<Place, AllocError>
    requires { (o : Object) × (slice_get block.now index ≡ Some o) }
    ensures ok { IfOk result (λ p. (o : Object) → slice_get block.now index ≡ Some o → IsPutIn store.old store.new p (aged age o)) }
    ensures err { OnErr result (store.new ≡ store.old) }
{
    let place = store.push_copy(alloc, block, index, age)?;
    Ok(place)
}

/// A reference among the values of an object: which value it is, what it names, and the end of the references, from which
/// on no value is one.
#[derive(Clone, Copy)]
pub struct Named {
    pub number: usize,
    pub place: Place,
    pub end: usize,
}

// The place that a value names, if it is a reference.
#[inline(always)]
fn named_by(value: Value) -> Option<Place>
    ensures { MatchOption result ((p : ℕ) → value ≢ Ref p) (λ p. value ≡ Ref p) }
{
    match value {
        Value::Ref(place) => Some(place),
        Value::Int(_) => None,
        Value::Long(_) => None,
        Value::Null => None,
    }
}

// The end of the references among values: behind the last one.
#[inline(always)]
fn end_of(values: Elements<'_>) -> usize
    ensures within { result ≤ length (elements values.entry) }
    ensures none { NoneNamed (elements values.entry) result (length (elements values.entry)) }
{
    let mut end = values.len();
    while end > 0 {
        if let Some(_place) = named_by(values.get(end - 1)) {
            return end;
        }
        end -= 1;
    }
    end
}

// The first reference among values from a number on, where their end is known.
#[inline(always)]
fn named_below(values: Elements<'_>, first: usize, end: usize) -> Option<Named>
    requires within { end ≤ length (elements values) }
    requires none { NoneNamed (elements values) end (length (elements values)) }
    requires fits { (p : ℕ) → Fits (element_kind values) (Ref p) }
    ensures names { NamesFirst (elements values.entry) (element_kind values.entry) first result }
    ensures end { IfSome result (λ r. r.end ≡ end) }
{
    for number in first..end {
        if let Some(place) = named_by(values.get(number)) {
            return Some(Named { number, place, end });
        }
    }
    None
}

/// The first reference among values.
#[inline(always)]
pub fn first_named(values: Elements<'_>) -> Option<Named>
    ensures { NamesFirst (elements values.entry) (element_kind values.entry) 0 result }
{
    if values.is_plain() {
        return None;
    }
    let end = end_of(values);
    named_below(values, 0, end)
}

/// The first reference among values after one, where the end of the references is known.
#[inline(always)]
pub fn next_named(values: Elements<'_>, number: usize, end: usize) -> Option<Named>
    requires { IsEnded (elements values) (element_kind values) number end }
    ensures names { NamesFirst (elements values.entry) (element_kind values.entry) (number + 1) result }
    ensures end { IfSome result (λ r. r.end ≡ end) }
{
    named_below(values, number + 1, end)
}

impl Copies {
    /// Copies an object of a block: into the store of the young at its first survival, and else into the
    /// old one. A growth that is refused changes nothing.
    #[inline]
    pub fn put(&mut self, alloc: Global, block: &Block, index: usize) -> Result<Place, AllocError>
        requires { (o : Object) × (slice_get block.now index ≡ Some o) }
        ensures ok { IfOk result (λ p. (o : Object) → slice_get block.now index ≡ Some o → IsPut self.old self.new p (raw_copy o)) }
        ensures err { OnErr result (self.new ≡ self.old) }
    {
        let survival = Survival::of(block.age(index));
        match survival {
            Survival::First => push(alloc, &mut self.young, block, index, survival.age()),
            Survival::Later => push(alloc, &mut self.tenured, block, index, survival.age()),
        }
    }

    /// Whether a place is in the lane of the young.
    #[inline]
    pub fn is_young(&self, place: Place) -> bool
        ensures { result ≡ nat_eq (lane_of place) self.now.young.lane }
    {
        Position::of(place).lane == self.young.lane()
    }

    // The store that has the lane of a place, if one of the two has.
    #[inline]
    fn store(&self, place: Place) -> &BlockStore
        ensures { result.now ≡ store_of self.now place }
    {
        if self.is_young(place) {
            return &self.young;
        }
        &self.tenured
    }

    /// The new object that lies after one in its block, if there is one.
    #[inline(always)]
    pub fn beside(&self, place: Place) -> Option<Place>
        requires { HasMade self.now place }
        ensures { MatchOption result (EndsBlock (store_of self.now place) place) (λ p. IsAfter (store_of self.now place) place p) }
    {
        self.store(place).beside(place)
    }

    /// The first reference among the values of a new object.
    #[inline(always)]
    pub fn named_first(&self, place: Place) -> Option<Named>
        requires { HasMade self.now place }
        ensures { (a : Object) → made self.now place ≡ Some a → NamesNext a 0 result }
    {
        let (_, values) = self.store(place).object_at(place);
        first_named(values)
    }

    /// The first reference of a new object after one, where the end of its references is known: where that comes next
    /// nothing is looked up.
    #[inline(always)]
    pub fn named_after(&self, place: Place, number: usize, end: usize) -> Option<Named>
        requires { (a : Object) × (made self.now place ≡ Some a) × IsEnded a.values (kind_of a.class) number end }
        ensures names { (a : Object) → made self.now place ≡ Some a → NamesNext a (number + 1) result }
        ensures end { IfSome result (λ r. r.end ≡ end) }
    {
        if number + 1 >= end {
            return None;
        }
        let (_, values) = self.store(place).object_at(place);
        next_named(values, number, end)
    }

    /// Changes one value of a new object.
    #[inline(always)]
    pub fn set(&mut self, place: Place, number: usize, value: Value)
        requires fits { (a : Object) → made self.old place ≡ Some a → Fits (kind_of a.class) value }
        requires there { (a : Object) × (made self.old place ≡ Some a) × (number < length a.values) }
        ensures set { (a : Object) → made self.old place ≡ Some a → IsReplaced (made self.old) (made self.new) place (with_value a number value) }
        ensures stays { Stays self.old self.new }
        ensures words { self.new.words ≡ self.old.words }
        ensures others { (n : ℕ) → n ≢ place → objects_in self.new.tenured n ≡ objects_in self.old.tenured n }
        ensures many { (length self.new.young.lists ≡ length self.old.young.lists) × (length self.new.tenured.lists ≡ length self.old.tenured.lists) }
    {
        if self.is_young(place) {
            self.young.set(place, number, value);
            return;
        }
        self.tenured.set(place, number, value);
    }
}

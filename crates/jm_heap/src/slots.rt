// The slots of a plain heap, by place.

ghost use Rattle.std.specs.Prelude.{◌≡◌, ◌↔◌, ◌+◌, ◌≤◌, Some, None, IsSome, IfSome, slice_get, IfErr, ◌<◌, ◌^◌, IfOk, OnErr, length, vec_len, vec_capacity};
ghost use Rattle.jm_heap.specs.declared.fault.HeapFault.TheVariants.{OutOfMemory};
ghost use Rattle.jm_heap.specs.Slots.{Object, class_of, object_in, serial_of, values_of};
ghost use Rattle.jm_heap.specs.Stored.{AreTaken, Stored, StoredAll, Written};

use crate::class_id::ClassId;
use crate::fault::HeapFault;
use crate::slot::Slot;
use jm_values::{Place, Value};
use std::alloc::{AllocError, Global};

/// How many slots there may be, so that each has a place.
const MAX_SLOTS: usize = (1 << 63) - 1;

/// The values of the object at a place, none where nothing lies.
#[inline]
pub fn values_at(slots: &Vec<Slot>, place: Place) -> &[Value]
    ensures { result.now ≡ values_of (object_in slots.now.items place) }
{
    let number = place.number();
    match slots.get(number as usize - 1) {
        Some(slot) => slot.values(),
        None => &[],
    }
}

/// The class or array type of the object at a place, and its values.
#[inline]
pub fn object_at(slots: &Vec<Slot>, place: Place) -> (ClassId, &[Value])
    requires { (a : Object) × (object_in slots.now.items place ≡ Some a) }
    ensures { (a : Object) → object_in slots.now.items place ≡ Some a → (result.0 ≡ a.class) × (result.1.now ≡ a.values) }
{
    let number = place.number();
    slots[number as usize - 1].object()
}

/// The class or array type of the object at a place.
#[inline]
pub fn class_at(slots: &Vec<Slot>, place: Place) -> Option<ClassId>
    ensures { result ≡ class_of (object_in slots.now.items place) }
{
    let number = place.number();
    match slots.get(number as usize - 1) {
        Some(slot) => slot.class(),
        None => None,
    }
}

/// The serial of the object at a place.
#[inline]
pub fn serial_at(slots: &Vec<Slot>, place: Place) -> Option<u64>
    ensures { result ≡ serial_of (object_in slots.now.items place) }
{
    let number = place.number();
    match slots.get(number as usize - 1) {
        Some(slot) => slot.serial(),
        None => None,
    }
}

/// Changes one value of the object at a place.
#[inline]
pub fn write(slots: &mut Vec<Slot>, place: Place, index: u32, value: Value)
    requires { (a : Object) × (object_in slots.old.items place ≡ Some a) × (index < length a.values) }
    ensures { Written slots.old.items slots.new.items place index value }
{
    let number = place.number();
    slots[number as usize - 1].set(index as usize, value);
}

// The free slot after the one of this number, where that one is free.
fn next_free_at(slots: &Vec<Slot>, index: usize) -> Option<usize>
    ensures { IsSome result ↔ (slice_get slots.now.items index ≡ Some None) }
{
    match slots.get(index) {
        Some(slot) => slot.next_free(),
        None => None,
    }
}

// Takes the first slot from the list of free ones, if there is one.
#[inline]
fn take_free(slots: &Vec<Slot>, free: &mut usize) -> Option<usize>
    ensures { IfSome result (λ index. slice_get slots.now.items index ≡ Some None) }
{
    let index = *free;
    *free = next_free_at(slots, index)?;
    Some(index)
}

/// Puts a slot with an object in place of one that is free, the first of the list of free ones, or
/// at the end.
pub fn store(slots: &mut Vec<Slot>, free: &mut usize, slot: Slot) -> Result<Place, HeapFault>
    requires { length slots.old.items < 2 ^ 63 }
    ensures ok { (a : Object) → slot ≡ Some a → IfOk result (λ place. Stored slots.old.items slots.new.items place a) }
    ensures same { OnErr result (slots.new.items ≡ slots.old.items) }
    ensures err { IfErr result (λ fault. fault ≡ OutOfMemory) }
{
    if let Some(index) = take_free(slots, free) {
        slots[index] = slot;
        return Ok(Place::new(index as u64 + 1));
    }
    let end = slots.len();
    if end >= MAX_SLOTS {
        return Err(HeapFault::OutOfMemory);
    }
    match slots.push(slot) {
        Ok(()) => Ok(Place::new(end as u64 + 1)),
        Err(refused) => Err(AllocError::from(refused).into()),
    }
}

// Puts a slot with an object as `store` does, where there is room at the end.
fn store_reserved(slots: &mut Vec<Slot>, free: &mut usize, slot: Slot) -> Place
    requires few { vec_len slots.old + 1 < 2 ^ 63 }
    requires room { vec_len slots.old < vec_capacity slots.old }
    ensures stored { (a : Object) → slot ≡ Some a → Stored slots.old.items slots.new.items result a }
    ensures len { vec_len slots.new ≤ vec_len slots.old + 1 }
    ensures capacity { vec_capacity slots.new ≡ vec_capacity slots.old }
{
    if let Some(index) = take_free(slots, free) {
        slots[index] = slot;
        return Place::new(index as u64 + 1);
    }
    let end = slots.len();
    slots.push_reserved(slot);
    Place::new(end as u64 + 1)
}

/// Puts slots with objects in place of free ones or at the end, one after another, all or none.
pub fn store_all(
    alloc: Global,
    slots: &mut Vec<Slot>,
    free: &mut usize,
    new: Vec<Slot>,
) -> Result<Vec<Place>, HeapFault>
    requires few { length slots.old.items < 2 ^ 63 }
    requires taken { AreTaken new.items }
    ensures ok { IfOk result (λ places. StoredAll slots.old.items slots.new.items places.items new.items) }
    ensures same { OnErr result (slots.new.items ≡ slots.old.items) }
    ensures err { IfErr result (λ fault. fault ≡ OutOfMemory) }
{
    if new.len() > MAX_SLOTS - slots.len() {
        return Err(HeapFault::OutOfMemory);
    }
    let mut places = Vec::with_capacity(alloc, new.len())?;
    slots.reserve(new.len())?;
    for slot in new {
        places.push_reserved(store_reserved(slots, free, slot));
    }
    Ok(places)
}

// The values of a block, packed.

ghost use Rattle.std.specs.Prelude.{pos, ◌≡◌, ◌+◌, ◌<◌, ◌≤◌, ◌++◌, ◌∷◌, [], IfOk, OnOk, OnErr, Some};
ghost use Rattle.std.specs.Prelude.{take, drop, length, map, replicate, slice_get, slice_set};
ghost use Rattle.jm_values.specs.Objects.{default_of};
ghost use Rattle.jm_values.specs.declared.value.Value.{Value};
ghost use Rattle.jm_values.specs.declared.value.Value.TheVariants.{Int, Long, Null, Ref};
ghost use Rattle.jm_heap.specs.Packing.{char_value, Fits, list_of, no_lists, with_list, reference};
ghost use Rattle.jm_heap.specs.Elements.{elements, element_kind, with_elements};
ghost use Rattle.jm_heap.specs.declared.storage.Storage.TheVariants as kind;

use jm_heap::{Elements, Lies, Reference, Storage};
use jm_program::OperandType;
use jm_values::{Place, Value};
use std::alloc::{AllocError, Global};
use std::marker::Model;

// So many items are few.
const FEW: usize = 8;

// So many copies at the end. A growth that is refused changes nothing.
fn push_copies<T: Copy>(items: &mut Vec<T>, item: T, count: usize) -> Result<(), AllocError>
    ensures ok { OnOk result (items.new.items ≡ items.old.items ++ replicate count item) }
    ensures err { OnErr result (items.new.items ≡ items.old.items) }
{
    items.reserve(count)?;
    for _copy in 0..count {
        items.push_reserved(item);
    }
    Ok(())
}

// Two items at the end. A growth that is refused changes nothing.
#[inline(always)]
fn append_two<T: Copy>(items: &mut Vec<T>, first: T, second: T) -> Result<(), AllocError>
    ensures ok { OnOk result (items.new.items ≡ items.old.items ++ first ∷ second ∷ []) }
    ensures err { OnErr result (items.new.items ≡ items.old.items) }
{
    if items.capacity() - items.len() < 2 {
        items.reserve(2)?;
    }
    items.push_reserved(first);
    items.push_reserved(second);
    Ok(())
}

// Items at the end; a few of them one by one, which takes less than a call that copies them, and two without a loop.
// A growth that is refused changes nothing.
#[inline(always)]
fn append<T: Copy>(items: &mut Vec<T>, more: &[T]) -> Result<(), AllocError>
    ensures ok { OnOk result (items.new.items ≡ items.old.items ++ more.now) }
    ensures err { OnErr result (items.new.items ≡ items.old.items) }
{
    if let [first, second] = more {
        return append_two(items, *first, *second);
    }
    if more.len() > FEW {
        return items.extend_from_slice(more);
    }
    items.reserve(more.len())?;
    for item in more {
        items.push_reserved(*item);
    }
    Ok(())
}

// One value of a list.
#[inline]
fn get_in<T: Lies>(items: &Vec<T>, at: usize) -> Value
    requires { at < length items.now.items }
    ensures value { slice_get (map T.stands_for items.now.items) at ≡ Some result }
    ensures fits { T.holds result }
{
    items[at].value()
}

// Changes one value of a list.
#[inline(always)]
fn set_in<T: Lies>(items: &mut Vec<T>, at: usize, value: Value)
    requires there { at < length items.old.items }
    requires fits { T.holds value }
    ensures { map T.stands_for items.new.items ≡ slice_set (map T.stands_for items.old.items) at value }
{
    items[at] = T::of(value);
}

// Copies of a value at the end of a list. A growth that is refused changes nothing.
fn push_in<T: Lies>(items: &mut Vec<T>, value: Value, count: usize) -> Result<(), AllocError>
    requires { T.holds value }
    ensures ok { OnOk result (map T.stands_for items.new.items ≡ map T.stands_for items.old.items ++ replicate count value) }
    ensures err { OnErr result (map T.stands_for items.new.items ≡ map T.stands_for items.old.items) }
{
    let item = T::of(value);
    push_copies(items, item, count)
}

// So many items from a start on.
#[inline]
fn part<T>(items: &[T], start: usize, count: usize) -> &[T]
    requires { start + count ≤ length items.now }
    ensures { result.now ≡ take count (drop start items.now) }
{
    &items[start..start + count]
}

// Values as they lie at the end of a list. A growth that is refused changes nothing.
#[inline]
fn push_items<T: Lies>(items: &mut Vec<T>, more: &[T]) -> Result<(), AllocError>
    ensures ok { OnOk result (map T.stands_for items.new.items ≡ map T.stands_for items.old.items ++ map T.stands_for more.now) }
    ensures err { OnErr result (map T.stands_for items.new.items ≡ map T.stands_for items.old.items) }
{
    append(items, more)
}

// So many values of another list from a start on at the end, and the number of the first. A growth that is refused
// changes nothing.
#[inline(always)]
fn push_part<T: Lies>(
    items: &mut Vec<T>,
    from: &Vec<T>,
    start: usize,
    count: usize,
) -> Result<usize, AllocError>
    requires { start + count ≤ length from.now.items }
    ensures ok { OnOk result (map T.stands_for items.new.items ≡ map T.stands_for items.old.items ++ map T.stands_for (take count (drop start from.now.items))) }
    ensures first { IfOk result (λ n. n ≡ length items.old.items) }
    ensures err { OnErr result (map T.stands_for items.new.items ≡ map T.stands_for items.old.items) }
{
    let first = items.len();
    append(items, part(from.as_slice(), start, count))?;
    Ok(first)
}

// Gives up the values of a list from a number on.
fn truncate_in<T: Lies>(items: &mut Vec<T>, count: usize)
    ensures { map T.stands_for items.new.items ≡ take count (map T.stands_for items.old.items) }
{
    items.truncate(count);
}

// The value that a variable begins with (JVMS 2.3, 2.4).
fn default_value(operand: OperandType) -> Value
    ensures { result ≡ default_of operand }
{
    match operand {
        OperandType::Int => Value::Int(0),
        OperandType::Long => Value::Long(0),
        OperandType::Reference => Value::Null,
    }
}

// The default values of fields at the end. A growth that is refused changes nothing.
#[inline]
fn push_defaults(values: &mut Vec<Value>, fields: &[OperandType]) -> Result<(), AllocError>
    ensures ok { OnOk result (values.new.items ≡ values.old.items ++ map default_of fields.now) }
    ensures err { OnErr result (values.new.items ≡ values.old.items) }
{
    values.reserve(fields.len())?;
    for field in fields {
        values.push_reserved(default_value(*field));
    }
    Ok(())
}

/// The values of a block, each kind in a list of its own.
pub(crate) struct Packed {
    fields: Vec<Value>,
    references: Vec<Reference>,
    bytes: Vec<i8>,
    chars: Vec<u16>,
    shorts: Vec<i16>,
    ints: Vec<i32>,
    longs: Vec<i64>,
}

// Written out, so that whoever lets go of one makes a call (docs/DECISIONS.md).
impl Drop for Packed {
    fn drop(self) {
        let Packed {
            fields: _,
            references: _,
            bytes: _,
            chars: _,
            shorts: _,
            ints: _,
            longs: _,
        } = self;
    }
}

impl Model for Packed {
    ghost use Rattle.std.specs.Prelude.{map};
    ghost use Rattle.jm_values.specs.declared.value.Value.{Value};
    ghost use Rattle.jm_values.specs.declared.value.Value.TheVariants.{Int, Long};
    ghost use Rattle.jm_heap.specs.Packing.{Lists, reference, char_value};

    ghost Value = { Lists };

    ghost view = { λ p. record {
      fields = p.fields.items;
      references = map reference p.references.items;
      bytes = map Int p.bytes.items;
      chars = map char_value p.chars.items;
      shorts = map Int p.shorts.items;
      ints = map Int p.ints.items;
      longs = map Long p.longs.items;
    } };
}

impl Packed {
    /// No values.
    pub(crate) fn new(alloc: Global) -> Packed
        ensures { result ≡ no_lists }
    {
        Packed {
            fields: Vec::new(alloc),
            references: Vec::new(alloc),
            bytes: Vec::new(alloc),
            chars: Vec::new(alloc),
            shorts: Vec::new(alloc),
            ints: Vec::new(alloc),
            longs: Vec::new(alloc),
        }
    }

    /// How many values of a kind there are.
    #[inline]
    pub(crate) fn len(&self, kind: Storage) -> usize
        ensures { result ≡ length (list_of kind self.now) }
    {
        match kind {
            Storage::Fields => self.fields.len(),
            Storage::References => self.references.len(),
            Storage::Bytes => self.bytes.len(),
            Storage::Chars => self.chars.len(),
            Storage::Shorts => self.shorts.len(),
            Storage::Ints => self.ints.len(),
            Storage::Longs => self.longs.len(),
        }
    }

    /// One value.
    #[inline]
    pub(crate) fn get(&self, kind: Storage, at: usize) -> Value
        requires { at < length (list_of kind self.now) }
        ensures value { slice_get (list_of kind self.now) at ≡ Some result }
        ensures fits { Fits kind result }
    {
        match kind {
            Storage::Fields => get_in(&self.fields, at),
            Storage::References => get_in(&self.references, at),
            Storage::Bytes => get_in(&self.bytes, at),
            Storage::Chars => get_in(&self.chars, at),
            Storage::Shorts => get_in(&self.shorts, at),
            Storage::Ints => get_in(&self.ints, at),
            Storage::Longs => get_in(&self.longs, at),
        }
    }

    /// So many values of a kind from a start on.
    #[inline(always)]
    #[tactic(auto, using(crate::proofs::Lists::taken))]
    pub(crate) fn elements(&self, kind: Storage, start: usize, count: usize) -> Elements<'_>
        requires { start + count ≤ length (list_of kind self.now) }
        ensures values { elements result ≡ take count (drop start (list_of kind self.now)) }
        ensures kind { element_kind result ≡ kind }
    {
        match kind {
            Storage::Fields => Elements::Fields(part(self.fields.as_slice(), start, count)),
            Storage::References => {
                Elements::References(part(self.references.as_slice(), start, count))
            }
            Storage::Bytes => Elements::Bytes(part(self.bytes.as_slice(), start, count)),
            Storage::Chars => Elements::Chars(part(self.chars.as_slice(), start, count)),
            Storage::Shorts => Elements::Shorts(part(self.shorts.as_slice(), start, count)),
            Storage::Ints => Elements::Ints(part(self.ints.as_slice(), start, count)),
            Storage::Longs => Elements::Longs(part(self.longs.as_slice(), start, count)),
        }
    }

    // Changes one value to a reference, which lies in one of two lists.
    #[inline(always)]
    fn set_reference(&mut self, kind: Storage, at: usize, place: Place)
        requires there { at < length (list_of kind self.old) }
        requires fits { Fits kind (Ref place) }
        ensures { self.new ≡ with_list kind (slice_set (list_of kind self.old) at (Ref place)) self.old }
    {
        match kind {
            Storage::Fields => set_in(&mut self.fields, at, Value::Ref(place)),
            _ => set_in(&mut self.references, at, Value::Ref(place)),
        }
    }

    /// Changes one value. What is known to be a reference, as it is to a collector, is not looked for in all lists.
    #[inline(always)]
    pub(crate) fn set(&mut self, kind: Storage, at: usize, value: Value)
        requires there { at < length (list_of kind self.old) }
        requires fits { Fits kind value }
        ensures { self.new ≡ with_list kind (slice_set (list_of kind self.old) at value) self.old }
    {
        if let Value::Ref(place) = value {
            return self.set_reference(kind, at, place);
        }
        match kind {
            Storage::Fields => set_in(&mut self.fields, at, value),
            Storage::References => set_in(&mut self.references, at, value),
            Storage::Bytes => set_in(&mut self.bytes, at, value),
            Storage::Chars => set_in(&mut self.chars, at, value),
            Storage::Shorts => set_in(&mut self.shorts, at, value),
            Storage::Ints => set_in(&mut self.ints, at, value),
            Storage::Longs => set_in(&mut self.longs, at, value),
        }
    }

    /// Copies of a value at the end. A growth that is refused changes nothing.
    pub(crate) fn push(
        &mut self,
        kind: Storage,
        value: Value,
        count: usize,
    ) -> Result<(), AllocError>
        requires { Fits kind value }
        ensures ok { OnOk result (self.new ≡ with_list kind (list_of kind self.old ++ replicate count value) self.old) }
        ensures err { OnErr result (self.new ≡ self.old) }
    {
        match kind {
            Storage::Fields => push_in(&mut self.fields, value, count),
            Storage::References => push_in(&mut self.references, value, count),
            Storage::Bytes => push_in(&mut self.bytes, value, count),
            Storage::Chars => push_in(&mut self.chars, value, count),
            Storage::Shorts => push_in(&mut self.shorts, value, count),
            Storage::Ints => push_in(&mut self.ints, value, count),
            Storage::Longs => push_in(&mut self.longs, value, count),
        }
    }

    /// The default values of fields at the end. A growth that is refused changes nothing.
    #[inline]
    pub(crate) fn push_defaults(&mut self, fields: &[OperandType]) -> Result<(), AllocError>
        ensures ok { OnOk result (self.new ≡ with_list kind.Fields (self.old.fields ++ map default_of fields.now) self.old) }
        ensures err { OnErr result (self.new ≡ self.old) }
    {
        push_defaults(&mut self.fields, fields)
    }

    /// Values as they lie in some block, at the end of the list of their kind: one copy of memory. A
    /// growth that is refused changes nothing.
    #[inline]
    pub(crate) fn push_elements(&mut self, values: Elements<'_>) -> Result<(), AllocError>
        ensures ok { OnOk result (self.new ≡ with_elements values.entry self.old) }
        ensures err { OnErr result (self.new ≡ self.old) }
    {
        match values {
            Elements::Fields(values) => push_items(&mut self.fields, values),
            Elements::References(values) => push_items(&mut self.references, values),
            Elements::Bytes(values) => push_items(&mut self.bytes, values),
            Elements::Chars(values) => push_items(&mut self.chars, values),
            Elements::Shorts(values) => push_items(&mut self.shorts, values),
            Elements::Ints(values) => push_items(&mut self.ints, values),
            Elements::Longs(values) => push_items(&mut self.longs, values),
        }
    }

    /// So many values of a kind from a start on in another block, at the end of the list of their kind: one copy
    /// of memory. It answers the number of the first. A growth that is refused changes nothing.
    #[inline(always)]
    #[tactic(auto, using(crate::proofs::Lists::taken))]
    pub(crate) fn push_from(
        &mut self,
        kind: Storage,
        from: &Packed,
        start: usize,
        count: usize,
    ) -> Result<usize, AllocError>
        requires { start + count ≤ length (list_of kind from.now) }
        ensures ok { OnOk result (self.new ≡ with_list kind (list_of kind self.old ++ take count (drop start (list_of kind from.now))) self.old) }
        ensures first { IfOk result (λ n. n ≡ length (list_of kind self.old)) }
        ensures err { OnErr result (self.new ≡ self.old) }
    {
        match kind {
            Storage::Fields => push_part(&mut self.fields, &from.fields, start, count),
            Storage::References => push_part(&mut self.references, &from.references, start, count),
            Storage::Bytes => push_part(&mut self.bytes, &from.bytes, start, count),
            Storage::Chars => push_part(&mut self.chars, &from.chars, start, count),
            Storage::Shorts => push_part(&mut self.shorts, &from.shorts, start, count),
            Storage::Ints => push_part(&mut self.ints, &from.ints, start, count),
            Storage::Longs => push_part(&mut self.longs, &from.longs, start, count),
        }
    }

    /// Makes room for so many values more of a kind. A growth that is refused changes nothing either.
    pub(crate) fn reserve(&mut self, kind: Storage, count: usize) -> Result<(), AllocError>
        ensures { self.new ≡ self.old }
    {
        match kind {
            Storage::Fields => self.fields.reserve(count),
            Storage::References => self.references.reserve(count),
            Storage::Bytes => self.bytes.reserve(count),
            Storage::Chars => self.chars.reserve(count),
            Storage::Shorts => self.shorts.reserve(count),
            Storage::Ints => self.ints.reserve(count),
            Storage::Longs => self.longs.reserve(count),
        }
    }

    /// Gives up the values of a kind from a number on.
    pub(crate) fn truncate(&mut self, kind: Storage, count: usize)
        ensures { self.new ≡ with_list kind (take count (list_of kind self.old)) self.old }
    {
        match kind {
            Storage::Fields => truncate_in(&mut self.fields, count),
            Storage::References => truncate_in(&mut self.references, count),
            Storage::Bytes => truncate_in(&mut self.bytes, count),
            Storage::Chars => truncate_in(&mut self.chars, count),
            Storage::Shorts => truncate_in(&mut self.shorts, count),
            Storage::Ints => truncate_in(&mut self.ints, count),
            Storage::Longs => truncate_in(&mut self.longs, count),
        }
    }
}

// What a block keeps of an object.

ghost use Rattle.std.proofs.Common.{ap, sym};
ghost use Rattle.std.specs.Prelude.{◌≡◌, ◌<◌, ◌^◌};
ghost use Rattle.jm_heap.specs.Packing.{kind_of};
ghost use Rattle.jm_blocks.specs.Entries.{Entry, copied};
ghost use Rattle.jm_blocks.specs.Spelled.{entry_cells};

use crate::header::Header;
use jm_heap::{ClassId, Storage};
use std::marker::Model;

/// An object's header, and where its values lie in the list of their kind. The kind, which the class
/// tells, stands beside it: who looks at the values does not take the class apart.
#[derive(Clone, Copy)]
pub(crate) struct Entry {
    serial: u64,
    class: ClassId,
    age: u8,
    kind: Storage,
    start: u32,
    length: u32,
}

impl Model for Entry {
    ghost Value = { Entry };

    ghost view = { λ e. record {
      header = record { serial = e.serial; class = e.class; age = e.age };
      start = e.start;
      length = e.length;
    } };

    ghost invariant = { λ e. e.kind ≡ kind_of e.class };

    ghost inverse = { λ v. record {
      serial = v.header.serial;
      class = v.header.class;
      age = v.header.age;
      kind = kind_of v.header.class;
      start = v.start;
      length = v.length;
    } };

    ghost inverse_ok = { λ e h. ap (λ k. record { serial = e.serial; class = e.class; age = e.age; kind = k; start = e.start; length = e.length }) (sym h) };
}

impl Entry {
    /// The entry of an object with so many values, from a start on.
    #[inline(always)]
    pub(crate) fn new(header: Header, start: u32, length: u32) -> Entry
        ensures { result ≡ record { header = header; start = start; length = length } }
    {
        Entry {
            serial: header.serial,
            class: header.class,
            age: header.age,
            kind: Storage::of(header.class),
            start,
            length,
        }
    }

    /// Makes it the entry of a copy of that age, whose values begin elsewhere.
    #[inline(always)]
    pub(crate) fn become_copy(&mut self, age: u8, start: u32)
        ensures { self.new ≡ copied self.old age start }
    {
        self.age = age;
        self.start = start;
    }

    /// How many collections the object has survived.
    #[inline(always)]
    pub(crate) fn age(&self) -> u8
        ensures { result ≡ self.now.header.age }
    {
        self.age
    }

    /// The cells of the object.
    #[inline(always)]
    pub(crate) fn cells(&self) -> u64
        ensures { result ≡ entry_cells self.now }
    {
        self.class.size(self.length as u64)
    }

    /// The object's header.
    #[inline(always)]
    pub(crate) fn header(&self) -> Header
        ensures { result ≡ self.now.header }
    {
        Header {
            serial: self.serial,
            class: self.class,
            age: self.age,
        }
    }

    /// How its values lie.
    #[inline(always)]
    pub(crate) fn kind(&self) -> Storage
        ensures { result ≡ kind_of self.now.header.class }
    {
        self.kind
    }

    /// The number of its first value in the list of their kind.
    #[inline(always)]
    pub(crate) fn start(&self) -> usize
        ensures { result ≡ self.now.start }
    {
        self.start as usize
    }

    /// How many values it has.
    #[inline(always)]
    pub(crate) fn length(&self) -> usize
        ensures value { result ≡ self.now.length }
        ensures short { result < 2 ^ 32 }
    {
        self.length as usize
    }
}

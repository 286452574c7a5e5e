// A slot of a plain heap.

ghost use Rattle.std.specs.Prelude.{◌≡◌, ◌<◌, ◌↔◌, IsSome, None, Some, length};
ghost use Rattle.jm_heap.specs.Slots.{Object, class_of, serial_of, values_of, with_value};
ghost use Rattle.jm_heap.specs.Layout.{all_values};

use crate::class_id::ClassId;
use crate::form::{Form, number_of};
use jm_values::Value;
use std::marker::Model;
use std::mem::size_of;
use std::slice;

/// The values of a new object.
#[derive(Drop)]
pub enum Values {
    /// One value, which takes no memory of its own.
    One(Value),
    /// Any values; none take no memory either.
    Many(Vec<Value>),
}

// What a slot has. The form and the number of the class come first, since so they take one word
// with what tells the cases apart.
#[derive(Drop)]
enum State {
    Free {
        next: usize,
    },
    One {
        form: Form,
        number: u32,
        serial: u64,
        value: Value,
    },
    Many {
        form: Form,
        number: u32,
        serial: u64,
        values: Vec<Value>,
    },
}

/// A slot in which an object lies, with its number in the world and values that name places; or one
/// that is free, with the next free slot, or any number that is no free slot's at the end.
#[derive(Drop)]
pub struct Slot {
    state: State,
}

impl Model for Slot {
    ghost use Rattle.std.specs.Prelude.{Option};
    ghost use Rattle.jm_heap.specs.Slots.{Object};

    ghost Value = { Option Object };

    ghost use Rattle.jm_heap.specs.Layout.{object_in_state};

    ghost view = { λ s. object_in_state s.state };
}

// An object of 2 or 3 cells takes a slot alone, and so at most 20 bytes a cell.
const _: () = prove!(size_of::<Slot>() == 40);

impl Slot {
    /// A slot in which nothing lies, before another one of those.
    #[inline]
    pub fn free(next: usize) -> Slot
        ensures { result ≡ None }
    {
        Slot {
            state: State::Free { next },
        }
    }

    /// A slot with an object.
    pub fn taken(serial: u64, class: ClassId, values: Values) -> Slot
        ensures { result ≡ Some (record { serial = serial; class = class; values = all_values values }) }
    {
        let form = Form::of(class);
        let number = number_of(class);
        let state = match values {
            Values::One(value) => State::One {
                form,
                number,
                serial,
                value,
            },
            Values::Many(values) => State::Many {
                form,
                number,
                serial,
                values,
            },
        };
        Slot { state }
    }

    /// The next free slot, of one in which nothing lies.
    #[inline]
    pub fn next_free(&self) -> Option<usize>
        ensures { IsSome result ↔ (self.now ≡ None) }
    {
        match &self.state {
            State::Free { next } => Some(*next),
            _ => None,
        }
    }

    /// The serial of what lies in the slot.
    #[inline]
    pub fn serial(&self) -> Option<u64>
        ensures { result ≡ serial_of self.now }
    {
        match &self.state {
            State::Free { .. } => None,
            State::One { serial, .. } | State::Many { serial, .. } => Some(*serial),
        }
    }

    /// The class or array type of what lies in the slot.
    #[inline]
    pub fn class(&self) -> Option<ClassId>
        ensures { result ≡ class_of self.now }
    {
        match &self.state {
            State::Free { .. } => None,
            State::One { form, number, .. } | State::Many { form, number, .. } => {
                Some(form.with_number(*number))
            }
        }
    }

    /// The class or array type of what lies in the slot, and its values.
    #[inline]
    pub fn object(&self) -> (ClassId, &[Value])
        requires { (a : Object) × (self.now ≡ Some a) }
        ensures { (a : Object) → self.now ≡ Some a → (result.0 ≡ a.class) × (result.1.now ≡ a.values) }
    {
        match &self.state {
            State::Free { .. } => unreachable!(),
            State::One {
                form,
                number,
                value,
                ..
            } => (form.with_number(*number), slice::from_ref(value)),
            State::Many {
                form,
                number,
                values,
                ..
            } => (form.with_number(*number), values.as_slice()),
        }
    }

    /// The values of what lies in the slot, none where nothing does.
    #[inline]
    pub fn values(&self) -> &[Value]
        ensures { result.now ≡ values_of self.now }
    {
        match &self.state {
            State::Free { .. } => &[],
            State::One { value, .. } => slice::from_ref(value),
            State::Many { values, .. } => values.as_slice(),
        }
    }

    /// Changes one value of what lies in the slot.
    #[inline]
    pub fn set(&mut self, index: usize, value: Value)
        requires { index < length (values_of self.old) }
        ensures { self.new ≡ with_value self.old index value }
    {
        match &mut self.state {
            State::Free { .. } => {}
            State::One { value: only, .. } => *only = value,
            State::Many { values, .. } => values[index] = value,
        }
    }
}

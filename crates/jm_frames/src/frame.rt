// The frame of a method that runs.

ghost use Rattle.std.specs.Prelude.{◌≡◌, ◌+◌, ◌<◌, ◌≤◌, ◌^◌, ℤ, [], ◌∷◌, drop, length, replicate, reverse, slice_get, slice_set, Some, None, Ok, Err, IfOk, IfSome, if◌then◌else◌, nat_le, MatchOption, MatchResult, OnOk, OnErr};
ghost use Rattle.std.specs.Slice.Iter.{iter_rest};
ghost use Rattle.jm_values.specs.Activation.{category, units};
ghost use Rattle.jm_values.specs.Shape.{option_shape};
ghost use Rattle.jm_values.specs.declared.value.Value.TheVariants.{Int, Long};
ghost use Rattle.jm_values.specs.Rename.{refs, refill, value_shape, locals_shape, stack_shape, activation_shape};
ghost use Rattle.jm_frames.specs.Called.{arguments_on, called, locals_of};
ghost use Rattle.jm_frames.specs.FrameView.{FrameView, with_stack, with_locals_of, gone_to};

use crate::local::Local;
use crate::spare::{Memory, Spare, put_arguments, unset_rest};
use jm_values::{Place, TagFault, Value};
use std::alloc::{AllocError, Global};
use std::marker::Model;
use std::slice::Iter;

/// The frame of a method that runs (JVMS 2.6): the numbers of its method and of its instruction,
/// the monitor that it entered, its local variables and its operand stack. A long is one operand
/// and takes two of the `max_stack` units, and of its two local variables only the first is set.
#[derive(Drop)]
pub struct Frame {
    method: usize,
    monitor: Option<Place>,
    at: usize,
    max_stack: usize,
    // how many of the operands are longs, which take a unit more
    longs: usize,
    locals: Vec<Local>,
    stack: Vec<Value>,
    // memory for the frames that are called from this one
    spare: Spare,
}

impl Model for Frame {
    ghost use Rattle.std.specs.Prelude.{◌≡◌, ◌+◌, ◌≤◌, length, reverse, vec_capacity};
    ghost use Rattle.jm_values.specs.Activation.{units};
    ghost use Rattle.jm_frames.specs.FrameView.{FrameView};

    ghost Value = { FrameView };

    ghost view = { λ f. record { method = f.method; monitor = f.monitor; activation = record { at = f.at; max_stack = f.max_stack; locals = f.locals.items; stack = reverse f.stack.items } } };

    ghost invariant = { λ f. (length f.stack.items + f.longs ≡ units (reverse f.stack.items)) × (length f.stack.items + f.longs ≤ f.max_stack) × (f.max_stack ≤ vec_capacity f.stack) };
}

// 1 for a long, and 0 for any other value.
#[inline(always)]
fn longs_in(value: &Value) -> usize
    ensures { category value.now ≡ result + 1 }
{
    match value {
        Value::Long(_) => 1,
        _ => 0,
    }
}

impl Frame {
    /// The frame of a method that begins: at instruction 0, no operand, no local variable set, and
    /// the room for both reserved. `max_stack` is in units, of which a long takes two (JVMS 4.7.3).
    /// `AllocError`: there was no memory for that room.
    #[inline]
    pub fn new(
        alloc: Global,
        method: usize,
        monitor: Option<Place>,
        max_stack: u16,
        max_locals: u16,
    ) -> Result<Frame, AllocError>
        ensures { IfOk result (λ frame. frame ≡ record { method = method; monitor = monitor; activation = record { at = 0; max_stack = max_stack; locals = replicate max_locals None; stack = [] } }) }
    {
        Frame::begin(Spare::new(alloc), method, monitor, max_stack, max_locals)
    }

    /// The same, in the memory of a frame that ended, if there is one. The frame keeps what else there
    /// is for the frames that are called from it. `AllocError`: what there is does not do, and there
    /// was no memory for more.
    #[inline(always)]
    pub fn begin(
        mut spare: Spare,
        method: usize,
        monitor: Option<Place>,
        max_stack: u16,
        max_locals: u16,
    ) -> Result<Frame, AllocError>
        ensures { IfOk result (λ frame. frame ≡ record { method = method; monitor = monitor; activation = record { at = 0; max_stack = max_stack; locals = replicate max_locals None; stack = [] } }) }
    {
        let memory = spare.take(usize::from(max_stack), usize::from(max_locals))?;
        Ok(Frame {
            method,
            monitor,
            at: 0,
            max_stack: usize::from(max_stack),
            longs: 0,
            locals: memory.locals,
            stack: memory.stack,
            spare,
        })
    }

    /// Takes the memory that the frame keeps for those that are called from it.
    #[inline(always)]
    pub fn take_spare(&mut self) -> Spare
        ensures { self.new ≡ self.old }
    {
        let alloc = *self.stack.allocator();
        std::mem::replace(&mut self.spare, Spare::new(alloc))
    }

    /// Begins the frame of a method that is called from this one, in memory that this one keeps: at
    /// instruction 0, with no monitor entered and no operand, and with so many operands on top of this
    /// one, which loses them, as its first local variables, a long as two (JVMS 2.6.1). It has all the
    /// memory that is kept. None: no memory with room for the method is kept, and nothing has changed.
    #[inline(always)]
    pub fn call(
        &mut self,
        method: usize,
        max_stack: u16,
        max_locals: u16,
        count: usize,
    ) -> Option<Frame>
        requires enough { count ≤ length self.old.activation.stack }
        requires fits { length (locals_of (arguments_on count self.old.activation.stack)) ≤ max_locals }
        ensures begun { IfSome result (λ frame. frame ≡ called method max_stack max_locals (arguments_on count self.old.activation.stack)) }
        ensures caller { MatchOption result (self.new ≡ self.old) (λ _. self.new ≡ with_stack self.old (drop count self.old.activation.stack)) }
    {
        let memory = self
            .spare
            .take_reserved(usize::from(max_stack), usize::from(max_locals))?;
        let mut locals = memory.locals;
        let first = self.stack.len() - count;
        put_arguments(&mut locals, &self.stack[first..]);
        unset_rest(&mut locals, usize::from(max_locals));
        self.drop_operands(count);
        Some(Frame {
            method,
            monitor: None,
            at: 0,
            max_stack: usize::from(max_stack),
            longs: 0,
            locals,
            stack: memory.stack,
            spare: self.take_spare(),
        })
    }

    /// Keeps the memory of a frame that was called from this one and has ended, with all that it kept.
    #[inline(always)]
    pub fn keep(&mut self, ended: Frame)
        ensures { self.new ≡ self.old }
    {
        let mut spare = ended.spare;
        spare.put(Memory {
            locals: ended.locals,
            stack: ended.stack,
        });
        self.spare = spare;
    }

    /// The number of the method, as the frame was given it.
    #[inline(always)]
    pub fn method(&self) -> usize
        ensures { result ≡ self.now.method }
    {
        self.method
    }

    /// The object whose monitor a synchronized method entered (JVMS 2.11.10).
    pub fn monitor(&self) -> Option<Place>
        ensures { result ≡ self.now.monitor }
    {
        self.monitor
    }

    /// The number of the instruction, counted from the first one of the method, which is 0.
    #[inline(always)]
    pub fn at(&self) -> usize
        ensures { result ≡ self.now.activation.at }
    {
        self.at
    }

    /// The value of a local variable: the outer `None` is that there is none of that number, the
    /// inner one that it is not set (JVMS 2.6.1).
    #[inline(always)]
    pub fn local(&self, number: usize) -> Option<Option<Value>>
        ensures { result ≡ slice_get self.now.activation.locals number }
    {
        match self.locals.get(number) {
            Some(local) => Some(local.value()),
            None => None,
        }
    }

    /// The operand that is so many below the top, if there is one.
    #[inline(always)]
    pub fn operand(&self, depth: usize) -> Option<Value>
        ensures value { result ≡ slice_get self.now.activation.stack depth }
        ensures room { units self.now.activation.stack ≤ self.now.activation.max_stack }
    {
        let count = self.stack.len();
        if depth < count {
            Some(self.stack[count - 1 - depth])
        } else {
            None
        }
    }

    /// Pops the operand on top. `Underflow`: there is none, and the frame stays as it was.
    #[inline(always)]
    pub fn pop(&mut self) -> Result<Value, TagFault>
        ensures value { MatchResult result (λ value. slice_get self.old.activation.stack 0 ≡ Some value) (λ fault. (fault ≡ TagFault.Underflow) × (self.old.activation.stack ≡ [])) }
        ensures frame { self.new ≡ with_stack self.old (drop 1 self.old.activation.stack) }
    {
        let Some(value) = self.stack.pop() else {
            return Err(TagFault::Underflow);
        };
        self.longs -= longs_in(&value);
        Ok(value)
    }

    // Drops the operand on top, which is this value: its category is known without a look at it.
    #[inline(always)]
    pub(crate) fn drop_value(&mut self, value: &Value)
        requires { slice_get self.old.activation.stack 0 ≡ Some value.now }
        ensures { self.new ≡ with_stack self.old (drop 1 self.old.activation.stack) }
    {
        let _ = self.stack.pop();
        self.longs -= longs_in(value);
    }

    /// Drops the operand on top, which is an int.
    #[inline(always)]
    pub fn drop_int(&mut self)
        requires { (n : ℤ) × (slice_get self.old.activation.stack 0 ≡ Some (Int n)) }
        ensures { self.new ≡ with_stack self.old (drop 1 self.old.activation.stack) }
    {
        let _ = self.stack.pop();
    }

    /// Drops the two operands on top, which are ints.
    #[inline(always)]
    pub fn drop_ints(&mut self)
        requires top { (n : ℤ) × (slice_get self.old.activation.stack 0 ≡ Some (Int n)) }
        requires below { (n : ℤ) × (slice_get self.old.activation.stack 1 ≡ Some (Int n)) }
        ensures frame { self.new ≡ with_stack self.old (drop 2 self.old.activation.stack) }
        ensures room { units self.new.activation.stack + 2 ≤ self.new.activation.max_stack }
    {
        let _ = self.stack.pop();
        let _ = self.stack.pop();
    }

    /// Drops the two operands on top, which are longs.
    #[inline(always)]
    pub fn drop_longs(&mut self)
        requires top { (n : ℤ) × (slice_get self.old.activation.stack 0 ≡ Some (Long n)) }
        requires below { (n : ℤ) × (slice_get self.old.activation.stack 1 ≡ Some (Long n)) }
        ensures frame { self.new ≡ with_stack self.old (drop 2 self.old.activation.stack) }
        ensures room { units self.new.activation.stack + 4 ≤ self.new.activation.max_stack }
    {
        let _ = self.stack.pop();
        let _ = self.stack.pop();
        self.longs -= 2;
    }

    // How many units the operands take.
    #[inline(always)]
    fn used(&self) -> usize
        ensures units { result ≡ units self.now.activation.stack }
        ensures room { result ≤ self.now.activation.max_stack }
    {
        self.stack.len() + self.longs
    }

    /// Pushes an operand. `Overflow`: `max_stack` has no room for it (JVMS 2.6.2), and the frame
    /// stays as it was.
    #[inline(always)]
    #[tactic(auto, using(crate::proofs::Units::length_le_units_reverse))]
    pub fn push(&mut self, value: Value) -> Result<(), TagFault>
        ensures result { result ≡ (if nat_le (units (value ∷ self.old.activation.stack)) self.old.activation.max_stack then Ok tt else Err TagFault.Overflow) }
        ensures ok { OnOk result (self.new ≡ with_stack self.old (value ∷ self.old.activation.stack)) }
        ensures err { OnErr result (self.new ≡ self.old) }
    {
        if self.used() + category(&value) > self.max_stack {
            return Err(TagFault::Overflow);
        }
        self.put(value);
        Ok(())
    }

    /// Pops so many operands, or all where there are fewer. Where none is a long they are not looked at.
    #[inline(always)]
    pub fn drop_operands(&mut self, count: usize)
        ensures { self.new ≡ with_stack self.old (drop count self.old.activation.stack) }
    {
        if self.longs == 0 && count <= self.stack.len() {
            self.stack.truncate(self.stack.len() - count);
            return;
        }
        for _popped in 0..count {
            let _ = self.pop();
        }
    }

    /// Puts an operand in the place of so many that are on top, where `max_stack` has room for it
    /// (JVMS 2.6.2).
    #[inline(always)]
    pub fn replace(&mut self, count: usize, value: Value)
        requires { units (value ∷ drop count self.old.activation.stack) ≤ self.old.activation.max_stack }
        ensures { self.new ≡ with_stack self.old (value ∷ drop count self.old.activation.stack) }
    {
        self.drop_operands(count);
        self.put(value);
    }

    /// Whether `max_stack` has room for so many more units (JVMS 2.6.2).
    #[inline(always)]
    pub fn has_room(&self, more: usize) -> bool
        ensures { result ≡ nat_le (units self.now.activation.stack + more) self.now.activation.max_stack }
    {
        more <= self.max_stack - self.used()
    }

    // Pushes an operand that `max_stack` has room for.
    #[inline(always)]
    #[tactic(auto, using(crate::proofs::Units::length_le_units_reverse))]
    pub(crate) fn put(&mut self, value: Value)
        requires { units (value ∷ self.old.activation.stack) ≤ self.old.activation.max_stack }
        ensures { self.new ≡ with_stack self.old (value ∷ self.old.activation.stack) }
    {
        self.longs += longs_in(&value);
        self.stack.push_reserved(value);
    }

    /// Sets a local variable, or unsets it, and touches no other one. Its number is below
    /// `max_locals`.
    #[inline(always)]
    pub fn set_local(&mut self, number: usize, value: Option<Value>)
        requires { number < length self.old.activation.locals }
        ensures { self.new ≡ with_locals_of self.old (slice_set self.old.activation.locals number value) }
    {
        self.locals[number] = Local::of(value);
    }

    /// How many local variables there are, set or not.
    #[inline(always)]
    pub fn max_locals(&self) -> usize
        ensures { result ≡ length self.now.activation.locals }
    {
        self.locals.len()
    }

    /// The local variables, set or not.
    pub fn locals(&self) -> &[Local]
        ensures { result.now ≡ self.now.activation.locals }
    {
        self.locals.as_slice()
    }

    /// The operands, with the top last.
    pub fn operands(&self) -> &[Value]
        ensures { reverse result.now ≡ self.now.activation.stack }
    {
        self.stack.as_slice()
    }

    /// Puts another place where the object lies whose monitor was entered, or none.
    pub fn set_monitor(&mut self, monitor: Option<Place>)
        ensures { self.new ≡ record self.old { monitor = monitor } }
    {
        self.monitor = monitor;
    }

    /// Puts the next places where the local variables and then the operands, from the top, have
    /// references, and takes them.
    pub fn put_places(&mut self, places: &mut Iter<'_, Place>)
        ensures frame { self.new ≡ record self.old { activation = activation_shape.refill (iter_rest places.old) self.old.activation } }
        ensures left { iter_rest places.new ≡ drop (length (activation_shape.refs self.old.activation)) (iter_rest places.old) }
    {
        put_locals(&mut self.locals, places);
        put_operands(&mut self.stack, places);
    }

    /// Goes to an instruction, by its number.
    #[inline(always)]
    pub fn go_to(&mut self, at: usize)
        ensures { self.new ≡ gone_to self.old at }
    {
        self.at = at;
    }

    /// Goes on to the next instruction.
    #[inline(always)]
    pub fn go_on(&mut self)
        requires { self.old.activation.at + 1 < 2 ^ 64 }
        ensures { self.new ≡ gone_to self.old (self.old.activation.at + 1) }
    {
        self.at += 1;
    }

    /// Pops all operands, as an exception's handler wants it (JVMS 2.10).
    pub fn clear(&mut self)
        ensures { self.new ≡ with_stack self.old [] }
    {
        self.stack.clear();
        self.longs = 0;
    }
}

// The category of a value's type (JVMS 2.11.1).
#[inline(always)]
pub(crate) fn category(value: &Value) -> usize
    ensures { result ≡ category value.now }
{
    match *value {
        Value::Long(_) => 2,
        _ => 1,
    }
}

/// Puts the next place where a value has its reference, if it has one, and takes it.
pub fn put_value(value: &mut Value, places: &mut Iter<'_, Place>)
    ensures value { value.new ≡ refill (iter_rest places.old) value.old }
    ensures left { iter_rest places.new ≡ drop (length (refs value.old)) (iter_rest places.old) }
{
    if let Value::Ref(_) = *value {
        if let Some(place) = places.next() {
            *value = Value::Ref(*place);
        }
    }
}

// Puts the next place where a local variable has its reference.
fn put_local(local: &mut Local, places: &mut Iter<'_, Place>)
    ensures value { local.new ≡ (option_shape value_shape).refill (iter_rest places.old) local.old }
    ensures left { iter_rest places.new ≡ drop (length ((option_shape value_shape).refs local.old)) (iter_rest places.old) }
{
    if let Some(mut value) = local.value() {
        put_value(&mut value, places);
        *local = Local::of(Some(value));
    }
}

// Puts the next places where local variables have references.
fn put_locals(locals: &mut [Local], places: &mut Iter<'_, Place>)
    ensures values { locals.new ≡ locals_shape.refill (iter_rest places.old) locals.old }
    ensures left { iter_rest places.new ≡ drop (length (locals_shape.refs locals.old)) (iter_rest places.old) }
{
    for local in locals.iter_mut() {
        put_local(local, places);
    }
}

// Puts the next places where operands have references, from the top, which is the last.
fn put_operands(operands: &mut [Value], places: &mut Iter<'_, Place>)
    ensures values { reverse operands.new ≡ stack_shape.refill (iter_rest places.old) (reverse operands.old) }
    ensures left { iter_rest places.new ≡ drop (length (stack_shape.refs (reverse operands.old))) (iter_rest places.old) }
{
    let count = operands.len();
    for depth in 0..count {
        put_value(&mut operands[count - 1 - depth], places);
    }
}

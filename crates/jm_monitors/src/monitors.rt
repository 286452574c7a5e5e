// The monitors that are held, by their objects' serials.

ghost use Rattle.std.specs.Prelude.{◌≡◌, [], Some, None, IfSome, IfOk, OnOk, OnErr, IsTrue, false, drop, length, option_map, if◌then◌else◌};
ghost use Rattle.std.specs.Slice.Iter.{iter_rest};
ghost use Rattle.jm_values.specs.Shape.{list_shape};
ghost use Rattle.jm_world.specs.Monitors.{monitor_in, left_in};
ghost use Rattle.jm_monitors.specs.HeldMonitors.{AreHeld, IsCount, monitors_of, held_shape, held_in, with_held, without_held, recounted_held, held_after_enter, held_after_exit, EntersAs};
ghost use Rattle.jm_monitors.specs.Entries.{held_at};

use crate::entering::Entering;
use crate::held::Held;
use crate::places::{Places, beyond, put_next};
use jm_values::Place;
use std::alloc::{AllocError, Global};
use std::collections::BTreeMap;
use std::marker::Model;
use std::slice::Iter;

// The highest count of entries.
const MAX_COUNT: u32 = 0x7FFF_FFFF;

/// The monitors that threads hold (JVMS 2.11.10), by the serials of their objects. To look one up, to
/// enter and to exit take time logarithmic in how many are held, and to go over all places, or to put
/// them back, linear time.
pub struct Monitors {
    held: BTreeMap<u64, Held>,
}

// Written out, so that whoever lets go of one makes a call (docs/DECISIONS.md).
impl Drop for Monitors {
    fn drop(self) {
        let Monitors { held: _ } = self;
    }
}

impl Model for Monitors {
    ghost use Rattle.std.specs.Prelude.{List};
    ghost use Rattle.jm_monitors.specs.HeldMonitors.{HeldMonitor, AreHeld};
    ghost use Rattle.jm_monitors.specs.Entries.{held_of};

    ghost Value = { List HeldMonitor };

    ghost view = { λ m. held_of m.held.entries };

    ghost invariant = { λ m. AreHeld (held_of m.held.entries) };
}

impl Monitors {
    /// No monitor is held.
    pub fn new(alloc: Global) -> Monitors
        ensures { result ≡ [] }
    {
        Monitors {
            held: BTreeMap::new(alloc),
        }
    }

    /// How many monitors are held. They stand in the order of their serials, and each count is from 1
    /// to 2^31 - 1.
    pub fn len(&self) -> usize
        ensures len { result ≡ length self.now }
        ensures held { AreHeld self.now }
    {
        self.held.len()
    }

    /// The monitor of the object of a serial, if a thread holds it.
    pub fn get(&self, serial: u64) -> Option<Held>
        ensures held { option_map (held_at serial) result ≡ held_in self.now serial }
        ensures counted { IfSome result (λ held. IsCount held.count) }
    {
        self.held.get(&serial).copied()
    }

    /// The number of the thread that owns the monitor of the object of a serial, if one does.
    pub fn owner(&self, serial: u64) -> Option<u64>
        ensures { result ≡ option_map (λ m. m.owner) (monitor_in (monitors_of self.now) serial) }
    {
        match self.get(serial) {
            Some(held) => Some(held.owner),
            None => None,
        }
    }

    /// A thread enters the monitor of the object of a serial, which lies at a place (JVMS 6.5
    /// monitorenter): one that no thread holds, with a count of 1, or its own once more. `Blocked`:
    /// another thread owns it, and `CountEnds`: it would be entered more than 2^31 - 1 times; nothing
    /// has changed then. `AllocError`: no thread holds it, the growth was refused, and nothing has
    /// changed.
    pub fn enter(&mut self, serial: u64, place: Place, thread: u64) -> Result<Entering, AllocError>
        ensures entered { IfOk result (λ answer. (answer, self.new)
            ≡ held_after_enter self.old serial place thread (held_in self.old serial)) }
        ensures model { IfOk result (λ answer. EntersAs answer serial thread self.old self.new) }
        ensures refused { OnErr result ((held_in self.old serial ≡ None) × (self.new ≡ self.old)) }
    {
        let Some(held) = self.get(serial) else {
            self.add(
                serial,
                Held {
                    place,
                    owner: thread,
                    count: 1,
                },
            )?;
            return Ok(Entering::Entered);
        };
        if held.owner != thread {
            return Ok(Entering::Blocked);
        }
        if held.count >= MAX_COUNT {
            return Ok(Entering::CountEnds);
        }
        self.recount(serial, held.count + 1);
        Ok(Entering::Entered)
    }

    /// A thread leaves the monitor of the object of a serial (JVMS 6.5 monitorexit): its count is one
    /// lower, and after the last exit no thread holds it. False: the thread does not own it, and
    /// nothing has changed.
    pub fn exit(&mut self, serial: u64, thread: u64) -> bool
        ensures left { IsTrue result → held_after_exit self.old serial thread (held_in self.old serial) ≡ Some self.new }
        ensures not_owned { result ≡ false
            → (held_after_exit self.old serial thread (held_in self.old serial) ≡ None) × (self.new ≡ self.old) }
        ensures model { left_in (monitors_of self.old) thread serial (monitor_in (monitors_of self.old) serial)
            ≡ (if result then Some (monitors_of self.new) else None) }
    {
        let Some(held) = self.get(serial) else {
            return false;
        };
        if held.owner != thread {
            return false;
        }
        if held.count > 1 {
            self.recount(serial, held.count - 1);
        } else {
            self.take(serial);
        }
        true
    }

    /// The places of the objects of the monitors that are held, in the order of the serials: roots for
    /// a collector.
    pub fn places(&self) -> Places<'_>
        ensures { result ≡ (list_shape held_shape).refs self.now }
    {
        Places::new(self.held.values())
    }

    /// Puts the next places where the objects lie, in the same order: after a collection, which has
    /// moved them. What is held stays, and its objects beyond the last place stay where they are. It
    /// takes no memory.
    pub fn put_places(&mut self, places: &mut Iter<'_, Place>)
        ensures monitors { self.new ≡ (list_shape held_shape).refill (iter_rest places.old) self.old }
        ensures left { iter_rest places.new ≡ drop (length ((list_shape held_shape).refs self.old)) (iter_rest places.old) }
    {
        let all = places.as_slice();
        let count = self.held.len();
        let mut moved = all.iter();
        self.held.retain(move |_, held| {
            put_next(held, &mut moved);
            true
        });
        *places = beyond(all, count).iter();
    }

    // Adds one that no thread holds. `AllocError`: the growth was refused, and nothing has changed.
    fn add(&mut self, serial: u64, held: Held) -> Result<(), AllocError>
        requires absent { held_in self.old serial ≡ None }
        requires counted { IsCount held.count }
        ensures ok { OnOk result (self.new ≡ with_held self.old (held_at serial held)) }
        ensures err { OnErr result (self.new ≡ self.old) }
    {
        self.held.insert(serial, held)?;
        Ok(())
    }

    // Gives another count to the monitor of the object of a serial, if a thread holds it.
    fn recount(&mut self, serial: u64, count: u32)
        requires { IsCount count }
        ensures { self.new ≡ recounted_held self.old serial count }
    {
        let Some(held) = self.held.get_mut(&serial) else {
            return;
        };
        held.count = count;
    }

    // Takes the monitor of the object of a serial away.
    fn take(&mut self, serial: u64)
        ensures { self.new ≡ without_held self.old serial }
    {
        self.held.remove(&serial);
    }
}

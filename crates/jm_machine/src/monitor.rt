// Monitors as readers tell them.

ghost use Rattle.std.specs.Prelude.{◌≡◌, IfOk, map};
ghost use Rattle.jm_values.specs.Shape.{list_shape};
ghost use Rattle.jm_values.specs.Content.{AllResident};
ghost use Rattle.jm_monitors.specs.HeldMonitors.{held_shape, monitors_of};
ghost use Rattle.jm_machine.specs.Held.{AreNamed};
ghost use Rattle.jm_machine.specs.Readers.{model_monitor};

use jm_heap::Heap;
use jm_monitors::Monitors;
use std::alloc::{AllocError, Global};

/// A monitor that a thread holds (JVMS 2.11.10).
#[derive(Clone, Copy)]
pub struct WorldMonitor {
    /// The number of the object.
    pub object: u64,
    /// The number of the thread.
    pub owner: u64,
    /// How often the thread has entered it and not left it yet.
    pub count: u32,
}

// The monitors that are held, whose objects lie in the heap, in the order of their serials.
pub(crate) fn world_monitors<H: Heap>(
    alloc: Global,
    heap: &H,
    monitors: &Monitors,
) -> Result<Vec<WorldMonitor>, AllocError>
    requires resident { AllResident (H.content heap.now) ((list_shape held_shape).refs monitors.now) }
    requires named { AreNamed (H.content heap.now) monitors.now }
    ensures { IfOk result (λ told. map model_monitor told.items ≡ monitors_of monitors.now) }
{
    let mut told = Vec::with_capacity(alloc, monitors.len())?;
    for place in monitors.places() {
        let object = heap.serial(place);
        let Some(held) = monitors.get(object) else {
            continue;
        };
        told.push(WorldMonitor {
            object,
            owner: held.owner,
            count: held.count,
        })?;
    }
    Ok(told)
}

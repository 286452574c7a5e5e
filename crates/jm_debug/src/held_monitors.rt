// The monitors that are held.

ghost use Rattle.std.specs.Prelude.{◌≡◌, ◌++◌, OnOk, Some, map};
ghost use Rattle.std.specs.List.{flat_map};
ghost use Rattle.jm_world.specs.World.{World};
ghost use Rattle.jm_machine.specs.Readers.{model_monitor};
ghost use Rattle.jm_machine.specs.View.{MatchesWorld};
ghost use Rattle.jm_debug.specs.Views.{monitor_text, monitor_lines};
ghost use Rattle.jm_debug.specs.Session.{ended, Shows};

use crate::answer::or_none;
use crate::fault::DebugFault;
use jm_heap::Heap;
use jm_machine::{Machine, WorldMonitor};
use std::alloc::{AllocError, Global};
use std::fmt::Write;

/// Writes a line of each monitor. `AllocError`: a growth was refused; some of them may stand there then.
#[tactic(auto, unfolding(crate::specs::Views::monitor_text, crate::specs::Texts::reference_text))]
pub fn write_monitors(out: &mut String, monitors: &[WorldMonitor]) -> Result<(), AllocError>
    ensures { OnOk result (out.new.bytes.items ≡ out.old.bytes.items ++ flat_map ended (map monitor_text (map model_monitor monitors.now))) }
{
    for monitor in monitors {
        let object = monitor.object;
        let owner = monitor.owner;
        let count = monitor.count;
        write!(out, "#{object} t{owner} x{count}\n")?;
    }
    Ok(())
}

/// The monitors that are held, by the numbers of their objects. `OutOfMemory`: a growth was refused.
pub fn monitors<H: Heap>(alloc: Global, machine: &Machine<H>) -> Result<String, DebugFault>
    ensures { (w : World) → MatchesWorld machine.now w → Shows (λ t. t.bytes.items) result (Some (monitor_lines w)) }
{
    let monitors = machine.monitors()?;
    let mut out = String::new(alloc);
    write_monitors(&mut out, &monitors)?;
    Ok(or_none(out)?)
}

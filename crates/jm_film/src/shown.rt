// What a film shows of a machine.

ghost use Rattle.std.specs.Prelude.{◌≡◌, IfOk};
ghost use Rattle.jm_world.specs.World.{World};
ghost use Rattle.jm_machine.specs.View.{MatchesWorld};
ghost use Rattle.jm_film.specs.Shown.{view};

use crate::objects::{put_heap, put_monitors};
use crate::statics::put_statics;
use crate::threads::put_threads;
use jm_heap::Heap;
use jm_machine::Machine;
use jm_page::Section;
use std::alloc::{AllocError, Global};

/// What a film shows of a machine some of whose threads were blocked at their last event: where each
/// thread stands, its local variables and operands, what it waits for, and how it has ended; the monitors
/// that are held; static fields; and all that is reachable. `AllocError`: a growth was refused. It looks
/// at each reachable object once.
pub fn view<H: Heap>(
    alloc: Global,
    machine: &Machine<H>,
    waiting: &[u64],
) -> Result<Vec<Section>, AllocError>
    ensures { (w : World) → MatchesWorld machine.now w → IfOk result (λ sections. sections.items ≡ view w waiting.now) }
{
    let mut sections = Vec::new(alloc);
    put_threads(alloc, &mut sections, machine, waiting)?;
    put_monitors(alloc, &mut sections, machine)?;
    put_statics(alloc, &mut sections, machine)?;
    put_heap(alloc, &mut sections, machine)?;
    Ok(sections)
}

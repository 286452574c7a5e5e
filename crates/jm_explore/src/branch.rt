// Alternatives that are still to be tried.

ghost use Rattle.std.specs.Prelude.{◌≡◌, ◌≢◌, ◌⊎◌, IfOk, IsFalse, IsTrue, false, true};
ghost use Rattle.jm_machine.specs.Threads.{is_live};
ghost use Rattle.jm_machine.specs.View.{MatchesWorld};
ghost use Rattle.jm_world.specs.World.{World};
ghost use Rattle.jm_explore.specs.Branches.{Adds, Offered};

use jm_heap::Heap;
use jm_machine::{Machine, OutOfMemory};

/// A way to leave the schedule that is tried: behind so many of its events comes one of this thread,
/// and then so many switches are left.
#[derive(Clone, Copy, Drop)]
pub struct Branch {
    pub behind: usize,
    pub thread: u64,
    pub left: usize,
}

// Whether a thread is live and not the one that is skipped.
fn is_offered<H: Heap>(machine: &Machine<H>, thread: u64, skipped: u64) -> bool
    ensures other { IsTrue result → thread ≢ skipped }
    ensures live { (w : World) → MatchesWorld machine.now w → IsTrue result → is_live w thread ≡ true }
    ensures none { (w : World) → MatchesWorld machine.now w → IsFalse result → (thread ≡ skipped) ⊎ (is_live w thread ≡ false) }
{
    thread != skipped && machine.is_live(thread)
}

// Adds a branch for each live thread above a number, but for one.
pub(crate) fn push_live<H: Heap>(
    machine: &Machine<H>,
    todo: &mut Vec<Branch>,
    behind: usize,
    above: usize,
    skipped: u64,
    left: usize,
) -> Result<(), OutOfMemory>
    ensures { (w : World) → MatchesWorld machine.now w → IfOk result (λ _. Adds behind left skipped (Offered w above skipped) todo.old.items todo.new.items) }
{
    for index in above..machine.threads() {
        let thread = index as u64 + 1;
        if !is_offered(machine, thread, skipped) {
            continue;
        }
        let branch = Branch {
            behind,
            thread,
            left,
        };
        let Ok(()) = todo.push(branch) else {
            return Err(OutOfMemory);
        };
    }
    Ok(())
}

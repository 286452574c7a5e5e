// The threads of a pass over the thread numbers.

ghost use Rattle.std.specs.Prelude.{◌≡◌, ◌+◌, ℕ, List, length, IfOk, OnOk};
ghost use Rattle.jm_world.specs.World.{World};
ghost use Rattle.jm_machine.specs.View.{MatchesWorld};
ghost use Rattle.jm_events.specs.Passes.{Finds, Knows};

use jm_heap::Heap;
use jm_machine::Machine;
use std::alloc::{AllocError, Global};
use std::collections::VecDeque;

/// Threads by their numbers, all that are live among them. One that has ended is left out where it would have its turn,
/// so that nobody asks for it again.
#[derive(Drop)]
pub struct Pass {
    /// Those whose turn may come, rising.
    pub ahead: VecDeque<u64>,
    /// Those whose turn is over, rising.
    pub behind: VecDeque<u64>,
    /// How many threads were listed so far.
    pub known: u64,
}

impl Pass {
    /// The first pass, of threads that are not yet known.
    pub fn new(alloc: Global) -> Pass
        ensures { (w : World) → Knows result 0 w }
    {
        Pass {
            ahead: VecDeque::new(alloc),
            behind: VecDeque::new(alloc),
            known: 0,
        }
    }

    /// Lists the threads up to a number. `AllocError`: a growth was refused.
    pub fn list(&mut self, threads: u64) -> Result<(), AllocError>
        ensures { (w : World) (passed : ℕ) → threads ≡ length w.threads → Knows self.old passed w
            → OnOk result (Knows self.new passed w × (self.new.known ≡ length w.threads)) }
    {
        while self.known < threads {
            self.ahead.push_back(self.known + 1)?;
            self.known += 1;
        }
        Ok(())
    }

    /// The first live thread behind a number, which is then the first one ahead. `AllocError`: a growth was refused.
    pub fn first_behind<H: Heap>(
        &mut self,
        machine: &Machine<H>,
        passed: u64,
    ) -> Result<Option<u64>, AllocError>
        ensures { (w : World) → MatchesWorld machine.now w → Knows self.old passed w → self.old.known ≡ length w.threads
            → IfOk result (λ found. Finds w passed self.new found × (self.new.known ≡ length w.threads)) }
    {
        while let Some(thread) = self.ahead.front().copied() {
            if thread <= passed {
                self.behind.push_back(thread)?;
                let _passed = self.ahead.pop_front();
            } else if machine.is_live(thread) {
                return Ok(Some(thread));
            } else {
                let _ended = self.ahead.pop_front();
            }
        }
        Ok(None)
    }
}

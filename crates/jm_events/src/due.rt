// The events of a run, one after the other.

ghost use Rattle.std.specs.Prelude.{◌≡◌, [], ℕ, Bool, List, IfOk, MatchOption};
ghost use Rattle.jm_world.specs.World.{World};
ghost use Rattle.jm_world.specs.declared.event.Event.{Event};
ghost use Rattle.jm_machine.specs.View.{MatchesWorld};
ghost use Rattle.jm_events.specs.Due.{IsNext};

use jm_heap::Heap;
use jm_machine::Machine;
use jm_world::Event;
use std::alloc::AllocError;

/// The next event of a run, and how often it may be made at once.
#[derive(Clone, Copy)]
pub struct DueEvent {
    pub event: Event,
    /// How often it is due in a row at most, this time counted, while it is a step and each one is done, and makes and
    /// ends no thread. At least 1.
    pub most: u32,
}

/// The events of a run, one after the other: which are due is known from the world in which they begin, and behind an
/// event from whether it was blocked.
pub trait EventsDue {
    ghost due: { Self → World → List Event };

    // What is kept of the threads of a world is so.
    ghost knows: { Self → World → Type 0 };

    ghost seen: { Self → Bool → Self };

    // With one event more behind so many that were done, and made and ended no thread.
    ghost behind: { Self → ℕ → Self };

    /// The next event that is due in the world of a machine, if there is one. It is to be made next, once or some times,
    /// and then seen. `AllocError`: a growth was refused.
    fn next<H: Heap>(&mut self, machine: &Machine<H>) -> Result<Option<DueEvent>, AllocError>
        ensures { (w : World) → MatchesWorld machine.now w → knows self.old w → IfOk result (λ next. MatchOption next
            ((due self.old w ≡ []) × (due self.new w ≡ []) × knows self.new w) (λ d. IsNext due knows seen behind self.old w d self.new)) };

    /// Sees whether that event was blocked.
    fn see(&mut self, blocked: bool)
        ensures { self.new ≡ seen self.old blocked };

    /// Sees that the event was made so many times, each of them done, and made and ended no thread, and that it is made
    /// once more, which is to be seen next.
    fn see_alike(&mut self, count: u32)
        ensures { self.new ≡ behind self.old count };
}

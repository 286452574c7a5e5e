// The round robin, by its two numbers.

ghost use Rattle.std.specs.Prelude.{◌≡◌, ◌≤◌};

/// The largest number of events that a round robin may be limited to.
pub const MAX_STEPS: u32 = 10_000_000;

/// The largest number of events of a turn.
pub const MAX_QUANTUM: u32 = 1_000_000;

/// The events that are made where no schedule says which: pass after pass over the thread numbers, in
/// rising order, each thread that has not ended makes up to a quantum of steps, fewer if one is
/// blocked or the thread ends; a thread that is made in a pass takes part in it. No event is made
/// once all threads have ended, after a stop, after so many steps, or after a pass in which every
/// event was blocked. Which events these are in a world is said in the world's definitions of the
/// round robin.
#[derive(Clone, Copy)]
pub struct RoundRobin {
    /// The most events, from 1 to [`MAX_STEPS`].
    pub steps: u32,
    /// The most events of a turn, from 1 to [`MAX_QUANTUM`].
    pub quantum: u32,
    ghost some_steps: { 1 ≤ steps },
    ghost few_steps: { steps ≤ 10000000 },
    ghost some_quantum: { 1 ≤ quantum },
    ghost small_quantum: { quantum ≤ 1000000 },
}

/// The round robin of at most so many steps, a quantum of them to each turn.
pub fn round_robin(steps: u32, quantum: u32) -> RoundRobin
    requires some_steps { 1 ≤ steps }
    requires few_steps { steps ≤ MAX_STEPS }
    requires some_quantum { 1 ≤ quantum }
    requires small_quantum { quantum ≤ MAX_QUANTUM }
    ensures steps { result.steps ≡ steps }
    ensures quantum { result.quantum ≡ quantum }
{
    RoundRobin { steps, quantum }
}

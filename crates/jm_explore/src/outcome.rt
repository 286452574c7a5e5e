// What schedules come to.

ghost use Rattle.std.specs.Prelude.{◌≡◌, ◌≢◌, ◌++◌, IfOk, IsFalse, IsTrue, map};
ghost use Rattle.jm_machine.specs.Threads.{class_ended_by};
ghost use Rattle.jm_machine.specs.View.{MatchesWorld};
ghost use Rattle.jm_world.specs.World.{World, thread_at};
ghost use Rattle.jm_explore.specs.Outcomes.{end_of, how_ended, thrown_by, thrown_from, thrown_of, told_end};

use jm_heap::Heap;
use jm_machine::{Machine, OutOfMemory};
use jm_world::Stop;
use std::alloc::Global;

/// How a schedule ended.
#[derive(Clone, Copy, PartialEq, Eq)]
pub enum HowEnded {
    /// All threads have ended.
    Ended,
    /// The machine has stopped.
    Stopped(Stop),
    /// So many threads have not ended, and none of them can go.
    Deadlock(usize),
    /// As many steps were made as may be, and a thread has not ended.
    Cut,
}

/// A thread that an exception has ended.
#[derive(Drop)]
pub struct EndedBy {
    /// Its number, from 1.
    pub thread: u64,
    /// The name of the exception's class, in UTF-16 code units.
    pub class: Vec<u16>,
}

/// What a schedule comes to. All schedules that were cut come to one outcome, which has no output.
#[derive(Drop)]
pub struct Outcome {
    pub how: HowEnded,
    /// The bytes that the program has printed.
    pub output: Vec<u8>,
    /// The threads that an exception has ended, in the order of their numbers.
    pub ended_by: Vec<EndedBy>,
}

// How a schedule ended, which was cut or not if so many threads have not ended.
fn how_ended(stop: Option<Stop>, live: usize, cut: bool) -> HowEnded
    ensures { result ≡ how_ended stop live cut }
{
    match stop {
        Some(stop) => HowEnded::Stopped(stop),
        None if live == 0 => HowEnded::Ended,
        None if cut => HowEnded::Cut,
        None => HowEnded::Deadlock(live),
    }
}

pub(crate) fn copied<T: Copy>(alloc: Global, items: &[T]) -> Result<Vec<T>, OutOfMemory>
    ensures { IfOk result (λ copy. copy.items ≡ items.now) }
{
    let mut copy = Vec::new(alloc);
    let Ok(()) = copy.extend_from_slice(items) else {
        return Err(OutOfMemory);
    };
    Ok(copy)
}

// Adds the thread of a number, if an exception has ended it.
fn push_ended<H: Heap>(
    alloc: Global,
    machine: &Machine<H>,
    ended: &mut Vec<EndedBy>,
    thread: u64,
) -> Result<(), OutOfMemory>
    ensures { (w : World) → MatchesWorld machine.now w → IfOk result (λ _. map thrown_of ended.new.items ≡ map thrown_of ended.old.items ++ thrown_by thread (class_ended_by (thread_at w thread))) }
{
    let Some(name) = machine.ended_by(thread) else {
        return Ok(());
    };
    let class = copied(alloc, name)?;
    let Ok(()) = ended.push(EndedBy { thread, class }) else {
        return Err(OutOfMemory);
    };
    Ok(())
}

// The threads that an exception has ended, in the order of their numbers.
fn ended_threads<H: Heap>(alloc: Global, machine: &Machine<H>) -> Result<Vec<EndedBy>, OutOfMemory>
    ensures { (w : World) → MatchesWorld machine.now w → IfOk result (λ ended. map thrown_of ended.items ≡ thrown_from 1 w.threads) }
{
    let mut ended = Vec::new(alloc);
    for index in 0..machine.threads() {
        push_ended(alloc, machine, &mut ended, index as u64 + 1)?;
    }
    Ok(ended)
}

// What a machine has come to, where as many steps as may be were made or not. `OutOfMemory`: a growth
// was refused.
pub(crate) fn end_of<H: Heap>(
    alloc: Global,
    machine: &Machine<H>,
    cut: bool,
) -> Result<Outcome, OutOfMemory>
    ensures { (w : World) → MatchesWorld machine.now w → IfOk result (λ outcome. told_end outcome ≡ end_of w cut) }
{
    let how = how_ended(machine.stop(), machine.live(), cut);
    if let HowEnded::Cut = how {
        return Ok(Outcome {
            how,
            output: Vec::new(alloc),
            ended_by: Vec::new(alloc),
        });
    }
    let output = copied(alloc, machine.output())?;
    let ended_by = ended_threads(alloc, machine)?;
    Ok(Outcome {
        how,
        output,
        ended_by,
    })
}

// Whether two exceptions have ended one thread, and are of one class.
fn is_same_end(one: &EndedBy, other: &EndedBy) -> bool
    ensures same { IsTrue result → thrown_of one.now ≡ thrown_of other.now }
    ensures other { IsFalse result → thrown_of one.now ≢ thrown_of other.now }
{
    one.thread == other.thread && one.class.as_slice() == other.class.as_slice()
}

fn are_same_ends(some: &[EndedBy], others: &[EndedBy]) -> bool
    ensures same { IsTrue result → map thrown_of some.now ≡ map thrown_of others.now }
    ensures other { IsFalse result → map thrown_of some.now ≢ map thrown_of others.now }
{
    if some.len() != others.len() {
        return false;
    }
    for (index, one) in some.iter().enumerate() {
        if !is_same_end(one, &others[index]) {
            return false;
        }
    }
    true
}

/// Whether two outcomes are one.
pub(crate) fn is_same(one: &Outcome, other: &Outcome) -> bool
    ensures same { IsTrue result → told_end one.now ≡ told_end other.now }
    ensures other { IsFalse result → told_end one.now ≢ told_end other.now }
{
    one.how == other.how
        && one.output.as_slice() == other.output.as_slice()
        && are_same_ends(&one.ended_by, &other.ended_by)
}

// A machine that two workers share, each in a thread of its own.

ghost use Rattle.std.specs.Prelude.{◌≡◌};
ghost use Rattle.jm_machine.specs.View.{MatchesWorld};
ghost use Rattle.jm_premises.specs.Beginning.{beginning};

use crate::gates::CountingGate;
use crate::machines::{CELLS, machine_over};
use anyhow::bail;
use jm_heap::{Heap, PlainHeap};
use jm_machine::Machine;
use jm_shared::{Journal, OutOfMemory, Seat, SeatTable, SharedMachine, Sharing, drive};
use jm_world::Event;
use std::alloc::Global;
use std::marker::Brand;
use std::sync::Wait;
use std::sync::atomic::{AtomicU64, Ordering};
use std::thread;
use std::thread::Threads;

const WORKERS: u8 = 2;

// How many turns the workers make by hand, three each.
const BY_HAND: u64 = 6;

// The most turns of a worker behind the gate.
const STEPS: u32 = 1000;

/// What a run by workers comes to.
#[derive(Clone, Copy)]
pub struct Worked {
    pub printed: usize,
    /// Whether each turn but those by hand was made behind the gate.
    pub is_each_gated: bool,
    /// Whether the journal, run again on one thread, printed the same.
    pub is_same_again: bool,
}

// Makes the first turns of a seat: a step of the main thread, and two more in one hold of the lock.
fn make_turns<H: Heap, S: Sharing, W: Wait>(
    wait: &W,
    machine: &SharedMachine<H, S>,
    seat: &mut Seat<S>,
) -> Result<(), OutOfMemory> {
    machine.turn(wait, seat, Event::Step(1))?;
    machine.turns(wait, seat, 1, 2);
    Ok(())
}

// Each seat makes its first turns in a thread of its own.
fn work<H: Heap + Send, S: Sharing + Send + Sync, R: Threads + Wait + Sync>(
    rt: &R,
    machine: &SharedMachine<H, S>,
    seats: &mut Vec<Seat<S>>,
) {
    thread::for_each_mut(
        rt,
        seats.as_mut_slice(),
        usize::from(WORKERS),
        &|_number: usize, seat: &mut Seat<S>| {
            let _made = make_turns(rt, machine, seat);
        },
    );
}

// What a journal tells, whose turns passed a gate so often, and what running it again does.
fn told<H: Heap, S: Sharing>(
    alloc: Global,
    journal: &Journal<H, S>,
    passed: u64,
    again: &mut Machine<H>,
) -> anyhow::Result<Worked> {
    let turns = journal.events(alloc)?.len();
    journal.run_again(alloc, again)?;
    let output = journal.machine().output();
    Ok(Worked {
        printed: output.len(),
        is_each_gated: turns as u64 == passed.saturating_add(BY_HAND),
        is_same_again: again.output() == output,
    })
}

// The seats go on behind a gate until no thread is live, and are given back.
fn go_on<H: Heap + Drop + Send, S: Sharing + Send + Sync, R: Threads + Wait + Sync>(
    rt: &R,
    alloc: Global,
    machine: SharedMachine<H, S>,
    seats: Vec<Seat<S>>,
    again: &mut Machine<H>,
) -> anyhow::Result<Worked> {
    let passed = AtomicU64::new(0);
    let gate = CountingGate { passed: &passed };
    match drive(rt, alloc, machine, seats, STEPS, &gate) {
        Ok(driven) => {
            let worked = told(alloc, &driven.journal, passed.load(Ordering::SeqCst), again);
            drop(driven);
            worked
        }
        Err(missing) => {
            drop(missing);
            bail!("a seat is missing")
        }
    }
}

// Shares a machine by the seats of a table.
fn share<H: Heap + Drop + Send, S: Sharing + Send + Sync, R: Threads + Wait + Sync>(
    rt: &R,
    alloc: Global,
    machine: Machine<H>,
    table: SeatTable,
    again: &mut Machine<H>,
) -> anyhow::Result<Worked>
    requires table { (table.table ≡ S.table) × (table.seats ≡ S.seats) }
    requires first { MatchesWorld machine S.first }
{
    match SharedMachine::<H, S>::new(alloc, machine, table) {
        Ok((shared, mut seats)) => {
            work(rt, &shared, &mut seats);
            go_on(rt, alloc, shared, seats, again)
        }
        Err(fault) => bail!("{fault}"),
    }
}

// Shares a machine that has made no event by two seats.
fn share_by_two<H: Heap + Drop + Send, R: Threads + Wait + Sync>(
    rt: &R,
    alloc: Global,
    machine: Machine<H>,
    again: &mut Machine<H>,
) -> anyhow::Result<Worked>
    requires { MatchesWorld machine (beginning machine) }
{
    match SeatTable::new(alloc, WORKERS) {
        Ok(table) => share::<H, Brand, R>(rt, alloc, machine, table, again),
        Err(fault) => {
            drop(machine);
            bail!("{fault}")
        }
    }
}

/// Runs by two workers over one plain heap, and runs their journal again over another.
pub fn run_by_two<R: Threads + Wait + Sync>(rt: &R, alloc: Global) -> anyhow::Result<Worked> {
    let mut again = machine_over(alloc, PlainHeap::new(alloc, CELLS))?;
    let worked = match machine_over(alloc, PlainHeap::new(alloc, CELLS)) {
        Ok(machine) => share_by_two(rt, alloc, machine, &mut again),
        Err(fault) => Err(fault),
    };
    drop(again);
    worked
}

//! What a program of one's own may put in the place of parts of `jm`: another heap, a collector with a gate, workers
//! that make turns by hand and behind a gate, and the calls below a collector of several copiers.
//!
//! Most calls here have a premise (`requires`). That this program is proved shows that each of these can be met at such
//! parts, where `jm` and `jm_embedding` show it of their own alone. What it prints is the same whatever its threads do.
#![tactic(auto)]

mod claims;
mod collector;
mod copiers;
mod gates;
mod machines;
mod workers;

use claims::claim_by_two;
use collector::run_collected;
use copiers::{copy_by_two, put_young};
use jm_heap::PlainHeap;
use machines::{CELLS, machine_over, residents, run};
use std::alloc::Global;
use workers::run_by_two;

// What a run over the plain heap comes to: the objects before its first event, its events, and the bytes that it prints.
fn run_plain(alloc: Global) -> anyhow::Result<(usize, u64, usize)> {
    let mut machine = machine_over(alloc, PlainHeap::new(alloc, CELLS))?;
    let objects = residents(&machine)?;
    let events = run(&mut machine)?;
    Ok((objects, events, machine.output().len()))
}

fn main(rt: HostRuntime) -> anyhow::Result<()> {
    let alloc = rt.alloc();
    let (objects, events, printed) = run_plain(alloc)?;
    println!(rt; "plain heap: {objects} objects at first, {events} events, {printed} bytes")?;
    let collected = run_collected(&rt, alloc)?;
    println!(rt;
        "own collector: {} bytes, a gate passed before claims: {}",
        collected.printed, collected.has_claimed
    )?;
    let worked = run_by_two(&rt, alloc)?;
    println!(rt;
        "two workers: {} bytes, a gate passed before each turn of `drive`: {}, the same run again: {}",
        worked.printed, worked.is_each_gated, worked.is_same_again
    )?;
    let copied = copy_by_two(&rt, alloc)?;
    println!(rt;
        "two copiers: {} of 3 objects, {} claims, {} seats",
        copied.objects, copied.claims, copied.seats
    )?;
    let (first, second) = claim_by_two(alloc)?;
    println!(rt; "two claims: {first} and {second}")?;
    println!(rt; "one young object: {} cells", put_young(alloc)?)?;
    Ok(())
}

// A machine whose heap has a collector of one's own.

use crate::gates::CountingGate;
use crate::machines::{CELLS, machine_over, run};
use jm_blocks::BlockStore;
use jm_copy::{Collector, Refused, Survivors};
use jm_gen_heap::GenHeap;
use jm_heap::Heap;
use jm_machine::{Machine, OutOfMemory};
use jm_par_copy::ParallelCollector;
use jm_values::Place;
use jm_world::Event;
use std::alloc::Global;
use std::sync::atomic::{AtomicU64, Ordering};
use std::thread::Threads;

// Copiers that pass a gate before their claims. A collector of several copiers keeps to the trait only where nobody waits
// at its gate, so that of another gate stands in a type of one's own.
#[derive(Drop)]
struct GatedCopiers<'a, R> {
    copiers: ParallelCollector<R, CountingGate<'a>>,
}

impl<R: Threads> Collector for GatedCopiers<'_, R> {
    fn collect(
        &self,
        alloc: Global,
        condemned: Vec<BlockStore>,
        tenured: BlockStore,
        roots: &mut Vec<Place>,
    ) -> Result<Survivors, Refused> {
        self.copiers.collect(alloc, condemned, tenured, roots)
    }
}

/// What a run over such a heap comes to.
#[derive(Clone, Copy)]
pub struct Collected {
    pub printed: usize,
    pub has_claimed: bool,
}

// Collects all, makes all events, and answers how many bytes they print.
fn collect_and_run<H: Heap>(machine: &mut Machine<H>) -> Result<usize, OutOfMemory> {
    machine.step(Event::Full)?;
    run(machine)?;
    Ok(machine.output().len())
}

/// Runs over a heap that two copiers collect, which pass a gate before their claims.
pub fn run_collected<R: Threads>(rt: &R, alloc: Global) -> anyhow::Result<Collected> {
    let passed = AtomicU64::new(0);
    let gate = CountingGate { passed: &passed };
    let copiers = ParallelCollector::new(rt, gate, 2);
    let heap = GenHeap::new(alloc, CELLS, GatedCopiers { copiers })?;
    let mut machine = machine_over(alloc, heap)?;
    let printed = collect_and_run(&mut machine);
    drop(machine);
    Ok(Collected {
        printed: printed?,
        has_claimed: passed.load(Ordering::SeqCst) > 0,
    })
}

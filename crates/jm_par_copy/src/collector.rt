// The collector of several copiers.

ghost use Rattle.std.specs.Prelude.{◌≡◌, ◌≢◌, ◌<◌, ◌≤◌, ℕ, IfErr, IfOk, OnErr};
ghost use Rattle.jm_blocks.specs.Stores.{objects_in};
ghost use Rattle.jm_copy.specs.Collected.{IsCollected};
ghost use Rattle.jm_copy.specs.Condemned.{AreLanes};

use crate::copying::copy_with;
use crate::ending::Copied;
use crate::gate::{Gate, OpenGate};
use crate::round::Round;
use jm_blocks::{BlockStore, Position};
use jm_copy::{Collector, Refused, SerialCollector, Source, Survivors, number_all};
use jm_forward::Forwarding;
use jm_values::Place;
use std::alloc::{AllocError, Global};
use std::marker::Model;
use std::thread::Threads;

// There is a forwarding word for each of fewer objects than this.
const MAX_OBJECTS: usize = 1 << 32;

/// Copies what is reached by several copiers, from 1 to 16, each in a thread of its own, which pass a gate before each
/// claim.
#[derive(Drop)]
pub struct ParallelCollector<R, G> {
    runtime: R,
    gate: G,
    copiers: usize,
    ghost some: { 0 < copiers },
    ghost few: { copiers ≤ 16 },
}

/// Contracts see how many copiers it has.
impl<R, G> Model for ParallelCollector<R, G> {
    ghost use Rattle.std.specs.Prelude.{ℕ};

    ghost Value = { ℕ };

    ghost view = { λ collector. collector.copiers };
}

impl<R: Threads, G: Gate + Sync> ParallelCollector<R, G> {
    /// A collector of this number of copiers.
    pub fn new(runtime: R, gate: G, copiers: usize) -> ParallelCollector<R, G>
        requires some { 0 < copiers }
        requires few { copiers ≤ 16 }
        ensures { result ≡ copiers }
    {
        ParallelCollector {
            runtime,
            gate,
            copiers,
        }
    }

    // Copies what is reached, and puts what is promoted into the old store. Where a growth is refused, or there are
    // 2^32 condemned objects, the old store has the objects that it had.
    fn copy(
        &self,
        alloc: Global,
        condemned: &[BlockStore],
        tenured: &mut BlockStore,
        roots: &[Place],
    ) -> Result<Copied, AllocError>
        requires lanes { AreLanes condemned.now }
        requires apart { tenured.old.lane ≢ 1 }
        ensures ok { IfOk result (λ r. IsCollected condemned.now tenured.old roots.now r.young tenured.new r.remembered.items r.roots.items) }
        ensures err { OnErr result ((n : ℕ) → objects_in tenured.new n ≡ objects_in tenured.old n) }
    {
        let (numbers, count) = number_all(alloc, condemned)?;
        if count >= MAX_OBJECTS {
            return Err(AllocError);
        }
        let (words, mut seats) = Forwarding::new(alloc, count, self.copiers)?;
        let from = Source {
            stores: condemned,
            numbers: numbers.as_slice(),
            roots,
        };
        let round = Round {
            from,
            words: &words,
            gate: &self.gate,
        };
        copy_with(&self.runtime, alloc, &round, &mut seats, tenured)
    }

    // The survivors and the new roots, or the old store with what it had.
    fn survivors(
        &self,
        alloc: Global,
        condemned: &[BlockStore],
        mut tenured: BlockStore,
        roots: &[Place],
    ) -> Result<(Survivors, Vec<Place>), BlockStore>
        requires lanes { AreLanes condemned.now }
        requires apart { tenured.lane ≢ 1 }
        ensures ok { IfOk result (λ r. IsCollected condemned.now tenured roots.now r.0.young r.0.tenured r.0.remembered.items r.1.items) }
        ensures err { IfErr result (λ s. (n : ℕ) → objects_in s n ≡ objects_in tenured n) }
    {
        let Ok(copied) = self.copy(alloc, condemned, &mut tenured, roots) else {
            return Err(tenured);
        };
        let survivors = Survivors {
            young: copied.young,
            tenured,
            remembered: copied.remembered,
        };
        Ok((survivors, copied.roots))
    }

    /// Collects as the trait's call does, whatever the gate.
    pub fn collect(
        &self,
        alloc: Global,
        condemned: Vec<BlockStore>,
        tenured: BlockStore,
        roots: &mut Vec<Place>,
    ) -> Result<Survivors, Refused>
        requires lanes { AreLanes condemned.items }
        requires apart { tenured.lane ≢ 1 }
        ensures ok { IfOk result (λ s. IsCollected condemned.items tenured roots.old.items s.young s.tenured s.remembered.items roots.new.items) }
        ensures condemned { IfErr result (λ r. r.condemned.items ≡ condemned.items) }
        ensures tenured { IfErr result (λ r. (p : ℕ) → objects_in r.tenured p ≡ objects_in tenured p) }
        ensures roots { OnErr result (roots.new.items ≡ roots.old.items) }
    {
        match self.survivors(alloc, condemned.as_slice(), tenured, roots.as_slice()) {
            Ok((survivors, moved)) => {
                *roots = moved;
                Ok(survivors)
            }
            Err(tenured) => Err(Refused { condemned, tenured }),
        }
    }
}

// This number of cells is copied by one copier before threads have begun.
const FEW_CELLS: u64 = 65_536;

// At most this number of roots is looked at before.
const FEW_ROOTS: usize = 4_096;

// The cells of the condemned objects.
fn cells_of(condemned: &[BlockStore]) -> u64 {
    let mut cells = 0u64;
    for store in condemned {
        cells = cells.saturating_add(store.cells());
    }
    cells
}

// How many roots lie where condemned objects do.
fn roots_among(condemned: &[BlockStore], roots: &[Place]) -> usize {
    let lanes = condemned.len() as u64;
    let mut among = 0usize;
    for root in roots {
        if Position::of(*root).lane <= lanes {
            among = among.saturating_add(1);
        }
    }
    among
}

// Whether there is too little to do for threads.
fn is_small(condemned: &[BlockStore], roots: &[Place]) -> bool {
    cells_of(condemned) < FEW_CELLS && roots_among(condemned, roots) < FEW_ROOTS
}

// A trait's call does not know that a type parameter may be shared between threads, so the trait is kept to at the gate
// that nobody waits at. Where there is little to do one copier does it, as the serial collector.
impl<R: Threads> Collector for ParallelCollector<R, OpenGate> {
    fn collect(
        &self,
        alloc: Global,
        condemned: Vec<BlockStore>,
        tenured: BlockStore,
        roots: &mut Vec<Place>,
    ) -> Result<Survivors, Refused> {
        if is_small(condemned.as_slice(), roots.as_slice()) {
            return SerialCollector.collect(alloc, condemned, tenured, roots);
        }
        self.collect(alloc, condemned, tenured, roots)
    }
}

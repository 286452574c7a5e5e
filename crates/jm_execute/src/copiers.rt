// The collector of a job's heap.

ghost use Rattle.jm_execute.specs.JobCollectors.{IsCollectorOf};

use jm_blocks::BlockStore;
use jm_copy::{Collector, Refused, SerialCollector, Survivors};
use jm_job::Copiers;
use jm_par_copy::{OpenGate, ParallelCollector};
use jm_values::Place;
use std::alloc::Global;
use std::thread::Threads;

/// What collects the heap of a job. It is one type for every number of copiers, so that the program has
/// the code of the machine once, and the compiler can put into its loop what is called there alone.
#[derive(Drop)]
pub enum JobCollector<R> {
    /// One copier does, on the thread that asks.
    OneCopier,
    /// Several copiers do, side by side.
    SideBySide(ParallelCollector<R, OpenGate>),
}

impl<R: Threads> Collector for JobCollector<R> {
    fn collect(
        &self,
        alloc: Global,
        condemned: Vec<BlockStore>,
        tenured: BlockStore,
        roots: &mut Vec<Place>,
    ) -> Result<Survivors, Refused> {
        match self {
            JobCollector::OneCopier => SerialCollector.collect(alloc, condemned, tenured, roots),
            // The trait's call: it leaves to one copier what is too little for several.
            JobCollector::SideBySide(copiers) => {
                Collector::collect(copiers, alloc, condemned, tenured, roots)
            }
        }
    }
}

/// The collector of so many copiers.
pub(crate) fn job_collector<W: Threads>(rt: &W, copiers: Copiers) -> JobCollector<&W>
    ensures { IsCollectorOf copiers.count result }
{
    if copiers.count == 1 {
        return JobCollector::OneCopier;
    }
    let several = ParallelCollector::new(rt, OpenGate, usize::from(copiers.count));
    JobCollector::SideBySide(several)
}

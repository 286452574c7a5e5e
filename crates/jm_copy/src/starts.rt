// The numbers of condemned objects: in the order of lanes, then of blocks, then of objects in a block.

ghost use Rattle.std.specs.Prelude.{◌≡◌, ◌+◌, ◌*◌, ◌^◌, ◌<◌, ◌≤◌, length, slice_index, IfOk};
ghost use Rattle.jm_copy.specs.Numbers.{AreStarts, AreNumbers, lane_count, object_count};

use jm_blocks::BlockStore;
use std::alloc::{AllocError, Global};
use std::marker::Model;

/// For each block of a lane, how many condemned objects come before its own.
#[derive(Drop)]
pub struct Starts {
    starts: Vec<usize>,
}

impl Model for Starts {
    ghost use Rattle.std.specs.Prelude.{ℕ, List};

    ghost Value = { List ℕ };

    ghost view = { λ s. s.starts.items };
}

impl Starts {
    /// The starts of a lane's blocks, where so many objects come before the lane, and how many come
    /// before the next lane.
    pub fn of(
        alloc: Global,
        store: &BlockStore,
        first: usize,
    ) -> Result<(Starts, usize), AllocError>
        requires { first ≤ 63 * 2 ^ 57 }
        ensures starts { IfOk result (λ r. AreStarts first store.now r.0) }
        ensures count { IfOk result (λ r. r.1 ≡ first + lane_count store.now) }
        ensures few { IfOk result (λ r. r.1 ≤ first + 2 ^ 57) }
    {
        let blocks = store.len();
        let mut starts = Vec::with_capacity(alloc, blocks)?;
        let mut count = first;
        for number in 0..blocks {
            let block = store.block(number);
            starts.push_reserved(count);
            count += block.len();
        }
        Ok((Starts { starts }, count))
    }

    /// How many objects come before those of the block of this number.
    #[inline]
    pub fn get(&self, block: usize) -> usize
        requires { block < length self.now }
        ensures { result ≡ slice_index self.now block }
    {
        self.starts[block]
    }
}

/// The starts of all lanes, and how many objects there are in all.
pub fn number_all(alloc: Global, stores: &[BlockStore]) -> Result<(Vec<Starts>, usize), AllocError>
    requires { length stores.now ≤ 63 }
    ensures numbers { IfOk result (λ r. AreNumbers stores.now r.0.items) }
    ensures count { IfOk result (λ r. r.1 ≡ object_count stores.now) }
    ensures few { IfOk result (λ r. r.1 ≤ 63 * 2 ^ 57) }
{
    let mut numbers = Vec::with_capacity(alloc, stores.len())?;
    let mut count = 0;
    for store in stores {
        let (starts, after) = Starts::of(alloc, store, count)?;
        numbers.push_reserved(starts);
        count = after;
    }
    Ok((numbers, count))
}

// What a collector promises.

ghost use Rattle.std.specs.Prelude.{◌≡◌, ◌≢◌, ◌<◌, ℕ, IfOk, IfErr, OnErr};
ghost use Rattle.jm_blocks.specs.Stores.{objects_in};
ghost use Rattle.jm_copy.specs.Condemned.{AreLanes};
ghost use Rattle.jm_copy.specs.Collected.{IsCollected};

use jm_blocks::BlockStore;
use jm_values::Place;
use std::alloc::Global;

/// What a collection leaves of the condemned objects and the old store: the survivors that stay young,
/// the old store with those that were promoted, and the places of the promoted ones that point to young
/// ones, each once.
#[derive(Drop)]
pub struct Survivors {
    pub young: BlockStore,
    pub tenured: BlockStore,
    pub remembered: Vec<Place>,
}

/// What a collection hands back that was refused a growth: the condemned stores, as they were, and
/// the old store, with the objects that it had.
#[derive(Drop)]
pub struct Refused {
    pub condemned: Vec<BlockStore>,
    pub tenured: BlockStore,
}

/// Copies the objects that are reached out of stores that are given up.
pub trait Collector {
    /// Copies each condemned object that the roots reach through condemned ones: at its first survival
    /// into the store of the young, which has lane 1, at a later one into the old store, above all
    /// that lie there. A reference to a condemned object is renamed, in the copies and in the roots;
    /// all others stay. The condemned stores have the lanes 1, 2, .. in order, and the old store
    /// another lane than 1. Where a growth is refused, or a lane has 2^49 blocks, the condemned stores
    /// and the roots are as they were, and the old store has each object that it had, and no other.
    fn collect(
        &self,
        alloc: Global,
        condemned: Vec<BlockStore>,
        tenured: BlockStore,
        roots: &mut Vec<Place>,
    ) -> Result<Survivors, Refused>
        requires lanes { AreLanes condemned.items }
        requires apart { tenured.lane ≢ 1 }
        ensures ok { IfOk result (λ s. IsCollected condemned.items tenured roots.old.items s.young s.tenured s.remembered.items roots.new.items) }
        ensures condemned { IfErr result (λ r. r.condemned.items ≡ condemned.items) }
        ensures tenured { IfErr result (λ r. (p : ℕ) → objects_in r.tenured p ≡ objects_in tenured p) }
        ensures roots { OnErr result (roots.new.items ≡ roots.old.items) };
}

// A constant pool that is built (JVMS 4.4).

ghost use Rattle.std.specs.Prelude.{◌≡◌, ◌↔◌, ◌+◌, ◌≤◌, ◌∷◌, ◌++◌, true, List, [], length, None, IsTrue, IfOk, IfErr, OnOk, OnErr};
ghost use Rattle.indexmap.specs.IndexMap.{get};
ghost use Rattle.jm_class_format.specs.declared.constant_pool.Entry.{Entry};
ghost use Rattle.jm_pool.specs.Numbered.{same_constant};
ghost use Rattle.jm_pool.specs.Building.{places, index_among, fits_length, interned, pool_bytes, GivesIndex};
ghost use Rattle.jm_pool.specs.declared.builder_fault.BuilderFault.TheVariants.{OutOfMemory};

use crate::builder_fault::BuilderFault;
use crate::constant::Constant;
use indexmap::IndexMap;
use jm_bytes::put_u2;
use std::alloc::{AllocError, Global};
use std::marker::Model;

/// The largest index, since constant_pool_count is at most 65,535 (JVMS 4.1).
const LAST_INDEX: u16 = 65_534;

/// A constant pool that grows by one constant after the other (JVMS 4.4). In a contract it is the
/// list of its entries, from index 1 on, with an unusable one behind each long.
pub struct PoolBuilder {
    // Each constant once, in the order of the indexes, with its first index.
    indexes: IndexMap<Constant, u16>,
    taken: u16,
}

// Written out, so that whoever lets go of one makes a call (docs/DECISIONS.md).
impl Drop for PoolBuilder {
    fn drop(self) {
        let PoolBuilder {
            indexes: _,
            taken: _,
        } = self;
    }
}

impl Model for PoolBuilder {
    ghost use Rattle.std.specs.Prelude.{List};
    ghost use Rattle.indexmap.specs.IndexMap.{keys};
    ghost use Rattle.jm_class_format.specs.declared.constant_pool.Entry.{Entry};
    ghost use Rattle.jm_pool.specs.Numbered.{entries_of, IsPool};

    ghost Value = { List Entry };

    ghost view = { λ b. entries_of (keys b.indexes) };

    ghost invariant = { λ b. IsPool b.indexes.entries b.taken };
}

// The index that is held for a constant.
fn index_held(indexes: &IndexMap<Constant, u16>, constant: &Constant) -> Option<u16>
    ensures { result ≡ get same_constant indexes.now constant.now }
{
    indexes.get(constant).copied()
}

// Holds the index of a constant that has none.
fn hold(
    indexes: &mut IndexMap<Constant, u16>,
    constant: Constant,
    index: u16,
) -> Result<(), BuilderFault>
    requires { get same_constant indexes.old constant ≡ None }
    ensures ok { OnOk result (indexes.new.entries ≡ indexes.old.entries ++ (constant, index) ∷ []) }
    ensures err { OnErr result (indexes.new.entries ≡ indexes.old.entries) }
    ensures memory { IfErr result (λ e. e ≡ OutOfMemory) }
{
    indexes.insert(constant, index)?;
    Ok(())
}

impl PoolBuilder {
    /// A pool of no entries.
    pub fn new(alloc: Global) -> PoolBuilder
        ensures { result ≡ [] }
    {
        PoolBuilder {
            indexes: IndexMap::new(alloc),
            taken: 0,
        }
    }

    // The index at which the constant's entry stands.
    fn find(&self, constant: &Constant) -> Option<u16>
        ensures { result ≡ index_among 1 self.now constant.now }
    {
        index_held(&self.indexes, constant)
    }

    // Whether one more constant of so many indexes has room.
    #[tactic(auto, using(crate::proofs::NumberedPools::pool_count))]
    fn has_room(&self, size: u16) -> bool
        ensures { IsTrue result ↔ (length self.now + size ≤ 65534) }
    {
        size <= LAST_INDEX - self.taken
    }

    // Puts a constant that does not stand there behind the last.
    fn put(&mut self, constant: Constant, size: u16) -> Result<u16, BuilderFault>
        requires size { size ≡ length (places constant) }
        requires fits { fits_length constant ≡ true }
        requires absent { index_among 1 self.old constant ≡ None }
        requires room { length self.old + size ≤ 65534 }
        ensures index { IfOk result (λ index. index ≡ length self.old + 1) }
        ensures entries { OnOk result (self.new ≡ self.old ++ places constant) }
        ensures unchanged { OnErr result (self.new ≡ self.old) }
        ensures memory { IfErr result (λ e. e ≡ OutOfMemory) }
    {
        let index = self.taken + 1;
        hold(&mut self.indexes, constant, index)?;
        self.taken += size;
        Ok(index)
    }

    /// The index at which the constant's entry stands. A new one is put behind the last. This takes
    /// constant time on average, and time in the length of a text.
    ///
    /// # Errors
    /// `TooMany` for a text of more than 65,535 bytes, else `PoolFull` for a new constant whose
    /// indexes would pass 65,534, `OutOfMemory` where a growth was refused. The pool is then
    /// unchanged.
    #[tactic(auto, using(crate::proofs::NumberedPools::interned_cases))]
    pub fn index_of(&mut self, constant: Constant) -> Result<u16, BuilderFault>
        ensures exact { GivesIndex result self.new (interned self.old constant) }
        ensures unchanged { OnErr result (self.new ≡ self.old) }
    {
        if !constant.fits_length() {
            return Err(BuilderFault::TooMany);
        }
        if let Some(index) = self.find(&constant) {
            return Ok(index);
        }
        let size = constant.size();
        if !self.has_room(size) {
            return Err(BuilderFault::PoolFull);
        }
        self.put(constant, size)
    }

    /// Puts constant_pool_count and the entries (JVMS 4.1, 4.4) at the end.
    ///
    /// # Errors
    /// `AllocError` where a growth was refused; some of the bytes are then put.
    #[tactic(auto, unfolding(crate::specs::Building::pool_bytes))]
    pub fn write(&self, out: &mut Vec<u8>) -> Result<(), AllocError>
        ensures { OnOk result (out.new.items ≡ out.old.items ++ pool_bytes self.now) }
    {
        put_u2(out, self.taken + 1)?;
        for constant in self.indexes.keys() {
            constant.put(out)?;
        }
        Ok(())
    }
}

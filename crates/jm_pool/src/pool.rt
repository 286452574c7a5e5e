// A constant pool that is read (JVMS 4.4).

ghost use Rattle.std.specs.Prelude.{◌≡◌, ◌++◌, ℤ, ℕ, List, take, Ok, IfOk};
ghost use Rattle.jm_bytes.specs.Format.{Format};
ghost use Rattle.jm_bytes.specs.Reading.{Gives};
ghost use Rattle.jm_class_format.specs.declared.fault.PoolFault.TheVariants.{OutOfMemory};
ghost use Rattle.jm_class_format.specs.declared.constant_pool.Entry.{Entry};
ghost use Rattle.jm_class_format.specs.PoolEntries.{pool};
ghost use Rattle.jm_pool.specs.Fronts.{GivesFront};

use crate::raw_entries::{ends_in_long, raw_entries_of};
use crate::references::entries_of;
use jm_bytes::Reader;
use jm_class_format::{Entry, PoolFault};
use std::alloc::Global;
use std::marker::Model;

/// A constant pool (JVMS 4.4). In a contract it is the list of its entries, from index 1 on.
pub struct Pool {
    entries: Vec<Entry>,
}

// Written out, so that whoever lets go of one makes a call (docs/DECISIONS.md).
impl Drop for Pool {
    fn drop(self) {
        let Pool { entries: _ } = self;
    }
}

impl Model for Pool {
    ghost use Rattle.std.specs.Prelude.{List};
    ghost use Rattle.jm_class_format.specs.declared.constant_pool.Entry.{Entry};

    ghost Value = { List Entry };

    ghost view = { λ p. p.entries.items };
}

impl Pool {
    /// The pool at the front of the bytes, which begin with constant_pool_count (JVMS 4.1), and how
    /// many bytes it takes.
    ///
    /// # Errors
    /// The first fault in this order. In the order of the bytes: `Cut` where they end inside the
    /// pool or its count, `BadTag` at a tag that none of the read kinds of entries has; `BadIndex(0)`
    /// where the count is 0. Then in the order of the indexes: `BadUtf8` for a text that is no
    /// modified UTF-8, `BadIndex` for an index that names no entry of the kind that its place needs.
    /// Then `BadIndex` with the count where a long has no second place. `OutOfMemory` where a growth
    /// was refused.
    pub fn read(alloc: Global, bytes: &[u8]) -> Result<(Pool, usize), PoolFault>
        ensures exact { GivesFront OutOfMemory result bytes.now (pool.read bytes.now) }
        ensures spelled { IfOk result (λ x. pool.Spells (take x.1 bytes.now) x.0) }
        ensures only { (text rest : List ℕ) (p : List Entry) → bytes.now ≡ text ++ rest → pool.Spells text p
            → GivesFront OutOfMemory result bytes.now (Ok (p, rest)) }
    {
        Pool::front_of(alloc, bytes)
    }

    fn front_of(alloc: Global, bytes: &[u8]) -> Result<(Pool, usize), PoolFault>
        ensures { GivesFront OutOfMemory result bytes.now (pool.read bytes.now) }
    {
        let mut reader = Reader::new(bytes);
        let pool = Pool::take(alloc, &mut reader)?;
        Ok((pool, bytes.len() - reader.len()))
    }

    /// Takes the pool at the front of what a reader has left, its count first (JVMS 4.1).
    ///
    /// # Errors
    /// The first fault, as [`Pool::read`] says; the reader then stands somewhere inside the pool.
    #[tactic(auto, unfolding(jm_class_format::specs::PoolEntries::pool))]
    pub fn take(alloc: Global, reader: &mut Reader<'_>) -> Result<Pool, PoolFault>
        ensures { Gives (λ p. p) OutOfMemory result reader.new (pool.read reader.old) }
    {
        let count = reader.u2()?;
        if count == 0 {
            return Err(PoolFault::BadIndex(0));
        }
        let raws = raw_entries_of(alloc, count - 1, reader)?;
        let entries = entries_of(alloc, &raws)?;
        if ends_in_long(&raws) {
            return Err(PoolFault::BadIndex(count));
        }
        Ok(Pool { entries })
    }

    /// The entries from index 1 on.
    pub fn entries(&self) -> &[Entry]
        ensures { result.now ≡ self.now }
    {
        &self.entries
    }
}

// A class file while it is written.

ghost use Rattle.std.specs.Prelude.{◌≡◌, ◌++◌, OnOk};
ghost use Rattle.jm_pool.specs.Building.{pool_bytes};
ghost use Rattle.jm_class_writer.specs.Drafts.{Leaves, put_bytes, put_u2, put_u4, opened, closed};
ghost use Rattle.jm_class_writer.specs.PoolUse.{entry_index};
ghost use Rattle.jm_class_writer.specs.ClassParts.{nothing_written};

use crate::fault::WriteFault;
use jm_pool::{Constant, PoolBuilder};
use std::alloc::{AllocError, Global};
use std::marker::Model;
use std::mem;

/// The pool so far, and the bytes that stand behind the pool so far.
#[derive(Drop)]
pub struct Draft {
    pool: PoolBuilder,
    bytes: Vec<u8>,
}

impl Model for Draft {
    ghost use Rattle.jm_class_writer.specs.Drafts.{DraftParts};

    ghost Value = { DraftParts };

    ghost view = { λ d. record { entries = d.pool; written = d.bytes.items } };
}

impl Draft {
    /// With no entry and no byte.
    pub fn new(alloc: Global) -> Draft
        ensures { result ≡ nothing_written }
    {
        Draft {
            pool: PoolBuilder::new(alloc),
            bytes: Vec::new(alloc),
        }
    }

    /// The index of a constant, added where it is new.
    ///
    /// # Errors
    /// `PoolFull` where a new one has no index left, `TooMany` for a text of more than 65,535
    /// bytes; else want of memory.
    #[tactic(auto, unfolding(crate::specs::PoolUse::entry_index))]
    pub fn entry_index(&mut self, constant: Constant) -> Result<u16, WriteFault>
        ensures { Leaves (λ index. index) result self.new (entry_index constant self.old) }
    {
        match self.pool.index_of(constant) {
            Ok(index) => Ok(index),
            Err(fault) => Err(WriteFault::from(fault)),
        }
    }

    /// Puts bytes at the end.
    ///
    /// # Errors
    /// Want of memory.
    #[tactic(auto, unfolding(crate::specs::Drafts::put_bytes))]
    pub fn put_bytes(&mut self, bytes: &[u8]) -> Result<(), WriteFault>
        ensures { Leaves (λ _. tt) result self.new (put_bytes bytes.now self.old) }
    {
        self.bytes.extend_from_slice(bytes)?;
        Ok(())
    }

    /// Puts a number of two bytes at the end.
    ///
    /// # Errors
    /// `TooMany` where two bytes cannot say it; else want of memory.
    #[tactic(auto, unfolding(crate::specs::Drafts::put_u2))]
    pub fn put_u2(&mut self, n: usize) -> Result<(), WriteFault>
        ensures { Leaves (λ _. tt) result self.new (put_u2 n self.old) }
    {
        if n >= 65_536 {
            return Err(WriteFault::TooMany);
        }
        jm_bytes::put_u2(&mut self.bytes, n as u16)?;
        Ok(())
    }

    /// Puts a number of four bytes at the end.
    ///
    /// # Errors
    /// `TooMany` where four bytes cannot say it; else want of memory.
    #[tactic(auto, unfolding(crate::specs::Drafts::put_u4))]
    pub fn put_u4(&mut self, n: usize) -> Result<(), WriteFault>
        ensures { Leaves (λ _. tt) result self.new (put_u4 n self.old) }
    {
        if n >= 4_294_967_296 {
            return Err(WriteFault::TooMany);
        }
        jm_bytes::put_u4(&mut self.bytes, n as u32)?;
        Ok(())
    }

    /// Begins a part that stands behind its length, and hands out the bytes before it.
    pub fn open(&mut self, alloc: Global) -> Vec<u8>
        ensures new { self.new ≡ opened self.old }
        ensures before { result.items ≡ self.old.written }
    {
        mem::replace(&mut self.bytes, Vec::new(alloc))
    }

    /// Ends it: the bytes before it come back in front, and its length stands between.
    ///
    /// # Errors
    /// `TooMany` where four bytes cannot say the length; else want of memory.
    #[tactic(auto, unfolding(crate::specs::Drafts::closed))]
    pub fn close(&mut self, before: Vec<u8>) -> Result<(), WriteFault>
        ensures { Leaves (λ _. tt) result self.new (closed before.items self.old) }
    {
        let inner = mem::replace(&mut self.bytes, before);
        if inner.len() >= 4_294_967_296 {
            return Err(WriteFault::TooMany);
        }
        jm_bytes::put_u4(&mut self.bytes, inner.len() as u32)?;
        self.bytes.extend_from_slice(&inner)?;
        Ok(())
    }

    /// Puts the bytes of the pool and those behind it at the end of some others.
    ///
    /// # Errors
    /// A growth was refused.
    pub fn write(&self, out: &mut Vec<u8>) -> Result<(), AllocError>
        ensures { OnOk result (out.new.items ≡ out.old.items ++ pool_bytes self.now.entries ++ self.now.written) }
    {
        self.pool.write(out)?;
        out.extend_from_slice(&self.bytes)?;
        Ok(())
    }

    /// The bytes alone, without the pool.
    pub fn into_bytes(self) -> Vec<u8>
        ensures { result.items ≡ self.written }
    {
        self.bytes
    }
}

//! The constant pool of a class file (JVMS 4.4), and modified UTF-8 (JVMS 4.4.7) both ways.
//!
//! [`Pool::read`] gives a pool exactly where the bytes spell one, and else the first fault; a
//! pool's calls give what an index names. [`code_units`] reads a text and [`modified_utf8`] writes
//! it: what is written is read back, and what is read was written so. [`PoolBuilder::index_of`] gives
//! a constant its index and [`PoolBuilder::write`] the bytes, which spell that very pool. Which bytes
//! spell which pool is defined in `jm_class_format`; the crate also stands on `jm_bytes`,
//! `jm_program` and `indexmap`.
#![tactic(auto)]

mod builder_fault;
mod constant;
mod laws;
mod look_ups;
mod pool;
mod pool_builder;
mod raw_entries;
mod references;
mod text_reading;
mod text_writing;

pub use builder_fault::BuilderFault;
pub use constant::Constant;
pub use jm_class_format::{Entry, PoolFault};
pub use laws::{built_pool_spelled, interned_stands, one_pool, text_read_back};
pub use look_ups::{Member, NameAndType, Text};
pub use pool::Pool;
pub use pool_builder::PoolBuilder;
pub use text_reading::code_units;
pub use text_writing::modified_utf8;

//! Class files from their bytes (JVMS 4).
//!
//! [`read_class`] gives the class that bytes spell, exactly where they spell one, and else the
//! first fault. Each structure of the class file has one private reader, in the order of JVMS 4:
//! what instructions name, the Code attribute, fields, methods and the class. `Symbols` goes with
//! them through the file: what a text or an operand names is made once and shared by its uses.
//! Which bytes spell which class is defined in `jm_class_format`, by which names and types are read
//! too; the constant pool is read by `jm_pool`, instructions by `jm_opcodes`, and numbers by
//! `jm_bytes`. The uses are found by the hashes of `indexmap`.
#![tactic(auto)]

mod attribute;
mod class;
mod code_attribute;
mod field;
mod method;
mod named_code;
mod operand;
mod places;
mod symbols;

pub use class::read_class;
pub use jm_class_format::{CodeFault, LeftOutPart, PoolFault, ReadFault};

//! Class files from classes (JVMS 4).
//!
//! [`write_class`] gives the bytes of a class, exactly those that the definitions of `specs/` say,
//! or the limit of the class file that the class passes; and these bytes spell that class, by the
//! definitions that the reader is proved against. The pool's entries stand in the order of their
//! first use, the parts of an entry before it. The pool is built by `jm_pool`, instructions are
//! written by `jm_encode`, and numbers by `jm_bytes`.
#![tactic(auto)]

mod class_file;
mod code_attribute;
mod draft;
mod fault;
mod instruction;
mod laws;
mod pool_use;
mod texts;

pub use class_file::write_class;
pub use fault::WriteFault;
pub use laws::{
    attribute_lengths_fit, class_targets_are_found, too_many_is_past_a_limit, written_is_spelled,
};

//! The grammar of bytes, and the reading and writing of their numbers (JVMS 4).
//!
//! A format of `specs/` says which bytes spell which value and, where they spell none, which fault
//! comes: no bytes spell two values, and what is read is what is spelled. [`Reader`] takes numbers
//! from the front of a slice, and `put_u1` and its kin append them; both are exact, so that a crate
//! above writes each structure once, as a format, and proves its reader and its writer against it.
//! It stands on `byteorder` and the standard library alone, and reading takes no memory.
#![tactic(auto)]

mod laws;
mod reader;
mod writer;

pub use laws::{exact_length, one_number, signed_read_back, unsigned_read_back};
pub use reader::{Cut, Reader};
pub use writer::{put_s1, put_s2, put_s4, put_s8, put_u1, put_u2, put_u4, put_u8};

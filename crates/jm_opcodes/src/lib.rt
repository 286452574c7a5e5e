//! The code of a method from its bytes: instructions with their offsets (JVMS 4.7.3, 6.5).
//!
//! [`decode_code`] gives the instructions that the bytes spell, their branch targets as numbers of
//! instructions, and refuses bytes that spell no code by the first fault; [`decode_placed`] gives
//! with them where they begin. What an instruction names stays an index of the constant pool. It
//! stands on the definitions and the table of opcodes of `jm_class_format`, and reads with
//! `jm_bytes`.
#![tactic(auto)]

mod decode;
mod instruction;
mod operands;
mod starts;
mod switch;
mod table;
mod targets;

pub use decode::{decode_code, decode_placed};
pub use jm_class_format::{CodeFault, IndexedInstr, LeftOutOp, PlacedInstr};
pub use starts::Starts;

//! The code of a method in bytes, from its instructions (JVMS 4.7.3, 6.5).
//!
//! [`encode_code`] gives the bytes that the definition `encoded` names, with the offset at which
//! each instruction begins, or its very fault; and these bytes spell the instructions by the
//! format of a code. What an instruction names is an index of the constant pool, and a target is
//! the number of an instruction. It stands on the definitions of `jm_class_format` and appends
//! numbers with `jm_bytes`.
#![tactic(auto)]

mod encode;
mod encoded;
mod fault;
mod instruction;
mod laws;
mod opcode_byte;
mod operands;
mod size;
mod starts;
mod switch;
mod target;

pub use encode::encode_code;
pub use encoded::EncodedCode;
pub use fault::EncodeFault;
pub use laws::{encoded_is_spelled, opcode_bytes_stand_for_opcodes, placed_parts, starts_rise};

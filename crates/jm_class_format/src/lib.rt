//! Which bytes spell which class file (JVMS 4), as definitions in `specs/`.
//!
//! Each structure is written once, as a format of `jm_bytes`, in the order of JVMS 4.1 to 4.7: the
//! constant pool, instructions, attributes, fields, methods and the class. A format says which
//! bytes spell which value and, where they spell none, which fault comes first. The types here are
//! those of the definitions, and the crates that read and write class files share them. [`opcodes`]
//! is the table of opcodes as data, for the decoder of class files and for the assembler.
//!
//! Names, types and references come from their texts, as UTF-16 code units (JVMS 4.2, 4.3, 4.4): each
//! call gives what a text names in its place, exactly where it names something, and else the first
//! fault: a name that is none, a descriptor that is none, or a type that is left out. So every reader
//! of names, of class files or of assembler texts, refuses the same texts alike.
#![tactic(auto)]

mod constant_pool;
mod fault;
mod instruction;
mod laws;
mod names;
mod opcode;
mod opcode_table;
mod read_fault;
mod references;
mod types;

pub use constant_pool::{Bytes, Entry, Lead, RawEntry, Tag};
pub use fault::{CodeFault, PoolFault};
pub use instruction::{IndexedInstr, PlacedInstr};
pub use laws::{
    fits_is_tested, one_class, one_code, one_pool, one_text, read_classes_fit, spelled_class_fits,
};
pub use names::{class_name_of, field_name_of, invoked_name_of, method_name_of};
pub use opcode::{LeftOutOp, Opcode};
pub use opcode_table::opcodes;
pub use read_fault::{LeftOutPart, ReadFault};
pub use references::{begins_with_bracket, class_ref_of, field_ref_of, method_ref_of, operand_ref};
pub use types::{field_type_of, method_type_of};

//! Assembler texts from classes (Jasmin User Guide): the text that is printed denotes that very class, or
//! the first part of it that the text cannot say is named (specs/Unsaid.antt). Most of these parts no
//! text at all can say: what each class has that a text denotes is a law (specs/TextClasses.antt).
#![tactic(auto)]

mod body;
mod disassembly;
mod fault;
mod first;
mod flags;
mod header;
mod instruction;
mod labels;
mod laws;
mod mark;
mod member;
mod names;
mod said;
mod unsaid;

pub use disassembly::{class_text, disassemble, first_unsaid};
pub use fault::DisassemblyFault;
pub use laws::texts_denote_text_classes;
pub use unsaid::{ClassPart, FieldPart, MethodPart, Unsaid};

//! The instructions of an assembler text (Jasmin User Guide, "Instructions").
//!
//! [`instruction`] gives the instruction that the tokens of a line spell, or of the several lines
//! of a switch, with its labels by name, or the first fault with its line: which tokens spell which
//! instruction, and which fault comes first, is defined in `specs/`, one definition for each shape
//! of operands. It stands on the mnemonics of `jm_program`, the table of opcodes, the names and types
//! of `jm_class_format`, and the tokens of `jm_jasmin_lex`.
#![tactic(auto)]

mod directive;
mod fault;
mod labelled;
mod laws;
mod line;
mod mnemonic;
mod numbers;
mod operands;
mod profile;
mod row;
mod switch;
mod symbols;
mod words;

pub use directive::LeftOutDirective;
pub use fault::{AsmFault, AsmLeftOut, at_line};
pub use labelled::{Label, LabelledInstr, LabelledLookup, LabelledPair, LabelledTable, Line};
pub use laws::{each_opcode_is_named, spelled_instructions_keep_rules};
pub use line::instruction;
pub use profile::unknown_word;

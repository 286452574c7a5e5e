//! The assembler: the class that a text in the Jasmin language denotes (Jasmin User Guide).
//!
//! [`assemble`] gives that class exactly where the text denotes one, and else the first fault in
//! the order of its lines: which texts denote which class is defined in `specs/`, line by line,
//! with a body's labels, limits and tables found from the list of its lines. It stands on the
//! tokens of `jm_jasmin_lex`, the instructions of `jm_jasmin_ops`, the names and types of
//! `jm_class_format` and the classes of `jm_program`.
//!
//! Beside that reading stands the grammar of texts, line by line: the forms in `specs/` say, for each line
//! of a class, which words and strings it has and what it says, and the laws that a text of such lines
//! denotes the class of which they are, whatever its blanks, comments and empty lines.
#![tactic(auto)]

mod assembly;
mod body;
mod code;
mod field;
mod header;
mod item;
mod labels;
mod laws;
mod lines;
mod method;
mod method_header;
mod part;
mod range;
mod symbols;
mod words;

pub use assembly::assemble;
pub use jm_jasmin_ops::{AsmFault, AsmLeftOut};
pub use laws::{lines_denote_their_class, lines_of_one_class, spacing_changes_nothing};

//! What is refused of a program, in lines: `NUMBER NAME: WHERE`, where what is needed is named, and what there
//! is instead.
//!
//! [`finding_lines`] has a line for each finding of `jm_linker` ([`jm_linker::findings`]), in their order; of
//! lines that come several times in a row, one. Where the main class is unknown ([`MainClass`]) nothing is told
//! of its main. Where the first class is the main class there are none exactly where the program loads.
//! [`FindingLine`] is one of them. Names, types and places are written as the debugger writes them (`jm_debug`).
//!
//! The crate stands on `jm_linker` and, for the texts of places, on `jm_debug`.
#![tactic(auto)]

mod class;
mod finding_line;
mod laws;
mod lines;
mod main_class;
mod main_classes;
mod overloads;
mod place;
mod reference;

pub use finding_line::FindingLine;
pub use laws::no_line_exactly_where_a_program_loads;
pub use lines::finding_lines;
pub use main_class::MainClass;

//! Tables of a program's classes, by number: what each class has of its own and from the classes
//! right above it.
//!
//! An [`Inheritance`] is made class by class, each after those right above it. A class shares with
//! its superclass what it does not change, so it takes memory for its own alone, and what a class
//! has is found in as many steps as there are digits. Contracts say what a class has by walking up
//! (`inherited`), and for a program's classes in the words of the model.
//!
//! Below them a [`Table`] is a list of rows with few cells, and a row a map from columns to numbers,
//! which shares what it has in common with the rows that it is made of: it takes memory for its own
//! cells alone. [`Literals`] gathers the texts of a program's string constants in the model's order,
//! equal ones once, so that a literal is a number at run time; a text is found by an ordered index, in
//! as many comparisons as the number of texts has binary digits.
//!
//! The crate stands on `jm_program`, `jm_builtins` and `jm_world`.
#![tactic(auto)]

mod extent;
mod field_kinds;
mod gathering;
mod hierarchy;
mod inheritance;
mod laws;
mod layout;
mod literals;
mod method_table;
mod node;
mod row;
mod table;

pub use extent::DeclaredFields;
pub use field_kinds::FieldKinds;
pub use hierarchy::Hierarchy;
pub use inheritance::{Declared, Inheritance};
pub use laws::{
    above_along_the_chain, literal_by_number, one_field_a_place, one_number_a_text,
    statics_by_number,
};
pub use layout::{FieldNumber, FieldSlot, Layout};
pub use literals::Literals;
pub use method_table::MethodTable;
pub use table::{Cell, Table};

//! The classes that every program finds there: those of java/lang and java/io that the profile
//! has, as data.
//!
//! A built-in method has no code and is not abstract; what it does is the machine's. The list is
//! written once in code, as a table of rows, and once as a definition, and the contract of
//! [`builtins`] says that the two agree.
//!
//! The crate stands on `jm_program`.
#![tactic(auto)]

mod built_in;
mod built_in_class;
mod class;
mod list;
mod member;
mod row;
mod table;
mod text;

pub use built_in::BuiltIn;
pub use built_in_class::BuiltInClass;
pub use list::builtins;

//! From the classes of a program to a linked program: names are resolved once, here.
//!
//! [`link`] answers a linked program exactly where the classes load (JVMS 5.3, 5.4); otherwise it
//! answers the first reason, in the order of `jm_world`'s definition of loading. The crate stands on
//! `jm_program`, `jm_builtins`, `jm_world`, `jm_tables` and `jm_linked`.
#![tactic(auto)]

mod checking;
mod classes;
mod code;
mod codes;
mod constants;
mod cycles;
mod duplicates;
mod fault;
mod finding;
mod initializers;
mod key;
mod laws;
mod linking;
mod main_method;
mod members;
mod name;
mod number;
mod order;
mod parents;
mod print_streams;
mod ranks;
mod references;
mod resolution;
mod selected;
mod selectors;
mod sought;
mod special;
mod tables;
mod types;
mod walk;

pub use checking::findings;
pub use fault::LinkFault;
pub use finding::{Finding, Site};
pub use laws::{nothing_is_found_where_a_program_loads, the_first_finding_is_why};
pub use linking::link;
pub use main_method::has_main;

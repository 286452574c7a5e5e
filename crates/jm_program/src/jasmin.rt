//! How the parts of a class are written in Jasmin's syntax.

mod instruction;
mod mnemonic;
mod types;
mod units;

pub use units::StringUnits;

// What a local variable or an operand holds.

use crate::place::Place;

/// What a local variable or an operand holds (JVMS 2.11.1): an int, a long, null, or a reference
/// to an object. A long is one value, of category 2.
#[derive(Clone, Copy, PartialEq, Eq)]
pub enum Value {
    Int(i32),
    Long(i64),
    Null,
    Ref(Place),
}

// What a heap keeps of an object beside its values.

use jm_heap::ClassId;

/// What an object is, beside its values: its number in the world, its class or array type, and how
/// many collections it has survived.
#[derive(Clone, Copy, PartialEq, Eq)]
pub struct Header {
    pub serial: u64,
    pub class: ClassId,
    pub age: u8,
}

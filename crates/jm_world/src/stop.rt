// What stops the whole machine.

use jm_values::TagFault;

/// Why the whole machine stopped.
#[derive(Clone, Copy, PartialEq, Eq)]
pub enum Stop {
    /// An instruction of unverified code that cannot be made.
    TagFault(TagFault),
    /// What is reachable and the new object pass the limit.
    HeapFull,
    /// More objects than can be numbered.
    SerialsEnd,
}

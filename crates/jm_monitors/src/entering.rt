// What comes of entering a monitor.

/// What comes of entering a monitor (JVMS 6.5 monitorenter).
#[derive(Clone, Copy, PartialEq, Eq)]
pub enum Entering {
    /// The thread owns it, with a count that is one higher.
    Entered,
    /// Another thread owns it.
    Blocked,
    /// The thread has entered it 2^31 - 1 times already.
    CountEnds,
}

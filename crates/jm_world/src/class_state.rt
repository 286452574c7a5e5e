/// How far the initialization of a class is (JVMS 5.5).
#[derive(Clone, Copy)]
pub enum ClassState {
    NotBegun,
    /// In progress by the thread of this number.
    InProgress(u64),
    Done,
    /// The initialization ended by an exception.
    Failed,
}

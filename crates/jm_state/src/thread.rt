// Threads and their frames.

use jm_frames::Frame;
use jm_values::Place;
use jm_world::Stage;

/// A frame of a thread (JVMS 2.6).
#[derive(Drop)]
pub enum StackFrame {
    /// Of a method that runs, by its number in the linked program.
    Method(Frame),
    /// Of the initialization of a class, by its number among the program's classes, with what is
    /// next in it (JVMS 5.5).
    Initialization { class: u32, stage: Stage },
    /// Of a thread that has not begun: the `run` of its object is next (JVMS 2.5.1).
    Entry,
}

/// How a thread has ended.
#[derive(Clone, Copy)]
pub enum Ending {
    /// It has not.
    Running,
    /// By its last return.
    Returned,
    /// By an exception of the class of this number, the built-in classes counted first.
    EndedBy(u32),
}

/// A Java thread.
pub struct Thread {
    /// Its object, by its place while the thread has not ended. The first one has none.
    pub object: Option<Place>,
    /// The serial of its object, by which that is told after the thread's end too.
    pub serial: Option<u64>,
    /// The top frame is the last.
    pub frames: Vec<StackFrame>,
    /// The pending exception (JVMS 2.10).
    pub pending: Option<Place>,
    pub ending: Ending,
}

// Written out, so that whoever lets go of one makes a call (docs/DECISIONS.md).
impl Drop for Thread {
    fn drop(self) {
        let Thread {
            object: _,
            serial: _,
            frames: _,
            pending: _,
            ending: _,
        } = self;
    }
}

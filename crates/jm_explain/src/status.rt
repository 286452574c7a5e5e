// The exit status.

ghost use Rattle.std.specs.Prelude.{◌≡◌};
ghost use Rattle.jm_explain.specs.Codes.{code_of};

/// How the program ends.
#[derive(Clone, Copy)]
pub enum Status {
    /// Every Java thread has returned.
    Done,
    /// The command line was refused.
    CommandLine,
    /// A file or the output could not be read or written.
    Files,
    /// A Java thread was ended by an exception.
    EndedByException,
    /// The program was not read, linked or loaded.
    Refused,
    /// The machine stopped at an instruction that cannot be made.
    TagFault,
    /// The machine stopped for want of room in its heap.
    HeapFull,
    /// A growth was refused.
    OutOfMemory,
    /// A Java thread had not ended.
    NotEnded,
    /// The schedule was refused.
    BadSchedule,
    /// The schedules that were tried come to more than one outcome.
    SeveralOutcomes,
    /// They come to one outcome, or none, and not all were tried.
    NotAllTried,
}

impl Status {
    /// The number that the process ends with, from 0 to 11.
    pub fn code(self) -> u8
        ensures { result ≡ code_of self }
    {
        match self {
            Status::Done => 0,
            Status::CommandLine => 1,
            Status::Files => 2,
            Status::EndedByException => 3,
            Status::Refused => 4,
            Status::TagFault => 5,
            Status::HeapFull => 6,
            Status::OutOfMemory => 7,
            Status::NotEnded => 8,
            Status::BadSchedule => 9,
            Status::SeveralOutcomes => 10,
            Status::NotAllTried => 11,
        }
    }
}

// What `jm` is to do, with the files that were read for it.

ghost use Rattle.std.specs.Prelude.{◌≡◌, ◌≤◌};

use jm_explore::Bounds;
use jm_heap::Kind;
use jm_schedule::RoundRobin;

/// What reading a file came to.
pub enum Contents {
    Bytes(Vec<u8>),
    /// The file could not be read.
    NotRead,
    /// A growth was refused.
    OutOfMemory,
}

// Written out, so that whoever lets go of one makes a call (docs/DECISIONS.md).
impl Drop for Contents {
    fn drop(self) {
        match self {
            Contents::Bytes(_) | Contents::NotRead | Contents::OutOfMemory => {}
        }
    }
}

/// A file of the command line, by the name that stands there.
pub struct InputFile {
    pub name: String,
    pub contents: Contents,
}

// Written out, so that whoever lets go of one makes a call (docs/DECISIONS.md).
impl Drop for InputFile {
    fn drop(self) {
        let InputFile {
            name: _,
            contents: _,
        } = self;
    }
}

/// What `jm` is to do.
pub enum Job {
    /// `jm run`
    Run(RunJob),
    /// `jm replay`
    Replay(ReplayJob),
    /// `jm explore`
    Explore(ExploreJob),
    /// `jm asm`
    Assemble(AssembleJob),
    /// `jm dis`
    Disassemble(DisassembleJob),
    /// `jm debug`
    Debug(DebugJob),
}

// Written out, so that whoever lets go of one makes a call (docs/DECISIONS.md).
impl Drop for Job {
    fn drop(self) {
        match self {
            Job::Run(_)
            | Job::Replay(_)
            | Job::Explore(_)
            | Job::Assemble(_)
            | Job::Disassemble(_)
            | Job::Debug(_) => {}
        }
    }
}

/// Several workers, each of which chooses its events by the replies to its own.
#[derive(Clone, Copy)]
pub struct Workers {
    /// How many, from 2 to 16.
    pub count: u8,
    /// The most events of each, 1 or more.
    pub steps: u32,
    ghost several: { 2 ≤ count },
    ghost few: { count ≤ 16 },
    ghost some_steps: { 1 ≤ steps },
}

/// So many workers, each of which makes so many events at most.
pub fn several_workers(count: u8, steps: u32) -> Workers
    requires several { 2 ≤ count }
    requires few { count ≤ 16 }
    requires some_steps { 1 ≤ steps }
    ensures count { result.count ≡ count }
    ensures steps { result.steps ≡ steps }
{
    Workers { count, steps }
}

/// So many copiers, which collect a heap. What a program does does not depend on how many there are.
#[derive(Clone, Copy)]
pub struct Copiers {
    /// How many, from 1 to 16.
    pub count: u8,
    ghost some: { 1 ≤ count },
    ghost few: { count ≤ 16 },
}

/// So many copiers.
pub fn so_many_copiers(count: u8) -> Copiers
    requires some { 1 ≤ count }
    requires few { count ≤ 16 }
    ensures { result.count ≡ count }
{
    Copiers { count }
}

/// Where the events of a run come from.
pub enum RunEvents {
    /// They are those that the lines of a schedule spell.
    Schedule(InputFile),
    /// The threads take turns.
    RoundRobin(RoundRobin),
    /// Workers choose them, side by side.
    Workers(Workers),
}

// Written out, so that whoever lets go of one makes a call (docs/DECISIONS.md).
impl Drop for RunEvents {
    fn drop(self) {
        match self {
            RunEvents::Schedule(_) | RunEvents::RoundRobin(_) | RunEvents::Workers(_) => {}
        }
    }
}

/// To run the classes of some files.
pub struct RunJob {
    /// The limit of the heap, in cells.
    pub heap: u32,
    /// The copiers that collect the heap.
    pub copiers: Copiers,
    pub events: RunEvents,
    /// The files of the classes, the main class's first: each a class file, or an assembler text
    /// where its name ends in `.j`.
    pub program: Vec<InputFile>,
    /// Whether the objects that are reachable at the end are shown.
    pub show_heap: bool,
    /// Whether a record of the run is wanted.
    pub is_recorded: bool,
    /// Of which kind a collection is made before each event and behind the last one, where such are
    /// wanted. Several workers make none.
    pub stress: Option<Kind>,
}

// Written out, so that whoever lets go of one makes a call (docs/DECISIONS.md).
impl Drop for RunJob {
    fn drop(self) {
        let RunJob {
            heap: _,
            copiers: _,
            events: _,
            program: _,
            show_heap: _,
            is_recorded: _,
            stress: _,
        } = self;
    }
}

/// To run the classes of some files by the events of a record, and to compare the kinds of the replies.
pub struct ReplayJob {
    /// The limit of the heap, in cells.
    pub heap: u32,
    /// The copiers that collect the heap.
    pub copiers: Copiers,
    /// The file of the record: lines as those of a schedule, each with its seat and the kind of the reply.
    pub record_file: InputFile,
    /// The files of the classes, the main class's first: each a class file, or an assembler text
    /// where its name ends in `.j`.
    pub program: Vec<InputFile>,
    /// Whether the objects that are reachable at the end are shown.
    pub show_heap: bool,
}

// Written out, so that whoever lets go of one makes a call (docs/DECISIONS.md).
impl Drop for ReplayJob {
    fn drop(self) {
        let ReplayJob {
            heap: _,
            copiers: _,
            record_file: _,
            program: _,
            show_heap: _,
        } = self;
    }
}

/// To try the schedules of the program of some files.
pub struct ExploreJob {
    /// The limit of the heap of each run, in cells.
    pub heap: u32,
    /// How many schedules are tried.
    pub bounds: Bounds,
    /// The number of the outcome whose schedule alone is to be written, from 1 on; `None` where all
    /// that is found is told.
    pub outcome: Option<u32>,
    /// The files of the classes, the main class's first: each a class file, or an assembler text
    /// where its name ends in `.j`.
    pub program: Vec<InputFile>,
}

// Written out, so that whoever lets go of one makes a call (docs/DECISIONS.md).
impl Drop for ExploreJob {
    fn drop(self) {
        let ExploreJob {
            heap: _,
            bounds: _,
            outcome: _,
            program: _,
        } = self;
    }
}

/// To write the class that an assembler text denotes as a class file.
pub struct AssembleJob {
    /// The assembler text, whatever its name is.
    pub text: InputFile,
    /// The name of the class file, for the line that says that it could not be written.
    pub output: String,
}

// Written out, so that whoever lets go of one makes a call (docs/DECISIONS.md).
impl Drop for AssembleJob {
    fn drop(self) {
        let AssembleJob { text: _, output: _ } = self;
    }
}

/// To write the text of a class.
pub struct DisassembleJob {
    /// The file of the class: a class file, or an assembler text where its name ends in `.j`.
    pub file: InputFile,
    /// Whether comments are left out.
    pub bare: bool,
}

// Written out, so that whoever lets go of one makes a call (docs/DECISIONS.md).
impl Drop for DisassembleJob {
    fn drop(self) {
        let DisassembleJob { file: _, bare: _ } = self;
    }
}

/// To answer the commands of a session of the debugger, which begins before the first event of a
/// program.
pub struct DebugJob {
    /// The limit of the heap, in cells.
    pub heap: u32,
    /// The copiers that collect the heap.
    pub copiers: Copiers,
    /// The files of the classes, the main class's first: each a class file, or an assembler text
    /// where its name ends in `.j`.
    pub program: Vec<InputFile>,
}

// Written out, so that whoever lets go of one makes a call (docs/DECISIONS.md).
impl Drop for DebugJob {
    fn drop(self) {
        let DebugJob {
            heap: _,
            copiers: _,
            program: _,
        } = self;
    }
}

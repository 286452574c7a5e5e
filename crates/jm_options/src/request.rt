// What is asked for. A number is within its limits.

ghost use Rattle.std.specs.Prelude.{◌≤◌, IfSome};
ghost use Rattle.std.proofs.Props.{props};

use jm_explain::Entry;

/// The least limit of the heap, in cells.
pub const MIN_HEAP: u32 = 16;

/// The largest limit of the heap, in cells.
pub const MAX_HEAP: u32 = 16_777_216;

/// The largest number of copiers.
pub const MAX_COPIERS: u32 = 16;

/// The largest number of events that a run without a schedule, or a worker of one, may be limited to.
pub const MAX_STEPS: u32 = 10_000_000;

/// The largest number of events of a thread's turn.
pub const MAX_QUANTUM: u32 = 1_000_000;

/// The largest number of workers.
pub const MAX_WORKERS: u32 = 16;

/// The largest number of switches of the schedules that are tried.
pub const MAX_SWITCHES: u32 = 16;

/// The largest number of events of a schedule that is tried.
pub const MAX_SCHEDULE_STEPS: u32 = 1_000_000;

/// The largest number of runs of a search, and of an outcome that it tells of.
pub const MAX_RUNS: u32 = 100_000_000;

/// The largest number of events of a slice.
pub const MAX_SLICE: u32 = 1_000_000;

/// The largest number of an event or of a thread that is asked for, and of events that are shown.
pub const MAX_EVENTS: u32 = 10_000_000;

/// The largest number of events of a film.
pub const MAX_FILM_STEPS: u32 = 10_000;

/// What a command line asks for.
#[derive(Drop)]
pub enum Options {
    /// `jm run`: to run a program.
    Run(RunOptions),
    /// `jm replay`: to run a program by the events of a record.
    Replay(ReplayOptions),
    /// `jm explore`: to try the schedules of a program.
    Explore(ExploreOptions),
    /// `jm check`: to say all that is refused and missing in the files of a program.
    Check(CheckOptions),
    /// `jm why`: to say how a run ended, and where.
    Why(SerialRun),
    /// `jm trace`: to show the events of a run, a line each.
    Trace(TraceOptions),
    /// `jm film`: to write the events of a run as a page.
    Film(FilmOptions),
    /// `jm asm`: to assemble a text into a class file.
    Assemble(AssembleOptions),
    /// `jm dis`: to show the text of a class.
    Disassemble(DisassembleOptions),
    /// `jm debug`: to show a program at any event.
    Debug(DebugOptions),
    /// `jm explain`: to say what the numbers of refusals and statuses mean.
    Explain(ExplainOptions),
    /// `jm version`: to say which `jm` this is.
    Version,
}

/// The kind of the collections of `--stress`.
#[derive(Clone, Copy, Debug, PartialEq, Eq)]
pub enum Stress {
    /// `minor`: of the young generation.
    Minor,
    /// `full`: of the whole heap.
    Full,
}

/// The classes of a program.
#[derive(Drop)]
pub struct ProgramOptions {
    /// The folders below which classes are looked for that none of the files holds, one after the other.
    pub folders: Vec<String>,
    /// The name of the main class, if it need not be that of the first file.
    pub main: Option<String>,
    /// The files of the classes, the main class's first: a class file, or the text of a class if its
    /// name ends in `.j`.
    pub files: Vec<String>,
}

/// What `jm run` is given.
#[derive(Drop)]
pub struct RunOptions {
    /// The limit of the heap, in cells, from [`MIN_HEAP`] to [`MAX_HEAP`].
    pub heap: u32,
    /// How many copiers collect the heap, from 1 to [`MAX_COPIERS`].
    pub copiers: u32,
    /// The file of the schedule, if the events are to be those of one.
    pub schedule: Option<String>,
    /// The most events that are made without a schedule, by each worker where there are several, from 1
    /// to [`MAX_STEPS`].
    pub steps: u32,
    /// The most events of a thread's turn without a schedule, from 1 to [`MAX_QUANTUM`].
    pub quantum: u32,
    /// How many workers make the events without a schedule, from 1 to [`MAX_WORKERS`].
    pub workers: u32,
    /// Of which kind a collection is before each event and behind the last one, where such are asked
    /// for; `workers` is 1 then.
    pub stress: Option<Stress>,
    /// The file to write the record of the run to, if there is to be one.
    pub record_file: Option<String>,
    /// Whether the objects that are reachable at the end are shown.
    pub show_heap: bool,
    /// Whether more is told of what was refused or of how the run ended.
    pub tell: bool,
    /// The classes of the program.
    pub program: ProgramOptions,
    ghost least_heap: { 16 ≤ heap },
    ghost most_heap: { heap ≤ 16777216 },
    ghost some_copiers: { 1 ≤ copiers },
    ghost few_copiers: { copiers ≤ 16 },
    ghost some_steps: { 1 ≤ steps },
    ghost few_steps: { steps ≤ 10000000 },
    ghost some_quantum: { 1 ≤ quantum },
    ghost small_quantum: { quantum ≤ 1000000 },
    ghost some_workers: { 1 ≤ workers },
    ghost few_workers: { workers ≤ 16 },
}

/// What `jm replay` is given.
#[derive(Drop)]
pub struct ReplayOptions {
    /// The limit of the heap, in cells, from [`MIN_HEAP`] to [`MAX_HEAP`].
    pub heap: u32,
    /// How many copiers collect the heap, from 1 to [`MAX_COPIERS`].
    pub copiers: u32,
    /// Whether the objects that are reachable at the end are shown.
    pub show_heap: bool,
    /// Whether more is told of what was refused or of how the run ended.
    pub tell: bool,
    /// The file of the record.
    pub record_file: String,
    /// The classes of the program.
    pub program: ProgramOptions,
    ghost least_heap: { 16 ≤ heap },
    ghost most_heap: { heap ≤ 16777216 },
    ghost some_copiers: { 1 ≤ copiers },
    ghost few_copiers: { copiers ≤ 16 },
}

/// What `jm explore` is given.
#[derive(Drop)]
pub struct ExploreOptions {
    /// The most switches of a schedule, from 0 to [`MAX_SWITCHES`].
    pub switches: u32,
    /// The most events of a schedule, from 1 to [`MAX_SCHEDULE_STEPS`].
    pub steps: u32,
    /// The most runs that are made, from 1 to [`MAX_RUNS`].
    pub runs: u32,
    /// The most events of one thread in a row behind which the next thread follows for nothing, from 1
    /// to [`MAX_SLICE`].
    pub slice: u32,
    /// The number of the outcome whose schedule alone is asked for, from 1 to [`MAX_RUNS`]; `None`
    /// where all that was found is.
    pub outcome: Option<u32>,
    /// The limit of the heap, in cells, from [`MIN_HEAP`] to [`MAX_HEAP`].
    pub heap: u32,
    /// Whether more is told of what was refused or of how the run ended.
    pub tell: bool,
    /// The classes of the program.
    pub program: ProgramOptions,
    ghost few_switches: { switches ≤ 16 },
    ghost some_steps: { 1 ≤ steps },
    ghost few_steps: { steps ≤ 1000000 },
    ghost some_runs: { 1 ≤ runs },
    ghost few_runs: { runs ≤ 100000000 },
    ghost some_slice: { 1 ≤ slice },
    ghost small_slice: { slice ≤ 1000000 },
    ghost least_heap: { 16 ≤ heap },
    ghost most_heap: { heap ≤ 16777216 },
    ghost some_outcome: { IfSome outcome (λ number. 1 ≤ number) } by { Prim.hlevel props },
    ghost few_outcomes: { IfSome outcome (λ number. number ≤ 100000000) } by { Prim.hlevel props },
}

/// What `jm check` is given.
#[derive(Drop)]
pub struct CheckOptions {
    /// Whether the names of the program's files are asked for, in place of what is refused.
    pub list: bool,
    /// The classes of the program.
    pub program: ProgramOptions,
}

/// How a program is run by one worker.
#[derive(Drop)]
pub struct SerialRun {
    /// The limit of the heap, in cells, from [`MIN_HEAP`] to [`MAX_HEAP`].
    pub heap: u32,
    /// How many copiers collect the heap, from 1 to [`MAX_COPIERS`].
    pub copiers: u32,
    /// The file of the schedule, if the events are to be those of one.
    pub schedule: Option<String>,
    /// The most events that are made without a schedule, from 1 to [`MAX_STEPS`].
    pub steps: u32,
    /// The most events of a thread's turn without a schedule, from 1 to [`MAX_QUANTUM`].
    pub quantum: u32,
    /// The classes of the program.
    pub program: ProgramOptions,
    ghost least_heap: { 16 ≤ heap },
    ghost most_heap: { heap ≤ 16777216 },
    ghost some_copiers: { 1 ≤ copiers },
    ghost few_copiers: { copiers ≤ 16 },
    ghost some_steps: { 1 ≤ steps },
    ghost few_steps: { steps ≤ 10000000 },
    ghost some_quantum: { 1 ≤ quantum },
    ghost small_quantum: { quantum ≤ 1000000 },
}

/// What `jm trace` is given.
#[derive(Drop)]
pub struct TraceOptions {
    /// The run whose events are shown.
    pub run: SerialRun,
    /// The number of the thread whose events alone are shown, from 1 to [`MAX_EVENTS`]; `None` where
    /// those of all are.
    pub thread: Option<u32>,
    /// The number of the first event that is shown, from 1 to [`MAX_EVENTS`].
    pub first: u32,
    /// The most events that are shown, from 1 to [`MAX_EVENTS`].
    pub most: u32,
    ghost some_first: { 1 ≤ first },
    ghost few_first: { first ≤ 10000000 },
    ghost some_most: { 1 ≤ most },
    ghost few_most: { most ≤ 10000000 },
    ghost some_thread: { IfSome thread (λ number. 1 ≤ number) } by { Prim.hlevel props },
    ghost few_threads: { IfSome thread (λ number. number ≤ 10000000) } by { Prim.hlevel props },
}

/// What `jm film` is given.
#[derive(Drop)]
pub struct FilmOptions {
    /// The run that is shown. Its `steps` are the most events that are shown, by turns or by a
    /// schedule, from 1 to [`MAX_FILM_STEPS`].
    pub run: SerialRun,
    /// The number of the first event that is shown, from 1 to [`MAX_EVENTS`].
    pub first: u32,
    /// The directory of the `.java` files whose lines are shown, if they are to be.
    pub source: Option<String>,
    ghost some_first: { 1 ≤ first },
    ghost few_first: { first ≤ 10000000 },
    ghost few_shown: { run.steps ≤ 10000 },
}

/// What `jm asm` is given.
#[derive(Drop)]
pub struct AssembleOptions {
    /// The file of the text.
    pub input: String,
    /// The class file to write. It is another word than the text's.
    pub output: String,
}

/// What `jm dis` is given.
#[derive(Drop)]
pub struct DisassembleOptions {
    /// Whether comments are left out.
    pub bare: bool,
    /// The file of the class: a class file, or the text of a class if its name ends in `.j`.
    pub file: String,
}

/// What `jm debug` is given.
#[derive(Drop)]
pub struct DebugOptions {
    /// The limit of the heap, in cells, from [`MIN_HEAP`] to [`MAX_HEAP`].
    pub heap: u32,
    /// How many copiers collect the heap, from 1 to [`MAX_COPIERS`].
    pub copiers: u32,
    /// Whether more is told of what was refused or of how the run ended.
    pub tell: bool,
    /// The classes of the program.
    pub program: ProgramOptions,
    ghost least_heap: { 16 ≤ heap },
    ghost most_heap: { heap ≤ 16777216 },
    ghost some_copiers: { 1 ≤ copiers },
    ghost few_copiers: { copiers ≤ 16 },
}

/// What `jm explain` is given.
#[derive(Drop)]
pub struct ExplainOptions {
    /// What is said of the number or the name that was given; `None` where none was, which asks for the list.
    pub entry: Option<Entry>,
}

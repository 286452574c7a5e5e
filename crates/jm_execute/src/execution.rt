// What `jm run`, `jm replay`, `jm explore`, `jm asm`, `jm dis` and `jm debug` do.

ghost use Rattle.std.specs.Prelude.{◌≡◌, ◌++◌, ◌⊎◌, [], ℕ, List, Bool, None, Result, Some, false, IfOk, MatchResult, OnOk, string_bytes};
ghost use Rattle.jm_machine.specs.View.{MatchesWorld};
ghost use Rattle.jm_shared.specs.Legal.{world_after};
ghost use Rattle.jm_world.specs.World.{World};
ghost use Rattle.jm_choice.specs.Choices.{Choice, RunEnds, all_made, cut_short, listed};
ghost use Rattle.jm_execute.specs.Beginnings.{beginning};
ghost use Rattle.jm_program.specs.declared.class.ClassParts.{ClassParts};
ghost use Rattle.jm_disassembler.specs.Texts.{class_text};
ghost use Rattle.jm_disassembler.specs.Unsaid.{first_unsaid};
ghost use Rattle.jm_execute.specs.ClassTexts.{unsaid_line};
ghost use Rattle.jm_execute.specs.Endings.{Ending, assembled, completed, disassembled, exhausted, interrupted, output_of, turned_away, Allows, Ends, EndsIn, FailureTold, IsDone, IsDoneUnread, IsTalk, Leaves, LinesTold, Tells};
ghost use Rattle.jm_execute.specs.Reasons.{reason_line};
ghost use Rattle.jm_execute.specs.Reports.{heap_shown, report};
ghost use Rattle.jm_execute.specs.Sources.{choice_made, events_made};
ghost use Rattle.jm_execute.specs.KeptRecords.{IsFinished, IsJournal, IsKept, IsKeptIf, IsRecord, IsRecordOf, made_whole};
ghost use Rattle.jm_shared.specs.Records.{record_text};
ghost use Rattle.jm_execute.specs.Refusals.{Hinders, reason_of};
ghost use Rattle.jm_execute.specs.Tellings.{SaysEnding, Telling, TellingAllows, TellingEnding, ToldRun, telling_output};
ghost use Rattle.jm_execute.specs.Verdicts.{Cause, Verdict, assembly_verdict, debug_verdict, disassembly_verdict, explore_verdict, replay_verdict, run_verdict, verdict};
ghost use Rattle.jm_execute.specs.Written.{reads, words};

use crate::assembly::assemble_file;
use crate::copiers::{JobCollector, job_collector};
use crate::disassembly::{ClassText, disassemble_file, unsaid_line, unsaid_status};
use crate::ends::status_of;
use crate::events::{RunPlan, RunSource};
use crate::exploring::run_exploration;
use crate::finished::Finished;
use crate::one_worker::make_journal;
use crate::preparation::{prepare, prepare_exploration, prepare_replay, prepare_session};
use crate::readable::Readable;
use crate::refusal::{Obstacle, Refusal};
use crate::replaying::run_replay;
use crate::report::{end_text, tell_lines, tell_unwritten, tell_write_failed, write_out_of_memory};
use crate::session::answer_lines;
use crate::watchable::Watchable;
use crate::watched::Watched;
use crate::workers::run_by_workers;
use jm_copy::Collector;
use jm_debug::Debugger;
use jm_events::{EventsDue, Scheduled, Turns};
use jm_explain::Status;
use jm_heap::{Heap, Kind};
use jm_job::{AssembleJob, DebugJob, DisassembleJob, ExploreJob, Job, ReplayJob, RunJob};
use jm_machine::{Machine, OutOfMemory};
use jm_shared::{Journal, Origin};
use std::alloc::{AllocError, Global};
use std::marker::Brand;
use std::sync::Wait;
use std::thread::Threads;

/// What is wanted of a run beside its output.
#[derive(Clone, Copy)]
pub(crate) struct Wanted {
    /// The view of its heap.
    pub show_heap: bool,
    /// Its record.
    pub is_recorded: bool,
    /// Collections of a kind between the events of one worker.
    pub stress: Option<Kind>,
}

// Tells of a run whose events were all made, by the lines of its end.
fn tell_completed<H: Heap, O: Watchable, E: Watchable>(
    machine: &Machine<H>,
    lines: &str,
    out: &mut Watched<O>,
    err: &mut Watched<E>,
) -> Status
    requires out { out.old.failed ≡ false }
    requires err { err.old.failed ≡ false }
    ensures { (w : World) (shows : Bool) → MatchesWorld machine.now w → lines.now ≡ report w ++ heap_shown shows w
        → Leaves (words O.contents O.ends) (words E.contents E.ends) (completed shows w) result out.old out.new err.old err.new }
{
    match out.write_all(machine.output()) {
        Ok(()) => {
            tell_lines(lines.as_bytes(), err);
            status_of(machine)
        }
        Err(_) => {
            tell_write_failed(err);
            Status::Files
        }
    }
}

// Tells of a run at one of whose events a growth was refused.
pub(crate) fn tell_interrupted<H: Heap, O: Watchable, E: Watchable>(
    machine: &Machine<H>,
    out: &mut Watched<O>,
    err: &mut Watched<E>,
) -> Status
    requires out { out.old.failed ≡ false }
    requires err { err.old.failed ≡ false }
    ensures { (w : World) → MatchesWorld machine.now w
        → Leaves (words O.contents O.ends) (words E.contents E.ends) (interrupted w) result out.old out.new err.old err.new }
{
    match out.write_all(machine.output()) {
        Ok(()) => {
            let _told = write_out_of_memory(err);
            Status::OutOfMemory
        }
        Err(_) => {
            tell_write_failed(err);
            Status::Files
        }
    }
}

// Tells of a run whose events were all made. The lines of its end are made before anything is
// written; where a growth is refused then, the run is told of as at an event.
pub(crate) fn tell_end<H: Heap, O: Watchable, E: Watchable>(
    alloc: Global,
    machine: &Machine<H>,
    show_heap: bool,
    out: &mut Watched<O>,
    err: &mut Watched<E>,
) -> Status
    requires out { out.old.failed ≡ false }
    requires err { err.old.failed ≡ false }
    ensures { (w : World) → MatchesWorld machine.now w → (e : Ending) × EndsIn show_heap w e
        × Leaves (words O.contents O.ends) (words E.contents E.ends) e result out.old out.new err.old err.new }
{
    match end_text(alloc, machine, show_heap) {
        Ok(lines) => tell_completed(machine, &lines, out, err),
        Err(_) => tell_interrupted(machine, out, err),
    }
}

// The record of a journal, where one is wanted.
fn record_text<H: Heap, R: Origin>(
    alloc: Global,
    journal: &Journal<H, R>,
    is_recorded: bool,
) -> Result<Option<Vec<u8>>, AllocError>
    ensures { IfOk result (IsKept is_recorded (λ text. text ≡ record_text journal.now.entries)) }
{
    if is_recorded {
        Ok(Some(journal.record(alloc)?))
    } else {
        Ok(None)
    }
}

// Tells of a run whose events were all made. The lines of its end and its record, where it is wanted,
// are made before anything is written; where a growth is refused then, the run is told of as at an
// event, and there is no record.
pub(crate) fn tell_all_made<H: Heap, R: Origin, O: Watchable, E: Watchable>(
    alloc: Global,
    journal: &Journal<H, R>,
    wanted: Wanted,
    out: &mut Watched<O>,
    err: &mut Watched<E>,
) -> Finished
    requires out { out.old.failed ≡ false }
    requires err { err.old.failed ≡ false }
    ensures { (w : World) → MatchesWorld journal.now.machine w → (e : Ending) × EndsIn wanted.show_heap w e
        × Leaves (words O.contents O.ends) (words E.contents E.ends) e result.status out.old out.new err.old err.new
        × IsKeptIf (made_whole e) wanted.is_recorded (λ _ text. text ≡ record_text journal.now.entries) result.record_text }
{
    let machine = journal.machine();
    let Ok(lines) = end_text(alloc, machine, wanted.show_heap) else {
        return Finished::without_record(tell_interrupted(machine, out, err));
    };
    match record_text(alloc, journal, wanted.is_recorded) {
        Ok(text) => Finished {
            status: tell_completed(machine, &lines, out, err),
            record_text: text,
        },
        Err(_) => Finished::without_record(tell_interrupted(machine, out, err)),
    }
}

// Tells of a run by its journal, and by whether a growth was refused before its events were all made.
fn tell_made<H: Heap, R: Origin, O: Watchable, E: Watchable>(
    alloc: Global,
    journal: &Journal<H, R>,
    made: Result<(), OutOfMemory>,
    wanted: Wanted,
    out: &mut Watched<O>,
    err: &mut Watched<E>,
) -> Finished
    requires out { out.old.failed ≡ false }
    requires err { err.old.failed ≡ false }
    ensures { (choice : Choice)
        → MatchResult made (λ _. RunEnds R.first choice (all_made (world_after R.first journal.now.entries))) (λ _. RunEnds R.first choice (cut_short (world_after R.first journal.now.entries)))
        → OnOk made (IsJournal wanted.stress R.first choice journal.now.entries)
        → (e : Ending) × Ends wanted.show_heap R.first choice e
        × Leaves (words O.contents O.ends) (words E.contents E.ends) e result.status out.old out.new err.old err.new
        × IsKeptIf (made_whole e) wanted.is_recorded (IsRecord wanted.stress R.first choice) result.record_text }
{
    let machine = journal.machine();
    match made {
        Ok(()) => tell_all_made(alloc, journal, wanted, out, err),
        Err(_) => Finished::without_record(tell_interrupted(machine, out, err)),
    }
}

// Makes the events of a source from the first world on, and tells of the run.
fn run_events<S: EventsDue, H: Heap + Drop, R: Origin, O: Watchable, E: Watchable>(
    alloc: Global,
    machine: Machine<H>,
    source: &mut S,
    wanted: Wanted,
    out: &mut Watched<O>,
    err: &mut Watched<E>,
) -> Finished
    requires first { MatchesWorld machine R.first }
    requires knows { S.knows source.old R.first }
    requires out { out.old.failed ≡ false }
    requires err { err.old.failed ≡ false }
    ensures { (e : Ending) × Ends wanted.show_heap R.first (listed (S.due source.old R.first)) e
        × Leaves (words O.contents O.ends) (words E.contents E.ends) e result.status out.old out.new err.old err.new
        × IsKeptIf (made_whole e) wanted.is_recorded (IsRecord wanted.stress R.first (listed (S.due source.old R.first))) result.record_text }
{
    let (journal, made) = make_journal::<S, H, R>(alloc, machine, source, wanted.stress);
    let finished = tell_made(alloc, &journal, made, wanted, out, err);
    drop(journal);
    finished
}

// Makes the events of a source from a machine's beginning on, by one worker, and tells of the run.
fn run_by_one_worker<H: Heap + Drop, O: Watchable, E: Watchable>(
    alloc: Global,
    machine: Machine<H>,
    source: &RunSource,
    wanted: Wanted,
    out: &mut Watched<O>,
    err: &mut Watched<E>,
) -> Finished
    requires first { MatchesWorld machine (beginning machine) }
    requires out { out.old.failed ≡ false }
    requires err { err.old.failed ≡ false }
    ensures { (e : Ending) × Ends wanted.show_heap (beginning machine) (listed (events_made source.now (beginning machine))) e
        × Leaves (words O.contents O.ends) (words E.contents E.ends) e result.status out.old out.new err.old err.new
        × IsKeptIf (made_whole e) wanted.is_recorded (IsRecord wanted.stress (beginning machine) (listed (events_made source.now (beginning machine)))) result.record_text }
{
    match source {
        RunSource::Schedule(schedule) => {
            let mut events = Scheduled::new(schedule);
            run_events::<Scheduled<'_>, H, Brand, O, E>(
                alloc,
                machine,
                &mut events,
                wanted,
                out,
                err,
            )
        }
        RunSource::RoundRobin(robin) => {
            let mut events = Turns::new(alloc, *robin);
            run_events::<Turns, H, Brand, O, E>(alloc, machine, &mut events, wanted, out, err)
        }
    }
}

// Tells of class-file bytes that were made for a file of this name.
fn tell_assembled<O: Watchable, E: Watchable>(
    alloc: Global,
    bytes: &[u8],
    file: &str,
    out: &mut Watched<O>,
    err: &mut Watched<E>,
) -> Status
    requires out { out.old.failed ≡ false }
    requires err { err.old.failed ≡ false }
    ensures { Leaves (words O.contents O.ends) (words E.contents E.ends) (assembled bytes.now) result out.old out.new err.old err.new }
{
    match out.write_all(bytes) {
        Ok(()) => Status::Done,
        Err(_) => {
            tell_unwritten(alloc, file, err);
            Status::Files
        }
    }
}

// Tells of the text of a class, by the line of its first part that its text cannot say.
fn tell_said<O: Watchable, E: Watchable>(
    text: &ClassText,
    line: &str,
    out: &mut Watched<O>,
    err: &mut Watched<E>,
) -> Status
    requires out { out.old.failed ≡ false }
    requires err { err.old.failed ≡ false }
    ensures { (name : List ℕ) (commented : Bool) (class : ClassParts) → string_bytes text.now.text ≡ class_text commented class → text.now.unsaid ≡ first_unsaid class
        → line.now ≡ unsaid_line name (first_unsaid class)
        → Leaves (words O.contents O.ends) (words E.contents E.ends) (disassembled name commented class) result out.old out.new err.old err.new }
{
    match out.write_all(text.text.as_bytes()) {
        Ok(()) => {
            tell_lines(line.as_bytes(), err);
            unsaid_status(text.unsaid)
        }
        Err(_) => {
            tell_write_failed(err);
            Status::Files
        }
    }
}

// Tells of the text of the class of the file of this name. The line of what its text cannot say is made
// before anything is written.
fn tell_text<O: Watchable, E: Watchable>(
    alloc: Global,
    text: &ClassText,
    file: &str,
    out: &mut Watched<O>,
    err: &mut Watched<E>,
) -> Status
    requires out { out.old.failed ≡ false }
    requires err { err.old.failed ≡ false }
    ensures { (commented : Bool) (class : ClassParts) → string_bytes text.now.text ≡ class_text commented class → text.now.unsaid ≡ first_unsaid class
        → Leaves (words O.contents O.ends) (words E.contents E.ends) (disassembled file.now commented class) result out.old out.new err.old err.new
        ⊎ Leaves (words O.contents O.ends) (words E.contents E.ends) exhausted result out.old out.new err.old err.new }
{
    match unsaid_line(alloc, file, text.unsaid) {
        Ok(line) => tell_said(text, &line, out, err),
        Err(_) => tell_exhausted(err),
    }
}

// Tells that a growth was refused before the first event. Nothing is written to the output.
pub(crate) fn tell_exhausted<E: Watchable>(err: &mut Watched<E>) -> Status
    requires { err.old.failed ≡ false }
    ensures { Tells (words E.contents E.ends) exhausted result err.old err.new }
{
    let _told = write_out_of_memory(err);
    Status::OutOfMemory
}

// The line of a refusal.
fn refusal_line(alloc: Global, refusal: Refusal<'_>) -> Result<String, AllocError>
    ensures { IfOk result (λ line. string_bytes line ≡ reason_line (reason_of refusal.entry)) }
{
    format!(in alloc; "{refusal}\n")
}

// Tells why a job is not done, or where memory is refused to that line that it was.
fn tell_refusal<E: Watchable>(alloc: Global, refusal: Refusal<'_>, err: &mut Watched<E>) -> Status
    requires { err.old.failed ≡ false }
    ensures { Tells (words E.contents E.ends) (turned_away (reason_of refusal.entry)) result err.old err.new
        ⊎ Tells (words E.contents E.ends) exhausted result err.old err.new }
{
    let status = refusal.status();
    match refusal_line(alloc, refusal) {
        Ok(line) => {
            tell_lines(line.as_bytes(), err);
            status
        }
        Err(_) => tell_exhausted(err),
    }
}

/// Tells why a job is not done. Nothing is written to the output.
pub(crate) fn tell_obstacle<E: Watchable>(
    alloc: Global,
    obstacle: Obstacle<'_>,
    err: &mut Watched<E>,
) -> Status
    requires { err.old.failed ≡ false }
    ensures job { (v : Verdict) → Hinders v obstacle.entry → (e : Ending) × Allows v e × (IsTalk e → ⊥) × (output_of e ≡ [])
        × Tells (words E.contents E.ends) e result err.old err.new × (made_whole e ≡ None) }
    // The same of a run of which something is told.
    ensures told { (tells : Telling) (v : Result ToldRun Cause) → Hinders v obstacle.entry
        → (e : TellingEnding) × TellingAllows tells v e × (telling_output tells e ≡ []) × SaysEnding (words E.contents E.ends) tells e result err.old err.new }
{
    match obstacle {
        Obstacle::Refused(refusal) => tell_refusal(alloc, refusal, err),
        Obstacle::OutOfMemory => tell_exhausted(err),
    }
}

// Makes the events of a run as they are chosen, from a machine's beginning on, and tells of the run.
fn run_as_chosen<H: Heap + Drop + Send, W: Threads + Wait + Sync, O: Watchable, E: Watchable>(
    rt: &W,
    alloc: Global,
    machine: Machine<H>,
    plan: &RunPlan,
    wanted: Wanted,
    out: &mut Watched<O>,
    err: &mut Watched<E>,
) -> Finished
    requires first { MatchesWorld machine (beginning machine) }
    requires out { out.old.failed ≡ false }
    requires err { err.old.failed ≡ false }
    ensures { (e : Ending) × Ends wanted.show_heap (beginning machine) (choice_made plan.now (beginning machine)) e
        × Leaves (words O.contents O.ends) (words E.contents E.ends) e result.status out.old out.new err.old err.new
        × IsKeptIf (made_whole e) wanted.is_recorded (IsRecord wanted.stress (beginning machine) (choice_made plan.now (beginning machine))) result.record_text }
{
    match plan {
        RunPlan::Source(source) => { run_by_one_worker(alloc, machine, source, wanted, out, err) }
        RunPlan::Workers(workers) => {
            run_by_workers(rt, alloc, machine, *workers, wanted, out, err)
        }
    }
}

// Runs the classes of a program over a heap with a collector.
fn execute_run<C: Collector + Drop + Send, W: Threads + Wait + Sync, O: Watchable, E: Watchable>(
    rt: &W,
    alloc: Global,
    job: &RunJob,
    collector: C,
    out: &mut Watched<O>,
    err: &mut Watched<E>,
) -> Finished
    requires out { out.old.failed ≡ false }
    requires err { err.old.failed ≡ false }
    ensures { (e : Ending) × Allows (run_verdict job.now) e × (IsTalk e → ⊥)
        × Leaves (words O.contents O.ends) (words E.contents E.ends) e result.status out.old out.new err.old err.new
        × IsKeptIf (made_whole e) job.now.is_recorded (IsRecordOf (run_verdict job.now) job.now.stress) result.record_text }
{
    match prepare(alloc, job, collector) {
        Ok((machine, plan)) => {
            let wanted = Wanted {
                show_heap: job.show_heap,
                is_recorded: job.is_recorded,
                stress: job.stress,
            };
            run_as_chosen(rt, alloc, machine, &plan, wanted, out, err)
        }
        Err(obstacle) => Finished::without_record(tell_obstacle(alloc, obstacle, err)),
    }
}

fn execute_assemble<O: Watchable, E: Watchable>(
    alloc: Global,
    job: &AssembleJob,
    out: &mut Watched<O>,
    err: &mut Watched<E>,
) -> Status
    requires out { out.old.failed ≡ false }
    requires err { err.old.failed ≡ false }
    ensures { IsDoneUnread (words O.contents O.ends) (words E.contents E.ends) (assembly_verdict job.now.text) result out.old out.new err.old err.new }
{
    match assemble_file(alloc, &job.text) {
        Ok(bytes) => tell_assembled(alloc, &bytes, &job.output, out, err),
        Err(obstacle) => tell_obstacle(alloc, obstacle, err),
    }
}

fn execute_disassemble<O: Watchable, E: Watchable>(
    alloc: Global,
    job: &DisassembleJob,
    out: &mut Watched<O>,
    err: &mut Watched<E>,
) -> Status
    requires out { out.old.failed ≡ false }
    requires err { err.old.failed ≡ false }
    ensures { IsDoneUnread (words O.contents O.ends) (words E.contents E.ends) (disassembly_verdict job.now) result out.old out.new err.old err.new }
{
    match disassemble_file(alloc, job) {
        Ok(text) => tell_text(alloc, &text, &job.file.name, out, err),
        Err(obstacle) => tell_obstacle(alloc, obstacle, err),
    }
}

// Runs the classes of a program over a heap with a collector by the events of a record.
fn execute_replay<C: Collector + Drop, O: Watchable, E: Watchable>(
    alloc: Global,
    job: &ReplayJob,
    collector: C,
    out: &mut Watched<O>,
    err: &mut Watched<E>,
) -> Status
    requires out { out.old.failed ≡ false }
    requires err { err.old.failed ≡ false }
    ensures { IsDoneUnread (words O.contents O.ends) (words E.contents E.ends) (replay_verdict job.now) result out.old out.new err.old err.new }
{
    match prepare_replay(alloc, job, collector) {
        Ok((machine, read)) => run_replay(alloc, machine, &read, job.show_heap, out, err),
        Err(obstacle) => tell_obstacle(alloc, obstacle, err),
    }
}

// Tries the schedules of the program of some files.
fn execute_explore<W: Threads, O: Watchable, E: Watchable>(
    rt: &W,
    alloc: Global,
    job: &ExploreJob,
    out: &mut Watched<O>,
    err: &mut Watched<E>,
) -> Status
    requires out { out.old.failed ≡ false }
    requires err { err.old.failed ≡ false }
    ensures { IsDoneUnread (words O.contents O.ends) (words E.contents E.ends) (explore_verdict job.now) result out.old out.new err.old err.new }
{
    match prepare_exploration(alloc, job, JobCollector::<&W>::OneCopier) {
        Ok(machine) => run_exploration(rt, alloc, machine, job, out, err),
        Err(obstacle) => tell_obstacle(alloc, obstacle, err),
    }
}

// Tells that a write to the output failed, where one has.
fn tell_failure<O: Watchable, E: Watchable>(out: &Watched<O>, err: &mut Watched<E>)
    requires { err.old.failed ≡ false }
    ensures { FailureTold (words E.contents E.ends) out.now.failed err.old err.new }
{
    if out.has_failed() {
        tell_write_failed(err);
    }
}

// Answers the commands of a session over a heap with a collector.
fn execute_debug<C: Collector + Drop, W: Wait, R: Readable, O: Watchable, E: Watchable>(
    rt: &W,
    alloc: Global,
    job: &DebugJob,
    collector: C,
    reader: &mut Watched<R>,
    out: &mut Watched<O>,
    err: &mut Watched<E>,
) -> Status
    requires out { out.old.failed ≡ false }
    requires err { err.old.failed ≡ false }
    ensures { IsDone (reads R.remaining R.fails) (words O.contents O.ends) (words E.contents E.ends) (debug_verdict job.now)
        result reader.old reader.new out.old out.new err.old err.new }
{
    match prepare_session(alloc, job, collector) {
        Ok(machine) => {
            let mut debugger = Debugger::new(alloc, machine);
            let status = answer_lines(rt, alloc, &mut debugger, reader, out);
            drop(debugger);
            tell_failure(out, err);
            status
        }
        Err(obstacle) => tell_obstacle(alloc, obstacle, err),
    }
}

/// Does what a job says. A job that cannot be done gets a line on `err` that says why, and writes
/// nothing to `out`; where a growth was refused that is one line, and the output of the events made
/// before it is written. Only a session of the debugger reads from `reader`.
///
/// `Run`: the classes of the program are run by the events of the schedule, or where there is none by
/// those of the round robin, one after the other, on this thread, which has the machine and its journal
/// for itself and waits for nobody; or by those that several workers choose, each in a thread of its own
/// where one can be started. What the Java program prints goes to `out`, once the last event is
/// made. Then `err` gets a line for each thread that an exception has ended, one for the stop or for
/// the threads that have not ended, if any, and the view of the heap, where the job says so; the
/// status says how the run ended. The view is made before anything is written; where a growth is
/// refused then, all of the output is written, and the line and the status are those of want of
/// memory. Where the job asks for collections between the events of one worker, one is made before each
/// and one behind the last; nothing that is told changes by them. Where it asks for a record and the run
/// was made whole, there is one: the lines of the run's journal, with those collections.
///
/// `Replay`: the same, but that the events are those of a record, made again on this thread. At the
/// first of them whose reply is of another kind than its line says, what was printed up to and with it
/// is written, `err` gets the line that names the record's line alone, and the status is `BadSchedule`.
///
/// `Explore`: the schedules of the program within the job's bounds are tried, on this thread, and what
/// was found goes to `out`: each outcome once, with a schedule of the fewest switches that comes to it,
/// and whether all were tried; or the schedule of the outcome that the job asks for, alone. The status is
/// `SeveralOutcomes` where there is more than one, `NotAllTried` where not all were tried, and else that of
/// a run with the one outcome. Where there is no outcome of the number, `err` gets the line for 81, and
/// the status is `Refused`. Where a growth was refused before the end, what was found is told all the
/// same, and the line and the status are those of want of memory; nothing is written where it was
/// refused to the text.
///
/// `Assemble`: the bytes of the class file of the class that the text denotes go to `out`, once they
/// stand whole in memory, and the status is `Done`.
///
/// `Disassemble`: the text of the class that the file holds goes to `out`, once it stands whole in
/// memory. Where each part of the class can be said, the text denotes the class, and the status is
/// `Done`; else `err` gets a line that names the first part that its text cannot say, and the status is
/// `Refused`.
///
/// `Debug`: the lines of `reader` are commands of the debugger, from the first world of the program
/// on. Each answer goes to `out`, and is handed on, before the next line is read; a refusal as
/// `? NUMBER NAME`, also of a line that is not UTF-8. What the Java program prints is not written.
/// The status is `Done` at the end of `reader`, and `Files` where it fails; the line for want of
/// memory is the last, and then the status is `OutOfMemory`.
///
/// The heap of a run, of a replay and of a session is collected by the job's copiers: where they are several,
/// each in a thread of its own where one can be started, and a collection waits for them. What is told does
/// not depend on how many there are.
///
/// Where a write to `out` fails, a beginning of the output stands in it, the status is `Files`, and
/// `err` gets a line that says so; no other job ends with this status but one with a file that could
/// not be read, or a session whose reader failed. A failing `err` changes no status.
#[tactic(auto, unfolding(crate::specs::Verdicts::verdict))]
pub fn execute<W: Threads + Wait + Sync, R: Readable, O: Watchable, E: Watchable>(
    rt: &W,
    alloc: Global,
    job: &Job,
    reader: &mut Watched<R>,
    out: &mut Watched<O>,
    err: &mut Watched<E>,
) -> Finished
    requires out { out.old.failed ≡ false }
    requires err { err.old.failed ≡ false }
    ensures { IsFinished (reads R.remaining R.fails) (words O.contents O.ends) (words E.contents E.ends) job.now
        result reader.old reader.new out.old out.new err.old err.new }
{
    match job {
        Job::Run(run) => {
            let collector = job_collector(rt, run.copiers);
            execute_run(rt, alloc, run, collector, out, err)
        }
        Job::Replay(replay) => {
            let collector = job_collector(rt, replay.copiers);
            Finished::without_record(execute_replay(alloc, replay, collector, out, err))
        }
        Job::Explore(explore) => {
            Finished::without_record(execute_explore(rt, alloc, explore, out, err))
        }
        Job::Assemble(assemble) => {
            Finished::without_record(execute_assemble(alloc, assemble, out, err))
        }
        Job::Disassemble(disassemble) => {
            Finished::without_record(execute_disassemble(alloc, disassemble, out, err))
        }
        Job::Debug(debug) => {
            let collector = job_collector(rt, debug.copiers);
            Finished::without_record(execute_debug(rt, alloc, debug, collector, reader, out, err))
        }
    }
}

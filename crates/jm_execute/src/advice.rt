// What is said behind the lines of a job, where more is asked for.

ghost use Rattle.std.specs.Prelude.{◌≡◌, ◌++◌, ◌⊎◌, ℕ, List, Some, false, IfOk, OnOk, string_bytes};
ghost use Rattle.jm_choice.specs.Choices.{listed};
ghost use Rattle.jm_machine.specs.View.{MatchesWorld};
ghost use Rattle.jm_program.specs.declared.class.ClassParts.{ClassParts};
ghost use Rattle.jm_why.specs.Answers.{why};
ghost use Rattle.jm_world.specs.Loading.{loaded_world};
ghost use Rattle.jm_world.specs.World.{World};
ghost use Rattle.jm_execute.specs.Advice.{Advises, advice, answer_if, choice_answer, ends_badly, is_done, job_advice, most_of, no_answer, reason_fault, replay_answer, run_answer, scheduled_answer, see_line, status_says, verdict_advice};
ghost use Rattle.jm_execute.specs.Endings.{LinesTold};
ghost use Rattle.jm_execute.specs.Refusals.{Hinders, reason_of};
ghost use Rattle.jm_execute.specs.Sources.{choice_made, events_made};
ghost use Rattle.jm_execute.specs.Verdicts.{Verdict, Work, debug_verdict, explore_verdict, replay_verdict, run_verdict, scheduled_events};
ghost use Rattle.jm_execute.specs.Written.{words};

use crate::checking::findings_of;
use crate::copiers::{JobCollector, job_collector};
use crate::events::{RunPlan, RunSource};
use crate::preparation::{
    prepare, prepare_exploration, prepare_replay, prepare_session, schedule_in,
};
use crate::quote::up_to;
use crate::refusal::{Obstacle, Refusal};
use crate::report::tell_lines;
use crate::watchable::Watchable;
use crate::watched::Watched;
use jm_events::{EventsDue, Scheduled, Turns};
use jm_explain::Status;
use jm_heap::Heap;
use jm_job::{DebugJob, ExploreJob, InputFile, Job, ReplayJob, RunEvents, RunJob};
use jm_machine::Machine;
use jm_why::{watch, write_answer};
use std::alloc::{AllocError, Global};
use std::thread::Threads;

// ---- the number to ask for

// A text, and behind it the line with the number of what is said.
fn with_number(alloc: Global, text: &str, said: &str) -> Result<Vec<u8>, AllocError>
    ensures { IfOk result (λ more. more.items ≡ text.now ++ see_line said.now) }
{
    let mut more = Vec::new(alloc);
    more.extend_from_slice(text.as_bytes())?;
    more.extend_from_slice(b"see: jm explain ")?;
    more.extend_from_slice(up_to(said.as_bytes(), b' '))?;
    more.push(b'\n')?;
    Ok(more)
}

// What a status says of a job that there was, with its number in front.
fn status_says(status: Status) -> &'static str
    ensures { result.now ≡ status_says status }
{
    match status {
        Status::Done => "0",
        Status::CommandLine => "1",
        Status::Files => "2",
        Status::EndedByException => "3",
        Status::Refused => "81",
        Status::TagFault => "60",
        Status::HeapFull => "62",
        Status::OutOfMemory => "61",
        Status::NotEnded => "8",
        Status::BadSchedule => "71",
        Status::SeveralOutcomes => "10",
        Status::NotAllTried => "11",
    }
}

// The fault that a refusal is for, with its number in front.
fn fault_of(alloc: Global, refusal: &Refusal<'_>) -> Result<String, AllocError>
    ensures { IfOk result (λ said. string_bytes said ≡ reason_fault (reason_of refusal.now)) }
{
    match refusal {
        Refusal::NotRead(_) => String::from_str(alloc, "2"),
        Refusal::BadClass(_, fault) => format!(in alloc; "{fault}"),
        Refusal::BadText(_, fault) => format!(in alloc; "{fault}"),
        Refusal::Unwritten(_, fault) => format!(in alloc; "{fault}"),
        Refusal::Unlinked(fault) => format!(in alloc; "{fault}"),
        Refusal::HeapTooSmall => String::from_str(alloc, "63 HeapTooSmall"),
        Refusal::BadSchedule(line) => format!(in alloc; "70 BadSchedule({line})"),
    }
}

// ---- files that are refused

// What is said of files for which there is no job.
fn refused_advice(
    alloc: Global,
    files: &[InputFile],
    obstacle: Obstacle<'_>,
) -> Result<Vec<u8>, AllocError>
    ensures { (v : Verdict) (answer : Work → List ℕ) (status : Status) → Hinders v obstacle.entry
        → IfOk result (λ more. more.items ≡ verdict_advice files.now answer v status) }
{
    match obstacle {
        Obstacle::Refused(refusal) => {
            let said = fault_of(alloc, &refusal)?;
            let text = findings_of(alloc, files, true)?;
            with_number(alloc, &text, &said)
        }
        Obstacle::OutOfMemory => Err(AllocError),
    }
}

// ---- how a run ended

// Whether a run that ended with this status ended by a stop or an exception, or not at all.
fn ends_badly(status: Status) -> bool
    ensures { result ≡ ends_badly status }
{
    matches!(
        status,
        Status::EndedByException | Status::TagFault | Status::HeapFull | Status::NotEnded
    )
}

// The most events of turns.
fn most_of(events: &RunEvents) -> Option<u64>
    ensures { result ≡ most_of events.now }
{
    match events {
        RunEvents::RoundRobin(turns) => Some(turns.steps as u64),
        RunEvents::Schedule(_) | RunEvents::Workers(_) => None,
    }
}

// Makes the events that are due, and says how the run ended.
fn events_answer<H: Heap, S: EventsDue>(
    alloc: Global,
    machine: &mut Machine<H>,
    events: &mut S,
    most: Option<u64>,
) -> Result<String, AllocError>
    ensures { (w : World) → MatchesWorld machine.old w → S.knows events.old w
        → IfOk result (λ text. string_bytes text ≡ why most w (S.due events.old w)) }
{
    let kept = watch(alloc, machine, events)?;
    let mut text = String::new(alloc);
    write_answer(alloc, &mut text, machine, most, &kept)?;
    Ok(text)
}

// The same of the events of a source.
fn source_answer<H: Heap>(
    alloc: Global,
    machine: &mut Machine<H>,
    source: &RunSource,
    most: Option<u64>,
) -> Result<String, AllocError>
    ensures { (w : World) → MatchesWorld machine.old w
        → IfOk result (λ text. string_bytes text ≡ why most w (events_made source.now w)) }
{
    match source {
        RunSource::Schedule(schedule) => {
            let mut events = Scheduled::new(schedule);
            events_answer(alloc, machine, &mut events, most)
        }
        RunSource::RoundRobin(robin) => {
            let mut events = Turns::new(alloc, *robin);
            events_answer(alloc, machine, &mut events, most)
        }
    }
}

// The same of a run whose events are chosen so, where it ended badly; of several workers nothing is said.
fn plan_answer<H: Heap>(
    alloc: Global,
    machine: &mut Machine<H>,
    plan: &RunPlan,
    most: Option<u64>,
    status: Status,
) -> Result<String, AllocError>
    ensures { (w : World) → MatchesWorld machine.old w
        → IfOk result (λ text. string_bytes text ≡ answer_if (ends_badly status) (choice_answer most w (choice_made plan.now w))) }
{
    if !ends_badly(status) {
        return Ok(String::new(alloc));
    }
    match plan {
        RunPlan::Source(source) => source_answer(alloc, machine, source, most),
        RunPlan::Workers(_) => Ok(String::new(alloc)),
    }
}

// The same of a replay, by its record as a schedule, where it is one.
fn record_answer<H: Heap>(
    alloc: Global,
    machine: &mut Machine<H>,
    file: &InputFile,
    status: Status,
) -> Result<String, AllocError>
    ensures { (w : World) → MatchesWorld machine.old w
        → IfOk result (λ text. string_bytes text ≡ answer_if (ends_badly status) (scheduled_answer w (scheduled_events file.now))) }
{
    if !ends_badly(status) {
        return Ok(String::new(alloc));
    }
    match schedule_in(alloc, file) {
        Ok(schedule) => {
            let mut events = Scheduled::new(&schedule);
            events_answer(alloc, machine, &mut events, None)
        }
        Err(Obstacle::Refused(_)) => Ok(String::new(alloc)),
        Err(Obstacle::OutOfMemory) => Err(AllocError),
    }
}

// ---- jobs

fn run_advice<W: Threads>(
    rt: &W,
    alloc: Global,
    job: &RunJob,
    status: Status,
) -> Result<Vec<u8>, AllocError>
    ensures { IfOk result (λ more. more.items ≡ verdict_advice job.now.program.items (run_answer (most_of job.now.events)) (run_verdict job.now) status) }
{
    let collector = job_collector(rt, job.copiers);
    match prepare(alloc, job, collector) {
        Ok((mut machine, plan)) => {
            let most = most_of(&job.events);
            let text = plan_answer(alloc, &mut machine, &plan, most, status);
            drop(machine);
            with_number(alloc, &text?, status_says(status))
        }
        Err(obstacle) => refused_advice(alloc, &job.program, obstacle),
    }
}

fn replay_advice<W: Threads>(
    rt: &W,
    alloc: Global,
    job: &ReplayJob,
    status: Status,
) -> Result<Vec<u8>, AllocError>
    ensures { IfOk result (λ more. more.items ≡ verdict_advice job.now.program.items (replay_answer job.now.record_file) (replay_verdict job.now) status) }
{
    let collector = job_collector(rt, job.copiers);
    match prepare_replay(alloc, job, collector) {
        Ok((mut machine, _)) => {
            let text = record_answer(alloc, &mut machine, &job.record_file, status);
            drop(machine);
            with_number(alloc, &text?, status_says(status))
        }
        Err(obstacle) => refused_advice(alloc, &job.program, obstacle),
    }
}

fn explore_advice<W: Threads>(
    _rt: &W,
    alloc: Global,
    job: &ExploreJob,
    status: Status,
) -> Result<Vec<u8>, AllocError>
    ensures { IfOk result (λ more. more.items ≡ verdict_advice job.now.program.items no_answer (explore_verdict job.now) status) }
{
    match prepare_exploration(alloc, job, JobCollector::<&W>::OneCopier) {
        Ok(machine) => {
            drop(machine);
            with_number(alloc, "", status_says(status))
        }
        Err(obstacle) => refused_advice(alloc, &job.program, obstacle),
    }
}

fn debug_advice<W: Threads>(
    _rt: &W,
    alloc: Global,
    job: &DebugJob,
    status: Status,
) -> Result<Vec<u8>, AllocError>
    ensures { IfOk result (λ more. more.items ≡ verdict_advice job.now.program.items no_answer (debug_verdict job.now) status) }
{
    match prepare_session(alloc, job, JobCollector::<&W>::OneCopier) {
        Ok(machine) => {
            drop(machine);
            with_number(alloc, "", status_says(status))
        }
        Err(obstacle) => refused_advice(alloc, &job.program, obstacle),
    }
}

fn job_advice<W: Threads>(
    rt: &W,
    alloc: Global,
    job: &Job,
    status: Status,
) -> Result<Vec<u8>, AllocError>
    ensures { IfOk result (λ more. more.items ≡ job_advice job.now status) }
{
    match job {
        Job::Run(run) => run_advice(rt, alloc, run, status),
        Job::Replay(replay) => replay_advice(rt, alloc, replay, status),
        Job::Explore(explore) => explore_advice(rt, alloc, explore, status),
        Job::Debug(debug) => debug_advice(rt, alloc, debug, status),
        Job::Assemble(_) | Job::Disassemble(_) => with_number(alloc, "", status_says(status)),
    }
}

fn is_done(status: Status) -> bool
    ensures { result ≡ is_done status }
{
    matches!(status, Status::Done)
}

fn advice<W: Threads>(
    rt: &W,
    alloc: Global,
    job: &Job,
    status: Status,
) -> Result<Vec<u8>, AllocError>
    ensures { IfOk result (λ more. more.items ≡ advice job.now status) }
{
    if is_done(status) {
        return Ok(Vec::new(alloc));
    }
    job_advice(rt, alloc, job, status)
}

/// Writes to `err` what more there is to say of a job that ended with this status, and nothing where that
/// is `Done`: of files that are refused what [`check`](crate::check) tells of them, where the fault of a
/// text begins with `FILE:LINE:` and its line is quoted behind it; of a run or a replay that ended by a
/// stop or an exception, or had not ended, how it ended and where, as [`why`](crate::why) tells it, for
/// which it is made again; of a run by several workers nothing. Then comes `see: jm explain N`, the number
/// of what was refused, of the stop or of the status.
///
/// Where a growth was refused that is `see: jm explain 61` alone. A failing `err` changes nothing else.
///
/// Memory: the text, beside that of a run.
pub fn advise<W: Threads, E: Watchable>(
    rt: &W,
    alloc: Global,
    job: &Job,
    status: Status,
    err: &mut Watched<E>,
)
    requires { err.old.failed ≡ false }
    ensures { (text : List ℕ) × Advises job.now status text × LinesTold (words E.contents E.ends) (Some text) err.new.failed err.old err.new }
{
    match advice(rt, alloc, job, status) {
        Ok(text) => tell_lines(&text, err),
        Err(_) => tell_lines(b"see: jm explain 61\n", err),
    }
}

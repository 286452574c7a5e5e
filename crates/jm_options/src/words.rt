// What words ask for.

ghost use Rattle.std.specs.Prelude.{◌≡◌, ◌≤◌, ◌∷◌, [], MatchOption, codes, map};
ghost use Rattle.clap.specs.Words.{found_of, rows_of, subcommand_rows_of};
ghost use Rattle.jm_options.specs.Asked.{Answers, AnswersTo, Finds, Holds, HoldsAssemble, HoldsCheck, HoldsDebug, HoldsDisassemble, HoldsExplain, HoldsExplore, HoldsFilm, HoldsNamed, HoldsReplay, HoldsRun, HoldsSerialRun, HoldsTrace, spoken};

use crate::command::command;
use crate::fault::UsageFault;
use crate::request::{
    AssembleOptions, CheckOptions, DebugOptions, DisassembleOptions, ExplainOptions,
    ExploreOptions, FilmOptions, MAX_EVENTS, MAX_FILM_STEPS, MAX_QUANTUM, MAX_RUNS,
    MAX_SCHEDULE_STEPS, MAX_SLICE, MAX_STEPS, MAX_SWITCHES, MAX_WORKERS, Options, ReplayOptions,
    RunOptions, SerialRun, TraceOptions,
};
use crate::usage::{nothing_asked, one_file, refusal, unknown_entry};
use crate::values::{
    copiers_asked, heap_asked, is_set, number_asked, number_given, program_asked, stress_given,
    text_asked, text_given,
};
use clap::ArgMatches;
use jm_explain::{asked_by, entry_of};
use std::alloc::Global;

// A run by one worker, with so many steps at most.
fn serial_run(alloc: Global, matches: &ArgMatches<'_>, most: u32) -> Result<SerialRun, UsageFault>
    requires { most ≤ 10000000 }
    ensures { Finds result (HoldsSerialRun most (rows_of (found_of matches.now))) }
{
    Ok(SerialRun {
        heap: heap_asked(alloc, matches)?,
        copiers: copiers_asked(alloc, matches)?,
        schedule: text_given(alloc, matches, "schedule")?,
        steps: number_asked(alloc, matches, "steps", 1, most)?,
        quantum: number_asked(alloc, matches, "quantum", 1, MAX_QUANTUM)?,
        program: program_asked(alloc, matches)?,
    })
}

fn run_options(alloc: Global, matches: &ArgMatches<'_>) -> Result<RunOptions, UsageFault>
    ensures { Finds result (HoldsRun (rows_of (found_of matches.now))) }
{
    let serial = serial_run(alloc, matches, MAX_STEPS)?;
    let workers = number_asked(alloc, matches, "workers", 1, MAX_WORKERS)?;
    Ok(RunOptions {
        heap: serial.heap,
        copiers: serial.copiers,
        schedule: serial.schedule,
        steps: serial.steps,
        quantum: serial.quantum,
        workers,
        stress: stress_given(alloc, matches, workers)?,
        record_file: text_given(alloc, matches, "record")?,
        show_heap: is_set(matches, "show-heap"),
        tell: is_set(matches, "tell"),
        program: serial.program,
    })
}

fn replay_options(alloc: Global, matches: &ArgMatches<'_>) -> Result<ReplayOptions, UsageFault>
    ensures { Finds result (HoldsReplay (rows_of (found_of matches.now))) }
{
    Ok(ReplayOptions {
        heap: heap_asked(alloc, matches)?,
        copiers: copiers_asked(alloc, matches)?,
        show_heap: is_set(matches, "show-heap"),
        tell: is_set(matches, "tell"),
        record_file: text_asked(alloc, matches, "recorded")?,
        program: program_asked(alloc, matches)?,
    })
}

fn explore_options(alloc: Global, matches: &ArgMatches<'_>) -> Result<ExploreOptions, UsageFault>
    ensures { Finds result (HoldsExplore (rows_of (found_of matches.now))) }
{
    Ok(ExploreOptions {
        switches: number_asked(alloc, matches, "switches", 0, MAX_SWITCHES)?,
        steps: number_asked(alloc, matches, "steps", 1, MAX_SCHEDULE_STEPS)?,
        runs: number_asked(alloc, matches, "runs", 1, MAX_RUNS)?,
        slice: number_asked(alloc, matches, "slice", 1, MAX_SLICE)?,
        outcome: number_given(alloc, matches, "outcome", 1, MAX_RUNS)?,
        heap: heap_asked(alloc, matches)?,
        tell: is_set(matches, "tell"),
        program: program_asked(alloc, matches)?,
    })
}

fn check_options(alloc: Global, matches: &ArgMatches<'_>) -> Result<CheckOptions, UsageFault>
    ensures { Finds result (HoldsCheck (rows_of (found_of matches.now))) }
{
    Ok(CheckOptions {
        list: is_set(matches, "list"),
        program: program_asked(alloc, matches)?,
    })
}

fn trace_options(alloc: Global, matches: &ArgMatches<'_>) -> Result<TraceOptions, UsageFault>
    ensures { Finds result (HoldsTrace (rows_of (found_of matches.now))) }
{
    Ok(TraceOptions {
        run: serial_run(alloc, matches, MAX_STEPS)?,
        thread: number_given(alloc, matches, "thread", 1, MAX_EVENTS)?,
        first: number_asked(alloc, matches, "from", 1, MAX_EVENTS)?,
        most: number_asked(alloc, matches, "most", 1, MAX_EVENTS)?,
    })
}

fn film_options(alloc: Global, matches: &ArgMatches<'_>) -> Result<FilmOptions, UsageFault>
    ensures { Finds result (HoldsFilm (rows_of (found_of matches.now))) }
{
    Ok(FilmOptions {
        run: serial_run(alloc, matches, MAX_FILM_STEPS)?,
        first: number_asked(alloc, matches, "from", 1, MAX_EVENTS)?,
        source: text_given(alloc, matches, "source")?,
    })
}

fn assemble_options(alloc: Global, matches: &ArgMatches<'_>) -> Result<AssembleOptions, UsageFault>
    ensures { Finds result (HoldsAssemble (rows_of (found_of matches.now))) }
{
    let Some(input) = matches.get_str("input") else {
        return Err(nothing_asked(alloc));
    };
    let Some(output) = matches.get_str("output") else {
        return Err(nothing_asked(alloc));
    };
    if input == output {
        return Err(one_file(alloc, input));
    }
    Ok(AssembleOptions {
        input: String::from_str(alloc, input)?,
        output: String::from_str(alloc, output)?,
    })
}

fn disassemble_options(
    alloc: Global,
    matches: &ArgMatches<'_>,
) -> Result<DisassembleOptions, UsageFault>
    ensures { Finds result (HoldsDisassemble (rows_of (found_of matches.now))) }
{
    Ok(DisassembleOptions {
        bare: is_set(matches, "bare"),
        file: text_asked(alloc, matches, "class")?,
    })
}

fn debug_options(alloc: Global, matches: &ArgMatches<'_>) -> Result<DebugOptions, UsageFault>
    ensures { Finds result (HoldsDebug (rows_of (found_of matches.now))) }
{
    Ok(DebugOptions {
        heap: heap_asked(alloc, matches)?,
        copiers: copiers_asked(alloc, matches)?,
        tell: is_set(matches, "tell"),
        program: program_asked(alloc, matches)?,
    })
}

fn explain_options(alloc: Global, matches: &ArgMatches<'_>) -> Result<ExplainOptions, UsageFault>
    ensures { Finds result (HoldsExplain (rows_of (found_of matches.now))) }
{
    let Some(word) = matches.get_str("number") else {
        return Ok(ExplainOptions { entry: None });
    };
    match entry_of(asked_by(word)) {
        Some(entry) => Ok(ExplainOptions { entry: Some(entry) }),
        None => Err(unknown_entry(alloc, word)),
    }
}

// What the matches of the subcommand of a name ask for.
fn named_options(alloc: Global, name: &str, matches: &ArgMatches<'_>) -> Result<Options, UsageFault>
    ensures { Finds result (HoldsNamed name.now (rows_of (found_of matches.now))) }
{
    match name {
        "run" => run_options(alloc, matches).map(Options::Run),
        "replay" => replay_options(alloc, matches).map(Options::Replay),
        "explore" => explore_options(alloc, matches).map(Options::Explore),
        "check" => check_options(alloc, matches).map(Options::Check),
        "why" => serial_run(alloc, matches, MAX_STEPS).map(Options::Why),
        "trace" => trace_options(alloc, matches).map(Options::Trace),
        "film" => film_options(alloc, matches).map(Options::Film),
        "asm" => assemble_options(alloc, matches).map(Options::Assemble),
        "dis" => disassemble_options(alloc, matches).map(Options::Disassemble),
        "debug" => debug_options(alloc, matches).map(Options::Debug),
        "explain" => explain_options(alloc, matches).map(Options::Explain),
        "version" => Ok(Options::Version),
        _ => Err(nothing_asked(alloc)),
    }
}

fn found_options(alloc: Global, matches: &ArgMatches<'_>) -> Result<Options, UsageFault>
    ensures { Finds result (Holds (subcommand_rows_of matches.now)) }
{
    match matches.subcommand() {
        Some((name, matches)) => named_options(alloc, name, matches),
        None => Err(nothing_asked(alloc)),
    }
}

// What words ask for as they stand.
fn asked_options(alloc: Global, words: &[&str]) -> Result<Options, UsageFault>
    ensures { AnswersTo (map (λ w. w.now) words.now) result }
{
    let command = command(alloc)?;
    match command.try_get_matches_from(words) {
        Ok(matches) => found_options(alloc, &matches),
        Err(error) => Err(refusal(alloc, &error)),
    }
}

// The program's name, where it is alone with `--version`.
fn asks_version<'a>(words: &[&'a str]) -> Option<&'a str>
    ensures { MatchOption result (spoken (map (λ w. w.now) words.now) ≡ map (λ w. w.now) words.now)
        (λ program. spoken (map (λ w. w.now) words.now) ≡ program.now ∷ codes "version" ∷ []) }
{
    if words.len() == 2 && words[1] == "--version" {
        Some(words[0])
    } else {
        None
    }
}

/// What words ask for. The first word is the program's name, as the system gives it; `--version` alone
/// behind it is `version`.
///
/// `Usage` has a text for the user: the help that was asked for, or what is wrong with the words and
/// how they are used. `OutOfMemory` says that a growth was refused.
pub fn options(alloc: Global, words: &[&str]) -> Result<Options, UsageFault>
    ensures { Answers (map (λ w. w.now) words.now) result }
{
    match asks_version(words) {
        Some(program) => asked_options(alloc, &[program, "version"]),
        None => asked_options(alloc, words),
    }
}

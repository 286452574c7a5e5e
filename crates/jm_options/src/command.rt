// The command line as `clap` reads it.

ghost use Rattle.std.specs.Prelude.{IfOk};
ghost use Rattle.clap.specs.Words.{App, with_subcommand};
ghost use Rattle.jm_options.specs.CommandLine.{IsSeenAs, jm, top_command};
ghost use Rattle.jm_options.specs.Rows.{app_said};

use crate::argument::{
    Argument, BARE, CLASS, COPIERS, FILE, FILM_STEPS, FROM, HEAP, INPUT, LIST, MAIN, MOST, NUMBER,
    OUTCOME, OUTPUT, PATH, QUANTUM, RECORD, RECORDED, RUNS, SCHEDULE, SCHEDULE_STEPS, SHOW_HEAP,
    SLICE, SOURCE, STEPS, STRESS, SWITCHES, TELL, THREAD, WORKERS, argument_of,
};
use clap::Command;
use std::alloc::{AllocError, Global};

/// A subcommand: its name, what it is about, what the help says behind its arguments, and these.
#[derive(Clone, Copy)]
struct Subcommand {
    name: &'static str,
    about: &'static str,
    more: &'static str,
    arguments: &'static [Argument],
}

const RUN: Subcommand = Subcommand {
    name: "run",
    about: "Run a program: its threads take turns, or a schedule says which events are made",
    more: "Example: jm run Main.class Other.class\n\nClass files come from `javac --release 8`. What a number means says `jm explain N`.",
    arguments: &[
        HEAP, COPIERS, SCHEDULE, STEPS, QUANTUM, WORKERS, STRESS, RECORD, SHOW_HEAP, TELL, PATH,
        MAIN, FILE,
    ],
};

const REPLAY: Subcommand = Subcommand {
    name: "replay",
    about: "Run a program again by the events of a record, and compare how each is answered",
    more: "Example: jm replay run.record Main.class Other.class\n\nClass files come from `javac --release 8`. What a number means says `jm explain N`.",
    arguments: &[HEAP, COPIERS, SHOW_HEAP, TELL, PATH, MAIN, RECORDED, FILE],
};

const EXPLORE: Subcommand = Subcommand {
    name: "explore",
    about: "Try every schedule of a program up to so many switches, and tell each outcome",
    more: "Example: jm explore --switches 2 Main.class Other.class\n\nClass files come from `javac --release 8`. What a number means says `jm explain N`.",
    arguments: &[
        SWITCHES,
        SCHEDULE_STEPS,
        RUNS,
        SLICE,
        OUTCOME,
        HEAP,
        TELL,
        PATH,
        MAIN,
        FILE,
    ],
};

const CHECK: Subcommand = Subcommand {
    name: "check",
    about: "Say all that is refused and missing in a program's files, without running it",
    more: "Example: jm check Main.class Other.class\n\nClass files come from `javac --release 8`. What a number means says `jm explain N`.",
    arguments: &[LIST, PATH, MAIN, FILE],
};

const WHY: Subcommand = Subcommand {
    name: "why",
    about: "Run a program again without its output, and say how the run ended, and where",
    more: "Example: jm why Main.class Other.class\n\nClass files come from `javac --release 8`. What a number means says `jm explain N`.",
    arguments: &[HEAP, COPIERS, SCHEDULE, STEPS, QUANTUM, PATH, MAIN, FILE],
};

const TRACE: Subcommand = Subcommand {
    name: "trace",
    about: "Run a program again without its output, and show each event in a line",
    more: "Example: jm trace --thread 1 --most 20 Main.class Other.class\n\nClass files come from `javac --release 8`. What a number means says `jm explain N`.",
    arguments: &[
        THREAD, FROM, MOST, HEAP, COPIERS, SCHEDULE, STEPS, QUANTUM, PATH, MAIN, FILE,
    ],
};

const FILM: Subcommand = Subcommand {
    name: "film",
    about: "Write the events of a run as a page to look at in a browser",
    more: "Example: jm film Main.class Other.class > page.html\n\nClass files come from `javac --release 8`. What a number means says `jm explain N`.",
    arguments: &[
        FROM, HEAP, COPIERS, SCHEDULE, FILM_STEPS, QUANTUM, SOURCE, PATH, MAIN, FILE,
    ],
};

const ASSEMBLE: Subcommand = Subcommand {
    name: "asm",
    about: "Assemble a text in Jasmin's syntax into a class file",
    more: "Example: jm asm Main.j Main.class\n\nOUT is another file than IN. What a number means says `jm explain N`.",
    arguments: &[INPUT, OUTPUT],
};

const DISASSEMBLE: Subcommand = Subcommand {
    name: "dis",
    about: "Show the text of a class in Jasmin's syntax, which `asm` gives back as the class",
    more: "Example: jm dis Main.class\n\nClass files come from `javac --release 8`. What a number means says `jm explain N`.",
    arguments: &[BARE, CLASS],
};

const DEBUG: Subcommand = Subcommand {
    name: "debug",
    about: "Show a program at any event: commands are read from standard input, a line each",
    more: "Example: jm debug Main.class Other.class\n\nClass files come from `javac --release 8`. What a number means says `jm explain N`.",
    arguments: &[HEAP, COPIERS, TELL, PATH, MAIN, FILE],
};

const EXPLAIN: Subcommand = Subcommand {
    name: "explain",
    about: "Say what a number means: that of a refusal, of a stop or of an exit status",
    more: "Example: jm explain 51\nExample: jm explain NoClass",
    arguments: &[NUMBER],
};

const VERSION: Subcommand = Subcommand {
    name: "version",
    about: "Say which jm this is, and which kit it is written for",
    more: "Example: jm version\n\n`jm --version` is the same.",
    arguments: &[],
};

// A command line with one subcommand more, if there is a command line.
fn with_subcommand<'a>(
    alloc: Global,
    jm: Result<Command<'a>, AllocError>,
    said: &Subcommand,
) -> Result<Command<'a>, AllocError>
    ensures { (app : App) → IfOk jm.entry (λ c. IsSeenAs c app) → IfOk result (λ c. IsSeenAs c (with_subcommand app (app_said said.now).top)) }
{
    let jm = jm?;
    let mut command = Command::new(alloc, said.name)
        .about(said.about)
        .after_help(said.more);
    let arguments = said.arguments;
    for argument in arguments {
        command = command.arg(argument_of(alloc, argument))?;
    }
    jm.subcommand(command)
}

fn top_command<'a>(alloc: Global) -> Command<'a>
    ensures { IsSeenAs result top_command }
{
    Command::new(alloc, "jm")
        .about("A Java virtual machine that makes one event after the other")
        .after_help(
            "Example: jm run Main.class\n\nClass files come from `javac --release 8`. What the numbers mean says `jm explain`.",
        )
        .subcommand_required(true)
        .arg_required_else_help(true)
}

/// The command line of `jm`.
pub fn command<'a>(alloc: Global) -> Result<Command<'a>, AllocError>
    ensures { IfOk result (λ c. IsSeenAs c jm) }
{
    let jm = with_subcommand(alloc, Ok(top_command(alloc)), &RUN);
    let jm = with_subcommand(alloc, jm, &REPLAY);
    let jm = with_subcommand(alloc, jm, &EXPLORE);
    let jm = with_subcommand(alloc, jm, &CHECK);
    let jm = with_subcommand(alloc, jm, &WHY);
    let jm = with_subcommand(alloc, jm, &TRACE);
    let jm = with_subcommand(alloc, jm, &FILM);
    let jm = with_subcommand(alloc, jm, &ASSEMBLE);
    let jm = with_subcommand(alloc, jm, &DISASSEMBLE);
    let jm = with_subcommand(alloc, jm, &DEBUG);
    let jm = with_subcommand(alloc, jm, &EXPLAIN);
    with_subcommand(alloc, jm, &VERSION)
}

// The arguments of the subcommands.

ghost use Rattle.std.specs.Prelude.{◌≡◌, false};
ghost use Rattle.clap.specs.Words.{rule_of};
ghost use Rattle.jm_options.specs.Rows.{rule_said};

use crate::request::{
    MAX_COPIERS, MAX_EVENTS, MAX_FILM_STEPS, MAX_HEAP, MAX_QUANTUM, MAX_RUNS, MAX_SCHEDULE_STEPS,
    MAX_SLICE, MAX_STEPS, MAX_SWITCHES, MAX_WORKERS, MIN_HEAP,
};
use clap::{Arg, ArgAction, value_parser};
use std::alloc::Global;

/// How an argument stands in the command line. VALUE is the word that the help has for its value.
#[derive(Clone, Copy)]
pub enum Form {
    /// `[--name]`
    Flag,
    /// `[--name VALUE]`
    Text,
    /// `[--name VALUE]...`
    Texts,
    /// `[--name VALUE]`, a number from the first to the second.
    Number(u32, u32),
    /// The same, and the text is that of the number where it is left out.
    NumberOr(u32, u32, &'static str),
    /// `VALUE`
    Word,
    /// `VALUE...`
    Words,
    /// `[VALUE]`
    OptionalWord,
}

/// An argument of a subcommand.
#[derive(Clone, Copy)]
pub struct Argument {
    pub name: &'static str,
    pub value: &'static str,
    pub form: Form,
    pub help: &'static str,
}

pub const HEAP: Argument = Argument {
    name: "heap",
    value: "N",
    form: Form::NumberOr(MIN_HEAP, MAX_HEAP, "65536"),
    help: "Limit of the heap in cells, from 16 to 16777216",
};

pub const COPIERS: Argument = Argument {
    name: "copiers",
    value: "N",
    form: Form::NumberOr(1, MAX_COPIERS, "1"),
    help: "Copiers that collect the heap side by side, from 1 to 16; what is printed does not depend on them",
};

pub const SCHEDULE: Argument = Argument {
    name: "schedule",
    value: "FILE",
    form: Form::Text,
    help: "File of the events to make, in lines `t N`, `t N x K`, `minor` or `full`; without one the threads take turns",
};

pub const STEPS: Argument = Argument {
    name: "steps",
    value: "N",
    form: Form::NumberOr(1, MAX_STEPS, "1000000"),
    help: "Most events that are made where the threads take turns, from 1 to 10000000; no effect beside a schedule",
};

pub const QUANTUM: Argument = Argument {
    name: "quantum",
    value: "N",
    form: Form::NumberOr(1, MAX_QUANTUM, "1"),
    help: "Most events of a thread's turn, from 1 to 1000000; no effect beside a schedule",
};

pub const WORKERS: Argument = Argument {
    name: "workers",
    value: "N",
    form: Form::NumberOr(1, MAX_WORKERS, "1"),
    help: "Workers that make the events side by side, from 1 to 16, each of them up to --steps; no effect beside a schedule",
};

pub const STRESS: Argument = Argument {
    name: "stress",
    value: "KIND",
    form: Form::Text,
    help: "Collect before each event and behind the last one, KIND being `minor` or `full`; not with several workers",
};

pub const RECORD: Argument = Argument {
    name: "record",
    value: "FILE",
    form: Form::Text,
    help: "File to write the events that were made to, for `jm replay` or `--schedule`",
};

pub const SHOW_HEAP: Argument = Argument {
    name: "show-heap",
    value: "",
    form: Form::Flag,
    help: "Also show, on standard error, the objects that are reachable at the end",
};

pub const TELL: Argument = Argument {
    name: "tell",
    value: "",
    form: Form::Flag,
    help: "Also tell, on standard error, all that is refused as `jm check` does, or how the run ended as `jm why` does, and which number to ask `jm explain` for",
};

pub const PATH: Argument = Argument {
    name: "path",
    value: "DIR",
    form: Form::Texts,
    help: "Directory below which the classes are looked for that the FILEs use and do not hold, as its/name.class and its/name.j; may be given several times",
};

pub const MAIN: Argument = Argument {
    name: "main",
    value: "NAME",
    form: Form::Text,
    help: "Class whose `main` is run, as its.name: one of a FILE, or one that was found",
};

pub const LIST: Argument = Argument {
    name: "list",
    value: "",
    form: Form::Flag,
    help: "Write the names of the program's files, a line each, in place of what is refused",
};

pub const FILE: Argument = Argument {
    name: "file",
    value: "FILE",
    form: Form::Words,
    help: "Class files, or texts ending in .j; the first one's `main` is run",
};

pub const RECORDED: Argument = Argument {
    name: "recorded",
    value: "RECORD",
    form: Form::Word,
    help: "File that `jm run --record` wrote",
};

pub const SWITCHES: Argument = Argument {
    name: "switches",
    value: "N",
    form: Form::NumberOr(0, MAX_SWITCHES, "2"),
    help: "Most switches of a schedule, from 0 to 16: events of another thread than the last one's, which could have gone on",
};

pub const SCHEDULE_STEPS: Argument = Argument {
    name: "steps",
    value: "N",
    form: Form::NumberOr(1, MAX_SCHEDULE_STEPS, "10000"),
    help: "Most events of a schedule, which is cut there, from 1 to 1000000",
};

pub const RUNS: Argument = Argument {
    name: "runs",
    value: "N",
    form: Form::NumberOr(1, MAX_RUNS, "1000000"),
    help: "Most runs that are made, from 1 to 100000000; behind them the search is not complete",
};

pub const SLICE: Argument = Argument {
    name: "slice",
    value: "N",
    form: Form::NumberOr(1, MAX_SLICE, "1000"),
    help: "Events of one thread in a row behind which the next thread follows, which is no switch, from 1 to 1000000",
};

pub const OUTCOME: Argument = Argument {
    name: "outcome",
    value: "N",
    form: Form::Number(1, MAX_RUNS),
    help: "Write the schedule of the outcome of this number alone, for `jm run --schedule`",
};

pub const THREAD: Argument = Argument {
    name: "thread",
    value: "T",
    form: Form::Number(1, MAX_EVENTS),
    help: "Show the events of the thread of this number alone, from 1 to 10000000",
};

pub const FROM: Argument = Argument {
    name: "from",
    value: "N",
    form: Form::NumberOr(1, MAX_EVENTS, "1"),
    help: "Number of the first event that is shown, from 1 to 10000000",
};

pub const MOST: Argument = Argument {
    name: "most",
    value: "N",
    form: Form::NumberOr(1, MAX_EVENTS, "10000000"),
    help: "Most events that are shown, from 1 to 10000000",
};

pub const FILM_STEPS: Argument = Argument {
    name: "steps",
    value: "N",
    form: Form::NumberOr(1, MAX_FILM_STEPS, "2000"),
    help: "Most events that are shown, from 1 to 10000",
};

pub const SOURCE: Argument = Argument {
    name: "source",
    value: "DIR",
    form: Form::Text,
    help: "Directory of the `.java` files, whose lines are shown beside the instructions",
};

pub const INPUT: Argument = Argument {
    name: "input",
    value: "IN",
    form: Form::Word,
    help: "Text of a class in Jasmin's syntax",
};

pub const OUTPUT: Argument = Argument {
    name: "output",
    value: "OUT",
    form: Form::Word,
    help: "Class file to write",
};

pub const BARE: Argument = Argument {
    name: "bare",
    value: "",
    form: Form::Flag,
    help: "Without comments: neither the numbers of instructions nor flags that have no word",
};

pub const CLASS: Argument = Argument {
    name: "class",
    value: "FILE",
    form: Form::Word,
    help: "Class file, or a text ending in .j",
};

pub const NUMBER: Argument = Argument {
    name: "number",
    value: "N|NAME",
    form: Form::OptionalWord,
    help: "Number or name of a refusal, a stop or an exit status, as 51 or NoClass; without one all are listed",
};

/// The argument as `clap` takes it.
pub fn argument_of<'a>(alloc: Global, said: &Argument) -> Arg<'a>
    ensures rule { rule_of result ≡ rule_said said.now }
    ensures local { result.global ≡ false }
{
    let plain = Arg::new(alloc, said.name).help(said.help);
    match said.form {
        Form::Flag => plain.long(said.name).action(ArgAction::SetTrue),
        Form::Text => plain.long(said.name).value_name(said.value),
        Form::Texts => plain
            .long(said.name)
            .value_name(said.value)
            .action(ArgAction::Append),
        Form::Number(least, most) => plain.long(said.name).value_name(said.value).value_parser(
            value_parser!(u32).range(i64::from(least)..=i64::from(most)),
        ),
        Form::NumberOr(least, most, default) => plain
            .long(said.name)
            .value_name(said.value)
            .value_parser(value_parser!(u32).range(i64::from(least)..=i64::from(most)))
            .default_value(default),
        Form::Word => plain.value_name(said.value).required(true),
        Form::Words => plain
            .value_name(said.value)
            .required(true)
            .action(ArgAction::Append),
        Form::OptionalWord => plain.value_name(said.value),
    }
}

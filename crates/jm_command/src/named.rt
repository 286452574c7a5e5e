// The files that a command line names.

ghost use Rattle.std.specs.Prelude.{◌≡◌, option_map};
ghost use Rattle.jm_command.specs.Named.{file_named, file_written, folder_named, program_asked};

use jm_options::{Options, ProgramOptions};

/// The file that is named beside the program's, if one is: a schedule, a record, a text or a class.
pub fn file_named(asked: &Options) -> Option<&str>
    ensures { option_map (λ name. name.now) result ≡ file_named asked.now }
{
    match asked {
        Options::Run(asked) => asked.schedule.as_deref(),
        Options::Replay(asked) => Some(&asked.record_file),
        Options::Why(asked) => asked.schedule.as_deref(),
        Options::Trace(asked) => asked.run.schedule.as_deref(),
        Options::Film(asked) => asked.run.schedule.as_deref(),
        Options::Assemble(asked) => Some(&asked.input),
        Options::Disassemble(asked) => Some(&asked.file),
        Options::Explore(_)
        | Options::Check(_)
        | Options::Debug(_)
        | Options::Explain(_)
        | Options::Version => None,
    }
}

/// The program that is asked for, if one is.
pub fn program_asked(asked: &Options) -> Option<&ProgramOptions>
    ensures { option_map (λ program. program.now) result ≡ program_asked asked.now }
{
    match asked {
        Options::Run(asked) => Some(&asked.program),
        Options::Replay(asked) => Some(&asked.program),
        Options::Explore(asked) => Some(&asked.program),
        Options::Check(asked) => Some(&asked.program),
        Options::Why(asked) => Some(&asked.program),
        Options::Trace(asked) => Some(&asked.run.program),
        Options::Film(asked) => Some(&asked.run.program),
        Options::Debug(asked) => Some(&asked.program),
        Options::Assemble(_) | Options::Disassemble(_) | Options::Explain(_) | Options::Version =>
            None,
    }
}

/// The folder of the sources that stand on a film's page, if one is named.
pub fn folder_named(asked: &Options) -> Option<&str>
    ensures { option_map (λ name. name.now) result ≡ folder_named asked.now }
{
    match asked {
        Options::Film(asked) => asked.source.as_deref(),
        _ => None,
    }
}

/// The file that is written, if one is: the record of a run or a class file.
pub fn file_written(asked: &Options) -> Option<&str>
    ensures { option_map (λ name. name.now) result ≡ file_written asked.now }
{
    match asked {
        Options::Run(asked) => asked.record_file.as_deref(),
        Options::Assemble(asked) => Some(&asked.output),
        _ => None,
    }
}

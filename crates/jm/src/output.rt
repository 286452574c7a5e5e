// Where the output of a job goes.

ghost use Rattle.std.specs.Prelude.{⊤};

use jm_execute::{AssembleJob, Job, Watchable, WriteFailed, put_by_write, put_through_by_flush};
use std::fs::File;
use std::io;
use std::io::{Stdout, Write};

/// A file that is made, or emptied, when its first byte is written.
#[derive(Drop)]
pub struct OutputFile<'a> {
    rt: &'a HostRuntime,
    name: &'a str,
    opened: Option<File>,
}

impl Write for OutputFile<'_> {
    fn write(&mut self, buf: &[u8]) -> io::Result<usize> {
        if buf.is_empty() {
            return Ok(0);
        }
        if self.opened.is_none() {
            self.opened = Some(File::create(self.rt, self.name)?);
        }
        match &mut self.opened {
            Some(file) => file.write(buf),
            None => Ok(0),
        }
    }

    fn flush(&mut self) -> io::Result<()> {
        Ok(())
    }
}

/// The standard output, or the class file of a text.
#[derive(Drop)]
pub enum Output<'a> {
    Standard(Stdout),
    ClassFile(OutputFile<'a>),
}

impl<'a> Output<'a> {
    /// The output of a job. Nothing is opened yet.
    pub fn of(rt: &'a HostRuntime, job: &'a Job) -> Output<'a> {
        match job {
            Job::Run(_) | Job::Replay(_) | Job::Explore(_) | Job::Disassemble(_) | Job::Debug(_) =>
                Output::Standard(rt.stdout()),
            Job::Assemble(AssembleJob { output, .. }) => Output::ClassFile(OutputFile {
                rt,
                name: output,
                opened: None,
            }),
        }
    }
}

impl Write for Output<'_> {
    fn write(&mut self, buf: &[u8]) -> io::Result<usize> {
        match self {
            Output::Standard(standard) => standard.write(buf),
            Output::ClassFile(file) => file.write(buf),
        }
    }

    fn flush(&mut self) -> io::Result<()> {
        match self {
            Output::Standard(standard) => standard.flush(),
            Output::ClassFile(file) => file.flush(),
        }
    }
}

/// What it does with bytes is not known.
impl Watchable for Output<'_> {
    ghost ends = { λ _ _ _. ⊤ };

    fn put(&mut self, bytes: &[u8]) -> Result<usize, WriteFailed> {
        put_by_write(self, bytes)
    }

    fn put_through(&mut self) -> Result<(), WriteFailed> {
        put_through_by_flush(self)
    }
}

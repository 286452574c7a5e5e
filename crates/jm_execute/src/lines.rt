// The lines of a reader.

ghost use Rattle.std.specs.Prelude.{◌≡◌, ◌==◌, ◌≤◌, [], position, vec_len, IfOk};
ghost use Rattle.jm_execute.specs.Lines.{MovesLine};
ghost use Rattle.jm_execute.specs.LineReading.{ReadsLine, ReadsMore};
ghost use Rattle.jm_execute.specs.Written.{reads};

use crate::readable::Readable;
use crate::watched::Watched;
use std::alloc::{AllocError, Global};
use std::marker::Model;

// How many bytes are read at once, at most.
const CHUNK: usize = 4096;

/// Why a line is not known.
#[derive(Clone, Copy)]
pub enum LineFault {
    /// A call of the reader failed.
    ReadFailed,
    /// A growth was refused.
    OutOfMemory,
}

/// What a reader gives next.
#[derive(Drop)]
pub enum NextLine {
    /// The bytes before a line feed.
    Line(Vec<u8>),
    /// The bytes behind the last line feed, at the reader's end; none of them is one.
    End(Vec<u8>),
}

/// What was read of a reader and belongs to no line yet.
#[derive(Drop)]
pub struct Unread {
    bytes: Vec<u8>,
    at: usize,
    ghost within: { at ≤ vec_len bytes },
}

impl Model for Unread {
    ghost use Rattle.std.specs.Prelude.{ℕ, List, drop};

    ghost Value = { List ℕ };

    ghost view = { λ u. drop u.at u.bytes.items };
}

// Where the first line feed is.
fn line_feed_in(bytes: &[u8]) -> Option<usize>
    ensures { result ≡ position (λ byte. byte == 10) bytes.now }
{
    bytes.iter().position(|byte| *byte == b'\n')
}

impl Unread {
    /// Nothing is read yet.
    pub fn new(alloc: Global) -> Unread
        ensures { result ≡ [] }
    {
        Unread {
            bytes: Vec::new(alloc),
            at: 0,
        }
    }

    // Moves the bytes before the first line feed behind those of a line, and passes the line feed;
    // or moves all bytes, where there is none. Whether there was one.
    fn move_line(&mut self, line: &mut Vec<u8>) -> Result<bool, AllocError>
        ensures { IfOk result (λ found. MovesLine found self.old line.old.items self.new line.new.items) }
    {
        let rest = &self.bytes[self.at..];
        match line_feed_in(rest) {
            Some(count) => {
                line.extend_from_slice(&rest[..count])?;
                self.at += count + 1;
                Ok(true)
            }
            None => {
                line.extend_from_slice(rest)?;
                self.at = self.bytes.len();
                Ok(false)
            }
        }
    }

    // Reads some bytes more, where there are none. Whether the reader had any.
    fn read_more<R: Readable>(&mut self, reader: &mut Watched<R>) -> Result<bool, LineFault>
        ensures { ReadsMore (reads R.remaining R.fails) result self.new reader.old reader.new }
    {
        let mut chunk = [0; CHUNK];
        let Ok(count) = reader.read(&mut chunk) else {
            return Err(LineFault::ReadFailed);
        };
        self.at = 0;
        self.bytes.clear();
        match self.bytes.extend_from_slice(&chunk[..count]) {
            Ok(()) => Ok(count != 0),
            Err(_) => Err(LineFault::OutOfMemory),
        }
    }

    /// The next line of a reader, of which these bytes were read before. After `ReadFailed` the
    /// reader's flag is set. After either fault the bytes of the line so far are lost.
    pub fn next_line<R: Readable>(
        &mut self,
        alloc: Global,
        reader: &mut Watched<R>,
    ) -> Result<NextLine, LineFault>
        ensures { ReadsLine (reads R.remaining R.fails) result self.old self.new reader.old reader.new }
    {
        let mut line = Vec::new(alloc);
        loop {
            match self.move_line(&mut line) {
                Ok(true) => return Ok(NextLine::Line(line)),
                Ok(false) => {}
                Err(_) => return Err(LineFault::OutOfMemory),
            }
            match self.read_more(reader) {
                Ok(true) => {}
                Ok(false) => return Ok(NextLine::End(line)),
                Err(fault) => return Err(fault),
            }
        }
    }
}

// Readers and writers that remember whether they have failed.

ghost use Rattle.std.specs.Prelude.{◌≡◌, ◌<◌, ◌≤◌, [], length, take, true, false, IfOk, MatchResult};
ghost use Rattle.std.specs.Io.{ReadsAtMost};
ghost use Rattle.std.specs.Io.KnownBytes.{ReadConsumes};
ghost use Rattle.jm_execute.specs.Written.{AllWritten, Broken, Flushes, ReadingBroke, Writes, fresh, reads, words};

use crate::readable::{ReadFailed, Readable};
use crate::watchable::{Watchable, WriteFailed};
use std::marker::Model;

/// A reader or a writer with a flag that is set once a call has failed: it answered an error, or a
/// write of at least one byte took none.
#[derive(Drop)]
pub struct Watched<T> {
    inner: T,
    failed: bool,
}

impl<T> Model for Watched<T> {
    ghost use Rattle.jm_execute.specs.Written.{Watch, watch_code};

    ghost Value = { Watch T };

    ghost coded = { watch_code T.code };

    ghost view = { λ w. record { inner = w.inner; failed = w.failed } };
}

impl<T> Watched<T> {
    /// A reader or a writer that has not failed.
    pub fn new(inner: T) -> Watched<T>
        ensures { result ≡ fresh inner }
    {
        Watched {
            inner,
            failed: false,
        }
    }

    /// Whether a call has failed.
    pub fn has_failed(&self) -> bool
        ensures { result ≡ self.now.failed }
    {
        self.failed
    }
}

impl<R: Readable> Watched<R> {
    /// Reads some bytes into the front of a buffer, and answers how many: none only at the end, or
    /// where the buffer has no room. After an error the flag is set, and no byte is lost.
    pub fn read(&mut self, buf: &mut [u8]) -> Result<usize, ReadFailed>
        ensures bound { ReadsAtMost result buf.new }
        ensures bytes { ReadConsumes (R.remaining self.old.inner) (R.remaining self.new.inner) result buf.new }
        ensures failed { MatchResult result (λ _. self.new.failed ≡ self.old.failed) (λ _. ReadingBroke (reads R.remaining R.fails) [] self.old self.new) }
    {
        match self.inner.get(buf) {
            Ok(read) => Ok(read),
            Err(fault) => {
                self.failed = true;
                Err(fault)
            }
        }
    }
}

impl<W: Watchable> Watched<W> {
    // Writes some of the bytes, at least one, and answers how many.
    fn write_some(&mut self, bytes: &[u8]) -> Result<usize, WriteFailed>
        requires { 0 < length bytes.now }
        ensures count { IfOk result (λ count. (0 < count) × (count ≤ length bytes.now)) }
        ensures written { MatchResult result (λ count. AllWritten (words W.contents W.ends) self.old self.new (take count bytes.now))
            (λ _. Broken (words W.contents W.ends) self.old self.new bytes.now) }
    {
        match self.inner.put(bytes) {
            Ok(count) => Ok(count),
            Err(fault) => {
                self.failed = true;
                Err(fault)
            }
        }
    }

    /// Writes all bytes. An error says that a call failed: a beginning of the bytes was written,
    /// the call was for those that are left, and the flag is set.
    pub fn write_all(&mut self, bytes: &[u8]) -> Result<(), WriteFailed>
        ensures { Writes (words W.contents W.ends) result self.old self.new bytes.now }
    {
        let mut rest = bytes;
        while !rest.is_empty() {
            match self.write_some(rest) {
                Ok(count) => rest = &rest[count..],
                Err(fault) => return Err(fault),
            }
        }
        Ok(())
    }

    /// Hands on what was written, where the writer keeps it back. An error says that the call
    /// failed, and then the flag is set.
    pub fn flush(&mut self) -> Result<(), WriteFailed>
        ensures { Flushes (words W.contents W.ends) result self.old self.new }
    {
        match self.inner.put_through() {
            Ok(()) => Ok(()),
            Err(fault) => {
                self.failed = true;
                Err(fault)
            }
        }
    }
}

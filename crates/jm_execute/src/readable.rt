// Readers that can be watched.

ghost use Rattle.std.specs.Prelude.{OnErr, ⊤};
ghost use Rattle.std.specs.Io.{ReadsAtMost};
ghost use Rattle.std.specs.Io.KnownBytes.{ReadConsumes};

use std::io::{Read, Stdin};

/// The reader failed: a call answered an error.
#[derive(Clone, Copy, PartialEq, Eq)]
pub struct ReadFailed;

/// A reader that says itself between which of its states a call fails: code over any such reader
/// knows that a call failed only from the call. A reader of whose calls nothing is known, as a
/// terminal, says it of all states. What it still has to give, where that is known, is what `Read`
/// says of it.
pub trait Readable: Read {
    ghost fails: { Self → Self → Type 0 };

    /// Reads some bytes into the front of a buffer, and answers how many: none only at the end, or
    /// where the buffer has no room. An error says that the call answered one; no byte is lost.
    fn get(&mut self, buf: &mut [u8]) -> Result<usize, ReadFailed>
        ensures bound { ReadsAtMost result buf.new }
        ensures bytes { ReadConsumes (Self.remaining self.old) (Self.remaining self.new) result buf.new }
        ensures failed { OnErr result (fails self.old self.new) };
}

/// Reads with one call some bytes into the front of a buffer, and answers how many. An error says
/// that the call answered one.
pub fn get_by_read<R: Read>(reader: &mut R, buf: &mut [u8]) -> Result<usize, ReadFailed>
    ensures bound { ReadsAtMost result buf.new }
    ensures bytes { ReadConsumes (R.remaining reader.old) (R.remaining reader.new) result buf.new }
{
    match reader.read(buf) {
        Ok(count) => Ok(count),
        Err(_) => Err(ReadFailed),
    }
}

impl<R: Readable> Readable for &mut R {
    ghost fails = { λ old new. R.fails old.now new.now };

    fn get(&mut self, buf: &mut [u8]) -> Result<usize, ReadFailed> {
        Readable::get(&mut **self, buf)
    }
}

/// It has its bytes, and no call fails.
impl Readable for &[u8] {
    ghost fails = { λ _ _. ⊥ };

    fn get(&mut self, buf: &mut [u8]) -> Result<usize, ReadFailed> {
        match self.read(buf) {
            Ok(count) => Ok(count),
            Err(_) => Err(ReadFailed),
        }
    }
}

/// What it gives is not known.
impl Readable for Stdin {
    ghost fails = { λ _ _. ⊤ };

    fn get(&mut self, buf: &mut [u8]) -> Result<usize, ReadFailed> {
        get_by_read(self, buf)
    }
}

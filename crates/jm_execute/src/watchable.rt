// Writers that can be watched.

ghost use Rattle.std.specs.Prelude.{◌<◌, ◌≤◌, [], length, take, IfOk, MatchResult, ⊤};
ghost use Rattle.std.specs.Io.KnownBytes.{Keeps, WriteAppends};
ghost use Rattle.jm_execute.specs.CallEnds.{CallEnd, took, refused, flush_refused, vec_ends};

use std::alloc::Allocator;
use std::io::{Stderr, Stdout, Write};

/// The writer failed: a call answered an error, or took none of the bytes that it was given.
#[derive(Clone, Copy)]
pub struct WriteFailed;

/// A writer whose calls have ends of which it says itself between which of its states they lie: code
/// over any such writer knows that a call failed only from the call. A writer of whose calls nothing
/// is known, as a file, says it of all states.
pub trait Watchable: Write {
    ghost ends: { Self → CallEnd → Self → Type 0 };

    /// Writes some of the bytes, at least one, and answers how many. An error says that the call
    /// answered one, or took no byte; the writer holds what it held.
    fn put(&mut self, bytes: &[u8]) -> Result<usize, WriteFailed>
        requires { 0 < length bytes.now }
        ensures count { IfOk result (λ count. (0 < count) × (count ≤ length bytes.now)) }
        ensures bytes { WriteAppends (Self.contents self.old) (Self.contents self.new) result bytes.now }
        ensures ended { MatchResult result (λ count. ends self.old (took (take count bytes.now)) self.new)
            (λ _. ends self.old (refused bytes.now) self.new) };

    /// Hands on what was written, where the writer keeps it back. It writes no bytes of its own.
    fn put_through(&mut self) -> Result<(), WriteFailed>
        ensures bytes { Keeps (Self.contents self.old) (Self.contents self.new) }
        ensures ended { MatchResult result (λ _. ends self.old (took []) self.new) (λ _. ends self.old flush_refused self.new) };
}

/// Writes some of the bytes with one call, at least one, and answers how many. An error says that
/// the call answered one, or took no byte.
pub fn put_by_write<W: Write>(writer: &mut W, bytes: &[u8]) -> Result<usize, WriteFailed>
    ensures count { IfOk result (λ count. (0 < count) × (count ≤ length bytes.now)) }
    ensures bytes { WriteAppends (W.contents writer.old) (W.contents writer.new) result bytes.now }
{
    match writer.write(bytes) {
        Ok(0) => Err(WriteFailed),
        Ok(count) => Ok(count),
        Err(_) => Err(WriteFailed),
    }
}

/// Hands on what was written by a call of `flush`. An error says that the call answered one.
pub fn put_through_by_flush<W: Write>(writer: &mut W) -> Result<(), WriteFailed>
    ensures { Keeps (W.contents writer.old) (W.contents writer.new) }
{
    match writer.flush() {
        Ok(()) => Ok(()),
        Err(_) => Err(WriteFailed),
    }
}

impl<W: Watchable> Watchable for &mut W {
    ghost ends = { λ old end new. W.ends old.now end new.now };

    fn put(&mut self, bytes: &[u8]) -> Result<usize, WriteFailed> {
        Watchable::put(&mut **self, bytes)
    }

    fn put_through(&mut self) -> Result<(), WriteFailed> {
        Watchable::put_through(&mut **self)
    }
}

/// It takes all bytes at each call, and refuses them only where memory is refused and they have no
/// room in what it has. It keeps nothing back.
impl<A: Allocator> Watchable for Vec<u8, A> {
    ghost ends = { vec_ends };

    fn put(&mut self, bytes: &[u8]) -> Result<usize, WriteFailed> {
        match self.extend_from_slice(bytes) {
            Ok(()) => Ok(bytes.len()),
            Err(_) => Err(WriteFailed),
        }
    }

    fn put_through(&mut self) -> Result<(), WriteFailed> {
        Ok(())
    }
}

/// What it does with bytes is not known.
impl Watchable for Stdout {
    ghost ends = { λ _ _ _. ⊤ };

    fn put(&mut self, bytes: &[u8]) -> Result<usize, WriteFailed> {
        put_by_write(self, bytes)
    }

    fn put_through(&mut self) -> Result<(), WriteFailed> {
        put_through_by_flush(self)
    }
}

/// What it does with bytes is not known.
impl Watchable for Stderr {
    ghost ends = { λ _ _ _. ⊤ };

    fn put(&mut self, bytes: &[u8]) -> Result<usize, WriteFailed> {
        put_by_write(self, bytes)
    }

    fn put_through(&mut self) -> Result<(), WriteFailed> {
        put_through_by_flush(self)
    }
}

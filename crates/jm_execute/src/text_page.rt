// A text that is written piece by piece into a watched writer.

ghost use Rattle.jm_execute.specs.Written.{AllWritten, Broken, words};
ghost use Rattle.jm_execute.specs.Pieces.{broken_behind, more_written, none_written};

use crate::watchable::Watchable;
use crate::watched::Watched;
use jm_page::{PageWriter, PieceRefused};

/// A piece is written by as many calls as it takes.
impl<O: Watchable> PageWriter for Watched<O> {
    ghost wrote = { λ old piece new. AllWritten (words O.contents O.ends) old new piece };

    ghost broke = { λ old piece new. Broken (words O.contents O.ends) old new piece };

    fn put(&mut self, piece: &[u8]) -> Result<(), PieceRefused> {
        match self.write_all(piece) {
            Ok(()) => Ok(()),
            Err(_) => Err(PieceRefused),
        }
    }

    ghost wrote_none = { none_written (words O.contents O.ends) };

    ghost wrote_more = { more_written (words O.contents O.ends) };

    ghost broke_behind = { broken_behind (words O.contents O.ends) };
}

// Writers of pages, which are written piece by piece.

ghost use Rattle.std.specs.Prelude.{◌≡◌, ◌++◌, ℕ, List, [], MatchResult, OnOk};
ghost use Rattle.jm_page.specs.Writing.{Puts};

use std::alloc::AllocError;

/// Why a page was not written whole.
#[derive(Clone, Copy)]
pub enum PageFault {
    /// A growth was refused.
    OutOfMemory,
    /// A write failed.
    WriteFailed,
}

impl From<AllocError> for PageFault {
    ghost use Rattle.jm_page.specs.declared.writer.PageFault.TheVariants.{OutOfMemory};

    ghost from_gives = { λ _ fault. fault ≡ OutOfMemory };

    fn from(_error: AllocError) -> PageFault {
        PageFault::OutOfMemory
    }
}

/// A write of a piece of a page failed.
#[derive(Clone, Copy)]
pub struct PieceRefused;

/// A writer into which a page is put piece by piece. It says itself between which of its states bytes were written,
/// and between which a write of them failed; what is said of pieces is so of their whole.
pub trait PageWriter {
    ghost wrote: { Self → List ℕ → Self → Type 0 };

    ghost broke: { Self → List ℕ → Self → Type 0 };

    /// Writes a piece of a page. An error says that a write of it failed.
    fn put(&mut self, piece: &[u8]) -> Result<(), PieceRefused>
        ensures { MatchResult result (λ _. wrote self.old piece.now self.new) (λ _. broke self.old piece.now self.new) };

    ghost wrote_none: { (a : Self) → wrote a [] a };

    ghost wrote_more: { (a b c : Self) (front rest : List ℕ) → wrote a front b → wrote b rest c → wrote a (front ++ rest) c };

    ghost broke_behind: { (a b c : Self) (front rest : List ℕ) → wrote a front b → broke b rest c → broke a (front ++ rest) c };
}

/// Writes a piece of a page, and empties it. `WriteFailed`: a write of it failed.
pub fn put_piece<P: PageWriter>(page: &mut P, piece: &mut Vec<u8>) -> Result<(), PageFault>
    ensures put { Puts P.wrote P.broke result page.old piece.old.items page.new }
    ensures empty { OnOk result (piece.new.items ≡ []) }
{
    match page.put(piece) {
        Ok(()) => {
            piece.clear();
            Ok(())
        }
        Err(_) => Err(PageFault::WriteFailed),
    }
}

// Numbers of things.

ghost use Rattle.std.specs.Prelude.{◌≡◌, ◌++◌, Some, codes};
ghost use Rattle.std.specs.Fmt.{decimal};
ghost use Rattle.jm_explore.specs.ExplorationTexts.{counted_word};

use std::fmt;
use std::fmt::Display;

/// So many things, with the word for that many.
#[derive(Clone, Copy)]
pub struct Counted {
    pub number: u64,
    pub word: &'static str,
}

impl Counted {
    /// So many things, with the word for one of them and for any other number.
    pub fn new(number: u64, one: &'static str, many: &'static str) -> Counted
        ensures number { result.number ≡ number }
        ensures word { result.word.now ≡ counted_word number one.now many.now }
    {
        let word = if number == 1 { one } else { many };
        Counted { number, word }
    }
}

impl Display for Counted {
    ghost output = { λ counts. Some (decimal counts.number ++ (codes " " ++ counts.word.now)) };

    fn fmt<W: fmt::Write>(&self, f: &mut fmt::Formatter<W>) -> fmt::Result {
        write!(f, "{} {}", self.number, self.word)
    }
}

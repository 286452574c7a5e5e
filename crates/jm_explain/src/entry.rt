// What is said of a number.

ghost use Rattle.std.specs.Prelude.{Some};
ghost use Rattle.jm_explain.specs.Items.{item, item_text};

use std::fmt;
use std::fmt::Display;

/// What is said of a number. Its `Display` is all of it, the line of the list first, each part a
/// line.
#[derive(Clone, Copy)]
pub struct Entry {
    pub number: u32,
    /// The name of the refusal or the stop; or `status`, where the number is that of an exit status.
    pub name: &'static str,
    /// The words by which it is asked for: as lines show a refusal, a stop, its kind, or how a schedule ended.
    pub names: &'static [&'static str],
    /// What the number says, in one line.
    pub meaning: &'static str,
    /// A case in which it comes.
    pub example: &'static str,
    /// What to do then.
    pub advice: &'static str,
}

impl Display for Entry {
    ghost output = { λ entry. Some (item_text (item entry)) };

    fn fmt<W: fmt::Write>(&self, f: &mut fmt::Formatter<W>) -> fmt::Result {
        write!(
            f,
            "{} {}: {}\n\nFor example: {}\n\nWhat to do: {}\n",
            self.number, self.name, self.meaning, self.example, self.advice
        )
    }
}

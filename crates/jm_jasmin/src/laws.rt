// What holds of the definitions.

ghost use Rattle.jm_jasmin.specs.GrammarLaws.{LinesDenoteTheirClass, LinesOfOneClass, SpacingChangesNothing};

/// A text whose lines are those of a class, each by its form, denotes that class. The forms see
/// words and strings line by line and nothing else: blanks, comments, empty lines and the numbers
/// of lines change nothing.
pub fn lines_denote_their_class()
    ensures { LinesDenoteTheirClass }
{}

/// Another text of the same lines of words and strings denotes the same class.
pub fn spacing_changes_nothing()
    ensures { SpacingChangesNothing }
{}

/// The lines of a text are those of one class at most.
pub fn lines_of_one_class()
    ensures { LinesOfOneClass }
{}

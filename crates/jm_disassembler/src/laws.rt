// What holds of the definitions.

ghost use Rattle.jm_disassembler.specs.TextClasses.{TextsDenoteTextClasses};

/// No text denotes another class than one of these. Words say its flags, its names and its types,
/// and it has a superclass. A field `=` has a value, and no handler is of a class `all`. No `(`
/// stands in a method's name, or in what a call names before its types. Line numbers follow the
/// instructions. A word has neither a blank, a tab, a line feed nor half of a surrogate pair, and
/// begins with neither `;` nor `"`.
pub fn texts_denote_text_classes()
    ensures { TextsDenoteTextClasses }
{}

// What the definitions say, in the words of a grammar.

ghost use Rattle.std.specs.Prelude.{◌≡◌, ◌∷◌, ◌++◌, [], List, ℕ, Ok, false};
ghost use Rattle.std.specs.Str.{chars};
ghost use Rattle.jm_jasmin_lex.specs.Token.{TokenParts};
ghost use Rattle.jm_jasmin_lex.specs.Signs.{signs};
ghost use Rattle.jm_jasmin_lex.specs.Grammar.{Lie};
ghost use Rattle.jm_jasmin_lex.specs.Tokens.{tokens_of};
ghost use Rattle.jm_jasmin_lex.specs.Literals.{units_of_literal, Value};

/// The tokens of a text are those of its grammar: each is the text at its span, in its line, and
/// only blanks, line ends and comments stand between. No text has two lists of tokens.
pub fn tokens_of_the_grammar()
    ensures only { (text : List ℕ) (ts : List TokenParts) → tokens_of text ≡ Ok ts → Lie text false 0 1 (signs text) ts }
    ensures all { (text : List ℕ) (ts : List TokenParts) → Lie text false 0 1 (signs text) ts → tokens_of text ≡ Ok ts }
{}

/// What stands between the quotes of a string, by rules, stands for its value.
pub fn literal_by_rules()
    ensures { (text characters units : List ℕ) → chars text ≡ 34 ∷ (characters ++ 34 ∷ []) → Value characters units → units_of_literal text ≡ units }
{}

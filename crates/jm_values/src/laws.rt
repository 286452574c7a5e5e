//! Laws of the definitions in `specs/`, each the contract of a function that does nothing.

ghost use Rattle.std.specs.Prelude.{◌≡◌, ℕ, List, Option, map};
ghost use Rattle.jm_program.specs.declared.instruction.plain.Plain.{Plain};
ghost use Rattle.jm_values.specs.Activation.{Activation};
ghost use Rattle.jm_values.specs.Laws.{CommutesWithRenaming, BringsNoReference};
ghost use Rattle.jm_values.specs.PlainRows.{row_plain};
ghost use Rattle.jm_values.specs.Rename.{activation_shape};
ghost use Rattle.jm_values.specs.Shape.{Shape, IsShape, IsPart, option_shape, list_shape, pair_shape, part_shape};
ghost use Rattle.jm_values.specs.WellFormed.{IsWellFormed, KeepsForm};

/// A list has a shape whose references are those of its elements, in order: one law for all lists
/// of data that hold references.
pub fn a_list_has_a_shape<T>()
    ensures { (shape : Shape T) → IsShape T shape → IsShape (List T) (list_shape shape) }
{}

/// A value that may be missing has a shape.
pub fn an_option_has_a_shape<T>()
    ensures { (shape : Shape T) → IsShape T shape → IsShape (Option T) (option_shape shape) }
{}

/// A pair has a shape whose references are those of the first part and then of the second.
pub fn a_pair_has_a_shape<S, T>()
    ensures { (first : Shape S) (second : Shape T) → IsShape S first → IsShape T second → IsShape (S × T) (pair_shape first second) }
{}

/// Data whose references are those of a part, as one field of a record, have the part's shape.
pub fn a_whole_has_the_shape_of_its_part<S, T>()
    ensures { (part : S → T) (put : T → S → S) (shape : Shape T) → IsPart S T part put → IsShape T shape → IsShape S (part_shape part put shape) }
{}

/// The part of a frame that a plain instruction touches has a shape.
pub fn an_activation_has_a_shape()
    ensures { IsShape Activation activation_shape }
{}

/// A plain instruction does the same under other names of the references, and a fault or an
/// exception stays the same.
pub fn plain_rows_commute_with_renaming()
    ensures { (op : Plain) → CommutesWithRenaming (row_plain op) }
{}

/// A plain instruction makes no reference: each one that it leaves was there before.
pub fn plain_rows_bring_no_reference()
    ensures { (op : Plain) → BringsNoReference (row_plain op) }
{}

/// A plain instruction leaves a well-formed activation well formed, with the same limits: its
/// operands fit, and no long loses one of its two local variables.
pub fn plain_rows_keep_form()
    ensures { (op : Plain) → (a : Activation) → IsWellFormed a → KeepsForm a (row_plain op a) }
{}

/// Other references, put in the place of the first ones, leave what renaming would have left.
pub fn refilling_is_renaming<T>()
    ensures { (shape : Shape T) → IsShape T shape → (f : ℕ → ℕ) (x : T) → shape.refill (map f (shape.refs x)) x ≡ shape.rename f x }
{}

//! Laws of the definitions in `specs/`, each the contract of a function that does nothing.

ghost use Rattle.std.specs.Prelude.{◌≡◌, ℕ, true};
ghost use Rattle.jm_ops.specs.SingleFrame.{IsOrdered};
ghost use Rattle.jm_program.specs.Instructions.{plain_fits};
ghost use Rattle.jm_program.specs.declared.instruction.plain.Plain.{Plain};

/// An instruction that can stand in a code has its keys in order, if it has keys.
pub fn fitting_instructions_are_ordered()
    ensures { (count : ℕ) (op : Plain) → plain_fits count op ≡ true → IsOrdered op }
{}

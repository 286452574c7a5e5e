// No text has two descriptors.

ghost use Rattle.std.specs.Prelude.{◌≡◌, ℕ, List};
ghost use Rattle.jm_program.specs.Descriptors.{HasShape, Spells};
ghost use Rattle.jm_program.specs.declared.descriptor.Descriptor.{Descriptor};

/// No text has the shape of two descriptors, and so no text spells two (JVMS 4.3).
pub fn one_descriptor()
    ensures shape { (text : List ℕ) (d e : Descriptor) → HasShape text d → HasShape text e → d ≡ e }
    ensures spelling { (text : List ℕ) (d e : Descriptor) → Spells text d → Spells text e → d ≡ e }
{}

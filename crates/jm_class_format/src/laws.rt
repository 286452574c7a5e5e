// What holds of the class that bytes spell.

ghost use Rattle.std.specs.Prelude.{◌≡◌, ◌↔◌, ◌++◌, IsTrue, true, List, ℕ, Ok};
ghost use Rattle.jm_bytes.specs.Format.{Format, Whole};
ghost use Rattle.jm_program.specs.Flags.{is_interface};
ghost use Rattle.jm_program.specs.Fits.{Fits};
ghost use Rattle.jm_program.specs.declared.class.Version.{Version};
ghost use Rattle.jm_program.specs.declared.class.ClassParts.{ClassParts};
ghost use Rattle.jm_class_format.specs.declared.constant_pool.Entry.{Entry};
ghost use Rattle.jm_class_format.specs.declared.instruction.PlacedInstr.{PlacedInstr};
ghost use Rattle.jm_class_format.specs.ModifiedUtf8.{text};
ghost use Rattle.jm_class_format.specs.PoolEntries.{pool};
ghost use Rattle.jm_class_format.specs.Code.{code};
ghost use Rattle.jm_class_format.specs.ClassFile.{Spells, class_fits, version, Head, head, Body, body, parts_of};

/// No bytes spell two classes.
pub fn one_class()
    ensures { (bytes : List ℕ) (a b : ClassParts) → Spells bytes a → Spells bytes b → a ≡ b }
{}

/// A class that bytes spell keeps the rules of a class.
pub fn spelled_class_fits()
    ensures { (bytes : List ℕ) (c : ClassParts) → Spells bytes c → Fits c }
{}

/// The rules of a class are what the test of the definition says.
pub fn fits_is_tested()
    ensures { (c : ClassParts) → IsTrue (class_fits c) ↔ Fits c }
{}

/// What the bytes spell keeps the rules of a class: the last test of the definition never fails.
pub fn read_classes_fit()
    ensures { (es : List Entry) (s t u left_s left_t left_u : List ℕ) (v : Version) (h : Head) (b : Body) → version.read s ≡ Ok (v, left_s) → (head es).read t ≡ Ok (h, left_t) → (body es (is_interface h.access)).read u ≡ Ok (b, left_u) → class_fits (parts_of v h b) ≡ true }
{}

/// No bytes spell two codes.
pub fn one_code()
    ensures { (bytes : List ℕ) (a b : List PlacedInstr) → code.Spells bytes a → code.Spells bytes b → a ≡ b }
{}

/// No bytes begin with the spellings of two constant pools.
pub fn one_pool()
    ensures { (a b u v : List ℕ) (x y : List Entry) → pool.Spells a x → pool.Spells b y → a ++ u ≡ b ++ v → (x ≡ y) × (u ≡ v) }
{}

/// No bytes spell two texts.
pub fn one_text()
    ensures { (bytes a b : List ℕ) → text.Spells bytes a → text.Spells bytes b → a ≡ b }
{}

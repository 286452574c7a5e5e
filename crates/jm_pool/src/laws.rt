// Texts and pools that are written are read back (JVMS 4.4).

ghost use Rattle.std.specs.Prelude.{◌≡◌, ◌^◌, ◌<◌, ◌≤◌, ℕ, List, Some, Ok};
ghost use Rattle.jm_bytes.specs.Format.{Format, Whole};
ghost use Rattle.jm_class_format.specs.declared.constant_pool.Entry.{Entry};
ghost use Rattle.jm_class_format.specs.PoolEntries.{pool};
ghost use Rattle.jm_class_format.specs.PoolLookups.{entry_at};
ghost use Rattle.jm_class_format.specs.ModifiedUtf8.{text, text_bytes};
ghost use Rattle.jm_pool.specs.declared.constant.Constant.{Constant};
ghost use Rattle.jm_pool.specs.Building.{entry_for, interned, pool_bytes, Begins, Stands, Sound};

/// What is written for code units is read back, and only what is written for them is read so
/// (JVMS 4.4.7).
pub fn text_read_back(units: &[u16])
    ensures back { text.read (text_bytes units.now) ≡ Ok units.now }
    ensures only { (bytes : List ℕ) → text.read bytes ≡ Ok units.now → bytes ≡ text_bytes units.now }
{}

/// No bytes spell two pools (JVMS 4.4).
pub fn one_pool()
    ensures { (bytes : List ℕ) (p q : List Entry) → pool.Spells bytes p → pool.Spells bytes q → p ≡ q }
{}

/// What is written for a pool that grew from nothing, by constants whose parts stood before them,
/// spells that very pool (JVMS 4.4).
pub fn built_pool_spelled()
    ensures { (entries : List Entry) → Sound entries → pool.Spells (pool_bytes entries) entries }
{}

/// The index that a constant gets names its entry, and entries that follow change no earlier one.
/// Where the constant's parts stand, a pool that grew from nothing stays one.
pub fn interned_stands()
    ensures names { (entries after : List Entry) (c : Constant) (index : ℕ) → interned entries c ≡ Ok (index, after) → entry_at after index ≡ Some (entry_for c) }
    ensures begins { (entries after : List Entry) (c : Constant) (index : ℕ) → interned entries c ≡ Ok (index, after) → Begins entries after }
    ensures stays { (earlier later : List Entry) (i : ℕ) (e : Entry) → Begins earlier later → entry_at earlier i ≡ Some e → entry_at later i ≡ Some e }
    ensures sound { (entries after : List Entry) (c : Constant) (index : ℕ) → Sound entries → Stands entries c → interned entries c ≡ Ok (index, after) → Sound after }
    ensures within { (entries : List Entry) (i : ℕ) (e : Entry) → Sound entries → entry_at entries i ≡ Some e → (1 ≤ i) × (i < 2 ^ 16) }
{}

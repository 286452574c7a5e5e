// Numbers as bytes are read back as those numbers.

ghost use Rattle.std.specs.Prelude.{◌≡◌, ◌<◌, ◌^◌, ◌++◌, ◌∷◌, [], ℕ, ℤ, List, length, FitsSigned, Some, Err};
ghost use Rattle.std.specs.Int.{Width, w8, w16, w32, w64, to_be_bytes};
ghost use Rattle.jm_bytes.specs.Spelling.{IsNumber, IsSigned};
ghost use Rattle.jm_bytes.specs.Reading.{number_at, signed_at};
ghost use Rattle.jm_bytes.specs.Format.{Whole, all_of, number, signed};
ghost use Rattle.jm_bytes.specs.Writing.{signed_bytes};

/// What is written for a number is read back as that number, whatever follows.
pub fn unsigned_read_back()
    ensures u1 { (n : ℕ) (rest : List ℕ) → n < 2 ^ 8 → number_at w8 (to_be_bytes w8 n ++ rest) ≡ Some (n, rest) }
    ensures u2 { (n : ℕ) (rest : List ℕ) → n < 2 ^ 16 → number_at w16 (to_be_bytes w16 n ++ rest) ≡ Some (n, rest) }
    ensures u4 { (n : ℕ) (rest : List ℕ) → n < 2 ^ 32 → number_at w32 (to_be_bytes w32 n ++ rest) ≡ Some (n, rest) }
    ensures u8 { (n : ℕ) (rest : List ℕ) → n < 2 ^ 64 → number_at w64 (to_be_bytes w64 n ++ rest) ≡ Some (n, rest) }
{}

/// What is written for a signed number is read back as that number, whatever follows.
pub fn signed_read_back()
    ensures s1 { (z : ℤ) (rest : List ℕ) → FitsSigned w8 z → signed_at w8 (signed_bytes w8 z ++ rest) ≡ Some (z, rest) }
    ensures s2 { (z : ℤ) (rest : List ℕ) → FitsSigned w16 z → signed_at w16 (signed_bytes w16 z ++ rest) ≡ Some (z, rest) }
    ensures s4 { (z : ℤ) (rest : List ℕ) → FitsSigned w32 z → signed_at w32 (signed_bytes w32 z ++ rest) ≡ Some (z, rest) }
    ensures s8 { (z : ℤ) (rest : List ℕ) → FitsSigned w64 z → signed_at w64 (signed_bytes w64 z ++ rest) ≡ Some (z, rest) }
{}

/// No bytes spell two numbers, and none begin with the spellings of two.
pub fn one_number()
    ensures unsigned { (w : Width) (a b u v : List ℕ) (m n : ℕ) → IsNumber w a m → IsNumber w b n → a ++ u ≡ b ++ v → (m ≡ n) × (u ≡ v) }
    ensures signed { (w : Width) (a b u v : List ℕ) (y z : ℤ) → IsSigned w a y → IsSigned w b z → a ++ u ≡ b ++ v → (y ≡ z) × (u ≡ v) }
{}

/// A number's bytes with more behind them are refused as a whole with the one fault, and with
/// fewer with the other.
pub fn exact_length()
    ensures more { (w : Width) (cut trailing : ℕ) (text rest : List ℕ) (n : ℕ) → IsNumber w text n → 0 < length rest → (all_of trailing (number cut w)).read (text ++ rest) ≡ Err trailing }
    ensures fewer { (w : Width) (cut trailing : ℕ) (front lacks : List ℕ) (n : ℕ) → IsNumber w (front ++ lacks) n → 0 < length lacks → (all_of trailing (number cut w)).read front ≡ Err cut }
    ensures signed_more { (w : Width) (cut trailing : ℕ) (text rest : List ℕ) (z : ℤ) → IsSigned w text z → 0 < length rest → (all_of trailing (signed cut w)).read (text ++ rest) ≡ Err trailing }
    ensures signed_fewer { (w : Width) (cut trailing : ℕ) (front lacks : List ℕ) (z : ℤ) → IsSigned w (front ++ lacks) z → 0 < length lacks → (all_of trailing (signed cut w)).read front ≡ Err cut }
{}

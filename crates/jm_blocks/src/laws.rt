// How many blocks a lane has for its cells, as the contract of a function that does nothing.

ghost use Rattle.std.specs.Prelude.{◌≡◌, ℕ, ◌+◌, ◌*◌, ◌<◌, ◌≤◌, List, [], length};
ghost use Rattle.jm_blocks.specs.Objects.{Object};
ghost use Rattle.jm_blocks.specs.Few.{AreFew, with_strided};
ghost use Rattle.jm_blocks.specs.Stores.{store_cells, with_object};

/// The blocks of a lane of which every n-th is filled are few for their cells, as long as nothing but
/// filling makes them more: n times two for each 257 cells. Where n is 1 that is what `fill` does.
pub fn blocks_are_few()
    ensures begun { (n : ℕ) → AreFew n [] }
    ensures more { (n : ℕ) (bs : List (List Object)) (o : Object) → 0 < n → AreFew n bs → AreFew n (with_strided n bs o) }
    ensures bound { (n : ℕ) (bs : List (List Object)) → AreFew n bs → 257 * length bs ≤ n * (2 * store_cells bs + 257) }
    ensures alone { (bs : List (List Object)) (o : Object) → with_strided 1 bs o ≡ with_object bs o }
{}

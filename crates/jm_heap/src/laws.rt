// Laws of what a heap promises.

ghost use Rattle.jm_heap.specs.MakingOne.{OneIsAsBefore, OneIsMade, OneIsRefused};

/// Making a list of one object is making that object: what is there after it, why it is refused, and
/// what was there before it.
pub fn one_is_made()
    ensures made { OneIsMade }
    ensures refused { OneIsRefused }
    ensures as_before { OneIsAsBefore }
{}

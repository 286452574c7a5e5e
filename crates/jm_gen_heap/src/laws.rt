//! The laws of the generations, as the contracts of functions that do nothing.

ghost use Rattle.jm_gen_heap.specs.Generations.{Generations};
ghost use Rattle.jm_gen_heap.specs.Invariant.{AreGenerations};
ghost use Rattle.jm_gen_heap.specs.Laws.{PutIsMade, WrittenIsSet, FullLeavesReached, MinorLeavesOld};

/// A new object that was put into a nursery is made there as a heap makes one without a collection.
pub fn a_new_object_is_made()
    ensures { (g h : Generations) → AreGenerations g → PutIsMade g h }
{}

/// A value that was written, with the old object remembered where it now names a young one, is set as a
/// heap sets it.
pub fn a_written_value_is_set()
    ensures { (g h : Generations) → AreGenerations g → WrittenIsSet g h }
{}

/// After a full collection exactly what the roots reach is left, as it was, and its cells are those that
/// the roots used.
pub fn a_full_collection_leaves_what_is_reached()
    ensures { (g h : Generations) → AreGenerations g → FullLeavesReached g h }
{}

/// After a minor collection exactly the old objects are left, and the young ones that the roots and the
/// fields of remembered objects reach through young ones, as they were.
pub fn a_minor_collection_leaves_the_old_and_the_reached()
    ensures { (g h : Generations) → AreGenerations g → MinorLeavesOld g h }
{}

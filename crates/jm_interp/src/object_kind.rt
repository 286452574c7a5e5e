// Whether an object is of a class or of one below it, by its mark.

ghost use Rattle.std.specs.Prelude.{◌≡◌, ◌↔◌, ℕ, IsTrue, List};
ghost use Rattle.jm_linked.specs.Links.{NamesClass};
ghost use Rattle.jm_state.specs.Parts.{named_type};
ghost use Rattle.jm_interp.specs.Catching.{IsKnown, is_of};

use crate::class_number::is_numbered;
use jm_heap::ClassId;
use jm_linked::Linked;

/// Whether there is a class of the number with which an object is marked, as there is of every
/// object's; an array is marked with none.
pub(crate) fn is_known(linked: &Linked, object: ClassId) -> bool
    ensures { IsTrue result ↔ IsKnown linked.now.program object }
{
    match object {
        ClassId::Instance(class) => is_numbered(linked, class),
        ClassId::Array(_) => true,
    }
}

/// Whether an object is of a class, by its number among all, or of one below it; an array is of none
/// (JVMS 2.10, 4.7.3).
pub(crate) fn is_of(linked: &Linked, object: ClassId, class: u32) -> bool
    requires { IsKnown linked.now.program object }
    ensures { (name : List ℕ) → NamesClass linked.now.program class name → result ≡ is_of linked.now.program (named_type linked.now.program object) name }
{
    match object {
        ClassId::Instance(own) => linked.is_subclass(own, class),
        ClassId::Array(_) => false,
    }
}

// The superclasses of the program's classes, by number.

ghost use Rattle.std.specs.Prelude.{◌≡◌, IfSome, Some, slice_get};
ghost use Rattle.jm_program.specs.declared.class.ClassParts.{ClassParts};
ghost use Rattle.jm_linked.specs.Links.{class_numbered};
ghost use Rattle.jm_interp.specs.Initializing.{IsOwnSuperclass};

use jm_linked::Linked;

/// The number among all classes of one of the program's, by its number among these; none past the
/// end of numbers.
pub(crate) fn number_among_all(linked: &Linked, class: u32) -> Option<u32>
    ensures { IfSome result
        (λ number. (c : ClassParts) → slice_get linked.now.program class ≡ Some c → class_numbered linked.now.program number ≡ Some c) }
{
    class.checked_add(linked.built_ins().len() as u32)
}

/// The superclass of a class, by the class's number among all, as its own number among the program's
/// classes; none where it has none, or a built-in one.
pub(crate) fn own_superclass(linked: &Linked, number: u32) -> Option<u32>
    ensures { (c : ClassParts) → class_numbered linked.now.program number ≡ Some c → IsOwnSuperclass linked.now.program c.superclass result }
{
    let Some(above) = linked.superclass(number) else {
        return None;
    };
    let built_in = linked.built_ins().len() as u32;
    if above < built_in {
        return None;
    }
    Some(above - built_in)
}

// Classes by number.

ghost use Rattle.std.specs.Prelude.{◌≡◌};
ghost use Rattle.jm_linked.specs.Links.{class_name_of};

use jm_linked::Linked;

/// The name of the class of a number, in code units, the built-in classes counted first; no unit
/// where there is no such class.
pub(crate) fn class_name(linked: &Linked, number: u32) -> &[u16]
    ensures { result.now ≡ class_name_of linked.now.program number }
{
    let built_ins = linked.built_ins();
    let index = number as usize;
    if index < built_ins.len() {
        return built_ins[index].name.units();
    }
    let classes = linked.classes();
    let index = index - built_ins.len();
    if index < classes.len() {
        return classes[index].parts().name.units();
    }
    &[]
}

// Methods as their classes declare them, by numbers.

ghost use Rattle.std.specs.Prelude.{◌≡◌, Some, IfSome, option_map, slice_get};
ghost use Rattle.jm_world.specs.Classes.{FoundMethod};
ghost use Rattle.jm_linked.specs.Links.{IsMethodOf};
ghost use Rattle.jm_linked.specs.Methods.{all_methods};

use jm_linked::{Linked, MemberNumber};
use jm_program::Method;

/// A method as its class declares it; none past the classes and their methods.
pub(crate) fn declared_method(linked: &Linked, method: MemberNumber) -> Option<&Method>
    ensures { (found : FoundMethod) → IsMethodOf linked.now.program method found → option_map (λ m. m.now) result ≡ Some found.method }
{
    let number = method.class as usize;
    let built_ins = linked.built_ins();
    if number < built_ins.len() {
        return built_ins[number]
            .methods
            .as_slice()
            .get(method.member as usize);
    }
    let own = number - built_ins.len();
    let classes = linked.classes();
    if own < classes.len() {
        return classes[own]
            .parts()
            .methods
            .as_slice()
            .get(method.member as usize);
    }
    None
}

/// The class that declares the method of a number among the methods of all classes, the built-in ones
/// first, and its number there; none past their end. It walks the classes: a method that is called
/// often is one with code, or a built-in class's, which come first.
pub(crate) fn member_of(linked: &Linked, number: u32) -> Option<MemberNumber>
    ensures { (found : FoundMethod) → slice_get (all_methods linked.now.program) number ≡ Some found
        → IfSome result (λ method. IsMethodOf linked.now.program method found) }
{
    let mut left = number as usize;
    let mut class = 0;
    for built_in in linked.built_ins() {
        let count = built_in.methods.as_slice().len();
        if left < count {
            return member_at(class, left);
        }
        left -= count;
        class += 1;
    }
    for own in linked.classes() {
        let count = own.parts().methods.as_slice().len();
        if left < count {
            return member_at(class, left);
        }
        left -= count;
        class += 1;
    }
    None
}

// The numbers, where they are in range.
fn member_at(class: usize, member: usize) -> Option<MemberNumber>
    ensures { IfSome result (λ method. (method.class ≡ class) × (method.member ≡ member)) }
{
    let class = u32::try_from(class).ok()?;
    let member = u32::try_from(member).ok()?;
    Some(MemberNumber { class, member })
}

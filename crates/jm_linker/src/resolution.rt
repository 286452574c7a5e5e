// What a symbolic reference to a field or a method means (JVMS 5.4.3).

ghost use Rattle.std.specs.Prelude.{◌≡◌, MatchResult, option_map};
ghost use Rattle.jm_world.specs.Resolution.{resolve_field, resolve_method};
ghost use Rattle.jm_linker.specs.Answers.{IsOutOfMemory};
ghost use Rattle.jm_linker.specs.Found.{found_field, found_method};

use crate::classes::Classes;
use crate::fault::LinkFault;
use crate::members::Members;
use crate::sought::{Sought, SoughtField, SoughtMethod};
use crate::walk::{find_above, find_along};
use jm_program::Name;
use std::alloc::Global;
use std::slice;

/// The class that declares the field, from the class of the name up.
pub fn find_field_class<'c, 'a>(
    alloc: Global,
    classes: &'c Classes<'a>,
    sought: &SoughtField<'a>,
    class: &'a Name,
) -> Result<Option<&'c Members<'a>>, LinkFault>
    ensures { MatchResult result
        (λ c. resolve_field classes.now.program.now class.now sought.now.field.now.name sought.now.field.now.descriptor
        ≡ found_field sought.now.field.now.name sought.now.field.now.descriptor (option_map (λ m. m.now.class.now) c))
        (λ fault. IsOutOfMemory fault) }
{
    let Some(named) = classes.members(class) else {
        return Ok(None);
    };
    let sought = Sought::Field(sought);
    // most fields are declared by the class that is named: no walk is begun for them
    if sought.is_in(named) {
        return Ok(Some(named));
    }
    find_above(alloc, classes, &sought, slice::from_ref(class))
}

/// The class that declares the method: for <init> the class of the name itself; else the first
/// from that class up along its superclasses, and then over its superinterfaces.
pub fn find_method_class<'c, 'a>(
    alloc: Global,
    classes: &'c Classes<'a>,
    sought: &SoughtMethod<'a>,
    class: &'a Name,
) -> Result<Option<&'c Members<'a>>, LinkFault>
    ensures { MatchResult result
        (λ c. resolve_method classes.now.program.now class.now sought.now.method.now.name sought.now.method.now.descriptor
        ≡ found_method sought.now.method.now.name sought.now.method.now.descriptor (option_map (λ m. m.now.class.now) c))
        (λ fault. IsOutOfMemory fault) }
{
    let Some(named) = classes.members(class) else {
        return Ok(None);
    };
    let name = &sought.method.name;
    let sought = Sought::Method(sought);
    if name.is_init() {
        if sought.is_in(named) {
            return Ok(Some(named));
        }
        return Ok(None);
    }
    if let Some(found) = find_along(classes, &sought, class) {
        return Ok(Some(found));
    }
    find_above(alloc, classes, &sought, slice::from_ref(class))
}

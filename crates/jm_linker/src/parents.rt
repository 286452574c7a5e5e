// The superclasses and superinterfaces of classes (JVMS 5.3.5).

ghost use Rattle.std.specs.Prelude.{◌≡◌, Some, option_to_list};
ghost use Rattle.jm_program.specs.declared.class.ClassParts.{ClassParts};
ghost use Rattle.jm_world.specs.Classes.{class_named};
ghost use Rattle.jm_world.specs.Loads.{is_strange_interface, superclass_refusal, interface_of_kind, parents_refusal, first_of_all};
ghost use Rattle.jm_linker.specs.Answers.{Answers};

use crate::classes::Classes;
use crate::fault::{LinkFault, no_class, wrong_kind};
use crate::name::is_sealed;
use jm_program::{AccessFlags, ClassParts, Name};
use std::alloc::Global;
use std::slice;

/// The superclass's name, if there is one, as a list.
pub fn superclass_of(class: &ClassParts) -> &[Name]
    ensures { result.now ≡ option_to_list class.now.superclass }
{
    match &class.superclass {
        Some(name) => slice::from_ref(name),
        None => &[],
    }
}

pub fn check_superclass<'a>(
    alloc: Global,
    classes: &Classes<'a>,
    class: &'a ClassParts,
) -> Result<(), LinkFault>
    ensures { Answers result (superclass_refusal classes.now.program.now class.now class.now.superclass) }
{
    let Some(name) = &class.superclass else {
        return Ok(());
    };
    match classes.find(name) {
        None => Err(no_class(alloc, name)),
        Some(above) => {
            if above.flags.has(AccessFlags::INTERFACE)
                || is_sealed(name)
                || class.flags.has(AccessFlags::INTERFACE) && !name.is_object()
            {
                return Err(wrong_kind(alloc, name));
            }
            Ok(())
        }
    }
}

pub fn check_interface<'a>(
    alloc: Global,
    classes: &Classes<'a>,
    name: &'a Name,
) -> Result<(), LinkFault>
    ensures { Answers result (interface_of_kind name.now (class_named classes.now.program.now name.now)) }
{
    match classes.find(name) {
        None => Err(no_class(alloc, name)),
        Some(class) => {
            if !class.flags.has(AccessFlags::INTERFACE) {
                return Err(wrong_kind(alloc, name));
            }
            Ok(())
        }
    }
}

/// That the superclass is there and can be extended, by an interface only java/lang/Object, and the
/// superinterfaces are there and are interfaces.
pub fn check_parents<'a>(
    alloc: Global,
    classes: &Classes<'a>,
    class: &'a ClassParts,
) -> Result<(), LinkFault>
    ensures { Answers result (parents_refusal classes.now.program.now class.now) }
{
    check_superclass(alloc, classes, class)?;
    let interfaces = class.interfaces.as_slice();
    for name in interfaces {
        check_interface(alloc, classes, name)?;
    }
    Ok(())
}

// The methods that invokespecial calls (JVMS 6.5 invokespecial).

ghost use Rattle.std.specs.Prelude.{◌≡◌, List, ℕ, None, IsTrue, MatchResult, is_some};
ghost use Rattle.jm_program.specs.declared.instruction.operation.InvokeOp.TheVariants.{Special};
ghost use Rattle.jm_program.specs.declared.reference.ClassRef.TheVariants as named;
ghost use Rattle.jm_world.specs.Classes.{class_named};
ghost use Rattle.jm_world.specs.Loads.{method_refusal};
ghost use Rattle.jm_world.specs.Resolution.{select_special};
ghost use Rattle.jm_linker.specs.Answers.{IsOutOfMemory};
ghost use Rattle.jm_linker.specs.FoundNumbers.{Invokes};
ghost use Rattle.jm_linker.specs.Specials.{NumbersCalled, called_from, search_start};

use crate::classes::Classes;
use crate::fault::LinkFault;
use crate::name::is_same;
use crate::references::member_number;
use crate::sought::{Sought, SoughtMethod};
use crate::walk::{find_above, find_along};
use jm_linked::{InvokedMethod, MemberNumber};
use jm_program::{ClassRef, MethodRef, Name};
use std::alloc::Global;
use std::slice;

// The class at which the search begins for an instruction in a class: the class's superclass, where the
// named one is further up.
fn search_start<'a>(
    alloc: Global,
    classes: &Classes<'a>,
    caller: &'a Name,
    named: &'a Name,
) -> Result<&'a Name, LinkFault>
    requires { IsTrue (is_some (class_named classes.now.program.now named.now)) }
    ensures { MatchResult result (λ start. start.now ≡ search_start classes.now.program.now caller.now named.now) (λ fault. IsOutOfMemory fault) }
{
    let Some(class) = classes.find(caller) else {
        return Ok(named);
    };
    let Some(superclass) = &class.superclass else {
        return Ok(named);
    };
    // most name the class itself or its superclass: no walk is begun for them
    if is_same(caller, named) || is_same(superclass, named) {
        return Ok(named);
    }
    match find_above(
        alloc,
        classes,
        &Sought::Class(named),
        slice::from_ref(caller),
    )? {
        Some(_) => Ok(superclass),
        None => Ok(named),
    }
}

// The first method from the class of a name up that is of instances.
fn instance_along<'a>(
    classes: &Classes<'a>,
    sought: &SoughtMethod<'a>,
    start: &'a Name,
) -> Result<Option<MemberNumber>, LinkFault>
    ensures { MatchResult result (NumbersCalled classes.now.program.now sought.now.method.now
        (select_special classes.now.program.now start.now sought.now.method.now.name sought.now.method.now.descriptor)) (λ fault. IsOutOfMemory fault) }
{
    let Some(members) = find_along(classes, &Sought::Instance(sought), start) else {
        return Ok(None);
    };
    let Some(found) = members.method(&sought.key) else {
        return Ok(None);
    };
    Ok(Some(member_number(classes, members.class, found.number)?))
}

/// The method that an invokespecial in a class calls, if it finds one: `<init>` is the named class's
/// own; another is the first of instances from the named class up, or from the class's superclass up
/// where the named one is further up (JVMS 6.5 invokespecial). The one error is that memory is refused.
pub fn called_method<'a>(
    alloc: Global,
    classes: &Classes<'a>,
    caller: &'a Name,
    method: &'a MethodRef,
    invoked: InvokedMethod,
) -> Result<Option<MemberNumber>, LinkFault>
    requires resolved { Invokes classes.now.program.now method.now invoked }
    requires loads { method_refusal classes.now.program.now Special method.now method.now.class ≡ None }
    ensures { MatchResult result (λ called. (name : List ℕ) → method.now.class ≡ named.Class name
        → NumbersCalled classes.now.program.now method.now (called_from classes.now.program.now caller.now name method.now) called) (λ fault. IsOutOfMemory fault) }
{
    let ClassRef::Class(name) = &method.class else {
        unreachable!()
    };
    if method.name.is_init() {
        return Ok(Some(invoked.found));
    }
    let start = search_start(alloc, classes, caller, name)?;
    let sought = SoughtMethod::of(alloc, method)?;
    instance_along(classes, &sought, start)
}

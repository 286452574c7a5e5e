// Names (JVMS 4.2).

ghost use Rattle.std.specs.Prelude.{◌≡◌, IfOk};
ghost use Rattle.jm_bytes.specs.Reading.{GivesAll};
ghost use Rattle.jm_class_format.specs.declared.read_fault.ReadFault.TheVariants.{OutOfMemory};
ghost use Rattle.jm_class_format.specs.Symbols.{class_name_of, field_name_of, method_name_of, invoked_name_of};

use crate::read_fault::ReadFault;
use jm_program::Name;
use std::alloc::{AllocError, Global};

fn name_of(alloc: Global, units: &[u16]) -> Result<Name, AllocError>
    ensures { IfOk result (λ name. name ≡ units.now) }
{
    Name::shared(alloc, units)
}

/// The name of a class or an interface, its parts between `/` (JVMS 4.2.1).
///
/// # Errors
/// `BadName` where a class cannot have the name, `OutOfMemory` where there is no memory for it.
#[tactic(auto, unfolding(crate::specs::Symbols::class_name_of))]
pub fn class_name_of(alloc: Global, units: &[u16]) -> Result<Name, ReadFault>
    ensures { GivesAll (λ name. name) OutOfMemory result (class_name_of units.now) }
{
    let name = name_of(alloc, units)?;
    if !name.is_class_name() {
        return Err(ReadFault::BadName);
    }
    Ok(name)
}

/// The name of a field (JVMS 4.2.2).
///
/// # Errors
/// `BadName` where a field cannot have the name, `OutOfMemory` where there is no memory for it.
#[tactic(auto, unfolding(crate::specs::Symbols::field_name_of))]
pub fn field_name_of(alloc: Global, units: &[u16]) -> Result<Name, ReadFault>
    ensures { GivesAll (λ name. name) OutOfMemory result (field_name_of units.now) }
{
    let name = name_of(alloc, units)?;
    if !name.is_unqualified() {
        return Err(ReadFault::BadName);
    }
    Ok(name)
}

/// The name of a method that a class declares, `<init>` and `<clinit>` included (JVMS 4.2.2).
///
/// # Errors
/// `BadName` where a method cannot have the name, `OutOfMemory` where there is no memory for it.
#[tactic(auto, unfolding(crate::specs::Symbols::method_name_of))]
pub fn method_name_of(alloc: Global, units: &[u16]) -> Result<Name, ReadFault>
    ensures { GivesAll (λ name. name) OutOfMemory result (method_name_of units.now) }
{
    let name = name_of(alloc, units)?;
    if !name.is_method_name() {
        return Err(ReadFault::BadName);
    }
    Ok(name)
}

/// The name of a method that an instruction invokes: any but `<clinit>` (JVMS 4.4.2, 2.9).
///
/// # Errors
/// `BadName` where no instruction invokes a method of the name, `OutOfMemory` where there is no
/// memory for it.
#[tactic(auto, unfolding(crate::specs::Symbols::invoked_name_of))]
pub fn invoked_name_of(alloc: Global, units: &[u16]) -> Result<Name, ReadFault>
    ensures { GivesAll (λ name. name) OutOfMemory result (invoked_name_of units.now) }
{
    let name = name_of(alloc, units)?;
    if !name.is_invoked_name() {
        return Err(ReadFault::BadName);
    }
    Ok(name)
}

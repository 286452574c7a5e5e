// The names that are known before any class is looked for.

ghost use Rattle.std.specs.Prelude.{◌≡◌, IfOk, OnOk, [], ◌++◌, map};
ghost use Rattle.jm_class_path.specs.Search.{built_in_names, names_of, with_names};

use crate::names::keep_name;
use indexmap::IndexSet;
use jm_builtins::{BuiltIn, builtins};
use jm_program::{Class, Name};
use std::alloc::{AllocError, Global};

fn keep_built_in_names(
    alloc: Global,
    names: &mut IndexSet<Name>,
    classes: &[BuiltIn],
) -> Result<(), AllocError>
    ensures { OnOk result (names.new.keys ≡ with_names names.old.keys (map (λ class. class.name) classes.now)) }
{
    for class in classes {
        keep_name(alloc, names, &class.name)?;
    }
    Ok(())
}

fn keep_names_of(
    alloc: Global,
    names: &mut IndexSet<Name>,
    classes: &[Class],
) -> Result<(), AllocError>
    ensures { OnOk result (names.new.keys ≡ with_names names.old.keys (names_of classes.now)) }
{
    for class in classes {
        keep_name(alloc, names, &class.parts().name)?;
    }
    Ok(())
}

/// The names of the built-in classes and of these, each once.
pub fn known_names(alloc: Global, classes: &[Class]) -> Result<IndexSet<Name>, AllocError>
    ensures { IfOk result (λ names. names.keys ≡ with_names [] (built_in_names ++ names_of classes.now)) }
{
    let mut names = IndexSet::new(alloc);
    let built_ins = builtins(alloc)?;
    keep_built_in_names(alloc, &mut names, built_ins.as_slice())?;
    keep_names_of(alloc, &mut names, classes)?;
    Ok(names)
}

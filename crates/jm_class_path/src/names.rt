// Names, each once, in the order in which they came.

ghost use Rattle.std.specs.Prelude.{◌≡◌, OnOk, option_map};
ghost use Rattle.jm_class_path.specs.Search.{with_name, with_names};
ghost use Rattle.jm_class_path.specs.Uses.{if_named};

use indexmap::IndexSet;
use jm_program::Name;
use std::alloc::{AllocError, Global};

/// Puts a name behind the others, where it is not among them.
pub fn keep_name(alloc: Global, names: &mut IndexSet<Name>, name: &Name) -> Result<(), AllocError>
    ensures { OnOk result (names.new.keys ≡ with_name names.old.keys name.now) }
{
    if !names.contains(name) {
        let copy = name.copy(alloc)?;
        names.insert(copy)?;
    }
    Ok(())
}

/// Puts a name, if there is one, behind the others, where it is not among them.
pub fn keep_if_named(
    alloc: Global,
    names: &mut IndexSet<Name>,
    name: Option<&Name>,
) -> Result<(), AllocError>
    ensures { OnOk result (names.new.keys ≡ with_names names.old.keys (if_named (option_map (λ given. given.now) name.entry))) }
{
    match name {
        Some(name) => keep_name(alloc, names, name),
        None => Ok(()),
    }
}

// The built-in classes, all of them.

ghost use Rattle.std.specs.Prelude.{◌≡◌, IfOk};
ghost use Rattle.jm_builtins.specs.List.{the_builtins};

use crate::built_in::BuiltIn;
use crate::class::classes_of;
use crate::table::CLASSES;
use jm_program::Sequence;
use std::alloc::{AllocError, Global};

/// The built-in classes: Object first, each class after its superclass. The one error is that
/// memory was refused.
pub fn builtins(alloc: Global) -> Result<Sequence<BuiltIn>, AllocError>
    ensures { IfOk result (λ classes. classes ≡ the_builtins) }
{
    classes_of(alloc, &CLASSES)
}

// Classes of one name.

ghost use Rattle.std.specs.Prelude.{◌≡◌, []};
ghost use Rattle.jm_world.specs.Loads.{duplicates};
ghost use Rattle.jm_linker.specs.Answers.{Answers};

use crate::classes::Names;
use crate::fault::{LinkFault, duplicate_class};
use std::alloc::Global;

/// That no two classes have one name, the built-in ones included.
pub fn no_duplicate_classes(alloc: Global, names: &Names) -> Result<(), LinkFault>
    ensures { Answers result (duplicates [] names.now.program.now) }
{
    let program = names.program;
    for (index, class) in program.iter().enumerate() {
        let name = &class.parts().name;
        if names.stands_before(name, index) || names.is_built_in(name) {
            return Err(duplicate_class(alloc, name));
        }
    }
    Ok(())
}

// The methods with code, by number.

ghost use Rattle.std.specs.Prelude.{◌≡◌, ◌<◌, length, Some};
ghost use Rattle.jm_world.specs.Classes.{method_named};
ghost use Rattle.jm_linked.specs.Links.{name_of_number};
ghost use Rattle.jm_machine.specs.CodePlaces.{name_of_code};

use jm_linked::Linked;
use jm_program::{Class, Method};

/// A method with code of the program, and the class that declares it.
#[derive(Clone, Copy)]
pub struct CodeMethod<'a> {
    pub class: &'a Class,
    pub method: &'a Method,
}

// The method with code of a number.
pub(crate) fn code_method(linked: &Linked, number: usize) -> CodeMethod<'_>
    requires { number < length linked.now.methods }
    ensures named { name_of_number linked.now number ≡ name_of_code result }
    ensures found { method_named linked.now.program (name_of_code result) ≡ Some result.method.now }
{
    let entry = &linked.methods()[number];
    let class = &linked.classes()[entry.class as usize];
    let members = class.parts().methods.as_slice();
    let method = &members[entry.member as usize];
    CodeMethod { class, method }
}

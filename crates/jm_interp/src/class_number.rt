// The numbers of classes: whether one is a class's, and those of the built-in classes that
// instructions name.

ghost use Rattle.std.specs.Prelude.{◌≡◌, ◌<◌, ◌+◌, ◌↔◌, IsTrue, length, codes};
ghost use Rattle.jm_builtins.specs.List.{the_builtins};
ghost use Rattle.jm_linked.specs.Links.{class_name_of};

use jm_builtins::BuiltInClass;
use jm_linked::Linked;

pub(crate) const PRINT_STREAM: u32 = BuiltInClass::PrintStream as u32;

/// Whether a class has the number.
pub(crate) fn is_numbered(linked: &Linked, class: u32) -> bool
    ensures { IsTrue result ↔ (class < length the_builtins + length linked.now.program) }
{
    (class as usize) < linked.built_ins().len()
        || class as usize - linked.built_ins().len() < linked.classes().len()
}

/// The number of java/lang/ArithmeticException.
#[inline]
pub(crate) fn arithmetic_exception(linked: &Linked) -> u32
    ensures { class_name_of linked.now.program result ≡ codes "java/lang/ArithmeticException" }
{
    let _main = linked.main();
    BuiltInClass::ArithmeticException.number()
}

/// The number of java/lang/NullPointerException.
#[inline]
pub(crate) fn null_pointer_exception(linked: &Linked) -> u32
    ensures { class_name_of linked.now.program result ≡ codes "java/lang/NullPointerException" }
{
    let _main = linked.main();
    BuiltInClass::NullPointerException.number()
}

// Results of methods.

ghost use Rattle.std.specs.Prelude.{◌≡◌, None};
ghost use Rattle.jm_world.specs.Types.{same_result};

use jm_program::MethodDescriptor;

/// Whether a method of the type returns nothing (JVMS 4.3.3).
pub fn returns_nothing(descriptor: &MethodDescriptor) -> bool
    ensures { result ≡ same_result descriptor.now.return_type None }
{
    match &descriptor.return_type {
        None => true,
        Some(_) => false,
    }
}

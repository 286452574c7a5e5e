// Names of classes and members.

ghost use Rattle.std.specs.Prelude.{◌≡◌};
ghost use Rattle.jm_program.specs.Names.{same_text};
ghost use Rattle.jm_world.specs.Classes.{system_class, print_stream_class};
ghost use Rattle.jm_world.specs.Loads.{is_sealed};

use jm_program::Name;

/// Whether the two names are one.
pub fn is_same(name: &Name, other: &Name) -> bool
    ensures { result ≡ same_text name.now other.now }
{
    name == other
}

/// Whether it is java/lang/System.
pub fn is_system(name: &Name) -> bool
    ensures { result ≡ same_text name.now system_class }
{
    name.is_text(b"java/lang/System")
}

/// Whether it is java/io/PrintStream.
pub fn is_print_stream(name: &Name) -> bool
    ensures { result ≡ same_text name.now print_stream_class }
{
    name.is_text(b"java/io/PrintStream")
}

/// Whether no class extends the class of that name, and none makes an object of it by `new`.
pub fn is_sealed(name: &Name) -> bool
    ensures { result ≡ is_sealed name.now }
{
    name.is_string() || is_system(name) || is_print_stream(name)
}

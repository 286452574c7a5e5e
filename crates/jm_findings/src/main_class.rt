// The class that a run would begin with.

ghost use Rattle.std.specs.Prelude.{◌≡◌};
ghost use Rattle.jm_findings.specs.Told.{is_told};

use jm_linker::Site;

/// The class of a program that a run would begin with.
#[derive(Clone, Copy, PartialEq, Eq)]
pub enum MainClass {
    /// The first.
    First,
    /// It is not among the classes, since its file holds none.
    Unknown,
}

/// Whether something is told of what is refused there: of a main class that is unknown nothing is.
pub fn is_told(main: MainClass, site: Site) -> bool
    ensures { result ≡ is_told main site }
{
    match main {
        MainClass::First => true,
        MainClass::Unknown => !matches!(site, Site::Main),
    }
}

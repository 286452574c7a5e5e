// Constants of fields and instructions.

ghost use Rattle.std.specs.Prelude.{◌≡◌, IfOk};
ghost use Rattle.jm_program.specs.Fits.{constant_is_of};

use crate::descriptor::{BaseType, ElementType};
use crate::sequence::Sequence;
use crate::shared::Shared;
use std::alloc::AllocError;

/// A constant that is pushed or that a static field begins with (JVMS 4.4.3, 4.4.4, 4.4.5).
#[derive(PartialEq, Eq)]
pub enum Constant {
    Int(i32),
    Long(i64),
    /// The literal's UTF-16 code units, lone surrogates included.
    String(Shared<Sequence<u16>>),
}

// Written out, so that whoever lets go of one makes a call (docs/DECISIONS.md).
impl Drop for Constant {
    fn drop(self) {
        match self {
            Constant::Int(_) | Constant::Long(_) | Constant::String(_) => {}
        }
    }
}

impl Constant {
    /// The same constant once more; a string's code units are shared, and it takes no memory. The
    /// error is that of [`Shared::share`].
    pub fn share(&self) -> Result<Constant, AllocError>
        ensures { IfOk result (λ constant. constant ≡ self.now) }
    {
        match self {
            Constant::Int(number) => Ok(Constant::Int(*number)),
            Constant::Long(number) => Ok(Constant::Long(*number)),
            Constant::String(units) => Ok(Constant::String(units.share()?)),
        }
    }

    /// Whether a field of a type without dimensions can begin with the constant (JVMS 4.7.2, table
    /// 4.7.2-A): its type is of this element.
    pub fn is_of(&self, element: &ElementType) -> bool
        ensures { result ≡ constant_is_of self.now element.now }
    {
        match (self, element) {
            (
                Constant::Int(_),
                ElementType::Base(
                    BaseType::Int
                    | BaseType::Short
                    | BaseType::Char
                    | BaseType::Byte
                    | BaseType::Boolean,
                ),
            ) => true,
            (Constant::Long(_), ElementType::Base(BaseType::Long)) => true,
            (Constant::String(_), ElementType::Class(name)) => name.is_string(),
            _ => false,
        }
    }
}

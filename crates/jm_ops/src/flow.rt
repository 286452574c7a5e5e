// What comes of an instruction.

ghost use Rattle.std.specs.Prelude.{◌≡◌};
ghost use Rattle.jm_ops.specs.Flows.{class_of};

use jm_values::TagFault;

/// The class of an exception that an instruction on one frame throws.
#[derive(Clone, Copy, PartialEq, Eq)]
pub enum Thrown {
    /// A division by zero (JVMS 6.5 idiv).
    ArithmeticException,
}

impl Thrown {
    /// The name of the class, as a class file writes it (JVMS 4.2.1).
    pub fn class_name(self) -> &'static str
        ensures { result.now ≡ class_of self }
    {
        match self {
            Thrown::ArithmeticException => "java/lang/ArithmeticException",
        }
    }
}

/// Where the frame goes on.
#[derive(Clone, Copy, PartialEq, Eq)]
pub enum Flow {
    /// At the next instruction.
    On,
    /// At the target of a branch or a switch, by the number of the instruction.
    To(u32),
    /// Nowhere yet: an exception of the class is thrown, and the frame stays as it was.
    Throw(Thrown),
}

/// Why an instruction cannot be made. No instruction on one frame takes memory, so there is no
/// refusal for want of it.
pub type Fault = TagFault;

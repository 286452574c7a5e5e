// Why an instruction cannot be made.

ghost use Rattle.std.specs.Prelude.{Some};
ghost use Rattle.jm_values.specs.FaultNames.{fault_name};

use std::fmt::{self, Display, Formatter};

/// Why an instruction cannot be made at all: what a verifier would have refused (JVMS 4.10), or a
/// limit of this machine.
#[derive(Clone, Copy, PartialEq, Eq)]
pub enum TagFault {
    /// A value of another type than the instruction takes.
    WrongTag,
    /// An object of another class or array type than the instruction takes.
    WrongKind,
    /// Fewer operands than the instruction takes.
    Underflow,
    /// More operands than `max_stack` has room for (JVMS 4.7.3).
    Overflow,
    /// A local variable past `max_locals`, or one that is not set.
    BadLocal,
    /// An instruction number past the end of the code.
    NoInstruction,
    /// A monitor that was entered more than 2^31 - 1 times.
    MonitorCount,
}

impl Display for TagFault {
    ghost output = { λ fault. Some (fault_name fault) };

    fn fmt<W: fmt::Write>(&self, f: &mut Formatter<W>) -> fmt::Result {
        f.write_str(match self {
            TagFault::WrongTag => "WrongTag",
            TagFault::WrongKind => "WrongKind",
            TagFault::Underflow => "Underflow",
            TagFault::Overflow => "Overflow",
            TagFault::BadLocal => "BadLocal",
            TagFault::NoInstruction => "NoInstruction",
            TagFault::MonitorCount => "MonitorCount",
        })
    }
}

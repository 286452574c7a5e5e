// Why bytes are no class file, and how the faults of the layers below are seen there.

ghost use Rattle.std.specs.Prelude.{◌≡◌, Some};
ghost use Rattle.jm_class_format.specs.FaultTexts.{fault_text, left_out_part_text};
ghost use Rattle.jm_class_format.specs.FileFaults.{left_out_tag};

use crate::fault::{CodeFault, PoolFault};
use jm_program::DescriptorFault;
use std::alloc::{AllocError, AllocFailed};
use std::error::Error;
use std::fmt;

/// A part of a class file that the profile leaves out.
#[derive(Clone, Copy, PartialEq, Eq)]
pub enum LeftOutPart {
    /// A Float entry of the pool.
    Float,
    /// A Double entry of the pool.
    Double,
    /// A MethodHandle entry of the pool.
    MethodHandle,
    /// A MethodType entry of the pool.
    MethodType,
    /// An InvokeDynamic entry of the pool.
    InvokeDynamic,
    /// A native method.
    Native,
    /// A static synchronized method.
    StaticSynchronized,
    /// A method of an interface with code, `<clinit>()V` apart, or a call of an interface's method
    /// by `invokespecial` or `invokestatic`.
    InterfaceMethod,
    /// A method `finalize()V`.
    Finalize,
    /// The type float in a descriptor.
    FloatType,
    /// The type double in a descriptor.
    DoubleType,
    /// `ldc` of a class.
    LdcClass,
}

#[tactic(auto, unfolding(crate::specs::FaultTexts::left_out_part_text))]
impl fmt::Display for LeftOutPart {
    ghost output = { λ part. Some (left_out_part_text part) };

    fn fmt<W: fmt::Write>(&self, f: &mut fmt::Formatter<W>) -> fmt::Result {
        f.write_str(match self {
            LeftOutPart::Float => "Float",
            LeftOutPart::Double => "Double",
            LeftOutPart::MethodHandle => "MethodHandle",
            LeftOutPart::MethodType => "MethodType",
            LeftOutPart::InvokeDynamic => "InvokeDynamic",
            LeftOutPart::Native => "native",
            LeftOutPart::StaticSynchronized => "static synchronized",
            LeftOutPart::InterfaceMethod => "interface method",
            LeftOutPart::Finalize => "finalize",
            LeftOutPart::FloatType => "float",
            LeftOutPart::DoubleType => "double",
            LeftOutPart::LdcClass => "ldc class",
        })
    }
}

/// Why bytes are no class file.
#[derive(Clone, Copy, PartialEq, Eq)]
pub enum ReadFault {
    /// A text that is no descriptor of the kind that its place needs.
    BadDescriptor,
    /// A text that is no name of the kind that its place needs.
    BadName,
    /// The bytes of a code spell none.
    Code(CodeFault),
    /// The bytes of the constant pool spell none, or an index names no entry of the kind that its
    /// place needs.
    Pool(PoolFault),
    Magic,
    /// A version before 45.0 or after 52.0.
    Version,
    /// The bytes end behind the pool, or before it.
    Cut,
    /// Bytes follow the class.
    Trailing,
    /// An attribute that does not fill its length, that stands twice, or whose parts break the
    /// rules of JVMS 4.7.
    BadAttribute,
    /// A part that the profile leaves out.
    LeftOut(LeftOutPart),
    /// A growth was refused.
    OutOfMemory,
}

#[tactic(auto, unfolding(crate::specs::FaultTexts::fault_text))]
impl fmt::Display for ReadFault {
    ghost output = { λ fault. Some (fault_text fault) };

    fn fmt<W: fmt::Write>(&self, f: &mut fmt::Formatter<W>) -> fmt::Result {
        match self {
            ReadFault::BadDescriptor => f.write_str("1 BadDescriptor"),
            ReadFault::BadName => f.write_str("2 BadName"),
            ReadFault::Code(fault) => write!(f, "{fault}"),
            ReadFault::Pool(fault) => write!(f, "{fault}"),
            ReadFault::Magic => f.write_str("30 Magic"),
            ReadFault::Version => f.write_str("31 Version"),
            ReadFault::Cut => f.write_str("32 Cut"),
            ReadFault::Trailing => f.write_str("33 Trailing"),
            ReadFault::BadAttribute => f.write_str("34 BadAttribute"),
            ReadFault::LeftOut(part) => write!(f, "35 LeftOut({part})"),
            ReadFault::OutOfMemory => f.write_str("61 OutOfMemory"),
        }
    }
}

/// As it is displayed.
impl fmt::Debug for ReadFault {
    fn fmt<W: fmt::Write>(&self, f: &mut fmt::Formatter<W>) -> fmt::Result {
        fmt::Display::fmt(self, f)
    }
}

impl Error for ReadFault {}

impl From<jm_bytes::Cut> for ReadFault {
    ghost use Rattle.jm_class_format.specs.declared.read_fault.ReadFault.TheVariants.{Cut};

    ghost from_gives = { λ _ fault. fault ≡ Cut };

    fn from(_error: jm_bytes::Cut) -> ReadFault {
        ReadFault::Cut
    }
}

impl From<PoolFault> for ReadFault {
    ghost use Rattle.jm_class_format.specs.FileFaults.{of_pool};

    ghost from_gives = { λ error fault. fault ≡ of_pool error };

    fn from(error: PoolFault) -> ReadFault {
        match error {
            PoolFault::BadTag(tag) => left_out_tag(tag),
            PoolFault::OutOfMemory => ReadFault::OutOfMemory,
            error => ReadFault::Pool(error),
        }
    }
}

impl From<CodeFault> for ReadFault {
    ghost use Rattle.jm_class_format.specs.FileFaults.{of_code};

    ghost from_gives = { λ error fault. fault ≡ of_code error };

    fn from(error: CodeFault) -> ReadFault {
        match error {
            CodeFault::OutOfMemory => ReadFault::OutOfMemory,
            error => ReadFault::Code(error),
        }
    }
}

impl From<DescriptorFault> for ReadFault {
    ghost use Rattle.jm_class_format.specs.FileFaults.{of_descriptor};

    ghost from_gives = { λ error fault. fault ≡ of_descriptor error };

    fn from(error: DescriptorFault) -> ReadFault {
        match error {
            DescriptorFault::BadDescriptor => ReadFault::BadDescriptor,
            DescriptorFault::BadName => ReadFault::BadName,
            DescriptorFault::OutOfMemory => ReadFault::OutOfMemory,
        }
    }
}

/// Why an entry with a tag that is not read is refused in a class file.
#[tactic(auto, unfolding(crate::specs::FileFaults::left_out_tag))]
fn left_out_tag(tag: u8) -> ReadFault
    ensures { result ≡ left_out_tag tag }
{
    match tag {
        4 => ReadFault::LeftOut(LeftOutPart::Float),
        6 => ReadFault::LeftOut(LeftOutPart::Double),
        15 => ReadFault::LeftOut(LeftOutPart::MethodHandle),
        16 => ReadFault::LeftOut(LeftOutPart::MethodType),
        18 => ReadFault::LeftOut(LeftOutPart::InvokeDynamic),
        _ => ReadFault::Pool(PoolFault::BadTag(tag)),
    }
}

impl From<AllocError> for ReadFault {
    ghost use Rattle.jm_class_format.specs.declared.read_fault.ReadFault.TheVariants.{OutOfMemory};

    ghost from_gives = { λ _ fault. fault ≡ OutOfMemory };

    fn from(_error: AllocError) -> ReadFault {
        ReadFault::OutOfMemory
    }
}

impl<T: Drop> From<AllocFailed<T>> for ReadFault {
    ghost use Rattle.jm_class_format.specs.declared.read_fault.ReadFault.TheVariants.{OutOfMemory};

    ghost from_gives = { λ _ fault. fault ≡ OutOfMemory };

    fn from(_error: AllocFailed<T>) -> ReadFault {
        ReadFault::OutOfMemory
    }
}

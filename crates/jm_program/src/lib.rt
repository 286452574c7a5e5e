//! A Java class as symbolic data: names, descriptors, instructions and classes, with nothing of
//! the bytes that a class file spells them in.
//!
//! A class names everything that it uses: no constant pool index and no byte offset appears. A
//! branch target, an exception range, a handler and a line entry are numbers of instructions,
//! counted from 0. A [`Class`] keeps the rules of JVMS 4 that speak of a class and not of its
//! bytes; a descriptor is what its text spells.
//!
//! The crate stands on std alone.
#![tactic(auto)]

mod class;
mod code;
mod constant;
mod descriptor;
mod fault;
mod flags;
mod instruction;
mod jasmin;
mod laws;
mod limits;
mod name;
mod reference;
mod sequence;
mod shared;
mod surrogate;
mod text;

pub use class::{Class, ClassParts, Field, Method, Version};
pub use code::{Code, Handler, LineNumber};
pub use constant::Constant;
pub use descriptor::{BaseType, Descriptor, ElementType, FieldType, MethodDescriptor};
pub use fault::DescriptorFault;
pub use flags::AccessFlags;
pub use instruction::{
    Arithmetic, ArrayKind, ArrayOp, Bitwise, Branch, Comparison, Conversion, Equality, FieldOp,
    Instr, Integral, InvokeOp, LookupSwitch, MonitorOp, OperandType, Plain, PrimitiveType,
    ReturnOp, Shift, ShortIndex, Simple, SmallInt, SmallLong, StackOp, SwitchPair, TableSwitch,
    TypeOp,
};
pub use jasmin::StringUnits;
pub use laws::one_descriptor;
pub use limits::{MAX_ARGUMENT_SLOTS, MAX_CODE_BYTES, MAX_DIMENSIONS, NEWEST_MAJOR, OLDEST_MAJOR};
pub use name::Name;
pub use reference::{ClassRef, FieldRef, MethodRef};
pub use sequence::Sequence;
pub use shared::Shared;
pub use surrogate::{is_high_surrogate, is_low_surrogate, supplementary_character};
pub use text::{code_units, is_text};

// Instructions that touch one frame alone and name nothing.

ghost use Rattle.std.specs.Prelude.{◌≡◌, IfOk};

use crate::instruction::operation::{
    Arithmetic, Bitwise, Branch, Conversion, Integral, OperandType, Shift, ShortIndex, SmallInt,
    SmallLong, StackOp,
};
use crate::sequence::Sequence;
use crate::shared::Shared;
use std::alloc::AllocError;

/// An instruction of one byte that touches one frame alone.
#[derive(Clone, Copy, PartialEq, Eq)]
pub enum Simple {
    Nop,
    /// `aconst_null`.
    Null,
    IntConstant(SmallInt),
    LongConstant(SmallLong),
    Load(OperandType, ShortIndex),
    Store(OperandType, ShortIndex),
    Stack(StackOp),
    Arithmetic(Arithmetic, Integral),
    Negate(Integral),
    Shift(Shift, Integral),
    Bitwise(Bitwise, Integral),
    Convert(Conversion),
    /// `lcmp`.
    CompareLongs,
}

/// An instruction that touches one frame alone and names nothing.
#[derive(PartialEq, Eq)]
pub enum Plain {
    Simple(Simple),
    /// `bipush`.
    PushByte(i8),
    /// `sipush`.
    PushShort(i16),
    /// `iload`, `lload` and `aload` of a local variable, wide or not.
    Load(OperandType, u16),
    /// `istore`, `lstore` and `astore` to a local variable, wide or not.
    Store(OperandType, u16),
    /// `iinc` of a local variable by a constant, wide or not.
    Increment(u16, i16),
    Branch(Branch, u32),
    TableSwitch(Shared<TableSwitch>),
    LookupSwitch(Shared<LookupSwitch>),
}

// Written out, so that whoever lets go of one makes a call (docs/DECISIONS.md).
impl Drop for Plain {
    fn drop(self) {
        match self {
            Plain::Simple(_)
            | Plain::PushByte(_)
            | Plain::PushShort(_)
            | Plain::Load(_, _)
            | Plain::Store(_, _)
            | Plain::Increment(_, _)
            | Plain::Branch(_, _)
            | Plain::TableSwitch(_)
            | Plain::LookupSwitch(_) => {}
        }
    }
}

/// The operands of `tableswitch` (JVMS 6.5): the targets of `low`, `low` + 1, .. in order, of
/// which there is at least one, and the target of every other int.
#[derive(PartialEq, Eq)]
pub struct TableSwitch {
    pub low: i32,
    pub targets: Sequence<u32>,
    pub default: u32,
}

// Written out, so that whoever lets go of one makes a call (docs/DECISIONS.md).
impl Drop for TableSwitch {
    fn drop(self) {
        let TableSwitch {
            low: _,
            targets: _,
            default: _,
        } = self;
    }
}

/// The operands of `lookupswitch` (JVMS 6.5): the pairs, their keys strictly rising, and the
/// target of every other int.
#[derive(PartialEq, Eq)]
pub struct LookupSwitch {
    pub pairs: Sequence<SwitchPair>,
    pub default: u32,
}

// Written out, so that whoever lets go of one makes a call (docs/DECISIONS.md).
impl Drop for LookupSwitch {
    fn drop(self) {
        let LookupSwitch {
            pairs: _,
            default: _,
        } = self;
    }
}

/// A key of `lookupswitch` with its target.
#[derive(Clone, Copy, PartialEq, Eq)]
pub struct SwitchPair {
    pub key: i32,
    pub target: u32,
}

impl Plain {
    /// The same instruction once more; a switch is shared, and it takes no memory. The error is
    /// that of [`Shared::share`].
    pub fn share(&self) -> Result<Plain, AllocError>
        ensures { IfOk result (λ plain. plain ≡ self.now) }
    {
        match self {
            Plain::Simple(simple) => Ok(Plain::Simple(*simple)),
            Plain::PushByte(value) => Ok(Plain::PushByte(*value)),
            Plain::PushShort(value) => Ok(Plain::PushShort(*value)),
            Plain::Load(kind, index) => Ok(Plain::Load(*kind, *index)),
            Plain::Store(kind, index) => Ok(Plain::Store(*kind, *index)),
            Plain::Increment(index, by) => Ok(Plain::Increment(*index, *by)),
            Plain::Branch(branch, target) => Ok(Plain::Branch(*branch, *target)),
            Plain::TableSwitch(table) => Ok(Plain::TableSwitch(table.share()?)),
            Plain::LookupSwitch(lookup) => Ok(Plain::LookupSwitch(lookup.share()?)),
        }
    }
}

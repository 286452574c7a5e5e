//! The operands of each shape but those of switches (JVMS 6.5): immediate numbers, indexes of the
//! constant pool, local variables, branch targets, and what `wide` widens.

ghost use Rattle.std.specs.Prelude.{◌≡◌, ◌<◌, ◌+◌, ◌+ℤ◌, ℤ, pos, Ok, Err, IfOk};
ghost use Rattle.jm_bytes.specs.Reading.{Takes, TakesAll};
ghost use Rattle.jm_bytes.specs.Format.{Format};
ghost use Rattle.jm_class_format.specs.Instructions.{offset_of, target_from, near_target, far_target, element_at, new_array, new_arrays, invoke_interface, increment, wide_increment, can_be_wide, no_wide, wide_operands, wide, operands};
ghost use Rattle.jm_class_format.specs.declared.opcode.Opcode.TheVariants as opcode;

use crate::table::opcode_of;
use jm_bytes::Reader;
use jm_class_format::{CodeFault, IndexedInstr, LeftOutOp, Opcode};
use jm_program::{ArrayOp, Branch, FieldOp, InvokeOp, OperandType, Plain, PrimitiveType, TypeOp};

/// The offset that a branch at an offset jumps to, or the largest number where it is before the
/// start of the code.
#[tactic(auto, unfolding(jm_class_format::specs::Instructions::offset_of, jm_class_format::specs::Instructions::target_from))]
fn target_from(at: u32, jump: i32) -> u32
    requires { at < 65536 }
    ensures { result ≡ target_from at jump }
{
    let target = i64::from(at) + i64::from(jump);
    if target < 0 { u32::MAX } else { target as u32 }
}

/// A target in two bytes.
#[tactic(auto, unfolding(jm_class_format::specs::Instructions::near_target))]
fn near_target(at: u32, reader: &mut Reader<'_>) -> Result<u32, CodeFault>
    requires { at < 65536 }
    ensures { Takes result reader.new ((near_target at).read reader.old) }
{
    let Ok(jump) = reader.s2() else {
        return Err(CodeFault::Cut(at));
    };
    Ok(target_from(at, i32::from(jump)))
}

/// A target in four bytes.
#[tactic(auto, unfolding(jm_class_format::specs::Instructions::far_target))]
pub fn far_target(at: u32, reader: &mut Reader<'_>) -> Result<u32, CodeFault>
    requires { at < 65536 }
    ensures { Takes result reader.new ((far_target at).read reader.old) }
{
    let Ok(jump) = reader.s4() else {
        return Err(CodeFault::Cut(at));
    };
    Ok(target_from(at, jump))
}

/// The operand of `bipush`.
#[tactic(auto, unfolding(jm_class_format::specs::Instructions::operands))]
pub fn push_byte(at: u32, reader: &mut Reader<'_>) -> Result<IndexedInstr, CodeFault>
    ensures { Takes result reader.new ((operands at opcode.PushByte).read reader.old) }
{
    let Ok(n) = reader.s1() else {
        return Err(CodeFault::Cut(at));
    };
    Ok(IndexedInstr::Plain(Plain::PushByte(n)))
}

/// The operand of `sipush`.
#[tactic(auto, unfolding(jm_class_format::specs::Instructions::operands))]
pub fn push_short(at: u32, reader: &mut Reader<'_>) -> Result<IndexedInstr, CodeFault>
    ensures { Takes result reader.new ((operands at opcode.PushShort).read reader.old) }
{
    let Ok(n) = reader.s2() else {
        return Err(CodeFault::Cut(at));
    };
    Ok(IndexedInstr::Plain(Plain::PushShort(n)))
}

/// The index of `ldc`.
#[tactic(auto, unfolding(jm_class_format::specs::Instructions::operands))]
pub fn load_constant(at: u32, reader: &mut Reader<'_>) -> Result<IndexedInstr, CodeFault>
    ensures { Takes result reader.new ((operands at opcode.LoadConstant).read reader.old) }
{
    let Ok(index) = reader.u1() else {
        return Err(CodeFault::Cut(at));
    };
    Ok(IndexedInstr::Constant(u16::from(index)))
}

/// The index of `ldc_w`.
#[tactic(auto, unfolding(jm_class_format::specs::Instructions::operands))]
pub fn load_constant_wide(at: u32, reader: &mut Reader<'_>) -> Result<IndexedInstr, CodeFault>
    ensures { Takes result reader.new ((operands at opcode.LoadConstantWide).read reader.old) }
{
    let Ok(index) = reader.u2() else {
        return Err(CodeFault::Cut(at));
    };
    Ok(IndexedInstr::Constant(index))
}

/// The index of `ldc2_w`.
#[tactic(auto, unfolding(jm_class_format::specs::Instructions::operands))]
pub fn load_long(at: u32, reader: &mut Reader<'_>) -> Result<IndexedInstr, CodeFault>
    ensures { Takes result reader.new ((operands at opcode.LoadLong).read reader.old) }
{
    let Ok(index) = reader.u2() else {
        return Err(CodeFault::Cut(at));
    };
    Ok(IndexedInstr::LongConstant(index))
}

/// The local variable of a load.
#[tactic(auto, unfolding(jm_class_format::specs::Instructions::operands))]
pub fn load(at: u32, kind: OperandType, reader: &mut Reader<'_>) -> Result<IndexedInstr, CodeFault>
    ensures { Takes result reader.new ((operands at (opcode.Load kind)).read reader.old) }
{
    let Ok(local) = reader.u1() else {
        return Err(CodeFault::Cut(at));
    };
    Ok(IndexedInstr::Plain(Plain::Load(kind, u16::from(local))))
}

/// The local variable of a store.
#[tactic(auto, unfolding(jm_class_format::specs::Instructions::operands))]
pub fn store(at: u32, kind: OperandType, reader: &mut Reader<'_>) -> Result<IndexedInstr, CodeFault>
    ensures { Takes result reader.new ((operands at (opcode.Store kind)).read reader.old) }
{
    let Ok(local) = reader.u1() else {
        return Err(CodeFault::Cut(at));
    };
    Ok(IndexedInstr::Plain(Plain::Store(kind, u16::from(local))))
}

/// The target of a branch by 16 bits.
#[tactic(auto, unfolding(jm_class_format::specs::Instructions::operands))]
pub fn near_branch(
    at: u32,
    branch: Branch,
    reader: &mut Reader<'_>,
) -> Result<IndexedInstr, CodeFault>
    requires { at < 65536 }
    ensures { Takes result reader.new ((operands at (opcode.Branch branch)).read reader.old) }
{
    let target = near_target(at, reader)?;
    Ok(IndexedInstr::Plain(Plain::Branch(branch, target)))
}

/// The target of a branch by 32 bits.
#[tactic(auto, unfolding(jm_class_format::specs::Instructions::operands))]
pub fn far_branch(
    at: u32,
    branch: Branch,
    reader: &mut Reader<'_>,
) -> Result<IndexedInstr, CodeFault>
    requires { at < 65536 }
    ensures { Takes result reader.new ((operands at (opcode.BranchWide branch)).read reader.old) }
{
    let target = far_target(at, reader)?;
    Ok(IndexedInstr::Plain(Plain::Branch(branch, target)))
}

/// The index of an instruction that names a field.
#[tactic(auto, unfolding(jm_class_format::specs::Instructions::operands))]
pub fn field(at: u32, op: FieldOp, reader: &mut Reader<'_>) -> Result<IndexedInstr, CodeFault>
    ensures { Takes result reader.new ((operands at (opcode.Field op)).read reader.old) }
{
    let Ok(index) = reader.u2() else {
        return Err(CodeFault::Cut(at));
    };
    Ok(IndexedInstr::Field(op, index))
}

/// The index of an instruction that names a method of a class.
#[tactic(auto, unfolding(jm_class_format::specs::Instructions::operands))]
pub fn invoke(at: u32, op: InvokeOp, reader: &mut Reader<'_>) -> Result<IndexedInstr, CodeFault>
    ensures { Takes result reader.new ((operands at (opcode.Invoke op)).read reader.old) }
{
    let Ok(index) = reader.u2() else {
        return Err(CodeFault::Cut(at));
    };
    Ok(IndexedInstr::Invoke(op, index))
}

/// The index of `new`.
#[tactic(auto, unfolding(jm_class_format::specs::Instructions::operands))]
pub fn new_object(at: u32, reader: &mut Reader<'_>) -> Result<IndexedInstr, CodeFault>
    ensures { Takes result reader.new ((operands at opcode.New).read reader.old) }
{
    let Ok(index) = reader.u2() else {
        return Err(CodeFault::Cut(at));
    };
    Ok(IndexedInstr::New(index))
}

/// The index of an instruction that names a type.
#[tactic(auto, unfolding(jm_class_format::specs::Instructions::operands))]
pub fn type_index(at: u32, op: TypeOp, reader: &mut Reader<'_>) -> Result<IndexedInstr, CodeFault>
    ensures { Takes result reader.new ((operands at (opcode.Type op)).read reader.old) }
{
    let Ok(index) = reader.u2() else {
        return Err(CodeFault::Cut(at));
    };
    Ok(IndexedInstr::Type(op, index))
}

/// The element type of `newarray` (JVMS 6.5, table 6.5.newarray-A).
#[tactic(auto, unfolding(jm_class_format::specs::Instructions::element_at))]
fn element_of(at: u32, code: u8) -> Result<PrimitiveType, CodeFault>
    ensures { TakesAll (λ x. x) result (element_at at code) }
{
    match code {
        4 => Ok(PrimitiveType::Boolean),
        5 => Ok(PrimitiveType::Char),
        6 => Err(CodeFault::LeftOut(LeftOutOp::FloatArray)),
        7 => Err(CodeFault::LeftOut(LeftOutOp::DoubleArray)),
        8 => Ok(PrimitiveType::Byte),
        9 => Ok(PrimitiveType::Short),
        10 => Ok(PrimitiveType::Int),
        11 => Ok(PrimitiveType::Long),
        _ => Err(CodeFault::BadOpcode(at)),
    }
}

/// The operand of `newarray`.
#[tactic(auto, unfolding(jm_class_format::specs::Instructions::new_array))]
pub fn new_array(at: u32, reader: &mut Reader<'_>) -> Result<IndexedInstr, CodeFault>
    ensures { Takes result reader.new ((new_array at).read reader.old) }
{
    let Ok(code) = reader.u1() else {
        return Err(CodeFault::Cut(at));
    };
    let element = element_of(at, code)?;
    Ok(IndexedInstr::Array(ArrayOp::New(element)))
}

/// The operands of `multianewarray`.
#[tactic(auto, unfolding(jm_class_format::specs::Instructions::new_arrays))]
pub fn new_arrays(at: u32, reader: &mut Reader<'_>) -> Result<IndexedInstr, CodeFault>
    ensures { Takes result reader.new ((new_arrays at).read reader.old) }
{
    let Ok(index) = reader.u2() else {
        return Err(CodeFault::Cut(at));
    };
    let Ok(dimensions) = reader.u1() else {
        return Err(CodeFault::Cut(at));
    };
    Ok(IndexedInstr::Type(TypeOp::NewArrays(dimensions), index))
}

/// The operands of `invokeinterface`.
#[tactic(auto, unfolding(jm_class_format::specs::Instructions::invoke_interface))]
pub fn invoke_interface(at: u32, reader: &mut Reader<'_>) -> Result<IndexedInstr, CodeFault>
    ensures { Takes result reader.new ((invoke_interface at).read reader.old) }
{
    let Ok(index) = reader.u2() else {
        return Err(CodeFault::Cut(at));
    };
    let Ok(count) = reader.u1() else {
        return Err(CodeFault::Cut(at));
    };
    let Ok(last) = reader.u1() else {
        return Err(CodeFault::Cut(at));
    };
    Ok(IndexedInstr::InvokeInterface(index, count, last))
}

/// The operands of `iinc`.
#[tactic(auto, unfolding(jm_class_format::specs::Instructions::increment))]
pub fn increment(at: u32, reader: &mut Reader<'_>) -> Result<IndexedInstr, CodeFault>
    ensures { Takes result reader.new ((increment at).read reader.old) }
{
    let Ok(local) = reader.u1() else {
        return Err(CodeFault::Cut(at));
    };
    let Ok(n) = reader.s1() else {
        return Err(CodeFault::Cut(at));
    };
    Ok(IndexedInstr::Plain(Plain::Increment(u16::from(local), i16::from(n))))
}

/// The operands of `iinc` behind `wide`.
#[tactic(auto, unfolding(jm_class_format::specs::Instructions::wide_increment))]
fn wide_increment(at: u32, reader: &mut Reader<'_>) -> Result<IndexedInstr, CodeFault>
    ensures { Takes result reader.new ((wide_increment at).read reader.old) }
{
    let Ok(local) = reader.u2() else {
        return Err(CodeFault::Cut(at));
    };
    let Ok(n) = reader.s2() else {
        return Err(CodeFault::Cut(at));
    };
    Ok(IndexedInstr::Plain(Plain::Increment(local, n)))
}

/// Why an instruction that is left out is refused behind `wide`.
#[tactic(auto, unfolding(jm_class_format::specs::Instructions::no_wide))]
fn no_wide(at: u32, op: LeftOutOp) -> CodeFault
    ensures { result ≡ no_wide at op }
{
    match op {
        LeftOutOp::FLoad
        | LeftOutOp::DLoad
        | LeftOutOp::FStore
        | LeftOutOp::DStore
        | LeftOutOp::Ret => CodeFault::LeftOut(op),
        _ => CodeFault::BadOpcode(at),
    }
}

/// The operands of an opcode behind `wide` (JVMS 6.5 wide).
#[tactic(auto, unfolding(jm_class_format::specs::Instructions::wide_operands))]
fn wide_operands(
    at: u32,
    opcode: Opcode,
    reader: &mut Reader<'_>,
) -> Result<IndexedInstr, CodeFault>
    ensures { Takes result reader.new ((wide_operands at opcode).read reader.old) }
{
    match opcode {
        Opcode::Load(kind) => {
            let Ok(local) = reader.u2() else {
                return Err(CodeFault::Cut(at));
            };
            Ok(IndexedInstr::Plain(Plain::Load(kind, local)))
        }
        Opcode::Store(kind) => {
            let Ok(local) = reader.u2() else {
                return Err(CodeFault::Cut(at));
            };
            Ok(IndexedInstr::Plain(Plain::Store(kind, local)))
        }
        Opcode::Increment => wide_increment(at, reader),
        Opcode::LeftOut(op) => Err(no_wide(at, op)),
        _ => Err(CodeFault::BadOpcode(at)),
    }
}

/// The opcode behind `wide`, and its operands.
#[tactic(auto, unfolding(jm_class_format::specs::Instructions::wide))]
pub fn wide(at: u32, reader: &mut Reader<'_>) -> Result<IndexedInstr, CodeFault>
    ensures { Takes result reader.new ((wide at).read reader.old) }
{
    let Ok(byte) = reader.u1() else {
        return Err(CodeFault::Cut(at));
    };
    let opcode = opcode_of(byte).ok_or(CodeFault::BadOpcode(at))?;
    wide_operands(at, opcode, reader)
}

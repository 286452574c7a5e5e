//! One instruction: its opcode, then the operands that the opcode asks for (JVMS 6.5).

ghost use Rattle.std.specs.Prelude.{◌≡◌, ◌<◌, length, OnOk};
ghost use Rattle.jm_bytes.specs.Reading.{Gives};
ghost use Rattle.jm_bytes.specs.Format.{Format};
ghost use Rattle.jm_class_format.specs.declared.fault.CodeFault.TheVariants.{OutOfMemory};
ghost use Rattle.jm_class_format.specs.Instructions.{operands, instruction};

use crate::operands::{
    far_branch, field, increment, invoke, invoke_interface, load, load_constant,
    load_constant_wide, load_long, near_branch, new_array, new_arrays, new_object, push_byte,
    push_short, store, type_index, wide,
};
use crate::switch::{lookup_switch, table_switch};
use crate::table::opcode_of;
use jm_bytes::Reader;
use jm_class_format::{CodeFault, IndexedInstr, Opcode};
use jm_program::Plain;
use std::alloc::Global;

/// The operands of an opcode that stands at an offset of the code.
#[tactic(auto, unfolding(jm_class_format::specs::Instructions::operands))]
fn operands(
    alloc: Global,
    at: u32,
    opcode: Opcode,
    reader: &mut Reader<'_>,
) -> Result<IndexedInstr, CodeFault>
    requires { at < 65536 }
    ensures { Gives (λ x. x) OutOfMemory result reader.new ((operands at opcode).read reader.old) }
{
    match opcode {
        Opcode::Simple(simple) => Ok(IndexedInstr::Plain(Plain::Simple(simple))),
        Opcode::Array(op) => Ok(IndexedInstr::Array(op)),
        Opcode::Return(op) => Ok(IndexedInstr::Return(op)),
        Opcode::Throw => Ok(IndexedInstr::Throw),
        Opcode::Monitor(op) => Ok(IndexedInstr::Monitor(op)),
        Opcode::PushByte => push_byte(at, reader),
        Opcode::PushShort => push_short(at, reader),
        Opcode::LoadConstant => load_constant(at, reader),
        Opcode::LoadConstantWide => load_constant_wide(at, reader),
        Opcode::LoadLong => load_long(at, reader),
        Opcode::Load(kind) => load(at, kind, reader),
        Opcode::Store(kind) => store(at, kind, reader),
        Opcode::Increment => increment(at, reader),
        Opcode::Branch(branch) => near_branch(at, branch, reader),
        Opcode::BranchWide(branch) => far_branch(at, branch, reader),
        Opcode::TableSwitch => table_switch(alloc, at, reader),
        Opcode::LookupSwitch => lookup_switch(alloc, at, reader),
        Opcode::Field(op) => field(at, op, reader),
        Opcode::Invoke(op) => invoke(at, op, reader),
        Opcode::InvokeInterface => invoke_interface(at, reader),
        Opcode::New => new_object(at, reader),
        Opcode::NewArray => new_array(at, reader),
        Opcode::Type(op) => type_index(at, op, reader),
        Opcode::NewArrays => new_arrays(at, reader),
        Opcode::Wide => wide(at, reader),
        Opcode::LeftOut(op) => Err(CodeFault::LeftOut(op)),
    }
}

/// The instruction that stands at an offset of the code.
#[tactic(auto, unfolding(jm_class_format::specs::Instructions::instruction))]
pub fn instruction(
    alloc: Global,
    at: u32,
    reader: &mut Reader<'_>,
) -> Result<IndexedInstr, CodeFault>
    requires { at < 65536 }
    ensures { Gives (λ x. x) OutOfMemory result reader.new ((instruction at).read reader.old) }
{
    let Ok(byte) = reader.u1() else {
        return Err(CodeFault::Cut(at));
    };
    let opcode = opcode_of(byte).ok_or(CodeFault::BadOpcode(at))?;
    operands(alloc, at, opcode, reader)
}

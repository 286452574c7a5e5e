// Instructions with indexes of the pool for what they name (JVMS 6.5).

ghost use Rattle.std.specs.Prelude.{◌≡◌, ◌<◌, ◌+◌, ℕ, IsTrue, IfOk, OnOk, All, length};
ghost use Rattle.std.specs.List.{list_all};
ghost use Rattle.jm_program.specs.Instructions.{instr_fits};
ghost use Rattle.jm_program.specs.Descriptors.{argument_slots};
ghost use Rattle.jm_program.specs.References.{method_ref_fits};
ghost use Rattle.jm_encode.specs.Encoding.{has_bytes};
ghost use Rattle.jm_encode.specs.Ranges.{InRange};
ghost use Rattle.jm_class_writer.specs.Drafts.{Leaves, each_of};
ghost use Rattle.jm_class_writer.specs.CodeParts.{load_of, invoke_of, instr_indexed, code_encoded};
ghost use Rattle.jm_class_writer.specs.Ranges.{InstrInRange};

use crate::draft::Draft;
use crate::fault::WriteFault;
use crate::pool_use::{
    class_index, class_ref_index, constant_index, field_ref_index, method_ref_index,
};
use jm_class_format::IndexedInstr;
use jm_encode::{EncodedCode, encode_code};
use jm_program::{Constant, Instr, InvokeOp, MethodRef};
use std::alloc::Global;

// ---- what an instruction names, by its index

// `ldc2_w` of a long, `ldc` of the rest.
fn load_of(constant: &Constant, index: u16) -> IndexedInstr
    ensures { result ≡ load_of constant.now index }
{
    match constant {
        Constant::Long(_) => IndexedInstr::LongConstant(index),
        _ => IndexedInstr::Constant(index),
    }
}

// The slots of the arguments, with the interface that receives them.
fn interface_slots(method: &MethodRef) -> u8
    requires { argument_slots method.now.descriptor < 255 }
    ensures { result ≡ argument_slots method.now.descriptor + 1 }
{
    match method.descriptor.argument_slots() {
        Some(slots) => slots + 1,
        None => 255,
    }
}

// `invokeinterface` has the count of the argument slots, the receiver included, and a zero.
fn invoke_of(op: InvokeOp, method: &MethodRef, index: u16) -> IndexedInstr
    requires { IsTrue (method_ref_fits op method.now) }
    ensures { result ≡ invoke_of op method.now index }
{
    match op {
        InvokeOp::Interface => IndexedInstr::InvokeInterface(index, interface_slots(method), 0),
        _ => IndexedInstr::Invoke(op, index),
    }
}

// An instruction of some code.
#[tactic(auto, unfolding(crate::specs::CodeParts::instr_indexed, jm_encode::specs::Encoding::has_bytes))]
fn instr_indexed(
    draft: &mut Draft,
    alloc: Global,
    instruction: &Instr,
) -> Result<IndexedInstr, WriteFault>
    requires { (count : ℕ) × IsTrue (instr_fits count instruction.now) }
    ensures indexed { Leaves (λ instr. instr) result draft.new (instr_indexed instruction.now draft.old) }
    ensures bytes { IfOk result (λ instr. IsTrue (has_bytes instr)) }
    ensures range { IfOk result (λ instr. InRange instr → InstrInRange instruction.now) }
{
    match instruction {
        Instr::Plain(plain) => {
            let plain = plain.share()?;
            Ok(IndexedInstr::Plain(plain))
        }
        Instr::Array(op) => Ok(IndexedInstr::Array(*op)),
        Instr::Return(op) => Ok(IndexedInstr::Return(*op)),
        Instr::Throw => Ok(IndexedInstr::Throw),
        Instr::Monitor(op) => Ok(IndexedInstr::Monitor(*op)),
        Instr::Constant(constant) => {
            let index = constant_index(draft, alloc, constant)?;
            Ok(load_of(constant, index))
        }
        Instr::Field(op, field) => {
            let index = field_ref_index(draft, alloc, field.get())?;
            Ok(IndexedInstr::Field(*op, index))
        }
        Instr::Invoke(op, method) => {
            let index = method_ref_index(draft, alloc, *op, method.get())?;
            Ok(invoke_of(*op, method.get(), index))
        }
        Instr::New(name) => {
            let index = class_index(draft, alloc, name.get())?;
            Ok(IndexedInstr::New(index))
        }
        Instr::Type(op, class) => {
            let index = class_ref_index(draft, alloc, class.get())?;
            Ok(IndexedInstr::Type(*op, index))
        }
    }
}

// The instructions of a code of so many.
#[tactic(auto, using(crate::proofs::Loops::each_steps))]
fn all_indexed(
    draft: &mut Draft,
    alloc: Global,
    instructions: &[Instr],
) -> Result<Vec<IndexedInstr>, WriteFault>
    requires { (count : ℕ) × IsTrue (list_all (instr_fits count) instructions.now) }
    ensures indexed { Leaves (λ v. v.items) result draft.new (each_of instr_indexed instructions.now draft.old) }
    ensures bytes { IfOk result (λ v. IsTrue (list_all has_bytes v.items)) }
    ensures count { IfOk result (λ v. length v.items ≡ length instructions.now) }
    ensures range { IfOk result (λ v. All InRange v.items → All InstrInRange instructions.now) }
{
    let mut all = Vec::new(alloc);
    for instruction in instructions {
        let instr = instr_indexed(draft, alloc, instruction)?;
        all.push(instr)?;
    }
    Ok(all)
}

/// The bytes of the instructions of a code, and where each begins.
#[tactic(auto, unfolding(crate::specs::CodeParts::code_encoded))]
pub fn code_encoded(
    draft: &mut Draft,
    alloc: Global,
    instructions: &[Instr],
) -> Result<EncodedCode, WriteFault>
    requires some { 0 < length instructions.now }
    requires fit { (count : ℕ) × IsTrue (list_all (instr_fits count) instructions.now) }
    ensures code { Leaves (λ code. code) result draft.new (code_encoded instructions.now draft.old) }
    ensures range { OnOk result (All InstrInRange instructions.now) }
{
    let all = all_indexed(draft, alloc, instructions)?;
    match encode_code(alloc, &all) {
        Ok(code) => Ok(code),
        Err(fault) => Err(WriteFault::from(fault)),
    }
}

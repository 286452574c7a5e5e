// The bytes of an instruction (JVMS 6.5).

ghost use Rattle.std.specs.Prelude.{◌≡◌, ◌+◌, ◌≤◌, IsTrue, OnOk};
ghost use Rattle.jm_bytes.specs.Reading.{GivesAll};
ghost use Rattle.jm_bytes.proofs.Loops.{with_front_all};
ghost use Rattle.jm_class_format.specs.declared.instruction.IndexedInstr.TheVariants as indexed;
ghost use Rattle.jm_encode.specs.declared.fault.EncodeFault.TheVariants.{OutOfMemory};
ghost use Rattle.jm_encode.specs.Encoding.{has_bytes, plain_size, plain_text, size_at, text_at};
ghost use Rattle.jm_encode.specs.Ranges.{PlainInRange, InRange};

use crate::fault::EncodeFault;
use crate::opcode_byte::{
    field_byte, invoke_byte, load_byte, monitor_byte, return_byte, simple_byte, store_byte,
};
use crate::operands::{
    put_array, put_constant, put_increment, put_indexed, put_interface, put_local, put_type,
};
use crate::switch::{put_lookup, put_table};
use crate::target::put_branch;
use jm_bytes::{put_s1, put_s2};
use jm_class_format::IndexedInstr;
use jm_program::Plain;

/// Appends an instruction that touches one frame alone and stands at an offset.
#[tactic(auto, unfolding(crate::specs::Encoding::plain_text, crate::specs::Encoding::plain_size, crate::specs::Encoding::has_bytes, jm_bytes::proofs::Loops::with_front_all))]
fn put_plain(out: &mut Vec<u8>, starts: &[u16], at: u16, plain: &Plain) -> Result<(), EncodeFault>
    requires rules { IsTrue (has_bytes (indexed.Plain plain.now)) }
    requires room { at + plain_size at plain.now ≤ 65535 }
    ensures given { GivesAll (λ _. out.new.items) OutOfMemory result (with_front_all out.old.items (plain_text starts.now at plain.now)) }
    ensures range { OnOk result (PlainInRange plain.now) }
{
    match plain {
        Plain::Simple(simple) => out.push(simple_byte(*simple))?,
        Plain::PushByte(n) => {
            out.push(16)?;
            put_s1(out, *n)?;
        }
        Plain::PushShort(n) => {
            out.push(17)?;
            put_s2(out, *n)?;
        }
        Plain::Load(kind, local) => put_local(out, load_byte(*kind), *local)?,
        Plain::Store(kind, local) => put_local(out, store_byte(*kind), *local)?,
        Plain::Increment(local, n) => put_increment(out, *local, *n)?,
        Plain::Branch(branch, target) => put_branch(out, starts, at, *branch, *target)?,
        Plain::TableSwitch(table) => put_table(out, starts, at, table.get())?,
        Plain::LookupSwitch(lookup) => put_lookup(out, starts, at, lookup.get())?,
    }
    Ok(())
}

/// Appends an instruction that stands at an offset.
#[tactic(auto, unfolding(crate::specs::Encoding::text_at, crate::specs::Encoding::size_at, jm_bytes::proofs::Loops::with_front_all))]
pub fn put_instruction(
    out: &mut Vec<u8>,
    starts: &[u16],
    at: u16,
    instr: &IndexedInstr,
) -> Result<(), EncodeFault>
    requires rules { IsTrue (has_bytes instr.now) }
    requires room { at + size_at at instr.now ≤ 65535 }
    ensures given { GivesAll (λ _. out.new.items) OutOfMemory result (with_front_all out.old.items (text_at starts.now at instr.now)) }
    ensures range { OnOk result (InRange instr.now) }
{
    match instr {
        IndexedInstr::Plain(plain) => put_plain(out, starts, at, plain)?,
        IndexedInstr::Array(op) => put_array(out, *op)?,
        IndexedInstr::Return(op) => out.push(return_byte(*op))?,
        IndexedInstr::Throw => out.push(191)?,
        IndexedInstr::Monitor(op) => out.push(monitor_byte(*op))?,
        IndexedInstr::Constant(index) => put_constant(out, *index)?,
        IndexedInstr::LongConstant(index) => put_indexed(out, 20, *index)?,
        IndexedInstr::Field(op, index) => put_indexed(out, field_byte(*op), *index)?,
        IndexedInstr::Invoke(op, index) => put_indexed(out, invoke_byte(*op), *index)?,
        IndexedInstr::InvokeInterface(index, count, last) => {
            put_interface(out, *index, *count, *last)?;
        }
        IndexedInstr::New(index) => put_indexed(out, 187, *index)?,
        IndexedInstr::Type(op, index) => put_type(out, *op, *index)?,
    }
    Ok(())
}

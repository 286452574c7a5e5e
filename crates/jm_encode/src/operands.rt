// The instructions whose bytes depend on their operands alone (JVMS 6.5).

ghost use Rattle.std.specs.Prelude.{◌≡◌, ◌++◌, ◌∷◌, OnOk};
ghost use Rattle.std.specs.Int.{w8, w16, to_be_bytes};
ghost use Rattle.jm_class_format.specs.declared.instruction.IndexedInstr.TheVariants as indexed;
ghost use Rattle.jm_encode.specs.Encoding.{local_text, increment_text, constant_text, array_text, type_text};
ghost use Rattle.jm_encode.specs.Ranges.{InRange};

use crate::opcode_byte::{array_load_byte, array_store_byte, element_code, type_byte};
use crate::size::is_short_increment;
use jm_bytes::{put_s1, put_s2, put_u1, put_u2};
use jm_program::{ArrayOp, TypeOp};
use std::alloc::AllocError;

/// Appends an opcode and an index of the constant pool.
pub fn put_indexed(out: &mut Vec<u8>, byte: u8, index: u16) -> Result<(), AllocError>
    ensures { OnOk result (out.new.items ≡ out.old.items ++ (byte ∷ to_be_bytes w16 index)) }
{
    out.push(byte)?;
    put_u2(out, index)
}

/// Appends a load or store, behind `wide` where its index does not go into a byte
/// (JVMS 6.5 wide).
#[tactic(auto, unfolding(crate::specs::Encoding::local_text))]
pub fn put_local(out: &mut Vec<u8>, byte: u8, local: u16) -> Result<(), AllocError>
    ensures { OnOk result (out.new.items ≡ out.old.items ++ local_text byte local) }
{
    if local <= 255 {
        out.push(byte)?;
        put_u1(out, local as u8)
    } else {
        out.push(196)?;
        put_indexed(out, byte, local)
    }
}

/// Appends `iinc`, behind `wide` where an operand does not go into a byte (JVMS 6.5 iinc, wide).
#[tactic(auto, unfolding(crate::specs::Encoding::increment_text, crate::specs::Encoding::is_short_increment))]
pub fn put_increment(out: &mut Vec<u8>, local: u16, n: i16) -> Result<(), AllocError>
    ensures { OnOk result (out.new.items ≡ out.old.items ++ increment_text local n) }
{
    if is_short_increment(local, n) {
        out.push(132)?;
        put_u1(out, local as u8)?;
        put_s1(out, n as i8)
    } else {
        out.push(196)?;
        put_indexed(out, 132, local)?;
        put_s2(out, n)
    }
}

/// Appends `ldc`, or `ldc_w` where the index does not go into a byte (JVMS 6.5 ldc, ldc_w).
#[tactic(auto, unfolding(crate::specs::Encoding::constant_text))]
pub fn put_constant(out: &mut Vec<u8>, index: u16) -> Result<(), AllocError>
    ensures { OnOk result (out.new.items ≡ out.old.items ++ constant_text index) }
{
    if index <= 255 {
        out.push(18)?;
        put_u1(out, index as u8)
    } else {
        put_indexed(out, 19, index)
    }
}

/// Appends an instruction of an array.
#[tactic(auto, unfolding(crate::specs::Encoding::array_text))]
pub fn put_array(out: &mut Vec<u8>, op: ArrayOp) -> Result<(), AllocError>
    ensures { OnOk result (out.new.items ≡ out.old.items ++ array_text op) }
{
    match op {
        ArrayOp::Load(kind) => out.push(array_load_byte(kind))?,
        ArrayOp::Store(kind) => out.push(array_store_byte(kind))?,
        ArrayOp::Length => out.push(190)?,
        ArrayOp::New(element) => {
            out.push(188)?;
            out.push(element_code(element))?;
        }
    }
    Ok(())
}

/// Appends an instruction that names a type, `multianewarray` with its dimensions.
#[tactic(auto, unfolding(crate::specs::Encoding::type_text))]
pub fn put_type(out: &mut Vec<u8>, op: TypeOp, index: u16) -> Result<(), AllocError>
    ensures given { OnOk result (out.new.items ≡ out.old.items ++ type_text op index) }
    ensures range { OnOk result (InRange (indexed.Type op index)) }
{
    put_indexed(out, type_byte(op), index)?;
    match op {
        TypeOp::NewArrays(dimensions) => put_u1(out, dimensions),
        _ => Ok(()),
    }
}

/// Appends `invokeinterface`, with the count and the byte after it (JVMS 6.5 invokeinterface).
pub fn put_interface(out: &mut Vec<u8>, index: u16, count: u8, last: u8) -> Result<(), AllocError>
    ensures { OnOk result (out.new.items ≡ out.old.items ++ (185 ∷ (to_be_bytes w16 index ++ (to_be_bytes w8 count ++ to_be_bytes w8 last)))) }
{
    put_indexed(out, 185, index)?;
    put_u1(out, count)?;
    put_u1(out, last)
}

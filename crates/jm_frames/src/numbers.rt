//! The operations on ints and longs that are alike in every frame (JVMS 2.11.3, 2.11.4).

ghost use Rattle.std.specs.Prelude.{◌≡◌, None, Option, Some, ℤ};
ghost use Rattle.std.specs.Int.{int_wrapping_neg, w32, w64};
ghost use Rattle.jm_program.specs.declared.instruction.operation.Integral.TheVariants as Integral;
ghost use Rattle.jm_values.specs.Arithmetic.{arithmetic_of, bitwise_of, distance, shift_of};
ghost use Rattle.jm_values.specs.Comparisons.{comparison_of, order_of};
ghost use Rattle.jm_program.specs.declared.instruction.operation.Conversion.TheVariants.{LongToInt, IntToByte, IntToChar, IntToShort};
ghost use Rattle.jm_values.specs.Conversions.{conversion_of};

use jm_program::{Arithmetic, Bitwise, Comparison, Shift};

/// The result on ints, which wraps; none where the divisor is 0 (JVMS 6.5 iadd, isub, imul, idiv,
/// irem).
#[inline(always)]
pub fn int_arithmetic(op: Arithmetic, x: i32, y: i32) -> Option<i32>
    ensures { result ≡ arithmetic_of op w32 x y }
{
    match op {
        Arithmetic::Add => Some(x.wrapping_add(y)),
        Arithmetic::Sub => Some(x.wrapping_sub(y)),
        Arithmetic::Mul => Some(x.wrapping_mul(y)),
        Arithmetic::Div if y != 0 => Some(x.wrapping_div(y)),
        Arithmetic::Rem if y != 0 => Some(x.wrapping_rem(y)),
        _ => None,
    }
}

/// The result on longs, which wraps; none where the divisor is 0 (JVMS 6.5 ladd, lsub, lmul, ldiv,
/// lrem).
#[inline(always)]
pub fn long_arithmetic(op: Arithmetic, first: i64, second: i64) -> Option<i64>
    ensures { result ≡ arithmetic_of op w64 first second }
{
    match op {
        Arithmetic::Add => Some(first.wrapping_add(second)),
        Arithmetic::Sub => Some(first.wrapping_sub(second)),
        Arithmetic::Mul => Some(first.wrapping_mul(second)),
        Arithmetic::Div if second != 0 => Some(first.wrapping_div(second)),
        Arithmetic::Rem if second != 0 => Some(first.wrapping_rem(second)),
        _ => None,
    }
}

/// An int shifted by the low 5 bits of the count (JVMS 6.5 ishl, ishr, iushr).
#[inline(always)]
pub fn int_shift(op: Shift, x: i32, count: i32) -> i32
    ensures { result ≡ shift_of op w32 x (distance Integral.Int count) }
{
    let count = count.cast_unsigned();
    match op {
        Shift::Left => x.wrapping_shl(count),
        Shift::Right => x.wrapping_shr(count),
        Shift::UnsignedRight => x.cast_unsigned().wrapping_shr(count).cast_signed(),
    }
}

/// A long shifted by the low 6 bits of the count (JVMS 6.5 lshl, lshr, lushr).
#[inline(always)]
pub fn long_shift(op: Shift, x: i64, count: i32) -> i64
    ensures { result ≡ shift_of op w64 x (distance Integral.Long count) }
{
    let distance = count.cast_unsigned();
    match op {
        Shift::Left => x.wrapping_shl(distance),
        Shift::Right => x.wrapping_shr(distance),
        Shift::UnsignedRight => x.cast_unsigned().wrapping_shr(distance).cast_signed(),
    }
}

/// The bits of two ints together (JVMS 6.5 iand, ior, ixor).
#[inline(always)]
pub fn int_bitwise(op: Bitwise, x: i32, y: i32) -> i32
    ensures { result ≡ bitwise_of op w32 x y }
{
    match op {
        Bitwise::And => x & y,
        Bitwise::Or => x | y,
        Bitwise::Xor => x ^ y,
    }
}

/// The bits of two longs together (JVMS 6.5 land, lor, lxor).
#[inline(always)]
pub fn long_bitwise(op: Bitwise, x: i64, y: i64) -> i64
    ensures { result ≡ bitwise_of op w64 x y }
{
    match op {
        Bitwise::And => x & y,
        Bitwise::Or => x | y,
        Bitwise::Xor => x ^ y,
    }
}

/// The low 32 bits of a long (JVMS 6.5 l2i).
#[inline(always)]
pub fn low_int(n: i64) -> i32
    ensures { result ≡ conversion_of LongToInt n }
{
    ((n.cast_unsigned() % (1 << 32)) as u32).cast_signed()
}

/// The low 8 bits of an int, with their sign (JVMS 6.5 i2b).
#[inline(always)]
pub fn to_byte(n: i32) -> i32
    ensures { result ≡ conversion_of IntToByte n }
{
    i32::from(((n.cast_unsigned() % (1 << 8)) as u8).cast_signed())
}

/// The low 16 bits of an int, without a sign (JVMS 6.5 i2c).
#[inline(always)]
pub fn to_char(n: i32) -> i32
    ensures { result ≡ conversion_of IntToChar n }
{
    i32::from((n.cast_unsigned() % (1 << 16)) as u16)
}

/// The low 16 bits of an int, with their sign (JVMS 6.5 i2s).
#[inline(always)]
pub fn to_short(n: i32) -> i32
    ensures { result ≡ conversion_of IntToShort n }
{
    i32::from(((n.cast_unsigned() % (1 << 16)) as u16).cast_signed())
}

/// 1, 0 or -1, as the first is greater, equal or less (JVMS 6.5 lcmp).
#[inline(always)]
pub fn order(x: i64, y: i64) -> i32
    ensures { result ≡ order_of x y }
{
    if x < y {
        -1
    } else if y < x {
        1
    } else {
        0
    }
}

/// Whether the condition of a branch holds of two ints (JVMS 6.5 if_icmp).
#[inline(always)]
pub fn compare(op: Comparison, x: i32, y: i32) -> bool
    ensures { result ≡ comparison_of op x y }
{
    if x < y {
        matches!(
            op,
            Comparison::NotEqual | Comparison::Less | Comparison::LessOrEqual
        )
    } else if x == y {
        matches!(
            op,
            Comparison::Equal | Comparison::GreaterOrEqual | Comparison::LessOrEqual
        )
    } else {
        matches!(
            op,
            Comparison::NotEqual | Comparison::GreaterOrEqual | Comparison::Greater
        )
    }
}

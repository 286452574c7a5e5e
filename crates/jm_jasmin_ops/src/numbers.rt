// Numbers in the range of their operand (Jasmin User Guide, "Instructions").

ghost use Rattle.std.specs.Prelude.{◌≡◌, ◌≤ℤ◌, ◌≤◌, IfOk, pos, negsuc};
ghost use Rattle.jm_bytes.specs.Reading.{TakesAll};
ghost use Rattle.jm_class_format.specs.Instructions.{natural};
ghost use Rattle.jm_jasmin_ops.specs.Operands.{integer, within, ranged, signed_byte, signed_short, signed_int, at_most, natural_within};

use crate::fault::AsmFault;
use crate::words::word;
use jm_jasmin_lex::Token;

/// A number of 64 bits.
#[tactic(auto, unfolding(crate::specs::Operands::integer))]
pub fn integer(token: &Token<'_>) -> Result<i64, AsmFault>
    ensures { TakesAll (λ n. n) result (integer token.now) }
{
    let text = word(token)?;
    let number = jm_jasmin_lex::integer(text).ok_or(AsmFault::Syntax(token.line()))?;
    Ok(number)
}

fn within(line: usize, low: i64, high: i64, number: i64) -> Result<i64, AsmFault>
    ensures given { TakesAll (λ n. n) result (within line low high number) }
    ensures least { IfOk result (λ n. low ≤ℤ n) }
    ensures most { IfOk result (λ n. n ≤ℤ high) }
{
    if low <= number && number <= high {
        Ok(number)
    } else {
        Err(AsmFault::Syntax(line))
    }
}

#[tactic(auto, unfolding(crate::specs::Operands::ranged))]
fn ranged(low: i64, high: i64, token: &Token<'_>) -> Result<i64, AsmFault>
    ensures given { TakesAll (λ n. n) result (ranged low high token.now) }
    ensures least { IfOk result (λ n. low ≤ℤ n) }
    ensures most { IfOk result (λ n. n ≤ℤ high) }
{
    let number = integer(token)?;
    within(token.line(), low, high, number)
}

/// A number of 8 bits in two's complement.
pub fn signed_byte(token: &Token<'_>) -> Result<i8, AsmFault>
    ensures { TakesAll (λ n. n) result (signed_byte token.now) }
{
    let number = ranged(-128, 127, token)?;
    Ok(number as i8)
}

/// A number of 16 bits in two's complement.
pub fn signed_short(token: &Token<'_>) -> Result<i16, AsmFault>
    ensures { TakesAll (λ n. n) result (signed_short token.now) }
{
    let number = ranged(-32768, 32767, token)?;
    Ok(number as i16)
}

/// A number of 32 bits in two's complement.
pub fn signed_int(token: &Token<'_>) -> Result<i32, AsmFault>
    ensures { TakesAll (λ n. n) result (signed_int token.now) }
{
    let number = ranged(-2147483648, 2147483647, token)?;
    Ok(number as i32)
}

/// The same number, where it is not negative.
#[tactic(auto, unfolding(jm_class_format::specs::Instructions::natural))]
pub fn natural(number: i64) -> Option<u64>
    ensures { result ≡ natural number }
{
    if number < 0 {
        None
    } else {
        Some(number as u64)
    }
}

fn at_most(line: usize, most: u16, number: u64) -> Result<u16, AsmFault>
    ensures given { TakesAll (λ n. n) result (at_most line most number) }
    ensures few { IfOk result (λ n. n ≤ most) }
{
    if number <= u64::from(most) {
        Ok(number as u16)
    } else {
        Err(AsmFault::Syntax(line))
    }
}

/// A number from 0 to `most`.
#[tactic(auto, unfolding(crate::specs::Operands::natural_within))]
pub fn natural_within(most: u16, token: &Token<'_>) -> Result<u16, AsmFault>
    ensures given { TakesAll (λ n. n) result (natural_within most token.now) }
    ensures few { IfOk result (λ n. n ≤ most) }
{
    let number = integer(token)?;
    let number = natural(number).ok_or(AsmFault::Syntax(token.line()))?;
    at_most(token.line(), most, number)
}

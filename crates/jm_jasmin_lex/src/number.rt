// The value of a number (Jasmin User Guide, "Numbers and Strings").

ghost use Rattle.std.specs.Prelude.{◌≡◌, pos, neg_ℤ, ◌<◌, ◌≤◌, length, IfSome, slice_index};
ghost use Rattle.jm_jasmin_lex.specs.Integers.{with_digit, numeral, integer_of};

// The largest number of 64 bits in two's complement, and how far the smallest is below 0.
const MOST: u64 = 0x7FFF_FFFF_FFFF_FFFF;

const MOST_NEGATIVE: u64 = 0x8000_0000_0000_0000;

// The number with one more digit, if it is at most so much.
#[tactic(auto, unfolding(crate::specs::Integers::with_digit))]
fn with_digit(value: u64, byte: u8, radix: u8, most: u64) -> Option<u64>
    requires radix_from { 2 ≤ radix }
    requires radix_to { radix ≤ 36 }
    ensures value { result ≡ with_digit radix most value byte }
    ensures bound { IfSome result (λ n. n ≤ most) }
{
    let digit = char::from(byte).to_digit(u32::from(radix))?;
    let number = value
        .checked_mul(u64::from(radix))?
        .checked_add(u64::from(digit))?;
    if number <= most { Some(number) } else { None }
}

// The number of one digit or more, if it is at most so much.
#[tactic(auto, using(crate::proofs::Numbers::numeral_steps))]
fn numeral(digits: &[u8], radix: u8, most: u64) -> Option<u64>
    requires radix_from { 2 ≤ radix }
    requires radix_to { radix ≤ 36 }
    ensures value { result ≡ numeral radix most digits.now }
    ensures bound { IfSome result (λ n. n ≤ most) }
{
    if digits.is_empty() {
        return None;
    }
    let mut value = 0;
    for byte in digits {
        value = with_digit(value, *byte, radix, most)?;
    }
    Some(value)
}

// The byte at an index, or 0 where there is none.
fn byte_at(bytes: &[u8], index: usize) -> u8
    ensures value { result ≡ slice_index bytes.now index }
    ensures inside { 0 < result → index < length bytes.now }
{
    if index < bytes.len() { bytes[index] } else { 0 }
}

// The number so far below 0.
fn below_zero(distance: u64) -> i64
    requires { distance ≤ 0x8000_0000_0000_0000 }
    ensures { result ≡ neg_ℤ (pos distance) }
{
    if distance == MOST_NEGATIVE {
        i64::MIN
    } else {
        -(distance as i64)
    }
}

/// The value of a number in 64 bits of two's complement: decimal digits with `-` before them or
/// not, or `0x` and hexadecimal digits. None for any other text and for a number that does not fit.
#[tactic(auto, unfolding(crate::specs::Integers::integer_of))]
pub fn integer(text: &str) -> Option<i64>
    ensures { result ≡ integer_of text.now }
{
    let bytes = text.as_bytes();
    if byte_at(bytes, 0) == b'0' && byte_at(bytes, 1) == b'x' {
        let (_, digits) = bytes.split_at(2);
        let value = numeral(digits, 16, MOST)?;
        return Some(value as i64);
    }
    if byte_at(bytes, 0) == b'-' {
        let (_, digits) = bytes.split_at(1);
        let distance = numeral(digits, 10, MOST_NEGATIVE)?;
        return Some(below_zero(distance));
    }
    let value = numeral(bytes, 10, MOST)?;
    Some(value as i64)
}

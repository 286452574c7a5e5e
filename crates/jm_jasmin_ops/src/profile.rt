// Words of the Jasmin language that stand for what the profile leaves out (Jasmin User Guide,
// "Tokens", "Directives", "Labels", "The ldc and ldc_w instructions").

ghost use Rattle.std.specs.Prelude.{◌≡◌, ◌==◌, ◌≤◌, length, drop};
ghost use Rattle.std.specs.List.{prefix_len};
ghost use Rattle.jm_jasmin_ops.specs.Profile.{begins_with, is_signed, unsigned, is_digit, digit_count, is_digits, is_exponent, is_fraction, is_real_behind, is_unsigned_real, is_real, is_signed_digits, is_offset, has_colon, begins_name, is_named, directive_named, unknown_word};

use crate::directive::LeftOutDirective;
use crate::fault::{AsmFault, AsmLeftOut};

// ---- the front of a word

fn begins_with(bytes: &[u8], sign: u8) -> bool
    ensures { result ≡ begins_with sign bytes.now }
{
    match bytes.first() {
        None => false,
        Some(byte) => *byte == sign,
    }
}

// The bytes behind the first so many.
fn behind(bytes: &[u8], count: usize) -> &[u8]
    ensures { result.now ≡ drop count bytes.now }
{
    let (_, rest) = bytes.split_at(count.min(bytes.len()));
    rest
}

#[tactic(auto, unfolding(crate::specs::Profile::is_signed))]
fn is_signed(bytes: &[u8]) -> bool
    ensures { result ≡ is_signed bytes.now }
{
    begins_with(bytes, b'+') || begins_with(bytes, b'-')
}

#[tactic(auto, unfolding(crate::specs::Profile::unsigned))]
fn unsigned(bytes: &[u8]) -> &[u8]
    ensures { result.now ≡ unsigned bytes.now }
{
    if is_signed(bytes) {
        behind(bytes, 1)
    } else {
        bytes
    }
}

#[tactic(auto, unfolding(crate::specs::Profile::is_digit))]
fn is_digit(byte: u8) -> bool
    ensures { result ≡ is_digit byte }
{
    b'0' <= byte && byte <= b'9'
}

// How many digits a word begins with.
fn digit_count(bytes: &[u8]) -> usize
    ensures value { result ≡ digit_count bytes.now }
    ensures few { result ≤ length bytes.now }
{
    let mut count = 0;
    for byte in bytes {
        if !is_digit(*byte) {
            return count;
        }
        count += 1;
    }
    count
}

// One digit or more, and nothing else.
#[tactic(auto, unfolding(crate::specs::Profile::is_digits))]
fn is_digits(bytes: &[u8]) -> bool
    ensures { result ≡ is_digits bytes.now }
{
    0 < bytes.len() && digit_count(bytes) == bytes.len()
}

// ---- a number with a fraction or an exponent

// `e` or `E`, then digits, with a sign before them or not.
#[tactic(auto, unfolding(crate::specs::Profile::is_exponent))]
fn is_exponent(bytes: &[u8]) -> bool
    ensures { result ≡ is_exponent bytes.now }
{
    (begins_with(bytes, b'e') || begins_with(bytes, b'E')) && is_digits(unsigned(behind(bytes, 1)))
}

// What follows a point: digits, of which one at least stands before it or behind it, and an
// exponent or nothing.
#[tactic(auto, unfolding(crate::specs::Profile::is_fraction))]
fn is_fraction(has_digits: bool, bytes: &[u8]) -> bool
    ensures { result ≡ is_fraction has_digits bytes.now }
{
    let digits = digit_count(bytes);
    (has_digits || 0 < digits) && (bytes.len() == digits || is_exponent(behind(bytes, digits)))
}

// What follows the digits of the whole part: a fraction, or else an exponent.
#[tactic(auto, unfolding(crate::specs::Profile::is_real_behind))]
fn is_real_behind(has_digits: bool, bytes: &[u8]) -> bool
    ensures { result ≡ is_real_behind has_digits bytes.now }
{
    if begins_with(bytes, b'.') {
        is_fraction(has_digits, behind(bytes, 1))
    } else {
        has_digits && is_exponent(bytes)
    }
}

#[tactic(auto, unfolding(crate::specs::Profile::is_unsigned_real))]
fn is_unsigned_real(bytes: &[u8]) -> bool
    ensures { result ≡ is_unsigned_real bytes.now }
{
    let digits = digit_count(bytes);
    is_real_behind(0 < digits, behind(bytes, digits))
}

/// Whether a word is a number with a fraction or an exponent.
#[tactic(auto, unfolding(crate::specs::Profile::is_real))]
pub fn is_real(word: &str) -> bool
    ensures { result ≡ is_real word.now }
{
    is_unsigned_real(unsigned(word.as_bytes()))
}

// ---- a numeric branch offset

#[tactic(auto, unfolding(crate::specs::Profile::is_signed_digits))]
fn is_signed_digits(bytes: &[u8]) -> bool
    ensures { result ≡ is_signed_digits bytes.now }
{
    is_signed(bytes) && is_digits(behind(bytes, 1))
}

/// Whether a word is a branch offset as a number: a sign and digits, with a `$` before them or not.
#[tactic(auto, unfolding(crate::specs::Profile::is_offset))]
pub fn is_offset(word: &str) -> bool
    ensures { result ≡ is_offset word.now }
{
    let bytes = word.as_bytes();
    if begins_with(bytes, b'$') {
        is_signed_digits(behind(bytes, 1))
    } else {
        is_signed_digits(bytes)
    }
}

// ---- a colon in a label's name

/// Whether a colon stands in a word.
#[tactic(auto, unfolding(crate::specs::Profile::has_colon))]
pub fn has_colon(word: &str) -> bool
    ensures { result ≡ has_colon word.now }
{
    word.as_bytes().iter().any(|byte| *byte == b':')
}

// ---- the name of a class

// A letter, `_`, `$` or a sign that is not of ASCII, as a name begins, or the `[` of an array type.
fn begins_name(byte: u8) -> bool
    ensures { result ≡ begins_name byte }
{
    (b'A' <= byte && byte <= b'[')
        || (b'a' <= byte && byte <= b'z')
        || byte == b'_'
        || byte == b'$'
        || 128 <= byte
}

/// Whether a word begins as the name of a class or an array type does.
pub fn is_named(word: &str) -> bool
    ensures { result ≡ is_named word.now }
{
    match word.as_bytes().first() {
        None => false,
        Some(byte) => begins_name(*byte),
    }
}

// ---- directives

// The directive that a word names, if the profile leaves it out.
fn directive_named(word: &str) -> Option<LeftOutDirective>
    ensures { result ≡ directive_named word.now }
{
    if word == ".annotation" {
        Some(LeftOutDirective::Annotation)
    } else if word == ".attribute" {
        Some(LeftOutDirective::Attribute)
    } else if word == ".debug" {
        Some(LeftOutDirective::Debug)
    } else if word == ".deprecated" {
        Some(LeftOutDirective::Deprecated)
    } else if word == ".enclosing" {
        Some(LeftOutDirective::Enclosing)
    } else if word == ".inner" {
        Some(LeftOutDirective::Inner)
    } else if word == ".set" {
        Some(LeftOutDirective::Set)
    } else if word == ".signature" {
        Some(LeftOutDirective::Signature)
    } else if word == ".stack" {
        Some(LeftOutDirective::Stack)
    } else {
        None
    }
}

/// The fault of a line that begins with a word that no line of its place begins with: 46 for a
/// directive that the profile leaves out, 41 for any other word.
#[tactic(auto, unfolding(crate::specs::Profile::unknown_word))]
pub fn unknown_word(line: usize, word: &str) -> AsmFault
    ensures { result ≡ unknown_word line word.now }
{
    match directive_named(word) {
        None => AsmFault::Syntax(line),
        Some(directive) => AsmFault::LeftOut(AsmLeftOut::Directive(directive), line),
    }
}

// Words and numbers of a line.

ghost use Rattle.std.specs.Prelude.{◌≡◌, ◌≤◌, ◌<◌, ◌∷◌, length, nat_eq, option_map, IfSome};
ghost use Rattle.std.specs.Option.{option_copied};
ghost use Rattle.std.specs.List.{position_or_len};
ghost use Rattle.jm_program.specs.Names.{same_text};
ghost use Rattle.jm_world.specs.Schedules.{number_within};
ghost use Rattle.jm_schedule.specs.Words.{parts_of, parts_after, words_of, words_after, two_words, with_digit};

const BLANK: u8 = b' ';

// Where the first separator stands, or how many bytes there are.
fn separator_at(separator: u8, text: &[u8]) -> usize
    ensures { result ≡ position_or_len (λ b. nat_eq b separator) text.now }
{
    let mut at = 0;
    for byte in text {
        if *byte == separator {
            return at;
        }
        at += 1;
    }
    at
}

/// Whether a word is this text.
pub fn same_text(word: &[u8], text: &[u8]) -> bool
    ensures { result ≡ same_text word.now text.now }
{
    word == text
}

/// The text up to the first separator, and what follows the separator if there is one.
pub fn cut_at(separator: u8, text: &[u8]) -> (&[u8], Option<&[u8]>)
    ensures parts { parts_of separator text.now ≡ result.0.now ∷ parts_after separator (option_copied result.1) }
    ensures shorter { IfSome result.1 (λ rest. length rest.now < length text.now) }
{
    let end = separator_at(separator, text);
    if end < text.len() {
        (&text[..end], Some(&text[end + 1..]))
    } else {
        (text, None)
    }
}

/// The first word of a line, and what follows the blank behind it if there is one.
pub fn first_word(text: &[u8]) -> (&[u8], Option<&[u8]>)
    ensures { words_of text.now ≡ result.0.now ∷ words_after (option_copied result.1) }
{
    cut_at(BLANK, text)
}

/// The two words of a text that has two.
pub fn two_words(text: &[u8]) -> Option<(&[u8], &[u8])>
    ensures { option_map (λ p. (p.0.now, p.1.now)) result ≡ two_words (words_of text.now) }
{
    let (first, after) = first_word(text);
    let (second, more) = first_word(after?);
    match more {
        None => Some((first, second)),
        Some(_) => None,
    }
}

// The number that a digit more makes of a number, if it is at most `high`.
#[tactic(auto, unfolding(crate::specs::Words::with_digit))]
fn with_digit(high: u64, value: u64, byte: u8) -> Option<u64>
    ensures { result ≡ with_digit high value byte }
{
    if !byte.is_ascii_digit() {
        return None;
    }
    let longer = value.checked_mul(10)?.checked_add(u64::from(byte - b'0'))?;
    (longer <= high).then_some(longer)
}

/// The number that decimal digits spell, at least one of them, if it lies from `low` to `high`.
pub fn number_within(low: u64, high: u64, word: &[u8]) -> Option<u64>
    ensures value { result ≡ number_within low high word.now }
    ensures within { IfSome result (λ n. n ≤ high) }
{
    if word.is_empty() {
        return None;
    }
    let mut value = 0;
    for byte in word {
        value = with_digit(high, value, *byte)?;
    }
    (low <= value).then_some(value)
}

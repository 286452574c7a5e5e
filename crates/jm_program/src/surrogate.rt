// The two halves of a supplementary character among code units (JVMS 4.4.7).

ghost use Rattle.std.specs.Prelude.{◌≡◌, IsTrue};
ghost use Rattle.jm_program.specs.Surrogates.{is_high, is_low, character_of};

const HIGH: u16 = 0xD800;

const LOW: u16 = 0xDC00;

const AFTER: u16 = 0xE000;

/// Whether a code unit is the first half of a supplementary character.
pub fn is_high_surrogate(unit: u16) -> bool
    ensures { result ≡ is_high unit }
{
    HIGH <= unit && unit < LOW
}

/// Whether a code unit is the second half of a supplementary character.
pub fn is_low_surrogate(unit: u16) -> bool
    ensures { result ≡ is_low unit }
{
    LOW <= unit && unit < AFTER
}

/// The supplementary character of its two halves.
pub fn supplementary_character(high: u16, low: u16) -> char
    requires high { IsTrue (is_high high) }
    requires low { IsTrue (is_low low) }
    ensures { result ≡ character_of high low }
{
    let above = u32::from(high - HIGH) * 0x400 + u32::from(low - LOW);
    char::from_u32(0x1_0000 + above).unwrap_or('?')
}

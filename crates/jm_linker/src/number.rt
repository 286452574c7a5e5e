// Numbers in 32 bits.

ghost use Rattle.std.specs.Prelude.{◌≡◌, MatchResult};
ghost use Rattle.jm_linker.specs.Answers.{IsOutOfMemory};

use crate::fault::LinkFault;

/// The number in 32 bits. The one error is that it has more: so many things are held by no memory.
pub fn short_number(number: usize) -> Result<u32, LinkFault>
    ensures { MatchResult result (λ short. short ≡ number) (λ fault. IsOutOfMemory fault) }
{
    match u32::try_from(number) {
        Ok(short) => Ok(short),
        Err(_) => Err(LinkFault::OutOfMemory),
    }
}

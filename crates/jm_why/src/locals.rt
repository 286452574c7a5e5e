// The local variable that an instruction takes or sets.

ghost use Rattle.std.specs.Prelude.{◌≡◌};
ghost use Rattle.jm_values.specs.LoadsAndStores.{short_index};
ghost use Rattle.jm_why.specs.Locals.{local_of};

use jm_program::{Instr, Plain, ShortIndex, Simple};

fn short_index(index: ShortIndex) -> u16
    ensures { result ≡ short_index index }
{
    match index {
        ShortIndex::Zero => 0,
        ShortIndex::One => 1,
        ShortIndex::Two => 2,
        ShortIndex::Three => 3,
    }
}

/// The local variable that an instruction takes or sets (JVMS 2.6.1), if it does; of a long the first of its two.
pub fn local_of(instruction: &Instr) -> Option<u16>
    ensures { result ≡ local_of instruction.now }
{
    match instruction {
        Instr::Plain(Plain::Simple(Simple::Load(_, index))) => Some(short_index(*index)),
        Instr::Plain(Plain::Simple(Simple::Store(_, index))) => Some(short_index(*index)),
        Instr::Plain(Plain::Load(_, number)) => Some(*number),
        Instr::Plain(Plain::Store(_, number)) => Some(*number),
        Instr::Plain(Plain::Increment(number, _)) => Some(*number),
        _ => None,
    }
}

// The numbers of instructions by the offsets at which they begin (JVMS 4.7.3, 4.7.12).

ghost use Rattle.std.specs.Prelude.{◌≡◌, length};
ghost use Rattle.jm_bytes.specs.Reading.{TakesAll};
ghost use Rattle.jm_class_format.specs.CodeAttribute.{number_at, end_at};

use jm_class_format::ReadFault;
use jm_opcodes::Starts;
use std::marker::Model;

/// Where the instructions of a code begin, and how many bytes it has.
#[derive(Drop)]
pub struct Places {
    starts: Starts,
    count: u32,
    size: u32,
}

impl Model for Places {
    ghost use Rattle.std.specs.Prelude.{◌≡◌, length};
    ghost use Rattle.jm_class_format.specs.CodeAttribute as format;

    ghost Value = { format.Places };

    ghost view = { λ p. record { starts = p.starts; size = p.size } };

    ghost invariant = { λ p. p.count ≡ length p.starts };
}

impl Places {
    /// The places of instructions that begin there, so many, in a code of so many bytes.
    pub fn new(starts: Starts, count: u32, size: u32) -> Places
        requires { count ≡ length starts }
        ensures { result ≡ (record { starts = starts; size = size }) }
    {
        Places {
            starts,
            count,
            size,
        }
    }

    /// The number of the instruction that begins at an offset.
    #[tactic(auto, unfolding(jm_class_format::specs::CodeAttribute::number_at))]
    pub fn number_at(&self, offset: u16) -> Result<u32, ReadFault>
        ensures { TakesAll (λ n. n) result (number_at self.now.starts offset) }
    {
        match self.starts.number_at(u32::from(offset)) {
            Some(number) => Ok(number),
            None => Err(ReadFault::BadAttribute),
        }
    }

    /// Where a range ends: before the instruction at an offset, or at the code's end.
    #[tactic(auto, unfolding(jm_class_format::specs::CodeAttribute::end_at))]
    pub fn end_at(&self, offset: u16) -> Result<u32, ReadFault>
        ensures { TakesAll (λ n. n) result (end_at self.now offset) }
    {
        if u32::from(offset) == self.size {
            Ok(self.count)
        } else {
            self.number_at(offset)
        }
    }
}

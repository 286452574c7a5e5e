// Numbers and runs of bytes, read from the front of some bytes.

ghost use Rattle.std.specs.Prelude.{◌≡◌, ◌==◌, ℕ, List, length, take, ◌+◌, OnOk, OnErr};
ghost use Rattle.std.specs.Int.{w8, w16, w32, w64};
ghost use Rattle.jm_bytes.specs.Reading.{Finds, FindsAs, number_at, signed_at, bytes_at};

use std::error::Error;
use std::fmt;
use std::marker::Model;

/// The bytes end before the value does.
#[derive(Clone, Copy, Debug, PartialEq, Eq)]
pub struct Cut;

impl fmt::Display for Cut {
    fn fmt<W: fmt::Write>(&self, f: &mut fmt::Formatter<W>) -> fmt::Result {
        f.write_str("the bytes end before the value does")
    }
}

impl Error for Cut {}

/// Reads from the front of some bytes. In a contract it is the list of the bytes that are left.
#[derive(Drop)]
pub struct Reader<'a> {
    rest: &'a [u8],
}

impl<'a> Model for Reader<'a> {
    ghost Value = { List ℕ };

    ghost view = { λ r. r.rest.now };
}

impl<'a> Reader<'a> {
    pub fn new(bytes: &'a [u8]) -> Reader<'a>
        ensures { result ≡ bytes.now }
    {
        Reader { rest: bytes }
    }

    /// How many bytes are left.
    pub fn len(&self) -> usize
        ensures { result ≡ length self.now }
    {
        self.rest.len()
    }

    pub fn is_empty(&self) -> bool
        ensures { result ≡ (length self.now == 0) }
    {
        self.rest.is_empty()
    }

    /// The next `n` bytes.
    ///
    /// # Errors
    /// [`Cut`] where fewer are left; the reader is then unchanged.
    #[tactic(auto, unfolding(crate::specs::Reading::bytes_at))]
    pub fn take(&mut self, n: usize) -> Result<&'a [u8], Cut>
        ensures found { FindsAs (λ x. x.now) result self.new (bytes_at n self.old) }
        ensures len { OnOk result (length self.old ≡ length self.new + n) }
        ensures err { OnErr result (self.new ≡ self.old) }
    {
        if self.rest.len() < n {
            return Err(Cut);
        }
        let (front, rest) = self.rest.split_at(n);
        self.rest = rest;
        Ok(front)
    }

    /// Leaves out the next `n` bytes.
    ///
    /// # Errors
    /// [`Cut`] where fewer are left; the reader is then unchanged.
    #[tactic(auto, unfolding(crate::specs::Reading::bytes_at))]
    pub fn skip(&mut self, n: usize) -> Result<(), Cut>
        ensures found { FindsAs (λ _. take n self.old) result self.new (bytes_at n self.old) }
        ensures len { OnOk result (length self.old ≡ length self.new + n) }
        ensures err { OnErr result (self.new ≡ self.old) }
    {
        self.take(n)?;
        Ok(())
    }

    /// The next byte (JVMS 4, `u1`).
    ///
    /// # Errors
    /// [`Cut`] where none is left; the reader is then unchanged.
    #[tactic(auto, unfolding(crate::specs::Reading::bytes_at, crate::specs::Reading::number_at))]
    pub fn u1(&mut self) -> Result<u8, Cut>
        ensures found { Finds result self.new (number_at w8 self.old) }
        ensures len { OnOk result (length self.old ≡ length self.new + 1) }
        ensures err { OnErr result (self.new ≡ self.old) }
    {
        let b = self.take(1)?;
        Ok(u8::from_be_bytes([b[0]]))
    }

    /// The number of the next two bytes, high byte first (JVMS 4, `u2`).
    ///
    /// # Errors
    /// [`Cut`] where fewer are left; the reader is then unchanged.
    #[tactic(auto, unfolding(crate::specs::Reading::bytes_at, crate::specs::Reading::number_at))]
    pub fn u2(&mut self) -> Result<u16, Cut>
        ensures found { Finds result self.new (number_at w16 self.old) }
        ensures len { OnOk result (length self.old ≡ length self.new + 2) }
        ensures err { OnErr result (self.new ≡ self.old) }
    {
        let b = self.take(2)?;
        Ok(u16::from_be_bytes([b[0], b[1]]))
    }

    /// The number of the next four bytes, high byte first (JVMS 4, `u4`).
    ///
    /// # Errors
    /// [`Cut`] where fewer are left; the reader is then unchanged.
    #[tactic(auto, unfolding(crate::specs::Reading::bytes_at, crate::specs::Reading::number_at))]
    pub fn u4(&mut self) -> Result<u32, Cut>
        ensures found { Finds result self.new (number_at w32 self.old) }
        ensures len { OnOk result (length self.old ≡ length self.new + 4) }
        ensures err { OnErr result (self.new ≡ self.old) }
    {
        let b = self.take(4)?;
        Ok(u32::from_be_bytes([b[0], b[1], b[2], b[3]]))
    }

    /// The number of the next eight bytes, high byte first (as the two halves of JVMS 4.4.5).
    ///
    /// # Errors
    /// [`Cut`] where fewer are left; the reader is then unchanged.
    #[tactic(auto, unfolding(crate::specs::Reading::bytes_at, crate::specs::Reading::number_at))]
    pub fn u8(&mut self) -> Result<u64, Cut>
        ensures found { Finds result self.new (number_at w64 self.old) }
        ensures len { OnOk result (length self.old ≡ length self.new + 8) }
        ensures err { OnErr result (self.new ≡ self.old) }
    {
        let b = self.take(8)?;
        let bytes = [b[0], b[1], b[2], b[3], b[4], b[5], b[6], b[7]];
        Ok(u64::from_be_bytes(bytes))
    }

    /// The next byte in two's complement.
    ///
    /// # Errors
    /// [`Cut`] where none is left; the reader is then unchanged.
    #[tactic(auto, unfolding(crate::specs::Reading::signed_at, crate::specs::Reading::number_at))]
    pub fn s1(&mut self) -> Result<i8, Cut>
        ensures found { Finds result self.new (signed_at w8 self.old) }
        ensures len { OnOk result (length self.old ≡ length self.new + 1) }
        ensures err { OnErr result (self.new ≡ self.old) }
    {
        let n = self.u1()?;
        Ok(n.cast_signed())
    }

    /// The number of the next two bytes in two's complement.
    ///
    /// # Errors
    /// [`Cut`] where fewer are left; the reader is then unchanged.
    #[tactic(auto, unfolding(crate::specs::Reading::signed_at, crate::specs::Reading::number_at))]
    pub fn s2(&mut self) -> Result<i16, Cut>
        ensures found { Finds result self.new (signed_at w16 self.old) }
        ensures len { OnOk result (length self.old ≡ length self.new + 2) }
        ensures err { OnErr result (self.new ≡ self.old) }
    {
        let n = self.u2()?;
        Ok(n.cast_signed())
    }

    /// The number of the next four bytes in two's complement (JVMS 4.4.4).
    ///
    /// # Errors
    /// [`Cut`] where fewer are left; the reader is then unchanged.
    #[tactic(auto, unfolding(crate::specs::Reading::signed_at, crate::specs::Reading::number_at))]
    pub fn s4(&mut self) -> Result<i32, Cut>
        ensures found { Finds result self.new (signed_at w32 self.old) }
        ensures len { OnOk result (length self.old ≡ length self.new + 4) }
        ensures err { OnErr result (self.new ≡ self.old) }
    {
        let n = self.u4()?;
        Ok(n.cast_signed())
    }

    /// The number of the next eight bytes in two's complement (JVMS 4.4.5).
    ///
    /// # Errors
    /// [`Cut`] where fewer are left; the reader is then unchanged.
    #[tactic(auto, unfolding(crate::specs::Reading::signed_at, crate::specs::Reading::number_at))]
    pub fn s8(&mut self) -> Result<i64, Cut>
        ensures found { Finds result self.new (signed_at w64 self.old) }
        ensures len { OnOk result (length self.old ≡ length self.new + 8) }
        ensures err { OnErr result (self.new ≡ self.old) }
    {
        let n = self.u8()?;
        Ok(n.cast_signed())
    }
}

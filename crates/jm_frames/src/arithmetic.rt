// Arithmetic, conversions and lcmp on the operands of a frame (JVMS 2.11.3, 2.11.4).

ghost use Rattle.std.specs.Prelude.{◌+◌, ◌<◌, ◌≡◌, ◌^◌, ◌≤◌, ℤ, Ok, OnErr, Some, drop, slice_get, ◌∷◌};
ghost use Rattle.jm_values.specs.Activation.{units};
ghost use Rattle.jm_values.specs.Arithmetic.{row_arithmetic, row_negate, row_shift, row_bitwise};
ghost use Rattle.jm_values.specs.Comparisons.{row_compare_longs};
ghost use Rattle.jm_values.specs.Conversions.{row_convert};
ghost use Rattle.jm_program.specs.declared.instruction.operation.Integral.TheVariants as Integral;
ghost use Rattle.jm_values.specs.declared.value.Value.TheVariants as value;
ghost use Rattle.jm_frames.specs.FrameView.{FrameView, with_stack, gone_to};
ghost use Rattle.jm_frames.specs.Made.{outcome};
ghost use Rattle.jm_frames.specs.Computed.{computed};
ghost use Rattle.jm_frames.specs.Operands.{int_of, long_of};

use crate::frame::Frame;
use crate::numbers;
use jm_program::{Arithmetic, Bitwise, Conversion, Integral, Shift};
use jm_values::{TagFault, Value};

/// What comes of arithmetic on operands that are there and of its type.
#[derive(Clone, Copy)]
pub enum Computed {
    /// The result is on the stack, in the place of the operands.
    Pushed,
    /// The divisor is 0: the frame stays as it was (JVMS 6.5 idiv).
    ZeroDivisor,
}

impl Frame {
    /// The int that is so many below the top. `Underflow`: there is no operand. `WrongTag`: it is
    /// of another type.
    #[inline(always)]
    pub fn int(&self, depth: usize) -> Result<i32, TagFault>
        ensures value { result ≡ int_of (slice_get self.now.activation.stack depth) }
        ensures room { units self.now.activation.stack ≤ self.now.activation.max_stack }
    {
        match self.operand(depth) {
            Some(Value::Int(number)) => Ok(number),
            Some(_) => Err(TagFault::WrongTag),
            None => Err(TagFault::Underflow),
        }
    }

    /// The long that is so many below the top. `Underflow`: there is no operand. `WrongTag`: it is
    /// of another type.
    #[inline(always)]
    pub fn long(&self, depth: usize) -> Result<i64, TagFault>
        ensures value { result ≡ long_of (slice_get self.now.activation.stack depth) }
        ensures room { units self.now.activation.stack ≤ self.now.activation.max_stack }
    {
        match self.operand(depth) {
            Some(Value::Long(number)) => Ok(number),
            Some(_) => Err(TagFault::WrongTag),
            None => Err(TagFault::Underflow),
        }
    }

    // Puts the result in the place of the operand on top, which is this value, and goes on.
    #[inline(always)]
    fn answer_one(&mut self, operand: &Value, result_value: Value)
        requires at { self.old.activation.at + 1 < 2 ^ 64 }
        requires top { slice_get self.old.activation.stack 0 ≡ Some operand.now }
        requires room { units (result_value ∷ drop 1 self.old.activation.stack) ≤ self.old.activation.max_stack }
        ensures { self.new ≡ gone_to (with_stack self.old (result_value ∷ drop 1 self.old.activation.stack)) (self.old.activation.at + 1) }
    {
        self.drop_value(operand);
        self.put(result_value);
        self.go_on();
    }

    // Puts the result in the place of the two operands on top, and goes on.
    #[inline(always)]
    fn answer_two(&mut self, result_value: Value)
        requires at { self.old.activation.at + 1 < 2 ^ 64 }
        requires room { units (result_value ∷ drop 2 self.old.activation.stack) ≤ self.old.activation.max_stack }
        ensures { self.new ≡ gone_to (with_stack self.old (result_value ∷ drop 2 self.old.activation.stack)) (self.old.activation.at + 1) }
    {
        let _ = self.pop();
        let _ = self.pop();
        self.put(result_value);
        self.go_on();
    }

    // Puts an int in the place of the two ints on top, and goes on.
    #[inline(always)]
    fn answer_ints(&mut self, number: i32)
        requires at { self.old.activation.at + 1 < 2 ^ 64 }
        requires top { (n : ℤ) × (slice_get self.old.activation.stack 0 ≡ Some (value.Int n)) }
        requires below { (n : ℤ) × (slice_get self.old.activation.stack 1 ≡ Some (value.Int n)) }
        ensures { self.new ≡ gone_to (with_stack self.old (value.Int number ∷ drop 2 self.old.activation.stack)) (self.old.activation.at + 1) }
    {
        self.drop_ints();
        self.put(Value::Int(number));
        self.go_on();
    }

    // Puts the result in the place of the two longs on top, and goes on.
    #[inline(always)]
    fn answer_longs(&mut self, result_value: Value)
        requires at { self.old.activation.at + 1 < 2 ^ 64 }
        requires top { (n : ℤ) × (slice_get self.old.activation.stack 0 ≡ Some (value.Long n)) }
        requires below { (n : ℤ) × (slice_get self.old.activation.stack 1 ≡ Some (value.Long n)) }
        requires room { units (result_value ∷ drop 2 self.old.activation.stack) ≤ self.old.activation.max_stack }
        ensures { self.new ≡ gone_to (with_stack self.old (result_value ∷ drop 2 self.old.activation.stack)) (self.old.activation.at + 1) }
    {
        self.drop_longs();
        self.put(result_value);
        self.go_on();
    }

    /// Makes `iadd` to `lrem` (JVMS 6.5), and goes on to the next instruction, unless the divisor
    /// is 0. `Underflow`: there are fewer operands. `WrongTag`: they are of another type.
    #[inline(always)]
    pub fn arithmetic(&mut self, op: Arithmetic, integral: Integral) -> Result<Computed, TagFault>
        requires { self.old.activation.at + 1 < 2 ^ 64 }
        ensures row { row_arithmetic op integral self.old.activation ≡ computed result self.new.activation }
        ensures err { OnErr result (self.new ≡ self.old) }
        ensures zero { result ≡ Ok Computed.ZeroDivisor → self.new ≡ self.old }
        ensures frame { self.new ≡ record self.old { activation = self.new.activation } }
    {
        match integral {
            Integral::Int => self.int_arithmetic(op),
            Integral::Long => self.long_arithmetic(op),
        }
    }

    #[inline(always)]
    fn int_arithmetic(&mut self, op: Arithmetic) -> Result<Computed, TagFault>
        requires { self.old.activation.at + 1 < 2 ^ 64 }
        ensures row { row_arithmetic op Integral.Int self.old.activation ≡ computed result self.new.activation }
        ensures err { OnErr result (self.new ≡ self.old) }
        ensures zero { result ≡ Ok Computed.ZeroDivisor → self.new ≡ self.old }
        ensures frame { self.new ≡ record self.old { activation = self.new.activation } }
    {
        let y = self.int(0)?;
        let x = self.int(1)?;
        let Some(number) = numbers::int_arithmetic(op, x, y) else {
            return Ok(Computed::ZeroDivisor);
        };
        self.answer_ints(number);
        Ok(Computed::Pushed)
    }

    #[inline(always)]
    fn long_arithmetic(&mut self, op: Arithmetic) -> Result<Computed, TagFault>
        requires { self.old.activation.at + 1 < 2 ^ 64 }
        ensures row { row_arithmetic op Integral.Long self.old.activation ≡ computed result self.new.activation }
        ensures err { OnErr result (self.new ≡ self.old) }
        ensures zero { result ≡ Ok Computed.ZeroDivisor → self.new ≡ self.old }
        ensures frame { self.new ≡ record self.old { activation = self.new.activation } }
    {
        let y = self.long(0)?;
        let x = self.long(1)?;
        let Some(number) = numbers::long_arithmetic(op, x, y) else {
            return Ok(Computed::ZeroDivisor);
        };
        self.answer_longs(Value::Long(number));
        Ok(Computed::Pushed)
    }

    /// Makes `ineg` or `lneg` (JVMS 6.5), and goes on to the next instruction. `Underflow`: there
    /// is no operand. `WrongTag`: it is of another type.
    #[inline(always)]
    pub fn negate(&mut self, integral: Integral) -> Result<(), TagFault>
        requires { self.old.activation.at + 1 < 2 ^ 64 }
        ensures row { row_negate integral self.old.activation ≡ outcome result self.new.activation }
        ensures err { OnErr result (self.new ≡ self.old) }
        ensures frame { self.new ≡ record self.old { activation = self.new.activation } }
    {
        match integral {
            Integral::Int => {
                let x = self.int(0)?;
                self.answer_one(&Value::Int(x), Value::Int(x.wrapping_neg()));
            }
            Integral::Long => {
                let x = self.long(0)?;
                self.answer_one(&Value::Long(x), Value::Long(x.wrapping_neg()));
            }
        }
        Ok(())
    }

    /// Makes `ishl` to `lushr` (JVMS 6.5), and goes on to the next instruction. `Underflow`: there
    /// are fewer operands. `WrongTag`: the count is no int, or the number of another type.
    #[inline(always)]
    pub fn shift(&mut self, op: Shift, integral: Integral) -> Result<(), TagFault>
        requires { self.old.activation.at + 1 < 2 ^ 64 }
        ensures row { row_shift op integral self.old.activation ≡ outcome result self.new.activation }
        ensures err { OnErr result (self.new ≡ self.old) }
        ensures frame { self.new ≡ record self.old { activation = self.new.activation } }
    {
        let count = self.int(0)?;
        match integral {
            Integral::Int => {
                let x = self.int(1)?;
                self.answer_ints(numbers::int_shift(op, x, count));
            }
            Integral::Long => {
                let x = self.long(1)?;
                self.answer_two(Value::Long(numbers::long_shift(op, x, count)));
            }
        }
        Ok(())
    }

    /// Makes `iand` to `lxor` (JVMS 6.5), and goes on to the next instruction. `Underflow`: there
    /// are fewer operands. `WrongTag`: they are of another type.
    #[inline(always)]
    pub fn bitwise(&mut self, op: Bitwise, integral: Integral) -> Result<(), TagFault>
        requires { self.old.activation.at + 1 < 2 ^ 64 }
        ensures row { row_bitwise op integral self.old.activation ≡ outcome result self.new.activation }
        ensures err { OnErr result (self.new ≡ self.old) }
        ensures frame { self.new ≡ record self.old { activation = self.new.activation } }
    {
        match integral {
            Integral::Int => {
                let y = self.int(0)?;
                let x = self.int(1)?;
                self.answer_ints(numbers::int_bitwise(op, x, y));
            }
            Integral::Long => {
                let y = self.long(0)?;
                let x = self.long(1)?;
                self.answer_longs(Value::Long(numbers::long_bitwise(op, x, y)));
            }
        }
        Ok(())
    }

    /// Makes `lcmp` (JVMS 6.5), and goes on to the next instruction. `Underflow`: there are fewer
    /// operands. `WrongTag`: they are no longs.
    #[inline(always)]
    pub fn compare_longs(&mut self) -> Result<(), TagFault>
        requires { self.old.activation.at + 1 < 2 ^ 64 }
        ensures row { row_compare_longs self.old.activation ≡ outcome result self.new.activation }
        ensures err { OnErr result (self.new ≡ self.old) }
        ensures frame { self.new ≡ record self.old { activation = self.new.activation } }
    {
        let y = self.long(0)?;
        let x = self.long(1)?;
        self.answer_longs(Value::Int(numbers::order(x, y)));
        Ok(())
    }

    /// Makes a conversion between integers (JVMS 6.5 i2l, l2i, i2b, i2c, i2s), and goes on to the
    /// next instruction. `Underflow`: there is no operand. `WrongTag`: it is of another type.
    /// `Overflow`: `max_stack` has no room for a long.
    #[inline(always)]
    pub fn convert(&mut self, op: Conversion) -> Result<(), TagFault>
        requires { self.old.activation.at + 1 < 2 ^ 64 }
        ensures row { row_convert op self.old.activation ≡ outcome result self.new.activation }
        ensures err { OnErr result (self.new ≡ self.old) }
        ensures frame { self.new ≡ record self.old { activation = self.new.activation } }
    {
        match op {
            Conversion::IntToLong => {
                let x = self.int(0)?;
                if !self.has_room(1) {
                    return Err(TagFault::Overflow);
                }
                self.answer_one(&Value::Int(x), Value::Long(i64::from(x)));
            }
            Conversion::LongToInt => {
                let x = self.long(0)?;
                self.answer_one(&Value::Long(x), Value::Int(numbers::low_int(x)));
            }
            Conversion::IntToByte => {
                let x = self.int(0)?;
                self.answer_one(&Value::Int(x), Value::Int(numbers::to_byte(x)));
            }
            Conversion::IntToChar => {
                let x = self.int(0)?;
                self.answer_one(&Value::Int(x), Value::Int(numbers::to_char(x)));
            }
            Conversion::IntToShort => {
                let x = self.int(0)?;
                self.answer_one(&Value::Int(x), Value::Int(numbers::to_short(x)));
            }
        }
        Ok(())
    }
}

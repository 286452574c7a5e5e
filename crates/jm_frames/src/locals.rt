// Loads, stores and `iinc` (JVMS 2.11.2).

ghost use Rattle.std.specs.Prelude.{◌≡◌, ◌+◌, ◌<◌, ◌^◌, ◌≤◌, OnErr, Ok, nat_le, length, slice_get};
ghost use Rattle.jm_values.specs.Activation.{category, units};
ghost use Rattle.jm_values.specs.LoadsAndStores.{row_load, row_store, row_increment, stored, without_long_before};
ghost use Rattle.jm_values.specs.Steps.{is_of, places};
ghost use Rattle.jm_program.specs.declared.instruction.operation.OperandType.TheVariants as OperandType;
ghost use Rattle.jm_frames.specs.FrameView.{FrameView, with_locals_of};
ghost use Rattle.jm_frames.specs.Made.{outcome};
ghost use Rattle.jm_frames.specs.Operands.{operand_of};

use crate::frame::Frame;
use jm_program::OperandType;
use jm_values::{TagFault, Value};

// Whether a value is of the type that a letter names (JVMS 2.11.1).
#[inline(always)]
pub(crate) fn is_of(operand_type: OperandType, value: &Value) -> bool
    ensures { result ≡ is_of operand_type value.now }
{
    match operand_type {
        OperandType::Int => match *value {
            Value::Int(_) => true,
            _ => false,
        },
        OperandType::Long => match *value {
            Value::Long(_) => true,
            _ => false,
        },
        OperandType::Reference => match *value {
            Value::Ref(_) => true,
            Value::Null => true,
            _ => false,
        },
    }
}

impl Frame {
    /// The operand that is so many below the top. `Underflow`: there is none. `WrongTag`: it is of
    /// another type.
    #[inline(always)]
    pub fn operand_of(&self, operand_type: OperandType, depth: usize) -> Result<Value, TagFault>
        ensures { result ≡ operand_of operand_type (slice_get self.now.activation.stack depth) }
    {
        match self.operand(depth) {
            Some(value) => {
                if is_of(operand_type, &value) {
                    Ok(value)
                } else {
                    Err(TagFault::WrongTag)
                }
            }
            None => Err(TagFault::Underflow),
        }
    }

    // Whether the local variables of a value of the type are there from this one on.
    #[inline(always)]
    fn has_places(&self, operand_type: OperandType, number: u16) -> bool
        ensures { result ≡ nat_le (number + places operand_type) (length self.now.activation.locals) }
    {
        let places = match operand_type {
            OperandType::Long => 2,
            _ => 1,
        };
        usize::from(number) + places <= self.max_locals()
    }

    // The same for a type that the compiler knows, so that its tests are made for that type alone.
    #[inline(always)]
    fn load_of(&mut self, operand_type: OperandType, number: u16) -> Result<(), TagFault>
        requires { self.old.activation.at + 1 < 2 ^ 64 }
        ensures row { row_load operand_type number self.old.activation ≡ outcome result self.new.activation }
        ensures err { OnErr result (self.new ≡ self.old) }
        ensures frame { self.new ≡ record self.old { activation = self.new.activation } }
    {
        if !self.has_places(operand_type, number) {
            return Err(TagFault::BadLocal);
        }
        let Some(Some(value)) = self.local(usize::from(number)) else {
            return Err(TagFault::BadLocal);
        };
        if !is_of(operand_type, &value) {
            return Err(TagFault::WrongTag);
        }
        self.push(value)?;
        self.go_on();
        Ok(())
    }

    // The same for an int, of which only the number is copied.
    #[inline(always)]
    fn load_int(&mut self, number: u16) -> Result<(), TagFault>
        requires { self.old.activation.at + 1 < 2 ^ 64 }
        ensures row { row_load OperandType.Int number self.old.activation ≡ outcome result self.new.activation }
        ensures err { OnErr result (self.new ≡ self.old) }
        ensures frame { self.new ≡ record self.old { activation = self.new.activation } }
    {
        match self.local(usize::from(number)) {
            Some(Some(Value::Int(value))) => {
                self.push(Value::Int(value))?;
                self.go_on();
                Ok(())
            }
            Some(Some(_)) => Err(TagFault::WrongTag),
            _ => Err(TagFault::BadLocal),
        }
    }

    /// Pushes a local variable of the type, and goes on to the next instruction (JVMS 6.5 iload).
    /// `BadLocal`: there is no such local variable, or it is not set. `WrongTag`: it is of another
    /// type. `Overflow`: `max_stack` has no room.
    #[inline(always)]
    pub fn load(&mut self, operand_type: OperandType, number: u16) -> Result<(), TagFault>
        requires { self.old.activation.at + 1 < 2 ^ 64 }
        ensures row { row_load operand_type number self.old.activation ≡ outcome result self.new.activation }
        ensures err { OnErr result (self.new ≡ self.old) }
        ensures frame { self.new ≡ record self.old { activation = self.new.activation } }
    {
        match operand_type {
            OperandType::Int => self.load_int(number),
            OperandType::Long => self.load_of(OperandType::Long, number),
            OperandType::Reference => self.load_of(OperandType::Reference, number),
        }
    }

    /// Adds a constant to a local variable that is an int, and goes on to the next instruction
    /// (JVMS 6.5 iinc). `BadLocal`: there is no such local variable, or it is not set. `WrongTag`:
    /// it is no int.
    #[inline(always)]
    pub fn increment(&mut self, number: u16, constant: i16) -> Result<(), TagFault>
        requires { self.old.activation.at + 1 < 2 ^ 64 }
        ensures row { row_increment number constant self.old.activation ≡ outcome result self.new.activation }
        ensures err { OnErr result (self.new ≡ self.old) }
        ensures frame { self.new ≡ record self.old { activation = self.new.activation } }
    {
        let index = usize::from(number);
        match self.local(index) {
            Some(Some(Value::Int(value))) => {
                let sum = value.wrapping_add(i32::from(constant));
                self.set_local(index, Some(Value::Int(sum)));
                self.go_on();
                Ok(())
            }
            Some(Some(_)) => Err(TagFault::WrongTag),
            _ => Err(TagFault::BadLocal),
        }
    }

    // The same for a type that the compiler knows, so that its tests are made for that type alone.
    #[inline(always)]
    fn store_of(&mut self, operand_type: OperandType, number: u16) -> Result<(), TagFault>
        requires { self.old.activation.at + 1 < 2 ^ 64 }
        ensures row { row_store operand_type number self.old.activation ≡ outcome result self.new.activation }
        ensures err { OnErr result (self.new ≡ self.old) }
        ensures frame { self.new ≡ record self.old { activation = self.new.activation } }
    {
        if !self.has_places(operand_type, number) {
            return Err(TagFault::BadLocal);
        }
        let value = self.operand_of(operand_type, 0)?;
        self.drop_value(&value);
        self.store_value(number, value);
        self.go_on();
        Ok(())
    }

    /// Pops a value of the type into a local variable, and goes on to the next instruction (JVMS
    /// 6.5 istore). A long that the store cuts in two is no longer set (JVMS 2.6.1). `BadLocal`:
    /// there is no such local variable. `Underflow`: there is no operand. `WrongTag`: it is of
    /// another type.
    #[inline(always)]
    pub fn store(&mut self, operand_type: OperandType, number: u16) -> Result<(), TagFault>
        requires { self.old.activation.at + 1 < 2 ^ 64 }
        ensures row { row_store operand_type number self.old.activation ≡ outcome result self.new.activation }
        ensures err { OnErr result (self.new ≡ self.old) }
        ensures frame { self.new ≡ record self.old { activation = self.new.activation } }
    {
        match operand_type {
            OperandType::Int => self.store_of(OperandType::Int, number),
            OperandType::Long => self.store_of(OperandType::Long, number),
            OperandType::Reference => self.store_of(OperandType::Reference, number),
        }
    }

    /// Stores a value in a local variable and, of a long, in the one after it; a long that this
    /// cuts in two is no longer set (JVMS 2.6.1).
    #[inline(always)]
    pub fn store_value(&mut self, number: u16, value: Value)
        requires { number + category value ≤ length self.old.activation.locals }
        ensures { self.new ≡ with_locals_of self.old (stored value number self.old.activation.locals) }
    {
        let number = usize::from(number);
        self.unset_long_before(number);
        if let Value::Long(_) = value {
            self.set_local(number + 1, None);
        }
        self.set_local(number, Some(value));
    }

    // Unsets the long of which this local variable is the second.
    #[inline(always)]
    fn unset_long_before(&mut self, number: usize)
        ensures { self.new ≡ with_locals_of self.old (without_long_before number self.old.activation.locals) }
    {
        if number == 0 {
            return;
        }
        if let Some(Some(Value::Long(_))) = self.local(number - 1) {
            self.set_local(number - 1, None);
        }
    }
}

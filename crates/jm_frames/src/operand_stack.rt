// Operand stack management (JVMS 2.11.6).

ghost use Rattle.std.specs.Prelude.{◌≡◌, ◌+◌, ◌<◌, ◌^◌, ◌≤◌, ◌++◌, Ok, OnErr, OnOk, slice_get, drop, length};
ghost use Rattle.jm_program.specs.declared.instruction.operation.StackOp.TheVariants.{Pop, Pop2, Dup, DupX1, DupX2, Dup2, Dup2X1, Dup2X2, Swap};
ghost use Rattle.jm_values.specs.Activation.{units};
ghost use Rattle.jm_values.specs.OperandStack.{row_stack};
ghost use Rattle.jm_values.specs.Steps.{leave};
ghost use Rattle.jm_frames.specs.FrameView.{FrameView, with_stack, gone_to};
ghost use Rattle.jm_frames.specs.Made.{outcome};
ghost use Rattle.jm_frames.specs.Operands.{single_of, double_of, values_of};

use crate::frame::{Frame, category};
use jm_program::StackOp;
use jm_values::{TagFault, Value};

// Operands that are moved together, the top first. The calls that move them are always inlined, so
// that a group stays in registers: that makes the forms of dup three times as fast.
#[derive(Clone, Copy)]
enum Group {
    One(Value),
    Two(Value, Value),
}

// How many operands there are.
#[inline(always)]
fn count(group: &Group) -> usize
    ensures { result ≡ length (values_of group.now) }
{
    match group {
        Group::One(_) => 1,
        Group::Two(_, _) => 2,
    }
}

// The units that they take.
#[inline(always)]
fn units(group: &Group) -> usize
    ensures { result ≡ units (values_of group.now) }
{
    match group {
        Group::One(top) => category(top),
        Group::Two(top, lower) => category(top) + category(lower),
    }
}

impl Frame {
    // The operand so many below the top, of category 1.
    #[inline(always)]
    fn single(&self, depth: usize) -> Result<Group, TagFault>
        ensures value { result ≡ single_of (slice_get self.now.activation.stack depth) }
        ensures room { units self.now.activation.stack ≤ self.now.activation.max_stack }
    {
        match self.operand(depth) {
            Some(Value::Long(_)) => Err(TagFault::WrongTag),
            Some(value) => Ok(Group::One(value)),
            None => Err(TagFault::Underflow),
        }
    }

    // One operand of category 2 or two of category 1, so many below the top.
    #[inline(always)]
    fn double(&self, depth: usize) -> Result<Group, TagFault>
        requires { depth + 1 < 2 ^ 64 }
        ensures { result ≡ double_of (slice_get self.now.activation.stack depth) (slice_get self.now.activation.stack (depth + 1)) }
    {
        match self.operand(depth) {
            Some(Value::Long(number)) => Ok(Group::One(Value::Long(number))),
            Some(top) => match self.operand(depth + 1) {
                Some(Value::Long(_)) => Err(TagFault::WrongTag),
                Some(lower) => Ok(Group::Two(top, lower)),
                None => Err(TagFault::Underflow),
            },
            None => Err(TagFault::Underflow),
        }
    }

    // Pops a group that is on top.
    #[inline(always)]
    fn remove(&mut self, group: &Group)
        ensures { self.new ≡ with_stack self.old (drop (length (values_of group.now)) self.old.activation.stack) }
    {
        match group {
            Group::One(_) => {
                let _ = self.pop();
            }
            Group::Two(_, _) => {
                let _ = self.pop();
                let _ = self.pop();
            }
        }
    }

    // Pushes a group that there is room for.
    #[inline(always)]
    fn put_group(&mut self, group: Group)
        requires { units (values_of group ++ self.old.activation.stack) ≤ self.old.activation.max_stack }
        ensures { self.new ≡ with_stack self.old (values_of group ++ self.old.activation.stack) }
    {
        match group {
            Group::One(top) => self.put(top),
            Group::Two(top, lower) => {
                self.put(lower);
                self.put(top);
            }
        }
    }

    // Puts a copy of the group on top below the group that follows it.
    #[inline(always)]
    fn duplicate(&mut self, x: Group, y: Group) -> Result<(), TagFault>
        requires at { self.old.activation.at + 1 < 2 ^ 64 }
        requires on_top { self.old.activation.stack ≡ values_of x ++ (values_of y ++ drop (length (values_of x) + length (values_of y)) self.old.activation.stack) }
        ensures row { leave self.old.activation (values_of x ++ (values_of y ++ (values_of x ++ drop (length (values_of x) + length (values_of y)) self.old.activation.stack))) ≡ outcome result self.new.activation }
        ensures err { OnErr result (self.new ≡ self.old) }
        ensures frame { self.new ≡ record self.old { activation = self.new.activation } }
        ensures next { OnOk result (self.new.activation.at ≡ self.old.activation.at + 1) }
    {
        if !self.has_room(units(&x)) {
            return Err(TagFault::Overflow);
        }
        self.remove(&x);
        self.remove(&y);
        self.put_group(x);
        self.put_group(y);
        self.put_group(x);
        self.go_on();
        Ok(())
    }

    // Pushes a copy of the group on top.
    #[inline(always)]
    fn repeat(&mut self, x: Group) -> Result<(), TagFault>
        requires { self.old.activation.at + 1 < 2 ^ 64 }
        ensures row { leave self.old.activation (values_of x ++ self.old.activation.stack) ≡ outcome result self.new.activation }
        ensures err { OnErr result (self.new ≡ self.old) }
        ensures frame { self.new ≡ record self.old { activation = self.new.activation } }
        ensures next { OnOk result (self.new.activation.at ≡ self.old.activation.at + 1) }
    {
        if !self.has_room(units(&x)) {
            return Err(TagFault::Overflow);
        }
        self.put_group(x);
        self.go_on();
        Ok(())
    }

    #[inline]
    fn pop_single(&mut self) -> Result<(), TagFault>
        requires { self.old.activation.at + 1 < 2 ^ 64 }
        ensures row { row_stack Pop self.old.activation ≡ outcome result self.new.activation }
        ensures err { OnErr result (self.new ≡ self.old) }
        ensures frame { self.new ≡ record self.old { activation = self.new.activation } }
        ensures next { OnOk result (self.new.activation.at ≡ self.old.activation.at + 1) }
    {
        match self.operand(0) {
            Some(Value::Long(_)) => Err(TagFault::WrongTag),
            Some(_) => {
                let _ = self.pop();
                self.go_on();
                Ok(())
            }
            None => Err(TagFault::Underflow),
        }
    }

    #[inline]
    fn pop_double(&mut self) -> Result<(), TagFault>
        requires { self.old.activation.at + 1 < 2 ^ 64 }
        ensures row { row_stack Pop2 self.old.activation ≡ outcome result self.new.activation }
        ensures err { OnErr result (self.new ≡ self.old) }
        ensures frame { self.new ≡ record self.old { activation = self.new.activation } }
        ensures next { OnOk result (self.new.activation.at ≡ self.old.activation.at + 1) }
    {
        let top = self.double(0)?;
        self.remove(&top);
        self.go_on();
        Ok(())
    }

    /// Makes `dup` (JVMS 6.5), and goes on to the next instruction. `Underflow`: there is no operand.
    /// `WrongTag`: it is a long. `Overflow`: `max_stack` has no room for the copy.
    #[inline(always)]
    pub fn dup(&mut self) -> Result<(), TagFault>
        requires { self.old.activation.at + 1 < 2 ^ 64 }
        ensures row { row_stack Dup self.old.activation ≡ outcome result self.new.activation }
        ensures err { OnErr result (self.new ≡ self.old) }
        ensures frame { self.new ≡ record self.old { activation = self.new.activation } }
        ensures next { OnOk result (self.new.activation.at ≡ self.old.activation.at + 1) }
    {
        match self.operand(0) {
            Some(Value::Long(_)) => Err(TagFault::WrongTag),
            Some(top) => {
                self.push(top)?;
                self.go_on();
                Ok(())
            }
            None => Err(TagFault::Underflow),
        }
    }

    /// Makes `dup_x1` (JVMS 6.5), and goes on to the next instruction. `Underflow`: there are fewer
    /// than two operands. `WrongTag`: one of them is a long. `Overflow`: `max_stack` has no room for
    /// the copy.
    #[inline(always)]
    pub fn dup_x1(&mut self) -> Result<(), TagFault>
        requires { self.old.activation.at + 1 < 2 ^ 64 }
        ensures row { row_stack DupX1 self.old.activation ≡ outcome result self.new.activation }
        ensures err { OnErr result (self.new ≡ self.old) }
        ensures frame { self.new ≡ record self.old { activation = self.new.activation } }
        ensures next { OnOk result (self.new.activation.at ≡ self.old.activation.at + 1) }
    {
        let top = self.single(0)?;
        let below = self.single(1)?;
        self.duplicate(top, below)
    }

    /// Makes `dup_x2` (JVMS 6.5), and goes on to the next instruction. `Underflow`: there are fewer
    /// operands than the form takes. `WrongTag`: it would part a long. `Overflow`: `max_stack` has no
    /// room for the copy.
    #[inline(always)]
    pub fn dup_x2(&mut self) -> Result<(), TagFault>
        requires { self.old.activation.at + 1 < 2 ^ 64 }
        ensures row { row_stack DupX2 self.old.activation ≡ outcome result self.new.activation }
        ensures err { OnErr result (self.new ≡ self.old) }
        ensures frame { self.new ≡ record self.old { activation = self.new.activation } }
        ensures next { OnOk result (self.new.activation.at ≡ self.old.activation.at + 1) }
    {
        let top = self.single(0)?;
        let below = self.double(count(&top))?;
        self.duplicate(top, below)
    }

    /// Makes `dup2` (JVMS 6.5), and goes on to the next instruction. `Underflow`: there are fewer
    /// operands than the form takes. `WrongTag`: it would part a long. `Overflow`: `max_stack` has no
    /// room for the copies.
    #[inline(always)]
    pub fn dup2(&mut self) -> Result<(), TagFault>
        requires { self.old.activation.at + 1 < 2 ^ 64 }
        ensures row { row_stack Dup2 self.old.activation ≡ outcome result self.new.activation }
        ensures err { OnErr result (self.new ≡ self.old) }
        ensures frame { self.new ≡ record self.old { activation = self.new.activation } }
        ensures next { OnOk result (self.new.activation.at ≡ self.old.activation.at + 1) }
    {
        let top = self.double(0)?;
        self.repeat(top)
    }

    #[inline]
    fn dup2_x1(&mut self) -> Result<(), TagFault>
        requires { self.old.activation.at + 1 < 2 ^ 64 }
        ensures row { row_stack Dup2X1 self.old.activation ≡ outcome result self.new.activation }
        ensures err { OnErr result (self.new ≡ self.old) }
        ensures frame { self.new ≡ record self.old { activation = self.new.activation } }
        ensures next { OnOk result (self.new.activation.at ≡ self.old.activation.at + 1) }
    {
        let top = self.double(0)?;
        let below = self.single(count(&top))?;
        self.duplicate(top, below)
    }

    #[inline]
    fn dup2_x2(&mut self) -> Result<(), TagFault>
        requires { self.old.activation.at + 1 < 2 ^ 64 }
        ensures row { row_stack Dup2X2 self.old.activation ≡ outcome result self.new.activation }
        ensures err { OnErr result (self.new ≡ self.old) }
        ensures frame { self.new ≡ record self.old { activation = self.new.activation } }
        ensures next { OnOk result (self.new.activation.at ≡ self.old.activation.at + 1) }
    {
        let top = self.double(0)?;
        let lower = self.double(count(&top))?;
        self.duplicate(top, lower)
    }

    #[inline]
    fn swap(&mut self) -> Result<(), TagFault>
        requires { self.old.activation.at + 1 < 2 ^ 64 }
        ensures row { row_stack Swap self.old.activation ≡ outcome result self.new.activation }
        ensures err { OnErr result (self.new ≡ self.old) }
        ensures frame { self.new ≡ record self.old { activation = self.new.activation } }
        ensures next { OnOk result (self.new.activation.at ≡ self.old.activation.at + 1) }
    {
        let top = self.single(0)?;
        let below = self.single(1)?;
        self.remove(&top);
        self.remove(&below);
        self.put_group(top);
        self.put_group(below);
        self.go_on();
        Ok(())
    }

    /// Makes `pop`, `pop2`, a form of `dup`, or `swap` (JVMS 6.5), and goes on to the next
    /// instruction. `Underflow`: there are fewer operands than the form takes. `WrongTag`: the form
    /// would part a long. `Overflow`: `max_stack` has no room for the copies.
    #[inline]
    pub fn manage(&mut self, op: StackOp) -> Result<(), TagFault>
        requires { self.old.activation.at + 1 < 2 ^ 64 }
        ensures row { row_stack op self.old.activation ≡ outcome result self.new.activation }
        ensures err { OnErr result (self.new ≡ self.old) }
        ensures frame { self.new ≡ record self.old { activation = self.new.activation } }
        ensures next { OnOk result (self.new.activation.at ≡ self.old.activation.at + 1) }
    {
        match op {
            StackOp::Pop => self.pop_single(),
            StackOp::Pop2 => self.pop_double(),
            StackOp::Dup => self.dup(),
            StackOp::DupX1 => self.dup_x1(),
            StackOp::DupX2 => self.dup_x2(),
            StackOp::Dup2 => self.dup2(),
            StackOp::Dup2X1 => self.dup2_x1(),
            StackOp::Dup2X2 => self.dup2_x2(),
            StackOp::Swap => self.swap(),
        }
    }
}

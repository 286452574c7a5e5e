// The table of the instructions that touch one frame alone.

ghost use Rattle.std.specs.Prelude.{◌+◌, ◌<◌, ◌≡◌, ◌^◌};
ghost use Rattle.jm_values.specs.Constants.{push_constant, small_int, small_long};
ghost use Rattle.jm_values.specs.LoadsAndStores.{short_index};
ghost use Rattle.jm_values.specs.PlainRows.{row_plain, row_simple};
ghost use Rattle.jm_ops.specs.Flows.{flow_outcome, IsWhereTold};
ghost use Rattle.jm_ops.specs.SingleFrame.{IsOfOneFrame, IsOrdered, row_of_one_frame};
ghost use Rattle.jm_frames.specs.FrameView.{FrameView};

use crate::branches::step_branch;
use crate::flow::{Fault, Flow, Thrown};
use crate::switches::{step_lookup_switch, step_table_switch};
use jm_frames::{Computed, Frame, Value};
use jm_program::{Constant, Instr, Plain, ShortIndex, Simple, SmallInt, SmallLong};

#[inline(always)]
fn small_int(constant: SmallInt) -> i32
    ensures { result ≡ small_int constant }
{
    match constant {
        SmallInt::MinusOne => -1,
        SmallInt::Zero => 0,
        SmallInt::One => 1,
        SmallInt::Two => 2,
        SmallInt::Three => 3,
        SmallInt::Four => 4,
        SmallInt::Five => 5,
    }
}

#[inline(always)]
fn small_long(constant: SmallLong) -> i64
    ensures { result ≡ small_long constant }
{
    match constant {
        SmallLong::Zero => 0,
        SmallLong::One => 1,
    }
}

#[inline(always)]
fn short_index(index: ShortIndex) -> u16
    ensures { result ≡ short_index index }
{
    match index {
        ShortIndex::Zero => 0,
        ShortIndex::One => 1,
        ShortIndex::Two => 2,
        ShortIndex::Three => 3,
    }
}

/// Pushes a constant, and goes on to the next instruction (JVMS 6.5 ldc). `Overflow`: `max_stack`
/// has no room for it, and the frame stays as it was.
#[inline(always)]
pub fn push_constant(frame: &mut Frame, value: Value) -> Result<Flow, Fault>
    requires { frame.old.activation.at + 1 < 2 ^ 64 }
    ensures row { push_constant value frame.old.activation ≡ flow_outcome result frame.new.activation }
    ensures told { IsWhereTold result frame.old frame.new }
    ensures frame { frame.new ≡ record frame.old { activation = frame.new.activation } }
{
    frame.push(value)?;
    frame.go_on();
    Ok(Flow::On)
}

// An instruction of one byte.
#[inline(always)]
fn step_simple(frame: &mut Frame, op: Simple) -> Result<Flow, Fault>
    requires { frame.old.activation.at + 1 < 2 ^ 64 }
    ensures row { row_simple op frame.old.activation ≡ flow_outcome result frame.new.activation }
    ensures told { IsWhereTold result frame.old frame.new }
    ensures frame { frame.new ≡ record frame.old { activation = frame.new.activation } }
{
    match op {
        Simple::Nop => frame.go_on(),
        Simple::Null => return push_constant(frame, Value::Null),
        Simple::IntConstant(constant) => return push_constant(
            frame,
            Value::Int(small_int(constant)),
        ),
        Simple::LongConstant(constant) => return push_constant(
            frame,
            Value::Long(small_long(constant)),
        ),
        Simple::Load(operand_type, index) => frame.load(operand_type, short_index(index))?,
        Simple::Store(operand_type, index) => frame.store(operand_type, short_index(index))?,
        Simple::Stack(op) => frame.manage(op)?,
        Simple::Arithmetic(op, integral) => match frame.arithmetic(op, integral)? {
            Computed::Pushed => {}
            Computed::ZeroDivisor => return Ok(Flow::Throw(Thrown::ArithmeticException)),
        },
        Simple::Negate(integral) => frame.negate(integral)?,
        Simple::Shift(op, integral) => frame.shift(op, integral)?,
        Simple::Bitwise(op, integral) => frame.bitwise(op, integral)?,
        Simple::Convert(op) => frame.convert(op)?,
        Simple::CompareLongs => frame.compare_longs()?,
    }
    Ok(Flow::On)
}

/// Makes an instruction that touches one frame alone and names nothing (JVMS 6.5), and answers
/// where the frame goes on. The keys of a `lookupswitch` rise, as they do in each code. `BadLocal`:
/// a local variable is past `max_locals`, or not set. `Underflow`: there are fewer operands.
/// `WrongTag`: a local variable or an operand is of another type, or a long would be parted.
/// `Overflow`: `max_stack` has no room for what is pushed. Of several faults the first comes: the
/// local variable's, then each operand's from the top, then `Overflow`. At a fault and at
/// [`Flow::Throw`] the frame stays as it was.
#[inline(never)]
pub fn step(frame: &mut Frame, op: &Plain) -> Result<Flow, Fault>
    requires at { frame.old.activation.at + 1 < 2 ^ 64 }
    requires ordered { IsOrdered op.now }
    ensures row { row_plain op.now frame.old.activation ≡ flow_outcome result frame.new.activation }
    ensures told { IsWhereTold result frame.old frame.new }
    ensures frame { frame.new ≡ record frame.old { activation = frame.new.activation } }
{
    match op {
        Plain::Simple(op) => step_simple(frame, *op),
        Plain::PushByte(n) => push_constant(frame, Value::Int(i32::from(*n))),
        Plain::PushShort(n) => push_constant(frame, Value::Int(i32::from(*n))),
        Plain::Load(operand_type, number) => {
            frame.load(*operand_type, *number)?;
            Ok(Flow::On)
        }
        Plain::Store(operand_type, number) => {
            frame.store(*operand_type, *number)?;
            Ok(Flow::On)
        }
        Plain::Increment(number, constant) => {
            frame.increment(*number, *constant)?;
            Ok(Flow::On)
        }
        Plain::Branch(op, target) => step_branch(frame, *op, *target),
        Plain::TableSwitch(table) => step_table_switch(frame, table.get()),
        Plain::LookupSwitch(lookup) => step_lookup_switch(frame, lookup.get()),
    }
}

/// Makes an instruction that touches one frame alone (JVMS 6.5): one that names nothing, as
/// [`step`] does and with the same faults, `ldc` of an int or `ldc2_w` of a long. At a fault and at
/// [`Flow::Throw`] the frame stays as it was.
pub fn step_plain(frame: &mut Frame, instruction: &Instr) -> Result<Flow, Fault>
    requires at { frame.old.activation.at + 1 < 2 ^ 64 }
    requires of_one_frame { IsOfOneFrame instruction.now }
    ensures row { row_of_one_frame instruction.now frame.old.activation ≡ flow_outcome result frame.new.activation }
    ensures told { IsWhereTold result frame.old frame.new }
    ensures frame { frame.new ≡ record frame.old { activation = frame.new.activation } }
{
    match instruction {
        Instr::Plain(op) => step(frame, op),
        Instr::Constant(Constant::Int(n)) => push_constant(frame, Value::Int(*n)),
        Instr::Constant(Constant::Long(n)) => push_constant(frame, Value::Long(*n)),
        _ => unreachable!(),
    }
}

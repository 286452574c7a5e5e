// Branches with one target (JVMS 2.11.7).

ghost use Rattle.std.specs.Prelude.{◌+◌, ◌<◌, ◌≡◌, ◌^◌};
ghost use Rattle.jm_program.specs.declared.instruction.operation.Branch.TheVariants.{If, IfInts, IfNull, IfReferences};
ghost use Rattle.jm_values.specs.Branches.{row_branch, branch};
ghost use Rattle.jm_values.specs.Comparisons.{equality_of, is_same};
ghost use Rattle.jm_ops.specs.Flows.{flow_outcome, IsWhereTold};
ghost use Rattle.jm_frames.specs.FrameView.{FrameView};

use crate::flow::{Fault, Flow};
use jm_frames::{Frame, Value, numbers};
use jm_program::{Branch, Comparison, Equality, OperandType};

// Whether two references are the same one, or both null.
#[inline(always)]
fn is_same(x: &Value, y: &Value) -> bool
    ensures { result ≡ is_same x.now y.now }
{
    match *x {
        Value::Ref(p) => match *y {
            Value::Ref(q) => p == q,
            _ => false,
        },
        Value::Null => match *y {
            Value::Null => true,
            _ => false,
        },
        _ => false,
    }
}

// Whether the condition of a branch holds of two references.
#[inline(always)]
fn equality(op: Equality, x: &Value, y: &Value) -> bool
    ensures { result ≡ equality_of op x.now y.now }
{
    match op {
        Equality::Equal => is_same(x, y),
        Equality::NotEqual => !is_same(x, y),
    }
}

// Goes to the target if the condition holds, else on.
#[inline(always)]
fn branch(frame: &mut Frame, target: u32, holds: bool) -> Flow
    requires { frame.old.activation.at + 1 < 2 ^ 64 }
    ensures row { branch frame.old.activation target holds frame.old.activation.stack ≡ flow_outcome (Ok result) frame.new.activation }
    ensures told { IsWhereTold (Ok result) frame.old frame.new }
    ensures frame { frame.new ≡ record frame.old { activation = frame.new.activation } }
{
    if holds {
        frame.go_to(target as usize);
        Flow::To(target)
    } else {
        frame.go_on();
        Flow::On
    }
}

#[inline(always)]
fn branch_if(frame: &mut Frame, op: Comparison, target: u32) -> Result<Flow, Fault>
    requires { frame.old.activation.at + 1 < 2 ^ 64 }
    ensures row { row_branch (If op) target frame.old.activation ≡ flow_outcome result frame.new.activation }
    ensures told { IsWhereTold result frame.old frame.new }
    ensures frame { frame.new ≡ record frame.old { activation = frame.new.activation } }
{
    let x = frame.int(0)?;
    frame.drop_int();
    Ok(branch(frame, target, numbers::compare(op, x, 0)))
}

#[inline(always)]
fn branch_if_ints(frame: &mut Frame, op: Comparison, target: u32) -> Result<Flow, Fault>
    requires { frame.old.activation.at + 1 < 2 ^ 64 }
    ensures row { row_branch (IfInts op) target frame.old.activation ≡ flow_outcome result frame.new.activation }
    ensures told { IsWhereTold result frame.old frame.new }
    ensures frame { frame.new ≡ record frame.old { activation = frame.new.activation } }
{
    let y = frame.int(0)?;
    let x = frame.int(1)?;
    frame.drop_ints();
    Ok(branch(frame, target, numbers::compare(op, x, y)))
}

#[inline(always)]
fn branch_if_references(frame: &mut Frame, op: Equality, target: u32) -> Result<Flow, Fault>
    requires { frame.old.activation.at + 1 < 2 ^ 64 }
    ensures row { row_branch (IfReferences op) target frame.old.activation ≡ flow_outcome result frame.new.activation }
    ensures told { IsWhereTold result frame.old frame.new }
    ensures frame { frame.new ≡ record frame.old { activation = frame.new.activation } }
{
    let y = frame.operand_of(OperandType::Reference, 0)?;
    let x = frame.operand_of(OperandType::Reference, 1)?;
    let _ = frame.pop();
    let _ = frame.pop();
    Ok(branch(frame, target, equality(op, &x, &y)))
}

#[inline(always)]
fn branch_if_null(frame: &mut Frame, op: Equality, target: u32) -> Result<Flow, Fault>
    requires { frame.old.activation.at + 1 < 2 ^ 64 }
    ensures row { row_branch (IfNull op) target frame.old.activation ≡ flow_outcome result frame.new.activation }
    ensures told { IsWhereTold result frame.old frame.new }
    ensures frame { frame.new ≡ record frame.old { activation = frame.new.activation } }
{
    let x = frame.operand_of(OperandType::Reference, 0)?;
    let _ = frame.pop();
    Ok(branch(frame, target, equality(op, &x, &Value::Null)))
}

/// Makes a branch: the frame goes to the target where its condition holds, else on to the next
/// instruction (JVMS 6.5 if, if_icmp, if_acmp, ifnull, goto, goto_w). `Underflow`: there are fewer
/// operands. `WrongTag`: they are of another type.
#[inline(always)]
pub fn step_branch(frame: &mut Frame, op: Branch, target: u32) -> Result<Flow, Fault>
    requires { frame.old.activation.at + 1 < 2 ^ 64 }
    ensures row { row_branch op target frame.old.activation ≡ flow_outcome result frame.new.activation }
    ensures told { IsWhereTold result frame.old frame.new }
    ensures frame { frame.new ≡ record frame.old { activation = frame.new.activation } }
{
    match op {
        Branch::If(op) => branch_if(frame, op, target),
        Branch::IfInts(op) => branch_if_ints(frame, op, target),
        Branch::IfReferences(op) => branch_if_references(frame, op, target),
        Branch::IfNull(op) => branch_if_null(frame, op, target),
        Branch::Goto => Ok(branch(frame, target, true)),
        Branch::GotoW => Ok(branch(frame, target, true)),
    }
}

// tableswitch and lookupswitch (JVMS 2.11.7).

ghost use Rattle.std.specs.Prelude.{◌≡◌, ◌≤ℤ◌, None, true};
ghost use Rattle.std.specs.Int.{int_gap};
ghost use Rattle.jm_program.specs.Instructions.{keys_rise};
ghost use Rattle.jm_values.specs.Switches.{lookup_target, row_lookup_switch, row_table_switch, table_target};
ghost use Rattle.jm_ops.specs.Flows.{flow_outcome, IsWhereTold};
ghost use Rattle.jm_frames.specs.FrameView.{FrameView};

use crate::flow::{Fault, Flow};
use jm_frames::Frame;
use jm_program::{LookupSwitch, TableSwitch};

// How far an int is above another.
#[inline]
fn gap(low: i32, n: i32) -> usize
    requires { low ≤ℤ n }
    ensures { result ≡ int_gap low n }
{
    (i64::from(n) - i64::from(low)) as usize
}

// The target of an int, by its distance from the low end.
#[inline]
fn table_target(table: &TableSwitch, n: i32) -> u32
    ensures { result ≡ table_target table.now n }
{
    if n < table.low {
        return table.default;
    }
    let index = gap(table.low, n);
    table
        .targets
        .as_slice()
        .get(index)
        .copied()
        .unwrap_or(table.default)
}

/// Makes a `tableswitch` (JVMS 6.5). `Underflow`: there is no operand. `WrongTag`: it is no int.
pub(crate) fn step_table_switch(frame: &mut Frame, table: &TableSwitch) -> Result<Flow, Fault>
    ensures row { row_table_switch table.now frame.old.activation ≡ flow_outcome result frame.new.activation }
    ensures told { IsWhereTold result frame.old frame.new }
    ensures frame { frame.new ≡ record frame.old { activation = frame.new.activation } }
{
    let n = frame.int(0)?;
    let target = table_target(table, n);
    let _ = frame.pop();
    frame.go_to(target as usize);
    Ok(Flow::To(target))
}

// The target of an int, by a binary search of its key.
#[inline]
fn lookup_target(lookup: &LookupSwitch, n: i32) -> u32
    requires { keys_rise None lookup.now.pairs ≡ true }
    ensures { result ≡ lookup_target lookup.now n }
{
    let pairs = lookup.pairs.as_slice();
    let mut low = 0;
    let mut high = pairs.len();
    while low < high {
        let middle = low + (high - low) / 2;
        let pair = pairs[middle];
        if pair.key == n {
            return pair.target;
        }
        if pair.key < n {
            low = middle + 1;
        } else {
            high = middle;
        }
    }
    lookup.default
}

/// Makes a `lookupswitch` (JVMS 6.5). `Underflow`: there is no operand. `WrongTag`: it is no int.
pub(crate) fn step_lookup_switch(frame: &mut Frame, lookup: &LookupSwitch) -> Result<Flow, Fault>
    requires { keys_rise None lookup.now.pairs ≡ true }
    ensures row { row_lookup_switch lookup.now frame.old.activation ≡ flow_outcome result frame.new.activation }
    ensures told { IsWhereTold result frame.old frame.new }
    ensures frame { frame.new ≡ record frame.old { activation = frame.new.activation } }
{
    let n = frame.int(0)?;
    let target = lookup_target(lookup, n);
    let _ = frame.pop();
    frame.go_to(target as usize);
    Ok(Flow::To(target))
}

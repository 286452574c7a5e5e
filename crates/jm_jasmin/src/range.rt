// Empty ranges of the exception table (JVMS 4.7.3).

ghost use Rattle.std.specs.Prelude.{◌≡◌};
ghost use Rattle.std.specs.HashMap.{get};
ghost use Rattle.jm_program.specs.Names.{same_text};
ghost use Rattle.jm_jasmin.specs.Body.{empty_between, empty_range_in, empty_range};

use crate::item::Item;
use crate::labels::value_of;
use jm_jasmin_ops::AsmFault;
use jm_program::Name;
use std::collections::HashMap;

// A fault where a range begins at an instruction, of so many, and is empty.
fn empty_between(count: u32, line: usize, start: Option<u32>, end: Option<u32>) -> Option<AsmFault>
    ensures { result ≡ empty_between count line start end }
{
    match (start, end) {
        (Some(start), Some(end)) => {
            if start < end || count <= start {
                None
            } else {
                Some(AsmFault::BadCount(line))
            }
        }
        _ => None,
    }
}

fn empty_range_in(values: &HashMap<Name, u32>, count: u32, item: &Item<'_>) -> Option<AsmFault>
    ensures { result ≡ empty_range_in (get same_text values.now) count item.now }
{
    match item {
        Item::Catch(row) => {
            let start = value_of(values, &row.start);
            let end = value_of(values, &row.end);
            empty_between(count, row.line, start, end)
        }
        _ => None,
    }
}

/// The fault of the first empty range, by the values of the labels and the number of instructions.
#[tactic(auto, using(crate::proofs::Ranges::range_steps))]
pub fn empty_range(values: &HashMap<Name, u32>, count: u32, items: &[Item<'_>]) -> Option<AsmFault>
    ensures { result ≡ empty_range (get same_text values.now) count items.now }
{
    for item in items {
        let fault = empty_range_in(values, count, item);
        if fault.is_some() {
            return fault;
        }
    }
    None
}

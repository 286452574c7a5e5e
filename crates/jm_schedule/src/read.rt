// Schedules from their bytes.

ghost use Rattle.std.specs.Prelude.{◌≤◌, length, IfOk};
ghost use Rattle.jm_schedule.specs.Faults.{Reads};

use crate::fault::ScheduleFault;
use crate::line::{Spelled, read_line};
use crate::schedule::{MAX_EVENTS, Run, Schedule};
use crate::word::cut_at;
use std::alloc::Global;

const LINE_FEED: u8 = b'\n';

/// The events that the lines of a schedule spell, in order. A line is empty, a comment, or an
/// event: a step of a thread, `t 1`, perhaps with how often it is repeated, `t 1 x 9`, or a
/// collection, `minor` or `full`. After an event a seat and the kind of a reply may stand, as in a
/// record, `t 1 @0 done`, and say nothing here. The last line may lack its line feed.
///
/// `BadSchedule` gives the number, from 1, of the first line that is none of these or at which the
/// events pass ten million; `OutOfMemory` that a growth was refused.
pub fn read_schedule(alloc: Global, bytes: &[u8]) -> Result<Schedule, ScheduleFault>
    ensures reads { Reads bytes.now result }
    ensures few { IfOk result (λ s. length s ≤ MAX_EVENTS) }
{
    let mut schedule = Schedule::new(alloc);
    let mut number = 0;
    let mut rest = Some(bytes);
    while let Some(text) = rest {
        let (line, after) = cut_at(LINE_FEED, text);
        number += 1;
        match read_line(line) {
            Spelled::Silent => {}
            Spelled::Strange => return Err(ScheduleFault::BadSchedule(number)),
            Spelled::Spells(line) => {
                if MAX_EVENTS < schedule.len() + u64::from(line.count) {
                    return Err(ScheduleFault::BadSchedule(number));
                }
                schedule.push(Run {
                    event: line.event,
                    count: line.count,
                })?;
            }
        }
        rest = after;
    }
    Ok(schedule)
}

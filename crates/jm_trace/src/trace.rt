// The lines of a run, written as its events are made.

ghost use Rattle.std.specs.Prelude.{◌≡◌, ◌-◌, [], IfOk, OnOk, if◌then◌else◌};
ghost use Rattle.jm_world.specs.RoundRobin.{is_blocked};
ghost use Rattle.jm_world.specs.Run.{after, run_from};
ghost use Rattle.jm_world.specs.World.{World};
ghost use Rattle.jm_machine.specs.View.{MatchesWorld};
ghost use Rattle.jm_page.specs.Writing.{Puts};
ghost use Rattle.jm_trace.specs.EventLines.{event_line};
ghost use Rattle.jm_trace.specs.Traces.{trace};

use crate::event_line::{write_before, write_behind};
use crate::shown::{Shown, is_shown};
use jm_blocked_threads::is_blocked;
use jm_events::EventsDue;
use jm_heap::Heap;
use jm_machine::Machine;
use jm_page::{PageFault, PageWriter};
use jm_world::{Event, Reply};
use std::alloc::{AllocError, Global};

// Makes an event.
fn make<H: Heap>(machine: &mut Machine<H>, event: Event) -> Result<Reply, AllocError>
    ensures { (w : World) → MatchesWorld machine.old w → IfOk result (λ reply. MatchesWorld machine.new (after w event).world × (reply ≡ (after w event).reply)) }
{
    match machine.step(event) {
        Ok(reply) => Ok(reply),
        Err(_) => Err(AllocError),
    }
}

// Makes an event, and gives its line if it is shown.
fn make_told<H: Heap>(
    alloc: Global,
    machine: &mut Machine<H>,
    number: u64,
    event: Event,
    shown: bool,
) -> Result<(Reply, String), AllocError>
    ensures made { (w : World) → MatchesWorld machine.old w → IfOk result (λ r. MatchesWorld machine.new (after w event).world × (r.0 ≡ (after w event).reply)) }
    ensures line { (w : World) → MatchesWorld machine.old w
        → IfOk result (λ r. r.1.bytes.items ≡ (if shown then event_line number w event (after w event).reply.kind else [])) }
{
    let mut line = String::new(alloc);
    if shown {
        write_before(alloc, &mut line, machine, number, event)?;
        let reply = make(machine, event)?;
        write_behind(&mut line, reply.kind)?;
        Ok((reply, line))
    } else {
        let reply = make(machine, event)?;
        Ok((reply, line))
    }
}

// Makes the event that is due, and writes its line if it is shown.
fn put_told<H: Heap, S: EventsDue, P: PageWriter>(
    alloc: Global,
    machine: &mut Machine<H>,
    events: &mut S,
    number: u64,
    event: Event,
    shown: bool,
    page: &mut P,
) -> Result<(), PageFault>
    ensures told { (w : World) → MatchesWorld machine.old w
        → Puts P.wrote P.broke result page.old (if shown then event_line number w event (after w event).reply.kind else []) page.new }
    ensures made { (w : World) → MatchesWorld machine.old w → OnOk result (MatchesWorld machine.new (after w event).world) }
    ensures seen { (w : World) → MatchesWorld machine.old w → OnOk result (events.new ≡ S.seen events.old (is_blocked (after w event).reply.kind)) }
{
    let Ok((reply, line)) = make_told(alloc, machine, number, event, shown) else {
        return Err(PageFault::OutOfMemory);
    };
    events.see(is_blocked(reply.kind));
    match page.put(line.as_str().as_bytes()) {
        Ok(()) => Ok(()),
        Err(_) => Err(PageFault::WriteFailed),
    }
}

// How many events may be shown behind one that is shown or not.
fn left_behind(left: u32, shown: bool) -> u32
    ensures { result ≡ (if shown then left - 1 else left) }
{
    if shown { left.saturating_sub(1) } else { left }
}

/// Makes the events that are due from a machine's world on, and writes the lines of those that are shown, each behind
/// its event. `OutOfMemory`: a growth was refused, or the number of an event would pass 2^64; a beginning of the lines is
/// written then. `WriteFailed`: a write failed; of what is written a beginning of the lines is known. Memory: a line,
/// beside the machine.
pub fn write_trace<H: Heap, S: EventsDue, P: PageWriter>(
    alloc: Global,
    machine: &mut Machine<H>,
    events: &mut S,
    shown: Shown,
    page: &mut P,
) -> Result<(), PageFault>
    ensures written { (w : World) → MatchesWorld machine.old w → S.knows events.old w
        → Puts P.wrote P.broke result page.old (trace shown w (S.due events.old w)) page.new }
    ensures made { (w : World) → MatchesWorld machine.old w → S.knows events.old w → OnOk result (MatchesWorld machine.new (run_from w (S.due events.old w))) }
{
    let mut left = shown.most;
    for number in 1..u64::MAX {
        let Ok(next) = events.next(machine) else {
            return Err(PageFault::OutOfMemory);
        };
        let Some(due) = next else {
            return Ok(());
        };
        let told = is_shown(shown, number, left, due.event);
        put_told(alloc, machine, events, number, due.event, told, page)?;
        left = left_behind(left, told);
    }
    Err(PageFault::OutOfMemory)
}

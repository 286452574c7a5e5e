// The events of a run by one worker, which has its machine for itself.

ghost use Rattle.std.specs.Prelude.{◌≡◌, ◌<◌, [], None, Option, List, MatchResult, OnOk, false, true};
ghost use Rattle.jm_heap.specs.declared.heap.Kind.{Kind};
ghost use Rattle.jm_choice.specs.Choices.{Makes, MakesSome, RunEnds, all_made, cut_short, listed};
ghost use Rattle.jm_machine.specs.View.{MatchesWorld};
ghost use Rattle.jm_shared.specs.Legal.{events_of, world_after};
ghost use Rattle.jm_world.specs.RoundRobin.{is_blocked};
ghost use Rattle.jm_world.specs.declared.event.Event.{Event};
ghost use Rattle.jm_world.specs.declared.event.Event.TheVariants.{Step};
ghost use Rattle.jm_execute.specs.Collecting.{own_seat, with_collections};
ghost use Rattle.jm_execute.specs.Making.{HasMade, HasMadeSome, IsDue, Stands};
ghost use Rattle.jm_execute.specs.KeptRecords.{IsJournal};

use jm_events::{DueEvent, EventsDue};
use jm_heap::{Heap, Kind};
use jm_machine::{Machine, OutOfMemory, collection_of};
use jm_shared::{Journal, Origin, StepsEnd};
use jm_world::{Event, ReplyKind};
use std::alloc::Global;

// From how many steps of a thread in a row on they are made in one call.
const MANY: u32 = 4;

// The seat of the events, where collections are made between them or not.
fn own_seat(stress: Option<Kind>) -> u8
    ensures { result ≡ own_seat stress }
{
    match stress {
        None => 0,
        Some(_) => 1,
    }
}

fn is_blocked(kind: ReplyKind) -> bool
    ensures { result ≡ is_blocked kind }
{
    match kind {
        ReplyKind::Blocked => true,
        _ => false,
    }
}

// Makes the collection before an event or behind the last one, where such are made. `OutOfMemory`: a
// growth was refused, and it was not made.
fn collect<H: Heap, R: Origin>(
    journal: &mut Journal<H, R>,
    stress: Option<Kind>,
) -> Result<(), OutOfMemory>
    ensures { (made : List Event) → HasMade R.first stress false made journal.old
        → MatchResult result (λ _. HasMade R.first stress true made journal.new) (λ _. HasMade R.first stress false made journal.new) }
{
    match stress {
        Some(kind) => {
            journal.turn(0, collection_of(kind))?;
            Ok(())
        }
        None => Ok(()),
    }
}

// Makes the event that is due, and before it the collection, where such are made.
fn make_one<S: EventsDue, H: Heap, R: Origin>(
    journal: &mut Journal<H, R>,
    source: &mut S,
    stress: Option<Kind>,
    due: DueEvent,
) -> Result<(), OutOfMemory>
    ensures { (events : List Event) → IsDue S.due S.knows S.seen S.behind R.first stress events due source.old journal.old
        → MatchResult result (λ _. Stands S.due S.knows R.first stress events source.new journal.new) (λ _. HasMadeSome R.first stress events journal.new) }
{
    collect(journal, stress)?;
    let receipt = journal.turn(own_seat(stress), due.event)?;
    source.see(is_blocked(receipt.reply.kind));
    Ok(())
}

// Makes the steps of a thread that are due, in one call, where no collections are made between them.
fn make_steps<S: EventsDue, H: Heap, R: Origin>(
    journal: &mut Journal<H, R>,
    source: &mut S,
    thread: u64,
    due: DueEvent,
) -> Result<(), OutOfMemory>
    requires step { due.event ≡ Step thread }
    requires some { 0 < due.most }
    ensures { (stress : Option Kind) (events : List Event) → stress ≡ None → IsDue S.due S.knows S.seen S.behind R.first stress events due source.old journal.old
        → MatchResult result (λ _. Stands S.due S.knows R.first stress events source.new journal.new) (λ _. HasMadeSome R.first stress events journal.new) }
{
    let receipts = journal.turns(0, thread, due.most as usize);
    match receipts.steps.end {
        StepsEnd::AllMade => {
            source.see_alike(due.most - 1);
            source.see(false);
            Ok(())
        }
        StepsEnd::Other(reply) => {
            source.see_alike(receipts.steps.alike as u32);
            source.see(is_blocked(reply.kind));
            Ok(())
        }
        StepsEnd::OutOfMemory => Err(OutOfMemory),
    }
}

// Makes the event that is due, or steps that are due in a row in one call.
fn make_due<S: EventsDue, H: Heap, R: Origin>(
    journal: &mut Journal<H, R>,
    source: &mut S,
    stress: Option<Kind>,
    due: DueEvent,
) -> Result<(), OutOfMemory>
    ensures { (events : List Event) → IsDue S.due S.knows S.seen S.behind R.first stress events due source.old journal.old
        → MatchResult result (λ _. Stands S.due S.knows R.first stress events source.new journal.new) (λ _. HasMadeSome R.first stress events journal.new) }
{
    match (due.event, stress) {
        (Event::Step(thread), None) if due.most >= MANY => {
            make_steps(journal, source, thread, due)
        }
        _ => make_one(journal, source, stress, due),
    }
}

// Makes all events of a source, and the collection behind the last one, where such are made.
fn make_events<S: EventsDue, H: Heap, R: Origin>(
    journal: &mut Journal<H, R>,
    source: &mut S,
    stress: Option<Kind>,
) -> Result<(), OutOfMemory>
    requires none { journal.old.entries ≡ [] }
    requires first { MatchesWorld journal.old.machine R.first }
    requires knows { S.knows source.old R.first }
    ensures { let events = S.due source.old R.first in
        MatchResult result (λ _. HasMade R.first stress true events journal.new) (λ _. HasMadeSome R.first stress events journal.new) }
{
    for _ in 1..u64::MAX {
        match source.next(journal.machine())? {
            Some(due) => make_due(journal, source, stress, due)?,
            None => return collect(journal, stress),
        }
    }
    Err(OutOfMemory)
}

/// A journal, and whether a growth was refused before its events were all made.
pub type Made<H, N> = (Journal<H, N>, Result<(), OutOfMemory>);

/// Makes the events that are due by a source from a machine's beginning on, one after the other on this thread, as
/// turns of seat 0, and gives the journal. It waits for nobody and starts no thread, so it returns.
/// Where a kind of collections is given, one is made before each event and one behind the last, as turns
/// of seat 0, and the events are turns of seat 1: the journal has them all in this order, and no other. A
/// collection changes nothing of a world, so the journal leads to the world of the events.
/// `OutOfMemory`: a growth was refused, or the numbers of turns came to their end, and the journal has the
/// events that were made, with those collections.
pub fn make_journal<S: EventsDue, H: Heap + Drop, R: Origin>(
    alloc: Global,
    machine: Machine<H>,
    source: &mut S,
    stress: Option<Kind>,
) -> Made<H, R>
    requires first { MatchesWorld machine R.first }
    requires knows { S.knows source.old R.first }
    ensures events { let choice = listed (with_collections stress (S.due source.old R.first)) in
        MatchResult result.1 (λ _. Makes R.first choice (events_of result.0.entries)) (λ _. MakesSome R.first choice (events_of result.0.entries)) }
    ensures ends { let choice = listed (S.due source.old R.first) in let w = world_after R.first result.0.entries in
        MatchResult result.1 (λ _. RunEnds R.first choice (all_made w)) (λ _. RunEnds R.first choice (cut_short w)) }
    ensures journal { OnOk result.1 (IsJournal stress R.first (listed (S.due source.old R.first)) result.0.entries) }
{
    let mut journal = Journal::new(alloc, machine);
    let made = make_events(&mut journal, source, stress);
    let _legal = journal.entry(0);
    (journal, made)
}

// The journal.

ghost use Rattle.std.specs.Prelude.{◌≡◌, ◌+◌, ◌<◌, ◌≤◌, ◌^◌, ◌++◌, ◌∷◌, [], length, map, slice_get, take, IsTrue, IfErr, IfOk, Ok};
ghost use Rattle.std.specs.Prelude.{OnErr, OnOk, MatchResult};
ghost use Rattle.std.specs.List.{All};
ghost use Rattle.jm_world.specs.World.{World};
ghost use Rattle.jm_world.specs.Run.{after, reply, run_from};
ghost use Rattle.jm_world.specs.declared.reply.ReplyKind.TheVariants.{Done};
ghost use Rattle.jm_world.specs.Schedules.{record_entries};
ghost use Rattle.jm_heap.specs.Allocation.{NewLie};
ghost use Rattle.jm_machine.specs.Collected.{Collects};
ghost use Rattle.jm_machine.specs.ManySteps.{AreSteps, EndsBy};
ghost use Rattle.jm_machine.specs.View.{MatchesWorld};
ghost use Rattle.jm_shared.specs.Book.{IsRunFrom};
ghost use Rattle.jm_shared.specs.ManyTurns.{entries_of_turns};
ghost use Rattle.jm_shared.specs.Legal.{IsLegal, world_after, entry_of, events_of, receipt_of, reply_of};
ghost use Rattle.jm_shared.specs.Records.{numbered, record_text};

use crate::entry::{Entry, Receipt, Receipts};
use crate::origin::Origin;
use crate::pages::Pages;
use crate::record::RecordText;
use crate::stretch::{Stretch, add, add_turns, entry_at, events_in};
use jm_heap::Heap;
use jm_machine::{Interrupted, Machine, OutOfMemory, Steps, StepsEnd};
use jm_world::{Event, Reply, ReplyKind};
use std::alloc::{AllocError, Global};
use std::marker::{Model, PhantomData};

/// A machine and the journal of its events. The journal is legal from its origin, and the machine
/// matches the world to which it leads.
///
/// Equal entries in a row are kept once: a schedule that makes one thread's steps takes next to no
/// memory, and no journal takes more than 40 bytes an entry. What is kept lies in pages of 1,024, and
/// does not move any more; a page is taken before the event that needs it.
pub struct Journal<H: Heap, R: Origin> {
    machine: Machine<H>,
    // those before the last
    stretches: Pages,
    last: Stretch,
    origin: PhantomData<R>,
}

// Written out, so that whoever lets go of one makes a call (docs/DECISIONS.md).
impl<H: Heap + Drop, R: Origin> Drop for Journal<H, R> {
    fn drop(self) {
        let Journal {
            machine: _,
            stretches: _,
            last: _,
            origin: _,
        } = self;
    }
}

impl<H: Heap, R: Origin> Model for Journal<H, R> {
    ghost use Rattle.jm_shared.specs.Book.{Book, book, IsRunFrom};
    ghost use Rattle.jm_shared.specs.Stretches.{Rises, entries_of};

    ghost Value = { Book H };

    ghost view = { λ j. book j.machine (entries_of j.stretches.items j.last) };

    ghost invariant = { λ j. Rises j.stretches.items j.last × IsRunFrom R.first (book j.machine (entries_of j.stretches.items j.last)) };
}

// Makes room for two stretches more, where so many turns more have numbers.
fn make_room(stretches: &mut Pages, number: usize, most: usize) -> bool
    ensures items { stretches.new.items ≡ stretches.old.items }
    ensures room { IsTrue result → 2 ≤ stretches.new.room }
    ensures numbers { IsTrue result → number + most < 2 ^ 64 }
{
    number.checked_add(most).is_some() && stretches.make_room().is_ok()
}

// No steps of a thread, since a growth was refused.
fn no_steps<H: Heap>(machine: &Machine<H>) -> Steps
    ensures none { (result.alike ≡ 0) × (result.end ≡ StepsEnd.OutOfMemory) }
    ensures reply { (w : World) → MatchesWorld machine.now w → result.reply ≡ reply Done w }
{
    let reply = Reply {
        kind: ReplyKind::Done,
        made: machine.threads() as u64,
        live: machine.live() as u64,
    };
    Steps {
        alike: 0,
        reply,
        end: StepsEnd::OutOfMemory,
    }
}

impl<H: Heap, R: Origin> Journal<H, R> {
    /// The journal of a machine, without entries.
    pub fn new(alloc: Global, machine: Machine<H>) -> Journal<H, R>
        requires { MatchesWorld machine R.first }
        ensures { (result.machine ≡ machine) × (result.entries ≡ []) }
    {
        Journal {
            machine,
            stretches: Pages::new(alloc),
            last: Stretch::empty(),
            origin: PhantomData,
        }
    }

    /// Makes one event for a seat, in the nursery of the seat's number, and adds one entry. The
    /// time of a turn does not grow with the journal, but where the list of its pages grows.
    /// A collection on request makes of the heap what the heap says of its kind, and what is new lies
    /// in that nursery.
    /// `OutOfMemory`: there is no new entry, and the machine is that of the world before. It comes
    /// after 2^64 - 1 turns too, since no number is left.
    #[inline(always)]
    pub fn turn(&mut self, seat: u8, event: Event) -> Result<Receipt, OutOfMemory>
        ensures receipt { IfOk result (λ receipt. receipt ≡ receipt_of (length self.old.entries) (entry_of seat event receipt.reply)) }
        ensures entries { MatchResult result (λ receipt. self.new.entries ≡ self.old.entries ++ entry_of seat event receipt.reply ∷ []) (λ _. self.new.entries ≡ self.old.entries) }
        ensures machine { (w : World) → MatchesWorld self.old.machine w → MatchResult result (λ receipt. MatchesWorld self.new.machine (after w event).world × (receipt.reply ≡ (after w event).reply)) (λ _. MatchesWorld self.new.machine w) }
        ensures collects { OnOk result (Collects H.leaves event self.old.machine self.new.machine) }
        ensures nursery { NewLie (λ p. H.nursery_of p seat) self.old.machine.content self.new.machine.content }
    {
        let number = self.last.end;
        let Some(end) = number.checked_add(1) else {
            return Err(OutOfMemory);
        };
        self.stretches.make_room()?;
        let reply = self.machine.step_at(usize::from(seat), event)?;
        let entry = Entry {
            event,
            made: reply.made,
            live: reply.live,
            kind: reply.kind,
            seat,
        };
        add(
            &mut self.stretches,
            &mut self.last,
            Stretch::of(entry, end),
            1,
        );
        Ok(Receipt {
            seat,
            number,
            event,
            reply,
        })
    }

    /// Makes steps of one thread for a seat, one after the other, at most so many, each in a turn
    /// of its own: each adds one entry. They end before that only by a step that answers otherwise
    /// than done, or makes or ends a thread, which is made, or by 61: where a growth was refused,
    /// or where fewer numbers of turns are left than were asked for. The machine is then where the
    /// steps that were made lead.
    pub fn turns(&mut self, seat: u8, thread: u64, most: usize) -> Receipts
        requires { 0 < most }
        ensures receipts { (result.seat ≡ seat) × (result.number ≡ length self.old.entries) × (result.thread ≡ thread) }
        ensures ends { EndsBy most result.steps }
        ensures entries { self.new.entries ≡ self.old.entries ++ entries_of_turns result }
        ensures machine { (w : World) → MatchesWorld self.old.machine w → AreSteps w thread self.new.machine result.steps }
        ensures legal { IsLegal R.first self.old.entries }
        ensures reply { result.steps.reply ≡ reply Done (world_after R.first self.old.entries) }
    {
        let number = self.last.end;
        if !make_room(&mut self.stretches, number, most) {
            return Receipts {
                seat,
                number,
                thread,
                steps: no_steps(&self.machine),
            };
        }
        let steps = self.machine.step_many(usize::from(seat), thread, most);
        let receipts = Receipts {
            seat,
            number,
            thread,
            steps,
        };
        add_turns(&mut self.stretches, &mut self.last, receipts);
        receipts
    }

    /// The machine, which matches the world to which the journal's events lead.
    pub fn machine(&self) -> &Machine<H>
        ensures machine { result.now ≡ self.now.machine }
        ensures matched { MatchesWorld self.now.machine (world_after R.first self.now.entries) }
    {
        &self.machine
    }

    /// The entry of a number, from 0; None past the last. It takes a search by halves.
    pub fn entry(&self, number: usize) -> Option<Entry>
        ensures entry { result ≡ slice_get self.now.entries number }
        ensures legal { IsLegal R.first self.now.entries }
    {
        entry_at(&self.stretches, &self.last, number)
    }

    /// The events of the entries, in order. `AllocError`: a growth was refused.
    pub fn events(&self, alloc: Global) -> Result<Vec<Event>, AllocError>
        ensures { IfOk result (λ events. events.items ≡ events_of self.now.entries) }
    {
        events_in(alloc, &self.stretches, &self.last)
    }

    /// The journal as a record: for each entry, in order, a line `t N @S KIND`, `minor @S KIND` or
    /// `full @S KIND`, where N is the number of the thread, S that of the seat and KIND the kind of
    /// the reply. Where each seat is one of 16 and the entries are 160,000,000 at most, the record
    /// reads back as exactly these. `AllocError`: a growth was refused.
    pub fn record(&self, alloc: Global) -> Result<Vec<u8>, AllocError>
        ensures lines { IfOk result (λ text. text.items ≡ record_text self.now.entries) }
        ensures reads_back { IfOk result (λ text. All (λ e. e.seat ≤ 15) self.now.entries → length self.now.entries ≤ 160000000 → record_entries text.items ≡ Ok (numbered 1 self.now.entries)) }
    {
        let mut text = RecordText::new(alloc);
        self.stretches.add_lines(&mut text)?;
        text.add(&self.last)?;
        Ok(text.bytes)
    }

    /// Runs the journal's events again, on this thread, by a machine of any heap in the world in
    /// which the journal begins: the replies are the entries', and then the machine matches the
    /// world that the journal's own does, so the two have printed the same. `Interrupted`: a growth
    /// was refused; the machine is where the events that were made lead.
    pub fn run_again<G: Heap>(
        &self,
        alloc: Global,
        machine: &mut Machine<G>,
    ) -> Result<Vec<Reply>, Interrupted>
        ensures replies { MatchesWorld machine.old R.first → IfOk result (λ replies. replies.items ≡ map reply_of self.now.entries) }
        ensures world { MatchesWorld machine.old R.first → OnOk result (IsRunFrom R.first self.now × MatchesWorld machine.new (world_after R.first self.now.entries)) }
        ensures output { MatchesWorld machine.old R.first → OnOk result (machine.new.state.output ≡ self.now.machine.state.output) }
        ensures interrupted { MatchesWorld machine.old R.first → IfErr result (λ fault. MatchesWorld machine.new (run_from R.first (take fault.made (events_of self.now.entries)))) }
    {
        self.shows();
        let Ok(events) = self.events(alloc) else {
            return Err(Interrupted { made: 0 });
        };
        machine.run(&events)
    }

    /// What holds of every journal, for contracts alone.
    pub(crate) fn shows(&self)
        ensures { IsRunFrom R.first self.now }
    {
        let _kept = &self.machine;
    }

    /// The machine, without its journal.
    pub fn into_machine(self) -> Machine<H>
        ensures machine { result ≡ self.machine }
        ensures matched { MatchesWorld self.machine (world_after R.first self.entries) }
    {
        let Journal {
            machine,
            stretches: _,
            last: _,
            origin: _,
        } = self;
        machine
    }
}

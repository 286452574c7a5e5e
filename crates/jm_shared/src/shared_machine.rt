// The machine that workers share.

ghost use Rattle.std.specs.Prelude.{◌≡◌, ◌<◌, ◌++◌, ◌∷◌, [], length, IfErr, IfOk, MatchResult, OnErr, OnOk};
ghost use Rattle.std.specs.List.{All};
ghost use Rattle.jm_machine.specs.View.{MatchesWorld};
ghost use Rattle.jm_machine.specs.ManySteps.{EndsBy};
ghost use Rattle.jm_shared.specs.Book.{IsRunFrom};
ghost use Rattle.jm_shared.specs.ManyTurns.{Behind, entries_of_turns, receipts_of_turns};
ghost use Rattle.jm_shared.specs.Legal.{entry_of, receipt_of};
ghost use Rattle.jm_shared.specs.Seats.{AreAll, LacksOne, fresh_hands, hand, of_seat};

use crate::entry::{Receipt, Receipts};
use crate::journal::Journal;
use crate::keeper::{Keeper, SeatTable, SeatTies, deal_seats};
use crate::rule::{note_of, once};
use crate::seat::Seat;
use crate::sharing::Sharing;
use jm_heap::Heap;
use jm_machine::{Machine, OutOfMemory};
use jm_world::Event;
use std::alloc::Global;
use std::marker::Model;
use std::sync::{Mutex, Wait};

/// What lies under the lock: the journal, and the keeper, which knows it.
#[derive(Drop)]
struct LockedJournal<H: Heap, S: Sharing> {
    journal: Journal<H, S>,
    keeper: Keeper<S>,
}

impl<H: Heap, S: Sharing> Model for LockedJournal<H, S> {
    ghost use Rattle.std.specs.Prelude.{◌≡◌, ◌<◌};
    ghost use Rattle.std.specs.List.{All};
    ghost use Rattle.jm_shared.specs.Book.{Book};

    ghost Value = { Book H };

    ghost view = { λ l. l.journal };

    ghost invariant = { λ l. (l.keeper ≡ l.journal.entries) × All (λ e. e.seat < S.seats) l.journal.entries };
}

impl<H: Heap, S: Sharing> LockedJournal<H, S> {
    // Makes one event for a seat, and notes it.
    fn turn(
        &mut self,
        ties: &SeatTies<S>,
        seat: &mut Seat<S>,
        event: Event,
    ) -> Result<Receipt, OutOfMemory>
        ensures entries { IfOk result (λ receipt. self.new.entries ≡ self.old.entries ++ entry_of seat.old.number event receipt.reply ∷ []) }
        ensures err { OnErr result (self.new.entries ≡ self.old.entries) }
        ensures receipt { IfOk result (λ receipt. receipt ≡ receipt_of (length self.old.entries) (entry_of seat.old.number event receipt.reply)) }
        ensures above { IfOk result (λ receipt. All (λ earlier. earlier.number < receipt.number) seat.old.receipts) }
        ensures seat { MatchResult result (λ receipt. seat.new ≡ hand seat.old.number (seat.old.receipts ++ receipt ∷ [])) (λ _. seat.new ≡ seat.old) }
    {
        let receipt = self.journal.turn(seat.number(), event)?;
        ties.note(&mut self.keeper, seat, &once(receipt.entry()));
        Ok(receipt)
    }

    // Makes steps of one thread for a seat, and notes them.
    fn turns(
        &mut self,
        ties: &SeatTies<S>,
        seat: &mut Seat<S>,
        thread: u64,
        most: usize,
    ) -> Receipts
        requires { 0 < most }
        ensures receipts { (result.seat ≡ seat.old.number) × (result.number ≡ length self.old.entries) × (result.thread ≡ thread) }
        ensures ends { EndsBy most result.steps }
        ensures entries { self.new.entries ≡ self.old.entries ++ entries_of_turns result }
        ensures above { All (λ earlier. earlier.number < result.number) seat.old.receipts }
        ensures behind { Behind S.first S.seats seat.old result }
        ensures seat { seat.new ≡ hand seat.old.number (seat.old.receipts ++ receipts_of_turns result) }
    {
        let receipts = self.journal.turns(seat.number(), thread, most);
        ties.note(&mut self.keeper, seat, &note_of(receipts));
        receipts
    }
}

/// A machine that workers share, one event at a time: a journal with its machine under one lock.
/// Whenever the lock is free the journal is legal from the sharing's first world, and the machine
/// matches the world to which the journal's events lead.
pub struct SharedMachine<H: Heap, S: Sharing> {
    ties: SeatTies<S>,
    lock: Mutex<LockedJournal<H, S>>,
    seats: u8,
    ghost many: { seats ≡ S.seats },
}

// Written out, so that whoever lets go of one makes a call (docs/DECISIONS.md).
impl<H: Heap + Drop, S: Sharing> Drop for SharedMachine<H, S> {
    fn drop(self) {
        let SharedMachine {
            ties: _,
            lock: _,
            seats: _,
        } = self;
    }
}

/// 65 SeatsMissing: not every seat was given back. The machine and the seats may be used on.
#[derive(Drop)]
pub struct SeatsMissing<H: Heap, S: Sharing> {
    pub machine: SharedMachine<H, S>,
    pub seats: Vec<Seat<S>>,
}

impl<H: Heap + Drop, S: Sharing> SharedMachine<H, S> {
    /// A machine to be shared by the seats of a table, with no events yet, and its seats, in order,
    /// each without receipts. `OutOfMemory`: a growth was refused, and what it took is dropped.
    pub fn new(
        alloc: Global,
        machine: Machine<H>,
        table: SeatTable,
    ) -> Result<(SharedMachine<H, S>, Vec<Seat<S>>), OutOfMemory>
        requires table { (table.table ≡ S.table) × (table.seats ≡ S.seats) }
        requires first { MatchesWorld machine S.first }
        ensures { IfOk result (λ shared. shared.1.items ≡ fresh_hands 0 S.seats) }
    {
        let count = table.seats();
        let Ok((ties, keeper, seats)) = deal_seats(alloc, table) else {
            drop(machine);
            return Err(OutOfMemory);
        };
        let journal = Journal::new(alloc, machine);
        let machine = SharedMachine {
            ties,
            lock: Mutex::new(LockedJournal { journal, keeper }),
            seats: count,
        };
        Ok((machine, seats))
    }
}

impl<H: Heap, S: Sharing> SharedMachine<H, S> {
    /// How many seats it is shared by.
    pub fn seats(&self) -> u8
        ensures { result ≡ S.seats }
    {
        self.seats
    }

    /// Makes one event for a seat, in the nursery of the seat's number, and adds one entry to the
    /// journal and its receipt to the seat's. It may wait for other turns. `OutOfMemory`: the
    /// event was not made and may be tried again, and the seat is as it was.
    pub fn turn<R: Wait>(
        &self,
        rt: &R,
        seat: &mut Seat<S>,
        event: Event,
    ) -> Result<Receipt, OutOfMemory>
        ensures receipt { IfOk result (λ receipt. (receipt.seat ≡ seat.old.number) × (receipt.event ≡ event)) }
        ensures above { IfOk result (λ receipt. All (λ earlier. earlier.number < receipt.number) seat.old.receipts) }
        ensures seat { MatchResult result (λ receipt. seat.new ≡ hand seat.old.number (seat.old.receipts ++ receipt ∷ [])) (λ _. seat.new ≡ seat.old) }
    {
        self.lock.lock(rt).turn(&self.ties, seat, event)
    }

    /// Makes steps of one thread for a seat, one after the other, at most so many, in one hold of
    /// the lock: each in a turn of its own, as [`SharedMachine::turn`] does it. They end before that
    /// only by a step that answers otherwise than done, or makes or ends a thread, which is made, or
    /// by 61: where a growth was refused, or where fewer numbers of turns are left than were asked
    /// for. It may wait for other turns.
    pub fn turns<R: Wait>(&self, rt: &R, seat: &mut Seat<S>, thread: u64, most: usize) -> Receipts
        requires { 0 < most }
        ensures receipts { (result.seat ≡ seat.old.number) × (result.thread ≡ thread) }
        ensures ends { EndsBy most result.steps }
        ensures above { All (λ earlier. earlier.number < result.number) seat.old.receipts }
        ensures behind { Behind S.first S.seats seat.old result }
        ensures seat { seat.new ≡ hand seat.old.number (seat.old.receipts ++ receipts_of_turns result) }
    {
        self.lock.lock(rt).turns(&self.ties, seat, thread, most)
    }

    /// The machine with its journal, once every seat is given back: then the receipts of each seat
    /// are those of its entries, and every entry is a seat's. `SeatsMissing`: exactly where a seat
    /// is not given back.
    pub fn finish(self, seats: Vec<Seat<S>>) -> Result<Journal<H, S>, SeatsMissing<H, S>>
        ensures lists { IfOk result (λ journal. All (λ seat. seat.receipts ≡ of_seat seat.number 0 journal.entries) seats.items) }
        ensures all { OnOk result (AreAll S.seats seats.items) }
        ensures known { IfOk result (λ journal. All (λ entry. entry.seat < S.seats) journal.entries) }
        ensures legal { IfOk result (IsRunFrom S.first) }
        ensures missing { IfErr result (λ fault. LacksOne S.seats seats.items × (fault.machine ≡ self) × (fault.seats.items ≡ seats.items)) }
        ensures few { OnErr result (length seats.items < S.seats) }
    {
        if seats.len() < usize::from(self.seats) {
            return Err(SeatsMissing {
                machine: self,
                seats,
            });
        }
        let SharedMachine {
            ties,
            lock,
            seats: _,
        } = self;
        let LockedJournal { journal, keeper } = lock.into_inner();
        ties.compare(keeper, seats);
        journal.shows();
        Ok(journal)
    }
}

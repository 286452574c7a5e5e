// What a journal tells of a turn, and what the turn answers.

ghost use Rattle.std.specs.Prelude.{◌≡◌};
ghost use Rattle.jm_world.specs.declared.event.Event.TheVariants.{Step};
ghost use Rattle.jm_shared.specs.Legal.{entry_of, reply_of};

use jm_machine::Steps;
use jm_world::{Event, Reply, ReplyKind};

/// What a journal tells of a turn.
#[derive(Clone, Copy)]
pub struct Entry {
    pub event: Event,
    /// How many Java threads were ever made.
    pub made: u64,
    /// How many of them have not ended.
    pub live: u64,
    pub kind: ReplyKind,
    /// The number of the seat.
    pub seat: u8,
}

impl Entry {
    /// The answer to the event.
    pub fn reply(self) -> Reply
        ensures { result ≡ reply_of self }
    {
        Reply {
            kind: self.kind,
            made: self.made,
            live: self.live,
        }
    }
}

/// What a turn answers to its seat.
#[derive(Clone, Copy)]
pub struct Receipt {
    /// The number of the seat.
    pub seat: u8,
    /// The number of the turn's entry in the journal, from 0.
    pub number: usize,
    pub event: Event,
    pub reply: Reply,
}

impl Receipt {
    /// The journal's entry of the turn.
    pub fn entry(self) -> Entry
        ensures { result ≡ entry_of self.seat self.event self.reply }
    {
        Entry {
            event: self.event,
            made: self.reply.made,
            live: self.reply.live,
            kind: self.reply.kind,
            seat: self.seat,
        }
    }
}

/// What steps of one thread answer to the seat that made them, one turn after the other: the
/// receipts of all of them.
#[derive(Clone, Copy)]
pub struct Receipts {
    /// The number of the seat.
    pub seat: u8,
    /// The number of the first turn's entry in the journal, from 0.
    pub number: usize,
    /// The number of the thread.
    pub thread: u64,
    pub steps: Steps,
}

impl Receipts {
    /// The journal's entry of a turn that answered so.
    pub fn entry(self, reply: Reply) -> Entry
        ensures { result ≡ entry_of self.seat (Step self.thread) reply }
    {
        Entry {
            event: Event::Step(self.thread),
            made: reply.made,
            live: reply.live,
            kind: reply.kind,
            seat: self.seat,
        }
    }
}

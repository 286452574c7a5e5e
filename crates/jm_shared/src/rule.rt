// The rule of the seats, and the steps by which they move.

ghost use Rattle.std.specs.Prelude.{◌≡◌, ◌∷◌, []};
ghost use Rattle.jm_shared.specs.ManyTurns.{entries_of_turns};
ghost use Rattle.jm_shared.specs.Seats.{entries_in};

use crate::entry::{Entry, Receipt, Receipts};
use atomic_table::{Join, Play, Split, TableRule};
use jm_machine::StepsEnd;
use std::collections::LinkedList;

/// An entry, and how many times it stands in a row.
#[derive(Clone, Copy)]
pub struct Repeated {
    pub entry: Entry,
    pub times: usize,
}

/// What is noted in one step: entries in order, each with how many times it stands in a row, which
/// may be 0.
pub(crate) type Note = [Repeated; 2];

/// The note of one entry.
pub(crate) fn once(entry: Entry) -> Note
    ensures { entries_in result ≡ entry ∷ [] }
{
    [Repeated { entry, times: 1 }, Repeated { entry, times: 0 }]
}

/// The note of several turns.
pub(crate) fn note_of(turns: Receipts) -> Note
    ensures { entries_in result ≡ entries_of_turns turns }
{
    let steps = turns.steps;
    let alike = Repeated {
        entry: turns.entry(steps.reply),
        times: steps.alike,
    };
    let other = match steps.end {
        StepsEnd::Other(reply) => Repeated {
            entry: turns.entry(reply),
            times: 1,
        },
        StepsEnd::AllMade => Repeated { times: 0, ..alike },
        StepsEnd::OutOfMemory => Repeated { times: 0, ..alike },
    };
    [alike, other]
}

/// What a seat knows: its number, and the receipts of its turns in order. No value of it is made.
pub struct Hand {
    pub number: u8,
    pub receipts: LinkedList<Receipt>,
}

/// What stands behind a token: some hands, and with the keeper the journal's entries. No value of
/// it is made.
pub struct View {
    pub keeps: bool,
    pub entries: LinkedList<Entry>,
    pub hands: LinkedList<Hand>,
}

/// What always holds of the tokens of one table, which begin as so many seats.
pub struct SeatRule;

impl TableRule<Note, View, usize> for SeatRule {
    ghost use Rattle.jm_shared.specs.Seats.{fresh_hands, keeper_with};
    ghost use Rattle.jm_shared.specs.SeatRule.{IsKept};
    ghost use Rattle.std.specs.Prelude.{[]};

    ghost holds = { λ seats s. IsKept s };

    ghost first = { λ seats. keeper_with [] (fresh_hands 0 seats) };
}

/// The step of a turn: what is said is noted.
pub struct Record;

impl Play<Note, View> for Record {
    ghost use Rattle.jm_shared.specs.SeatRule.{Noted};

    ghost then = { λ st m r n. Noted st m r n };
}

/// A load by the keeper, which then holds every seat that came back.
pub struct Compare;

impl Play<Note, View> for Compare {
    ghost use Rattle.jm_shared.specs.SeatRule.{Compared};

    ghost then = { λ st m r n. Compared st m r n };
}

/// The first hand of a view gets a token of its own.
pub struct DealHand;

impl Split<View> for DealHand {
    ghost use Rattle.jm_shared.specs.SeatRule.{dealt, kept_back};

    ghost left = { kept_back };

    ghost right = { dealt };
}

/// The hands of a token come before those of the keeper.
pub struct TakeIn;

impl Join<View> for TakeIn {
    ghost use Rattle.jm_shared.specs.Seats.{seated};
    ghost use Rattle.jm_shared.specs.SeatRule.{taken_in};
    ghost use Rattle.std.specs.Prelude.{[]};

    ghost both = { taken_in };

    ghost spent = { seated [] };
}

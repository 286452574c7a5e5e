//! The state that the workers of one machine share: the machine and its journal, under one lock.
//!
//! A [`Journal`] makes each event of its machine in a turn of a seat, and keeps what was made: for
//! each turn its seat, its event and the reply. It is legal at any time: the replies are those of
//! the model from the first world on, and the machine matches the world to which the events lead.
//! Equal turns in a row are kept once.
//!
//! A [`SharedMachine`] has a lock round a journal, so that many threads make turns, each with a
//! [`Seat`] of its own. A turn answers a [`Receipt`]. Once all seats have come back, the receipts of
//! each are exactly its entries in the journal, in order ([`SharedMachine::finish`]).
//!
//! [`drive`] gives each seat a thread, in which its worker goes round the Java threads by the replies
//! to its own turns, and takes the journal. [`Journal::record`] writes a journal down as the lines of a
//! record, which reads back as the journal's entries ([`a_record_reads_back`]). `docs/WORKERS.md`
//! tells how this hangs together.
//!
//! The crate stands on `jm_machine`, and passes on what leads to one: linking, loading and the
//! reading of schedules; on `atomic_table`, for the tokens behind the seats; and on `jm_forward`,
//! for laws of sums over all tokens of a table.
#![tactic(auto)]

mod entry;
mod journal;
mod keeper;
mod laws;
mod origin;
mod pages;
mod record;
mod rule;
mod seat;
mod shared_machine;
mod sharing;
mod stretch;
mod turn_gate;
mod worker;
mod workers;

pub use entry::{Entry, Receipt, Receipts};
pub use jm_linker::{LinkFault, link};
pub use jm_machine::{
    Interrupted, LoadFault, Machine, OutOfMemory, Schedule, ScheduleFault, Steps, StepsEnd,
    read_schedule,
};
pub use journal::Journal;
pub use keeper::SeatTable;
pub use laws::a_record_reads_back;
pub use origin::Origin;
pub use rule::Hand;
pub use seat::Seat;
pub use shared_machine::{SeatsMissing, SharedMachine};
pub use sharing::Sharing;
pub use turn_gate::{OpenTurnGate, TurnGate};
pub use workers::{Driven, drive};

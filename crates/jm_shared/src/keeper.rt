// The keeper of a locked journal, and the table that ties the seats to it.

ghost use Rattle.std.specs.Prelude.{◌≡◌, ℕ, ◌<◌, ◌≤◌, ◌++◌, ◌∷◌, [], length, IfOk};
ghost use Rattle.std.specs.List.{All};
ghost use Rattle.jm_shared.specs.Seats.{entries_in, hand, keeper_with, fresh_hands, of_seat, times};

use crate::rule::{Compare, DealHand, Note, Record, SeatRule, TakeIn, View};
use crate::seat::Seat;
use crate::sharing::Sharing;
use atomic_table::{Badge, Table};
use std::alloc::{AllocError, Global};
use std::marker::{Model, PhantomData};
use std::mem;

/// What lies beside a journal under its lock. Contracts see the entries that it knows.
#[derive(Drop)]
pub(crate) struct Keeper<S: Sharing> {
    token: Badge<View>,
    sharing: PhantomData<S>,
}

impl<S: Sharing> Model for Keeper<S> {
    ghost use Rattle.std.specs.Prelude.{◌≡◌, List, [], ◌∷◌};
    ghost use Rattle.jm_shared.specs.declared.entry.Entry.{Entry};
    ghost use Rattle.jm_shared.specs.Seats.{keeper_with, entries_of_views};

    ghost Value = { List Entry };

    ghost view = { λ k. entries_of_views k.token.views };

    ghost invariant = { λ k. (k.token.table_id ≡ S.table) × (k.token.views ≡ keeper_with (entries_of_views k.token.views) [] ∷ []) };
}

/// The table of the seats of a machine that is not shared yet. Contracts see which table it is, and
/// how many seats it is for. It may be dropped.
#[derive(Drop)]
pub struct SeatTable {
    table: Table<Note, View, usize, SeatRule, Global>,
    token: atomic_table::Seat<Note, View>,
    seats: u8,
}

impl Model for SeatTable {
    ghost use Rattle.std.specs.Prelude.{◌≡◌, ◌<◌};
    ghost use Rattle.jm_shared.specs.Seats.{TableView, fresh_token};

    ghost Value = { TableView };

    ghost view = { λ t. record { table = t.table.shared.table_id; seats = t.seats } };

    ghost invariant = { λ t. (0 < t.table.shared.table_id.words) × (t.token.table_id ≡ t.table.shared.table_id) × (t.token.me ≡ fresh_token t.seats) };
}

impl SeatTable {
    /// The table of so many seats, 1 to 16. `AllocError`: a growth was refused.
    pub fn new(alloc: Global, seats: u8) -> Result<SeatTable, AllocError>
        requires { (0 < seats) × (seats ≤ 16) }
        ensures { IfOk result (λ table. table.seats ≡ seats) }
    {
        let (table, token) = Table::of_words(alloc, &[0], &usize::from(seats))?;
        Ok(SeatTable {
            table,
            token,
            seats,
        })
    }

    /// How many seats it is for.
    pub fn seats(&self) -> u8
        ensures { result ≡ self.now.seats }
    {
        self.seats
    }
}

/// What ties the seats of a table to its keeper.
#[derive(Drop)]
pub(crate) struct SeatTies<S: Sharing> {
    table: Table<Note, View, usize, SeatRule, Global>,
    sharing: PhantomData<S>,
    ghost named: { (table.shared.table_id ≡ S.table) × (0 < table.shared.table_id.words) },
}

/// The seats of a table, in order, and their keeper, which knows no entry. `AllocError`: a growth
/// was refused.
pub(crate) fn deal_seats<S: Sharing>(
    alloc: Global,
    opened: SeatTable,
) -> Result<(SeatTies<S>, Keeper<S>, Vec<Seat<S>>), AllocError>
    requires { (opened.table ≡ S.table) × (opened.seats ≡ S.seats) }
    ensures { IfOk result (λ r. (r.1 ≡ []) × (r.2.items ≡ fresh_hands 0 S.seats)) }
{
    let SeatTable {
        table,
        token: mut all,
        seats: count,
    } = opened;
    let mut seats = Vec::with_capacity(alloc, usize::from(count))?;
    for number in 0..count {
        let token = table.shared.split_seat::<DealHand>(&mut all);
        seats.push_reserved(Seat {
            number,
            token,
            sharing: PhantomData,
        });
    }
    let keeper = Keeper {
        token: all.into_badge(),
        sharing: PhantomData,
    };
    let ties = SeatTies {
        table,
        sharing: PhantomData,
    };
    Ok((ties, keeper, seats))
}

impl<S: Sharing> SeatTies<S> {
    /// Notes entries of a seat: the keeper knows them, and the seat has their receipts. One join,
    /// one atomic step and one split; it takes no memory.
    pub(crate) fn note(&self, keeper: &mut Keeper<S>, seat: &mut Seat<S>, note: &Note)
        requires { All (λ e. e.seat ≡ seat.old.number) (entries_in note.now) }
        ensures keeper { keeper.new ≡ keeper.old ++ entries_in note.now }
        ensures seat { seat.new ≡ hand seat.old.number (seat.old.receipts ++ of_seat seat.old.number (length keeper.old) (entries_in note.now)) }
        ensures above { All (λ receipt. receipt.number < length keeper.old) seat.old.receipts }
        ensures lists { seat.old.receipts ≡ of_seat seat.old.number 0 keeper.old }
    {
        let shared = &self.table.shared;
        let mut all = mem::replace(&mut keeper.token, Badge::blank()).into_seat::<Note>();
        let mine = shared.split_seat::<DealHand>(&mut seat.token);
        shared.join_seat::<TakeIn>(&mut all, mine);
        shared.compare_exchange_with::<Record>(&mut all, 0, 0, 0, note);
        seat.token = shared.split_seat::<DealHand>(&mut all);
        keeper.token = all.into_badge();
    }

    /// What the keeper knows of seats that come back: each has the receipts of its entries, and no
    /// two of them have one number.
    pub(crate) fn compare(&self, keeper: Keeper<S>, mut seats: Vec<Seat<S>>)
        ensures lists { All (λ seat. seat.receipts ≡ of_seat seat.number 0 keeper) seats.items }
        ensures apart { (number : ℕ) → times number seats.items ≤ 1 }
        ensures within { All (λ seat. seat.number < S.seats) seats.items }
    {
        let shared = &self.table.shared;
        let mut all = keeper.token.into_seat::<Note>();
        while let Some(seat) = seats.pop() {
            shared.join_seat::<TakeIn>(&mut all, seat.token);
        }
        shared.load::<Compare>(&mut all, 0);
    }
}

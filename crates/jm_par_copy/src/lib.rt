//! A copying collector of several copiers.
//!
//! [`ParallelCollector`] keeps to the trait of collectors, as the serial one does: [`copy_with`] makes a collection,
//! for any gate that copiers pass before their claims. Each [`Copier`] runs in a thread of its own. Of n copiers the
//! one of number c takes the roots whose position is c modulo n, and fills blocks of its own, those whose number is c
//! modulo n, of the old lane from the one on that is among the last n: it goes on in a copy of that. It looks at the
//! forwarding word of an object that it meets, and where nobody has claimed it, it reserves a place among its own,
//! passes the [`Gate`] and claims the word once: the winner copies the object, and a loser takes the winner's place and
//! keeps nothing.
//!
//! The copiers work in rounds. In each a copier scans so many blocks: those that it was given first, and then its
//! own. Between two rounds blocks that are closed and not yet scanned leave the stores of those who filled them,
//! and are dealt out anew, block j to copier j modulo n; the block that a copier is filling and the one that its
//! mark is in stay with it. A block that is one large array of references is set aside instead, and all copiers forward
//! its references together, each a span of them. Where some copiers have much left and others little, all forward the
//! places that stand before them (the fronts), each its share. The promoted objects that point to young ones are listed
//! while they are scanned: by the copier in its own store, and with the block in one that moved. [`run_rounds`] ends when
//! nothing is left to scan. [`finish`] then puts all blocks into one store of the young and one of the promoted, and the
//! promoted ones into the old store, which was only read before: where a growth is refused there is nothing to mend.
//!
//! What holds of all copiers between two rounds is `AreCopying` (`specs/Copiers.antt`): what they hold together are
//! the copies of what all have won, by what all know, and no place is held by two. A round keeps it, giving back
//! and dealing keep it, and at the end it is the image of the condemned objects, under the union of the wins; these
//! are laws here, each the contract of a function that does nothing, and so is that the end is what a collector
//! promises (`specs/Ending.antt`).
//!
//! The calls of a round are given what all copiers read, a [`Round`], and what one of them claims and copies with, its
//! [`Own`]. What they are asked for and what they promise has a name for each clause (`specs/Steps.antt`).
//!
//! The crate stands on `jm_copy`, whose invariant each step keeps, and on `jm_forward`, whose words decide who
//! copies.
#![tactic(auto)]

mod collector;
mod copier;
mod copying;
mod dealing;
mod ending;
mod front;
mod gate;
mod given_back;
mod holding;
mod jointly;
mod large;
mod law;
mod merging;
mod new_roots;
mod owner;
mod piece;
mod rooting;
mod round;
mod running;
mod scan;
mod seating;
mod spans;
mod step;
mod store;
mod unloading;

pub use collector::ParallelCollector;
pub use copier::Copier;
pub use copying::copy_with;
pub use ending::{Copied, finish};
pub use gate::{Gate, OpenGate};
pub use law::{
    a_block_moves, a_closed_block_is_given_back, a_deal_keeps_the_copies, a_fresh_copier_works,
    a_given_block_is_scanned, a_round_is_kept, ages_are_by_lane, all_copiers_are_ready,
    dealing_keeps, fresh_copiers_are_copying, giving_back_keeps, seated_copiers_are_fresh,
    the_end_is_collected, the_end_is_the_image, what_is_held_can_be_put_together,
    what_is_held_is_placed,
};
pub use merging::{move_all, put_piece};
pub use new_roots::root_places;
pub use owner::CopierBlocks;
pub use piece::Piece;
pub use round::{Own, Round};
pub use running::run_rounds;
pub use seating::{all_stores, seat_all};
pub use unloading::put_together;

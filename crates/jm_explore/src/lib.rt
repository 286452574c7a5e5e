//! Every schedule of a program with a bounded number of switches, what each comes to, and that as text.
//!
//! A schedule is a list of thread numbers whose every event goes; to leave a thread that could have
//! gone on is a switch. [`explore`] tries all schedules of at most so many switches, by running the
//! program again for each, and tells each outcome once, with a schedule that leads to it. Its contract
//! says that what is told is true, and that nothing was missed where the answer is finished. What a
//! schedule is stands in `specs/Switches.antt`, and laws of it in [`laws`].
//!
//! [`exploration_text`] tells of each outcome how many schedules come to it, the fewest switches, how
//! it ended, its status, its output behind `| `, its lines of standard error behind `! `, and a schedule
//! that comes to it, in lines `t N x K`; then whether all schedules were tried. [`schedule_text`] is such
//! a schedule alone, which is a file for `jm run --schedule` and spells its events
//! ([`a_schedule_is_spelled_by_its_text`]), [`outcome_at`] finds the outcome whose it is, and
//! [`outcome_status`] is an outcome's status.
//!
//! The crate stands on `jm_machine`, and has the statuses of `jm_explain`.
#![tactic(auto)]

mod bounds;
mod branch;
mod counted;
mod exploration;
mod exploration_texts;
mod heaps;
mod laws;
mod marked;
mod outcome;
mod outcome_texts;
mod schedule_texts;
mod search;
mod status;
mod thread;
mod told;
mod turn;
mod unfinished;

pub use bounds::Bounds;
pub use exploration::{Explored, explore};
pub use exploration_texts::{exploration_text, outcome_at};
pub use heaps::EmptyHeaps;
pub use laws::{
    a_schedule_is_spelled_by_its_text, all_schedules_are_listed,
    events_that_do_not_go_change_nothing, switches_enough_leave_none_out,
};
pub use outcome::{EndedBy, HowEnded, Outcome};
pub use outcome_texts::outcome_lines;
pub use schedule_texts::schedule_text;
pub use status::{ended_status, outcome_status, stop_status};
pub use told::Told;
pub use turn::Turn;
pub use unfinished::Unfinished;

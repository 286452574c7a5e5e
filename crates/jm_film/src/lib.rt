//! A film of a machine: its views, and its page, written as the events are made.
//!
//! What is shown of a world is a definition over the debugger's lines (`specs/Shown`): sections with a
//! key each, frames numbered from the bottom, so that a call touches its own frames alone. [`view`] takes
//! them from a machine: what it gives is that of every world that the machine matches. What is told of a
//! thread that is blocked is what keeps it back in the model (`jm_blocked_threads`). A [`Filming`] makes
//! events of a machine and writes each, as `jm_page` writes it; the data are the fold over the run's events.
//!
//! [`write_film`] makes the events that are due (`jm_events`) from a machine's world on and writes the page of those in a
//! [`Window`] into a writer (`jm_page`): the template, the rows that stand still, the whole view behind the events that
//! are not shown, an event after the other, and whether the run is over or goes on. It keeps two views and the data of
//! one event, however long the page is. No `<` stands in the data.
//!
//! The crate stands on `jm_machine`, `jm_debug`, `jm_page`, `jm_blocked_threads` and `jm_events`.
#![tactic(auto)]

mod film;
mod filming;
mod frames;
mod front;
mod laws;
mod objects;
mod section;
mod shots;
mod shown;
mod skipping;
mod statics;
mod threads;
mod waits;
mod window;

pub use film::write_film;
pub use filming::Filming;
pub use laws::data_are_harmless;
pub use shown::view;
pub use window::Window;

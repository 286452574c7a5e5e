//! The page of a film: the template, its data, the rows that stand still, and the writer that takes a page piece by
//! piece.
//!
//! The template is one file that a browser shows as it is; `make_page.py` writes its two texts as the constants of
//! `page`, and `make_page.py --check` says whether they are those of the file. A page is the text above, the data,
//! in which no `<` stands, so that nothing that a program prints or names can end the page's script, and the text below.
//!
//! The data are a run, event by event. A view is a list of [`Section`]s, each a key and the lines that the debugger
//! shows. What leads from one view to the next are the sections that changed and the keys that are gone
//! ([`write_change`]): made to the view before, they give the view behind it. An event is who made it, its reply, the
//! output that it added and that change ([`write_event`]); the first view is whole ([`write_view`]). A [`Film`] keeps
//! the view behind the last event, and so writes a run as it goes.
//!
//! Above the events stand rows ([`write_row`]): the title; the methods of a program, each under the name by which a place
//! of the debugger names it, with the entries of its line number table and its instructions as lines of Jasmin
//! ([`write_class`]); and the sources of its classes, line by line ([`write_source`]).
//!
//! A page is written piece by piece into a [`PageWriter`] ([`put_piece`]), which knows no file: a write that failed and
//! a growth that was refused are told apart, and a beginning of the page stands in the writer then.
//!
//! The crate stands on `jm_program`.
#![tactic(auto)]

mod change;
mod escape;
mod event;
mod film;
mod laws;
mod method;
mod page;
mod row;
mod section;
mod source;
mod writer;

pub use change::write_change;
pub use event::{write_event, write_view};
pub use film::Film;
pub use laws::{changes_lead_on, data_tell_one_run, readers_see_each_view, runs_are_harmless};
pub use method::write_class;
pub use page::{ABOVE, BELOW};
pub use row::{Row, write_row};
pub use section::{Section, shown_at};
pub use source::{Source, write_source};
pub use writer::{PageFault, PageWriter, PieceRefused, put_piece};

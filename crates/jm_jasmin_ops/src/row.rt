// The lines below a switch.

use crate::labelled::{Label, LabelledLookup, LabelledPair, LabelledTable};
use jm_program::Sequence;

/// A line below `tableswitch` or `lookupswitch`.
#[derive(Drop)]
pub enum Row<'a> {
    /// `L`, the next target of a table.
    Target(Label<'a>),
    /// `KEY : L`.
    Pair(i32, Label<'a>),
    /// `default : L`.
    Default(Label<'a>),
}

/// What a line says to the targets of a table before it.
#[derive(Drop)]
pub enum TableStep<'a> {
    /// The targets go on: these, with the line's.
    More(Sequence<Label<'a>>),
    /// The line ends the table.
    Done(LabelledTable<'a>),
}

/// What a line says to the pairs before it.
#[derive(Drop)]
pub enum LookupStep<'a> {
    /// The pairs go on: these, with the line's.
    More(Sequence<LabelledPair<'a>>),
    /// The line ends the pairs.
    Done(LabelledLookup<'a>),
}

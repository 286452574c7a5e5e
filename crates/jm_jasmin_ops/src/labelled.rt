// Instructions whose targets are labels by name.

ghost use Rattle.std.specs.Prelude.{◌≡◌};

use jm_program::{Branch, Instr, Sequence};
use std::marker::Model;

/// The use of a label. In a contract it is the bytes of the label's name, and the line in which it
/// is used.
pub struct Label<'a> {
    name: &'a str,
    line: usize,
}

// Written out, so that whoever lets go of one makes a call (docs/DECISIONS.md).
impl Drop for Label<'_> {
    fn drop(self) {
        let Label { name: _, line: _ } = self;
    }
}

impl<'a> Model for Label<'a> {
    ghost use Rattle.jm_jasmin_ops.specs.Label.{LabelParts};

    ghost Value = { LabelParts };

    ghost view = { λ l. record { name = l.name.now; line = l.line } };
}

impl<'a> Label<'a> {
    /// The use of the label of this name in this line, counted from 1.
    pub fn new(name: &'a str, line: usize) -> Label<'a>
        ensures { result ≡ record { name = name.now; line = line } }
    {
        Label { name, line }
    }

    /// The label's name.
    pub fn name(&self) -> &'a str
        ensures { result.now ≡ self.now.name }
    {
        self.name
    }

    /// The line in which it is used, counted from 1.
    pub fn line(&self) -> usize
        ensures { result ≡ self.now.line }
    {
        self.line
    }
}

/// An instruction as a text has it: its targets are labels (Jasmin User Guide, "Instructions").
#[derive(Drop)]
pub enum LabelledInstr<'a> {
    /// One that has no target.
    Named(Instr),
    Branch(Branch, Label<'a>),
    TableSwitch(LabelledTable<'a>),
    LookupSwitch(LabelledLookup<'a>),
}

/// The operands of `tableswitch`: the targets of `low`, `low` + 1, .. in order, of which there is
/// at least one, and the target of every other int (JVMS 6.5 tableswitch).
pub struct LabelledTable<'a> {
    pub low: i32,
    pub targets: Sequence<Label<'a>>,
    pub default: Label<'a>,
}

// Written out, so that whoever lets go of one makes a call (docs/DECISIONS.md).
impl Drop for LabelledTable<'_> {
    fn drop(self) {
        let LabelledTable {
            low: _,
            targets: _,
            default: _,
        } = self;
    }
}

/// A key of `lookupswitch` with its target.
pub struct LabelledPair<'a> {
    pub key: i32,
    pub target: Label<'a>,
}

// Written out, so that whoever lets go of one makes a call (docs/DECISIONS.md).
impl Drop for LabelledPair<'_> {
    fn drop(self) {
        let LabelledPair { key: _, target: _ } = self;
    }
}

/// The operands of `lookupswitch`: the pairs, their keys strictly rising, and the target of every
/// other int (JVMS 6.5 lookupswitch).
pub struct LabelledLookup<'a> {
    pub pairs: Sequence<LabelledPair<'a>>,
    pub default: Label<'a>,
}

// Written out, so that whoever lets go of one makes a call (docs/DECISIONS.md).
impl Drop for LabelledLookup<'_> {
    fn drop(self) {
        let LabelledLookup {
            pairs: _,
            default: _,
        } = self;
    }
}

/// An instruction, and how many tokens it takes: a switch takes those of several lines.
#[derive(Drop)]
pub struct Line<'a> {
    pub instruction: LabelledInstr<'a>,
    pub used: usize,
}

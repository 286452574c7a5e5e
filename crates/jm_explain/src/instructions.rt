// What is said of the numbers of the refusals of the code of a method.

ghost use Rattle.std.specs.Prelude.{◌≡◌, map};
ghost use Rattle.jm_explain.specs.Items.{item};
ghost use Rattle.jm_explain.specs.Table.{instructions};

use crate::entry::Entry;

static INSTRUCTIONS: [Entry; 6] = [
    Entry {
        number: 10,
        name: "BadOpcode(at); status 10",
        names: &["BadOpcode"],
        meaning: "at this byte of a method's code stands no instruction; as a status, the schedules that `explore` tried come to more than one outcome",
        example: "The byte 203, which is the opcode of no instruction. As a status: two threads that raise a counter without a lock, of which one count is lost in some schedules.",
        advice: "No compiler writes such code, so the file is damaged: compile its source again by `javac --release 8`. For the status look at an outcome that is not wanted: `jm explore --outcome N` writes its schedule for `jm run --schedule`.",
    },
    Entry {
        number: 11,
        name: "LeftOut(name); status 11",
        names: &["LeftOut"],
        meaning: "the code has an instruction that this machine leaves out; as a status, `explore` found one outcome, and has not tried all schedules",
        example: "11 LeftOut(fconst_1) for `float f = 1;`, since there are no floats and no doubles here. As a status: `not complete: stopped after 1000000 runs`.",
        advice: "Use int and long in place of float and double. Then compile by `javac --release 8`. For the status give more `--runs`, or fewer `--switches`.",
    },
    Entry {
        number: 12,
        name: "Cut(at)",
        names: &["Cut"],
        meaning: "the code of a method ends inside the instruction at this byte",
        example: "A method whose last byte is the opcode of `bipush`, with no number behind it.",
        advice: "No compiler writes such code, so the file is damaged: compile its source again by `javac --release 8`.",
    },
    Entry {
        number: 13,
        name: "BadTarget",
        names: &["BadTarget"],
        meaning: "a branch or a switch leads to a place where no instruction begins",
        example: "A `goto` to the byte behind its own opcode, which is its own operand.",
        advice: "No compiler writes such code, so the file is damaged: compile its source again by `javac --release 8`.",
    },
    Entry {
        number: 14,
        name: "BranchTooFar",
        names: &["BranchTooFar"],
        meaning: "a branch is longer than its field in a class file can say",
        example: "An `ifeq` to a label that is more than 32767 bytes of code away.",
        advice: "Branch on the opposite condition around a `goto_w` to the label, or divide the method into several.",
    },
    Entry {
        number: 15,
        name: "CodeTooLong",
        names: &["CodeTooLong"],
        meaning: "a method has more than 65535 bytes of code",
        example: "A text with 70000 times `nop` in one method.",
        advice: "Divide the method into several.",
    },
];

/// The entries of the refusals of the code of a method, by number.
pub fn entries() -> &'static [Entry]
    ensures { map item result.now ≡ instructions }
{
    &INSTRUCTIONS
}

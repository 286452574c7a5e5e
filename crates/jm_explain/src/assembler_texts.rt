// What is said of the numbers of the refusals of an assembler text.

ghost use Rattle.std.specs.Prelude.{◌≡◌, map};
ghost use Rattle.jm_explain.specs.Items.{item};
ghost use Rattle.jm_explain.specs.Table.{assembler_texts};

use crate::entry::Entry;

static ASSEMBLER_TEXTS: [Entry; 6] = [
    Entry {
        number: 40,
        name: "BadToken(line)",
        names: &["BadToken"],
        meaning: "a line of an assembler text cannot be parted into words and strings, or is not UTF-8",
        example: "A string without its closing quote.",
        advice: "Mend the line of this number, which is counted from 1.",
    },
    Entry {
        number: 41,
        name: "Syntax(line)",
        names: &["Syntax"],
        meaning: "a line of an assembler text is none that the assembler knows at that place",
        example: "`bipush 128`, since the number of `bipush` is from -128 to 127.",
        advice: "Mend the line of this number, which is counted from 1: look at the spelling, at the operands and at the range of the number. A text that is too short is refused at its last line.",
    },
    Entry {
        number: 42,
        name: "DuplicateLabel(line)",
        names: &["DuplicateLabel"],
        meaning: "a label stands for the second time in its method",
        example: "`Loop:` on two lines of one method.",
        advice: "Give the label on the line of this number another name.",
    },
    Entry {
        number: 43,
        name: "NoLabel(line)",
        names: &["NoLabel"],
        meaning: "a label is used that its method has not",
        example: "`goto End` in a method without a line `End:`.",
        advice: "Write the label where it belongs, or mend its name on the line of this number.",
    },
    Entry {
        number: 45,
        name: "BadCount(line)",
        names: &["BadCount"],
        meaning: "a number or a range in an assembler text does not fit what it counts",
        example: "A method with two arguments and no `.limit locals`, since it then has one local variable.",
        advice: "Mend the line of this number: give `.limit locals` room for the arguments, a range an instruction, `invokeinterface` the slots of its arguments, `multianewarray` no more dimensions than its type has, and let the keys of a switch rise.",
    },
    Entry {
        number: 46,
        name: "LeftOut(name)",
        names: &["LeftOut"],
        meaning: "an assembler text has a part that this machine leaves out",
        example: "46 LeftOut(float) for `ldc 1.5`, 46 LeftOut(.stack) for a stack map.",
        advice: "Take the part out of the text. There are no floats, no doubles, no `jsr`, no `invokedynamic`, and a branch leads to a label.",
    },
];

/// The entries of the refusals of an assembler text, by number.
pub fn entries() -> &'static [Entry]
    ensures { map item result.now ≡ assembler_texts }
{
    &ASSEMBLER_TEXTS
}

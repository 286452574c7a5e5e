// What is said of the numbers of the refusals of a schedule, a record, a command of the debugger and a text of a class.

ghost use Rattle.std.specs.Prelude.{◌≡◌, map};
ghost use Rattle.jm_explain.specs.Items.{item};
ghost use Rattle.jm_explain.specs.Table.{sessions};

use crate::entry::Entry;

static SESSIONS: [Entry; 5] = [
    Entry {
        number: 70,
        name: "BadSchedule(line)",
        names: &["BadSchedule"],
        meaning: "a line of the schedule spells no event, or is the one at which they pass 10000000",
        example: "`t 1x3`, since the line is to be `t 1 x 3`.",
        advice: "Mend the line of this number, which is counted from 1. A line is `t N`, `t N x K`, `minor`, `full`, a comment behind `#`, or empty.",
    },
    Entry {
        number: 71,
        name: "ReplayDiffers(line)",
        names: &["ReplayDiffers"],
        meaning: "a reply is of another kind than the record of the run has",
        example: "`jm: 71 ReplayDiffers(3)`, where the third line of the record was changed.",
        advice: "Give `jm replay` the record as it was written, with the classes and the `--heap` of that run.",
    },
    Entry {
        number: 80,
        name: "BadCommand",
        names: &["BadCommand"],
        meaning: "a line is no command of the debugger, or is not UTF-8",
        example: "`brake Main.main()V:0`, which is answered by `? 80 BadCommand`.",
        advice: "Write a command as it is: break, clear, step, minor, full, continue, where, locals, stack, statics, object, heap or monitors, with one blank between words.",
    },
    Entry {
        number: 81,
        name: "NoSuch",
        names: &["NoSuch"],
        meaning: "a thread, frame, class, method, instruction, object or outcome is named that there is not, or that is not reachable",
        example: "`where 9` in a program with one thread, which is answered by `? 81 NoSuch`.",
        advice: "Look first what there is: `where 1` has the frames of thread 1, `heap` the objects that are reachable, and `jm explore` without `--outcome` the outcomes.",
    },
    Entry {
        number: 90,
        name: "NoText(part)",
        names: &["NoText"],
        meaning: "a class has a part that a text of `dis` cannot say; the text is written all the same",
        example: "90 NoText(class: flags) for a class without the flag that `.class` always sets.",
        advice: "Read the text as it is: a mark stands before what has that part. It does not denote the class: most such parts no assembler text can say.",
    },
];

/// The entries of the refusals of a schedule, a record, a command of the debugger and a text of a class, by number.
pub fn entries() -> &'static [Entry]
    ensures { map item result.now ≡ sessions }
{
    &SESSIONS
}

// What is said of the numbers of the exit statuses, and of the two refusals that have the number of one.

ghost use Rattle.std.specs.Prelude.{◌≡◌, map};
ghost use Rattle.jm_explain.specs.Items.{item};
ghost use Rattle.jm_explain.specs.Table.{statuses};

use crate::entry::Entry;

static STATUSES: [Entry; 10] = [
    Entry {
        number: 0,
        name: "status",
        names: &[],
        meaning: "each Java thread has returned, or the command did what it was asked for",
        example: "`jm run sum.class` prints 5 and ends with status 0.",
        advice: "There is nothing to do.",
    },
    Entry {
        number: 1,
        name: "BadDescriptor; status 1",
        names: &["BadDescriptor"],
        meaning: "a text that is to be a type is none, or has too many slots or dimensions; as a status, the command line was refused",
        example: "`.field x Q` in an assembler text, since no type begins with Q. As a status: `jm rum Main.class`, since there is no such command.",
        advice: "In a text mend the type on that line; a class file compile again by `javac --release 8`. The words of a command are shown by `jm help COMMAND`, which has status 1 too.",
    },
    Entry {
        number: 2,
        name: "BadName; status 2",
        names: &["BadName"],
        meaning: "a text that is to be a name is none; as a status, a file could not be read, or the output not be written",
        example: "`.class a//b` in an assembler text, since a part of the name is empty. As a status: `jm: Nowhere.class: not read` for a file that is not there.",
        advice: "In a text mend the name on that line; a class file compile again by `javac --release 8`. For the status look at the names of the files, at the right to read them, and at the room for the output.",
    },
    Entry {
        number: 3,
        name: "status",
        names: &[],
        meaning: "a Java thread was ended by an exception that nothing caught",
        example: "`jm: thread 1 ended by java/lang/ArithmeticException`, for a division by zero.",
        advice: "Catch the exception, or mend what throws it. `jm why` with the same files tells where it was thrown and what was found there; `jm debug` shows the program at any event before it.",
    },
    Entry {
        number: 4,
        name: "status",
        names: &[],
        meaning: "assembling, reading, linking or loading was refused, or `dis` met a part that its text cannot say",
        example: "`jm: 51 NoClass(java/lang/StringBuilder)`, for a program that joins strings by `+`.",
        advice: "Take the number of the line on standard error, here 51, and ask `jm explain 51`.",
    },
    Entry {
        number: 5,
        name: "status",
        names: &[],
        meaning: "the machine stopped at an instruction that cannot be made: 60 TagFault",
        example: "`jm: 60 TagFault(Overflow)`, for a text whose `.limit stack` is too small.",
        advice: "Ask `jm explain 60`.",
    },
    Entry {
        number: 6,
        name: "status",
        names: &[],
        meaning: "the machine stopped because its heap was full, or because no more objects could be numbered: 62 HeapFull, 64 SerialsEnd",
        example: "`jm: 62 HeapFull`, for a program that keeps more objects than `--heap` allows.",
        advice: "Ask `jm explain 62`.",
    },
    Entry {
        number: 7,
        name: "status",
        names: &[],
        meaning: "the system refused memory: 61 OutOfMemory",
        example: "`jm: 61 OutOfMemory`, in a process whose memory is limited.",
        advice: "Ask `jm explain 61`.",
    },
    Entry {
        number: 8,
        name: "status",
        names: &["deadlock", "cut"],
        meaning: "a Java thread had not ended when the last event was made",
        example: "`jm run --steps 8 sum.class` ends with `jm: 1 threads not ended`, since the program takes nine events.",
        advice: "Allow more events by `--steps`, up to 10000000, or lengthen the schedule. Threads that wait for each other never end: `jm why` tells where each stands and, if its last event was blocked, who has what it waits for. A schedule that `explore` found has no blocked event: write `t N` behind it for each such thread N. `jm debug` shows the program at any event.",
    },
    Entry {
        number: 9,
        name: "status",
        names: &[],
        meaning: "the schedule or the record was refused: 70 BadSchedule, 71 ReplayDiffers",
        example: "`jm: 70 BadSchedule(2)`, for a schedule whose second line spells no event.",
        advice: "Ask `jm explain 70`.",
    },
];

/// The entries of the exit statuses, and of the two refusals that have the number of one, by number.
pub fn entries() -> &'static [Entry]
    ensures { map item result.now ≡ statuses }
{
    &STATUSES
}

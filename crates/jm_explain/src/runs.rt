// What is said of the numbers of the stops, and of want of memory and room.

ghost use Rattle.std.specs.Prelude.{◌≡◌, map};
ghost use Rattle.jm_explain.specs.Items.{item};
ghost use Rattle.jm_explain.specs.Table.{runs};

use crate::entry::Entry;

static RUNS: [Entry; 6] = [
    Entry {
        number: 60,
        name: "TagFault(kind)",
        names: &[
            "TagFault",
            "WrongTag",
            "Underflow",
            "Overflow",
            "BadLocal",
            "NoInstruction",
            "MonitorCount",
        ],
        meaning: "the run stops, since an instruction meets what no verified code would give it",
        example: "60 TagFault(Overflow) for a text that pushes two numbers and has no `.limit stack`, since it then has room for one.",
        advice: "Overflow: make `.limit stack` larger, where a long counts twice. BadLocal: make `.limit locals` larger, or store to the variable before it is read. Underflow, WrongTag and WrongKind: look at what stands on the stack before the instruction. NoInstruction: let the code not run past its end. MonitorCount: one thread has entered a monitor too often.",
    },
    Entry {
        number: 61,
        name: "OutOfMemory",
        names: &["OutOfMemory"],
        meaning: "the system refused memory to the machine itself",
        example: "A process whose memory is limited, as by `ulimit -v`.",
        advice: "Give the process more memory, or let the program use less: fewer threads, fewer frames, less output. `--heap` bounds the objects alone.",
    },
    Entry {
        number: 62,
        name: "HeapFull",
        names: &["HeapFull"],
        meaning: "the run stops, since the reachable objects and the one that is asked for pass the limit of the heap",
        example: "`jm run --heap 18 RingAndALongerArray.j N.j`.",
        advice: "Give the heap more cells by `--heap`, up to 16777216, or let go of objects. Garbage never counts, and `--show-heap` shows what was still reachable.",
    },
    Entry {
        number: 63,
        name: "HeapTooSmall",
        names: &["HeapTooSmall"],
        meaning: "the objects that stand before the first event pass the limit of the heap",
        example: "A program with many different strings under `--heap 16`.",
        advice: "Give the heap more cells by `--heap`, up to 16777216.",
    },
    Entry {
        number: 64,
        name: "SerialsEnd",
        names: &["SerialsEnd"],
        meaning: "the run stops, since more than 2^63 objects would have been made",
        example: "No run that a person has the time to wait for.",
        advice: "There is nothing to do.",
    },
    Entry {
        number: 65,
        name: "SeatsMissing",
        names: &["SeatsMissing"],
        meaning: "not all seats of a shared machine were handed back",
        example: "A program over the machine's own libraries that ends a shared machine while a worker still has a seat.",
        advice: "Hand back every seat first. No command of `jm` says this.",
    },
];

/// The entries of the stops, and of want of memory and room, by number.
pub fn entries() -> &'static [Entry]
    ensures { map item result.now ≡ runs }
{
    &RUNS
}

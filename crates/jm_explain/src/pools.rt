// What is said of the numbers of the refusals of a constant pool.

ghost use Rattle.std.specs.Prelude.{◌≡◌, map};
ghost use Rattle.jm_explain.specs.Items.{item};
ghost use Rattle.jm_explain.specs.Table.{pools};

use crate::entry::Entry;

static POOLS: [Entry; 5] = [
    Entry {
        number: 20,
        name: "BadTag(tag)",
        names: &["BadTag"],
        meaning: "the constant pool of a class file has an entry of a kind that there is not",
        example: "20 BadTag(2), since no kind of constant has the tag 2.",
        advice: "No compiler for Java 8 writes such a file, so it is damaged: compile its source again by `javac --release 8`.",
    },
    Entry {
        number: 21,
        name: "BadIndex(index)",
        names: &["BadIndex"],
        meaning: "a class file names a constant that is not there, or is of another kind",
        example: "21 BadIndex(0) where the class's own name is the constant 0, which there never is.",
        advice: "No compiler writes such a file, so it is damaged: compile its source again by `javac --release 8`.",
    },
    Entry {
        number: 22,
        name: "BadUtf8",
        names: &["BadUtf"],
        meaning: "a text in a class file is not encoded as class files encode texts",
        example: "A name with the byte 0 in it.",
        advice: "No compiler writes such a file, so it is damaged: compile its source again by `javac --release 8`.",
    },
    Entry {
        number: 23,
        name: "PoolFull",
        names: &["PoolFull"],
        meaning: "a class needs more constants than a class file can hold",
        example: "A text with 40000 different strings, of which each takes two of the 65534 constants.",
        advice: "Divide the class into several.",
    },
    Entry {
        number: 24,
        name: "Cut",
        names: &["Cut"],
        meaning: "a class file ends inside its constant pool",
        example: "A file of which only the first 20 bytes were copied.",
        advice: "Copy the file again, or compile its source again by `javac --release 8`.",
    },
];

/// The entries of the refusals of a constant pool, by number.
pub fn entries() -> &'static [Entry]
    ensures { map item result.now ≡ pools }
{
    &POOLS
}

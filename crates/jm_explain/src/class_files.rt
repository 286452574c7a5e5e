// What is said of the numbers of the refusals of a class file.

ghost use Rattle.std.specs.Prelude.{◌≡◌, map};
ghost use Rattle.jm_explain.specs.Items.{item};
ghost use Rattle.jm_explain.specs.Table.{class_files};

use crate::entry::Entry;

static CLASS_FILES: [Entry; 7] = [
    Entry {
        number: 30,
        name: "Magic",
        names: &["Magic"],
        meaning: "a file does not begin as class files do, with the bytes CA FE BA BE",
        example: "`jm run Main.java`, `jm run program.jar`, or an assembler text whose name does not end in `.j`.",
        advice: "Compile a source by `javac --release 8 Main.java`. Unpack a jar by `jar xf program.jar`, and give the class files that were in it. The name of an assembler text ends in `.j`.",
    },
    Entry {
        number: 31,
        name: "Version",
        names: &["Version"],
        meaning: "a class file is of a version that is not from 45.0 to 52.0",
        example: "A class that `javac` of Java 17 compiled without `--release`, which is of version 61.0.",
        advice: "Compile by `javac --release 8`, which writes version 52.0.",
    },
    Entry {
        number: 32,
        name: "Cut",
        names: &["Cut"],
        meaning: "a class file ends inside the class, behind its constant pool",
        example: "A class file without its last byte.",
        advice: "Copy the file again, or compile its source again by `javac --release 8`.",
    },
    Entry {
        number: 33,
        name: "Trailing",
        names: &["Trailing"],
        meaning: "a class file goes on behind the class",
        example: "Two class files that were written into one file, one behind the other.",
        advice: "Give each class in a file of its own.",
    },
    Entry {
        number: 34,
        name: "BadAttribute",
        names: &["BadAttribute"],
        meaning: "a part of a class file breaks the rules that it has to keep",
        example: "An abstract method that has code all the same.",
        advice: "No compiler writes such a file, so it is damaged: compile its source again by `javac --release 8`.",
    },
    Entry {
        number: 35,
        name: "LeftOut(name)",
        names: &["LeftOut"],
        meaning: "a class has a part that this machine leaves out",
        example: "35 LeftOut(Double) for a constant of type double, 35 LeftOut(native) for a native method, 35 LeftOut(interface method) for a method with code in an interface.",
        advice: "Use int and long in place of float and double, and a class in place of a lambda. Leave out native methods, `finalize()`, methods that are static and synchronized, and code in interfaces. Then compile by `javac --release 8`.",
    },
    Entry {
        number: 36,
        name: "TooMany",
        names: &["TooMany"],
        meaning: "a count or a length is larger than its field in a class file can say",
        example: "A string in a text that takes more than 65535 bytes.",
        advice: "Divide the string, the method or the class that is too large.",
    },
];

/// The entries of the refusals of a class file, by number.
pub fn entries() -> &'static [Entry]
    ensures { map item result.now ≡ class_files }
{
    &CLASS_FILES
}

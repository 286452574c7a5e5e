// What is said of the numbers of the refusals of a program that does not load.

ghost use Rattle.std.specs.Prelude.{◌≡◌, map};
ghost use Rattle.jm_explain.specs.Items.{item};
ghost use Rattle.jm_explain.specs.Table.{links};

use crate::entry::Entry;

static LINKS: [Entry; 8] = [
    Entry {
        number: 50,
        name: "DuplicateClass(name)",
        names: &["DuplicateClass"],
        meaning: "two files hold classes of one name, or a file holds a class that is built in",
        example: "`jm run Main.class Main.class`.",
        advice: "Give each class once, and give a class of your own another name than those of `jm explain 51`.",
    },
    Entry {
        number: 51,
        name: "NoClass(name)",
        names: &["NoClass"],
        meaning: "a class is named that no file holds and that is not built in",
        example: "51 NoClass(java/lang/StringBuilder) for a program that joins strings by `+`, which `javac` makes into calls of that class.",
        advice: "Give the file of the class too: `jm run Main.class Other.class`. Built in are Object, String, System, PrintStream, Thread, Cloneable, Serializable, and the exceptions that instructions throw. In place of joining strings print one part after the other by `System.out.print`.",
    },
    Entry {
        number: 52,
        name: "Cycle(name)",
        names: &["Cycle"],
        meaning: "a class or an interface stands above itself",
        example: "`.class A` with `.super A`.",
        advice: "Mend the superclass or the interfaces of the class. Compile all classes together by `javac --release 8`.",
    },
    Entry {
        number: 53,
        name: "NoField(name)",
        names: &["NoField"],
        meaning: "a field is named that its class and the classes and interfaces above it have not",
        example: "`getstatic Main/x I` where Main has no field x of type int.",
        advice: "Compile all classes together by `javac --release 8`. Of the built-in classes a program has one field, `System.out`.",
    },
    Entry {
        number: 54,
        name: "NoMethod(name)",
        names: &["NoMethod"],
        meaning: "a method is named that its class and the classes and interfaces above it have not",
        example: "54 NoMethod(println) for `System.out.println(true)`, since there is no println of a boolean.",
        advice: "Compile all classes together by `javac --release 8`, and of the built-in classes call only what there is. `System.out` has print and println of char, int, long and String, and println of nothing; String has length and charAt; Thread has start and run; each constructor is without arguments.",
    },
    Entry {
        number: 55,
        name: "WrongKind(name)",
        names: &["WrongKind"],
        meaning: "a class or a member is used as what it is not",
        example: "`new java/lang/Cloneable`, since no object of an interface can be made; a static method that is invoked as an instance method.",
        advice: "Compile all classes together by `javac --release 8`. String, System and PrintStream are neither extended nor made by `new`, and nothing is stored to `System.out`.",
    },
    Entry {
        number: 56,
        name: "NoMain",
        names: &["NoMain"],
        meaning: "the first class has no static method main with code",
        example: "`jm run Helper.class Main.class`, where main is in Main.",
        advice: "Give the file first whose class declares `public static void main(String[] args)`: `jm run Main.class Helper.class`.",
    },
    Entry {
        number: 57,
        name: "DuplicateMember(name)",
        names: &["DuplicateMember"],
        meaning: "a class declares two fields or two methods of one name and type",
        example: "`.field x I` twice in one text.",
        advice: "Take one of them out, or give it another name.",
    },
];

/// The entries of the refusals of a program that does not load, by number.
pub fn entries() -> &'static [Entry]
    ensures { map item result.now ≡ links }
{
    &LINKS
}

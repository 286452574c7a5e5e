// Instructions whose names are resolved.

use jm_program::{ArrayOp, BaseType, FieldOp, InvokeOp, MonitorOp, Plain, ReturnOp, TypeOp};

/// What a print stream's method prints.
#[derive(Clone, Copy)]
pub enum Printed {
    Int,
    Long,
    Char,
    String,
}

/// A method of a print stream.
#[derive(Clone, Copy)]
pub enum PrintMethod {
    Print(Printed),
    Println(Printed),
    /// `println()`, which ends the line.
    EndLine,
}

/// A field or a method that a class declares, by numbers.
#[derive(Clone, Copy)]
pub struct MemberNumber {
    /// The number of the class among all classes: the built-in ones first, then the program's.
    pub class: u32,
    /// The number among the fields, or among the methods, of that class.
    pub member: u32,
}

/// What an invoke names.
#[derive(Clone, Copy)]
pub struct InvokedMethod {
    /// The number of the class that is named, among all classes.
    pub named: u32,
    /// The method that its name and type mean there (JVMS 5.4.3.3, 5.4.3.4), or the one that an
    /// `invokespecial` calls.
    pub found: MemberNumber,
    /// The selector of its name and type: a column of the table of the methods that are selected.
    pub selector: u32,
}

/// A type that is no array, a class by its number among all classes.
#[derive(Clone, Copy)]
pub enum LinkedElement {
    Base(BaseType),
    Class(u32),
}

/// A type: that of the element, or an array of so many dimensions of it.
#[derive(Clone, Copy)]
pub struct LinkedType {
    pub dimensions: u8,
    pub element: LinkedElement,
}

/// An instruction whose names are resolved.
pub enum LinkedInstr {
    /// Touches one frame alone and names nothing.
    Plain(Plain),
    /// `ldc` of an int.
    Int(i32),
    /// `ldc2_w` of a long.
    Long(i64),
    /// `ldc` of a string, by its number among the program's literals.
    Literal(u32),
    Return(ReturnOp),
    Array(ArrayOp),
    /// `athrow`.
    Throw,
    Monitor(MonitorOp),
    /// `getstatic` of System.out, which needs no initialization.
    SystemOut,
    /// Any other use of a field.
    Field(FieldOp, MemberNumber),
    /// `invokevirtual` or `invokespecial` of a method of java/io/PrintStream, which prints an int, a long,
    /// a char, a String or the end of a line.
    Print(PrintMethod),
    /// Any other `invokespecial`, of the method that it calls: it depends on the class in which the
    /// instruction stands (JVMS 6.5 invokespecial).
    Special(InvokedMethod),
    /// One that finds no method to call.
    NoSpecial(InvokedMethod),
    /// Any other invoke.
    Invoke(InvokeOp, InvokedMethod),
    /// `new`, by the number of the class among all classes.
    New(u32),
    Type(TypeOp, LinkedType),
}

// Written out, so that whoever lets go of one makes a call (docs/DECISIONS.md).
impl Drop for LinkedInstr {
    fn drop(self) {
        match self {
            LinkedInstr::Plain(_)
            | LinkedInstr::Int(_)
            | LinkedInstr::Long(_)
            | LinkedInstr::Literal(_)
            | LinkedInstr::Return(_)
            | LinkedInstr::Array(_)
            | LinkedInstr::Throw
            | LinkedInstr::Monitor(_)
            | LinkedInstr::SystemOut
            | LinkedInstr::Field(_, _)
            | LinkedInstr::Print(_)
            | LinkedInstr::Special(_)
            | LinkedInstr::NoSpecial(_)
            | LinkedInstr::Invoke(_, _)
            | LinkedInstr::New(_)
            | LinkedInstr::Type(_, _) => {}
        }
    }
}

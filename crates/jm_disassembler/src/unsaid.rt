// The parts of a class that its text cannot say.

ghost use Rattle.std.specs.Prelude.{Some};
ghost use Rattle.jm_disassembler.specs.PartTexts.{class_part_text, field_part_text, method_part_text, unsaid_text};

use std::fmt;

/// A part of the lines before the fields.
#[derive(Clone, Copy, PartialEq, Eq)]
pub enum ClassPart {
    SourceFile,
    Flags,
    Name,
    /// It has none: it is java/lang/Object.
    Superclass,
    /// The one of this number, from 0.
    Interface(usize),
}

/// A part of a field.
#[derive(Clone, Copy, PartialEq, Eq)]
pub enum FieldPart {
    Flags,
    Name,
    Type,
}

/// A part of a method.
#[derive(Clone, Copy, PartialEq, Eq)]
pub enum MethodPart {
    Flags,
    Name,
    Type,
    /// More instructions than labels can count.
    Length,
    /// The row of the exception table of this number, from 0.
    Handler(usize),
    /// The instruction of this number, from 0.
    Instruction(usize),
    /// A line number table whose rows do not follow the instructions.
    Lines,
}

/// A part of a class that its text cannot say. Fields and methods are numbered from 0, in their order.
#[derive(Clone, Copy, PartialEq, Eq)]
pub enum Unsaid {
    Class(ClassPart),
    Field(usize, FieldPart),
    Method(usize, MethodPart),
}

impl fmt::Display for ClassPart {
    ghost output = { λ part. Some (class_part_text part) };

    fn fmt<W: fmt::Write>(&self, f: &mut fmt::Formatter<W>) -> fmt::Result {
        match self {
            ClassPart::SourceFile => f.write_str("source file"),
            ClassPart::Flags => f.write_str("flags"),
            ClassPart::Name => f.write_str("name"),
            ClassPart::Superclass => f.write_str("superclass"),
            ClassPart::Interface(number) => write!(f, "interface {number}"),
        }
    }
}

impl fmt::Display for FieldPart {
    ghost output = { λ part. Some (field_part_text part) };

    fn fmt<W: fmt::Write>(&self, f: &mut fmt::Formatter<W>) -> fmt::Result {
        match self {
            FieldPart::Flags => f.write_str("flags"),
            FieldPart::Name => f.write_str("name"),
            FieldPart::Type => f.write_str("type"),
        }
    }
}

impl fmt::Display for MethodPart {
    ghost output = { λ part. Some (method_part_text part) };

    fn fmt<W: fmt::Write>(&self, f: &mut fmt::Formatter<W>) -> fmt::Result {
        match self {
            MethodPart::Flags => f.write_str("flags"),
            MethodPart::Name => f.write_str("name"),
            MethodPart::Type => f.write_str("type"),
            MethodPart::Length => f.write_str("length"),
            MethodPart::Handler(number) => write!(f, "handler {number}"),
            MethodPart::Instruction(number) => write!(f, "instruction {number}"),
            MethodPart::Lines => f.write_str("lines"),
        }
    }
}

impl fmt::Display for Unsaid {
    ghost output = { λ part. Some (unsaid_text part) };

    fn fmt<W: fmt::Write>(&self, f: &mut fmt::Formatter<W>) -> fmt::Result {
        match self {
            Unsaid::Class(part) => write!(f, "class: {part}"),
            Unsaid::Field(number, part) => write!(f, "field {number}: {part}"),
            Unsaid::Method(number, part) => write!(f, "method {number}: {part}"),
        }
    }
}

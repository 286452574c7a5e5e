// The entries of a constant pool (JVMS 4.4), and the bytes of modified UTF-8 (JVMS 4.4.7).

ghost use Rattle.std.specs.Prelude.{◌≡◌};

use jm_program::Sequence;
use std::marker::Model;

/// The kinds of pool entries that are read (JVMS 4.4, table 4.4-A).
#[derive(Clone, Copy)]
pub enum Tag {
    Utf8,
    Integer,
    Long,
    Class,
    String,
    Fieldref,
    Methodref,
    InterfaceMethodref,
    NameAndType,
}

/// What the first byte of a code unit in modified UTF-8 tells: how many bytes there are, and the
/// bits that it gives (JVMS 4.4.7).
#[derive(Clone, Copy)]
pub enum Lead {
    One(u8),
    Two(u8),
    Three(u8),
}

/// A part of a file's bytes. In a contract it is the list of them.
#[derive(Drop)]
pub struct Bytes<'a> {
    bytes: &'a [u8],
}

impl<'a> Model for Bytes<'a> {
    ghost use Rattle.std.specs.Prelude.{List, ℕ};

    ghost Value = { List ℕ };

    ghost view = { λ b. b.bytes.now };
}

impl<'a> Bytes<'a> {
    /// These bytes.
    pub fn new(bytes: &'a [u8]) -> Bytes<'a>
        ensures { result ≡ bytes.now }
    {
        Bytes { bytes }
    }

    /// The bytes as a slice.
    pub fn as_slice(&self) -> &'a [u8]
        ensures { result.now ≡ self.now }
    {
        self.bytes
    }
}

/// An entry as its bytes spell it, before its text and its indexes are looked at.
#[derive(Drop)]
pub enum RawEntry<'a> {
    /// The bytes of a text in modified UTF-8.
    Utf8(Bytes<'a>),
    Integer(i32),
    Long(i64),
    /// The index of the name.
    Class(u16),
    /// The index of the text.
    String(u16),
    /// The indexes of the class and of the name with its type.
    Fieldref(u16, u16),
    /// The indexes of the class and of the name with its type.
    Methodref(u16, u16),
    /// The indexes of the interface and of the name with its type.
    InterfaceMethodref(u16, u16),
    /// The indexes of the name and of the descriptor.
    NameAndType(u16, u16),
    /// The second place of a long.
    Unusable,
}

/// An entry of the constant pool (JVMS 4.4). Each index in it names an entry of the kind that its
/// place needs.
#[derive(Drop)]
pub enum Entry {
    /// The UTF-16 code units of a text (JVMS 4.4.7).
    Utf8(Sequence<u16>),
    /// JVMS 4.4.4.
    Integer(i32),
    /// JVMS 4.4.5. The index after it is unusable.
    Long(i64),
    /// The index of the name (JVMS 4.4.1).
    Class(u16),
    /// The index of the text (JVMS 4.4.3).
    String(u16),
    /// The indexes of the class and of the name with its type (JVMS 4.4.2).
    Fieldref(u16, u16),
    /// The indexes of the class and of the name with its type (JVMS 4.4.2).
    Methodref(u16, u16),
    /// The indexes of the interface and of the name with its type (JVMS 4.4.2).
    InterfaceMethodref(u16, u16),
    /// The indexes of the name and of the descriptor (JVMS 4.4.6).
    NameAndType(u16, u16),
    /// The second place of a long.
    Unusable,
}

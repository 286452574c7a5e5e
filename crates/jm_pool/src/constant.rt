// Constants (JVMS 4.4), each as one entry of the pool has it.

ghost use Rattle.std.specs.Prelude.{◌≡◌, ◌++◌, ◌∷◌, true, length, OnOk};
ghost use Rattle.std.specs.Int.{w16, to_be_bytes};
ghost use Rattle.jm_pool.specs.Building.{entry_for, places, fits_length, entry_bytes};

use crate::text_writing::{put_text, text_length};
use jm_bytes::{put_s4, put_s8, put_u1, put_u2};
use jm_program::Name;
use std::alloc::AllocError;

/// What an entry of the constant pool stands for (JVMS 4.4, table 4.4-A). Each index names an entry
/// of the pool that the constant is for.
#[derive(PartialEq, Eq, Hash)]
pub enum Constant {
    /// The UTF-16 code units of a text (JVMS 4.4.7).
    Utf8(Name),
    /// JVMS 4.4.4.
    Integer(i32),
    /// JVMS 4.4.5. It takes two indexes.
    Long(i64),
    /// The index of the name (JVMS 4.4.1).
    Class(u16),
    /// The index of the text (JVMS 4.4.3).
    String(u16),
    /// The indexes of the class and of the name with its type (JVMS 4.4.2).
    Fieldref(u16, u16),
    /// The indexes of the class and of the name with its type (JVMS 4.4.2).
    Methodref(u16, u16),
    /// The indexes of the interface and of the name with its type (JVMS 4.4.2).
    InterfaceMethodref(u16, u16),
    /// The indexes of the name and of the descriptor (JVMS 4.4.6).
    NameAndType(u16, u16),
}

// Written out, so that whoever lets go of one makes a call (docs/DECISIONS.md).
impl Drop for Constant {
    fn drop(self) {
        match self {
            Constant::Utf8(_)
            | Constant::Integer(_)
            | Constant::Long(_)
            | Constant::Class(_)
            | Constant::String(_)
            | Constant::Fieldref(_, _)
            | Constant::Methodref(_, _)
            | Constant::InterfaceMethodref(_, _)
            | Constant::NameAndType(_, _) => {}
        }
    }
}

impl Constant {
    /// Whether a text has at most 65,535 bytes (JVMS 4.4.7).
    #[tactic(auto, unfolding(crate::specs::Building::fits_length, crate::specs::Building::u2_of))]
    pub(crate) fn fits_length(&self) -> bool
        ensures { result ≡ fits_length self.now }
    {
        match self {
            Constant::Utf8(text) => text_length(text.units()).is_some(),
            _ => true,
        }
    }

    /// How many indexes its entry takes: two for a long, else one (JVMS 4.4.5).
    #[tactic(auto, unfolding(crate::specs::Building::places, crate::specs::Building::behind))]
    pub(crate) fn size(&self) -> u16
        ensures { result ≡ length (places self.now) }
    {
        match self {
            Constant::Long(_) => 2,
            _ => 1,
        }
    }

    /// Puts the entry's tag and what stands behind it (JVMS 4.4.1 to 4.4.7) at the end.
    ///
    /// # Errors
    /// `AllocError` where a growth was refused; some of the bytes are then put.
    #[tactic(auto, using(std::proofs::lemmas::List::append_assoc), unfolding(crate::specs::Building::fits_length, crate::specs::Building::entry_for, crate::specs::Building::entry_bytes, crate::specs::Building::u2_of))]
    pub(crate) fn put(&self, out: &mut Vec<u8>) -> Result<(), AllocError>
        requires { fits_length self.now ≡ true }
        ensures { OnOk result (out.new.items ≡ out.old.items ++ entry_bytes (entry_for self.now)) }
    {
        match self {
            Constant::Utf8(text) => {
                let length = text_length(text.units()).unwrap();
                put_u1(out, 1)?;
                put_u2(out, length)?;
                put_text(out, text.units())
            }
            Constant::Integer(number) => {
                put_u1(out, 3)?;
                put_s4(out, *number)
            }
            Constant::Long(number) => {
                put_u1(out, 5)?;
                put_s8(out, *number)
            }
            Constant::Class(name) => put_index(out, 7, *name),
            Constant::String(text) => put_index(out, 8, *text),
            Constant::Fieldref(class, name_and_type) => {
                put_indexes(out, 9, *class, *name_and_type)
            }
            Constant::Methodref(class, name_and_type) => {
                put_indexes(out, 10, *class, *name_and_type)
            }
            Constant::InterfaceMethodref(interface, name_and_type) => {
                put_indexes(out, 11, *interface, *name_and_type)
            }
            Constant::NameAndType(name, descriptor) => put_indexes(out, 12, *name, *descriptor),
        }
    }
}

// Puts a tag and an index at the end.
#[tactic(auto, using(std::proofs::lemmas::List::append_assoc))]
fn put_index(out: &mut Vec<u8>, tag: u8, index: u16) -> Result<(), AllocError>
    ensures { OnOk result (out.new.items ≡ out.old.items ++ tag ∷ to_be_bytes w16 index) }
{
    put_u1(out, tag)?;
    put_u2(out, index)
}

// Puts a tag and two indexes at the end.
#[tactic(auto, using(std::proofs::lemmas::List::append_assoc))]
fn put_indexes(out: &mut Vec<u8>, tag: u8, first: u16, second: u16) -> Result<(), AllocError>
    ensures { OnOk result (out.new.items ≡ out.old.items ++ tag ∷ to_be_bytes w16 first ++ to_be_bytes w16 second) }
{
    put_u1(out, tag)?;
    put_u2(out, first)?;
    put_u2(out, second)
}

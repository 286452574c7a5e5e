// The indexes in the entries of a constant pool, each of an entry of the kind that its place needs
// (JVMS 4.4).

ghost use Rattle.std.specs.Prelude.{◌≡◌, List};
ghost use Rattle.std.specs.Option.{option_copied};
ghost use Rattle.jm_bytes.specs.Reading.{GivesAll, TakesAll, each};
ghost use Rattle.jm_class_format.specs.declared.fault.PoolFault.TheVariants.{OutOfMemory};
ghost use Rattle.jm_class_format.specs.PoolEntries.{raw_at, text_index, class_index, name_and_type_index, member_indexes, entry_of};

use crate::text_reading::code_units;
use jm_class_format::{Entry, PoolFault, RawEntry};
use jm_program::Sequence;
use std::alloc::Global;

// The entry that an index names, from 1 on.
fn raw_at<'b, 'a>(entries: &'b [RawEntry<'a>], index: u16) -> Option<&'b RawEntry<'a>>
    ensures { option_copied result ≡ raw_at entries.now index }
{
    if index == 0 {
        return None;
    }
    entries.get(index as usize - 1)
}

// The index itself, where it names a text.
#[tactic(auto, unfolding(jm_class_format::specs::PoolEntries::text_index))]
fn text_index(entries: &[RawEntry<'_>], index: u16) -> Result<u16, PoolFault>
    ensures { TakesAll (λ i. i) result (text_index entries.now index) }
{
    match raw_at(entries, index) {
        Some(RawEntry::Utf8(_)) => Ok(index),
        _ => Err(PoolFault::BadIndex(index)),
    }
}

// The index itself, where it names a class.
#[tactic(auto, unfolding(jm_class_format::specs::PoolEntries::class_index))]
fn class_index(entries: &[RawEntry<'_>], index: u16) -> Result<u16, PoolFault>
    ensures { TakesAll (λ i. i) result (class_index entries.now index) }
{
    match raw_at(entries, index) {
        Some(RawEntry::Class(_)) => Ok(index),
        _ => Err(PoolFault::BadIndex(index)),
    }
}

// The index itself, where it names a name and type.
#[tactic(auto, unfolding(jm_class_format::specs::PoolEntries::name_and_type_index))]
fn name_and_type_index(entries: &[RawEntry<'_>], index: u16) -> Result<u16, PoolFault>
    ensures { TakesAll (λ i. i) result (name_and_type_index entries.now index) }
{
    match raw_at(entries, index) {
        Some(RawEntry::NameAndType(_, _)) => Ok(index),
        _ => Err(PoolFault::BadIndex(index)),
    }
}

// The indexes of a member's class, and of its name and type.
#[tactic(auto, unfolding(jm_class_format::specs::PoolEntries::member_indexes))]
fn member_indexes(
    entries: &[RawEntry<'_>],
    class: u16,
    name_and_type: u16,
) -> Result<(u16, u16), PoolFault>
    ensures { TakesAll (λ i. i) result (member_indexes entries.now class name_and_type) }
{
    let class = class_index(entries, class)?;
    let name_and_type = name_and_type_index(entries, name_and_type)?;
    Ok((class, name_and_type))
}

// The entry with its text read and its indexes looked at.
#[tactic(auto, unfolding(jm_class_format::specs::PoolEntries::entry_of))]
fn entry_of(alloc: Global, entries: &[RawEntry<'_>], raw: &RawEntry<'_>) -> Result<Entry, PoolFault>
    ensures { GivesAll (λ e. e) OutOfMemory result (entry_of entries.now raw.now) }
{
    match raw {
        RawEntry::Utf8(bytes) => {
            let units = code_units(alloc, bytes.as_slice())?;
            Ok(Entry::Utf8(Sequence::new(units)))
        }
        RawEntry::Integer(number) => Ok(Entry::Integer(*number)),
        RawEntry::Long(number) => Ok(Entry::Long(*number)),
        RawEntry::Class(name) => {
            let name = text_index(entries, *name)?;
            Ok(Entry::Class(name))
        }
        RawEntry::String(text) => {
            let text = text_index(entries, *text)?;
            Ok(Entry::String(text))
        }
        RawEntry::Fieldref(class, name_and_type) => {
            let member = member_indexes(entries, *class, *name_and_type)?;
            Ok(Entry::Fieldref(member.0, member.1))
        }
        RawEntry::Methodref(class, name_and_type) => {
            let member = member_indexes(entries, *class, *name_and_type)?;
            Ok(Entry::Methodref(member.0, member.1))
        }
        RawEntry::InterfaceMethodref(interface, name_and_type) => {
            let member = member_indexes(entries, *interface, *name_and_type)?;
            Ok(Entry::InterfaceMethodref(member.0, member.1))
        }
        RawEntry::NameAndType(name, descriptor) => {
            let name = text_index(entries, *name)?;
            let descriptor = text_index(entries, *descriptor)?;
            Ok(Entry::NameAndType(name, descriptor))
        }
        RawEntry::Unusable => Ok(Entry::Unusable),
    }
}

/// The entries with their texts read and their indexes looked at, in the order of the indexes.
#[tactic(auto, using(jm_bytes::proofs::Loops::each_steps))]
pub fn entries_of(alloc: Global, raws: &[RawEntry<'_>]) -> Result<Vec<Entry>, PoolFault>
    ensures { GivesAll (λ v. v.items) OutOfMemory result (each (entry_of raws.now) raws.now) }
{
    let mut entries = Vec::with_capacity(alloc, raws.len())?;
    for raw in raws {
        let entry = entry_of(alloc, raws, raw)?;
        entries.push(entry)?;
    }
    Ok(entries)
}

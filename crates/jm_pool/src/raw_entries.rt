// The entries of a constant pool as their bytes give them, before their indexes are looked at
// (JVMS 4.4).

ghost use Rattle.std.specs.Prelude.{◌≡◌, List, []};
ghost use Rattle.jm_bytes.specs.Reading.{Gives, Takes};
ghost use Rattle.jm_bytes.specs.Format.{Format, repeated};
ghost use Rattle.jm_class_format.specs.declared.fault.PoolFault.TheVariants.{OutOfMemory};
ghost use Rattle.jm_class_format.specs.PoolEntries.{tag_at, info, raw_entry, placed, next_place, ends_in_long};

use jm_bytes::Reader;
use jm_class_format::{Bytes, PoolFault, RawEntry, Tag};
use std::alloc::Global;

// The kind of entry that a tag byte tells.
#[tactic(auto, unfolding(jm_class_format::specs::PoolEntries::tag_at))]
fn tag_of(byte: u8) -> Option<Tag>
    ensures { result ≡ tag_at byte }
{
    match byte {
        1 => Some(Tag::Utf8),
        3 => Some(Tag::Integer),
        5 => Some(Tag::Long),
        7 => Some(Tag::Class),
        8 => Some(Tag::String),
        9 => Some(Tag::Fieldref),
        10 => Some(Tag::Methodref),
        11 => Some(Tag::InterfaceMethodref),
        12 => Some(Tag::NameAndType),
        _ => None,
    }
}

// What stands behind a tag.
#[tactic(auto, unfolding(jm_class_format::specs::PoolEntries::info))]
fn info_of<'a>(tag: Tag, reader: &mut Reader<'a>) -> Result<RawEntry<'a>, PoolFault>
    ensures { Takes result reader.new ((info tag).read reader.old) }
{
    match tag {
        Tag::Utf8 => {
            let length = reader.u2()?;
            let bytes = reader.take(length as usize)?;
            Ok(RawEntry::Utf8(Bytes::new(bytes)))
        }
        Tag::Integer => {
            let number = reader.s4()?;
            Ok(RawEntry::Integer(number))
        }
        Tag::Long => {
            let number = reader.s8()?;
            Ok(RawEntry::Long(number))
        }
        Tag::Class => {
            let name = reader.u2()?;
            Ok(RawEntry::Class(name))
        }
        Tag::String => {
            let text = reader.u2()?;
            Ok(RawEntry::String(text))
        }
        Tag::Fieldref => {
            let class = reader.u2()?;
            let name_and_type = reader.u2()?;
            Ok(RawEntry::Fieldref(class, name_and_type))
        }
        Tag::Methodref => {
            let class = reader.u2()?;
            let name_and_type = reader.u2()?;
            Ok(RawEntry::Methodref(class, name_and_type))
        }
        Tag::InterfaceMethodref => {
            let interface = reader.u2()?;
            let name_and_type = reader.u2()?;
            Ok(RawEntry::InterfaceMethodref(interface, name_and_type))
        }
        Tag::NameAndType => {
            let name = reader.u2()?;
            let descriptor = reader.u2()?;
            Ok(RawEntry::NameAndType(name, descriptor))
        }
    }
}

#[tactic(auto, unfolding(jm_class_format::specs::PoolEntries::raw_entry))]
fn raw_entry_of<'a>(reader: &mut Reader<'a>) -> Result<RawEntry<'a>, PoolFault>
    ensures { Takes result reader.new (raw_entry.read reader.old) }
{
    let byte = reader.u1()?;
    let Some(tag) = tag_of(byte) else {
        return Err(PoolFault::BadTag(byte));
    };
    let entry = info_of(tag, reader)?;
    Ok(entry)
}

/// Whether the last entry is a long, so that the next index is unusable (JVMS 4.4.5).
#[tactic(auto, unfolding(jm_class_format::specs::PoolEntries::ends_in_long))]
pub fn ends_in_long(entries: &[RawEntry<'_>]) -> bool
    ensures { result ≡ ends_in_long entries.now }
{
    match entries.last() {
        Some(RawEntry::Long(_)) => true,
        _ => false,
    }
}

// The entries of one index more.
#[tactic(auto, unfolding(jm_class_format::specs::PoolEntries::next_place, jm_class_format::specs::PoolEntries::placed))]
fn next_place<'a>(
    mut entries: Vec<RawEntry<'a>>,
    reader: &mut Reader<'a>,
) -> Result<Vec<RawEntry<'a>>, PoolFault>
    ensures { Gives (λ v. v.items) OutOfMemory result reader.new ((next_place entries.entry.items).read reader.old) }
{
    if ends_in_long(&entries) {
        entries.push(RawEntry::Unusable)?;
    } else {
        let next = raw_entry_of(reader)?;
        entries.push(next)?;
    }
    Ok(entries)
}

/// The entries of so many indexes, in the order of their bytes.
#[tactic(auto, using(jm_bytes::proofs::Loops::repeated_steps))]
pub fn raw_entries_of<'a>(
    alloc: Global,
    indexes: u16,
    reader: &mut Reader<'a>,
) -> Result<Vec<RawEntry<'a>>, PoolFault>
    ensures { Gives (λ v. v.items) OutOfMemory result reader.new ((repeated indexes next_place []).read reader.old) }
{
    // an entry takes three bytes or more, a long with its second place nine
    let most = reader.len() / 3;
    let mut entries = Vec::with_capacity(alloc, most.min(indexes as usize))?;
    for _ in 0..indexes {
        entries = next_place(entries, reader)?;
    }
    Ok(entries)
}

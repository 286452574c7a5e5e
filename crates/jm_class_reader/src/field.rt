// Fields (JVMS 4.5) with their ConstantValue (JVMS 4.7.2).

ghost use Rattle.std.specs.Prelude.{◌≡◌, IfOk};
ghost use Rattle.jm_bytes.specs.Reading.{Gives, GivesAll, Takes, TakesAs};
ghost use Rattle.jm_pool.specs.Texts.{Stands};
ghost use Rattle.jm_class_format.specs.declared.read_fault.ReadFault.TheVariants.{OutOfMemory, Cut};
ghost use Rattle.jm_class_format.specs.PoolLookups.{entry_at};
ghost use Rattle.jm_class_format.specs.CodeAttribute.{whole_info};
ghost use Rattle.jm_class_format.specs.Members.{flags, text, constant_of, constant_value, field_attribute_info, field_attribute, field_attributes, field_name, field_type, field, fields};

use crate::attribute::{attribute_name, info};
use crate::named_code::{bad_index, text_at};
use crate::symbols::{NameKind, Symbols};
use jm_bytes::Reader;
use jm_class_format::{Entry, ReadFault};
use jm_pool::{Pool, Text};
use jm_program::{AccessFlags, Constant, Field, FieldType, Name, is_text};
use std::alloc::Global;

/// The access flags, whichever they are.
#[tactic(auto, unfolding(jm_class_format::specs::Members::flags))]
pub fn flags(reader: &mut Reader<'_>) -> Result<AccessFlags, ReadFault>
    ensures { Takes result reader.new (flags.read reader.old) }
{
    let bits = reader.u2()?;
    Ok(AccessFlags { bits })
}

/// The text that the next index names.
#[tactic(auto, unfolding(jm_class_format::specs::Members::text, jm_class_format::specs::CodeAttribute::attribute_name))]
pub fn text<'p>(pool: &'p Pool, reader: &mut Reader<'_>) -> Result<Text<'p>, ReadFault>
    ensures given { TakesAs (λ text. text.units.now) result reader.new ((text pool.now).read reader.old) }
    ensures stands { IfOk result (Stands pool.now) }
{
    let index = reader.u2()?;
    text_at(pool, index)
}

// ---- the value that a static field begins with

// The entry that a ConstantValue names (JVMS 4.7.2, table 4.7.2-A).
#[tactic(auto, unfolding(jm_class_format::specs::Members::constant_of))]
fn constant_of(alloc: Global, symbols: &mut Symbols<'_>, index: u16) -> Result<Constant, ReadFault>
    ensures given { GivesAll (λ constant. constant) OutOfMemory result (constant_of symbols.old index (entry_at symbols.old index)) }
    ensures same { symbols.new ≡ symbols.old }
{
    match symbols.pool().entry(index) {
        Some(Entry::Integer(number)) => Ok(Constant::Int(*number)),
        Some(Entry::Long(number)) => Ok(Constant::Long(*number)),
        Some(Entry::String(text)) => {
            let text = text_at(symbols.pool(), *text)?;
            let units = symbols.string(alloc, text)?;
            Ok(Constant::String(units))
        }
        _ => Err(bad_index(index)),
    }
}

// A constant of the field's type.
#[tactic(auto, unfolding(jm_class_format::specs::Members::constant_value))]
fn constant_value(
    alloc: Global,
    symbols: &mut Symbols<'_>,
    field_type: &FieldType,
    reader: &mut Reader<'_>,
) -> Result<Constant, ReadFault>
    ensures given { Gives (λ constant. constant) OutOfMemory result reader.new ((constant_value symbols.old field_type.now).read reader.old) }
    ensures same { symbols.new ≡ symbols.old }
{
    let Ok(index) = reader.u2() else {
        return Err(ReadFault::BadAttribute);
    };
    let value = constant_of(alloc, symbols, index)?;
    if field_type.dimensions == 0 && value.is_of(&field_type.element) {
        Ok(value)
    } else {
        Err(ReadFault::BadAttribute)
    }
}

// The constant that all of an attribute's bytes spell, after their length.
#[tactic(auto, using(crate::proofs::Attributes::whole_info_steps))]
fn whole_constant(
    alloc: Global,
    symbols: &mut Symbols<'_>,
    field_type: &FieldType,
    reader: &mut Reader<'_>,
) -> Result<Constant, ReadFault>
    ensures given { Gives (λ constant. constant) OutOfMemory result reader.new ((whole_info Cut (constant_value symbols.old field_type.now)).read reader.old) }
    ensures same { symbols.new ≡ symbols.old }
{
    let bytes = info(ReadFault::Cut, reader)?;
    let mut inside = Reader::new(bytes);
    let value = constant_value(alloc, symbols, field_type, &mut inside)?;
    if !inside.is_empty() {
        return Err(ReadFault::BadAttribute);
    }
    Ok(value)
}

// The first ConstantValue, or what was found before where the attribute is skipped.
#[tactic(auto, unfolding(jm_class_format::specs::Members::field_attribute_info))]
fn field_attribute_info(
    alloc: Global,
    symbols: &mut Symbols<'_>,
    field_type: &FieldType,
    found: Option<Constant>,
    is_value: bool,
    reader: &mut Reader<'_>,
) -> Result<Option<Constant>, ReadFault>
    ensures given { Gives (λ found. found) OutOfMemory result reader.new ((field_attribute_info symbols.old field_type.now found is_value).read reader.old) }
    ensures same { symbols.new ≡ symbols.old }
{
    if is_value {
        let is_second = found.is_some();
        drop(found);
        if is_second {
            return Err(ReadFault::BadAttribute);
        }
        let value = whole_constant(alloc, symbols, field_type, reader)?;
        Ok(Some(value))
    } else {
        match info(ReadFault::Cut, reader) {
            Ok(_) => Ok(found),
            Err(fault) => {
                drop(found);
                Err(fault)
            }
        }
    }
}

// One attribute more; a ConstantValue of an instance field is skipped.
#[tactic(auto, unfolding(jm_class_format::specs::Members::field_attribute))]
fn field_attribute(
    alloc: Global,
    symbols: &mut Symbols<'_>,
    access: AccessFlags,
    field_type: &FieldType,
    found: Option<Constant>,
    reader: &mut Reader<'_>,
) -> Result<Option<Constant>, ReadFault>
    ensures given { Gives (λ found. found) OutOfMemory result reader.new ((field_attribute symbols.old access field_type.now found).read reader.old) }
    ensures same { symbols.new ≡ symbols.old }
{
    let name = attribute_name(ReadFault::Cut, symbols.pool(), reader)?;
    let is_value = access.has(AccessFlags::STATIC) && is_text(name, b"ConstantValue");
    field_attribute_info(alloc, symbols, field_type, found, is_value, reader)
}

// What the field begins with, its attributes' count first.
#[tactic(auto, unfolding(jm_class_format::specs::Members::field_attributes), using(jm_bytes::proofs::Loops::repeated_steps))]
fn field_attributes(
    alloc: Global,
    symbols: &mut Symbols<'_>,
    access: AccessFlags,
    field_type: &FieldType,
    reader: &mut Reader<'_>,
) -> Result<Option<Constant>, ReadFault>
    ensures given { Gives (λ found. found) OutOfMemory result reader.new ((field_attributes symbols.old access field_type.now).read reader.old) }
    ensures same { symbols.new ≡ symbols.old }
{
    let count = reader.u2()?;
    let mut found = None;
    for _ in 0..count {
        found = field_attribute(alloc, symbols, access, field_type, found, reader)?;
    }
    Ok(found)
}

// ---- the field

#[tactic(auto, unfolding(jm_class_format::specs::Members::field_name))]
fn field_name(
    alloc: Global,
    symbols: &mut Symbols<'_>,
    reader: &mut Reader<'_>,
) -> Result<Name, ReadFault>
    ensures given { Gives (λ name. name) OutOfMemory result reader.new ((field_name symbols.old).read reader.old) }
    ensures same { symbols.new ≡ symbols.old }
{
    let text = text(symbols.pool(), reader)?;
    symbols.name(alloc, NameKind::Field, text)
}

#[tactic(auto, unfolding(jm_class_format::specs::Members::field_type))]
fn field_type(
    alloc: Global,
    symbols: &mut Symbols<'_>,
    reader: &mut Reader<'_>,
) -> Result<FieldType, ReadFault>
    ensures given { Gives (λ t. t) OutOfMemory result reader.new ((field_type symbols.old).read reader.old) }
    ensures same { symbols.new ≡ symbols.old }
{
    let text = text(symbols.pool(), reader)?;
    symbols.field_type(alloc, text)
}

#[tactic(auto, unfolding(jm_class_format::specs::Members::field))]
fn field(
    alloc: Global,
    symbols: &mut Symbols<'_>,
    reader: &mut Reader<'_>,
) -> Result<Field, ReadFault>
    ensures given { Gives (λ field. field) OutOfMemory result reader.new ((field symbols.old).read reader.old) }
    ensures same { symbols.new ≡ symbols.old }
{
    let flags = flags(reader)?;
    let name = field_name(alloc, symbols, reader)?;
    let descriptor = match field_type(alloc, symbols, reader) {
        Ok(descriptor) => descriptor,
        Err(fault) => {
            drop(name);
            return Err(fault);
        }
    };
    match field_attributes(alloc, symbols, flags, &descriptor, reader) {
        Ok(constant) => Ok(Field {
            flags,
            name,
            descriptor,
            constant,
        }),
        Err(fault) => {
            drop(name);
            drop(descriptor);
            Err(fault)
        }
    }
}

/// The fields of a class, their count first.
#[tactic(auto, unfolding(jm_class_format::specs::Members::fields), using(jm_bytes::proofs::Loops::many_steps))]
pub fn fields(
    alloc: Global,
    symbols: &mut Symbols<'_>,
    reader: &mut Reader<'_>,
) -> Result<Vec<Field>, ReadFault>
    ensures given { Gives (λ v. v.items) OutOfMemory result reader.new ((fields symbols.old).read reader.old) }
    ensures same { symbols.new ≡ symbols.old }
{
    let count = reader.u2()?;
    let mut fields = Vec::new(alloc);
    for _ in 0..count {
        let field = field(alloc, symbols, reader)?;
        fields.push(field)?;
    }
    Ok(fields)
}

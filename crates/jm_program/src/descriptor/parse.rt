// Descriptors from the code units of their text, without recursion.

ghost use Rattle.std.specs.Prelude.{◌≡◌, ◌≤◌, [], ◌∷◌, length, MatchOption};
ghost use Rattle.std.specs.List.{prefix_len, position_or_len};
ghost use Rattle.jm_program.specs.DescriptorReading.{base_of, is_semicolon, is_bracket, class_at, letter_at, element_at, field_at, parameters_at, whole_field, whole_return, whole_method, whole_descriptor};
ghost use Rattle.jm_program.specs.DescriptorFaults.{GivesShape, GivesFront};

use crate::descriptor::{BaseType, Descriptor, ElementType, FieldType, MethodDescriptor};
use crate::fault::DescriptorFault;
use crate::limits::MAX_DIMENSIONS;
use crate::name::Name;
use crate::sequence::Sequence;
use crate::shared::Shared;
use crate::text::code_units;
use std::alloc::Global;

const OPEN: u16 = 40;

const CLOSE: u16 = 41;

const SEMICOLON: u16 = 59;

const CLASS: u16 = 76;

const VOID: u16 = 86;

const BRACKET: u16 = 91;

// The type of a letter.
#[tactic(auto, unfolding(crate::specs::DescriptorReading::base_of))]
fn base_of(letter: u16) -> Option<BaseType>
    ensures { result ≡ base_of letter }
{
    match letter {
        66 => Some(BaseType::Byte),
        67 => Some(BaseType::Char),
        68 => Some(BaseType::Double),
        70 => Some(BaseType::Float),
        73 => Some(BaseType::Int),
        74 => Some(BaseType::Long),
        83 => Some(BaseType::Short),
        90 => Some(BaseType::Boolean),
        _ => None,
    }
}

// How many [ stand at the front.
fn dimensions_at(units: &[u16]) -> usize
    ensures value { result ≡ prefix_len is_bracket units.now }
    ensures within { result ≤ length units.now }
{
    let mut dimensions = 0;
    for unit in units {
        if *unit != BRACKET {
            return dimensions;
        }
        dimensions += 1;
    }
    dimensions
}

// Where the first ; stands, or how many code units there are.
fn semicolon_at(units: &[u16]) -> usize
    ensures { result ≡ position_or_len is_semicolon units.now }
{
    let mut at = 0;
    for unit in units {
        if *unit == SEMICOLON {
            return at;
        }
        at += 1;
    }
    at
}

// The name of a class up to the first ;, and what follows.
#[tactic(auto, unfolding(crate::specs::DescriptorReading::class_at))]
fn class_at(alloc: Global, units: &[u16]) -> Result<(ElementType, &[u16]), DescriptorFault>
    ensures { GivesFront (λ x. (x.0, x.1.now)) result (class_at units.now) }
{
    let end = semicolon_at(units);
    if units.len() <= end {
        return Err(DescriptorFault::BadDescriptor);
    }
    let name = Name::shared(alloc, &units[..end])?;
    Ok((ElementType::Class(name), &units[end + 1..]))
}

// The type of a letter, and what follows.
#[tactic(auto, unfolding(crate::specs::DescriptorReading::letter_at))]
fn letter_at(letter: u16, units: &[u16]) -> Result<(ElementType, &[u16]), DescriptorFault>
    ensures { GivesFront (λ x. (x.0, x.1.now)) result (letter_at letter units.now) }
{
    match base_of(letter) {
        Some(base) => Ok((ElementType::Base(base), units)),
        None => Err(DescriptorFault::BadDescriptor),
    }
}

// A letter, or L and a name, and what follows.
#[tactic(auto, unfolding(crate::specs::DescriptorReading::element_at))]
fn element_at(alloc: Global, units: &[u16]) -> Result<(ElementType, &[u16]), DescriptorFault>
    ensures { GivesFront (λ x. (x.0, x.1.now)) result (element_at units.now) }
{
    match units {
        [] => Err(DescriptorFault::BadDescriptor),
        [letter, rest @ ..] => {
            if *letter == CLASS {
                class_at(alloc, rest)
            } else {
                letter_at(*letter, rest)
            }
        }
    }
}

// A field type, and what follows.
#[tactic(auto, unfolding(crate::specs::DescriptorReading::field_at))]
fn field_at(alloc: Global, units: &[u16]) -> Result<(FieldType, &[u16]), DescriptorFault>
    ensures { GivesFront (λ x. (x.0, x.1.now)) result (field_at units.now) }
{
    let dimensions = dimensions_at(units);
    if MAX_DIMENSIONS < dimensions {
        return Err(DescriptorFault::BadDescriptor);
    }
    let (element, rest) = element_at(alloc, &units[dimensions..])?;
    let field_type = FieldType {
        dimensions: dimensions as u8,
        element,
    };
    Ok((field_type, rest))
}

// The code unit at the front, and what follows.
fn next_unit(units: &[u16]) -> Option<(u16, &[u16])>
    ensures { MatchOption result (units.now ≡ []) (λ x. units.now ≡ x.0 ∷ x.1.now) }
{
    let (first, others) = units.split_first()?;
    Some((*first, others))
}

// The parameters up to the ), and what follows it.
fn parameters_at(alloc: Global, units: &[u16]) -> Result<(Vec<FieldType>, &[u16]), DescriptorFault>
    ensures { GivesFront (λ x. (x.0.items, x.1.now)) result (parameters_at (length units.now) units.now) }
{
    let mut parameters = Vec::new(alloc);
    let mut rest = units;
    while let Some((first, others)) = next_unit(rest) {
        if first == CLOSE {
            return Ok((parameters, others));
        }
        match field_at(alloc, rest) {
            Ok((parameter, after)) => {
                parameters.push(parameter)?;
                rest = after;
            }
            Err(fault) => return Err(fault),
        }
    }
    Err(DescriptorFault::BadDescriptor)
}

// A field type and nothing after it.
#[tactic(auto, unfolding(crate::specs::DescriptorReading::whole_field))]
fn whole_field(alloc: Global, units: &[u16]) -> Result<FieldType, DescriptorFault>
    ensures { GivesShape result (whole_field units.now) }
{
    let (field_type, rest) = field_at(alloc, units)?;
    if rest.is_empty() {
        Ok(field_type)
    } else {
        Err(DescriptorFault::BadDescriptor)
    }
}

// V or a field type, and nothing after it.
#[tactic(auto, unfolding(crate::specs::DescriptorReading::whole_return))]
fn whole_return(alloc: Global, units: &[u16]) -> Result<Option<FieldType>, DescriptorFault>
    ensures { GivesShape result (whole_return units.now) }
{
    match units {
        [] => Err(DescriptorFault::BadDescriptor),
        [first, rest @ ..] => {
            if *first != VOID {
                return Ok(Some(whole_field(alloc, units)?));
            }
            if rest.is_empty() {
                Ok(None)
            } else {
                Err(DescriptorFault::BadDescriptor)
            }
        }
    }
}

// The parameters, the ) and the result, and nothing after it.
#[tactic(auto, unfolding(crate::specs::DescriptorReading::whole_method))]
fn whole_method(alloc: Global, units: &[u16]) -> Result<MethodDescriptor, DescriptorFault>
    ensures { GivesShape result (whole_method units.now) }
{
    let (parameters, rest) = parameters_at(alloc, units)?;
    let return_type = whole_return(alloc, rest)?;
    let descriptor = MethodDescriptor {
        parameters: Shared::new(alloc, Sequence::new(parameters))?,
        return_type,
    };
    match descriptor.argument_slots() {
        Some(_) => Ok(descriptor),
        None => Err(DescriptorFault::BadDescriptor),
    }
}

// A field type or a method type, whatever its names are.
#[tactic(auto, unfolding(crate::specs::DescriptorReading::whole_descriptor))]
fn whole_descriptor(alloc: Global, units: &[u16]) -> Result<Descriptor, DescriptorFault>
    ensures { GivesShape result (whole_descriptor units.now) }
{
    match units {
        [] => Err(DescriptorFault::BadDescriptor),
        [first, rest @ ..] => {
            if *first == OPEN {
                Ok(Descriptor::Method(whole_method(alloc, rest)?))
            } else {
                Ok(Descriptor::Field(whole_field(alloc, units)?))
            }
        }
    }
}

impl Descriptor {
    ghost use Rattle.std.specs.Prelude.{List, ℕ, IfOk};
    ghost use Rattle.jm_program.specs.Descriptors.{is_descriptor, HasShape};
    ghost use Rattle.jm_program.specs.DescriptorFaults.{Parses, NamesOf};
    ghost use Rattle.jm_program.specs.Texts.{utf16_of};
    ghost use Rattle.jm_program.specs.declared.descriptor.Descriptor.{Descriptor};

    /// Whether each name is the name of a class, and the arguments of a method take at most 255
    /// slots (JVMS 4.3).
    pub fn is_descriptor(&self) -> bool
        ensures { result ≡ is_descriptor self.now }
    {
        match self {
            Descriptor::Field(field_type) => field_type.is_field_type(),
            Descriptor::Method(method) => method.is_method_type(),
        }
    }

    /// The descriptor that the UTF-16 code units spell (JVMS 4.3): a field type, or a method type
    /// with at most 255 argument slots, a long or a double taking two.
    ///
    /// `BadDescriptor` comes exactly where they have the shape of no descriptor, `BadName` where
    /// they have the shape of one around a name that is not the name of a class, and
    /// `OutOfMemory` where a growth was refused.
    pub fn parse_units(alloc: Global, units: &[u16]) -> Result<Descriptor, DescriptorFault>
        ensures { Parses units.now result }
    {
        match whole_descriptor(alloc, units) {
            Ok(descriptor) => descriptor.or_bad_name(),
            Err(fault) => Err(fault),
        }
    }

    /// The descriptor that the text spells, as [`Descriptor::parse_units`] of its UTF-16 code
    /// units.
    pub fn parse(alloc: Global, text: &str) -> Result<Descriptor, DescriptorFault>
        ensures { Parses (utf16_of text.now) result }
    {
        match code_units(alloc, text) {
            Ok(units) => Descriptor::parse_units(alloc, &units),
            Err(_) => Err(DescriptorFault::OutOfMemory),
        }
    }

    // The descriptor, if its names are names of classes.
    fn or_bad_name(self) -> Result<Descriptor, DescriptorFault>
        ensures { NamesOf self result }
    {
        if self.is_descriptor() {
            Ok(self)
        } else {
            Err(DescriptorFault::BadName)
        }
    }
}

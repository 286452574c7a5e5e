// Places of a program.

ghost use Rattle.std.specs.Prelude.{◌≡◌, ◌<◌, length, IfSome};
ghost use Rattle.jm_debug.specs.Commands.{Reads, method_type, first_of, last_of, member, place};
ghost use Rattle.jm_debug.specs.Answering.{model_place};

use crate::fault::DebugFault;
use crate::text::PlaceText;
use crate::word::{name, number};
use jm_program::{Descriptor, DescriptorFault, MethodDescriptor, Name};
use std::alloc::Global;

const BRACKET: u16 = 40;

const POINT: u16 = 46;

const COLON: u16 = 58;

/// An instruction of a method, as a command names it.
#[derive(Drop)]
pub struct Place {
    pub class: Name,
    pub method: Name,
    pub descriptor: MethodDescriptor,
    /// The number of the instruction, counted from 0.
    pub instruction: u64,
}

// Where the first unit of a kind stands.
fn first_of(unit: u16, units: &[u16]) -> Option<usize>
    ensures value { result ≡ first_of unit units.now }
    ensures within { IfSome result (λ at. at < length units.now) }
{
    units.iter().position(|other| *other == unit)
}

// Where the last one stands.
fn last_of(unit: u16, units: &[u16]) -> Option<usize>
    ensures value { result ≡ last_of unit units.now }
    ensures within { IfSome result (λ at. at < length units.now) }
{
    let mut found = None;
    for (index, other) in units.iter().enumerate() {
        if *other == unit {
            found = Some(index);
        }
    }
    found
}

// The type of a method.
fn method_type(alloc: Global, units: &[u16]) -> Result<MethodDescriptor, DebugFault>
    ensures { Reads result (method_type units.now) }
{
    match Descriptor::parse_units(alloc, units) {
        Ok(Descriptor::Method(descriptor)) => Ok(descriptor),
        Ok(Descriptor::Field(_)) => Err(DebugFault::BadCommand),
        Err(DescriptorFault::BadDescriptor) => Err(DebugFault::BadCommand),
        Err(DescriptorFault::BadName) => Err(DebugFault::BadCommand),
        Err(DescriptorFault::OutOfMemory) => Err(DebugFault::OutOfMemory),
    }
}

// METHODDESC, in a class and with an instruction.
fn member(
    alloc: Global,
    class: &[u16],
    units: &[u16],
    instruction: u64,
) -> Result<Place, DebugFault>
    ensures { Reads result (member class.now units.now instruction) }
{
    let Some(bracket) = first_of(BRACKET, units) else {
        return Err(DebugFault::BadCommand);
    };
    let class = name(alloc, class)?;
    let method = name(alloc, &units[..bracket])?;
    let descriptor = method_type(alloc, &units[bracket..])?;
    Ok(Place {
        class,
        method,
        descriptor,
        instruction,
    })
}

impl Place {
    /// The place, to be written.
    pub(crate) fn text(&self) -> PlaceText<'_>
        ensures { model_place result ≡ self.now }
    {
        PlaceText {
            class: &self.class,
            method: &self.method,
            descriptor: &self.descriptor,
            instruction: self.instruction,
        }
    }

    /// The place that a word names, CLASS.METHODDESC:N. `BadCommand`: it names none; `OutOfMemory`:
    /// a growth was refused.
    pub(crate) fn read(alloc: Global, units: &[u16]) -> Result<Place, DebugFault>
        ensures { Reads result (place units.now) }
    {
        let Some(colon) = last_of(COLON, units) else {
            return Err(DebugFault::BadCommand);
        };
        let instruction = number(&units[colon + 1..])?;
        let units = &units[..colon];
        let Some(point) = first_of(POINT, units) else {
            return Err(DebugFault::BadCommand);
        };
        member(alloc, &units[..point], &units[point + 1..], instruction)
    }
}

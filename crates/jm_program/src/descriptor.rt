// Descriptors (JVMS 4.3).

ghost use Rattle.std.specs.Prelude.{◌≡◌, ◌≤◌, ◌<◌, ◌^◌, ◌+◌, length, IfOk};
ghost use Rattle.std.specs.List.{list_all};
ghost use Rattle.jm_program.specs.Descriptors.{is_field_type, is_return_type, is_kept_field_type, is_kept_return_type};

mod parse;

use crate::limits::MAX_DIMENSIONS;
use crate::name::Name;
use crate::sequence::Sequence;
use crate::shared::Shared;
use std::alloc::{AllocError, Global};

/// A primitive type, by its letter `B C D F I J S Z` (JVMS 4.3.2).
#[derive(Clone, Copy, PartialEq, Eq, Hash)]
pub enum BaseType {
    Byte,
    Char,
    Double,
    Float,
    Int,
    Long,
    Short,
    Boolean,
}

/// What an array holds in its last dimension, or a type that is no array (JVMS 4.3.2).
#[derive(PartialEq, Eq)]
pub enum ElementType {
    Base(BaseType),
    /// A class or an interface.
    Class(Name),
}

// Written out, so that whoever lets go of one makes a call (docs/DECISIONS.md).
impl Drop for ElementType {
    fn drop(self) {
        match self {
            ElementType::Base(_) | ElementType::Class(_) => {}
        }
    }
}

/// The type of a field, a parameter or a result (JVMS 4.3.2).
#[derive(PartialEq, Eq)]
pub struct FieldType {
    /// How many `[` stand before the element: 0 for a type that is no array.
    pub dimensions: u8,
    pub element: ElementType,
}

// Written out, so that whoever lets go of one makes a call (docs/DECISIONS.md).
impl Drop for FieldType {
    fn drop(self) {
        let FieldType {
            dimensions: _,
            element: _,
        } = self;
    }
}

/// The type of a method (JVMS 4.3.3).
#[derive(PartialEq, Eq)]
pub struct MethodDescriptor {
    pub parameters: Shared<Sequence<FieldType>>,
    /// None for `V`.
    pub return_type: Option<FieldType>,
}

// Written out, so that whoever lets go of one makes a call (docs/DECISIONS.md).
impl Drop for MethodDescriptor {
    fn drop(self) {
        let MethodDescriptor {
            parameters: _,
            return_type: _,
        } = self;
    }
}

/// The type of a field or of a method (JVMS 4.3).
#[derive(PartialEq, Eq, Drop)]
pub enum Descriptor {
    Field(FieldType),
    Method(MethodDescriptor),
}

impl ElementType {
    ghost use Rattle.jm_program.specs.Descriptors.{element_slots, is_named_element, is_kept_element};

    // The slots of a value that is no array.
    fn slots(&self) -> u8
        ensures value { result ≡ element_slots self.now }
        ensures few { result ≤ 2 }
    {
        match self {
            ElementType::Base(BaseType::Long | BaseType::Double) => 2,
            _ => 1,
        }
    }

    // A copy, by [`Name::copy`].
    fn copy(&self, alloc: Global) -> Result<ElementType, AllocError>
        ensures { IfOk result (λ copy. copy ≡ self.now) }
    {
        match self {
            ElementType::Base(base) => Ok(ElementType::Base(*base)),
            ElementType::Class(name) => Ok(ElementType::Class(name.copy(alloc)?)),
        }
    }

    // Whether a name is the name of a class.
    fn is_named(&self) -> bool
        ensures { result ≡ is_named_element self.now }
    {
        match self {
            ElementType::Base(_) => true,
            ElementType::Class(name) => name.is_class_name(),
        }
    }

    // Whether it is neither float nor double.
    fn is_kept(&self) -> bool
        ensures { result ≡ is_kept_element self.now }
    {
        match self {
            ElementType::Base(BaseType::Float | BaseType::Double) => false,
            _ => true,
        }
    }
}

impl FieldType {
    ghost use Rattle.jm_program.specs.Descriptors.{slots, is_field_type, is_kept_field_type};
    ghost use Rattle.jm_program.specs.References.{type_fits};

    /// How many slots a value takes: two for a long or a double, else one (JVMS 4.3.3).
    pub fn slots(&self) -> u8
        ensures value { result ≡ slots self.now }
        ensures few { result ≤ 2 }
    {
        if self.dimensions == 0 {
            self.element.slots()
        } else {
            1
        }
    }

    /// A copy, whose name is copied by [`Name::copy`], with its error.
    pub fn copy(&self, alloc: Global) -> Result<FieldType, AllocError>
        ensures { IfOk result (λ copy. copy ≡ self.now) }
    {
        let element = self.element.copy(alloc)?;
        Ok(FieldType {
            dimensions: self.dimensions,
            element,
        })
    }

    /// Whether the element's name, if it has one, is the name of a class (JVMS 4.3.2).
    pub fn is_field_type(&self) -> bool
        ensures { result ≡ is_field_type self.now }
    {
        usize::from(self.dimensions) <= MAX_DIMENSIONS && self.element.is_named()
    }

    /// Whether it is in the profile: its element is neither float nor double.
    pub fn is_kept(&self) -> bool
        ensures { result ≡ is_kept_field_type self.now }
    {
        self.element.is_kept()
    }

    /// Whether it is a field type, and in the profile.
    pub fn fits(&self) -> bool
        ensures { result ≡ type_fits self.now }
    {
        self.is_field_type() && self.is_kept()
    }
}

impl MethodDescriptor {
    ghost use Rattle.std.specs.Prelude.{nat_le};
    ghost use Rattle.std.specs.Option.{SomeIff};
    ghost use Rattle.jm_program.specs.Fits.{is_void};
    ghost use Rattle.jm_program.specs.Descriptors.{argument_slots, is_method_type, is_kept_method_type};

    /// A copy, whose parameters are shared and whose result is copied by [`FieldType::copy`], with
    /// its error.
    pub fn copy(&self, alloc: Global) -> Result<MethodDescriptor, AllocError>
        ensures { IfOk result (λ copy. copy ≡ self.now) }
    {
        let parameters = self.parameters.share()?;
        let return_type = match &self.return_type {
            None => None,
            Some(field_type) => Some(field_type.copy(alloc)?),
        };
        Ok(MethodDescriptor {
            parameters,
            return_type,
        })
    }

    /// How many slots the arguments take, without a receiver, or None where they take more than
    /// 255 (JVMS 4.3.3).
    pub fn argument_slots(&self) -> Option<u8>
        ensures { SomeIff result (argument_slots self.now ≤ 255) (argument_slots self.now) }
    {
        let mut total = 0u8;
        for parameter in self.parameters.as_slice() {
            total = total.checked_add(parameter.slots())?;
        }
        Some(total)
    }

    /// Whether each name is the name of a class and the arguments take at most 255 slots
    /// (JVMS 4.3.3).
    pub fn is_method_type(&self) -> bool
        ensures { result ≡ is_method_type self.now }
    {
        are_field_types(self.parameters.as_slice())
            && is_return_type(&self.return_type)
            && self.argument_slots().is_some()
    }

    /// Whether the arguments take at most 255 slots with so many more (JVMS 4.3.3).
    pub fn fits_with(&self, more: u8) -> bool
        ensures { result ≡ nat_le (argument_slots self.now + more) 255 }
    {
        match self.argument_slots() {
            None => false,
            Some(slots) => u16::from(slots) + u16::from(more) <= 255,
        }
    }

    /// Whether it is `()V`.
    pub fn is_void(&self) -> bool
        ensures { result ≡ is_void self.now }
    {
        self.parameters.as_slice().is_empty() && self.return_type.is_none()
    }

    /// Whether it is in the profile: no part is float or double.
    pub fn is_kept(&self) -> bool
        ensures { result ≡ is_kept_method_type self.now }
    {
        are_kept(self.parameters.as_slice()) && is_kept_return_type(&self.return_type)
    }
}

fn are_field_types(types: &[FieldType]) -> bool
    ensures { result ≡ list_all is_field_type types.now }
{
    types.iter().all(|field_type| field_type.is_field_type())
}

fn is_return_type(return_type: &Option<FieldType>) -> bool
    ensures { result ≡ is_return_type return_type.now }
{
    match return_type {
        None => true,
        Some(field_type) => field_type.is_field_type(),
    }
}

fn are_kept(types: &[FieldType]) -> bool
    ensures { result ≡ list_all is_kept_field_type types.now }
{
    types.iter().all(|field_type| field_type.is_kept())
}

fn is_kept_return_type(return_type: &Option<FieldType>) -> bool
    ensures { result ≡ is_kept_return_type return_type.now }
{
    match return_type {
        None => true,
        Some(field_type) => field_type.is_kept(),
    }
}

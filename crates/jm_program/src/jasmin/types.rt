// Names, types and references in a line of Jasmin.

ghost use Rattle.std.specs.Prelude.{Some, replicate, ◌∷◌, []};
ghost use Rattle.std.specs.List.{flat_map};
ghost use Rattle.std.specs.Fmt.{WritesOnOk};
ghost use Rattle.jm_program.specs.Descriptors.{base_letter};
ghost use Rattle.jm_program.specs.JasminUnits.{name_text};
ghost use Rattle.jm_program.specs.JasminTypes.{element_line, type_line, return_line, method_line, descriptor_line, class_line, field_ref_line, method_ref_line};

use crate::descriptor::{BaseType, Descriptor, ElementType, FieldType, MethodDescriptor};
use crate::jasmin::units::{Context, write_units};
use crate::name::Name;
use crate::reference::{ClassRef, FieldRef, MethodRef};
use std::fmt;
use std::fmt::Display;

/// The name, with `\uXXXX` for a blank, a control character, `;`, `\` and a surrogate without
/// its partner.
impl Display for Name {
    ghost output = { λ n. Some (name_text n) };

    fn fmt<W: fmt::Write>(&self, f: &mut fmt::Formatter<W>) -> fmt::Result {
        write_units(f, Context::InName, self.units())
    }
}

/// The letter (JVMS 4.3.2).
impl Display for BaseType {
    ghost output = { λ b. Some (base_letter b ∷ []) };

    fn fmt<W: fmt::Write>(&self, f: &mut fmt::Formatter<W>) -> fmt::Result {
        f.write_str(match self {
            BaseType::Byte => "B",
            BaseType::Char => "C",
            BaseType::Double => "D",
            BaseType::Float => "F",
            BaseType::Int => "I",
            BaseType::Long => "J",
            BaseType::Short => "S",
            BaseType::Boolean => "Z",
        })
    }
}

#[tactic(auto, unfolding(crate::specs::JasminTypes::element_line))]
impl Display for ElementType {
    ghost output = { λ e. Some (element_line e) };

    fn fmt<W: fmt::Write>(&self, f: &mut fmt::Formatter<W>) -> fmt::Result {
        match self {
            ElementType::Base(base) => write!(f, "{base}"),
            ElementType::Class(name) => write!(f, "L{name};"),
        }
    }
}

// One [ for each dimension.
fn write_dimensions<W: fmt::Write>(f: &mut fmt::Formatter<W>, dimensions: u8) -> fmt::Result
    ensures { WritesOnOk W.write_str_gives f.old result (replicate dimensions 91) f.new }
{
    for _dimension in 0..dimensions {
        write!(f, "[")?;
    }
    Ok(())
}

#[tactic(auto, unfolding(crate::specs::JasminTypes::type_line))]
impl Display for FieldType {
    ghost output = { λ t. Some (type_line t) };

    fn fmt<W: fmt::Write>(&self, f: &mut fmt::Formatter<W>) -> fmt::Result {
        write_dimensions(f, self.dimensions)?;
        let element = &self.element;
        write!(f, "{element}")
    }
}

fn write_parameters<W: fmt::Write>(
    f: &mut fmt::Formatter<W>,
    parameters: &[FieldType],
) -> fmt::Result
    ensures { WritesOnOk W.write_str_gives f.old result (flat_map type_line parameters.now) f.new }
{
    for parameter in parameters {
        write!(f, "{parameter}")?;
    }
    Ok(())
}

#[tactic(auto, unfolding(crate::specs::JasminTypes::return_line))]
fn write_return<W: fmt::Write>(
    f: &mut fmt::Formatter<W>,
    return_type: &Option<FieldType>,
) -> fmt::Result
    ensures { WritesOnOk W.write_str_gives f.old result (return_line return_type.now) f.new }
{
    match return_type {
        None => f.write_str("V"),
        Some(field_type) => write!(f, "{field_type}"),
    }
}

#[tactic(auto, unfolding(crate::specs::JasminTypes::method_line))]
impl Display for MethodDescriptor {
    ghost output = { λ d. Some (method_line d) };

    fn fmt<W: fmt::Write>(&self, f: &mut fmt::Formatter<W>) -> fmt::Result {
        f.write_str("(")?;
        write_parameters(f, self.parameters.as_slice())?;
        f.write_str(")")?;
        write_return(f, &self.return_type)
    }
}

#[tactic(auto, unfolding(crate::specs::JasminTypes::descriptor_line))]
impl Display for Descriptor {
    ghost output = { λ d. Some (descriptor_line d) };

    fn fmt<W: fmt::Write>(&self, f: &mut fmt::Formatter<W>) -> fmt::Result {
        match self {
            Descriptor::Field(field_type) => write!(f, "{field_type}"),
            Descriptor::Method(method) => write!(f, "{method}"),
        }
    }
}

#[tactic(auto, unfolding(crate::specs::JasminTypes::class_line))]
impl Display for ClassRef {
    ghost output = { λ c. Some (class_line c) };

    fn fmt<W: fmt::Write>(&self, f: &mut fmt::Formatter<W>) -> fmt::Result {
        match self {
            ClassRef::Class(name) => write!(f, "{name}"),
            ClassRef::Array(array) => write!(f, "{array}"),
        }
    }
}

/// `a/B/x I`.
#[tactic(auto, unfolding(crate::specs::JasminTypes::field_ref_line))]
impl Display for FieldRef {
    ghost output = { λ r. Some (field_ref_line r) };

    fn fmt<W: fmt::Write>(&self, f: &mut fmt::Formatter<W>) -> fmt::Result {
        let class = &self.class;
        let name = &self.name;
        let descriptor = &self.descriptor;
        write!(f, "{class}/{name} {descriptor}")
    }
}

/// `a/B/m(I)V`.
#[tactic(auto, unfolding(crate::specs::JasminTypes::method_ref_line))]
impl Display for MethodRef {
    ghost output = { λ r. Some (method_ref_line r) };

    fn fmt<W: fmt::Write>(&self, f: &mut fmt::Formatter<W>) -> fmt::Result {
        let class = &self.class;
        let name = &self.name;
        let descriptor = &self.descriptor;
        write!(f, "{class}/{name}{descriptor}")
    }
}

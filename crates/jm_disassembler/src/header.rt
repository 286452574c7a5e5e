// The lines before the fields (Jasmin User Guide, "Jasmin Assembler Directives").

ghost use Rattle.std.specs.Prelude.{◌≡◌, ◌++◌, OnOk, codes};
ghost use Rattle.jm_disassembler.specs.Flags.{class_rows, interface_rows, flags_text};
ghost use Rattle.std.specs.List.{flat_map};
ghost use Rattle.jm_disassembler.specs.Texts.{version_text, source_text, declaration_front, declaration_text, super_text, implements_text};

use crate::flags::{write_class_flags, write_class_note, write_interface_flags};
use jm_program::{AccessFlags, ClassParts, Name, Sequence, Version};
use std::alloc::{AllocError, Global};
use std::fmt::Write;

/// Writes `.bytecode`.
#[tactic(auto, unfolding(crate::specs::Texts::version_text))]
pub fn write_version(out: &mut String, version: Version) -> Result<(), AllocError>
    ensures { OnOk result (out.new.bytes.items ≡ out.old.bytes.items ++ version_text version) }
{
    let major = version.major;
    let minor = version.minor;
    write!(out, ".bytecode {major}.{minor}\n")
}

/// Writes `.super`.
pub fn write_super(out: &mut String, superclass: &Option<Name>) -> Result<(), AllocError>
    ensures { OnOk result (out.new.bytes.items ≡ out.old.bytes.items ++ super_text superclass.now) }
{
    match superclass {
        None => Ok(()),
        Some(name) => write!(out, ".super {name}\n"),
    }
}

#[tactic(auto, unfolding(crate::specs::Texts::implements_text))]
fn write_interface(out: &mut String, name: &Name) -> Result<(), AllocError>
    ensures { OnOk result (out.new.bytes.items ≡ out.old.bytes.items ++ implements_text name.now) }
{
    write!(out, ".implements {name}\n")
}

/// Writes a line for each interface.
pub fn write_interfaces(out: &mut String, names: &[Name]) -> Result<(), AllocError>
    ensures { OnOk result (out.new.bytes.items ≡ out.old.bytes.items ++ flat_map implements_text names.now) }
{
    for name in names {
        write_interface(out, name)?;
    }
    Ok(())
}

fn write_interface_front(out: &mut String, bits: u16) -> Result<(), AllocError>
    ensures { OnOk result (out.new.bytes.items ≡ out.old.bytes.items ++ (codes ".interface " ++ flags_text bits interface_rows)) }
{
    out.push_str(".interface ")?;
    write_interface_flags(out, bits)
}

fn write_class_front(out: &mut String, bits: u16) -> Result<(), AllocError>
    ensures { OnOk result (out.new.bytes.items ≡ out.old.bytes.items ++ (codes ".class " ++ flags_text bits class_rows)) }
{
    out.push_str(".class ")?;
    write_class_flags(out, bits)
}

fn write_front(out: &mut String, flags: AccessFlags) -> Result<(), AllocError>
    ensures { OnOk result (out.new.bytes.items ≡ out.old.bytes.items ++ declaration_front flags) }
{
    if flags.has(AccessFlags::INTERFACE) {
        write_interface_front(out, flags.bits)
    } else {
        write_class_front(out, flags.bits)
    }
}

/// Writes `.class` or `.interface`.
#[tactic(auto, unfolding(crate::specs::Texts::declaration_text))]
pub fn write_declaration(
    out: &mut String,
    commented: bool,
    class: &ClassParts,
) -> Result<(), AllocError>
    ensures { OnOk result (out.new.bytes.items ≡ out.old.bytes.items ++ declaration_text commented class.now) }
{
    let name = &class.name;
    write_front(out, class.flags)?;
    write!(out, "{name}")?;
    write_class_note(out, commented, class.flags)
}

/// Writes `.source`, where the class has one.
pub fn write_source(
    alloc: Global,
    out: &mut String,
    source: &Option<Sequence<u16>>,
) -> Result<(), AllocError>
    ensures { OnOk result (out.new.bytes.items ≡ out.old.bytes.items ++ source_text source.now) }
{
    match source {
        None => Ok(()),
        Some(units) => {
            let name = Name::new(Vec::from_slice(alloc, units.as_slice())?);
            write!(out, ".source {name}\n")
        }
    }
}

// The names of the classes that a class uses (JVMS 5.3.5, 5.4.3).

ghost use Rattle.std.specs.Prelude.{◌≡◌, OnOk, option_map};
ghost use Rattle.std.specs.List.{flat_map};
ghost use Rattle.jm_class_path.specs.Search.{with_names};
ghost use Rattle.jm_class_path.specs.Uses.{class_named, class_of_instruction, code_uses, element_class, handler_uses, instruction_uses, method_uses, uses};

use crate::names::{keep_if_named, keep_name};
use indexmap::IndexSet;
use jm_program::{Class, ClassRef, Code, ElementType, Handler, Instr, Method, Name};
use std::alloc::{AllocError, Global};

// The class of an array's elements, where they are of one.
fn element_class(element: &ElementType) -> Option<&Name>
    ensures { option_map (λ name. name.now) result ≡ element_class element.now }
{
    match element {
        ElementType::Base(_) => None,
        ElementType::Class(name) => Some(name),
    }
}

// The class that a reference names, or that of an array's elements.
fn class_named(class: &ClassRef) -> Option<&Name>
    ensures { option_map (λ name. name.now) result ≡ class_named class.now }
{
    match class {
        ClassRef::Class(name) => Some(name),
        ClassRef::Array(array) => element_class(&array.element),
    }
}

// The class that an instruction names.
fn class_of_instruction(instruction: &Instr) -> Option<&Name>
    ensures { option_map (λ name. name.now) result ≡ class_of_instruction instruction.now }
{
    match instruction {
        Instr::Field(_, field) => class_named(&field.get().class),
        Instr::Invoke(_, method) => class_named(&method.get().class),
        Instr::New(name) => Some(name.get()),
        Instr::Type(_, class) => class_named(class.get()),
        _ => None,
    }
}

fn keep_instructions(
    alloc: Global,
    names: &mut IndexSet<Name>,
    instructions: &[Instr],
) -> Result<(), AllocError>
    ensures { OnOk result (names.new.keys ≡ with_names names.old.keys (flat_map instruction_uses instructions.now)) }
{
    for instruction in instructions {
        keep_if_named(alloc, names, class_of_instruction(instruction))?;
    }
    Ok(())
}

fn keep_handlers(
    alloc: Global,
    names: &mut IndexSet<Name>,
    handlers: &[Handler],
) -> Result<(), AllocError>
    ensures { OnOk result (names.new.keys ≡ with_names names.old.keys (flat_map handler_uses handlers.now)) }
{
    for handler in handlers {
        keep_if_named(alloc, names, handler.catch_type.as_ref())?;
    }
    Ok(())
}

fn keep_code(alloc: Global, names: &mut IndexSet<Name>, code: &Code) -> Result<(), AllocError>
    ensures { OnOk result (names.new.keys ≡ with_names names.old.keys (code_uses code.now)) }
{
    keep_instructions(alloc, names, code.instructions.as_slice())?;
    keep_handlers(alloc, names, code.handlers.as_slice())
}

fn keep_methods(
    alloc: Global,
    names: &mut IndexSet<Name>,
    methods: &[Method],
) -> Result<(), AllocError>
    ensures { OnOk result (names.new.keys ≡ with_names names.old.keys (flat_map method_uses methods.now)) }
{
    for method in methods {
        if let Some(code) = &method.code {
            keep_code(alloc, names, code)?;
        }
    }
    Ok(())
}

/// Puts some names behind others, each where it is not among them.
pub fn keep_names(
    alloc: Global,
    names: &mut IndexSet<Name>,
    more: &[Name],
) -> Result<(), AllocError>
    ensures { OnOk result (names.new.keys ≡ with_names names.old.keys more.now) }
{
    for name in more {
        keep_name(alloc, names, name)?;
    }
    Ok(())
}

/// Puts the names of the classes that a class uses behind others, each where it is not among them.
pub fn keep_uses(alloc: Global, names: &mut IndexSet<Name>, class: &Class) -> Result<(), AllocError>
    ensures { OnOk result (names.new.keys ≡ with_names names.old.keys (uses class.now)) }
{
    let class = class.parts();
    keep_if_named(alloc, names, class.superclass.as_ref())?;
    keep_names(alloc, names, class.interfaces.as_slice())?;
    keep_methods(alloc, names, class.methods.as_slice())
}

// An object, with its fields or elements.

ghost use Rattle.std.specs.Prelude.{◌≡◌, ◌++◌, OnOk, IfOk, option_map, codes};
ghost use Rattle.std.specs.List.{flat_map, zip};
ghost use Rattle.jm_world.specs.World.{World};
ghost use Rattle.jm_machine.specs.Readers.{model_value, model_element, model_type, model_field};
ghost use Rattle.jm_machine.specs.Seen.{fields_of_type};
ghost use Rattle.jm_machine.specs.View.{MatchesWorld};
ghost use Rattle.jm_debug.specs.Texts.{reference_text, object_type_text};
ghost use Rattle.jm_debug.specs.Views.{lines_from, lines_of, field_lines, element_lines, part_lines, header_text, object_lines_of, object_lines};
ghost use Rattle.jm_debug.specs.Session.{ended, bytes_of, Shows};

use crate::fault::DebugFault;
use crate::text::ValueText;
use jm_heap::Heap;
use jm_machine::{ElementKind, Machine, ObjectKind, WorldField, WorldObject, WorldValue};
use jm_program::{ElementType, FieldType, Name};
use std::alloc::{AllocError, Global};
use std::fmt::Write;

// What the elements of an array are in their last dimension.
fn element_type(alloc: Global, element: ElementKind<'_>) -> Result<ElementType, AllocError>
    ensures { IfOk result (λ e. e ≡ model_element element.entry) }
{
    match element {
        ElementKind::Base(base) => Ok(ElementType::Base(base)),
        ElementKind::Class(name) => Ok(ElementType::Class(Name::shared(alloc, name)?)),
    }
}

/// Writes the class of an object, or the descriptor of an array, with no line feed. `AllocError`: a
/// growth was refused; a part of it may stand there then.
#[tactic(auto, using(crate::proofs::ObjectsShown::array_text), unfolding(crate::specs::Texts::object_type_text))]
pub fn write_type(alloc: Global, out: &mut String, kind: ObjectKind<'_>) -> Result<(), AllocError>
    ensures { OnOk result (out.new.bytes.items ≡ out.old.bytes.items ++ object_type_text (model_type kind.entry)) }
{
    match kind {
        ObjectKind::Instance { class } => {
            let class = Name::shared(alloc, class)?;
            write!(out, "{class}")
        }
        ObjectKind::Array {
            dimensions,
            element,
        } => {
            let element = element_type(alloc, element)?;
            let component = FieldType {
                dimensions,
                element,
            };
            write!(out, "[{component}")
        }
    }
}

// Writes a field with its value, if there is one.
#[tactic(auto, using(crate::proofs::Written::one_line), unfolding(crate::specs::Views::field_text))]
fn write_field(
    out: &mut String,
    index: usize,
    field: Option<WorldField<'_>>,
) -> Result<(), AllocError>
    ensures { OnOk result (out.new.bytes.items ≡ out.old.bytes.items ++ flat_map ended (lines_of field_lines index (option_map model_field field.entry))) }
{
    let Some(field) = field else {
        return Ok(());
    };
    let class = field.class;
    let name = field.name;
    let descriptor = field.descriptor;
    let value = ValueText(field.value);
    write!(out, "{class}.{name} {descriptor} = {value}\n")
}

// Writes the line of an element, if there is one.
#[tactic(auto, using(crate::proofs::Written::one_line))]
fn write_element(
    out: &mut String,
    index: usize,
    value: Option<WorldValue>,
) -> Result<(), AllocError>
    ensures { OnOk result (out.new.bytes.items ≡ out.old.bytes.items ++ flat_map ended (lines_of element_lines index (option_map model_value value))) }
{
    match value {
        Some(value) => {
            let value = ValueText(value);
            write!(out, "[{index}] = {value}\n")
        }
        None => Ok(()),
    }
}

// Writes the fields of an object.
fn write_fields<H: Heap>(out: &mut String, object: &WorldObject<'_, H>) -> Result<(), AllocError>
    ensures { OnOk result (out.new.bytes.items ≡ out.old.bytes.items
        ++ flat_map ended (lines_from field_lines 0 (zip (fields_of_type object.now.program object.now.object.type) object.now.object.values))) }
{
    for index in 0..object.length() {
        write_field(out, index as usize, object.field(index))?;
    }
    Ok(())
}

// Writes the elements of an array.
fn write_elements<H: Heap>(out: &mut String, object: &WorldObject<'_, H>) -> Result<(), AllocError>
    ensures { OnOk result (out.new.bytes.items ≡ out.old.bytes.items ++ flat_map ended (lines_from element_lines 0 object.now.object.values)) }
{
    for index in 0..object.length() {
        write_element(out, index as usize, object.value(index))?;
    }
    Ok(())
}

/// Writes the lines of an object's fields, those of the topmost superclass first, or of an array's
/// elements. `AllocError`: a growth was refused; some of them may stand there then.
#[tactic(auto, using(crate::proofs::ObjectsShown::parts_of_instance, crate::proofs::ObjectsShown::parts_of_array))]
pub fn write_parts<H: Heap>(out: &mut String, object: &WorldObject<'_, H>) -> Result<(), AllocError>
    ensures { OnOk result (out.new.bytes.items
        ≡ out.old.bytes.items ++ flat_map ended (part_lines object.now.program object.now.object.type object.now.object.values)) }
{
    match object.kind() {
        ObjectKind::Instance { .. } => write_fields(out, object),
        ObjectKind::Array { .. } => write_elements(out, object),
    }
}

/// Writes the number of an object, and a blank.
#[tactic(auto, unfolding(crate::specs::Texts::reference_text))]
pub fn write_number(out: &mut String, number: u64) -> Result<(), AllocError>
    ensures { OnOk result (out.new.bytes.items ≡ out.old.bytes.items ++ (reference_text number ++ codes " ")) }
{
    write!(out, "#{number} ")
}

// Writes the line of an object that stands above those of its fields or elements.
fn write_header<H: Heap>(
    alloc: Global,
    out: &mut String,
    number: u64,
    object: &WorldObject<'_, H>,
) -> Result<(), AllocError>
    ensures { OnOk result (out.new.bytes.items ≡ out.old.bytes.items ++ ended (header_text number object.now.object)) }
{
    write_number(out, number)?;
    write_type(alloc, out, object.kind())?;
    let cells = object.cells();
    write!(out, " {cells} cells\n")?;
    Ok(())
}

// An object, with its fields or elements.
fn object_text<H: Heap>(
    alloc: Global,
    number: u64,
    object: &WorldObject<'_, H>,
) -> Result<String, AllocError>
    ensures { IfOk result (λ answer. answer.bytes.items ≡ bytes_of (object_lines_of object.now.program number object.now.object)) }
{
    let mut out = String::new(alloc);
    write_header(alloc, &mut out, number, object)?;
    write_parts(&mut out, object)?;
    Ok(out)
}

/// The object of a number, with its fields, those of the topmost superclass first, or its elements.
/// `NoSuch`: it is not reachable; `OutOfMemory`: a growth was refused. It looks at each reachable
/// object once at most.
pub fn object<H: Heap>(
    alloc: Global,
    machine: &Machine<H>,
    number: u64,
) -> Result<String, DebugFault>
    ensures { (w : World) → MatchesWorld machine.now w → Shows (λ t. t.bytes.items) result (object_lines w number) }
{
    match machine.object(number) {
        Ok(Some(object)) => Ok(object_text(alloc, number, &object)?),
        Ok(None) => Err(DebugFault::NoSuch),
        Err(_) => Err(DebugFault::OutOfMemory),
    }
}

// Constants by number: those of instructions, and those with which static fields begin (JVMS 4.7.2, 5.1).

ghost use Rattle.std.specs.Prelude.{◌≡◌, IfOk};
ghost use Rattle.std.specs.List.{flat_map};
ghost use Rattle.jm_world.specs.Loading.{text_of, texts_of_field};
ghost use Rattle.jm_linked.specs.Tables.{AreConstants, HaveConstants, IsConstant, IsConstantOf, static_constant};
ghost use Rattle.jm_linker.specs.Literals.{AreLiterals};

use crate::classes::Classes;
use jm_linked::LinkedConstant;
use jm_program::{AccessFlags, Constant, Field, Sequence};
use std::alloc::{AllocError, Global};

/// A constant of the program, a string by its number among the literals.
pub fn linked_constant<'a>(classes: &Classes<'a>, constant: &'a Constant) -> LinkedConstant
    requires { AreLiterals classes.now.program.now (text_of constant.now) }
    ensures { IsConstant classes.now.program.now result constant.now }
{
    match constant {
        Constant::Int(number) => LinkedConstant::Int(*number),
        Constant::Long(number) => LinkedConstant::Long(*number),
        Constant::String(text) => match classes.literal(text.as_slice()) {
            Some(number) => LinkedConstant::Literal(number),
            None => unreachable!(),
        },
    }
}

// The constant with which a field begins; none of an instance field, where one is ignored.
fn field_constant<'a>(classes: &Classes<'a>, field: &'a Field) -> Option<LinkedConstant>
    requires { AreLiterals classes.now.program.now (texts_of_field field.now) }
    ensures { IsConstantOf classes.now.program.now result (static_constant field.now) }
{
    if !field.flags.has(AccessFlags::STATIC) {
        return None;
    }
    match &field.constant {
        Some(constant) => Some(linked_constant(classes, constant)),
        None => None,
    }
}

// The constants of fields, in their order.
fn field_constants<'a>(
    alloc: Global,
    classes: &Classes<'a>,
    fields: &'a [Field],
) -> Result<Vec<Option<LinkedConstant>>, AllocError>
    requires { AreLiterals classes.now.program.now (flat_map texts_of_field fields.now) }
    ensures { IfOk result (λ constants. AreConstants classes.now.program.now constants.items fields.now) }
{
    let mut constants = Vec::new(alloc);
    for field in fields {
        constants.push(field_constant(classes, field))?;
    }
    Ok(constants)
}

/// Of each of the program's classes the constants of its fields, in their order. The one error is that
/// memory is refused.
pub fn constants_of<'a>(
    alloc: Global,
    classes: &Classes<'a>,
) -> Result<Vec<Sequence<Option<LinkedConstant>>>, AllocError>
    ensures { IfOk result (λ table. HaveConstants classes.now.program.now table.items) }
{
    let mut table = Vec::new(alloc);
    for class in classes.program {
        let fields = class.parts().fields.as_slice();
        table.push(Sequence::new(field_constants(alloc, classes, fields)?))?;
    }
    Ok(table)
}

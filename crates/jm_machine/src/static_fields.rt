// The static fields of a program, by number, and the values with which they begin.

ghost use Rattle.std.specs.Prelude.{◌≡◌, ◌∷◌, ◌++◌, IfOk, map, option_map, slice_get};
ghost use Rattle.jm_program.specs.declared.class.Field.{Field as ModelField};
ghost use Rattle.jm_values.specs.declared.value.Value.TheVariants.{Ref};
ghost use Rattle.jm_world.specs.Loading.{first_statics};
ghost use Rattle.jm_world.specs.World.{Static};
ghost use Rattle.jm_world.specs.Types.{default_value};
ghost use Rattle.jm_machine.specs.DeclaredFields.{name_of_declared};
ghost use Rattle.jm_machine.specs.StaticFields.{static_fields, static_names, static_values};

use crate::declared_field::DeclaredField;
use jm_builtins::BuiltInClass;
use jm_linked::Linked;
use jm_program::{AccessFlags, BaseType, Class, ElementType, Field, FieldType};
use jm_values::{Place, Value};
use std::alloc::{AllocError, Global};

const SYSTEM: usize = BuiltInClass::System as usize;

// What a variable of a type begins with (JVMS 2.3, 2.4).
fn default_value(field_type: &FieldType) -> Value
    ensures { result ≡ default_value field_type.now }
{
    if field_type.dimensions > 0 {
        return Value::Null;
    }
    match &field_type.element {
        ElementType::Base(BaseType::Long) => Value::Long(0),
        ElementType::Base(_) => Value::Int(0),
        ElementType::Class(_) => Value::Null,
    }
}

// Puts the values with which the static ones of the fields begin behind others.
fn push_defaults(values: &mut Vec<Value>, fields: &[Field]) -> Result<(), AllocError>
    ensures { IfOk result (λ _. values.new.items ≡ values.old.items ++ map (λ (f : ModelField). default_value f.descriptor) (static_fields fields.now)) }
{
    for field in fields {
        if field.flags.has(AccessFlags::STATIC) {
            values.push(default_value(&field.descriptor))?;
        }
    }
    Ok(())
}

/// The values with which the static fields begin: the print stream of System.out, and zero or null
/// of each of the program's.
pub(crate) fn first_values(
    alloc: Global,
    classes: &[Class],
    out: Place,
) -> Result<Vec<Value>, AllocError>
    ensures { IfOk result (λ values. values.items ≡ Ref out ∷ static_values classes.now) }
{
    let mut values = Vec::with_capacity(alloc, 1)?;
    values.push_reserved(Value::Ref(out));
    for class in classes {
        push_defaults(&mut values, class.parts().fields.as_slice())?;
    }
    Ok(values)
}

// The static field of a number among those of the classes.
fn static_among(classes: &[Class], number: usize) -> Option<DeclaredField<'_>>
    ensures { option_map name_of_declared result ≡ slice_get (static_names classes.now) number }
{
    let mut left = number;
    for class in classes {
        let parts = class.parts();
        for field in parts.fields.as_slice() {
            if field.flags.has(AccessFlags::STATIC) {
                if left == 0 {
                    return Some(DeclaredField {
                        class: &parts.name,
                        field,
                    });
                }
                left -= 1;
            }
        }
    }
    None
}

/// The static field of a number: System.out is 0, and then come those of the program's classes, in
/// order.
pub(crate) fn static_numbered(linked: &Linked, number: usize) -> Option<DeclaredField<'_>>
    ensures { option_map name_of_declared result ≡ slice_get (map (λ (s : Static). s.field) (first_statics linked.now.program)) number }
{
    if number == 0 {
        let system = &linked.built_ins()[SYSTEM];
        let fields = system.fields.as_slice();
        return Some(DeclaredField {
            class: &system.name,
            field: &fields[0],
        });
    }
    static_among(linked.classes(), number - 1)
}

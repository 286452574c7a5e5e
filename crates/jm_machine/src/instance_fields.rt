// The instance fields of a program's classes, by number (JVMS 2.5.3, 4.5).

ghost use Rattle.std.specs.Prelude.{◌≡◌, ◌<◌, List, ℕ, length, option_map, slice_get};
ghost use Rattle.jm_program.specs.declared.class.ClassParts.{ClassParts};
ghost use Rattle.jm_world.specs.Classes.{height};
ghost use Rattle.jm_world.specs.Objects.{instance_fields, own_instance_fields};
ghost use Rattle.jm_tables.specs.Numbering.{name_of};
ghost use Rattle.jm_linked.specs.Links.{IsLinked};
ghost use Rattle.jm_linked.specs.Tables.{all_names};
ghost use Rattle.jm_machine.specs.DeclaredFields.{name_of_declared};
ghost use Rattle.jm_machine.specs.InstanceFields.{AreFieldsOf, not_static};

use crate::declared_field::DeclaredField;
use jm_linked::Linked;
use jm_program::{AccessFlags, Field, Name};

// The fields that a class declares, with its name.
#[derive(Clone, Copy)]
struct ClassFields<'a> {
    class: &'a Name,
    fields: &'a [Field],
}

// The fields of the class of a number, the built-in classes counted first.
fn fields_of_class(linked: &Linked, class: u32) -> ClassFields<'_>
    requires { class < length (all_names linked.now.program) }
    ensures { AreFieldsOf linked.now.program class result }
{
    let number = class as usize;
    let built_ins = linked.built_ins();
    if number < built_ins.len() {
        let declaring = &built_ins[number];
        return ClassFields {
            class: &declaring.name,
            fields: declaring.fields.as_slice(),
        };
    }
    let classes = linked.classes();
    let own = number - built_ins.len();
    let declaring = classes[own].parts();
    ClassFields {
        class: &declaring.name,
        fields: declaring.fields.as_slice(),
    }
}

fn instance_count(fields: &[Field]) -> usize
    ensures { result ≡ length (not_static fields.now) }
{
    fields
        .iter()
        .filter(|field| !field.flags.has(AccessFlags::STATIC))
        .count()
}

// The field of a number among those that are not static.
fn instance_among(fields: &[Field], number: usize) -> Option<&Field>
    ensures { option_map (λ f. f.now) result ≡ slice_get (not_static fields.now) number }
{
    let mut left = number;
    for field in fields {
        if !field.flags.has(AccessFlags::STATIC) {
            if left == 0 {
                return Some(field);
            }
            left -= 1;
        }
    }
    None
}

// The instance field of a number among those that a class declares.
fn own_field<'a>(own: &ClassFields<'a>, number: usize) -> Option<DeclaredField<'a>>
    ensures { (program : List ClassParts) (class : ℕ) (are : AreFieldsOf program class own.now)
        → option_map name_of_declared result ≡ slice_get (own_instance_fields are.declaring) number }
{
    match instance_among(own.fields, number) {
        Some(field) => Some(DeclaredField {
            class: own.class,
            field,
        }),
        None => None,
    }
}

// How many classes there are: no walk up is longer.
fn height(linked: &Linked) -> usize
    ensures height { result ≡ height linked.now.program }
    ensures linked { IsLinked linked.now }
{
    linked.classes().len() + linked.built_ins().len()
}

/// The instance field of a number among all of a class, by the number of the class: those of the
/// topmost superclass come first, in a class as declared.
pub(crate) fn instance_field(
    linked: &Linked,
    class: u32,
    number: usize,
) -> Option<DeclaredField<'_>>
    requires { class < length (all_names linked.now.program) }
    ensures { option_map name_of_declared result
        ≡ slice_get (instance_fields linked.now.program (name_of (all_names linked.now.program) class)) number }
{
    let mut left = height(linked);
    let Some(size) = linked.tables().layout.size(class) else {
        return None;
    };
    let mut at = class;
    let mut above = size as usize;
    while left > 0 {
        let own = fields_of_class(linked, at);
        let superclass = linked.superclass(at);
        let inherited = above - instance_count(own.fields);
        if number >= inherited {
            return own_field(&own, number - inherited);
        }
        let Some(next) = superclass else {
            return None;
        };
        at = next;
        above = inherited;
        left -= 1;
    }
    None
}

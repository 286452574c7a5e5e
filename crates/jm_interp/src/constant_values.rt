// The constants with which static fields begin (JVMS 4.7.2, 5.5).

ghost use Rattle.std.specs.Prelude.{◌≡◌, ◌<◌, ◌^◌, Ok, Some, length, slice_get};
ghost use Rattle.jm_program.specs.declared.class.ClassParts.{ClassParts};
ghost use Rattle.jm_program.specs.declared.class.Field.{Field};
ghost use Rattle.jm_state.specs.Parts.{program_class_name};
ghost use Rattle.jm_state.specs.declared.halt.StepEnd.TheVariants.{Done};
ghost use Rattle.jm_linked.specs.Tables.{AreConstants};
ghost use Rattle.jm_interp.specs.At.{OnFrames, Does};
ghost use Rattle.jm_interp.specs.ConstantValues.{HasString, IsConstantValue, HasNumbers, BeginsWith, gives_constant, gives_constants};

use crate::at::At;
use crate::narrowing::narrow;
use crate::static_fields::static_number;
use jm_heap::Heap;
use jm_linked::{Linked, LinkedConstant, MemberNumber};
use jm_program::FieldType;
use jm_state::State;
use jm_values::{Place, Value};

/// The constants of the fields of a class, in their order, by the class's number among the program's.
pub(crate) fn constants_of(linked: &Linked, class: u32) -> &[Option<LinkedConstant>]
    requires { class < length linked.now.program }
    ensures { (c : ClassParts) → slice_get linked.now.program class ≡ Some c → AreConstants linked.now.program result.now c.fields }
{
    // the program is linked
    let _classes = linked.classes();
    linked.tables().constants.as_slice()[class as usize].as_slice()
}

// The type of a field, by the number of its class among the program's and its own among those of the
// class.
fn type_of_field(linked: &Linked, class: u32, field: u32) -> &FieldType
    requires { (c : ClassParts) × (f : Field) × (slice_get linked.now.program class ≡ Some c) × (slice_get c.fields field ≡ Some f) }
    ensures { (c : ClassParts) (f : Field) → slice_get linked.now.program class ≡ Some c → slice_get c.fields field ≡ Some f
        → result.now ≡ f.descriptor }
{
    &linked.classes()[class as usize].parts().fields.as_slice()[field as usize].descriptor
}

// The value of a constant: a string's is a reference to the String of its literal (JVMS 5.1).
fn value_of(strings: &[Place], constant: LinkedConstant) -> Value
    requires { HasString strings.now constant }
    ensures { IsConstantValue strings.now constant result }
{
    match constant {
        LinkedConstant::Int(number) => Value::Int(number),
        LinkedConstant::Long(number) => Value::Long(number),
        LinkedConstant::Literal(number) => Value::Ref(strings[number as usize]),
    }
}

// Gives a static field its constant, narrowed by the field's type, by the field's number among those of
// the class.
fn set_constant<H: Heap>(
    at: At<'_>,
    state: &mut State<H>,
    class: u32,
    number: u32,
    field: u32,
    constant: LinkedConstant,
)
    requires { OnFrames H.content at state.old × (c : ClassParts) × (f : Field)
        × BeginsWith at.linked.now.program class number field (Some constant) c f }
    ensures does { (c : ClassParts) (f : Field) → BeginsWith at.entry.linked.now.program class number field (Some constant) c f
        → Does H.content at.entry state.old (Ok Done) state.new (gives_constant c f) }
    ensures heap { state.new.heap ≡ state.old.heap }
{
    let member = MemberNumber {
        class: number,
        member: field,
    };
    let value = narrow(
        type_of_field(at.linked, class, field),
        value_of(state.literals.as_slice(), constant),
    );
    if let Some(place) = static_number(at.linked, member) {
        state.statics[place as usize] = value;
    }
}

// The same where the field has a constant; another stays as it is.
fn begin_field<H: Heap>(
    at: At<'_>,
    state: &mut State<H>,
    class: u32,
    number: u32,
    field: u32,
    constant: Option<LinkedConstant>,
)
    requires { OnFrames H.content at state.old × (c : ClassParts) × (f : Field)
        × BeginsWith at.linked.now.program class number field constant c f }
    ensures does { (c : ClassParts) (f : Field) → BeginsWith at.entry.linked.now.program class number field constant c f
        → Does H.content at.entry state.old (Ok Done) state.new (gives_constant c f) }
    ensures heap { state.new.heap ≡ state.old.heap }
{
    if let Some(constant) = constant {
        set_constant(at, state, class, number, field, constant);
    }
}

/// Gives the static fields of a class that have constants their values, by the class's number among
/// the program's and among all (JVMS 5.5).
pub(crate) fn set_constants<H: Heap>(at: At<'_>, state: &mut State<H>, class: u32, number: u32)
    requires { OnFrames H.content at state.old × (c : ClassParts) × HasNumbers at.linked.now.program class number c × (length c.fields < 2 ^ 32) }
    ensures does { Does H.content at.entry state.old (Ok Done) state.new (gives_constants (program_class_name at.entry.linked.now.program class)) }
    ensures heap { state.new.heap ≡ state.old.heap }
{
    for (index, constant) in constants_of(at.linked, class).iter().enumerate() {
        begin_field(at, state, class, number, index as u32, *constant);
    }
}

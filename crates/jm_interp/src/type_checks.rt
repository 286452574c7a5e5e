// Casts and tests of types (JVMS 6.5 checkcast, instanceof).

ghost use Rattle.std.specs.Prelude.{◌≡◌, IfSome, IsTrue};
ghost use Rattle.jm_program.specs.declared.descriptor.FieldType.{FieldType};
ghost use Rattle.jm_program.specs.declared.instruction.operation.TypeOp.TheVariants as type_op;
ghost use Rattle.jm_world.specs.Hierarchy.{is_assignable};
ghost use Rattle.jm_world.specs.Types.{type_of_object};
ghost use Rattle.jm_linked.specs.Links.{Links, NamesElement, NamesType};
ghost use Rattle.jm_linked.specs.declared.instruction.LinkedInstr.TheVariants as linked_instr;
ghost use Rattle.jm_state.specs.Parts.{element_named, named_type};
ghost use Rattle.jm_interp.specs.At.{StandsOn, Steps, MakesIn};
ghost use Rattle.jm_interp.specs.TopObject.{ComesTo};
ghost use Rattle.jm_interp.specs.TypeChecks.{IsExactly};

use crate::at::At;
use crate::class_number::is_numbered;
use crate::top_object::{Refusal, reference_at, replace};
use jm_builtins::BuiltInClass;
use jm_heap::{ClassId, Element, Heap};
use jm_linked::{Linked, LinkedElement, LinkedType};
use jm_state::{Halt, State, StepEnd};
use jm_values::Value;

/// The type of an element; none where no class has its number, as every object's has.
pub(crate) fn type_of_element(linked: &Linked, element: Element) -> Option<LinkedElement>
    ensures { IfSome result (λ e. NamesElement linked.now.program e (element_named linked.now.program element)) }
{
    match element {
        Element::Base(base) => Some(LinkedElement::Base(base)),
        Element::Class(class) => {
            if !is_numbered(linked, class) {
                return None;
            }
            Some(LinkedElement::Class(class))
        }
    }
}

// The type of a variable that can hold the objects of a mark; none where no class has its number, as
// every object's has, or where it has 256 dimensions, as no array has (JVMS 4.3.2).
fn type_of(linked: &Linked, id: ClassId) -> Option<LinkedType>
    ensures { IfSome result (λ t. NamesType linked.now.program t (type_of_object (named_type linked.now.program id))) }
{
    match id {
        ClassId::Instance(class) => {
            let element = type_of_element(linked, Element::Class(class))?;
            Some(LinkedType {
                dimensions: 0,
                element,
            })
        }
        ClassId::Array(component) => {
            if component.dimensions == u8::MAX {
                return None;
            }
            let element = type_of_element(linked, component.element)?;
            Some(LinkedType {
                dimensions: component.dimensions + 1,
                element,
            })
        }
    }
}

// Whether a type is that of a class whose own instances have a mark.
#[inline]
fn is_exactly(id: ClassId, to: LinkedType) -> bool
    ensures { IsTrue result → IsExactly id to }
{
    let ClassId::Instance(class) = id else {
        return false;
    };
    let LinkedElement::Class(other) = to.element else {
        return false;
    };
    class == other && to.dimensions == 0
}

// Whether an object can be held by a variable of a type, by its mark; none where no class has its number.
#[inline(never)]
fn is_assignable_to(linked: &Linked, id: ClassId, to: LinkedType) -> Option<bool>
    ensures { IfSome result (λ is. (t : FieldType) → NamesType linked.now.program to t
        → is ≡ is_assignable linked.now.program (type_of_object (named_type linked.now.program id)) t) }
{
    let from = type_of(linked, id)?;
    Some(linked.is_assignable(from, to))
}

/// Whether an object can be held by a variable of a type, by its mark (JVMS 6.5 instanceof); none
/// where no class has its number, as every object's has.
#[inline]
pub(crate) fn is_instance(linked: &Linked, id: ClassId, to: LinkedType) -> Option<bool>
    ensures { IfSome result (λ is. (t : FieldType) → NamesType linked.now.program to t
        → is ≡ is_assignable linked.now.program (type_of_object (named_type linked.now.program id)) t) }
{
    if is_exactly(id, to) {
        return Some(true);
    }
    is_assignable_to(linked, id, to)
}

/// What checkcast leaves of the reference on top: the reference itself. OutOfMemory: no class has its
/// object's number.
#[inline(always)]
pub(crate) fn cast_on_top<H: Heap>(
    at: At<'_>,
    state: &State<H>,
    to: LinkedType,
) -> Result<Value, Refusal>
    requires { StandsOn H.content at state.now (Links at.linked.now (linked_instr.Type type_op.CheckCast to)) }
    ensures { ComesTo H.content at.entry state.now 1 result }
{
    let Some(object) = reference_at(&state.threads[at.index], 0)? else {
        return Ok(Value::Null);
    };
    match is_instance(at.linked, state.heap.class_of(object), to) {
        Some(true) => Ok(Value::Ref(object)),
        Some(false) => Err(Refusal::Throws(BuiltInClass::ClassCastException)),
        None => Err(Refusal::OutOfMemory),
    }
}

/// Makes `checkcast` (JVMS 6.5): null passes, and a reference to an object that no variable of the
/// type can hold throws ClassCastException.
#[inline(never)]
pub(crate) fn check_cast<H: Heap>(
    at: At<'_>,
    state: &mut State<H>,
    to: LinkedType,
) -> Result<StepEnd, Halt>
    requires { StandsOn H.content at state.old (Links at.linked.now (linked_instr.Type type_op.CheckCast to)) }
    ensures steps { Steps H.content at.entry state.old result state.new }
    ensures nursery { MakesIn H.content H.nursery_of at.entry state.old state.new }
{
    let cast = cast_on_top(at, state, to);
    replace(at, state, 1, cast)
}

/// What instanceof makes of the reference on top. OutOfMemory: no class has its object's number.
#[inline(always)]
pub(crate) fn test_on_top<H: Heap>(
    at: At<'_>,
    state: &State<H>,
    to: LinkedType,
) -> Result<Value, Refusal>
    requires { StandsOn H.content at state.now (Links at.linked.now (linked_instr.Type type_op.InstanceOf to)) }
    ensures { ComesTo H.content at.entry state.now 1 result }
{
    let Some(object) = reference_at(&state.threads[at.index], 0)? else {
        return Ok(Value::Int(0));
    };
    match is_instance(at.linked, state.heap.class_of(object), to) {
        Some(true) => Ok(Value::Int(1)),
        Some(false) => Ok(Value::Int(0)),
        None => Err(Refusal::OutOfMemory),
    }
}

/// Makes `instanceof` (JVMS 6.5): 1 for a reference to an object that a variable of the type can
/// hold, 0 for another one and for null.
#[inline(never)]
pub(crate) fn instance_of<H: Heap>(
    at: At<'_>,
    state: &mut State<H>,
    to: LinkedType,
) -> Result<StepEnd, Halt>
    requires { StandsOn H.content at state.old (Links at.linked.now (linked_instr.Type type_op.InstanceOf to)) }
    ensures steps { Steps H.content at.entry state.old result state.new }
    ensures nursery { MakesIn H.content H.nursery_of at.entry state.old state.new }
{
    let tested = test_on_top(at, state, to);
    replace(at, state, 1, tested)
}

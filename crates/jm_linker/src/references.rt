// What the instructions and the exception tables name (JVMS 5.4.3, 6.5), by numbers.

ghost use Rattle.std.specs.Prelude.{◌≡◌, IfOk, IfSome, IsTrue, MatchResult, Some, is_some, map, option_map};
ghost use Rattle.std.specs.List.{AllByRecursion};
ghost use Rattle.jm_program.specs.declared.reference.ClassRef.TheVariants as named;
ghost use Rattle.jm_world.specs.Classes.{class_named};
ghost use Rattle.jm_world.specs.Fields.{resolved_field};
ghost use Rattle.jm_world.specs.Loads.{class_refusal, element_refusal, ref_refusal, is_static_use, is_stored, same_bool, found_field_refusal, field_refusal, is_interface_use, is_special_use, is_static_call, init_refusal, found_method_refusal, named_class_refusal, method_refusal, new_refusal, catch_refusal, first_of_all};
ghost use Rattle.jm_world.specs.Resolution.{resolve_field, resolve_method};
ghost use Rattle.jm_world.specs.Types.{type_of_ref};
ghost use Rattle.jm_linked.specs.Links.{CatchesClass, NamesClass, NamesElement, NamesType, class_name_of, class_numbered, handler_in};
ghost use Rattle.jm_linked.specs.Methods.{selector_of};
ghost use Rattle.jm_linker.specs.Answers.{Answers, IsOutOfMemory};
ghost use Rattle.jm_linker.specs.Found.{found_field, found_method};
ghost use Rattle.jm_linker.specs.FoundNumbers.{FindsField, FindsMethod, NumbersField, NumbersMethod, Invokes, catch_type_refusal};
ghost use Rattle.jm_linker.specs.NumberedClasses.{HasClass};

use crate::classes::Classes;
use crate::fault::{LinkFault, no_class, no_field, no_method, wrong_kind};
use crate::members::Members;
use crate::name::{is_sealed, is_system};
use crate::number::short_number;
use crate::resolution::{find_field_class, find_method_class};
use crate::sought::{SoughtField, SoughtMethod};
use jm_linked::{InvokedMethod, LinkedElement, LinkedHandler, LinkedType, MemberNumber};
use jm_program::{
    AccessFlags, ClassParts, ClassRef, ElementType, FieldOp, FieldRef, Handler, InvokeOp,
    MethodRef, Name, Sequence,
};
use std::alloc::Global;

/// A member that was found: the class that declares it, and its number there.
#[derive(Clone, Copy)]
pub struct FoundMember<'a> {
    class: &'a ClassParts,
    number: u32,
}

// The number of the class of the name.
fn find_class<'a>(alloc: Global, classes: &Classes<'a>, name: &'a Name) -> Result<u32, LinkFault>
    ensures refusal { Answers result (class_refusal classes.now.program.now name.now) }
    ensures named { IfOk result (λ n. NamesClass classes.now.program.now n name.now) }
{
    match classes.class_number(name) {
        None => Err(no_class(alloc, name)),
        Some(number) => Ok(short_number(number)?),
    }
}

// The number of the class of the name, which is there.
fn known_class<'a>(classes: &Classes<'a>, name: &'a Name) -> Result<u32, LinkFault>
    requires { IsTrue (is_some (class_named classes.now.program.now name.now)) }
    ensures { MatchResult result (λ n. NamesClass classes.now.program.now n name.now) (λ fault. IsOutOfMemory fault) }
{
    let Some(number) = classes.class_number(name) else {
        unreachable!()
    };
    Ok(short_number(number)?)
}

fn link_element<'a>(
    alloc: Global,
    classes: &Classes<'a>,
    element: &'a ElementType,
) -> Result<LinkedElement, LinkFault>
    ensures refusal { Answers result (element_refusal classes.now.program.now element.now) }
    ensures linked { IfOk result (λ linked. NamesElement classes.now.program.now linked element.now) }
{
    match element {
        ElementType::Base(base) => Ok(LinkedElement::Base(*base)),
        ElementType::Class(name) => Ok(LinkedElement::Class(find_class(alloc, classes, name)?)),
    }
}

/// The class, or the array type whose element's class, has a number.
pub fn link_ref<'a>(
    alloc: Global,
    classes: &Classes<'a>,
    class: &'a ClassRef,
) -> Result<LinkedType, LinkFault>
    ensures refusal { Answers result (ref_refusal classes.now.program.now class.now) }
    ensures linked { IfOk result (λ linked. NamesType classes.now.program.now linked (type_of_ref class.now)) }
{
    match class {
        ClassRef::Class(name) => Ok(LinkedType {
            dimensions: 0,
            element: LinkedElement::Class(find_class(alloc, classes, name)?),
        }),
        ClassRef::Array(array) => Ok(LinkedType {
            dimensions: array.dimensions,
            element: link_element(alloc, classes, &array.element)?,
        }),
    }
}

/// The number of a member of a class that the program has.
pub fn member_number<'a>(
    classes: &Classes<'a>,
    class: &'a ClassParts,
    member: u32,
) -> Result<MemberNumber, LinkFault>
    requires { HasClass classes.now.program.now class.now }
    ensures { MatchResult result (λ n. (class_numbered classes.now.program.now n.class ≡ Some class.now) × (n.member ≡ member)) (λ fault. IsOutOfMemory fault) }
{
    let Some(number) = classes.class_number(&class.name) else {
        unreachable!()
    };
    Ok(MemberNumber {
        class: short_number(number)?,
        member,
    })
}

fn are_same(flag: bool, other: bool) -> bool
    ensures { result ≡ same_bool flag other }
{
    if flag { other } else { !other }
}

fn is_static_use(op: FieldOp) -> bool
    ensures { result ≡ is_static_use op }
{
    match op {
        FieldOp::GetStatic | FieldOp::PutStatic => true,
        FieldOp::GetField | FieldOp::PutField => false,
    }
}

// The class that declares the field, and the field's number there.
fn check_found_field<'a>(
    alloc: Global,
    op: FieldOp,
    sought: &SoughtField<'a>,
    class: Option<&Members<'a>>,
) -> Result<FoundMember<'a>, LinkFault>
    ensures refusal { Answers result (found_field_refusal op sought.now.field.now.name
        (found_field sought.now.field.now.name sought.now.field.now.descriptor (option_map (λ m. m.now.class.now) class.entry))) }
    ensures found { IfOk result (λ member. FindsField
        (found_field sought.now.field.now.name sought.now.field.now.descriptor (option_map (λ m. m.now.class.now) class.entry)) member) }
{
    let name = &sought.field.name;
    let Some(members) = class else {
        return Err(no_field(alloc, name));
    };
    let Some(found) = members.field(&sought.key) else {
        return Err(no_field(alloc, name));
    };
    if !are_same(
        found.field.flags.has(AccessFlags::STATIC),
        is_static_use(op),
    ) {
        return Err(wrong_kind(alloc, name));
    }
    match op {
        FieldOp::PutStatic if is_system(&members.class.name) => Err(wrong_kind(alloc, name)),
        _ => Ok(FoundMember {
            class: members.class,
            number: found.number,
        }),
    }
}

// The field of the class of the name, or above it.
#[tactic(auto, using(crate::proofs::Reasons::memory_says))]
fn resolve_field<'a>(
    alloc: Global,
    classes: &Classes<'a>,
    op: FieldOp,
    field: &'a FieldRef,
    name: &'a Name,
) -> Result<MemberNumber, LinkFault>
    ensures refusal { Answers result (found_field_refusal op field.now.name (resolve_field classes.now.program.now name.now field.now.name field.now.descriptor)) }
    ensures found { IfOk result (NumbersField classes.now.program.now (resolve_field classes.now.program.now name.now field.now.name field.now.descriptor)) }
{
    let sought = SoughtField::of(field);
    let class = find_field_class(alloc, classes, &sought, name)?;
    let found = check_found_field(alloc, op, &sought, class)?;
    member_number(classes, found.class, found.number)
}

/// The field that an instruction uses, by number: it is there, is static where it is used so, and
/// System.out is not stored to (JVMS 5.4.3.2, 6.5).
#[tactic(auto, using(crate::proofs::Reasons::first_says))]
pub fn link_field<'a>(
    alloc: Global,
    classes: &Classes<'a>,
    op: FieldOp,
    field: &'a FieldRef,
) -> Result<MemberNumber, LinkFault>
    ensures refusal { Answers result (field_refusal classes.now.program.now op field.now) }
    ensures found { IfOk result (NumbersField classes.now.program.now (resolved_field classes.now.program.now field.now field.now.class)) }
{
    link_ref(alloc, classes, &field.class)?;
    match &field.class {
        ClassRef::Class(name) => resolve_field(alloc, classes, op, field, name),
        ClassRef::Array(_) => Err(no_field(alloc, &field.name)),
    }
}

fn is_interface_use(op: InvokeOp) -> bool
    ensures { result ≡ is_interface_use op }
{
    match op {
        InvokeOp::Interface => true,
        _ => false,
    }
}

fn is_static_call(op: InvokeOp) -> bool
    ensures { result ≡ is_static_call op }
{
    match op {
        InvokeOp::Static => true,
        _ => false,
    }
}

// That <init> is invoked by invokespecial alone.
fn check_init(alloc: Global, op: InvokeOp, name: &Name) -> Result<(), LinkFault>
    ensures { Answers result (init_refusal op name.now) }
{
    match op {
        InvokeOp::Special => Ok(()),
        _ if name.is_init() => Err(wrong_kind(alloc, name)),
        _ => Ok(()),
    }
}

// The class that declares the method, and the method's number there.
fn check_found_method<'a>(
    alloc: Global,
    op: InvokeOp,
    sought: &SoughtMethod<'a>,
    class: Option<&Members<'a>>,
) -> Result<FoundMember<'a>, LinkFault>
    ensures refusal { Answers result (found_method_refusal op sought.now.method.now.name
        (found_method sought.now.method.now.name sought.now.method.now.descriptor (option_map (λ m. m.now.class.now) class.entry))) }
    ensures found { IfOk result (λ member. FindsMethod
        (found_method sought.now.method.now.name sought.now.method.now.descriptor (option_map (λ m. m.now.class.now) class.entry)) member) }
{
    let name = &sought.method.name;
    let Some(members) = class else {
        return Err(no_method(alloc, name));
    };
    let Some(found) = members.method(&sought.key) else {
        return Err(no_method(alloc, name));
    };
    if !are_same(
        found.method.flags.has(AccessFlags::STATIC),
        is_static_call(op),
    ) {
        return Err(wrong_kind(alloc, name));
    }
    Ok(FoundMember {
        class: members.class,
        number: found.number,
    })
}

// The number of the class that an invoke names, which is an interface for invokeinterface alone.
#[tactic(auto, using(crate::proofs::Reasons::memory_says))]
fn find_receiver<'a>(
    alloc: Global,
    classes: &Classes<'a>,
    op: InvokeOp,
    name: &'a Name,
) -> Result<u32, LinkFault>
    ensures refusal { Answers result (named_class_refusal op name.now (class_named classes.now.program.now name.now)) }
    ensures named { IfOk result (λ n. NamesClass classes.now.program.now n name.now) }
{
    let Some(class) = classes.find(name) else {
        return Err(no_class(alloc, name));
    };
    if !are_same(
        class.flags.has(AccessFlags::INTERFACE),
        is_interface_use(op),
    ) {
        return Err(wrong_kind(alloc, name));
    }
    known_class(classes, name)
}

// The method of the class of the name, or above it.
#[tactic(auto, using(crate::proofs::Reasons::memory_says))]
fn resolve_method<'a>(
    alloc: Global,
    classes: &Classes<'a>,
    op: InvokeOp,
    sought: &SoughtMethod<'a>,
    name: &'a Name,
) -> Result<MemberNumber, LinkFault>
    ensures refusal { Answers result (found_method_refusal op sought.now.method.now.name
        (resolve_method classes.now.program.now name.now sought.now.method.now.name sought.now.method.now.descriptor)) }
    ensures found { IfOk result (NumbersMethod classes.now.program.now
        (resolve_method classes.now.program.now name.now sought.now.method.now.name sought.now.method.now.descriptor)) }
{
    let class = find_method_class(alloc, classes, sought, name)?;
    let found = check_found_method(alloc, op, sought, class)?;
    member_number(classes, found.class, found.number)
}

// The selector of a method's name and type, which some class declares.
fn known_selector<'a>(classes: &Classes<'a>, sought: &SoughtMethod<'a>) -> u32
    requires { IsTrue (is_some (selector_of classes.now.program.now sought.now.method.now.name sought.now.method.now.descriptor)) }
    ensures { selector_of classes.now.program.now sought.now.method.now.name sought.now.method.now.descriptor ≡ Some result }
{
    let Some(selector) = classes.selector(&sought.key) else {
        unreachable!()
    };
    selector
}

// The invoked method of a class by its name.
#[tactic(auto, using(crate::proofs::Reasons::first_says))]
fn link_method_of<'a>(
    alloc: Global,
    classes: &Classes<'a>,
    op: InvokeOp,
    method: &'a MethodRef,
    name: &'a Name,
) -> Result<InvokedMethod, LinkFault>
    requires { method.now.class ≡ named.Class name.now }
    ensures refusal { Answers result (method_refusal classes.now.program.now op method.now method.now.class) }
    ensures found { IfOk result (Invokes classes.now.program.now method.now) }
{
    let receiver = find_receiver(alloc, classes, op, name)?;
    check_init(alloc, op, &method.name)?;
    let sought = SoughtMethod::of(alloc, method)?;
    let found = resolve_method(alloc, classes, op, &sought, name)?;
    Ok(InvokedMethod {
        named: receiver,
        found,
        selector: known_selector(classes, &sought),
    })
}

/// The method that an instruction invokes, by number: the class that it names is there and is an
/// interface for `invokeinterface` alone, `<init>` stands with `invokespecial`, the method is there,
/// and is static for `invokestatic` alone (JVMS 5.4.3.3, 5.4.3.4, 6.5).
#[tactic(auto, using(crate::proofs::Reasons::first_says))]
pub fn link_method<'a>(
    alloc: Global,
    classes: &Classes<'a>,
    op: InvokeOp,
    method: &'a MethodRef,
) -> Result<InvokedMethod, LinkFault>
    ensures refusal { Answers result (method_refusal classes.now.program.now op method.now method.now.class) }
    ensures found { IfOk result (Invokes classes.now.program.now method.now) }
{
    match &method.class {
        ClassRef::Class(name) => link_method_of(alloc, classes, op, method, name),
        ClassRef::Array(array) => {
            link_element(alloc, classes, &array.element)?;
            check_init(alloc, op, &method.name)?;
            Err(no_method(alloc, &method.name))
        }
    }
}

/// The class of which `new` makes an object, by number: it is no interface and not abstract, and
/// none of String, System and PrintStream (JVMS 6.5 new).
#[tactic(auto, using(crate::proofs::Reasons::memory_says))]
pub fn link_new<'a>(alloc: Global, classes: &Classes<'a>, name: &'a Name) -> Result<u32, LinkFault>
    ensures refusal { Answers result (new_refusal name.now (class_named classes.now.program.now name.now)) }
    ensures named { IfOk result (λ n. NamesClass classes.now.program.now n name.now) }
{
    let Some(class) = classes.find(name) else {
        return Err(no_class(alloc, name));
    };
    if class.flags.has(AccessFlags::INTERFACE)
        || class.flags.has(AccessFlags::ABSTRACT)
        || is_sealed(name)
    {
        return Err(wrong_kind(alloc, name));
    }
    known_class(classes, name)
}

fn link_catch_type<'a>(
    alloc: Global,
    classes: &Classes<'a>,
    catch_type: &'a Option<Name>,
) -> Result<Option<u32>, LinkFault>
    ensures refusal { Answers result (catch_type_refusal classes.now.program.now catch_type.now) }
    ensures named { IfOk result (λ n. option_map (class_name_of classes.now.program.now) n ≡ catch_type.now) }
    ensures caught { IfOk result (λ n. IfSome n (λ k. NamesClass classes.now.program.now k (class_name_of classes.now.program.now k))) }
{
    match catch_type {
        None => Ok(None),
        Some(name) => Ok(Some(find_class(alloc, classes, name)?)),
    }
}

pub fn link_handler<'a>(
    alloc: Global,
    classes: &Classes<'a>,
    handler: &'a Handler,
) -> Result<LinkedHandler, LinkFault>
    ensures refusal { Answers result (catch_refusal classes.now.program.now handler.now) }
    ensures linked { IfOk result (λ linked. handler_in classes.now.program.now linked ≡ handler.now) }
    ensures caught { IfOk result (CatchesClass classes.now.program.now) }
{
    let catch_type = link_catch_type(alloc, classes, &handler.catch_type)?;
    Ok(LinkedHandler {
        start: handler.start,
        end: handler.end,
        target: handler.target,
        catch_type,
    })
}

/// The rows of an exception table, whose catch types are there.
pub fn link_handlers<'a>(
    alloc: Global,
    classes: &Classes<'a>,
    handlers: &'a [Handler],
) -> Result<Sequence<LinkedHandler>, LinkFault>
    ensures refusal { Answers result (first_of_all (catch_refusal classes.now.program.now) handlers.now) }
    ensures linked { IfOk result (λ linked. map (handler_in classes.now.program.now) linked ≡ handlers.now) }
    ensures caught { IfOk result (λ linked. AllByRecursion (CatchesClass classes.now.program.now) linked) }
{
    let mut linked = Vec::new(alloc);
    for handler in handlers {
        linked.push(link_handler(alloc, classes, handler)?)?;
    }
    Ok(Sequence::new(linked))
}

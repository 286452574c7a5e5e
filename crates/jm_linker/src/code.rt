// The methods with code, with their names resolved.

ghost use Rattle.std.specs.Prelude.{◌≡◌, List, IfOk, MatchOption, MatchResult, OnOk, Some, None, false, true, map, option_map, slice_get};
ghost use Rattle.std.specs.List.{AllByRecursion, flat_map};
ghost use Rattle.jm_program.specs.declared.class.ClassParts.{ClassParts};
ghost use Rattle.jm_program.specs.declared.instruction.operation.InvokeOp.TheVariants.{Special};
ghost use Rattle.jm_program.specs.declared.instruction.symbolic.Instr.TheVariants as instr;
ghost use Rattle.jm_world.specs.Loading.{text_of, texts_of_instruction};
ghost use Rattle.jm_world.specs.Loads.{instruction_refusal, catch_refusal, method_code_refusal, first_of_all, or_else};
ghost use Rattle.jm_linked.specs.Kinds.{kind_of};
ghost use Rattle.jm_linked.specs.Links.{LinksIn, CallsFrom, AllLinkIn, coded_from, is_class_call, place_of, prints, reads_system_out};
ghost use Rattle.jm_linked.specs.PrintStreams.{is_print};
ghost use Rattle.jm_linker.specs.Answers.{Answers, IsOutOfMemory};
ghost use Rattle.jm_linker.specs.FoundNumbers.{Invokes};
ghost use Rattle.jm_linker.specs.LinkedMethods.{LinksCode, LinksAlone, LinksClass};
ghost use Rattle.jm_linker.specs.Literals.{AreLiterals};

use crate::classes::Classes;
use crate::constants::linked_constant;
use crate::fault::LinkFault;
use crate::number::short_number;
use crate::print_streams::{is_system_out, print_method};
use crate::references::{link_field, link_handlers, link_method, link_new, link_ref};
use crate::special::called_method;
use jm_linked::{
    InvokedMethod, LinkedCode, LinkedConstant, LinkedInstr, LinkedMethod, PrintMethod, ValueKind,
};
use jm_program::{
    AccessFlags, Class, Code, Constant, FieldOp, FieldRef, FieldType, Instr, InvokeOp, Method,
    MethodDescriptor, MethodRef, Name, Plain, Sequence,
};
use std::alloc::{AllocError, Global};

fn link_constant<'a>(classes: &Classes<'a>, constant: &'a Constant) -> LinkedInstr
    requires { AreLiterals classes.now.program.now (text_of constant.now) }
    ensures { LinksIn classes.now.program.now result (instr.Constant constant.now) }
{
    match linked_constant(classes, constant) {
        LinkedConstant::Int(number) => LinkedInstr::Int(number),
        LinkedConstant::Long(number) => LinkedInstr::Long(number),
        LinkedConstant::Literal(number) => LinkedInstr::Literal(number),
    }
}

fn link_plain(plain: &Plain) -> Result<LinkedInstr, LinkFault>
    ensures refusal { (program : List ClassParts) → Answers result (instruction_refusal program (instr.Plain plain.now)) }
    ensures linked { (program : List ClassParts) → IfOk result (λ linked. LinksIn program linked (instr.Plain plain.now)) }
{
    Ok(LinkedInstr::Plain(plain.share()?))
}

fn reads_system_out(op: FieldOp, field: &FieldRef) -> bool
    ensures { result ≡ reads_system_out op field.now }
{
    match op {
        FieldOp::GetStatic => is_system_out(field),
        _ => false,
    }
}

fn link_field_use<'a>(
    alloc: Global,
    classes: &Classes<'a>,
    op: FieldOp,
    field: &'a FieldRef,
) -> Result<LinkedInstr, LinkFault>
    ensures refusal { Answers result (instruction_refusal classes.now.program.now (instr.Field op field.now)) }
    ensures linked { IfOk result (λ linked. LinksIn classes.now.program.now linked (instr.Field op field.now)) }
{
    let number = link_field(alloc, classes, op, field)?;
    if reads_system_out(op, field) {
        return Ok(LinkedInstr::SystemOut);
    }
    Ok(LinkedInstr::Field(op, number))
}

// Whether it calls a method of a class's instances.
fn is_class_call(op: InvokeOp) -> bool
    ensures { result ≡ is_class_call op }
{
    match op {
        InvokeOp::Virtual | InvokeOp::Special => true,
        InvokeOp::Static | InvokeOp::Interface => false,
    }
}

// The method that prints, where the instruction invokes one.
fn printing(op: InvokeOp, method: &MethodRef) -> Option<PrintMethod>
    ensures { MatchOption result (prints op method.now ≡ false) (λ print. (is_class_call op ≡ true) × (is_print method.now print ≡ true)) }
{
    if is_class_call(op) {
        print_method(method)
    } else {
        None
    }
}

// An invokespecial in a class, of the method that it calls.
fn link_special<'a>(
    alloc: Global,
    classes: &Classes<'a>,
    caller: &'a Name,
    method: &'a MethodRef,
    invoked: InvokedMethod,
) -> Result<LinkedInstr, LinkFault>
    requires resolved { Invokes classes.now.program.now method.now invoked }
    requires loads { instruction_refusal classes.now.program.now (instr.Invoke Special method.now) ≡ None }
    ensures { MatchResult result (λ linked. LinksIn classes.now.program.now linked (instr.Invoke Special method.now)
        × CallsFrom classes.now.program.now caller.now linked (instr.Invoke Special method.now)) (λ fault. IsOutOfMemory fault) }
{
    match called_method(alloc, classes, caller, method, invoked)? {
        Some(found) => Ok(LinkedInstr::Special(InvokedMethod { found, ..invoked })),
        None => Ok(LinkedInstr::NoSpecial(invoked)),
    }
}

#[tactic(auto, using(crate::proofs::Reasons::memory_says))]
fn link_invoke<'a>(
    alloc: Global,
    classes: &Classes<'a>,
    caller: &'a Name,
    op: InvokeOp,
    method: &'a MethodRef,
) -> Result<LinkedInstr, LinkFault>
    ensures refusal { Answers result (instruction_refusal classes.now.program.now (instr.Invoke op method.now)) }
    ensures linked { IfOk result (λ linked. LinksIn classes.now.program.now linked (instr.Invoke op method.now)) }
    ensures calls { IfOk result (λ linked. CallsFrom classes.now.program.now caller.now linked (instr.Invoke op method.now)) }
{
    let invoked = link_method(alloc, classes, op, method)?;
    if let Some(print) = printing(op, method) {
        return Ok(LinkedInstr::Print(print));
    }
    match op {
        InvokeOp::Special => link_special(alloc, classes, caller, method, invoked),
        InvokeOp::Virtual | InvokeOp::Static | InvokeOp::Interface => {
            Ok(LinkedInstr::Invoke(op, invoked))
        }
    }
}

#[tactic(auto, using(crate::proofs::Reasons::memory_says))]
fn link_instruction<'a>(
    alloc: Global,
    classes: &Classes<'a>,
    caller: &'a Name,
    instruction: &'a Instr,
) -> Result<LinkedInstr, LinkFault>
    requires { AreLiterals classes.now.program.now (texts_of_instruction instruction.now) }
    ensures refusal { Answers result (instruction_refusal classes.now.program.now instruction.now) }
    ensures linked { IfOk result (λ linked. LinksIn classes.now.program.now linked instruction.now) }
    ensures calls { IfOk result (λ linked. CallsFrom classes.now.program.now caller.now linked instruction.now) }
{
    match instruction {
        Instr::Plain(plain) => link_plain(plain),
        Instr::Array(op) => Ok(LinkedInstr::Array(*op)),
        Instr::Return(op) => Ok(LinkedInstr::Return(*op)),
        Instr::Throw => Ok(LinkedInstr::Throw),
        Instr::Monitor(op) => Ok(LinkedInstr::Monitor(*op)),
        Instr::Constant(constant) => Ok(link_constant(classes, constant)),
        Instr::Field(op, field) => link_field_use(alloc, classes, *op, field.get()),
        Instr::Invoke(op, method) => link_invoke(alloc, classes, caller, *op, method.get()),
        Instr::New(name) => Ok(LinkedInstr::New(link_new(alloc, classes, name.get())?)),
        Instr::Type(op, class) => Ok(LinkedInstr::Type(
            *op,
            link_ref(alloc, classes, class.get())?,
        )),
    }
}

// The instructions of a method of a class.
fn link_instructions<'a>(
    alloc: Global,
    classes: &Classes<'a>,
    caller: &'a Name,
    instructions: &'a [Instr],
) -> Result<LinkedCode, LinkFault>
    requires { AreLiterals classes.now.program.now (flat_map texts_of_instruction instructions.now) }
    ensures refusal { Answers result (first_of_all (instruction_refusal classes.now.program.now) instructions.now) }
    ensures linked { IfOk result (λ linked. AllLinkIn classes.now.program.now caller.now linked instructions.now) }
{
    let mut linked = Vec::with_capacity(alloc, instructions.len())?;
    for instruction in instructions {
        linked.push(link_instruction(alloc, classes, caller, instruction)?)?;
    }
    Ok(LinkedCode::new(alloc, linked)?)
}

fn result_kind(descriptor: &MethodDescriptor) -> Option<ValueKind>
    ensures { result ≡ option_map kind_of descriptor.now.return_type }
{
    match &descriptor.return_type {
        Some(field_type) => Some(ValueKind::of(field_type)),
        None => None,
    }
}

// What parameters hold, in their order.
fn parameter_kinds(
    alloc: Global,
    parameters: &[FieldType],
) -> Result<Sequence<ValueKind>, AllocError>
    ensures { IfOk result (λ kinds. kinds ≡ map kind_of parameters.now) }
{
    let mut kinds = Vec::with_capacity(alloc, parameters.len())?;
    for parameter in parameters {
        kinds.push(ValueKind::of(parameter))?;
    }
    Ok(Sequence::new(kinds))
}

// The method of a number of a class, by the class's number among the program's and its name.
#[tactic(auto, using(crate::proofs::Reasons::first_says))]
fn link_code<'a>(
    alloc: Global,
    classes: &Classes<'a>,
    class: u32,
    member: u32,
    caller: &'a Name,
    method: &Method,
    code: &'a Code,
) -> Result<LinkedMethod, LinkFault>
    requires { AreLiterals classes.now.program.now (flat_map texts_of_instruction code.now.instructions) }
    ensures refusal { Answers result (or_else (first_of_all (instruction_refusal classes.now.program.now) code.now.instructions)
        (first_of_all (catch_refusal classes.now.program.now) code.now.handlers)) }
    ensures linked { IfOk result (LinksCode classes.now.program.now class member caller.now method.now code.now) }
{
    let instructions = link_instructions(alloc, classes, caller, code.instructions.as_slice())?;
    let handlers = link_handlers(alloc, classes, code.handlers.as_slice())?;
    let parameters = parameter_kinds(alloc, method.descriptor.parameters.as_slice())?;
    Ok(LinkedMethod {
        class,
        member,
        parameters,
        result: result_kind(&method.descriptor),
        is_synchronized: method.flags.has(AccessFlags::SYNCHRONIZED),
        max_stack: code.max_stack,
        max_locals: code.max_locals,
        code: instructions,
        handlers,
    })
}

// The methods with code of a class, by its number among the program's, behind others.
fn link_class<'a>(
    alloc: Global,
    classes: &Classes<'a>,
    number: u32,
    class: &'a Class,
    linked: &mut Vec<LinkedMethod>,
) -> Result<(), LinkFault>
    requires { slice_get classes.now.program.now number ≡ Some class.now }
    ensures refusal { Answers result (first_of_all (method_code_refusal classes.now.program.now) class.now.methods) }
    ensures linked { OnOk result (LinksClass classes.now.program.now number class.now.methods linked.old.items linked.new.items) }
{
    let parts = class.parts();
    let methods = parts.methods.as_slice();
    for (index, method) in methods.iter().enumerate() {
        let Some(code) = &method.code else {
            continue;
        };
        let member = short_number(index)?;
        let method = link_code(alloc, classes, number, member, &parts.name, method, code)?;
        linked.push(method)?;
    }
    Ok(())
}

/// The methods with code of the program, in the order of the classes and of the methods of each: what
/// their instructions and exception tables name is there, and is of the kind that it is used as.
pub fn link_classes<'a>(
    alloc: Global,
    classes: &Classes<'a>,
) -> Result<Vec<LinkedMethod>, LinkFault>
    ensures refusal { Answers result (first_of_all (λ (c : ClassParts). first_of_all (method_code_refusal classes.now.program.now) c.methods) classes.now.program.now) }
    ensures places { IfOk result (λ methods. map place_of methods.items ≡ coded_from 0 classes.now.program.now) }
    ensures linked { IfOk result (λ methods. AllByRecursion (LinksAlone classes.now.program.now) methods.items) }
{
    let mut linked = Vec::new(alloc);
    for (index, class) in classes.program.iter().enumerate() {
        let number = short_number(index)?;
        link_class(alloc, classes, number, class, &mut linked)?;
    }
    Ok(linked)
}

// The first part of a class that its text cannot say, in the order of the text.

ghost use Rattle.std.specs.Prelude.{◌≡◌, not};
ghost use Rattle.std.specs.List.{position};
ghost use Rattle.jm_disassembler.specs.Names.{is_sayable};
ghost use Rattle.jm_disassembler.specs.Said.{instr_said};
ghost use Rattle.jm_disassembler.specs.Bodies.{handler_said, lines_said, sizes_said};
ghost use Rattle.jm_disassembler.specs.Unsaid.{value_said, field_part, fields_part, rows_part, instructions_part, handlers_part, code_part, method_part, methods_part, source_said, super_said, header_part, first_unsaid};

use crate::flags::{class_flags_said, member_flags_said};
use crate::names::{is_plain_method_type, is_plain_type, is_sayable};
use crate::said::{constant_said, instr_said, is_short, no_parenthesis};
use crate::unsaid::{ClassPart, FieldPart, MethodPart, Unsaid};
use jm_program::{
    ClassParts, Code, Constant, Field, Handler, Instr, LineNumber, Method, Name, Sequence,
};

const EQUALS: [u16; 1] = [61];

const ALL: [u16; 3] = [97, 108, 108];

const MOST_INSTRUCTIONS: usize = 4_294_967_295;

// ---- of a field

fn value_said(value: &Option<Constant>) -> bool
    ensures { result ≡ value_said value.now }
{
    match value {
        None => true,
        Some(value) => constant_said(value),
    }
}

/// The first part of a field that its text cannot say, in the order of the text.
pub fn field_part(field: &Field) -> Option<FieldPart>
    ensures { result ≡ field_part field.now }
{
    let name = field.name.units();
    if !member_flags_said(field.flags.bits) {
        Some(FieldPart::Flags)
    } else if !(is_sayable(name) && (field.constant.is_some() || name != EQUALS.as_slice())) {
        Some(FieldPart::Name)
    } else if !(is_plain_type(&field.descriptor) && value_said(&field.constant)) {
        Some(FieldPart::Type)
    } else {
        None
    }
}

fn fields_part(fields: &[Field]) -> Option<Unsaid>
    ensures { result ≡ fields_part 0 fields.now }
{
    for number in 0..fields.len() {
        match field_part(&fields[number]) {
            Some(part) => return Some(Unsaid::Field(number, part)),
            None => {}
        }
    }
    None
}

// ---- of a method

fn handler_said(handler: &Handler) -> bool
    ensures { result ≡ handler_said handler.now }
{
    match &handler.catch_type {
        None => true,
        Some(name) => is_sayable(name.units()) && name.units() != ALL.as_slice(),
    }
}

fn first_handler(handlers: &[Handler]) -> Option<usize>
    ensures { result ≡ position (λ h. not (handler_said h)) handlers.now }
{
    handlers.iter().position(|handler| !handler_said(handler))
}

fn first_instruction(instructions: &[Instr]) -> Option<usize>
    ensures { result ≡ position (λ i. not (instr_said i)) instructions.now }
{
    instructions
        .iter()
        .position(|instruction| !instr_said(instruction))
}

fn lines_said(lines: &[LineNumber]) -> bool
    ensures { result ≡ lines_said 0 lines.now }
{
    let mut least = 0;
    for row in lines {
        if row.start < least || !is_short(row.line) {
            return false;
        }
        least = row.start;
    }
    true
}

fn sizes_said(code: &Code) -> bool
    ensures { result ≡ sizes_said code.now }
{
    is_short(code.max_stack)
        && is_short(code.max_locals)
        && code.instructions.as_slice().len() < MOST_INSTRUCTIONS
}

fn rows_part(code: &Code) -> Option<MethodPart>
    ensures { result ≡ rows_part code.now }
{
    if lines_said(code.lines.as_slice()) {
        None
    } else {
        Some(MethodPart::Lines)
    }
}

fn instructions_part(code: &Code) -> Option<MethodPart>
    ensures { result ≡ instructions_part code.now }
{
    match first_instruction(code.instructions.as_slice()) {
        Some(number) => Some(MethodPart::Instruction(number)),
        None => rows_part(code),
    }
}

fn handlers_part(code: &Code) -> Option<MethodPart>
    ensures { result ≡ handlers_part code.now }
{
    match first_handler(code.handlers.as_slice()) {
        Some(number) => Some(MethodPart::Handler(number)),
        None => instructions_part(code),
    }
}

fn code_part(code: &Option<Code>) -> Option<MethodPart>
    ensures { result ≡ code_part code.now }
{
    let Some(code) = code else {
        return None;
    };
    if !sizes_said(code) {
        return Some(MethodPart::Length);
    }
    handlers_part(code)
}

/// The first part of a method that its text cannot say, in the order of the text.
pub fn method_part(method: &Method) -> Option<MethodPart>
    ensures { result ≡ method_part method.now }
{
    let name = method.name.units();
    if !member_flags_said(method.flags.bits) {
        Some(MethodPart::Flags)
    } else if !(is_sayable(name) && no_parenthesis(name)) {
        Some(MethodPart::Name)
    } else if !is_plain_method_type(&method.descriptor) {
        Some(MethodPart::Type)
    } else {
        code_part(&method.code)
    }
}

fn methods_part(methods: &[Method]) -> Option<Unsaid>
    ensures { result ≡ methods_part 0 methods.now }
{
    for number in 0..methods.len() {
        match method_part(&methods[number]) {
            Some(part) => return Some(Unsaid::Method(number, part)),
            None => {}
        }
    }
    None
}

// ---- of a class

fn source_said(source: &Option<Sequence<u16>>) -> bool
    ensures { result ≡ source_said source.now }
{
    match source {
        None => true,
        Some(name) => !name.as_slice().is_empty() && is_sayable(name.as_slice()),
    }
}

fn super_said(superclass: &Option<Name>) -> bool
    ensures { result ≡ super_said superclass.now }
{
    match superclass {
        None => false,
        Some(name) => is_sayable(name.units()),
    }
}

fn first_interface(names: &[Name]) -> Option<usize>
    ensures { result ≡ position (λ name. not (is_sayable name)) names.now }
{
    names.iter().position(|name| !is_sayable(name.units()))
}

/// The first part of the lines before the fields that its text cannot say, in the order of the text.
pub fn header_part(class: &ClassParts) -> Option<ClassPart>
    ensures { result ≡ header_part class.now }
{
    if !source_said(&class.source_file) {
        Some(ClassPart::SourceFile)
    } else if !class_flags_said(class.flags) {
        Some(ClassPart::Flags)
    } else if !is_sayable(class.name.units()) {
        Some(ClassPart::Name)
    } else if !super_said(&class.superclass) {
        Some(ClassPart::Superclass)
    } else {
        match first_interface(class.interfaces.as_slice()) {
            None => None,
            Some(number) => Some(ClassPart::Interface(number)),
        }
    }
}

/// The first part of a class that its text cannot say, in the order of the text.
#[tactic(auto, unfolding(crate::specs::Unsaid::first_unsaid))]
pub fn first_of(class: &ClassParts) -> Option<Unsaid>
    ensures { result ≡ first_unsaid class.now }
{
    if let Some(part) = header_part(class) {
        return Some(Unsaid::Class(part));
    }
    let unsaid = fields_part(class.fields.as_slice());
    if unsaid.is_some() {
        return unsaid;
    }
    methods_part(class.methods.as_slice())
}

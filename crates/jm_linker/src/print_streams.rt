// System.out, and the methods of java/io/PrintStream by name and type.

ghost use Rattle.std.specs.Prelude.{◌≡◌, [], ◌∷◌, None};
ghost use Rattle.jm_linked.specs.PrintStreams.{is_class_called, is_system_out, base_type, printed_type, print_name, print_parameters, is_print, print_among, print_methods};
ghost use Rattle.jm_program.specs.Names.{same_text};
ghost use Rattle.jm_world.specs.Classes.{system_class, print_stream_class, string_class};
ghost use Rattle.jm_world.specs.Types.{class_type, same_type, same_types};

use crate::name::{is_print_stream, is_system};
use crate::types::returns_nothing;
use jm_linked::{PrintMethod, Printed, letter};
use jm_program::{BaseType, ClassRef, ElementType, FieldRef, FieldType, MethodRef, Name};

fn is_print_stream_type(field_type: &FieldType) -> bool
    ensures { result ≡ same_type field_type.now (class_type print_stream_class) }
{
    field_type.dimensions == 0
        && match &field_type.element {
            ElementType::Base(_) => false,
            ElementType::Class(name) => is_print_stream(name),
        }
}

/// Whether it is System.out.
pub fn is_system_out(field: &FieldRef) -> bool
    ensures { result ≡ is_system_out field.now }
{
    let ClassRef::Class(class) = &field.class else {
        return false;
    };
    is_system(class) && field.name.is_text(b"out") && is_print_stream_type(&field.descriptor)
}

fn is_base(field_type: &FieldType, base: BaseType) -> bool
    ensures { result ≡ same_type field_type.now (base_type base) }
{
    field_type.dimensions == 0
        && match &field_type.element {
            ElementType::Base(element) => letter(*element) == letter(base),
            ElementType::Class(_) => false,
        }
}

fn is_string(field_type: &FieldType) -> bool
    ensures { result ≡ same_type field_type.now (class_type string_class) }
{
    field_type.dimensions == 0
        && match &field_type.element {
            ElementType::Base(_) => false,
            ElementType::Class(name) => name.is_string(),
        }
}

fn is_printed(field_type: &FieldType, printed: Printed) -> bool
    ensures { result ≡ same_type field_type.now (printed_type printed) }
{
    match printed {
        Printed::Int => is_base(field_type, BaseType::Int),
        Printed::Long => is_base(field_type, BaseType::Long),
        Printed::Char => is_base(field_type, BaseType::Char),
        Printed::String => is_string(field_type),
    }
}

fn is_print_name(name: &Name, method: PrintMethod) -> bool
    ensures { result ≡ same_text name.now (print_name method) }
{
    match method {
        PrintMethod::Print(_) => name.is_text(b"print"),
        PrintMethod::Println(_) | PrintMethod::EndLine => name.is_text(b"println"),
    }
}

#[tactic(auto, using(crate::proofs::TypeLaws::same_types_one))]
fn is_one_printed(types: &[FieldType], printed: Printed) -> bool
    ensures { result ≡ same_types types.now (printed_type printed ∷ []) }
{
    types.len() == 1 && is_printed(&types[0], printed)
}

#[tactic(auto, using(crate::proofs::TypeLaws::same_types_none))]
fn are_print_parameters(types: &[FieldType], method: PrintMethod) -> bool
    ensures { result ≡ same_types types.now (print_parameters method) }
{
    match method {
        PrintMethod::Print(printed) | PrintMethod::Println(printed) => {
            is_one_printed(types, printed)
        }
        PrintMethod::EndLine => types.is_empty(),
    }
}

fn is_print(method: &MethodRef, print: PrintMethod) -> bool
    ensures { result ≡ is_print method.now print }
{
    let ClassRef::Class(class) = &method.class else {
        return false;
    };
    is_print_stream(class)
        && is_print_name(&method.name, print)
        && are_print_parameters(method.descriptor.parameters.as_slice(), print)
        && returns_nothing(&method.descriptor)
}

const PRINT_METHODS: [PrintMethod; 9] = [
    PrintMethod::Print(Printed::Int),
    PrintMethod::Print(Printed::Long),
    PrintMethod::Print(Printed::Char),
    PrintMethod::Print(Printed::String),
    PrintMethod::Println(Printed::Int),
    PrintMethod::Println(Printed::Long),
    PrintMethod::Println(Printed::Char),
    PrintMethod::Println(Printed::String),
    PrintMethod::EndLine,
];

fn print_among(prints: &[PrintMethod], method: &MethodRef) -> Option<PrintMethod>
    ensures { result ≡ print_among prints.now method.now }
{
    for print in prints {
        if is_print(method, *print) {
            return Some(*print);
        }
    }
    None
}

/// The method of PrintStream, which prints an int, a long, a char or a String, or ends a line.
pub fn print_method(method: &MethodRef) -> Option<PrintMethod>
    ensures { result ≡ print_among print_methods method.now }
{
    print_among(&PRINT_METHODS, method)
}

// The fields and methods of a built-in class, from their rows of the table.

ghost use Rattle.std.specs.Prelude.{◌≡◌, [], IfOk, codes, map};
ghost use Rattle.jm_builtins.specs.Members.{the_type, the_parameters, the_result, the_method, the_constructor, the_methods, the_field};

use crate::row::{FieldRow, MemberType, MethodRow, MethodRows};
use crate::text::name_of;
use jm_program::{
    AccessFlags, BaseType, ElementType, Field, FieldType, Method, MethodDescriptor, Name, Sequence,
    Shared,
};
use std::alloc::{AllocError, Global};

/// What the constructors without parameters share, so that it is made once.
#[derive(Drop)]
pub struct Constructor {
    name: Name,
    parameters: Shared<Sequence<FieldType>>,
    ghost named: { name ≡ codes "<init>" },
    ghost plain: { parameters ≡ [] },
}

impl Constructor {
    pub fn new(alloc: Global) -> Result<Constructor, AllocError> {
        let name = name_of(alloc, "<init>")?;
        Ok(Constructor {
            name: Name::shared(alloc, name.units())?,
            parameters: Shared::new(alloc, Sequence::new(Vec::new(alloc)))?,
        })
    }

    fn method(&self, alloc: Global) -> Result<Method, AllocError>
        ensures { IfOk result (λ m. m ≡ the_constructor) }
    {
        Ok(Method {
            flags: AccessFlags {
                bits: AccessFlags::PUBLIC,
            },
            name: self.name.copy(alloc)?,
            descriptor: MethodDescriptor {
                parameters: self.parameters.share()?,
                return_type: None,
            },
            code: None,
        })
    }
}

/// What the type holds in its last dimension.
fn element_of(alloc: Global, member_type: MemberType) -> Result<ElementType, AllocError>
    ensures { IfOk result (λ e. e ≡ (the_type member_type).element) }
{
    match member_type {
        MemberType::Int => Ok(ElementType::Base(BaseType::Int)),
        MemberType::Long => Ok(ElementType::Base(BaseType::Long)),
        MemberType::Char | MemberType::Chars => Ok(ElementType::Base(BaseType::Char)),
        MemberType::String => Ok(ElementType::Class(name_of(alloc, "java/lang/String")?)),
        MemberType::PrintStream => Ok(ElementType::Class(name_of(alloc, "java/io/PrintStream")?)),
    }
}

/// The type that a row names.
fn type_of(alloc: Global, member_type: MemberType) -> Result<FieldType, AllocError>
    ensures { IfOk result (λ t. t ≡ the_type member_type) }
{
    let element = element_of(alloc, member_type)?;
    let dimensions = match member_type {
        MemberType::Chars => 1,
        _ => 0,
    };
    Ok(FieldType {
        dimensions,
        element,
    })
}

fn parameters_of(
    alloc: Global,
    parameter: Option<MemberType>,
) -> Result<Sequence<FieldType>, AllocError>
    ensures { IfOk result (λ p. p ≡ the_parameters parameter) }
{
    let Some(member_type) = parameter else {
        return Ok(Sequence::new(Vec::new(alloc)));
    };
    let mut parameters = Vec::with_capacity(alloc, 1)?;
    parameters.push(type_of(alloc, member_type)?)?;
    Ok(Sequence::new(parameters))
}

fn result_of(alloc: Global, returned: Option<MemberType>) -> Result<Option<FieldType>, AllocError>
    ensures { IfOk result (λ t. t ≡ the_result returned) }
{
    match returned {
        Some(member_type) => Ok(Some(type_of(alloc, member_type)?)),
        None => Ok(None),
    }
}

fn method_of(alloc: Global, row: &MethodRow) -> Result<Method, AllocError>
    ensures { IfOk result (λ m. m ≡ the_method row.now) }
{
    let name = name_of(alloc, row.name)?;
    let parameters = parameters_of(alloc, row.parameter)?;
    let parameters = Shared::new(alloc, parameters)?;
    let return_type = result_of(alloc, row.result)?;
    Ok(Method {
        flags: AccessFlags {
            bits: AccessFlags::PUBLIC,
        },
        name,
        descriptor: MethodDescriptor {
            parameters,
            return_type,
        },
        code: None,
    })
}

fn field_of(alloc: Global, row: &FieldRow) -> Result<Field, AllocError>
    ensures { IfOk result (λ f. f ≡ the_field row.now) }
{
    let name = name_of(alloc, row.name)?;
    let descriptor = type_of(alloc, row.field_type)?;
    Ok(Field {
        flags: AccessFlags { bits: row.flags },
        name,
        descriptor,
        constant: None,
    })
}

// The methods of the rows, in order.
fn methods_in(alloc: Global, rows: &[MethodRow]) -> Result<Vec<Method>, AllocError>
    ensures { IfOk result (λ methods. methods.items ≡ map the_method rows.now) }
{
    let mut methods = Vec::with_capacity(alloc, rows.len())?;
    for row in rows {
        let method = method_of(alloc, row)?;
        methods.push(method)?;
    }
    Ok(methods)
}

/// The methods of a class, in order.
pub fn methods_of(
    alloc: Global,
    constructor: &Constructor,
    rows: &MethodRows,
) -> Result<Sequence<Method>, AllocError>
    ensures { IfOk result (λ methods. methods ≡ the_methods rows.now) }
{
    match rows {
        MethodRows::Constructor => {
            let mut methods = Vec::with_capacity(alloc, 1)?;
            methods.push(constructor.method(alloc)?)?;
            Ok(Sequence::new(methods))
        }
        MethodRows::Rows(rows) => Ok(Sequence::new(methods_in(alloc, rows)?)),
    }
}

/// The fields of the rows, in order.
pub fn fields_of(alloc: Global, rows: &[FieldRow]) -> Result<Sequence<Field>, AllocError>
    ensures { IfOk result (λ fields. fields ≡ map the_field rows.now) }
{
    let mut fields = Vec::with_capacity(alloc, rows.len())?;
    for row in rows {
        let field = field_of(alloc, row)?;
        fields.push(field)?;
    }
    Ok(Sequence::new(fields))
}

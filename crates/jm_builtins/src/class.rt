// A built-in class from its row of the table.

ghost use Rattle.std.specs.Prelude.{◌≡◌, IfOk, map, option_copied, option_to_list};
ghost use Rattle.jm_builtins.specs.Members.{the_class};

use crate::built_in::BuiltIn;
use crate::member::{Constructor, fields_of, methods_of};
use crate::row::ClassRow;
use crate::text::name_of;
use jm_program::{AccessFlags, Name, Sequence};
use std::alloc::{AllocError, Global};

fn superclass_of(alloc: Global, text: Option<&'static str>) -> Result<Option<Name>, AllocError>
    ensures { IfOk result (λ n. n ≡ option_copied text.entry) }
{
    match text {
        Some(text) => Ok(Some(name_of(alloc, text)?)),
        None => Ok(None),
    }
}

fn interfaces_of(alloc: Global, text: Option<&'static str>) -> Result<Sequence<Name>, AllocError>
    ensures { IfOk result (λ n. n ≡ option_to_list (option_copied text.entry)) }
{
    let Some(text) = text else {
        return Ok(Sequence::new(Vec::new(alloc)));
    };
    let mut names = Vec::with_capacity(alloc, 1)?;
    names.push(name_of(alloc, text)?)?;
    Ok(Sequence::new(names))
}

/// The class of a row.
fn class_of(alloc: Global, constructor: &Constructor, row: &ClassRow) -> Result<BuiltIn, AllocError>
    ensures { IfOk result (λ c. c ≡ the_class row.now) }
{
    let name = name_of(alloc, row.name)?;
    let superclass = superclass_of(alloc, row.superclass)?;
    let interfaces = interfaces_of(alloc, row.interface)?;
    let fields = fields_of(alloc, row.fields)?;
    let methods = methods_of(alloc, constructor, &row.methods)?;
    Ok(BuiltIn {
        flags: AccessFlags { bits: row.flags },
        name,
        superclass,
        interfaces,
        fields,
        methods,
    })
}

/// The classes of the rows, in order.
pub fn classes_of(alloc: Global, rows: &[ClassRow]) -> Result<Sequence<BuiltIn>, AllocError>
    ensures { IfOk result (λ classes. classes ≡ map the_class rows.now) }
{
    let constructor = Constructor::new(alloc)?;
    let mut classes = Vec::with_capacity(alloc, rows.len())?;
    for row in rows {
        let class = class_of(alloc, &constructor, row)?;
        classes.push(class)?;
    }
    Ok(Sequence::new(classes))
}

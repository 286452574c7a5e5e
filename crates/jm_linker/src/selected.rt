// Which methods are selected for the objects of each class (JVMS 5.4.5, 6.5 invokevirtual).

ghost use Rattle.std.specs.Prelude.{◌≡◌, ◌+◌, ◌-◌, ◌<◌, ◌^◌, false, IfOk, Some, length, option_to_list};
ghost use Rattle.jm_world.specs.Classes.{height};
ghost use Rattle.jm_world.specs.Loads.{Loads};
ghost use Rattle.jm_world.specs.Resolution.{counts};
ghost use Rattle.jm_tables.specs.Inheriting.{IsOrder};
ghost use Rattle.jm_linked.specs.Tables.{AreSelected};
ghost use Rattle.jm_linker.specs.Inherited.{AreClasses};
ghost use Rattle.jm_linker.specs.Selectors.{AreOwnCells, AreTheirMethods, StandFrom};

use crate::classes::Classes;
use crate::key::method_key;
use crate::tables::superclass_number;
use jm_program::{AccessFlags, ClassParts, Method};
use jm_tables::{Cell, Declared, MethodTable};
use std::alloc::{AllocError, Global};

// Static and private methods are selected for no object (JVMS 6.5 invokevirtual).
fn can_be_selected(method: &Method) -> bool
    ensures { result ≡ counts false method.now }
{
    !method.flags.has(AccessFlags::STATIC) && !method.flags.has(AccessFlags::PRIVATE)
}

// The number, among the methods of all classes, of one of a class before whose own so many stand.
fn method_number(before: usize, index: usize) -> Result<u32, AllocError>
    ensures { IfOk result (λ n. (n ≡ before + index) × (n < 2 ^ 32 - 1)) }
{
    let Some(number) = before.checked_add(index) else {
        return Err(AllocError);
    };
    match u32::try_from(number) {
        Ok(number) if number < u32::MAX => Ok(number),
        _ => Err(AllocError),
    }
}

// The methods of a class that can be selected, by their numbers among those of all classes, of which
// so many stand before the class's own; each in the column of its selector.
fn own_methods<'a>(
    alloc: Global,
    classes: &Classes<'a>,
    before: usize,
    class: &'a ClassParts,
) -> Result<Vec<Cell>, AllocError>
    requires { StandFrom classes.now.program.now before class.now }
    ensures { IfOk result (λ own. AreOwnCells classes.now.program.now class.now class.now.methods own.items) }
{
    let mut own = Vec::new(alloc);
    for (index, method) in class.methods.as_slice().iter().enumerate() {
        if can_be_selected(method) {
            let key = method_key(alloc, &method.name, &method.descriptor)?;
            let Some(column) = classes.selector(&key) else {
                unreachable!()
            };
            let number = method_number(before, index)?;
            own.push(Cell { column, number })?;
        }
    }
    Ok(own)
}

fn list_of(alloc: Global, number: Option<u32>) -> Result<Vec<u32>, AllocError>
    ensures { IfOk result (λ list. list.items ≡ option_to_list number) }
{
    let mut list = Vec::new(alloc);
    if let Some(number) = number {
        list.push(number)?;
    }
    Ok(list)
}

// Each class with its superclass's number and its methods that can be selected.
fn methods_of<'a>(
    alloc: Global,
    classes: &Classes<'a>,
    declarations: &[Declared],
) -> Result<Vec<Declared>, AllocError>
    requires { AreClasses classes.now.program.now (height classes.now.program.now) declarations.now }
    ensures { IfOk result (λ methods. AreTheirMethods classes.now.program.now declarations.now (length declarations.now) methods.items) }
{
    let mut methods = Vec::with_capacity(alloc, declarations.len())?;
    let mut before: usize = 0;
    for (number, declaration) in declarations.iter().enumerate() {
        let Some(class) = classes.class_at(number) else {
            unreachable!()
        };
        let above = list_of(alloc, superclass_number(class, declaration))?;
        let own = own_methods(alloc, classes, before, class)?;
        methods.push(Declared { above, own })?;
        let Some(next) = before.checked_add(class.methods.as_slice().len()) else {
            return Err(AllocError);
        };
        before = next;
    }
    Ok(methods)
}

/// The methods that are selected for an object of each class, from the classes with the numbers of
/// those right above them, made in an order of them. The error says that memory is refused, or that
/// there are 2^32 methods.
pub fn selected_of<'a>(
    alloc: Global,
    classes: &Classes<'a>,
    declarations: &[Declared],
    order: &[u32],
) -> Result<MethodTable, AllocError>
    requires loads { Loads classes.now.program.now }
    requires declarations { AreClasses classes.now.program.now (height classes.now.program.now) declarations.now }
    requires order { IsOrder declarations.now order.now }
    ensures { IfOk result (λ selected. AreSelected classes.now.program.now selected) }
{
    let Ok(selectors) = u32::try_from(classes.method_count()) else {
        return Err(AllocError);
    };
    let methods = methods_of(alloc, classes, declarations)?;
    let Some(selected) = MethodTable::of(alloc, selectors, &methods, order)? else {
        unreachable!()
    };
    Ok(selected)
}

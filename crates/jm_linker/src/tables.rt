// What a program's classes have by their numbers: which are above which, where their fields stand
// and what these hold or begin with, and which methods are selected for them or initialize them.

ghost use Rattle.std.specs.Prelude.{◌≡◌, ◌∷◌, [], IfOk, Some, length, map, option_to_list};
ghost use Rattle.jm_world.specs.Hierarchy.{parents};
ghost use Rattle.jm_world.specs.Loads.{Loads};
ghost use Rattle.jm_world.specs.Classes.{height};
ghost use Rattle.jm_tables.specs.Hierarchies.{own_cell};
ghost use Rattle.jm_tables.specs.Inheriting.{IsOrder};
ghost use Rattle.jm_tables.specs.declared.extent.DeclaredFields.{DeclaredFields as ModelFields};
ghost use Rattle.jm_linked.specs.Tables.{AreTables};
ghost use Rattle.jm_linker.specs.Inherited.{AreClasses, AreFieldTables, AreOwnTables, AreTheirFields, first_of};
ghost use Rattle.jm_linker.specs.NumberedClasses.{AreNumbers};
ghost use Rattle.jm_linker.specs.Orders.{AreThere};

use crate::classes::Classes;
use crate::codes::code_numbers;
use crate::constants::constants_of;
use crate::initializers::initializers_of;
use crate::order::order_of;
use crate::parents::superclass_of;
use crate::selected::selected_of;
use jm_linked::{LinkedConstant, Tables};
use jm_program::{AccessFlags, ClassParts, Name, Sequence};
use jm_tables::{Cell, Declared, DeclaredFields, FieldKinds, Hierarchy, Layout};
use std::alloc::{AllocError, Global};

// The numbers of the classes of the names.
fn numbers_of<'a>(
    alloc: Global,
    classes: &Classes<'a>,
    names: &'a [Name],
) -> Result<Vec<u32>, AllocError>
    requires { AreThere classes.now.program.now names.now }
    ensures { IfOk result (λ numbers. AreNumbers classes.now.program.now numbers.items names.now) }
{
    let mut numbers = Vec::new(alloc);
    for name in names {
        let Some(number) = classes.class_number(name) else {
            unreachable!()
        };
        let Ok(number) = u32::try_from(number) else {
            return Err(AllocError);
        };
        numbers.push(number)?;
    }
    Ok(numbers)
}

// The numbers of the classes right above one: of its superclass, and then of its superinterfaces.
fn above_of<'a>(
    alloc: Global,
    classes: &Classes<'a>,
    class: &'a ClassParts,
) -> Result<Vec<u32>, AllocError>
    requires { AreThere classes.now.program.now (parents (Some class.now)) }
    ensures { IfOk result (λ above. AreNumbers classes.now.program.now above.items (parents (Some class.now))) }
{
    let mut above = numbers_of(alloc, classes, superclass_of(class))?;
    let interfaces = numbers_of(alloc, classes, class.interfaces.as_slice())?;
    above.extend_from_slice(&interfaces)?;
    Ok(above)
}

fn own_cell(alloc: Global, column: u32) -> Result<Vec<Cell>, AllocError>
    ensures { IfOk result (λ own. own.items ≡ own_cell column ∷ []) }
{
    let mut own = Vec::with_capacity(alloc, 1)?;
    own.push(Cell { column, number: 0 })?;
    Ok(own)
}

// Each class with the numbers of those right above it.
fn declarations_of<'a>(
    alloc: Global,
    classes: &Classes<'a>,
    count: u32,
) -> Result<Vec<Declared>, AllocError>
    requires count { count ≡ height classes.now.program.now }
    requires loads { Loads classes.now.program.now }
    ensures { IfOk result (λ declarations. AreClasses classes.now.program.now (height classes.now.program.now) declarations.items) }
{
    let mut declarations = Vec::with_capacity(alloc, count as usize)?;
    for number in 0..count {
        let Some(class) = classes.class_at(number as usize) else {
            unreachable!()
        };
        let above = above_of(alloc, classes, class)?;
        let own = own_cell(alloc, number)?;
        declarations.push(Declared { above, own })?;
    }
    Ok(declarations)
}

/// The number of the superclass, which stands first among those right above a class.
pub fn superclass_number(class: &ClassParts, declaration: &Declared) -> Option<u32>
    ensures { result ≡ first_of class.now.superclass declaration.now.above.items }
{
    match class.superclass {
        Some(_) => Some(*declaration.above.first()?),
        None => None,
    }
}

// Each class with its superclass's number and its fields.
fn fields_of<'a>(
    alloc: Global,
    classes: &Classes<'a>,
    declarations: &[Declared],
) -> Result<Vec<DeclaredFields<'a>>, AllocError>
    requires { AreClasses classes.now.program.now (height classes.now.program.now) declarations.now }
    ensures { IfOk result (λ fields. AreTheirFields classes.now.program.now declarations.now (length declarations.now) fields.items) }
{
    let mut fields = Vec::with_capacity(alloc, declarations.len())?;
    for (number, declaration) in declarations.iter().enumerate() {
        let Some(class) = classes.class_at(number) else {
            unreachable!()
        };
        fields.push(DeclaredFields {
            superclass: superclass_number(class, declaration),
            fields: class.fields.as_slice(),
        })?;
    }
    Ok(fields)
}

// The superclasses' numbers.
fn superclasses_in(
    alloc: Global,
    fields: &[DeclaredFields<'_>],
) -> Result<Vec<Option<u32>>, AllocError>
    ensures { IfOk result (λ numbers. numbers.items ≡ map (λ (d : ModelFields). d.superclass) fields.now) }
{
    let mut numbers = Vec::with_capacity(alloc, fields.len())?;
    for class in fields {
        numbers.push(class.superclass)?;
    }
    Ok(numbers)
}

// When a class is expected: after those of lower ranks, which all of the program's classes have that
// are right above one. Of the built-in ones, each of which stands after its superclass, the
// interfaces come right after Object. What is expected is looked at by `order_of`, so nothing need be
// known of it.
#[derive(Clone, Copy)]
struct ClassExpected {
    rank: u32,
    depth: u8,
    number: u32,
}

// When the built-in class of a number is expected.
fn built_in_expected<'a>(classes: &Classes<'a>, number: usize, short: u32) -> ClassExpected {
    let depth = match classes.class_at(number) {
        Some(class) if class.superclass.is_none() => 0,
        Some(class) if class.flags.has(AccessFlags::INTERFACE) => 1,
        _ => 2,
    };
    ClassExpected {
        rank: 0,
        depth,
        number: short,
    }
}

// All classes in the order in which they are expected.
fn expected_order<'a>(
    alloc: Global,
    classes: &Classes<'a>,
    ranks: &[u32],
) -> Result<Vec<u32>, AllocError> {
    let built_ins = classes.built_ins.len();
    let mut expected = Vec::with_capacity(alloc, classes.height())?;
    for number in 0..classes.height() {
        let Ok(short) = u32::try_from(number) else {
            return Err(AllocError);
        };
        let class = match number.checked_sub(built_ins) {
            Some(own) => ClassExpected {
                rank: ranks.get(own).copied().unwrap_or(0),
                depth: 0,
                number: short,
            },
            None => built_in_expected(classes, number, short),
        };
        expected.push(class)?;
    }
    expected.sort_unstable_by_key(|class| (class.rank, class.depth, class.number));
    let mut order = Vec::with_capacity(alloc, expected.len())?;
    for class in expected.as_slice() {
        order.push(class.number)?;
    }
    Ok(order)
}

// The tables of the classes' fields and superclasses.
#[derive(Drop)]
struct FieldTables {
    layout: Layout,
    kinds: FieldKinds,
    superclasses: Sequence<Option<u32>>,
}

// The tables of the classes' fields and superclasses, made in an order of them.
fn field_tables<'a>(
    alloc: Global,
    classes: &Classes<'a>,
    declarations: &[Declared],
    order: &[u32],
) -> Result<FieldTables, AllocError>
    requires loads { Loads classes.now.program.now }
    requires declarations { AreClasses classes.now.program.now (height classes.now.program.now) declarations.now }
    requires order { IsOrder declarations.now order.now }
    ensures { IfOk result (λ tables. AreFieldTables classes.now.program.now tables) }
{
    let fields = fields_of(alloc, classes, declarations)?;
    let Some(layout) = Layout::of(alloc, &fields, order)? else {
        unreachable!()
    };
    let Some(kinds) = FieldKinds::of(alloc, &fields, order)? else {
        unreachable!()
    };
    let superclasses = Sequence::new(superclasses_in(alloc, &fields)?);
    Ok(FieldTables {
        layout,
        kinds,
        superclasses,
    })
}

// The tables of what the classes themselves declare.
#[derive(Drop)]
struct OwnTables {
    codes: Sequence<Option<u32>>,
    initializers: Sequence<Option<u32>>,
    constants: Sequence<Sequence<Option<LinkedConstant>>>,
}

fn own_tables<'a>(alloc: Global, classes: &Classes<'a>) -> Result<OwnTables, AllocError>
    ensures { IfOk result (λ own. AreOwnTables classes.now.program.now own) }
{
    let codes = code_numbers(alloc, classes)?;
    let initializers = initializers_of(alloc, classes)?;
    let constants = constants_of(alloc, classes)?;
    Ok(OwnTables {
        codes: Sequence::new(codes),
        initializers: Sequence::new(initializers),
        constants: Sequence::new(constants),
    })
}

// The tables of classes with the numbers of those right above them, made in an order of them.
fn tables_in<'a>(
    alloc: Global,
    classes: &Classes<'a>,
    declarations: &[Declared],
    order: &[u32],
) -> Result<Tables, AllocError>
    requires loads { Loads classes.now.program.now }
    requires declarations { AreClasses classes.now.program.now (height classes.now.program.now) declarations.now }
    requires order { IsOrder declarations.now order.now }
    ensures { IfOk result (λ tables. AreTables classes.now.program.now tables) }
{
    let Some(hierarchy) = Hierarchy::of(alloc, declarations, order)? else {
        unreachable!()
    };
    let of_fields = field_tables(alloc, classes, declarations, order)?;
    let selected = selected_of(alloc, classes, declarations, order)?;
    let own = own_tables(alloc, classes)?;
    Ok(Tables {
        hierarchy,
        layout: of_fields.layout,
        kinds: of_fields.kinds,
        selected,
        codes: own.codes,
        superclasses: of_fields.superclasses,
        initializers: own.initializers,
        constants: own.constants,
    })
}

/// What the classes of a program that loads have by their numbers, made in the order of the ranks
/// where these put each class behind those right above it. It takes 64 bytes for each digit of a
/// class's number, to the base 16, 88 more for a class and 26 for a field, 32 for a static one.
///
/// The error says that memory is refused, or that there are 2^32 classes or methods, or fields of a
/// class's instances.
pub fn tables_of<'a>(
    alloc: Global,
    classes: &Classes<'a>,
    ranks: &[u32],
) -> Result<Tables, AllocError>
    requires { Loads classes.now.program.now }
    ensures { IfOk result (λ tables. AreTables classes.now.program.now tables) }
{
    let Ok(count) = u32::try_from(classes.height()) else {
        return Err(AllocError);
    };
    let declarations = declarations_of(alloc, classes, count)?;
    let expected = expected_order(alloc, classes, ranks)?;
    let order = order_of(alloc, &declarations, count, &expected)?;
    tables_in(alloc, classes, &declarations, &order)
}

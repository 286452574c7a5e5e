// The kinds of the fields of a program's instances, by the class's number.

ghost use Rattle.std.specs.Prelude.{◌≡◌, ℕ, ◌<◌, [], ◌++◌, List, IfOk, IfSome, IsSome, None, Some, length, map, option_map, slice_index_or};
ghost use Rattle.jm_program.specs.declared.class.ClassParts.{ClassParts};
ghost use Rattle.jm_program.specs.declared.instruction.operation.OperandType.{OperandType as Kind};
ghost use Rattle.jm_world.specs.Types.{element_operand, operand_of};
ghost use Rattle.jm_tables.specs.Extents.{IsTopDown};
ghost use Rattle.jm_tables.specs.Layouts.{AreFields};
ghost use Rattle.jm_tables.specs.FieldKinds.{AreKept, AreKinds, HasKinds, IsKindRow, IsWhole, kinds_at, own_kinds, row_above};

use crate::extent::DeclaredFields;
use jm_program::{AccessFlags, BaseType, ElementType, Field, FieldType, OperandType};
use std::alloc::{AllocError, Global};
use std::marker::Model;

/// The kinds of an instance's fields: so many at the head of a list.
#[derive(Clone, Copy)]
pub struct KindRow {
    pub list: u32,
    pub length: u32,
}

/// The kinds of the fields of instances, by the classes' numbers. Classes share lists: the first
/// that goes on from its superclass's whole list goes on in place.
pub struct FieldKinds {
    lists: Vec<Vec<OperandType>>,
    rows: Vec<KindRow>,
}

// Written out, so that whoever lets go of one makes a call (docs/DECISIONS.md).
impl Drop for FieldKinds {
    fn drop(self) {
        let FieldKinds { lists: _, rows: _ } = self;
    }
}

impl Model for FieldKinds {
    ghost use Rattle.jm_tables.specs.FieldKinds.{KindsView};

    ghost Value = { KindsView };

    ghost view = { λ k. record { lists = k.lists.items; rows = k.rows.items } };
}

// The operands that hold values of an element (JVMS 2.11.1).
fn kind_of_element(element: &ElementType) -> OperandType
    ensures { result ≡ element_operand element.now }
{
    match element {
        ElementType::Base(BaseType::Long) => OperandType::Long,
        ElementType::Base(_) => OperandType::Int,
        ElementType::Class(_) => OperandType::Reference,
    }
}

// The operands that hold values of a type (JVMS 2.11.1).
fn kind_of(field_type: &FieldType) -> OperandType
    ensures { result ≡ operand_of field_type.now }
{
    if field_type.dimensions > 0 {
        return OperandType::Reference;
    }
    kind_of_element(&field_type.element)
}

// The kinds of the instance fields among those that a class declares.
fn kinds_among(alloc: Global, fields: &[Field]) -> Result<Vec<OperandType>, AllocError>
    ensures { IfOk result (λ kinds. kinds.items ≡ own_kinds fields.now) }
{
    let mut kinds = Vec::new(alloc);
    for field in fields {
        if !field.flags.has(AccessFlags::STATIC) {
            kinds.push(kind_of(&field.descriptor))?;
        }
    }
    Ok(kinds)
}

// A list of kinds copied.
fn copy_of(alloc: Global, kinds: &[OperandType]) -> Result<Vec<OperandType>, AllocError>
    ensures { IfOk result (λ copy. copy.items ≡ kinds.now) }
{
    let mut copy = Vec::with_capacity(alloc, kinds.len())?;
    copy.extend_from_slice(kinds)?;
    Ok(copy)
}

// The number of a list that is all of a row: the row's own, or a copy of the row's part of it.
fn whole_list(
    alloc: Global,
    lists: &mut Vec<Vec<OperandType>>,
    row: KindRow,
) -> Result<u32, AllocError>
    requires { IsKindRow lists.old.items row }
    ensures whole { (kinds : List Kind) → HasKinds lists.old.items row kinds
        → IfOk result (λ number. IsWhole lists.new.items number kinds) }
    ensures kept { IfOk result (λ number. AreKept lists.old.items lists.new.items) }
{
    let list = &lists[row.list as usize];
    if list.len() == row.length as usize {
        return Ok(row.list);
    }
    let Ok(number) = u32::try_from(lists.len()) else {
        return Err(AllocError);
    };
    let copy = copy_of(alloc, &list[..row.length as usize])?;
    lists.push(copy)?;
    Ok(number)
}

// The row of the kinds of a superclass's fields and of the class's own after them.
fn row_over(
    alloc: Global,
    lists: &mut Vec<Vec<OperandType>>,
    above: KindRow,
    own: &[OperandType],
) -> Result<KindRow, AllocError>
    requires { IsKindRow lists.old.items above }
    ensures over { (kinds : List Kind) → HasKinds lists.old.items above kinds
        → IfOk result (λ row. HasKinds lists.new.items row (kinds ++ own.now)) }
    ensures kept { IfOk result (λ row. AreKept lists.old.items lists.new.items) }
{
    if own.is_empty() {
        return Ok(above);
    }
    let number = whole_list(alloc, lists, above)?;
    let list = &mut lists[number as usize];
    list.extend_from_slice(own)?;
    let Ok(length) = u32::try_from(list.len()) else {
        return Err(AllocError);
    };
    Ok(KindRow {
        list: number,
        length,
    })
}

// The row of a superclass, if it is known.
fn above_in(rows: &[Option<KindRow>], superclass: Option<u32>) -> Option<KindRow>
    ensures { result ≡ row_above rows.now superclass }
{
    let Some(class) = superclass else {
        return Some(KindRow { list: 0, length: 0 });
    };
    match rows.get(class as usize) {
        Some(row) => *row,
        None => None,
    }
}

// The rows of all classes, or none where one of them is not known.
fn all_rows(alloc: Global, rows: &[Option<KindRow>]) -> Result<Option<Vec<KindRow>>, AllocError>
    ensures known { IfOk result (λ found. IfSome found (λ known. map Some known.items ≡ rows.now)) }
    ensures made { ((class : ℕ) → class < length rows.now → IsSome (slice_index_or rows.now class None))
        → IfOk result (λ found. IsSome found) }
{
    let mut known = Vec::with_capacity(alloc, rows.len())?;
    for row in rows {
        let Some(row) = *row else {
            return Ok(None);
        };
        known.push(row)?;
    }
    Ok(Some(known))
}

// A list without kinds, for the topmost classes to go on from.
fn first_list(alloc: Global) -> Result<Vec<Vec<OperandType>>, AllocError>
    ensures { IfOk result (λ lists. HasKinds lists.items (record { list = 0; length = 0 }) []) }
{
    let mut lists = Vec::new(alloc);
    lists.push(Vec::new(alloc))?;
    Ok(lists)
}

impl FieldKinds {
    /// The kinds of the fields of classes by their numbers, made in an order in which each class
    /// comes after its superclass: some for every such order, none for another. The fields of the
    /// topmost superclass come first. It takes 8 bytes for a class, 12 more while it is made, and a
    /// byte or two for each of the class's own fields. Where another class has gone on from the
    /// superclass's list before, it takes 24 bytes for a new list and a byte or two for each
    /// inherited field.
    pub fn of(
        alloc: Global,
        classes: &[DeclaredFields],
        order: &[u32],
    ) -> Result<Option<FieldKinds>, AllocError>
        ensures kinds { (program : List ClassParts) (names : List (List ℕ)) → AreFields program names classes.now
            → IfOk result (λ found. IfSome found (λ kinds. AreKinds program names kinds)) }
        ensures made { IsTopDown classes.now order.now → IfOk result (λ found. IsSome found) }
    {
        if order.len() != classes.len() {
            return Ok(None);
        }
        let mut lists = first_list(alloc)?;
        let mut rows = vec![in alloc; None; classes.len()]?;
        for class in order {
            let Some(declared) = classes.get(*class as usize) else {
                return Ok(None);
            };
            let Some(above) = above_in(&rows, declared.superclass) else {
                return Ok(None);
            };
            let own = kinds_among(alloc, declared.fields)?;
            let row = row_over(alloc, &mut lists, above, &own)?;
            rows[*class as usize] = Some(row);
        }
        match all_rows(alloc, &rows)? {
            Some(rows) => Ok(Some(FieldKinds { lists, rows })),
            None => Ok(None),
        }
    }

    /// The kinds of all fields of an instance of a class, the topmost superclass's first. A class
    /// that is not there has none (JVMS 6.5 new).
    #[inline]
    pub fn kinds(&self, class: u32) -> Option<&[OperandType]>
        ensures { option_map (λ kinds. kinds.now) result ≡ kinds_at self.now class }
    {
        let Some(row) = self.rows.get(class as usize) else {
            return None;
        };
        let Some(list) = self.lists.get(row.list as usize) else {
            return None;
        };
        list.get(..row.length as usize)
    }
}

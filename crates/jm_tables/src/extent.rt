// How many fields the instances of each class have.

ghost use Rattle.std.specs.Prelude.{◌≡◌, ℕ, ◌<◌, IfOk, IfSome, IsSome, None, length, map, not, option_map, slice_index_or};
ghost use Rattle.std.specs.List.{filter};
ghost use Rattle.jm_program.specs.Flags.{is_static};
ghost use Rattle.jm_tables.specs.Extents.{AreExtents, IsTopDown, extent_over, inherited_over};

use jm_program::{AccessFlags, Field};
use std::alloc::{AllocError, Global};

/// A class's superclass, by its number, and the fields that it declares.
#[derive(Clone, Copy)]
pub struct DeclaredFields<'a> {
    pub superclass: Option<u32>,
    pub fields: &'a [Field],
}

/// How many fields an instance has: inherited ones, and in all.
#[derive(Clone, Copy)]
pub struct Extent {
    pub inherited: u32,
    pub size: u32,
}

/// The extent of a class, if it is known.
pub fn extent_at(extents: &[Option<Extent>], class: u32) -> Option<Extent>
    ensures { result ≡ slice_index_or extents.now class None }
{
    match extents.get(class as usize) {
        Some(extent) => *extent,
        None => None,
    }
}

fn instance_count(fields: &[Field]) -> usize
    ensures { result ≡ length (filter (λ f. not (is_static f.flags)) fields.now) }
{
    fields
        .iter()
        .filter(|field| !field.flags.has(AccessFlags::STATIC))
        .count()
}

// How many fields are inherited from a superclass, if its extent is known.
fn inherited(extents: &[Option<Extent>], superclass: Option<u32>) -> Option<u32>
    ensures { result ≡ inherited_over extents.now superclass }
{
    match superclass {
        None => Some(0),
        Some(class) => match extent_at(extents, class) {
            Some(above) => Some(above.size),
            None => None,
        },
    }
}

// The extent of a class, if its superclass's is known.
fn extent_of(
    extents: &[Option<Extent>],
    declared: &DeclaredFields,
) -> Result<Option<Extent>, AllocError>
    ensures { IfOk result (λ found. found ≡ extent_over extents.now declared.now) }
{
    let Some(inherited) = inherited(extents, declared.superclass) else {
        return Ok(None);
    };
    let Ok(own) = u32::try_from(instance_count(declared.fields)) else {
        return Err(AllocError);
    };
    match inherited.checked_add(own) {
        Some(size) => Ok(Some(Extent { inherited, size })),
        None => Err(AllocError),
    }
}

/// The extents of all classes, made in an order in which each class comes after its superclass, or
/// none for another order.
pub fn extents_of(
    alloc: Global,
    classes: &[DeclaredFields],
    order: &[u32],
) -> Result<Option<Vec<Option<Extent>>>, AllocError>
    ensures extents { IfOk result (λ found. IfSome found (λ extents. AreExtents (length classes.now) classes.now extents.items)) }
    ensures made { IsTopDown classes.now order.now → IfOk result (λ found. IsSome found) }
    ensures all { IsTopDown classes.now order.now → IfOk result (λ found. IfSome found (λ extents.
        (class : ℕ) → class < length classes.now → IsSome (slice_index_or extents.items class None))) }
{
    if order.len() != classes.len() {
        return Ok(None);
    }
    let mut extents = vec![in alloc; None; classes.len()]?;
    for class in order {
        let Some(declared) = classes.get(*class as usize) else {
            return Ok(None);
        };
        let Some(extent) = extent_of(&extents, declared)? else {
            return Ok(None);
        };
        extents[*class as usize] = Some(extent);
    }
    Ok(Some(extents))
}

// An order of all classes in which each comes after those right above it (JVMS 5.3.5).

ghost use Rattle.std.specs.Prelude.{◌≡◌, IfOk, length, true};
ghost use Rattle.std.specs.List.{list_all};
ghost use Rattle.jm_tables.specs.Inheriting.{IsOrder};
ghost use Rattle.jm_linker.specs.Orders.{CanBeOrdered, HasNext, is_next, is_placed};

use jm_tables::Declared;
use std::alloc::{AllocError, Global};

fn is_placed(placed: &[bool], class: u32) -> bool
    ensures { result ≡ is_placed placed.now class }
{
    match placed.get(class as usize) {
        Some(is_placed) => *is_placed,
        None => false,
    }
}

fn are_placed(placed: &[bool], classes: &[u32]) -> bool
    ensures { result ≡ list_all (is_placed placed.now) classes.now }
{
    for class in classes {
        if !is_placed(placed, *class) {
            return false;
        }
    }
    true
}

// Whether a class is not placed yet, and those right above it are.
fn is_next(classes: &[Declared], placed: &[bool], class: u32) -> bool
    ensures { result ≡ is_next classes.now placed.now class }
{
    match classes.get(class as usize) {
        Some(declared) => !is_placed(placed, class) && are_placed(placed, &declared.above),
        None => false,
    }
}

// A class that comes next: the expected one, if it can, or else the first that can.
fn next_class(classes: &[Declared], placed: &[bool], count: u32, expected: Option<u32>) -> u32
    requires count { count ≡ length classes.now }
    requires next { HasNext classes.now placed.now }
    ensures { is_next classes.now placed.now result ≡ true }
{
    if let Some(class) = expected {
        if is_next(classes, placed, class) {
            return class;
        }
    }
    for class in 0..count {
        if is_next(classes, placed, class) {
            return class;
        }
    }
    unreachable!()
}

/// An order of the classes in which each comes after those right above it. It is the expected one
/// where that is such an order, and each step from it costs a look at all classes.
pub fn order_of(
    alloc: Global,
    classes: &[Declared],
    count: u32,
    expected: &[u32],
) -> Result<Vec<u32>, AllocError>
    requires count { count ≡ length classes.now }
    requires ordered { CanBeOrdered classes.now }
    ensures { IfOk result (λ order. IsOrder classes.now order.items) }
{
    let mut placed = vec![in alloc; false; classes.len()]?;
    let mut order = Vec::with_capacity(alloc, classes.len())?;
    for place in 0..classes.len() {
        let class = next_class(classes, &placed, count, expected.get(place).copied());
        placed[class as usize] = true;
        order.push(class)?;
    }
    Ok(order)
}

// Rows as trees: of what earlier rows have, and with cells of their own.

ghost use Rattle.std.specs.Prelude.{◌≡◌, ℕ, ◌*◌, ◌<◌, ◌≤◌, ◌^◌, IfOk, map};
ghost use Rattle.std.specs.List.{All};
ghost use Rattle.jm_tables.specs.Nodes.{IsThere, IsFirstEmpty, IsLonger, number_of, found_from, tree_row, row_from, root_at};
ghost use Rattle.jm_tables.specs.Tables.{IsCellOf, first_of, with_cells};

use crate::node::{EMPTY, Node, merge, write};
use crate::table::Cell;
use std::alloc::AllocError;

/// The root of a row: of an empty one where there is none of the number.
pub fn root_at(roots: &[u32], row: u32) -> u32
    ensures { result ≡ root_at roots.now row }
{
    match roots.get(row as usize) {
        Some(root) => *root,
        None => EMPTY,
    }
}

/// The root of a row that has, in each column, what the first of some rows has that has anything
/// there.
pub fn merge_rows(
    nodes: &mut Vec<Node>,
    levels: u32,
    roots: &[u32],
    rows: &[u32],
) -> Result<u32, AllocError>
    requires empty { IsFirstEmpty nodes.old.items }
    requires there { All (IsThere nodes.old.items levels) roots.now }
    ensures longer { IsLonger nodes.old.items nodes.new.items }
    ensures there { IfOk result (λ new. IsThere nodes.new.items levels new) }
    ensures found { (columns : ℕ) → IfOk result (λ new. (column : ℕ) → column < columns
        → number_of (found_from nodes.new.items levels new column) ≡ first_of (map (row_from nodes.old.items columns levels) roots.now) rows.now column) }
{
    let mut merged = EMPTY;
    for row in rows {
        merged = merge(nodes, levels, merged, root_at(roots, *row))?;
    }
    Ok(merged)
}

/// The root of a row with cells put over it in their order.
pub fn write_cells(
    nodes: &mut Vec<Node>,
    levels: u32,
    root: u32,
    cells: &[Cell],
) -> Result<u32, AllocError>
    requires levels { levels ≤ 8 }
    requires there { IsThere nodes.old.items levels root }
    requires cells { All (IsCellOf (2 ^ (4 * levels))) cells.now }
    ensures longer { IsLonger nodes.old.items nodes.new.items }
    ensures there { IfOk result (λ new. IsThere nodes.new.items levels new) }
    ensures found { IfOk result (λ new. (column : ℕ) → column < 2 ^ (4 * levels)
        → number_of (found_from nodes.new.items levels new column) ≡ with_cells (tree_row nodes.old.items levels root) cells.now column) }
{
    let mut written = root;
    for cell in cells {
        written = write(nodes, levels, written, cell.column, cell.number + 1)?;
    }
    Ok(written)
}

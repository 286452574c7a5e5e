// A table of rows.

ghost use Rattle.std.specs.Prelude.{◌≡◌, [], ◌≤◌, ◌*◌, ◌^◌, IfOk, OnOk, OnErr, length};
ghost use Rattle.std.specs.List.{All};
ghost use Rattle.jm_tables.specs.Nodes.{number_of};
ghost use Rattle.jm_tables.specs.Tables.{IsCellOf, row_at, first_of, with_cells, with_row};

use crate::node::{EMPTY, Node, find};
use crate::row::{merge_rows, root_at, write_cells};
use std::alloc::{AllocError, Global};
use std::marker::Model;

/// A number in a column.
#[derive(Clone, Copy)]
pub struct Cell {
    pub column: u32,
    pub number: u32,
}

/// Rows that map columns to numbers. A row never changes; a new one shares with earlier ones what
/// it has in common with them.
pub struct Table {
    columns: u32,
    levels: u32,
    nodes: Vec<Node>,
    roots: Vec<u32>,
}

// Written out, so that whoever lets go of one makes a call (docs/DECISIONS.md).
impl Drop for Table {
    fn drop(self) {
        let Table {
            columns: _,
            levels: _,
            nodes: _,
            roots: _,
        } = self;
    }
}

impl Model for Table {
    ghost use Rattle.std.specs.Prelude.{map};
    ghost use Rattle.jm_tables.specs.Tables.{TableView};
    ghost use Rattle.jm_tables.specs.Nodes.{IsTable, row_from};

    ghost Value = { TableView };

    ghost view = { λ t. record { columns = t.columns; rows = map (row_from t.nodes.items t.columns t.levels) t.roots.items } };

    ghost invariant = { λ t. IsTable t.columns t.levels t.nodes.items t.roots.items };
}

// How many digits the columns have, to the base 16.
fn levels_of(columns: u32) -> u32
    ensures few { result ≤ 8 }
    ensures serve { columns ≤ 2 ^ (4 * result) }
{
    for levels in 0..8 {
        if columns <= 1 << (4 * levels) {
            return levels;
        }
    }
    8
}

// The number of a cell's entry, which is kept one higher.
fn number_of(entry: u32) -> Option<u32>
    ensures { result ≡ number_of entry }
{
    entry.checked_sub(1)
}

impl Table {
    /// A table of so many columns and no row yet.
    pub fn new(alloc: Global, columns: u32) -> Result<Table, AllocError>
        ensures { IfOk result (λ table. table ≡ record { columns = columns; rows = [] }) }
    {
        let mut nodes = Vec::new(alloc);
        nodes.push([EMPTY; 16])?;
        Ok(Table {
            columns,
            levels: levels_of(columns),
            nodes,
            roots: Vec::new(alloc),
        })
    }

    /// How many rows there are.
    pub fn row_count(&self) -> usize
        ensures { result ≡ length self.now.rows }
    {
        self.roots.len()
    }

    /// The number in a row's column. A row that is not there has none, and so has a column that is
    /// not there. It takes as many steps as a column has digits to the base 16: at most 8.
    #[inline]
    pub fn get(&self, row: u32, column: u32) -> Option<u32>
        ensures { result ≡ row_at self.now.rows row column }
    {
        if column >= self.columns {
            return None;
        }
        let root = root_at(&self.roots, row);
        number_of(find(&self.nodes, self.levels, root, column))
    }

    /// Adds a row: in each column it has what the first of some earlier rows has that has anything
    /// there, and over that the cells, of which a later one of the same column counts. It takes
    /// memory for its own cells and for columns that differ between the rows: 64 bytes for each
    /// digit of such a column.
    ///
    /// The error leaves the table as it was.
    pub fn push(&mut self, rows: &[u32], cells: &[Cell]) -> Result<(), AllocError>
        requires { All (IsCellOf self.old.columns) cells.now }
        ensures ok { OnOk result (self.new ≡ with_row self.old (with_cells (first_of self.old.rows rows.now) cells.now)) }
        ensures err { OnErr result (self.new ≡ self.old) }
    {
        let root = merge_rows(&mut self.nodes, self.levels, &self.roots, rows)?;
        let root = write_cells(&mut self.nodes, self.levels, root, cells)?;
        self.roots.push(root)?;
        Ok(())
    }
}

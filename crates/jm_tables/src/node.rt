// The nodes that rows are trees of. A tree has as many levels as a column has digits; at level 0 an
// entry is a cell's, above it the number of a node. Node 0 is empty and stands for an empty tree of
// any height.

ghost use Rattle.std.specs.Prelude.{◌≡◌, ℕ, [], ◌∷◌, ◌++◌, ◌<◌, ◌≤◌, IfOk, cond, length, slice_index};
ghost use Rattle.jm_tables.specs.Nodes.{IsThere, IsFirstEmpty, IsLonger, child_of, digit_at, found_from, agree, or_entry};

use std::alloc::{AllocError, Global};

/// How many entries a node has.
const ENTRIES: usize = 16;

/// The entries of a node by the digits of a column.
pub type Node = [u32; 16];

/// What a row of no cells is, at any height.
pub const EMPTY: u32 = 0;

fn digit(column: u32, level: u32) -> usize
    requires { level < 8 }
    ensures value { result ≡ digit_at level column }
    ensures small { result < 16 }
{
    (column >> (4 * level) & 15) as usize
}

fn node(nodes: &[Node], number: u32) -> Node
    ensures there { length result ≡ 16 }
    ensures entries { (digit : ℕ) → slice_index result digit ≡ child_of nodes.now number digit }
{
    match nodes.get(number as usize) {
        Some(found) => *found,
        None => [EMPTY; ENTRIES],
    }
}

fn child(nodes: &[Node], number: u32, digit: usize) -> u32
    requires { digit < 16 }
    ensures { result ≡ child_of nodes.now number digit }
{
    match nodes.get(number as usize) {
        Some(found) => found[digit],
        None => EMPTY,
    }
}

/// What stands at the column in the tree of so many levels below the root, a cell's entry.
pub fn find(nodes: &[Node], levels: u32, root: u32, column: u32) -> u32
    requires { levels ≤ 8 }
    ensures { result ≡ found_from nodes.now levels root column }
{
    let mut found = root;
    let mut level = levels;
    while level > 0 {
        level -= 1;
        found = child(nodes, found, digit(column, level));
    }
    found
}

// The number of a new node with these entries.
fn push(nodes: &mut Vec<Node>, node: Node) -> Result<u32, AllocError>
    ensures longer { IsLonger nodes.old.items nodes.new.items }
    ensures new { IfOk result (λ number. (number ≡ length nodes.old.items) × (nodes.new.items ≡ nodes.old.items ++ node ∷ [])) }
{
    let Ok(number) = u32::try_from(nodes.len()) else {
        return Err(AllocError);
    };
    nodes.push(node)?;
    Ok(number)
}

/// The root of a tree like that below a root, but for the entry at a column.
pub fn write(
    nodes: &mut Vec<Node>,
    levels: u32,
    root: u32,
    column: u32,
    entry: u32,
) -> Result<u32, AllocError>
    requires levels { levels ≤ 8 }
    requires there { IsThere nodes.old.items levels root }
    ensures longer { IsLonger nodes.old.items nodes.new.items }
    ensures there { IfOk result (λ new. IsThere nodes.new.items levels new) }
    ensures found { IfOk result (λ new. (k : ℕ)
        → found_from nodes.new.items levels new k ≡ cond (agree levels k column) entry (found_from nodes.old.items levels root k)) }
{
    if levels == 0 {
        return Ok(entry);
    }
    let level = levels - 1;
    let place = digit(column, level);
    let mut copy = node(nodes, root);
    copy[place] = write(nodes, level, copy[place], column, entry)?;
    push(nodes, copy)
}

/// The root of a tree with the entries of a first one, and of a second one where the first has
/// none. What is the same in both is shared.
pub fn merge(nodes: &mut Vec<Node>, levels: u32, first: u32, second: u32) -> Result<u32, AllocError>
    requires empty { IsFirstEmpty nodes.old.items }
    requires first { IsThere nodes.old.items levels first }
    requires second { IsThere nodes.old.items levels second }
    ensures longer { IsLonger nodes.old.items nodes.new.items }
    ensures there { IfOk result (λ new. IsThere nodes.new.items levels new) }
    ensures found { IfOk result (λ new. (k : ℕ)
        → found_from nodes.new.items levels new k ≡ or_entry (found_from nodes.old.items levels first k) (found_from nodes.old.items levels second k)) }
{
    if first == EMPTY {
        return Ok(second);
    }
    if levels == 0 || first == second || second == EMPTY {
        return Ok(first);
    }
    let above = node(nodes, first);
    let below = node(nodes, second);
    let mut both = above;
    for digit in 0..ENTRIES {
        both[digit] = merge(nodes, levels - 1, above[digit], below[digit])?;
    }
    if both == above {
        return Ok(first);
    }
    push(nodes, both)
}

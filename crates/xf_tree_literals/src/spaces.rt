//! The namespaces in force above the nodes of a tree that is printed.
ghost use Rattle.std.specs.Prelude.{◌≡◌, [], IfOk, map, reverse};
ghost use Rattle.slab.specs.Slab.{get};
ghost use Rattle.xf_tree_contents.specs.Keys.{content_in};
ghost use Rattle.xf_tree_walks.specs.Nodes.{node_of};
ghost use Rattle.xf_tree_literals.specs.Print.{placed, with_spaces, left_at, begins_outside, space_in, force_in};

use std::alloc::{AllocError, Global};
use xf_tree_contents::{Seen, Slots, shown_at};
use xf_tree_rows::Row;

/// A row that is printed, and the namespace in force above it.
#[derive(Clone, Copy, Debug)]
pub struct Line {
    pub above: u16,
    pub row: Row,
}

/// Rows with the namespaces in force above them.
pub fn with_spaces(alloc: Global, slots: &Slots, rows: &[Row]) -> Result<Vec<Line>, AllocError>
    ensures { IfOk result (λ lines. map (placed slots.now) lines.items ≡ with_spaces [] (map (node_of slots.now) rows.now)) }
{
    let mut lines = Vec::new(alloc);
    // The depths of the nodes around a row, the nearest last, and the namespaces in force below them.
    let mut around = Vec::new(alloc);
    for row in rows {
        leave(&mut around, row.depth);
        let above = space_in(&around);
        around.push((row.depth, force_in(slots, row.key, above)))?;
        lines.push(Line { above, row: *row })?;
    }
    Ok(lines)
}

/// Drops the nodes that a row of this depth is not below.
fn leave(around: &mut Vec<(u32, u16)>, depth: u32)
    ensures { reverse around.new.items ≡ left_at depth (reverse around.old.items) }
{
    while ends_outside(around, depth) {
        let _ = around.pop();
    }
}

fn ends_outside(around: &[(u32, u16)], depth: u32) -> bool
    ensures { result ≡ begins_outside depth (reverse around.now) }
{
    let count = around.len();
    count > 0 && around[count - 1].0 >= depth
}

/// The namespace in force below the nearest node.
fn space_in(around: &[(u32, u16)]) -> u16
    ensures { result ≡ space_in (reverse around.now) }
{
    let count = around.len();
    if count == 0 {
        return 0;
    }
    around[count - 1].1
}

/// The namespace in force below a node, where one is in force above it.
fn force_in(slots: &Slots, key: usize, above: u16) -> u16
    ensures { result ≡ force_in above (content_in (get slots.now key)) }
{
    match shown_at(slots, key) {
        Seen::Element(name) => {
            if name.prefix.is_empty() {
                return name.meaning.space;
            }
            above
        }
        _ => above,
    }
}

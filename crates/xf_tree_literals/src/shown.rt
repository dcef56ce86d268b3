//! Which rows of a tree are printed.
ghost use Rattle.std.specs.Prelude.{◌≡◌, ℕ, ◌||◌, ◌++◌, None, IfOk, OnOk, map, drop};
ghost use Rattle.slab.specs.Slab.{get};
ghost use Rattle.xf_def_forest.specs.Forest.{is_text};
ghost use Rattle.xf_def_forest.specs.Literal.{printed, printed_from};
ghost use Rattle.xf_def_forest.specs.Visit.{has};
ghost use Rattle.xf_tree_contents.specs.Keys.{number_in, content_in};
ghost use Rattle.xf_tree_walks.specs.Nodes.{node_of};
ghost use Rattle.xf_tree_literals.specs.Print.{is_inside};

use indexmap::IndexSet;
use std::alloc::{AllocError, Global};
use xf_def_forest::NodeList;
use xf_tree_contents::{Slots, is_text_at, number_of};
use xf_tree_rows::{Row, RowSlice};

/// The numbers of nodes, to be looked up.
pub fn numbers_of(alloc: Global, nodes: &NodeList) -> Result<IndexSet<u128>, AllocError>
    ensures { IfOk result (λ numbers. (n : ℕ) → has n numbers.keys ≡ has n nodes.now) }
{
    let mut numbers = IndexSet::new(alloc);
    for at in 0..nodes.len() {
        numbers.insert(nodes.at(at).number)?;
    }
    Ok(numbers)
}

/// Of the rows of a tree, those that are printed.
pub fn printed_rows(
    alloc: Global,
    slots: &Slots,
    rows: &RowSlice<'_>,
    kept: &IndexSet<u128>,
) -> Result<Vec<Row>, AllocError>
    ensures { IfOk result (λ left. map (node_of slots.now) left.items ≡ printed kept.now.keys (map (node_of slots.now) rows.now)) }
{
    let mut left = Vec::new(alloc);
    if rows.len() == 0 {
        return Ok(left);
    }
    left.push(rows.at(0))?;
    push_printed(slots, rows, kept, &mut left)?;
    Ok(left)
}

/// Pushes those that are printed of the rows after a top, which is the first.
fn push_printed(
    slots: &Slots,
    rows: &RowSlice<'_>,
    kept: &IndexSet<u128>,
    left: &mut Vec<Row>,
) -> Result<(), AllocError>
    ensures { OnOk result (map (node_of slots.now) left.new.items ≡ map (node_of slots.now) left.old.items ++ printed_from kept.now.keys None (map (node_of slots.now) (drop 1 rows.now))) }
{
    // The depth of the node left out around the row, where there is one.
    let mut out = None;
    for at in 1..rows.len() {
        let row = rows.at(at);
        if is_inside(out, row.depth) {
            continue;
        }
        if is_kept(slots, row.key, kept) {
            out = None;
            left.push(row)?;
        } else {
            out = Some(row.depth);
        }
    }
    Ok(())
}

/// Whether a depth is below that of a node, where there is one.
fn is_inside(out: Option<u32>, depth: u32) -> bool
    ensures { result ≡ is_inside out depth }
{
    match out {
        Some(above) => depth > above,
        None => false,
    }
}

fn is_kept(slots: &Slots, key: usize, kept: &IndexSet<u128>) -> bool
    ensures { result ≡ (is_text (content_in (get slots.now key)) || has (number_in (get slots.now key)) kept.now.keys) }
{
    is_text_at(slots, key) || kept.contains(&number_of(slots, key))
}

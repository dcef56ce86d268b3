//! Where a node's row stands, and rows beside it.
ghost use Rattle.std.specs.Prelude.{◌≡◌, ◌+◌, ◌<◌, ◌≤◌, ◌^◌, length, map, take, drop, true, false, IfSome, MatchOption, slice_index_or};
ghost use Rattle.xf_def_forest.specs.Forest.{has_number};
ghost use Rattle.xf_def_forest.specs.Changes.{root_of, in_instances, is_detached_top};
ghost use Rattle.xf_tree_rows.specs.Rows.{Sized, deeper, tree_of, no_row};
ghost use Rattle.xf_tree_walks.specs.Nodes.{node_of, StandsAt, AllTops, number_at, is_kin, kin_before};
ghost use Rattle.xf_tree_walks.specs.Reads.{last_row};
ghost use Rattle.xf_tree_walks.specs.Walks.{ancestor_rows};

use xf_def_forest::NodeId;
use xf_tree_contents::{Slots, is_attribute_at, is_of_kind, is_root_at, number_of};
use xf_tree_rows::{Hints, Row, RowSlice, Rows, end_of, parent_row, slice};

/// Where the node's row stands: where the hint says so, else found by looking.
#[inline(always)]
pub fn row_of(rows: &Rows, slots: &Slots, hints: &Hints, node: NodeId) -> Option<usize>
    ensures { MatchOption result (has_number node.number (map (node_of slots.now) rows.now.items) ≡ false) (λ at. StandsAt slots.now rows.now.items node.number at) }
{
    if let Some(at) = hints.noted(node.place) {
        if is_at(rows, slots, node, at) {
            return Some(at);
        }
        let at = hints.moved(at);
        if is_at(rows, slots, node, at) {
            return Some(at);
        }
    }
    looked_for(rows, slots, node)
}

/// Where the node's row stands, by a look through all.
fn looked_for(rows: &Rows, slots: &Slots, node: NodeId) -> Option<usize>
    ensures { MatchOption result (has_number node.number (map (node_of slots.now) rows.now.items) ≡ false) (λ at. StandsAt slots.now rows.now.items node.number at) }
{
    for at in 0..rows.len() {
        if number_of(slots, rows.at(at).key) == node.number {
            return Some(at);
        }
    }
    None
}

/// Whether the node's row stands at a place.
#[inline(always)]
fn is_at(rows: &Rows, slots: &Slots, node: NodeId, at: usize) -> bool
    ensures { result ≡ true → StandsAt slots.now rows.now.items node.number at }
{
    at < rows.len() && number_of(slots, rows.at(at).key) == node.number
}

/// The row of the root with a place among the roots.
pub fn root_row(rows: &Rows, slots: &Slots, instance: u32) -> Option<usize>
    requires sized { Sized rows.now.items }
    requires tops { AllTops (map (node_of slots.now) rows.now.items) }
    ensures answer { number_at slots.now rows.now.items result ≡ root_of instance (map (node_of slots.now) rows.now.items) }
    ensures within { IfSome result (λ at. at < length rows.now.items) }
{
    let mut left = instance;
    let mut at = 0;
    while at < rows.len() {
        if is_root_at(slots, rows.at(at).key) {
            if left == 0 {
                return Some(at);
            }
            left -= 1;
        }
        at = end_of(rows, at);
    }
    None
}

/// Where the detached trees begin.
pub fn tops_end(rows: &Rows, slots: &Slots) -> usize
    requires sized { Sized rows.now.items }
    ensures answer { map (node_of slots.now) (take result rows.now.items) ≡ in_instances (map (node_of slots.now) rows.now.items) }
    ensures within { result ≤ length rows.now.items }
    ensures stops { deeper 0 (drop result rows.now.items) ≡ 0 }
{
    tops_end_in(&slice(rows, 0, rows.len()), slots)
}

/// Where they begin among these rows.
pub fn tops_end_in(rows: &RowSlice<'_>, slots: &Slots) -> usize
    requires sized { Sized rows.now }
    ensures answer { map (node_of slots.now) (take result rows.now) ≡ in_instances (map (node_of slots.now) rows.now) }
    ensures within { result ≤ length rows.now }
    ensures stops { deeper 0 (drop result rows.now) ≡ 0 }
{
    let mut at = 0;
    while at < rows.len() {
        let row = rows.at(at);
        if is_detached(slots, row) {
            return at;
        }
        at += row.size;
    }
    at
}

/// How many siblings of its kind stand before the node at a place, below the parent's row.
pub fn place_of(rows: &Rows, slots: &Slots, above: usize, at: usize) -> u32
    requires order { above < at }
    requires inside { at < above + length (tree_of (drop above rows.now.items)) }
    requires child { (slice_index_or rows.now.items at no_row).depth ≡ (slice_index_or rows.now.items above no_row).depth + 1 }
    requires sized { Sized rows.now.items }
    requires few { length rows.now.items < 2 ^ 32 }
    ensures { result ≡ kin_before slots.now rows.now.items above at }
{
    let wanted = is_attribute_at(slots, rows.at(at).key);
    let depth = rows.at(at).depth;
    let mut place = 0;
    let mut next = above + 1;
    while next < at {
        if is_kin_at(rows, slots, next, depth, wanted) {
            place += 1;
        }
        next = end_of(rows, next);
    }
    place
}

/// Whether a row is of the top of a detached tree.
fn is_detached(slots: &Slots, row: Row) -> bool
    ensures { result ≡ is_detached_top (node_of slots.now row) }
{
    row.depth == 0 && !is_root_at(slots, row.key)
}

/// Whether the row at a place has this depth, and is of an attribute, where one is wanted, or of none, where none is.
pub fn is_kin_at(rows: &Rows, slots: &Slots, at: usize, depth: u32, wanted: bool) -> bool
    requires { at < length rows.now.items }
    ensures { result ≡ is_kin depth wanted (node_of slots.now (slice_index_or rows.now.items at no_row)) }
{
    let row = rows.at(at);
    row.depth == depth && is_of_kind(slots, row.key, wanted)
}

/// The row of the top of a tree, from one of its rows up.
pub fn top_row(rows: &Rows, hints: &Hints, at: usize) -> usize
    requires within { at < length rows.now.items }
    requires sized { Sized rows.now.items }
    ensures within { result < length rows.now.items }
    ensures answer { slice_index_or rows.now.items result no_row ≡ last_row (slice_index_or rows.now.items at no_row) (ancestor_rows rows.now.items at) }
{
    let mut top = at;
    while let Some(above) = parent_row(rows, hints, top) {
        top = above;
    }
    top
}

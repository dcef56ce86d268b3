//! A detached tree comes into place below a parent.
ghost use Rattle.std.specs.Prelude.{◌≡◌, ◌+◌, ◌≤◌, ◌<◌, ◌^◌, ◌⊎◌, map, drop, length, slice_index_or};
ghost use Rattle.slab.specs.Slab.{get};
ghost use Rattle.xf_def_forest.specs.Limits.{limits, is_too_deep};
ghost use Rattle.xf_tree_rows.specs.Rows.{Sized, tree_of as rows_of_tree, no_row, AreSteps, depths};
ghost use Rattle.xf_tree_contents.specs.Keys.{content_in};
ghost use Rattle.xf_tree_walks.specs.Leaves.{AreLeaves, parts_in};
ghost use Rattle.xf_tree_walks.specs.Nodes.{node_of};
ghost use Rattle.xf_tree_changes.specs.Below.{attribute_at, child_at, row_below, elements_over, IsBehind, IsPlaced};

use xf_base::limits::DEPTH_LIMIT;
use xf_tree_contents::{Slots, is_attribute_at, is_element_at};
use xf_tree_rows::{Hints, RowSlice, Rows, end_of, move_last, parent_row, paste};
use xf_tree_walks::is_kin_at;

/// How many elements a child of the node at a place is below.
pub fn elements_over(rows: &Rows, slots: &Slots, hints: &Hints, above: usize) -> u32
    requires within { above < length rows.now.items }
    requires sized { Sized rows.now.items }
    requires few { length rows.now.items < 2 ^ 31 }
    ensures { result ≡ elements_over slots.now rows.now.items above }
{
    let mut at = above;
    let mut count = 0;
    loop {
        if is_element_at(slots, rows.at(at).key) {
            count += 1;
        }
        match parent_row(rows, hints, at) {
            Some(next) => at = next,
            None => return count,
        }
    }
}

/// Whether an element of a tree would stand too deep below so many elements.
pub fn has_deep(tree: &RowSlice<'_>, slots: &Slots, elements: u32) -> bool
    ensures { result ≡ is_too_deep limits.depth elements (map (node_of slots.now) tree.now) }
{
    let left = DEPTH_LIMIT.saturating_sub(elements);
    for at in 0..tree.len() {
        let row = tree.at(at);
        if row.depth >= left && is_element_at(slots, row.key) {
            return true;
        }
    }
    false
}

/// Puts the tree of the top at a place below the node at another one.
pub fn place_tree(
    rows: &mut Rows,
    slots: &Slots,
    hints: &mut Hints,
    at: usize,
    above: usize,
    place: u32,
)
    requires within { at < length rows.old.items }
    requires parent { above < length rows.old.items }
    requires outside { (above < at) ⊎ (at + length (rows_of_tree (drop at rows.old.items)) ≤ above) }
    requires top { (slice_index_or rows.old.items at no_row).depth ≡ 0 }
    requires sized { Sized rows.old.items }
    requires steps { AreSteps 0 (depths rows.old.items) }
    requires few { length rows.old.items < 2 ^ 31 }
    requires leaves { AreLeaves (parts_in (map (node_of slots.now) rows.old.items)) }
    ensures sized { Sized rows.new.items }
    ensures answer { IsPlaced at above place slots.now rows.old.items rows.new.items }
    ensures room { rows.new.capacity ≡ rows.old.capacity }
{
    let top = rows.at(at).key;
    let parent = rows.at(above).key;
    let depth = rows.at(above).depth + 1;
    let (from, over) = put_behind(rows, at, above);
    let end = end_of(rows, from);
    let to = place_below(rows, slots, over, top, place);
    paste(rows, hints, from, to, depth);
    hints.note_parent(top, parent);
    hints.note_rows(rows, at.min(to), end);
}

/// Makes the tree at a place stand behind a row outside it. The answer is where the tree and the row stand then.
fn put_behind(rows: &mut Rows, at: usize, above: usize) -> (usize, usize)
    requires within { at < length rows.old.items }
    requires parent { above < length rows.old.items }
    requires outside { (above < at) ⊎ (at + length (rows_of_tree (drop at rows.old.items)) ≤ above) }
    requires top { (slice_index_or rows.old.items at no_row).depth ≡ 0 }
    requires sized { Sized rows.old.items }
    ensures sized { Sized rows.new.items }
    ensures behind { IsBehind at above result.0 result.1 rows.old.items rows.new.items }
    ensures room { rows.new.capacity ≡ rows.old.capacity }
{
    if above < at {
        return (at, above);
    }
    let end = end_of(rows, at);
    let from = move_last(rows, at);
    (from, above - (end - at))
}

/// The row where the node under a key goes below the one at a place.
fn place_below(rows: &Rows, slots: &Slots, above: usize, key: usize, place: u32) -> usize
    requires within { above < length rows.now.items }
    requires fits { (slice_index_or rows.now.items above no_row).depth + 1 < 2 ^ 32 }
    requires sized { Sized rows.now.items }
    ensures { result ≡ row_below slots.now rows.now.items above (content_in (get slots.now key)) place }
{
    if is_attribute_at(slots, key) {
        attribute_place(rows, slots, above, place)
    } else {
        child_place(rows, slots, above, place)
    }
}

/// The row before which a child with this place comes, below the node at a place, or behind all children.
fn child_place(rows: &Rows, slots: &Slots, above: usize, place: u32) -> usize
    requires within { above < length rows.now.items }
    requires fits { (slice_index_or rows.now.items above no_row).depth + 1 < 2 ^ 32 }
    requires sized { Sized rows.now.items }
    ensures { result ≡ above + 1 + child_at ((slice_index_or rows.now.items above no_row).depth + 1) place (map (node_of slots.now) (drop (above + 1) rows.now.items)) }
{
    let depth = rows.at(above).depth + 1;
    let end = end_of(rows, above);
    let mut left = place;
    let mut next = above + 1;
    while next < end {
        if is_kin_at(rows, slots, next, depth, false) {
            if left == 0 {
                return next;
            }
            left -= 1;
        }
        next = end_of(rows, next);
    }
    end
}

/// The row before which an attribute with this place comes, below the element at a place, or behind all attributes.
fn attribute_place(rows: &Rows, slots: &Slots, above: usize, place: u32) -> usize
    requires within { above < length rows.now.items }
    requires fits { (slice_index_or rows.now.items above no_row).depth + 1 < 2 ^ 32 }
    ensures { result ≡ above + 1 + attribute_at ((slice_index_or rows.now.items above no_row).depth + 1) place (map (node_of slots.now) (drop (above + 1) rows.now.items)) }
{
    let depth = rows.at(above).depth + 1;
    let end = rows.len();
    let mut ahead = place;
    let mut next = above + 1;
    while ahead > 0 && next < end && is_kin_at(rows, slots, next, depth, true) {
        ahead -= 1;
        next += 1;
    }
    next
}

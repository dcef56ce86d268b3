//! What stands right below a row. A walk over children goes from one row below to the next one by its size; one over attributes
//! ends with them, since they stand first.
ghost use Rattle.std.specs.Prelude.{◌≡◌, ◌<◌, ◌^◌, ◌==◌, suc, nat_lt, nat_le, length, map, slice_index_or};
ghost use Rattle.slab.specs.Slab.{get};
ghost use Rattle.xf_def_forest.specs.Forest.{is_element, is_attribute};
ghost use Rattle.xf_tree_rows.specs.Rows.{Sized, no_row};
ghost use Rattle.xf_tree_contents.specs.Keys.{content_in};
ghost use Rattle.xf_tree_walks.specs.First.{AreFirst};
ghost use Rattle.xf_tree_walks.specs.Leaves.{parts_in};
ghost use Rattle.xf_tree_walks.specs.Nodes.{node_of};
ghost use Rattle.xf_tree_walks.specs.Kids.{is_kid, is_no_attribute, is_attribute_like, is_lesser_attribute, kids_at};

use xf_tree_contents::{Slots, has_same_name, is_attribute_at, is_element_at, is_less_at};
use xf_tree_rows::{Rows, end_of};

/// Whether the node at a place has so many children at least.
pub fn has_children(rows: &Rows, slots: &Slots, above: usize, least: u32) -> bool
    requires within { above < length rows.now.items }
    requires sized { Sized rows.now.items }
    ensures { result ≡ nat_le least (kids_at is_no_attribute slots.now rows.now.items above) }
{
    let depth = rows.at(above).depth;
    let end = end_of(rows, above);
    let mut left = least;
    let mut next = above + 1;
    while next < end {
        if left == 0 {
            return true;
        }
        if is_child_at(rows, slots, next, depth) {
            left -= 1;
        }
        next = end_of(rows, next);
    }
    left == 0
}

/// Whether the node at a place has an element child.
pub fn has_element(rows: &Rows, slots: &Slots, above: usize) -> bool
    requires within { above < length rows.now.items }
    requires sized { Sized rows.now.items }
    ensures { result ≡ nat_lt 0 (kids_at is_element slots.now rows.now.items above) }
{
    let depth = rows.at(above).depth;
    let end = end_of(rows, above);
    let mut next = above + 1;
    while next < end {
        if is_element_below(rows, slots, next, depth) {
            return true;
        }
        next = end_of(rows, next);
    }
    false
}

/// Whether the node at a place has an attribute of the name of the node under a key.
pub fn has_attribute(rows: &Rows, slots: &Slots, above: usize, like: usize) -> bool
    requires within { above < length rows.now.items }
    requires first { AreFirst 0 (parts_in (map (node_of slots.now) rows.now.items)) }
    ensures { result ≡ nat_lt 0 (kids_at (is_attribute_like (content_in (get slots.now like))) slots.now rows.now.items above) }
{
    let depth = rows.at(above).depth;
    let end = rows.len();
    let mut next = above + 1;
    while next < end && is_attribute_below(rows, slots, next, depth) {
        if has_same_name(slots, rows.at(next).key, like) {
            return true;
        }
        next += 1;
    }
    false
}

/// How many attributes of the node at a place have a written name that is less than that of the node under a key.
pub fn count_lesser(rows: &Rows, slots: &Slots, above: usize, key: usize) -> u32
    requires within { above < length rows.now.items }
    requires few { length rows.now.items < 2 ^ 31 }
    requires first { AreFirst 0 (parts_in (map (node_of slots.now) rows.now.items)) }
    ensures { result ≡ kids_at (is_lesser_attribute (content_in (get slots.now key))) slots.now rows.now.items above }
{
    let depth = rows.at(above).depth;
    let mut count = 0;
    let mut next = above + 1;
    while next < rows.len() && is_attribute_below(rows, slots, next, depth) {
        if is_less_at(slots, rows.at(next).key, key) {
            count += 1;
        }
        next += 1;
    }
    count
}

/// Whether the row at a place is one deeper than this.
fn is_next(rows: &Rows, at: usize, depth: u32) -> bool
    requires { at < length rows.now.items }
    ensures { result ≡ ((slice_index_or rows.now.items at no_row).depth == suc depth) }
{
    rows.at(at).depth.saturating_sub(depth) == 1
}

fn is_child_at(rows: &Rows, slots: &Slots, at: usize, depth: u32) -> bool
    requires { at < length rows.now.items }
    ensures { result ≡ is_kid is_no_attribute (suc depth) (node_of slots.now (slice_index_or rows.now.items at no_row)) }
{
    is_next(rows, at, depth) && !is_attribute_at(slots, rows.at(at).key)
}

fn is_element_below(rows: &Rows, slots: &Slots, at: usize, depth: u32) -> bool
    requires { at < length rows.now.items }
    ensures { result ≡ is_kid is_element (suc depth) (node_of slots.now (slice_index_or rows.now.items at no_row)) }
{
    is_next(rows, at, depth) && is_element_at(slots, rows.at(at).key)
}

fn is_attribute_below(rows: &Rows, slots: &Slots, at: usize, depth: u32) -> bool
    requires { at < length rows.now.items }
    ensures { result ≡ is_kid is_attribute (suc depth) (node_of slots.now (slice_index_or rows.now.items at no_row)) }
{
    is_next(rows, at, depth) && is_attribute_at(slots, rows.at(at).key)
}

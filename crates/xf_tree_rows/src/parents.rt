//! The row of a node's parent.
ghost use Rattle.std.specs.Prelude.{◌≡◌, ◌+◌, ◌<◌, ◌≤◌, length, take, drop, reverse, slice_index_or, Some, IfSome};
ghost use Rattle.xf_tree_rows.specs.Rows.{Sized, SizedBefore, no_row, parent_row_of, past_row};

use crate::hints::Hints;
use crate::rows::Rows;

/// The row of the parent: where the hints say so and the sizes show it, else found by going back.
pub fn parent_row(rows: &Rows, hints: &Hints, at: usize) -> Option<usize>
    requires within { at < length rows.now.items }
    requires sized { Sized rows.now.items }
    ensures answer { result ≡ parent_row_of rows.now.items at }
    ensures within { IfSome result (λ above. above < at) }
{
    above_row(rows, hints, at)
}

/// How many rows there are up to the parent's, it included: none where there is no parent.
pub fn above_end(rows: &Rows, hints: &Hints, at: usize) -> usize
    requires within { at < length rows.now.items }
    requires sized { SizedBefore (reverse (take at rows.now.items)) (drop at rows.now.items) }
    ensures answer { result ≡ past_row (parent_row_of rows.now.items at) }
    ensures within { result ≤ at }
{
    match above_row(rows, hints, at) {
        Some(above) => above + 1,
        None => 0,
    }
}

/// The row of the parent, as by `parent_row`, where only the sizes before the place need be right.
fn above_row(rows: &Rows, hints: &Hints, at: usize) -> Option<usize>
    requires within { at < length rows.now.items }
    requires sized { SizedBefore (reverse (take at rows.now.items)) (drop at rows.now.items) }
    ensures answer { result ≡ parent_row_of rows.now.items at }
    ensures within { IfSome result (λ above. above < at) }
{
    let row = rows.at(at);
    // A top has no parent, and no row before it is looked at.
    if row.depth == 0 {
        return None;
    }
    if let Some(noted) = noted_parent(hints, row.key) {
        if let Some(above) = parent_at(rows, at, row.depth - 1, noted) {
            return Some(above);
        }
        if let Some(above) = parent_at(rows, at, row.depth - 1, hints.moved(noted)) {
            return Some(above);
        }
    }
    let mut left = at;
    while left > 0 {
        left -= 1;
        if rows.at(left).depth < row.depth {
            return Some(left);
        }
    }
    None
}

/// Where the row of the parent of the node under a key was noted.
fn noted_parent(hints: &Hints, key: usize) -> Option<usize> {
    let parent = hints.parent(key)?;
    hints.noted(parent)
}

/// The row at a place where it is that of the parent of the row at another, as its size and its depth show, which is given.
#[inline(always)]
fn parent_at(rows: &Rows, at: usize, depth: u32, above: usize) -> Option<usize>
    requires within { at < length rows.now.items }
    requires depth { (slice_index_or rows.now.items at no_row).depth ≡ depth + 1 }
    requires sized { SizedBefore (reverse (take at rows.now.items)) (drop at rows.now.items) }
    ensures parent { IfSome result (λ found. Some found ≡ parent_row_of rows.now.items at) }
    ensures within { IfSome result (λ found. found < at) }
{
    if above >= at {
        return None;
    }
    let upper = rows.at(above);
    if upper.depth == depth && at - above < upper.size {
        return Some(above);
    }
    None
}

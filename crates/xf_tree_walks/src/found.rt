//! What comes next of what is sought.
ghost use Rattle.std.specs.Prelude.{◌≡◌, ◌<◌, ◌≤◌, [], true, false, length, MatchOption, slice_index_or};
ghost use Rattle.xf_tree_rows.specs.Rows.{AllDeep, no_row};
ghost use Rattle.xf_tree_walks.specs.Found.{IsFound, is_kin_sought, is_plain_sought, left_met, sought_within};
ghost use Rattle.xf_tree_walks.specs.Nodes.{is_kin, node_of};
ghost use Rattle.xf_tree_walks.specs.Walks.{AreNodes, IsReady, between, is_plain};

use crate::walk::{Left, step};
use xf_tree_contents::{Slots, Sought};
use xf_tree_rows::{Hints, Rows, end_of};

/// The next row of a walk whose node is sought, and what is left behind it.
#[inline(always)]
pub fn next_found(
    rows: &Rows,
    slots: &Slots,
    hints: &Hints,
    left: Left,
    sought: Sought<'_>,
) -> Option<(usize, Left)>
    requires nodes { AreNodes slots.now rows.now.items }
    requires ready { IsReady rows.now.items left }
    ensures { MatchOption result (left_met slots.now rows.now.items sought.entry left ≡ []) (λ r. IsFound slots.now rows.now.items sought.entry left r.0 r.1) }
{
    match left {
        Left::Trees { at, end, depth } => {
            let next = found_in_trees(rows, slots, at, end, depth, sought);
            if next >= end {
                return None;
            }
            let at = end_of(rows, next);
            Some((next, Left::Trees { at, end, depth }))
        }
        Left::Rows { at, end } => {
            let next = found_in_rows(rows, slots, at, end, sought);
            if next >= end {
                return None;
            }
            Some((next, Left::Rows { at: next + 1, end }))
        }
        _ => found_by_steps(rows, slots, hints, left, sought),
    }
}

/// The same by single steps of the walk.
#[inline(always)]
fn found_by_steps(
    rows: &Rows,
    slots: &Slots,
    hints: &Hints,
    left: Left,
    sought: Sought<'_>,
) -> Option<(usize, Left)>
    requires nodes { AreNodes slots.now rows.now.items }
    requires ready { IsReady rows.now.items left }
    ensures { MatchOption result (left_met slots.now rows.now.items sought.entry left ≡ []) (λ r. IsFound slots.now rows.now.items sought.entry left r.0 r.1) }
{
    let mut rest = left;
    while let Some((at, behind)) = step(rows, slots, hints, rest) {
        rest = behind;
        if slots.is_sought(rows.at(at).key, sought) {
            return Some((at, rest));
        }
    }
    None
}

/// The place of the next top of a tree that has this depth, is no attribute and is sought, or the end or past it where there is none.
#[inline(always)]
pub fn found_in_trees(
    rows: &Rows,
    slots: &Slots,
    at: usize,
    end: usize,
    depth: u32,
    sought: Sought<'_>,
) -> usize
    requires nodes { AreNodes slots.now rows.now.items }
    requires within { end ≤ length rows.now.items }
    requires deep { AllDeep depth (between at end rows.now.items) }
    ensures found { result < end → is_kin_sought depth sought.entry (node_of slots.now (slice_index_or rows.now.items result no_row)) ≡ true }
    ensures same { sought_within slots.now rows.now.items sought.entry (is_kin depth false) result end ≡ sought_within slots.now rows.now.items sought.entry (is_kin depth false) at end }
    ensures deep { AllDeep depth (between result end rows.now.items) }
{
    let mut next = at;
    while next < end && !is_kin_sought_at(rows, slots, next, depth, sought) {
        next = end_of(rows, next);
    }
    next
}

/// The place of the next node that is no attribute and is sought, or the end or past it where there is none.
fn found_in_rows(rows: &Rows, slots: &Slots, at: usize, end: usize, sought: Sought<'_>) -> usize
    requires nodes { AreNodes slots.now rows.now.items }
    requires within { end ≤ length rows.now.items }
    ensures found { result < end → is_plain_sought sought.entry (node_of slots.now (slice_index_or rows.now.items result no_row)) ≡ true }
    ensures same { sought_within slots.now rows.now.items sought.entry is_plain result end ≡ sought_within slots.now rows.now.items sought.entry is_plain at end }
{
    let mut next = at;
    while next < end && !slots.is_plain_sought(rows.at(next).key, sought) {
        next += 1;
    }
    next
}

/// Whether the row at a place has this depth, is of no attribute, and is sought.
#[inline(always)]
fn is_kin_sought_at(rows: &Rows, slots: &Slots, at: usize, depth: u32, sought: Sought<'_>) -> bool
    requires { at < length rows.now.items }
    ensures { result ≡ is_kin_sought depth sought.entry (node_of slots.now (slice_index_or rows.now.items at no_row)) }
{
    let row = rows.at(at);
    row.depth == depth && slots.is_plain_sought(row.key, sought)
}

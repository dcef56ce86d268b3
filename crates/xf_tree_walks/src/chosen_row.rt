//! The row of the sought node at a place among those on an axis.
ghost use Rattle.std.specs.Prelude.{◌≡◌, ◌≤◌, false, ◌<◌, length, map, option_map, slice_get, IfSome};
ghost use Rattle.xf_tree_rows.specs.Rows.{AllDeep};
ghost use Rattle.xf_tree_contents.specs.Sought.{met_on};
ghost use Rattle.xf_tree_walks.specs.Found.{left_met, sought_within, walk_met};
ghost use Rattle.xf_tree_walks.specs.Nodes.{is_kin, node_of};
ghost use Rattle.xf_tree_walks.specs.Walks.{AreNodes, IsReady, IsWalk, between, number_of_row};

use crate::axis::{child_depth, start};
use crate::found::{found_in_trees, next_found};
use crate::lookup::row_of;
use crate::narrow::narrowed;
use crate::walk::Left;
use xf_def_forest::NodeId;
use xf_name::Axis;
use xf_tree_contents::{Slots, Sought};
use xf_tree_rows::{Hints, Rows, end_of};

pub fn row_on_axis(
    rows: &Rows,
    slots: &Slots,
    hints: &Hints,
    from: NodeId,
    axis: Axis,
    sought: Sought<'_>,
    place: usize,
) -> Option<usize>
    requires { AreNodes slots.now rows.now.items }
    ensures answer { option_map (number_of_row slots.now rows.now.items) result ≡ slice_get (met_on axis sought.entry (map (node_of slots.now) rows.now.items) from.number) place }
    ensures within { IfSome result (λ at. at < length rows.now.items) }
{
    let Some(at) = row_of(rows, slots, hints, from) else {
        return None;
    };
    row_from(rows, slots, hints, at, axis, sought, place)
}

/// The same from the node at a place. To the children it goes straight.
fn row_from(
    rows: &Rows,
    slots: &Slots,
    hints: &Hints,
    at: usize,
    axis: Axis,
    sought: Sought<'_>,
    place: usize,
) -> Option<usize>
    requires nodes { AreNodes slots.now rows.now.items }
    requires within { at < length rows.now.items }
    ensures answer { option_map (number_of_row slots.now rows.now.items) result ≡ slice_get (met_on axis sought.entry (map (node_of slots.now) rows.now.items) (number_of_row slots.now rows.now.items at)) place }
    ensures within { IfSome result (λ found. found < length rows.now.items) }
{
    match axis {
        Axis::Child => {
            let end = end_of(rows, at);
            let depth = child_depth(rows, at);
            let (first, last) = narrowed(rows, slots, hints, at + 1, end, depth, sought);
            row_in_trees(rows, slots, first, last, depth, sought, place)
        }
        _ => {
            let (first, left) = start(rows, slots, hints, at, axis);
            row_found(rows, slots, hints, first, left, sought, place)
        }
    }
}

/// The row at a place, from 0, of the tops of trees that have this depth, are no attributes and are sought.
fn row_in_trees(
    rows: &Rows,
    slots: &Slots,
    at: usize,
    end: usize,
    depth: u32,
    sought: Sought<'_>,
    place: usize,
) -> Option<usize>
    requires nodes { AreNodes slots.now rows.now.items }
    requires within { end ≤ length rows.now.items }
    requires deep { AllDeep depth (between at end rows.now.items) }
    ensures answer { option_map (number_of_row slots.now rows.now.items) result ≡ slice_get (sought_within slots.now rows.now.items sought.entry (is_kin depth false) at end) place }
    ensures within { IfSome result (λ found. found < length rows.now.items) }
{
    let mut ahead = place;
    let mut next = at;
    while next < end {
        let here = found_in_trees(rows, slots, next, end, depth, sought);
        if here >= end {
            return None;
        }
        if ahead == 0 {
            return Some(here);
        }
        ahead -= 1;
        next = end_of(rows, here);
    }
    None
}

/// The row at a place, from 0, of those of a walk whose nodes are sought.
fn row_found(
    rows: &Rows,
    slots: &Slots,
    hints: &Hints,
    first: Option<usize>,
    left: Left,
    sought: Sought<'_>,
    place: usize,
) -> Option<usize>
    requires nodes { AreNodes slots.now rows.now.items }
    requires walk { IsWalk rows.now.items first left }
    ensures answer { option_map (number_of_row slots.now rows.now.items) result ≡ slice_get (walk_met slots.now rows.now.items sought.entry first left) place }
    ensures within { IfSome result (λ at. at < length rows.now.items) }
{
    let Some(at) = first else {
        return row_left(rows, slots, hints, left, sought, place);
    };
    if !slots.is_sought(rows.at(at).key, sought) {
        return row_left(rows, slots, hints, left, sought, place);
    }
    if place == 0 {
        return Some(at);
    }
    row_left(rows, slots, hints, left, sought, place - 1)
}

/// The same of what is left of a walk.
fn row_left(
    rows: &Rows,
    slots: &Slots,
    hints: &Hints,
    left: Left,
    sought: Sought<'_>,
    place: usize,
) -> Option<usize>
    requires nodes { AreNodes slots.now rows.now.items }
    requires ready { IsReady rows.now.items left }
    ensures answer { option_map (number_of_row slots.now rows.now.items) result ≡ slice_get (left_met slots.now rows.now.items sought.entry left) place }
    ensures within { IfSome result (λ at. at < length rows.now.items) }
{
    let mut before = place;
    let mut rest = left;
    while let Some((at, behind)) = next_found(rows, slots, hints, rest, sought) {
        if before == 0 {
            return Some(at);
        }
        before -= 1;
        rest = behind;
    }
    None
}

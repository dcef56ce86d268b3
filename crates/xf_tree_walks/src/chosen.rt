//! The nodes on an axis that are sought, put into a list.
ghost use Rattle.std.specs.Prelude.{◌≡◌, ◌≤◌, false, [], ◌∷◌, ◌++◌, ◌<◌, length, map, slice_index_or, OnOk};
ghost use Rattle.xf_tree_rows.specs.Rows.{AllDeep, no_row};
ghost use Rattle.xf_tree_contents.specs.Sought.{is_sought, met_on};
ghost use Rattle.xf_tree_walks.specs.Found.{alone_where, is_kin_sought, is_plain_sought, left_met, sought_within, walk_met};
ghost use Rattle.xf_tree_walks.specs.Nodes.{is_kin, node_of};
ghost use Rattle.xf_tree_walks.specs.Walks.{AreNodes, IsReady, IsWalk, between, is_plain, number_of_row};

use crate::axis::{child_depth, start};
use crate::found::next_found;
use crate::lookup::{is_kin_at, row_of};
use crate::narrow::narrowed;
use crate::walk::Left;
use std::alloc::AllocError;
use xf_def_forest::{NodeId, NodeList};
use xf_name::Axis;
use xf_tree_contents::{Principal, Slots, Sought, number_of};
use xf_tree_rows::{Hints, Rows, end_of, parent_row};

pub fn push_on_axis(
    found: &mut NodeList,
    rows: &Rows,
    slots: &Slots,
    hints: &Hints,
    node: NodeId,
    axis: Axis,
    sought: Sought<'_>,
) -> Result<(), AllocError>
    requires { AreNodes slots.now rows.now.items }
    ensures { OnOk result (found.new ≡ found.old ++ met_on axis sought.entry (map (node_of slots.now) rows.now.items) node.number) }
{
    let Some(at) = row_of(rows, slots, hints, node) else {
        return Ok(());
    };
    push_from(found, rows, slots, hints, at, axis, sought)
}

/// Puts behind other nodes those on an axis from the node at a place that are sought. The axes that are walked most go straight.
fn push_from(
    found: &mut NodeList,
    rows: &Rows,
    slots: &Slots,
    hints: &Hints,
    at: usize,
    axis: Axis,
    sought: Sought<'_>,
) -> Result<(), AllocError>
    requires nodes { AreNodes slots.now rows.now.items }
    requires within { at < length rows.now.items }
    ensures { OnOk result (found.new ≡ found.old ++ met_on axis sought.entry (map (node_of slots.now) rows.now.items) (number_of_row slots.now rows.now.items at)) }
{
    match axis {
        Axis::Child => {
            let end = end_of(rows, at);
            let depth = child_depth(rows, at);
            let (first, last) = narrowed(rows, slots, hints, at + 1, end, depth, sought);
            push_trees(found, rows, slots, first, last, depth, sought)
        }
        Axis::Attribute => {
            push_attributes(found, rows, slots, at + 1, child_depth(rows, at), sought)
        }
        Axis::Self_ => push_sought(found, rows, slots, at, sought),
        Axis::Parent => match parent_row(rows, hints, at) {
            Some(above) => push_sought(found, rows, slots, above, sought),
            None => Ok(()),
        },
        _ => {
            let (first, left) = start(rows, slots, hints, at, axis);
            push_found(found, rows, slots, hints, first, left, sought)
        }
    }
}

/// Puts behind other nodes those of a walk that are sought.
fn push_found(
    found: &mut NodeList,
    rows: &Rows,
    slots: &Slots,
    hints: &Hints,
    first: Option<usize>,
    left: Left,
    sought: Sought<'_>,
) -> Result<(), AllocError>
    requires nodes { AreNodes slots.now rows.now.items }
    requires walk { IsWalk rows.now.items first left }
    ensures { OnOk result (found.new ≡ found.old ++ walk_met slots.now rows.now.items sought.entry first left) }
{
    let Some(at) = first else {
        return push_left(found, rows, slots, hints, left, sought);
    };
    push_sought(found, rows, slots, at, sought)?;
    push_left(found, rows, slots, hints, left, sought)
}

/// The same of what is left of a walk.
fn push_left(
    found: &mut NodeList,
    rows: &Rows,
    slots: &Slots,
    hints: &Hints,
    left: Left,
    sought: Sought<'_>,
) -> Result<(), AllocError>
    requires nodes { AreNodes slots.now rows.now.items }
    requires ready { IsReady rows.now.items left }
    ensures { OnOk result (found.new ≡ found.old ++ left_met slots.now rows.now.items sought.entry left) }
{
    match left {
        Left::Trees { at, end, depth } => push_trees(found, rows, slots, at, end, depth, sought),
        Left::Rows { at, end } => push_rows(found, rows, slots, at, end, sought),
        _ => push_by_steps(found, rows, slots, hints, left, sought),
    }
}

/// The same, by single steps of the walk.
fn push_by_steps(
    found: &mut NodeList,
    rows: &Rows,
    slots: &Slots,
    hints: &Hints,
    left: Left,
    sought: Sought<'_>,
) -> Result<(), AllocError>
    requires nodes { AreNodes slots.now rows.now.items }
    requires ready { IsReady rows.now.items left }
    ensures { OnOk result (found.new ≡ found.old ++ left_met slots.now rows.now.items sought.entry left) }
{
    let mut rest = left;
    while let Some((at, behind)) = next_found(rows, slots, hints, rest, sought) {
        push_row(found, rows, slots, at)?;
        rest = behind;
    }
    Ok(())
}

/// Of trees, the tops that have this depth, are no attributes and are sought.
#[inline(always)]
fn push_trees(
    found: &mut NodeList,
    rows: &Rows,
    slots: &Slots,
    at: usize,
    end: usize,
    depth: u32,
    sought: Sought<'_>,
) -> Result<(), AllocError>
    requires nodes { AreNodes slots.now rows.now.items }
    requires within { end ≤ length rows.now.items }
    requires deep { AllDeep depth (between at end rows.now.items) }
    ensures { OnOk result (found.new ≡ found.old ++ sought_within slots.now rows.now.items sought.entry (is_kin depth false) at end) }
{
    match sought {
        Sought::Named(Principal::Element, asked) => push_tops(
            found,
            rows,
            slots,
            at,
            end,
            depth,
            Sought::Named(Principal::Element, asked),
        ),
        _ => push_tops(found, rows, slots, at, end, depth, sought),
    }
}

/// The same. Where it is called with a name, no other kind of search is thought of in the loop.
#[inline(always)]
fn push_tops(
    found: &mut NodeList,
    rows: &Rows,
    slots: &Slots,
    at: usize,
    end: usize,
    depth: u32,
    sought: Sought<'_>,
) -> Result<(), AllocError>
    requires nodes { AreNodes slots.now rows.now.items }
    requires within { end ≤ length rows.now.items }
    requires deep { AllDeep depth (between at end rows.now.items) }
    ensures { OnOk result (found.new ≡ found.old ++ sought_within slots.now rows.now.items sought.entry (is_kin depth false) at end) }
{
    let mut next = at;
    while next < end {
        push_kin(found, rows, slots, next, depth, sought)?;
        next = end_of(rows, next);
    }
    Ok(())
}

/// Of the attributes of this depth from a place on, to before the first node that is none, those that are sought.
fn push_attributes(
    found: &mut NodeList,
    rows: &Rows,
    slots: &Slots,
    at: usize,
    depth: u32,
    sought: Sought<'_>,
) -> Result<(), AllocError>
    requires { AreNodes slots.now rows.now.items }
    ensures { OnOk result (found.new ≡ found.old ++ left_met slots.now rows.now.items sought.entry (Left.Attributes at depth)) }
{
    let mut next = at;
    while next < rows.len() && is_kin_at(rows, slots, next, depth, true) {
        push_sought(found, rows, slots, next, sought)?;
        next += 1;
    }
    Ok(())
}

/// Of the nodes from one place to before another, those that are no attributes and are sought.
#[inline(always)]
fn push_rows(
    found: &mut NodeList,
    rows: &Rows,
    slots: &Slots,
    at: usize,
    end: usize,
    sought: Sought<'_>,
) -> Result<(), AllocError>
    requires nodes { AreNodes slots.now rows.now.items }
    requires within { end ≤ length rows.now.items }
    ensures { OnOk result (found.new ≡ found.old ++ sought_within slots.now rows.now.items sought.entry is_plain at end) }
{
    match sought {
        Sought::Named(Principal::Element, asked) => push_between(
            found,
            rows,
            slots,
            at,
            end,
            Sought::Named(Principal::Element, asked),
        ),
        _ => push_between(found, rows, slots, at, end, sought),
    }
}

/// The same. Where it is called with a name, no other kind of search is thought of in the loop.
#[inline(always)]
fn push_between(
    found: &mut NodeList,
    rows: &Rows,
    slots: &Slots,
    at: usize,
    end: usize,
    sought: Sought<'_>,
) -> Result<(), AllocError>
    requires nodes { AreNodes slots.now rows.now.items }
    requires within { end ≤ length rows.now.items }
    ensures { OnOk result (found.new ≡ found.old ++ sought_within slots.now rows.now.items sought.entry is_plain at end) }
{
    let mut next = at;
    while next < end {
        push_plain(found, rows, slots, next, sought)?;
        next += 1;
    }
    Ok(())
}

/// Puts the node of a row behind other nodes where it has this depth, is no attribute and is sought.
#[inline(always)]
fn push_kin(
    found: &mut NodeList,
    rows: &Rows,
    slots: &Slots,
    at: usize,
    depth: u32,
    sought: Sought<'_>,
) -> Result<(), AllocError>
    requires { at < length rows.now.items }
    ensures { OnOk result (found.new ≡ found.old ++ alone_where (is_kin_sought depth sought.entry (node_of slots.now (slice_index_or rows.now.items at no_row))) (number_of_row slots.now rows.now.items at)) }
{
    if rows.at(at).depth != depth {
        return Ok(());
    }
    push_plain(found, rows, slots, at, sought)
}

/// Puts the node of a row behind other nodes where it is no attribute and is sought.
#[inline(always)]
fn push_plain(
    found: &mut NodeList,
    rows: &Rows,
    slots: &Slots,
    at: usize,
    sought: Sought<'_>,
) -> Result<(), AllocError>
    requires { at < length rows.now.items }
    ensures { OnOk result (found.new ≡ found.old ++ alone_where (is_plain_sought sought.entry (node_of slots.now (slice_index_or rows.now.items at no_row))) (number_of_row slots.now rows.now.items at)) }
{
    let place = rows.at(at).key;
    match slots.plain_sought_number(place, sought) {
        Some(number) => found.push(NodeId { number, place }),
        None => Ok(()),
    }
}

/// Puts the node of a row behind other nodes where it is sought.
#[inline(always)]
fn push_sought(
    found: &mut NodeList,
    rows: &Rows,
    slots: &Slots,
    at: usize,
    sought: Sought<'_>,
) -> Result<(), AllocError>
    requires { at < length rows.now.items }
    ensures { OnOk result (found.new ≡ found.old ++ alone_where (is_sought sought.entry (node_of slots.now (slice_index_or rows.now.items at no_row)).content) (number_of_row slots.now rows.now.items at)) }
{
    let place = rows.at(at).key;
    match slots.sought_number(place, sought) {
        Some(number) => found.push(NodeId { number, place }),
        None => Ok(()),
    }
}

/// Puts the node of a row behind other nodes.
fn push_row(found: &mut NodeList, rows: &Rows, slots: &Slots, at: usize) -> Result<(), AllocError>
    requires { at < length rows.now.items }
    ensures { OnOk result (found.new ≡ found.old ++ number_of_row slots.now rows.now.items at ∷ []) }
{
    let place = rows.at(at).key;
    let number = number_of(slots, place);
    found.push(NodeId { number, place })
}

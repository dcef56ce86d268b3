//! Where a walk along an axis begins, and what it has left then.
ghost use Rattle.std.specs.Prelude.{◌≡◌, ◌+◌, ◌<◌, ◌^◌, length, map, drop, slice_index_or};
ghost use Rattle.xf_def_forest.specs.Visit.{visits};
ghost use Rattle.xf_def_forest.specs.Axis.{axis_of};
ghost use Rattle.xf_tree_rows.specs.Rows.{Sized, tree_of, AreSteps, depths, no_row};
ghost use Rattle.xf_tree_walks.specs.Nodes.{node_of};
ghost use Rattle.xf_tree_walks.specs.Walks.{AreNodes, IsReady, IsWalk, left_of, number_of_row, walk_of};

use crate::walk::{Left, Walk};
use xf_name::Axis;
use xf_tree_contents::{Slots, is_attribute_at};
use xf_tree_rows::{Hints, Rows, end_of, parent_row};

pub fn walk_from<'a>(
    rows: &'a Rows,
    slots: &'a Slots,
    hints: &'a Hints,
    at: usize,
    axis: Axis,
) -> Walk<'a>
    requires nodes { AreNodes slots.now rows.now.items }
    requires within { at < length rows.now.items }
    ensures { result ≡ axis_of axis (number_of_row slots.now rows.now.items at) (visits (map (node_of slots.now) rows.now.items)) }
{
    let (first, left) = start(rows, slots, hints, at, axis);
    Walk {
        rows,
        slots,
        hints,
        first,
        left,
    }
}

/// The first node of a walk and what it has left then.
#[inline(always)]
pub fn start(
    rows: &Rows,
    slots: &Slots,
    hints: &Hints,
    at: usize,
    axis: Axis,
) -> (Option<usize>, Left)
    requires nodes { AreNodes slots.now rows.now.items }
    requires within { at < length rows.now.items }
    ensures walk { IsWalk rows.now.items result.0 result.1 }
    ensures answer { walk_of slots.now rows.now.items result.0 result.1 ≡ axis_of axis (number_of_row slots.now rows.now.items at) (visits (map (node_of slots.now) rows.now.items)) }
{
    match axis {
        Axis::Self_ => (Some(at), Left::Nothing),
        Axis::Child => (None, right_below(rows, at)),
        Axis::Attribute => (None, own_attributes(rows, at)),
        Axis::Parent => (parent_row(rows, hints, at), Left::Nothing),
        Axis::Ancestor => (None, Left::Up { at }),
        Axis::AncestorOrSelf => (Some(at), Left::Up { at }),
        Axis::Descendant => (None, all_below(rows, at)),
        Axis::DescendantOrSelf => (Some(at), all_below(rows, at)),
        Axis::FollowingSibling => (None, later_siblings(rows, slots, hints, at)),
        Axis::PrecedingSibling => (None, earlier_siblings(rows, slots, hints, at)),
    }
}

/// The depth of the children and attributes.
#[inline(always)]
pub fn child_depth(rows: &Rows, at: usize) -> u32
    requires within { at < length rows.now.items }
    requires steps { AreSteps 0 (depths rows.now.items) }
    requires few { length rows.now.items < 2 ^ 31 }
    ensures { result ≡ (slice_index_or rows.now.items at no_row).depth + 1 }
{
    rows.at(at).depth + 1
}

/// The children.
fn right_below(rows: &Rows, at: usize) -> Left
    requires within { at < length rows.now.items }
    requires sized { Sized rows.now.items }
    requires steps { AreSteps 0 (depths rows.now.items) }
    requires few { length rows.now.items < 2 ^ 31 }
    ensures { result ≡ Left.Trees (at + 1) (at + length (tree_of (drop at rows.now.items))) ((slice_index_or rows.now.items at no_row).depth + 1) }
{
    Left::Trees {
        at: at + 1,
        end: end_of(rows, at),
        depth: child_depth(rows, at),
    }
}

/// The attributes: they stand right behind their element.
fn own_attributes(rows: &Rows, at: usize) -> Left
    requires within { at < length rows.now.items }
    requires steps { AreSteps 0 (depths rows.now.items) }
    requires few { length rows.now.items < 2 ^ 31 }
    ensures { result ≡ Left.Attributes (at + 1) ((slice_index_or rows.now.items at no_row).depth + 1) }
{
    Left::Attributes {
        at: at + 1,
        depth: child_depth(rows, at),
    }
}

fn all_below(rows: &Rows, at: usize) -> Left
    requires within { at < length rows.now.items }
    requires sized { Sized rows.now.items }
    ensures { result ≡ Left.Rows (at + 1) (at + length (tree_of (drop at rows.now.items))) }
{
    let end = end_of(rows, at);
    Left::Rows { at: at + 1, end }
}

fn later_siblings(rows: &Rows, slots: &Slots, hints: &Hints, at: usize) -> Left
    requires nodes { AreNodes slots.now rows.now.items }
    requires within { at < length rows.now.items }
    ensures ready { IsReady rows.now.items result }
    ensures answer { left_of slots.now rows.now.items result ≡ axis_of Axis.FollowingSibling (number_of_row slots.now rows.now.items at) (visits (map (node_of slots.now) rows.now.items)) }
{
    let Some(above) = parent_row(rows, hints, at) else {
        return Left::Nothing;
    };
    if is_attribute_at(slots, rows.at(at).key) {
        return Left::Nothing;
    }
    Left::Trees {
        at: end_of(rows, at),
        end: end_of(rows, above),
        depth: rows.at(at).depth,
    }
}

fn earlier_siblings(rows: &Rows, slots: &Slots, hints: &Hints, at: usize) -> Left
    requires nodes { AreNodes slots.now rows.now.items }
    requires within { at < length rows.now.items }
    ensures ready { IsReady rows.now.items result }
    ensures answer { left_of slots.now rows.now.items result ≡ axis_of Axis.PrecedingSibling (number_of_row slots.now rows.now.items at) (visits (map (node_of slots.now) rows.now.items)) }
{
    let Some(above) = parent_row(rows, hints, at) else {
        return Left::Nothing;
    };
    if is_attribute_at(slots, rows.at(at).key) {
        return Left::Nothing;
    }
    Left::Back {
        above,
        at,
        depth: rows.at(at).depth,
    }
}

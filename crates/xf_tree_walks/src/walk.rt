//! Walks over the nodes of a forest, from row to row.
ghost use Rattle.std.specs.Prelude.{◌≡◌, ℕ, ◌+◌, ◌<◌, ◌≤◌, List, [], true, false, length, slice_index_or, MatchOption, IfSome};
ghost use Rattle.std.specs.Iterator.{YieldsFirstBy, item_count};
ghost use Rattle.xf_tree_rows.specs.Rows.{Sized, AllDeep, no_row};
ghost use Rattle.xf_tree_walks.specs.Nodes.{node_of, is_kin};
ghost use Rattle.xf_tree_walks.specs.Walks.{between, chosen, is_plain, left_of, IsReady, IsStep};

use crate::lookup::is_kin_at;
use std::marker::Model;
use xf_def_forest::NodeId;
use xf_tree_contents::{Slots, is_attribute_at, number_of};
use xf_tree_rows::{Hints, Rows, end_of, parent_row};

/// What a walk has left besides a first node. Places are those of rows.
#[derive(Clone, Copy)]
pub enum Left {
    Nothing,
    /// Of the trees from one place to before another the tops that have this depth, without the attributes.
    Trees { at: usize, end: usize, depth: u32 },
    /// The attributes of this depth from a place on, to before the first node that is none. No other of their element's
    /// comes later.
    Attributes { at: usize, depth: u32 },
    /// The nodes from one place to before another, without the attributes.
    Rows { at: usize, end: usize },
    /// The ancestors of the node at a place, the nearest first.
    Up { at: usize },
    /// The nodes of this depth before one place, back to behind another, without the attributes.
    Back { above: usize, at: usize, depth: u32 },
}

/// The nodes on an axis, nearest first. It costs what it yields, and a look at each attribute that it passes.
#[derive(Drop)]
pub struct Walk<'a> {
    pub(crate) rows: &'a Rows,
    pub(crate) slots: &'a Slots,
    pub(crate) hints: &'a Hints,
    pub(crate) first: Option<usize>,
    pub(crate) left: Left,
}

impl<'a> Model for Walk<'a> {
    ghost use Rattle.std.specs.Prelude.{ℕ, List};

    ghost Value = { List ℕ };

    ghost use Rattle.xf_tree_walks.specs.Walks.{walk_of, IsWalk};

    ghost view = { λ w. walk_of w.slots.now w.rows.now.items w.first w.left };

    ghost invariant = { λ w. IsWalk w.rows.now.items w.first w.left };
}

impl<'a> Iterator for Walk<'a> {
    ghost use Rattle.xf_def_forest.specs.declared.node.NodeId.{NodeId};

    type Item = NodeId;

    ghost next_gives = { YieldsFirstBy (λ (n : NodeId). n.number) (λ w. w) };

    ghost remaining = { item_count (λ w. w) };

    fn next(&mut self) -> Option<NodeId> {
        let (at, left) = match self.first {
            Some(at) => (at, self.left),
            None => step(self.rows, self.slots, self.hints, self.left)?,
        };
        self.first = None;
        self.left = left;
        let place = self.rows.at(at).key;
        Some(NodeId {
            number: number_of(self.slots, place),
            place,
        })
    }
}

/// A walk over no nodes.
pub fn no_walk<'a>(rows: &'a Rows, slots: &'a Slots, hints: &'a Hints) -> Walk<'a>
    requires { Sized rows.now.items }
    ensures { result ≡ [] }
{
    Walk {
        rows,
        slots,
        hints,
        first: None,
        left: Left::Nothing,
    }
}

/// The row that comes next, and what is left behind it.
#[inline(always)]
pub fn step(rows: &Rows, slots: &Slots, hints: &Hints, left: Left) -> Option<(usize, Left)>
    requires sized { Sized rows.now.items }
    requires ready { IsReady rows.now.items left }
    ensures { MatchOption result (left_of slots.now rows.now.items left ≡ []) (λ r. IsStep slots.now rows.now.items left r.0 r.1) }
{
    match left {
        Left::Nothing => None,
        Left::Trees { at, end, depth } => step_over_trees(rows, slots, at, end, depth),
        Left::Attributes { at, depth } => step_over_attributes(rows, slots, at, depth),
        Left::Rows { at, end } => step_over_rows(rows, slots, at, end),
        Left::Up { at } => match parent_row(rows, hints, at) {
            Some(above) => Some((above, Left::Up { at: above })),
            None => None,
        },
        Left::Back { above, at, depth } => step_back(rows, slots, hints, above, at, depth),
    }
}

fn step_over_trees(
    rows: &Rows,
    slots: &Slots,
    at: usize,
    end: usize,
    depth: u32,
) -> Option<(usize, Left)>
    requires sized { Sized rows.now.items }
    requires ready { IsReady rows.now.items (Left.Trees at end depth) }
    ensures { MatchOption result (left_of slots.now rows.now.items (Left.Trees at end depth) ≡ []) (λ r. IsStep slots.now rows.now.items (Left.Trees at end depth) r.0 r.1) }
{
    let next = next_kin(rows, slots, at, end, depth);
    if next >= end {
        return None;
    }
    let at = end_of(rows, next);
    Some((next, Left::Trees { at, end, depth }))
}

fn step_over_attributes(rows: &Rows, slots: &Slots, at: usize, depth: u32) -> Option<(usize, Left)>
    ensures { MatchOption result (left_of slots.now rows.now.items (Left.Attributes at depth) ≡ []) (λ r. IsStep slots.now rows.now.items (Left.Attributes at depth) r.0 r.1) }
{
    if at >= rows.len() {
        return None;
    }
    if !is_kin_at(rows, slots, at, depth, true) {
        return None;
    }
    Some((at, Left::Attributes { at: at + 1, depth }))
}

fn step_over_rows(rows: &Rows, slots: &Slots, at: usize, end: usize) -> Option<(usize, Left)>
    requires { end ≤ length rows.now.items }
    ensures { MatchOption result (left_of slots.now rows.now.items (Left.Rows at end) ≡ []) (λ r. IsStep slots.now rows.now.items (Left.Rows at end) r.0 r.1) }
{
    let next = next_plain(rows, slots, at, end);
    if next >= end {
        return None;
    }
    Some((next, Left::Rows { at: next + 1, end }))
}

#[inline(always)]
fn step_back(
    rows: &Rows,
    slots: &Slots,
    hints: &Hints,
    above: usize,
    at: usize,
    depth: u32,
) -> Option<(usize, Left)>
    requires sized { Sized rows.now.items }
    requires ready { IsReady rows.now.items (Left.Back above at depth) }
    ensures { MatchOption result (left_of slots.now rows.now.items (Left.Back above at depth) ≡ []) (λ r. IsStep slots.now rows.now.items (Left.Back above at depth) r.0 r.1) }
{
    let next = last_kin(rows, slots, hints, above, at, depth);
    if next <= above {
        return None;
    }
    Some((
        next,
        Left::Back {
            above,
            at: next,
            depth,
        },
    ))
}

/// The place of the next top of a tree that has this depth and is no attribute, or the end or past it where there is none.
fn next_kin(rows: &Rows, slots: &Slots, at: usize, end: usize, depth: u32) -> usize
    requires sized { Sized rows.now.items }
    requires within { end ≤ length rows.now.items }
    requires deep { AllDeep depth (between at end rows.now.items) }
    ensures found { result < end → is_kin depth false (node_of slots.now (slice_index_or rows.now.items result no_row)) ≡ true }
    ensures same { chosen slots.now (is_kin depth false) (between result end rows.now.items) ≡ chosen slots.now (is_kin depth false) (between at end rows.now.items) }
    ensures deep { AllDeep depth (between result end rows.now.items) }
{
    let mut next = at;
    while next < end && !is_kin_at(rows, slots, next, depth, false) {
        next = end_of(rows, next);
    }
    next
}

/// The place of the next node that is no attribute, or the end or past it where there is none.
fn next_plain(rows: &Rows, slots: &Slots, at: usize, end: usize) -> usize
    requires within { end ≤ length rows.now.items }
    ensures found { result < end → is_plain (node_of slots.now (slice_index_or rows.now.items result no_row)) ≡ true }
    ensures same { chosen slots.now is_plain (between result end rows.now.items) ≡ chosen slots.now is_plain (between at end rows.now.items) }
{
    let mut next = at;
    while next < end && is_attribute_at(slots, rows.at(next).key) {
        next += 1;
    }
    next
}

/// The place of the last node before a place that has this depth and is no attribute, or the first place where there is none
/// behind it.
#[inline(always)]
fn last_kin(rows: &Rows, slots: &Slots, hints: &Hints, above: usize, at: usize, depth: u32) -> usize
    requires sized { Sized rows.now.items }
    requires order { above < at }
    requires within { at ≤ length rows.now.items }
    requires less { (slice_index_or rows.now.items above no_row).depth < depth }
    ensures within { result < at }
    ensures found { above < result → is_kin depth false (node_of slots.now (slice_index_or rows.now.items result no_row)) ≡ true }
    ensures same { chosen slots.now (is_kin depth false) (between (above + 1) (result + 1) rows.now.items) ≡ chosen slots.now (is_kin depth false) (between (above + 1) at rows.now.items) }
{
    let mut next = climb_to(rows, hints, above, at - 1, depth);
    while next > above && !is_kin_at(rows, slots, next, depth, false) {
        next = climb_to(rows, hints, above, next - 1, depth);
    }
    next
}

/// The place of the nearest row back from a place, itself included, that is no deeper than this, down to a row that is less deep.
fn climb_to(rows: &Rows, hints: &Hints, above: usize, from: usize, depth: u32) -> usize
    requires sized { Sized rows.now.items }
    requires order { above ≤ from }
    requires within { from < length rows.now.items }
    requires less { (slice_index_or rows.now.items above no_row).depth < depth }
    ensures order { above ≤ result }
    ensures within { result ≤ from }
    ensures deep { AllDeep (depth + 1) (between (result + 1) (from + 1) rows.now.items) }
{
    if let Some(place) = alike_before(rows, above, from, depth) {
        return place;
    }
    let mut at = from;
    while rows.at(at).depth > depth {
        match parent_row(rows, hints, at) {
            Some(place) => at = place,
            None => return at,
        }
    }
    at
}

/// The top of the tree whose last row is at a place, where it is as large as the tree behind it, as in a table whose rows are alike. No row
/// between is looked at.
#[inline(always)]
fn alike_before(rows: &Rows, above: usize, from: usize, depth: u32) -> Option<usize>
    requires sized { Sized rows.now.items }
    requires order { above ≤ from }
    requires within { from < length rows.now.items }
    ensures order { IfSome result (λ place. above ≤ place) }
    ensures within { IfSome result (λ place. place ≤ from) }
    ensures deep { IfSome result (λ place. AllDeep (depth + 1) (between (place + 1) (from + 1) rows.now.items)) }
{
    rows.is_bounded();
    let next = from + 1;
    if next >= rows.len() {
        return None;
    }
    let size = rows.at(next).size;
    if size > next - above {
        return None;
    }
    let place = next - size;
    if rows.at(place).depth == depth && end_of(rows, place) == next {
        return Some(place);
    }
    None
}

//! What moves rows, and the sizes that change with it.
ghost use Rattle.std.specs.Prelude.{◌≡◌, ◌+◌, ◌<◌, ◌≤◌, ◌^◌, length, take, drop, reverse, ◌++◌};
ghost use Rattle.std.specs.List.{All};
ghost use Rattle.xf_tree_rows.specs.Rows.{grown, shrunk, Sized, IsCut, IsRooted, tree_of, after_tree, deeper, top_depth, IsPaste};

use crate::hints::Hints;
use crate::parents::above_end;
use crate::rows::{Row, Rows, end_of};

/// Adds to the sizes of the rows that are open at a place, where a tree of this depth comes in. It climbs by the hints.
pub fn grow(rows: &mut Rows, hints: &Hints, at: usize, depth: u32, by: usize)
    requires within { at ≤ length rows.old.items }
    requires sized { Sized rows.old.items }
    requires room { All (λ r. r.size + by < 2 ^ 64) (take at rows.old.items) }
    ensures items { rows.new.items ≡ grown by depth (reverse (take at rows.old.items)) (drop at rows.old.items) }
    ensures same { length rows.new.items ≡ length rows.old.items }
    ensures room { rows.new.capacity ≡ rows.old.capacity }
{
    let mut left = at;
    let mut below = depth;
    while left > 0 {
        let here = left - 1;
        let row = rows.at(here);
        left = above_end(rows, hints, here);
        if row.depth < below {
            below = row.depth;
            rows.put(here, sized(row, row.size + by));
        }
    }
}

/// Takes from the sizes of the rows that are open at a place, where a tree of this depth goes out. It climbs by the
/// hints.
pub fn shrink(rows: &mut Rows, hints: &Hints, at: usize, depth: u32, by: usize)
    requires within { at ≤ length rows.old.items }
    requires sized { Sized rows.old.items }
    ensures items { rows.new.items ≡ shrunk by depth (reverse (take at rows.old.items)) (drop at rows.old.items) }
    ensures same { length rows.new.items ≡ length rows.old.items }
    ensures room { rows.new.capacity ≡ rows.old.capacity }
{
    let mut left = at;
    let mut below = depth;
    while left > 0 {
        let here = left - 1;
        let row = rows.at(here);
        left = above_end(rows, hints, here);
        if row.depth < below {
            below = row.depth;
            rows.put(here, sized(row, row.size.saturating_sub(by)));
        }
    }
}

/// A row with another size.
#[inline(always)]
pub fn sized(row: Row, size: usize) -> Row
    ensures { result ≡ record row { size = size } }
{
    Row {
        key: row.key,
        size,
        depth: row.depth,
    }
}

/// Moves the tree at a place behind all others, with its top at depth 0.
pub fn cut(rows: &mut Rows, hints: &Hints, at: usize)
    requires within { at < length rows.old.items }
    requires sized { Sized rows.old.items }
    ensures sized { Sized rows.new.items }
    ensures answer { IsCut at rows.old.items rows.new.items }
    ensures room { rows.new.capacity ≡ rows.old.capacity }
{
    let depth = rows.at(at).depth;
    let end = end_of(rows, at);
    let all = rows.len();
    // First, while all sizes are right: so the ancestors are found by the hints.
    shrink(rows, hints, at, depth, end - at);
    rows.raise(at, end, depth);
    rows.rotate(at, end, all);
}

/// Moves a tree that stands by itself to an earlier place, to have this depth there.
pub fn paste(rows: &mut Rows, hints: &Hints, from: usize, to: usize, depth: u32)
    requires order { to ≤ from }
    requires within { from < length rows.old.items }
    requires few { length rows.old.items < 2 ^ 32 }
    requires sized { Sized rows.old.items }
    requires alone { top_depth (drop from rows.old.items) ≡ 0 }
    requires place { deeper depth (drop to rows.old.items) ≡ 0 }
    requires fits { All (λ r. r.depth + depth < 2 ^ 32) rows.old.items }
    ensures sized { Sized rows.new.items }
    ensures answer { IsPaste from to depth rows.old.items rows.new.items }
    ensures room { rows.new.capacity ≡ rows.old.capacity }
{
    let end = end_of(rows, from);
    // First, while all sizes are right: so the ancestors are found by the hints.
    grow(rows, hints, to, depth, end - from);
    rows.deepen(from, end, depth);
    rows.rotate(to, from, end);
}

/// Puts the last row before the rows from `from` on, which go one deeper below it, and all of these at an earlier place.
pub fn lift_root(rows: &mut Rows, place: usize, from: usize)
    requires order { place ≤ from }
    requires within { from < length rows.old.items }
    requires fits { All (λ r. r.depth + 1 < 2 ^ 32) rows.old.items }
    ensures answer { IsRooted place from rows.old.items rows.new.items }
    ensures room { rows.new.capacity ≡ rows.old.capacity }
{
    let last = rows.len() - 1;
    rows.deepen(from, last, 1);
    rows.rotate(from, last, last + 1);
    rows.rotate(place, from, last + 1);
}

/// Moves the tree at a place behind all others, as it is. The answer is where it stands then.
pub fn move_last(rows: &mut Rows, at: usize) -> usize
    requires within { at < length rows.old.items }
    requires sized { Sized rows.old.items }
    ensures moved { rows.new.items ≡ take at rows.old.items ++ (after_tree (drop at rows.old.items) ++ tree_of (drop at rows.old.items)) }
    ensures from { result + length (tree_of (drop at rows.old.items)) ≡ length rows.old.items }
    ensures room { rows.new.capacity ≡ rows.old.capacity }
{
    let end = end_of(rows, at);
    let all = rows.len();
    rows.rotate(at, end, all);
    all - (end - at)
}

//! The place of a node among its siblings, as a path has it.
ghost use Rattle.std.specs.Prelude.{◌≡◌, ◌<◌, ◌≤◌, length, nat_lt, slice_index_or};
ghost use Rattle.xf_tree_rows.specs.Rows.{Sized, AllDeep, no_row};
ghost use Rattle.xf_tree_contents.specs.Seen.{seen_content};
ghost use Rattle.xf_tree_walks.specs.Siblings.{same_sort, is_like};
ghost use Rattle.xf_tree_walks.specs.Nodes.{node_of};
ghost use Rattle.xf_tree_walks.specs.Walks.{between, chosen};

use xf_tree_contents::{Seen, Slots, is_element, is_text, same_written, shown_at};
use xf_tree_rows::{Rows, end_of};

/// Whether the second is counted with the first: elements whose names are written alike, or texts.
fn same_sort(like: Seen<'_>, other: Seen<'_>) -> bool
    ensures { result ≡ same_sort (seen_content like.entry) (seen_content other.entry) }
{
    match like {
        Seen::Element(_) => is_element(other) && same_written(like, other),
        Seen::Text(_) => is_text(other),
        _ => false,
    }
}

/// Whether the row at a place has this depth and is counted with a content.
fn is_like_at(rows: &Rows, slots: &Slots, at: usize, depth: u32, like: Seen<'_>) -> bool
    requires { at < length rows.now.items }
    ensures { result ≡ is_like depth (seen_content like.entry) (node_of slots.now (slice_index_or rows.now.items at no_row)) }
{
    if rows.at(at).depth != depth {
        return false;
    }
    same_sort(like, shown_at(slots, rows.at(at).key))
}

/// How many of the trees from one place to before another have tops of this depth that are counted with a content.
pub fn count_like(
    rows: &Rows,
    slots: &Slots,
    from: usize,
    to: usize,
    depth: u32,
    like: Seen<'_>,
) -> usize
    requires sized { Sized rows.now.items }
    requires within { to ≤ length rows.now.items }
    requires deep { AllDeep depth (between from to rows.now.items) }
    ensures { result ≡ length (chosen slots.now (is_like depth (seen_content like.entry)) (between from to rows.now.items)) }
{
    let mut count = 0;
    let mut next = from;
    while next < to {
        if is_like_at(rows, slots, next, depth, like) {
            count += 1;
        }
        next = end_of(rows, next);
    }
    count
}

/// Whether one of the trees from one place to before another has such a top.
pub fn has_like(
    rows: &Rows,
    slots: &Slots,
    from: usize,
    to: usize,
    depth: u32,
    like: Seen<'_>,
) -> bool
    requires sized { Sized rows.now.items }
    requires within { to ≤ length rows.now.items }
    requires deep { AllDeep depth (between from to rows.now.items) }
    ensures { result ≡ nat_lt 0 (length (chosen slots.now (is_like depth (seen_content like.entry)) (between from to rows.now.items))) }
{
    let mut next = from;
    while next < to {
        if is_like_at(rows, slots, next, depth, like) {
            return true;
        }
        next = end_of(rows, next);
    }
    false
}

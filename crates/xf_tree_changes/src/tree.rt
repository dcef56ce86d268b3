//! Trees that come in behind all others.
ghost use Rattle.std.specs.Prelude.{◌≡◌, ◌+◌, ◌≤◌, ◌<◌, ◌^◌, ℕ, ◌∷◌, [], ◌++◌, length, map, take, drop, Some, None, slice_index_or, IfOk, ◌*◌};
ghost use Rattle.slab.specs.Slab.{get, slab_len, Updates, HasRoomFor};
ghost use Rattle.xf_def_forest.specs.Limits.{size_of};
ghost use Rattle.xf_def_forest.specs.Plant.{numbered_from};
ghost use Rattle.xf_tree_rows.specs.Rows.{Sized, deeper, no_row};
ghost use Rattle.xf_tree_contents.specs.Keys.{content_in};
ghost use Rattle.xf_tree_walks.specs.Nodes.{node_of, AllLive, IsTree};
ghost use Rattle.xf_tree_changes.specs.Trees.{KeepsLive, unsized, part_of, size_of_all};

use std::alloc::{AllocError, Global};
use xf_def_forest::Content;
use xf_tree_contents::{Part, Slots, duplicate, lent, shown_at, size_in};
use xf_tree_rows::{Hints, Row, RowSlice, Rows, sized};

/// Puts a node behind all others.
pub fn push_node(
    rows: &mut Rows,
    slots: &mut Slots,
    number: u128,
    depth: u32,
    size: usize,
    content: Content,
) -> usize
    requires slot { HasRoomFor slots.old 1 }
    requires row { length rows.old.items < rows.old.capacity }
    ensures vacant { get slots.old result ≡ None }
    ensures slot { Updates slots.old slots.new result (Some (record { number = number; owner = 0; content = content })) }
    ensures row { rows.new.items ≡ rows.old.items ++ (record { key = result; size = size; depth = depth } ∷ []) }
    ensures more { length rows.new.items ≡ length rows.old.items + 1 }
    ensures room { rows.new.capacity ≡ rows.old.capacity }
    ensures count { slab_len slots.new ≡ slab_len slots.old + 1 }
    ensures slots { slots.old.capacity ≤ slots.new.capacity }
{
    let key = slots.insert(number, content);
    rows.push_reserved(Row { key, size, depth });
    key
}

/// Puts the nodes of a tree behind all others, with numbers from the first one on.
pub fn push_tree(
    rows: &mut Rows,
    slots: &mut Slots,
    hints: &mut Hints,
    first: u128,
    tree: Vec<Part>,
)
    requires tree { IsTree tree.items }
    requires slots { HasRoomFor slots.old (length tree.items) }
    requires rows { length rows.old.items + length tree.items ≤ rows.old.capacity }
    requires live { AllLive slots.old rows.old.items }
    requires small { (key : ℕ) → size_of (content_in (get slots.old key)) ≤ 2 ^ 66 }
    requires numbers { first + length tree.items < 2 ^ 128 }
    ensures front { take (length rows.old.items) rows.new.items ≡ rows.old.items }
    ensures nodes { map (node_of slots.new) (drop (length rows.old.items) rows.new.items) ≡ numbered_from first tree.items }
    ensures sized { Sized (drop (length rows.old.items) rows.new.items) }
    ensures live { AllLive slots.new rows.new.items }
    ensures rest { KeepsLive slots.old slots.new }
    ensures small { (key : ℕ) → size_of (content_in (get slots.new key)) ≤ 2 ^ 66 }
    ensures room { rows.new.capacity ≡ rows.old.capacity }
{
    let start = rows.len();
    push_all(rows, slots, hints, first, tree);
    slots.give_back();
    set_sizes(rows, hints, start);
}

fn push_all(rows: &mut Rows, slots: &mut Slots, hints: &mut Hints, first: u128, tree: Vec<Part>)
    requires tree { IsTree tree.items }
    requires slots { HasRoomFor slots.old (length tree.items) }
    requires rows { length rows.old.items + length tree.items ≤ rows.old.capacity }
    requires live { AllLive slots.old rows.old.items }
    requires small { (key : ℕ) → size_of (content_in (get slots.old key)) ≤ 2 ^ 66 }
    requires numbers { first + length tree.items < 2 ^ 128 }
    ensures front { take (length rows.old.items) rows.new.items ≡ rows.old.items }
    ensures nodes { map (node_of slots.new) (drop (length rows.old.items) rows.new.items) ≡ numbered_from first tree.items }
    ensures live { AllLive slots.new rows.new.items }
    ensures rest { KeepsLive slots.old slots.new }
    ensures small { (key : ℕ) → size_of (content_in (get slots.new key)) ≤ 2 ^ 66 }
    ensures room { rows.new.capacity ≡ rows.old.capacity }
{
    let mut number = first;
    for (depth, content) in tree {
        let key = push_node(rows, slots, number, depth, 1, content);
        hints.reserve(key);
        number += 1;
    }
}

/// Sets the sizes of the rows from a place on, from the last one back.
fn set_sizes(rows: &mut Rows, hints: &mut Hints, start: usize)
    requires { start ≤ length rows.old.items }
    ensures sized { Sized (drop start rows.new.items) }
    ensures front { take start rows.new.items ≡ take start rows.old.items }
    ensures same { map unsized rows.new.items ≡ map unsized rows.old.items }
    ensures room { rows.new.capacity ≡ rows.old.capacity }
{
    let mut at = rows.len();
    while at > start {
        at -= 1;
        let end = tree_end(rows, hints, at);
        rows.put(at, sized(rows.at(at), end - at));
    }
}

/// Where the tree of the row at a place ends, by the sizes of the rows behind it. Hints are noted for the row and its children.
fn tree_end(rows: &Rows, hints: &mut Hints, at: usize) -> usize
    requires within { at < length rows.now.items }
    requires sized { Sized (drop (at + 1) rows.now.items) }
    ensures answer { result ≡ at + 1 + deeper (slice_index_or rows.now.items at no_row).depth (drop (at + 1) rows.now.items) }
    ensures within { result ≤ length rows.now.items }
{
    let top = rows.at(at);
    hints.note(top.key, at);
    rows.is_bounded();
    let mut next = at + 1;
    while next < rows.len() && rows.at(next).depth > top.depth {
        hints.note_parent(rows.at(next).key, top.key);
        next += rows.at(next).size;
    }
    next
}

/// The contents of these rows, with their depths below a top.
pub fn contents_of(
    alloc: Global,
    slots: &Slots,
    rows: &RowSlice<'_>,
    top: u32,
) -> Result<Vec<Part>, AllocError>
    ensures { IfOk result (λ tree. tree.items ≡ map (part_of slots.now top) rows.now) }
{
    let mut tree = Vec::new(alloc);
    for at in 0..rows.len() {
        let row = rows.at(at);
        let content = duplicate(alloc, shown_at(slots, row.key))?;
        tree.push((row.depth.saturating_sub(top), content))?;
    }
    Ok(tree)
}

/// The bytes of the names and texts of a tree.
pub fn size_of_tree(tree: &[Part]) -> u128
    requires few { length tree.now < 2 ^ 31 }
    ensures answer { result ≡ size_of_all tree.now }
    ensures small { size_of_all tree.now ≤ 2 ^ 66 * length tree.now }
{
    let mut size = 0;
    for part in tree {
        size += size_in(lent(&part.1));
    }
    size
}

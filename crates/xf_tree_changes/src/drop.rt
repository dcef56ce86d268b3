//! Trees and kept texts that are dropped.
ghost use Rattle.std.specs.Prelude.{◌≡◌, ◌-◌, ◌≤◌, ℕ, [], false, length, map, filter, take, drop, ◌↔◌, IsTrue};
ghost use Rattle.std.specs.List.{copy_within};
ghost use Rattle.slab.specs.Slab.{get};
ghost use Rattle.xf_def_forest.specs.Changes.{in_instances};
ghost use Rattle.xf_def_forest.specs.Limits.{node_count, all_size, size_of};
ghost use Rattle.xf_tree_rows.specs.Rows.{Sized, deeper};
ghost use Rattle.xf_tree_contents.specs.Keys.{kept_of, content_in, KeepsButKept};
ghost use Rattle.xf_tree_walks.specs.Nodes.{node_of, times, KeepsBut};
ghost use Rattle.xf_tree_changes.specs.Older.{is_older, is_newer, AreWhole};

use xf_tree_contents::{Slots, free_kept, free_node, is_root_at, number_of};
use xf_tree_rows::{Hints, RowSlice, Rows, slice};

/// Drops all kept texts.
pub fn drop_kept(slots: &mut Slots, kept: &mut Vec<usize>)
    ensures none { kept.new.items ≡ [] }
    ensures rest { KeepsButKept slots.old slots.new (map (kept_of slots.old) kept.old.items) }
    ensures less { (key : ℕ) → size_of (content_in (get slots.new key)) ≤ size_of (content_in (get slots.old key)) }
{
    free_kept(slots, kept);
    kept.clear();
}

/// Drops the trees from a place on whose tops have this number or a later one.
pub fn drop_newer(
    rows: &mut Rows,
    slots: &mut Slots,
    hints: &mut Hints,
    from: usize,
    number: u128,
    total: &mut usize,
    size: &mut u128,
)
    requires within { from ≤ length rows.old.items }
    requires sized { Sized rows.old.items }
    requires stops { deeper 0 (drop from rows.old.items) ≡ 0 }
    requires front { map (node_of slots.old) (take from rows.old.items) ≡ in_instances (map (node_of slots.old) rows.old.items) }
    requires whole { AreWhole number false (map (node_of slots.old) rows.old.items) }
    requires apart { (n : ℕ) → times n (map (node_of slots.old) rows.old.items) ≤ 1 }
    ensures stay { rows.new.items ≡ filter (is_older slots.old number) rows.old.items }
    ensures rest { KeepsBut slots.old slots.new (map (node_of slots.old) (filter (is_newer slots.old number) rows.old.items)) }
    ensures less { (key : ℕ) → size_of (content_in (get slots.new key)) ≤ size_of (content_in (get slots.old key)) }
    ensures total { total.new ≡ total.old - node_count (map (node_of slots.old) (filter (is_newer slots.old number) rows.old.items)) }
    ensures size { size.new ≡ size.old - all_size (map (node_of slots.old) (filter (is_newer slots.old number) rows.old.items)) }
    ensures room { rows.new.capacity ≡ rows.old.capacity }
{
    let end = move_older(rows, slots, hints, from, number, total, size);
    rows.truncate(end);
}

/// Moves the trees from a place on whose tops are older forward over the others, whose slots are emptied. The answer is
/// where the rows that stay end.
fn move_older(
    rows: &mut Rows,
    slots: &mut Slots,
    hints: &mut Hints,
    from: usize,
    number: u128,
    total: &mut usize,
    size: &mut u128,
) -> usize
    requires within { from ≤ length rows.old.items }
    requires sized { Sized rows.old.items }
    requires stops { deeper 0 (drop from rows.old.items) ≡ 0 }
    requires front { map (node_of slots.old) (take from rows.old.items) ≡ in_instances (map (node_of slots.old) rows.old.items) }
    requires whole { AreWhole number false (map (node_of slots.old) rows.old.items) }
    requires apart { (n : ℕ) → times n (map (node_of slots.old) rows.old.items) ≤ 1 }
    ensures stay { take result rows.new.items ≡ filter (is_older slots.old number) rows.old.items }
    ensures rest { KeepsBut slots.old slots.new (map (node_of slots.old) (filter (is_newer slots.old number) rows.old.items)) }
    ensures less { (key : ℕ) → size_of (content_in (get slots.new key)) ≤ size_of (content_in (get slots.old key)) }
    ensures total { total.new ≡ total.old - node_count (map (node_of slots.old) (filter (is_newer slots.old number) rows.old.items)) }
    ensures size { size.new ≡ size.old - all_size (map (node_of slots.old) (filter (is_newer slots.old number) rows.old.items)) }
    ensures within { result ≤ length rows.new.items }
    ensures room { rows.new.capacity ≡ rows.old.capacity }
{
    rows.is_bounded();
    let mut at = from;
    let mut to = from;
    while at < rows.len() {
        let end = at + rows.at(at).size;
        if number_of(slots, rows.at(at).key) < number {
            move_rows(rows, hints, at, end, to);
            to += end - at;
        } else {
            free_rows(slots, &slice(rows, at, end), total, size);
        }
        at = end;
    }
    to
}

/// Moves the rows from one place to before another forward, and notes where they stand then.
fn move_rows(rows: &mut Rows, hints: &mut Hints, at: usize, end: usize, to: usize)
    requires order { to ≤ at }
    requires first { at ≤ end }
    requires second { end ≤ length rows.old.items }
    ensures rows { rows.new.items ≡ copy_within rows.old.items at end to }
    ensures room { rows.new.capacity ≡ rows.old.capacity }
{
    if to < at {
        rows.copy_within(at, end, to);
        hints.note_rows(rows, to, to + (end - at));
    }
}

/// Whether each tree's nodes have either all this number or a later one, and are no roots, or all an earlier one: a node
/// that is no top is of one tree with the node before it.
pub fn are_whole(rows: &Rows, slots: &Slots, number: u128) -> bool
    ensures { IsTrue result ↔ AreWhole number false (map (node_of slots.now) rows.now.items) }
{
    let mut before = false;
    for at in 0..rows.len() {
        let row = rows.at(at);
        let is_new = number_of(slots, row.key) >= number;
        if row.depth > 0 && is_new != before {
            return false;
        }
        if is_new && is_root_at(slots, row.key) {
            return false;
        }
        before = is_new;
    }
    true
}

/// Empties the slots of these rows.
pub fn free_rows(slots: &mut Slots, rows: &RowSlice<'_>, total: &mut usize, size: &mut u128)
    requires { (n : ℕ) → times n (map (node_of slots.old) rows.now) ≤ 1 }
    ensures rest { KeepsBut slots.old slots.new (map (node_of slots.old) rows.now) }
    ensures less { (key : ℕ) → size_of (content_in (get slots.new key)) ≤ size_of (content_in (get slots.old key)) }
    ensures total { total.new ≡ total.old - node_count (map (node_of slots.old) rows.now) }
    ensures size { size.new ≡ size.old - all_size (map (node_of slots.old) rows.now) }
{
    for at in 0..rows.len() {
        free_node(slots, rows.at(at).key, total, size);
    }
}

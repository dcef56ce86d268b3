//! A root over a tree.
ghost use Rattle.std.specs.Prelude.{◌≡◌, ◌<◌, ◌^◌, length, slice_index_or};
ghost use Rattle.slab.specs.Slab.{HasRoomFor};
ghost use Rattle.xf_tree_rows.specs.Rows.{Sized, no_row, AreSteps, depths};
ghost use Rattle.xf_tree_changes.specs.Trees.{IsOver};

use crate::tree::push_node;
use xf_def_forest::Content;
use xf_tree_contents::Slots;
use xf_tree_rows::{Hints, Rows, lift_root, move_last, slice};
use xf_tree_walks::tops_end_in;

/// Puts a root over the top at a place, behind the instances. The answer is its key.
pub fn root_over(
    rows: &mut Rows,
    slots: &mut Slots,
    hints: &mut Hints,
    at: usize,
    number: u128,
) -> usize
    requires within { at < length rows.old.items }
    requires top { (slice_index_or rows.old.items at no_row).depth ≡ 0 }
    requires sized { Sized rows.old.items }
    requires steps { AreSteps 0 (depths rows.old.items) }
    requires few { length rows.old.items < 2 ^ 31 }
    requires slot { HasRoomFor slots.old 1 }
    requires row { length rows.old.items < rows.old.capacity }
    ensures answer { IsOver at number result slots.old slots.new rows.old.items rows.new.items }
    ensures room { rows.new.capacity ≡ rows.old.capacity }
{
    let size = rows.at(at).size;
    let top = rows.at(at).key;
    let from = move_last(rows, at);
    let place = tops_end_in(&slice(rows, 0, from), slots);
    let key = push_node(rows, slots, number, 0, size + 1, Content::Root);
    lift_root(rows, place, from);
    hints.reserve(key);
    hints.note_parent(top, key);
    hints.note_rows(rows, place, rows.len());
    key
}

//! The rows below an element that has no element children: its attributes, and the texts that are changed for others.
ghost use Rattle.std.specs.Prelude.{◌≡◌, ◌+◌, ◌-◌, ◌<◌, ◌≤◌, ◌^◌, ◌++◌, length, map, take, drop, reverse};
ghost use Rattle.std.specs.List.{All};
ghost use Rattle.xf_tree_rows.specs.Rows.{Sized};
ghost use Rattle.xf_tree_changes.specs.Trees.{unsized};
ghost use Rattle.xf_tree_changes.specs.Texts.{attributes, children, text_row, settled, AreAt, depth_at, run_of, with_text_rows};

use xf_def_forest::NodeId;
use xf_tree_contents::{Slots, is_attribute_at};
use xf_tree_rows::{Hints, Row, RowSlice, Rows, end_of, grow, shrink, slice};

/// Puts these texts in place of those of the element at a place. No other row moves but those between here and where texts were changed last.
pub fn change_texts(rows: &mut Rows, slots: &Slots, hints: &mut Hints, at: usize, texts: &[NodeId])
    requires within { at < length rows.old.items }
    requires sized { Sized rows.old.items }
    requires deep { depth_at at rows.old.items + 1 < 2 ^ 32 }
    requires flat { AreAt (depth_at at rows.old.items + 1) (run_of at rows.old.items) }
    requires few { length rows.old.items + length texts.now < 2 ^ 32 }
    requires room { length rows.old.items + length texts.now ≤ rows.old.capacity }
    ensures rows { map unsized rows.new.items ≡ map unsized (with_text_rows slots.now at texts.now rows.old.items) }
    ensures sized { Sized rows.new.items }
    ensures room { rows.new.capacity ≡ rows.old.capacity }
{
    let depth = rows.at(at).depth + 1;
    let end = end_of(rows, at);
    // First, while all sizes are right: so the ancestors are found by the hints.
    let had = text_rows(&slice(rows, at + 1, end), slots);
    settle(rows, hints, at + 1, depth, had, texts.len());
    let from = pack(rows, slots, at + 1, end);
    let behind = from + texts.len();
    rows.open(from, end);
    fill(rows, texts, depth);
    note_run(hints, rows, at, behind);
    note_behind(hints, rows, behind, end);
}

/// How many of these rows are of no attribute.
fn text_rows(rows: &RowSlice<'_>, slots: &Slots) -> usize
    requires { length rows.now < 2 ^ 32 }
    ensures { result ≡ length (children slots.now rows.now) }
{
    let mut count = 0;
    for at in 0..rows.len() {
        if !is_attribute_at(slots, rows.at(at).key) {
            count += 1;
        }
    }
    count
}

/// Moves the rows of attributes from one place to before another to the front of these. The answer is where they end.
fn pack(rows: &mut Rows, slots: &Slots, from: usize, end: usize) -> usize
    requires first { from ≤ end }
    requires second { end ≤ length rows.old.items }
    ensures order { from ≤ result }
    ensures within { result ≤ end }
    ensures front { take result rows.new.items ≡ take from rows.old.items ++ attributes slots.now (take (end - from) (drop from rows.old.items)) }
    ensures rest { drop end rows.new.items ≡ drop end rows.old.items }
    ensures same { length rows.new.items ≡ length rows.old.items }
    ensures room { rows.new.capacity ≡ rows.old.capacity }
{
    let mut to = from;
    for at in from..end {
        let row = rows.at(at);
        if !is_attribute_at(slots, row.key) {
            continue;
        }
        rows.put(to, row);
        to += 1;
    }
    to
}

/// Puts the rows of these texts where the room is.
fn fill(rows: &mut Rows, texts: &[NodeId], depth: u32)
    requires { length rows.old.items + length texts.now ≤ rows.old.capacity }
    ensures answer { rows.new.items ≡ take rows.old.room_at rows.old.items ++ (map (text_row depth) texts.now ++ drop rows.old.room_at rows.old.items) }
    ensures room { rows.new.capacity ≡ rows.old.capacity }
{
    for text in texts {
        rows.insert(Row {
            key: text.place,
            size: 1,
            depth,
        });
    }
}

/// Adds to the sizes of the rows that are open at a place, or takes from them, where there are now so many rows of this
/// depth instead of as many as there were.
fn settle(rows: &mut Rows, hints: &Hints, at: usize, depth: u32, had: usize, now: usize)
    requires within { at ≤ length rows.old.items }
    requires sized { Sized rows.old.items }
    requires room { All (λ r. r.size + now < 2 ^ 64) (take at rows.old.items) }
    ensures answer { rows.new.items ≡ settled had now depth (reverse (take at rows.old.items)) (drop at rows.old.items) }
    ensures room { rows.new.capacity ≡ rows.old.capacity }
{
    if had < now {
        grow(rows, hints, at, depth, now - had);
        return;
    }
    if now < had {
        shrink(rows, hints, at, depth, had - now);
        return;
    }
}

/// Notes where the rows below an element stand, and whose they are. What is noted is only a hint.
fn note_run(hints: &mut Hints, rows: &Rows, at: usize, end: usize) {
    if end <= rows.len() && at < end {
        let parent = rows.at(at).key;
        for row in at + 1..end {
            let key = rows.at(row).key;
            hints.note(key, row);
            hints.note_parent(key, parent);
        }
    }
}

/// Notes where the rows behind a run stand that ended at another place before. What is noted is only a hint.
fn note_behind(hints: &mut Hints, rows: &Rows, behind: usize, had: usize) {
    if behind != had {
        hints.shift(rows, behind, had);
    }
}

//! A text that comes in place of the texts of an element, on the parts of a forest.
ghost use Rattle.std.specs.Prelude.{◌≡◌, ◌+◌, ◌-◌, ◌≤◌, ◌<◌, ◌^◌, ℕ, [], length, map, drop, vec_len, vec_capacity, IfOk, OnOk, OnErr};
ghost use Rattle.slab.specs.Slab.{get, HasRoomFor};
ghost use Rattle.xf_def_forest.specs.Limits.{all_size, node_count, size_of};
ghost use Rattle.xf_def_forest.specs.Forest.{is_attribute};
ghost use Rattle.xf_tree_contents.specs.Keys.{content_in};
ghost use Rattle.xf_tree_changes.specs.Trees.{unsized};
ghost use Rattle.xf_tree_rows.specs.Rows.{Sized, tree_of};
ghost use Rattle.xf_tree_walks.specs.Nodes.{AllLive, KeepsBut, node_of, times};
ghost use Rattle.xf_tree_changes.specs.Texts.{text_count, children, run_of, depth_at, AreAt, numbers_in, text_row, with_text_rows};
ghost use Rattle.xf_tree.specs.Swapped.{IsSwapped};

use std::alloc::{AllocError, Global};
use xf_def_forest::NodeId;
use xf_name::Word;
use xf_tree_changes::{
    add_text, change_texts, free_texts, keep_texts, make_room, size_of_texts, text_count, texts_in,
};
use xf_tree_contents::Slots;
use xf_tree_rows::{Hints, Rows, end_of, slice};

/// The texts of an element and what another text makes of the counts.
#[derive(Clone, Copy)]
pub(crate) struct Sums {
    // Where the element stands, and where its tree ends.
    pub(crate) at: usize,
    pub(crate) end: usize,
    // How many texts it has, and how many come in their place.
    pub(crate) taken: usize,
    pub(crate) more: usize,
    // How many nodes there are then, and their bytes.
    pub(crate) count: usize,
    pub(crate) bytes: u128,
}

/// What another text of the element at a place makes of these counts.
pub(crate) fn sums_of(
    rows: &Rows,
    slots: &Slots,
    at: usize,
    text: &str,
    count: usize,
    bytes: u128,
) -> Sums
    requires within { at < length rows.now.items }
    requires sized { Sized rows.now.items }
    requires few { length rows.now.items < 2 ^ 31 }
    requires counted { count ≤ 2 ^ 31 }
    requires small { bytes ≤ 2 ^ 100 }
    ensures at { result.at ≡ at }
    ensures end { result.end ≡ result.at + length (tree_of (drop result.at rows.now.items)) }
    ensures taken { result.taken ≡ length (children slots.now (run_of result.at rows.now.items)) }
    ensures more { result.more ≡ text_count text.now }
    ensures count { result.count ≡ count - length (children slots.now (run_of result.at rows.now.items)) + text_count text.now }
    ensures bytes { result.bytes ≡ bytes - all_size (map (node_of slots.now) (children slots.now (run_of result.at rows.now.items))) + length text.now }
{
    let end = end_of(rows, at);
    let (taken, gone) = texts_in(&slice(rows, at + 1, end), slots);
    let more = text_count(text);
    let nodes = count.saturating_sub(taken).saturating_add(more);
    let rest = bytes.saturating_sub(gone);
    let size = rest.saturating_add(text.len() as u128);
    Sums {
        at,
        end,
        taken,
        more,
        count: nodes,
        bytes: size,
    }
}

/// All that may fail: the text itself, a list for so many texts, and room for them among the kept ones, for one slot more and
/// for the rows of all.
fn make_ready(
    alloc: Global,
    rows: &mut Rows,
    slots: &mut Slots,
    kept: &mut Vec<usize>,
    text: &str,
    taken: usize,
) -> Result<(Word, Vec<NodeId>), AllocError>
    requires { length rows.old.items + vec_len kept.old < 2 ^ 63 }
    ensures rows { rows.new.items ≡ rows.old.items }
    ensures kept { kept.new.items ≡ kept.old.items }
    ensures same { (key : ℕ) → get slots.new key ≡ get slots.old key }
    ensures spare { rows.old.capacity ≤ rows.new.capacity }
    ensures slot { OnOk result (HasRoomFor slots.new 1) }
    ensures row { OnOk result (length rows.old.items + (vec_len kept.old + 1) ≤ rows.new.capacity) }
    ensures more { OnOk result (vec_len kept.old + taken ≤ vec_capacity kept.new) }
    ensures few { OnOk result (length rows.old.items + vec_len kept.old + 1 < 2 ^ 31) }
    ensures word { IfOk result (λ ready. ready.0 ≡ text.now) }
    ensures had { IfOk result (λ ready. ready.1.items ≡ []) }
    ensures long { IfOk result (λ ready. vec_len ready.1 + taken ≤ vec_capacity ready.1) }
{
    make_room(rows, slots, kept, taken)?;
    let word = Word::from_str(alloc, text)?;
    let had = Vec::with_capacity(alloc, taken)?;
    Ok((word, had))
}

/// Puts a text with a number in place of the texts of an element. They are kept, and told. The counts stay the caller's to
/// change. An `Err` leaves the nodes and the kept texts as they were.
pub(crate) fn swap_texts(
    alloc: Global,
    rows: &mut Rows,
    slots: &mut Slots,
    hints: &mut Hints,
    kept: &mut Vec<usize>,
    owner: u128,
    number: u128,
    text: &str,
    sums: Sums,
) -> Result<Vec<NodeId>, AllocError>
    requires within { sums.at < length rows.old.items }
    requires sized { Sized rows.old.items }
    requires deep { depth_at sums.at rows.old.items + 1 < 2 ^ 32 }
    requires flat { AreAt (depth_at sums.at rows.old.items + 1) (run_of sums.at rows.old.items) }
    requires few { length rows.old.items + vec_len kept.old < 2 ^ 31 }
    requires live { AllLive slots.old (run_of sums.at rows.old.items) }
    requires end { sums.end ≡ sums.at + length (tree_of (drop sums.at rows.old.items)) }
    requires taken { sums.taken ≡ length (children slots.old (run_of sums.at rows.old.items)) }
    requires more { sums.more ≡ text_count text.now }
    ensures ok { IfOk result (λ had. IsSwapped slots.old slots.new rows.old.items rows.new.items kept.old.items kept.new.items (numbers_in had.items) owner sums.at number text.now rows.new.capacity) }
    ensures same { OnErr result ((key : ℕ) → get slots.new key ≡ get slots.old key) }
    ensures rows { OnErr result (rows.new.items ≡ rows.old.items) }
    ensures kept { OnErr result (kept.new.items ≡ kept.old.items) }
    ensures spare { rows.old.capacity ≤ rows.new.capacity }
{
    let (word, mut had) = make_ready(alloc, rows, slots, kept, text, sums.taken)?;
    let place = add_text(slots, number, word);
    keep_texts(
        &slice(rows, sums.at + 1, sums.end),
        slots,
        kept,
        &mut had,
        owner,
    );
    hints.reserve(place);
    let texts = [NodeId { number, place }];
    change_texts(rows, slots, hints, sums.at, &texts[..sums.more]);
    Ok(had)
}

/// Puts texts whose slots are kept in place of the texts of an element, which go. Takes no memory.
pub(crate) fn swap_back(
    rows: &mut Rows,
    slots: &mut Slots,
    hints: &mut Hints,
    at: usize,
    wanted: &[NodeId],
    count: &mut usize,
    bytes: &mut u128,
)
    requires within { at < length rows.old.items }
    requires sized { Sized rows.old.items }
    requires deep { depth_at at rows.old.items + 1 < 2 ^ 32 }
    requires flat { AreAt (depth_at at rows.old.items + 1) (run_of at rows.old.items) }
    requires few { length rows.old.items + length wanted.now < 2 ^ 31 }
    requires room { length rows.old.items + length wanted.now ≤ rows.old.capacity }
    requires apart { (n : ℕ) → times n (map (node_of slots.old) rows.old.items) ≤ 1 }
    requires counted { count.old ≤ 2 ^ 31 }
    requires small { bytes.old ≤ 2 ^ 100 }
    ensures rest { KeepsBut slots.old slots.new (map (node_of slots.old) (children slots.old (run_of at rows.old.items))) }
    ensures kinds { (key : ℕ) → is_attribute (content_in (get slots.new key)) ≡ is_attribute (content_in (get slots.old key)) }
    ensures less { (key : ℕ) → size_of (content_in (get slots.new key)) ≤ size_of (content_in (get slots.old key)) }
    ensures rows { map unsized rows.new.items ≡ map unsized (with_text_rows slots.new at wanted.now rows.old.items) }
    ensures sized { Sized rows.new.items }
    ensures room { rows.new.capacity ≡ rows.old.capacity }
    ensures count { count.new ≡ count.old + length wanted.now - node_count (map (node_of slots.old) (children slots.old (run_of at rows.old.items))) }
    ensures bytes { bytes.new ≡ bytes.old + all_size (map (node_of slots.old) (map (text_row (depth_at at rows.old.items + 1)) wanted.now)) - all_size (map (node_of slots.old) (children slots.old (run_of at rows.old.items))) }
{
    let end = end_of(rows, at);
    *count += wanted.len();
    *bytes += size_of_texts(wanted, slots);
    free_texts(slots, &slice(rows, at + 1, end), count, bytes);
    change_texts(rows, slots, hints, at, wanted);
}

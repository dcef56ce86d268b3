//! The slots of texts that are set, kept beside the forest and put back.
ghost use Rattle.std.specs.Prelude.{◌≡◌, ◌+◌, ◌≤◌, ◌<◌, ◌^◌, ◌++◌, ◌*◌, ◌-◌, ℕ, true, false, None, length, map, take, drop, filter, option_map, slice_index_or, vec_len, vec_capacity, OnOk, IfSome, MatchOption};
ghost use Rattle.slab.specs.Slab.{get, Updates, HasRoomFor};
ghost use Rattle.xf_def_forest.specs.Forest.{is_attribute, own_text};
ghost use Rattle.xf_def_forest.specs.Visit.{has};
ghost use Rattle.xf_def_forest.specs.Limits.{node_count, all_size, size_of};
ghost use Rattle.xf_tree_contents.specs.Keys.{content_in, kept_of, kept_times, KeepsButKept};
ghost use Rattle.xf_tree_contents.specs.Slots.{valued_slot};
ghost use Rattle.xf_tree_walks.specs.Nodes.{node_of, times, KeepsBut};
ghost use Rattle.xf_tree_changes.specs.Texts.{passed_by, text_slot, text_count, IsOwned, children, keys_of, numbers_at, numbers_in, text_row, places_of, is_wanted, is_left, no_text, moved_text};

use std::alloc::AllocError;
use xf_base::limits::{ALL_LIMIT, NODE_LIMIT, TEXT_LIMIT};
use xf_def_forest::{Content, NodeId, TreeFault};
use xf_name::Word;
use xf_tree_contents::{ROW_LIMIT, Slots, free_node, is_attribute_at, number_of, size_at};
use xf_tree_rows::{RowSlice, Rows};

/// The limit that is passed by so many nodes, a text of so many bytes, and so many bytes together.
pub fn passed(count: usize, text: usize, bytes: u128) -> Option<TreeFault>
    ensures { result ≡ passed_by count text bytes }
{
    if count > NODE_LIMIT {
        return Some(TreeFault::Nodes);
    }
    if text > TEXT_LIMIT {
        return Some(TreeFault::NodeText);
    }
    if bytes > ALL_LIMIT {
        return Some(TreeFault::AllText);
    }
    None
}

/// How many nodes a text makes: none where it is empty.
pub fn text_count(text: &str) -> usize
    ensures { result ≡ text_count text.now }
{
    if text.is_empty() {
        return 0;
    }
    1
}

/// Gives an attribute another text, and counts its bytes anew. The answer is the text that it had.
pub fn change_value(slots: &mut Slots, key: usize, text: Word, bytes: &mut u128) -> Word
    requires { bytes.old < 2 ^ 127 }
    ensures slot { Updates slots.old slots.new key (option_map (valued_slot text) (get slots.old key)) }
    ensures answer { is_attribute (content_in (get slots.old key)) ≡ true → result ≡ own_text (content_in (get slots.old key)) }
    ensures bytes { bytes.new ≡ bytes.old - size_of (content_in (get slots.old key)) + size_of (content_in (get slots.new key)) }
    ensures small { size_of (content_in (get slots.new key)) ≤ 2 ^ 66 }
{
    let had = size_at(slots, key);
    let before = slots.replace_value(key, text);
    *bytes = bytes.saturating_sub(had) + size_at(slots, key);
    before
}

/// Puts a text into the slab, or nothing where it is empty. The answer is its key.
pub fn add_text(slots: &mut Slots, number: u128, text: Word) -> usize
    requires { HasRoomFor slots.old 1 }
    ensures vacant { get slots.old result ≡ None }
    ensures slot { Updates slots.old slots.new result (text_slot number text) }
{
    if text.is_empty() {
        return slots.vacant_key();
    }
    slots.insert(number, Content::Text(text))
}

/// How many of these rows are of no attribute, and their bytes.
pub fn texts_in(rows: &RowSlice<'_>, slots: &Slots) -> (usize, u128)
    requires { length rows.now < 2 ^ 31 }
    ensures count { result.0 ≡ length (children slots.now rows.now) }
    ensures size { result.1 ≡ all_size (map (node_of slots.now) (children slots.now rows.now)) }
{
    let mut count = 0;
    let mut size = 0;
    for at in 0..rows.len() {
        let row = rows.at(at);
        if is_attribute_at(slots, row.key) {
            continue;
        }
        count += 1;
        size += size_at(slots, row.key);
    }
    (count, size)
}

/// The bytes of these texts.
pub fn size_of_texts(texts: &[NodeId], slots: &Slots) -> u128
    requires { length texts.now < 2 ^ 31 }
    ensures answer { (depth : ℕ) → result ≡ all_size (map (node_of slots.now) (map (text_row depth) texts.now)) }
    ensures small { result ≤ 2 ^ 66 * length texts.now }
{
    let mut size = 0;
    for text in texts {
        size += size_at(slots, text.place);
    }
    size
}

/// Puts those of these rows that are of no attribute behind the kept ones, as texts of an owner, and behind these nodes.
pub fn keep_texts(
    rows: &RowSlice<'_>,
    slots: &mut Slots,
    kept: &mut Vec<usize>,
    had: &mut Vec<NodeId>,
    owner: u128,
)
    requires kept { vec_len kept.old + length (children slots.old rows.now) ≤ vec_capacity kept.old }
    requires had { vec_len had.old + length (children slots.old rows.now) ≤ vec_capacity had.old }
    ensures kept { kept.new.items ≡ kept.old.items ++ keys_of (children slots.old rows.now) }
    ensures had { numbers_in had.new.items ≡ numbers_in had.old.items ++ numbers_at slots.old (children slots.old rows.now) }
    ensures slots { IsOwned owner (keys_of (children slots.old rows.now)) slots.old slots.new }
{
    for at in 0..rows.len() {
        let row = rows.at(at);
        if is_attribute_at(slots, row.key) {
            continue;
        }
        had.push_reserved(NodeId {
            number: number_of(slots, row.key),
            place: row.key,
        });
        slots.set_owner(row.key, owner);
        kept.push_reserved(row.key);
    }
}

/// Takes the texts with these numbers out of the kept ones. They stand at the end of the list then, from the place that is
/// answered, as they stood among the kept ones. It looks from the end, and no further than it must.
pub fn take_kept(kept: &mut Vec<usize>, slots: &Slots, texts: &mut Vec<NodeId>) -> usize
    requires { (n : ℕ) → kept_times n (map (kept_of slots.now) kept.old.items) ≤ 1 }
    ensures within { result ≤ length texts.new.items }
    ensures taken { places_of (drop result texts.new.items) ≡ filter (is_wanted slots.now (numbers_in texts.old.items)) kept.old.items }
    ensures left { kept.new.items ≡ filter (is_left slots.now (numbers_in texts.old.items)) kept.old.items }
{
    let mut left = texts.len();
    let mut at = kept.len();
    let mut to = at;
    while at > 0 && left > 0 {
        at -= 1;
        let key = kept[at];
        match place_among(texts, left, number_of(slots, key)) {
            Some(place) => {
                left -= 1;
                move_text(texts, place, left, key);
            }
            None => {
                to -= 1;
                kept[to] = key;
            }
        }
    }
    cut_out(kept, at, to);
    left
}

/// Drops the keys from one place to before another.
fn cut_out(kept: &mut Vec<usize>, from: usize, to: usize)
    requires first { from ≤ to }
    requires second { to ≤ length kept.old.items }
    ensures { kept.new.items ≡ take from kept.old.items ++ drop to kept.old.items }
{
    kept.drain(from..to);
}

/// The place of a number among the first texts, looked for from the end.
fn place_among(texts: &[NodeId], count: usize, number: u128) -> Option<usize>
    requires { count ≤ length texts.now }
    ensures within { IfSome result (λ at. at < count) }
    ensures answer { MatchOption result (has number (numbers_in (take count texts.now)) ≡ false) (λ at. (slice_index_or texts.now at no_text).number ≡ number) }
{
    let mut left = count;
    while left > 0 {
        left -= 1;
        if texts[left].number == number {
            return Some(left);
        }
    }
    None
}

/// Moves the text from one place to another, whose text comes in its place, and notes its key.
fn move_text(texts: &mut Vec<NodeId>, from: usize, to: usize, key: usize)
    requires first { from ≤ to }
    requires second { to < length texts.old.items }
    ensures { texts.new.items ≡ moved_text from to key texts.old.items }
{
    let number = texts[from].number;
    texts[from] = texts[to];
    texts[to] = NodeId { number, place: key };
}

/// Empties the slots of those of these rows that are of no attribute.
pub fn free_texts(slots: &mut Slots, rows: &RowSlice<'_>, total: &mut usize, size: &mut u128)
    requires { (n : ℕ) → times n (map (node_of slots.old) rows.now) ≤ 1 }
    ensures rest { KeepsBut slots.old slots.new (map (node_of slots.old) (children slots.old rows.now)) }
    ensures kinds { (key : ℕ) → is_attribute (content_in (get slots.new key)) ≡ is_attribute (content_in (get slots.old key)) }
    ensures less { (key : ℕ) → size_of (content_in (get slots.new key)) ≤ size_of (content_in (get slots.old key)) }
    ensures total { total.new ≡ total.old - node_count (map (node_of slots.old) (children slots.old rows.now)) }
    ensures size { size.new ≡ size.old - all_size (map (node_of slots.old) (children slots.old rows.now)) }
{
    for at in 0..rows.len() {
        let row = rows.at(at);
        if is_attribute_at(slots, row.key) {
            continue;
        }
        free_node(slots, row.key, total, size);
    }
}

/// Empties the slots of these texts, which are kept no more.
pub fn free_all(slots: &mut Slots, texts: &[NodeId])
    ensures rest { KeepsButKept slots.old slots.new (map (kept_of slots.old) (places_of texts.now)) }
    ensures less { (key : ℕ) → size_of (content_in (get slots.new key)) ≤ size_of (content_in (get slots.old key)) }
{
    for text in texts {
        let mut total = 0;
        let mut size = 0;
        free_node(slots, text.place, &mut total, &mut size);
    }
}

/// Makes room for one text more in the slab, so many kept ones, and rows for all of them.
pub fn make_room(
    rows: &mut Rows,
    slots: &mut Slots,
    kept: &mut Vec<usize>,
    taken: usize,
) -> Result<(), AllocError>
    requires { length rows.old.items + vec_len kept.old < 2 ^ 63 }
    ensures rows { rows.new.items ≡ rows.old.items }
    ensures kept { kept.new.items ≡ kept.old.items }
    ensures same { (key : ℕ) → get slots.new key ≡ get slots.old key }
    ensures spare { rows.old.capacity ≤ rows.new.capacity }
    ensures slot { OnOk result (HasRoomFor slots.new 1) }
    ensures row { OnOk result (length rows.old.items + (vec_len kept.old + 1) ≤ rows.new.capacity) }
    ensures more { OnOk result (vec_len kept.old + taken ≤ vec_capacity kept.new) }
    ensures few { OnOk result (length rows.old.items + vec_len kept.old + 1 < 2 ^ 31) }
{
    if rows.len() + kept.len() >= ROW_LIMIT - 1 {
        return Err(AllocError);
    }
    slots.reserve(1)?;
    rows.reserve(kept.len() + 1)?;
    kept.reserve(taken)
}

//! The texts that make a string value up, one by one.
ghost use Rattle.std.specs.Prelude.{◌≡◌, ◌<◌, ◌≤◌, [], length, drop, true, option_map, slice_index_or, map};
ghost use Rattle.std.specs.Iterator.{YieldsFirstBy, item_count};
ghost use Rattle.slab.specs.Slab.{get};
ghost use Rattle.xf_def_forest.specs.StringValue.{characters, has_character, whole};
ghost use Rattle.xf_def_forest.specs.Shape.{as_texts};
ghost use Rattle.xf_def_forest.specs.Texts.{texts_in};
ghost use Rattle.xf_def_forest.specs.Settle.{are_texts};
ghost use Rattle.xf_tree_rows.specs.Rows.{Sized, no_row};
ghost use Rattle.xf_tree_contents.specs.Keys.{content_in};
ghost use Rattle.xf_tree_walks.specs.Reads.{pieces_left, pieces_at};
ghost use Rattle.xf_tree_walks.specs.Nodes.{node_of};

use std::marker::Model;
use xf_tree_contents::{Slots, below, is_text_at, own};
use xf_tree_rows::{RowSlice, Rows, end_of, slice};

/// The texts that make a string value up, the first one first. Contracts see it as the list of those that are left.
#[derive(Drop)]
pub struct Pieces<'a> {
    pub(crate) slots: &'a Slots,
    pub(crate) first: &'a str,
    pub(crate) rows: RowSlice<'a>,
}

impl<'a> Model for Pieces<'a> {
    ghost use Rattle.std.specs.Prelude.{ℕ, List};

    ghost Value = { List (List ℕ) };

    ghost use Rattle.xf_tree_walks.specs.Reads.{pieces_left};

    ghost view = { λ p. pieces_left p.slots.now p.first.now p.rows };
}

impl<'a> Iterator for Pieces<'a> {
    type Item = &'a str;

    ghost next_gives = { YieldsFirstBy (λ text. text.now) (λ p. p) };

    ghost remaining = { item_count (λ p. p) };

    fn next(&mut self) -> Option<&'a str> {
        let first = self.first;
        self.first = "";
        if !first.is_empty() {
            return Some(first);
        }
        let at = next_text(&self.rows, self.slots);
        if at >= self.rows.len() {
            self.rows.skip(at);
            return None;
        }
        let text = below(self.slots, self.rows.at(at).key);
        self.rows.skip(at + 1);
        Some(text)
    }
}

/// No texts.
pub fn no_pieces<'a>(rows: &'a Rows, slots: &'a Slots) -> Pieces<'a>
    ensures { result ≡ [] }
{
    Pieces {
        slots,
        first: "",
        rows: slice(rows, 0, 0),
    }
}

/// The texts of the node whose row stands at a place.
pub fn pieces_at<'a>(rows: &'a Rows, slots: &'a Slots, at: usize) -> Pieces<'a>
    requires within { at < length rows.now.items }
    requires sized { Sized rows.now.items }
    ensures { result ≡ pieces_at slots.now rows.now.items at }
{
    rows.is_bounded();
    Pieces {
        slots,
        first: own(slots, rows.at(at).key),
        rows: slice(rows, at + 1, end_of(rows, at)),
    }
}

/// The string value of the node whose row stands at a place, where it is one text of the forest, or empty. A leaf's one text is told at a look.
#[inline(always)]
pub fn whole_at<'a>(rows: &'a Rows, slots: &'a Slots, at: usize) -> Option<&'a str>
    requires within { at < length rows.now.items }
    requires sized { Sized rows.now.items }
    ensures { option_map (λ text. text.now) result ≡ whole (pieces_at slots.now rows.now.items at) }
{
    rows.is_bounded();
    if end_of(rows, at) - at == 2 && own(slots, rows.at(at).key).is_empty() {
        return Some(below(slots, rows.at(at + 1).key));
    }
    one_of(pieces_at(rows, slots, at))
}

/// The one text that is left, or an empty one where there is none.
fn one_of<'a>(pieces: Pieces<'a>) -> Option<&'a str>
    ensures { option_map (λ text. text.now) result ≡ whole pieces.entry }
{
    let mut left = pieces;
    let Some(piece) = left.next() else {
        return Some("");
    };
    match left.next() {
        Some(_) => None,
        None => Some(piece),
    }
}

/// The place of the first of these rows that has characters, or how many rows there are.
fn next_text(rows: &RowSlice<'_>, slots: &Slots) -> usize
    ensures left { pieces_left slots.now [] (drop result rows.now) ≡ pieces_left slots.now [] rows.now }
    ensures found { result < length rows.now → has_character (characters (content_in (get slots.now (slice_index_or rows.now result no_row).key))) ≡ true }
    ensures within { result ≤ length rows.now }
{
    let mut at = 0;
    while at < rows.len() && below(slots, rows.at(at).key).is_empty() {
        at += 1;
    }
    at
}

/// Whether the texts among these rows are this one alone, or none where it is empty.
pub fn are_texts(rows: &RowSlice<'_>, slots: &Slots, text: &str) -> bool
    ensures { result ≡ are_texts (as_texts text.now) (texts_in (map (node_of slots.now) rows.now)) }
{
    let mut found = text.is_empty();
    for at in 0..rows.len() {
        let row = rows.at(at);
        if is_text_at(slots, row.key) {
            if found || own(slots, row.key) != text {
                return false;
            }
            found = true;
        }
    }
    found
}

//! String values.
ghost use Rattle.std.specs.Prelude.{◌≡◌, ◌++◌, ◌<◌, length, nat_lt, not, true, IfOk, string_bytes};
ghost use Rattle.xf_def_forest.specs.StringValue.{within};
ghost use Rattle.xf_tree_rows.specs.Rows.{Sized};
ghost use Rattle.xf_tree_walks.specs.Nodes.{texts_in, text_of};

use std::alloc::{AllocError, Global};
use xf_name::Word;
use xf_tree_contents::{Slots, below, own};
use xf_tree_rows::{RowSlice, Rows, end_of, slice};

/// The string value of the node whose row stands at a place, where it has no more bytes than that.
pub fn text_at(
    alloc: Global,
    rows: &Rows,
    slots: &Slots,
    at: usize,
    most: usize,
) -> Result<Option<Word>, AllocError>
    requires within { at < length rows.now.items }
    requires sized { Sized rows.now.items }
    ensures { IfOk result (λ text. text ≡ within most (text_of slots.now rows.now.items at)) }
{
    rows.is_bounded();
    let first = own(slots, rows.at(at).key);
    if first.len() > most {
        return Ok(None);
    }
    let left = most - first.len();
    let mut text = String::new(alloc);
    text.push_str(first)?;
    if push_texts(
        &slice(rows, at + 1, end_of(rows, at)),
        slots,
        left,
        &mut text,
    )? {
        Ok(Some(Word::from_string(text)))
    } else {
        Ok(None)
    }
}

/// Appends the texts of these rows, one after another, and tells whether they have no more bytes than that together.
fn push_texts(
    rows: &RowSlice<'_>,
    slots: &Slots,
    most: usize,
    text: &mut String,
) -> Result<bool, AllocError>
    ensures fits { IfOk result (λ fits. fits ≡ not (nat_lt most (length (texts_in slots.now rows.now)))) }
    ensures added { IfOk result (λ fits. fits ≡ true → string_bytes text.new ≡ string_bytes text.old ++ texts_in slots.now rows.now) }
{
    let mut left = most;
    for at in 0..rows.len() {
        let piece = below(slots, rows.at(at).key);
        if piece.len() > left {
            return Ok(false);
        }
        left -= piece.len();
        text.push_str(piece)?;
    }
    Ok(true)
}

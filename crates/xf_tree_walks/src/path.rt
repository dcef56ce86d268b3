//! Paths as they are printed.
ghost use Rattle.std.specs.Prelude.{◌≡◌, ◌<◌, ◌++◌, ◌∷◌, codes, length, map, reverse, slice_index_or, string_bytes, IfOk, OnOk};
ghost use Rattle.std.specs.List.{flat_map};
ghost use Rattle.xf_def_forest.specs.Forest.{written};
ghost use Rattle.xf_def_forest.specs.Path.{bracketed, path_of, step_of};
ghost use Rattle.xf_def_forest.specs.Visit.{visits};
ghost use Rattle.xf_tree_rows.specs.Rows.{Sized, parent_row_of, no_row};
ghost use Rattle.xf_tree_contents.specs.Seen.{seen_content};
ghost use Rattle.xf_tree_walks.specs.Siblings.{index_text, index_among, like_before, like_after, rows_up, AllPlaces};
ghost use Rattle.xf_tree_walks.specs.Nodes.{node_of};
ghost use Rattle.xf_tree_walks.specs.Walks.{AreNodes, number_of_row};

use crate::siblings::{count_like, has_like};
use itoa::Buffer;
use std::alloc::{AllocError, Global};
use xf_def_forest::Name;
use xf_name::Word;
use xf_tree_contents::{Seen, Slots, shown_at};
use xf_tree_rows::{Hints, Rows, end_of, parent_row};

pub fn path_at(
    alloc: Global,
    rows: &Rows,
    slots: &Slots,
    hints: &Hints,
    at: usize,
) -> Result<Word, AllocError>
    requires nodes { AreNodes slots.now rows.now.items }
    requires within { at < length rows.now.items }
    ensures { IfOk result (λ text. text ≡ path_of (number_of_row slots.now rows.now.items at) (visits (map (node_of slots.now) rows.now.items))) }
{
    let places = places_up(alloc, rows, hints, at)?;
    let mut text = String::new(alloc);
    push_steps(&mut text, rows, slots, hints, places)?;
    if text.is_empty() {
        text.push('/')?;
    }
    Ok(Word::from_string(text))
}

/// The places of a row and of those above it, the nearest first.
fn places_up(alloc: Global, rows: &Rows, hints: &Hints, at: usize) -> Result<Vec<usize>, AllocError>
    requires sized { Sized rows.now.items }
    requires within { at < length rows.now.items }
    ensures rows { IfOk result (λ places. map (λ p. slice_index_or rows.now.items p no_row) places.items ≡ rows_up rows.now.items (Some at)) }
    ensures within { IfOk result (λ places. AllPlaces rows.now.items places.items) }
{
    let mut places = Vec::new(alloc);
    let mut next = Some(at);
    while let Some(place) = next {
        places.push(place)?;
        next = parent_row(rows, hints, place);
    }
    Ok(places)
}

/// Appends what the path has for the nodes at these places, from the last one on.
fn push_steps(
    text: &mut String,
    rows: &Rows,
    slots: &Slots,
    hints: &Hints,
    places: Vec<usize>,
) -> Result<(), AllocError>
    requires nodes { AreNodes slots.now rows.now.items }
    requires within { AllPlaces rows.now.items places.items }
    ensures { OnOk result (string_bytes text.new ≡ string_bytes text.old ++ flat_map (step_of (visits (map (node_of slots.now) rows.now.items))) (reverse (map (number_of_row slots.now rows.now.items) places.items))) }
{
    let mut left = places;
    while let Some(place) = left.pop() {
        push_step(text, rows, slots, hints, place)?;
    }
    Ok(())
}

/// Appends what the path has for one node.
fn push_step(
    text: &mut String,
    rows: &Rows,
    slots: &Slots,
    hints: &Hints,
    at: usize,
) -> Result<(), AllocError>
    requires nodes { AreNodes slots.now rows.now.items }
    requires within { at < length rows.now.items }
    ensures { OnOk result (string_bytes text.new ≡ string_bytes text.old ++ step_of (visits (map (node_of slots.now) rows.now.items)) (number_of_row slots.now rows.now.items at)) }
{
    let content = shown_at(slots, rows.at(at).key);
    match content {
        Seen::Root => Ok(()),
        Seen::Element(name) => {
            let index = index_of(rows, slots, hints, at, content);
            push_element(text, name, index)
        }
        Seen::Attribute(name, _) => push_attribute(text, name),
        Seen::Text(_) => {
            let earlier = count_before(rows, slots, hints, at, content);
            push_text(text, earlier + 1)
        }
    }
}

/// Appends what the path has for an element, with its index where it has one.
fn push_element(text: &mut String, name: &Name, index: Option<usize>) -> Result<(), AllocError>
    ensures { OnOk result (string_bytes text.new ≡ string_bytes text.old ++ (47 ∷ (written name.now ++ index_text index))) }
{
    text.push('/')?;
    push_name(text, name)?;
    push_index(text, index)
}

/// Appends what the path has for an attribute.
fn push_attribute(text: &mut String, name: &Name) -> Result<(), AllocError>
    ensures { OnOk result (string_bytes text.new ≡ string_bytes text.old ++ (47 ∷ 64 ∷ written name.now)) }
{
    text.push_str("/@")?;
    push_name(text, name)
}

/// Appends what the path has for the text that has a place among its siblings, from 1.
fn push_text(text: &mut String, place: usize) -> Result<(), AllocError>
    ensures { OnOk result (string_bytes text.new ≡ string_bytes text.old ++ (codes "/text()" ++ bracketed place)) }
{
    text.push_str("/text()")?;
    push_index(text, Some(place))
}

/// Appends a name as it is written.
fn push_name(text: &mut String, name: &Name) -> Result<(), AllocError>
    ensures { OnOk result (string_bytes text.new ≡ string_bytes text.old ++ written name.now) }
{
    if !name.prefix.is_empty() {
        text.push_str(name.prefix.as_str())?;
        text.push(':')?;
    }
    text.push_str(name.meaning.local.as_str())
}

/// Appends an index in brackets, where there is one.
fn push_index(text: &mut String, index: Option<usize>) -> Result<(), AllocError>
    ensures { OnOk result (string_bytes text.new ≡ string_bytes text.old ++ index_text index) }
{
    let Some(index) = index else {
        return Ok(());
    };
    let mut buffer = Buffer::new();
    text.push('[')?;
    text.push_str(buffer.format(index))?;
    text.push(']')?;
    Ok(())
}

/// The place of the node at a place of the rows among the siblings that are counted with it, from 1, where there are any.
fn index_of(rows: &Rows, slots: &Slots, hints: &Hints, at: usize, like: Seen<'_>) -> Option<usize>
    requires nodes { AreNodes slots.now rows.now.items }
    requires within { at < length rows.now.items }
    ensures { result ≡ index_among (like_before slots.now rows.now.items (seen_content like.entry) at (parent_row_of rows.now.items at)) (like_after slots.now rows.now.items (seen_content like.entry) at (parent_row_of rows.now.items at)) }
{
    let above = parent_row(rows, hints, at)?;
    let earlier = count_before(rows, slots, hints, at, like);
    if earlier == 0
        && !has_like(
            rows,
            slots,
            end_of(rows, at),
            end_of(rows, above),
            rows.at(at).depth,
            like,
        )
    {
        return None;
    }
    Some(earlier + 1)
}

/// How many siblings before the node at a place are counted with it.
fn count_before(rows: &Rows, slots: &Slots, hints: &Hints, at: usize, like: Seen<'_>) -> usize
    requires nodes { AreNodes slots.now rows.now.items }
    requires within { at < length rows.now.items }
    ensures answer { result ≡ length (like_before slots.now rows.now.items (seen_content like.entry) at (parent_row_of rows.now.items at)) }
    ensures few { result < length rows.now.items }
{
    match parent_row(rows, hints, at) {
        Some(above) => count_like(rows, slots, above + 1, at, rows.at(at).depth, like),
        None => 0,
    }
}

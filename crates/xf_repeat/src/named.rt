//! Which copy of an element is meant (XForms 1.1, section 4.7.1): the chain of rows of the repeats around it.

ghost use Rattle.std.specs.Prelude.{◌≡◌, ◌++◌, IfOk, OnOk, map, option_map, slice_get};
ghost use Rattle.xf_def_values.specs.Bounded.{GivesBounded};
ghost use Rattle.xf_def_forest.specs.Visit.{has};
ghost use Rattle.xf_def_xpath.specs.Setting.{each};
ghost use Rattle.xf_def_ui.specs.Index as ui;
ghost use Rattle.xf_def_ui.specs.Interface.{interface_of};
ghost use Rattle.xf_def_ui.specs.Named as named;
ghost use Rattle.xf_eval_context.specs.Indexes.{seen_index};
ghost use Rattle.xf_eval_context.specs.Over.{around_over};
ghost use Rattle.xf_repeat.specs.Chains.{behind, chain_where};

use crate::rows::{row_at, rows_of};
use std::alloc::{AllocError, Global};
use xf_def_forest::{NodeId, NodeList};
use xf_def_syntax::{ElementList, Form};
use xf_eval::EvalFault;
use xf_eval_context::{Index, Over, index_of};
use xf_form_elements::{ancestors, repeats_around};

// ---- by the indexes

/// The indexed rows of the repeats around an element, the outermost first: none where one of them has no row.
pub fn indexed_rows(
    alloc: Global,
    form: &Form,
    indexes: &[Index],
    element: u32,
) -> Result<Option<NodeList>, AllocError>
    ensures { IfOk result (λ rows. rows ≡ ui.indexed_rows (interface_of form.now) (map seen_index indexes.now) element) }
{
    let repeats = repeats_around(alloc, form, element)?;
    let mut rows = NodeList::new(alloc);
    if push_indexed(form, indexes, repeats.as_slice(), &mut rows)? {
        return Ok(Some(rows));
    }
    Ok(None)
}

/// Puts the indexed rows of these repeats behind others, and tells whether each of them has one.
fn push_indexed(
    form: &Form,
    indexes: &[Index],
    repeats: &[u32],
    rows: &mut NodeList,
) -> Result<bool, AllocError>
    ensures { IfOk result (λ is_whole. chain_where is_whole rows.new ≡ behind rows.old (each (λ r. (ui.index_of (interface_of form.now) (map seen_index indexes.now) r).node) repeats.now)) }
{
    if repeats.is_empty() {
        return Ok(true);
    }
    match index_of(form, indexes, repeats[0]).node {
        Some(node) => {
            rows.push(node)?;
            push_indexed(form, indexes, &repeats[1..], rows)
        }
        None => Ok(false),
    }
}

/// The indexed rows of the repeats around an element, up to the first repeat that has none: the rows of an event at a model or at what stands
/// in one.
pub fn rows_cut(
    alloc: Global,
    form: &Form,
    indexes: &[Index],
    element: u32,
) -> Result<NodeList, AllocError>
    ensures { IfOk result (λ rows. rows ≡ named.rows_cut (interface_of form.now) (map seen_index indexes.now) element) }
{
    let repeats = repeats_around(alloc, form, element)?;
    let mut rows = NodeList::new(alloc);
    push_cut(form, indexes, repeats.as_slice(), &mut rows)?;
    Ok(rows)
}

/// Puts the indexed rows of these repeats behind others, up to the first one that has none.
fn push_cut(
    form: &Form,
    indexes: &[Index],
    repeats: &[u32],
    rows: &mut NodeList,
) -> Result<(), AllocError>
    ensures { OnOk result (rows.new ≡ rows.old ++ named.cut_at (interface_of form.now) (map seen_index indexes.now) repeats.now) }
{
    if repeats.is_empty() {
        return Ok(());
    }
    match index_of(form, indexes, repeats[0]).node {
        Some(node) => {
            rows.push(node)?;
            push_cut(form, indexes, &repeats[1..], rows)
        }
        None => Ok(()),
    }
}

// ---- by the target of an event

/// The copy of an element that an event is at.
#[derive(Clone, Copy)]
pub struct Target<'a> {
    pub element: u32,
    /// The rows of the repeats around it, the outermost first.
    pub rows: &'a [NodeId],
}

/// The rows in which a handler is called: those of the target for each repeat around both, else the indexed ones; none where one of these is
/// missing.
pub fn handler_rows(
    alloc: Global,
    form: &Form,
    indexes: &[Index],
    target: Target<'_>,
    handler: u32,
) -> Result<Option<NodeList>, AllocError>
    ensures { IfOk result (λ rows. rows ≡ named.handler_rows (interface_of form.now) (map seen_index indexes.now) target.entry.element (map (λ n. n.number) target.entry.rows.now) handler) }
{
    let repeats = repeats_around(alloc, form, handler)?;
    let around = ancestors(alloc, form, target.element)?;
    let mut rows = NodeList::new(alloc);
    let seen = Seen {
        form,
        indexes,
        around: around.as_slice(),
        rows: target.rows,
    };
    if push_handler_rows(&seen, 0, repeats.as_slice(), &mut rows)? {
        return Ok(Some(rows));
    }
    Ok(None)
}

/// What the rows of a handler are read of.
#[derive(Clone, Copy)]
struct Seen<'a> {
    form: &'a Form,
    indexes: &'a [Index],
    /// What stands around the target, and its rows.
    around: &'a [u32],
    rows: &'a [NodeId],
}

/// Puts the rows for these repeats behind others, from this place of the target's chain on, and tells whether there is one for each.
fn push_handler_rows(
    seen: &Seen<'_>,
    place: usize,
    repeats: &[u32],
    rows: &mut NodeList,
) -> Result<bool, AllocError>
    ensures { IfOk result (λ is_whole. chain_where is_whole rows.new ≡ behind rows.old (named.rows_from (interface_of seen.now.form.now) (map seen_index seen.now.indexes.now) seen.now.around.now (map (λ n. n.number) seen.now.rows.now) place repeats.now)) }
{
    if repeats.is_empty() {
        return Ok(true);
    }
    if place == usize::MAX {
        // No chain is so long.
        return Err(AllocError);
    }
    match row_for(seen, place, repeats[0]) {
        Some(node) => {
            rows.push(node)?;
            push_handler_rows(seen, place + 1, &repeats[1..], rows)
        }
        None => Ok(false),
    }
}

/// The row for one repeat around the handler, which stands at this place in the chain.
fn row_for(seen: &Seen<'_>, place: usize, repeat: u32) -> Option<NodeId>
    ensures { option_map (λ n. n.number) result ≡ named.row_for (interface_of seen.now.form.now) (map seen_index seen.now.indexes.now) seen.now.around.now (map (λ n. n.number) seen.now.rows.now) place repeat }
{
    if has(seen.around, repeat) {
        return seen.rows.get(place).copied();
    }
    index_of(seen.form, seen.indexes, repeat).node
}

/// Whether an element is among others.
fn has(elements: &[u32], element: u32) -> bool
    ensures { result ≡ has element elements.now }
{
    elements.iter().any(|other| element == *other)
}

// ---- by numbers

/// The rows of the repeats around an element that numbers name, that of the outermost repeat first: none where they are too few or too many,
/// or a row does not stand.
pub fn named_rows(
    over: &Over<'_>,
    element: u32,
    numbers: &[u64],
) -> Result<Option<NodeList>, EvalFault>
    ensures { GivesBounded EvalFault.Memory EvalFault.Long (λ rows. rows) result (named.named_rows (interface_of over.now.form.now) (around_over over.now) element numbers.now) }
{
    let repeats = repeats_around(over.alloc, over.form, element)?;
    let mut chain = NodeList::new(over.alloc);
    if push_named(over, repeats.as_slice(), numbers, &mut chain)? {
        return Ok(Some(chain));
    }
    Ok(None)
}

/// Puts the rows of these repeats that numbers name behind those found so far, and tells whether there is one for each.
fn push_named(
    over: &Over<'_>,
    repeats: &[u32],
    numbers: &[u64],
    chain: &mut NodeList,
) -> Result<bool, EvalFault>
    ensures { GivesBounded EvalFault.Memory EvalFault.Long (λ is_named. chain_where is_named chain.new) result (named.named_from (interface_of over.now.form.now) (around_over over.now) chain.old repeats.now numbers.now) }
{
    if repeats.is_empty() {
        return Ok(numbers.is_empty());
    }
    if numbers.is_empty() {
        return Ok(false);
    }
    let rows = rows_of(over, chain.as_slice(), repeats[0])?;
    match row_at(&rows, numbers[0]) {
        Some(node) => {
            chain.push(node)?;
            push_named(over, &repeats[1..], &numbers[1..], chain)
        }
        None => Ok(false),
    }
}

//! How indexes start (XForms 1.1, section 9.3.1), and how one is set (section 10.5).

ghost use Rattle.std.specs.Prelude.{◌≡◌, ℕ, List, [], ◌∷◌, IfOk, filter, length, map};
ghost use Rattle.xf_def_values.specs.Bounded.{GivesBounded};
ghost use Rattle.xf_def_forest.specs.Visit.{has};
ghost use Rattle.xf_def_ui.specs.Elements.{above, element_at, repeat_start};
ghost use Rattle.xf_def_ui.specs.Index as ui;
ghost use Rattle.xf_def_ui.specs.Interface.{interface_of, sort_of};
ghost use Rattle.xf_def_ui.specs.Started as started;
ghost use Rattle.xf_eval_context.specs.Indexes.{seen_index};
ghost use Rattle.xf_eval_context.specs.Over.{around_over};
ghost use Rattle.xf_repeat.specs.Starts.{is_taken, taken_by};

use crate::placed::{index_at, is_same_node, put_index};
use crate::rows::{count_of, held, rows_now};
use std::alloc::{AllocError, Global};
use xf_def_syntax::{Control, Form, Kind};
use xf_eval::EvalFault;
use xf_eval_context::{Index, Over, index_of};
use xf_form_elements::{element_in, parent_of};

/// Which repeats start, and where.
#[derive(Clone, Copy, Debug)]
pub(crate) enum Start {
    /// All of them, at the index that is written.
    Written,
    /// Those that stand in this one, at their first row.
    Inside(u32),
}

/// The indexes of all repeats at first: in document order at `startindex`, all being 0 before.
pub fn started(over: &Over<'_>) -> Result<Vec<Index>, EvalFault>
    ensures { GivesBounded EvalFault.Memory EvalFault.Long (λ indexes. map seen_index indexes.items) result (started.started (interface_of over.now.form.now) (around_over over.now)) }
{
    let mut indexes = unset(over.alloc, over.form.repeats.as_slice())?;
    take_each(over, Start::Written, &mut indexes)?;
    Ok(indexes)
}

/// An index of 0 for each repeat.
fn unset(alloc: Global, repeats: &[u32]) -> Result<Vec<Index>, AllocError>
    ensures { IfOk result (λ indexes. map seen_index indexes.items ≡ map (λ r. ui.unset) repeats.now) }
{
    let unset = Index {
        index: 0,
        node: None,
    };
    Vec::from_elem(alloc, unset, repeats.len())
}

/// Sets the index of a repeat to this number, held among its rows: where the node at it is another one, the repeats inside start anew. After an
/// `Err` some of them have.
pub fn set_index(
    over: &Over<'_>,
    repeat: u32,
    number: u64,
    indexes: &mut [Index],
) -> Result<(), EvalFault>
    ensures { GivesBounded EvalFault.Memory EvalFault.Long (λ _. map seen_index indexes.new) result (started.index_set (interface_of over.now.form.now) (around_over over.now) repeat number (map seen_index indexes.old)) }
{
    let rows = rows_now(over, indexes, repeat)?;
    let count = count_of(&rows)?;
    let old = index_of(over.form, indexes, repeat);
    let new = index_at(&rows, held(number, count));
    put_index(over.form, indexes, repeat, new);
    if is_same_node(old.node, new.node) {
        return Ok(());
    }
    take_each(over, Start::Inside(repeat), indexes)
}

// ---- one after the other

/// The repeats that start take their indexes, one after the other in document order.
fn take_each(over: &Over<'_>, start: Start, indexes: &mut [Index]) -> Result<(), EvalFault>
    ensures { GivesBounded EvalFault.Memory EvalFault.Long (λ _. map seen_index indexes.new) result (started.each_takes (interface_of over.now.form.now) (around_over over.now) (taken_by (interface_of over.now.form.now) start) (map seen_index indexes.old) (filter (is_taken (interface_of over.now.form.now) start) over.now.form.now.repeats)) }
{
    for repeat in over.form.repeats.as_slice() {
        take_where(over, start, indexes, *repeat)?;
    }
    Ok(())
}

/// A repeat takes its index, where it starts.
fn take_where(
    over: &Over<'_>,
    start: Start,
    indexes: &mut [Index],
    repeat: u32,
) -> Result<(), EvalFault>
    ensures { GivesBounded EvalFault.Memory EvalFault.Long (λ _. map seen_index indexes.new) result (started.each_takes (interface_of over.now.form.now) (around_over over.now) (taken_by (interface_of over.now.form.now) start) (map seen_index indexes.old) (filter (is_taken (interface_of over.now.form.now) start) (repeat ∷ []))) }
{
    if !is_taken(over.form, start, repeat) {
        return Ok(());
    }
    let rows = rows_now(over, indexes, repeat)?;
    let count = count_of(&rows)?;
    let index = index_at(&rows, taken_by(over.form, start, repeat, count));
    put_index(over.form, indexes, repeat, index);
    Ok(())
}

/// The index that a repeat with so many rows takes.
fn taken_by(form: &Form, start: Start, repeat: u32, count: u32) -> u32
    ensures { (ns : List ℕ) → length ns ≡ count → result ≡ taken_by (interface_of form.now) start repeat ns }
{
    match start {
        Start::Written => held(u64::from(start_of(form, repeat)), count),
        Start::Inside(_) => 1.min(count),
    }
}

/// The index that a repeat is written to start at.
fn start_of(form: &Form, repeat: u32) -> u32
    ensures { result ≡ repeat_start (element_at (interface_of form.now) repeat).sort }
{
    match element_in(form, repeat) {
        Some(here) => written_start(&here.kind),
        None => 1,
    }
}

fn written_start(kind: &Kind) -> u32
    ensures { result ≡ repeat_start (sort_of kind.now) }
{
    match kind {
        Kind::Control(_, control) => match control {
            Control::Repeat(_, start) => *start,
            _ => 1,
        },
        _ => 1,
    }
}

/// Whether a repeat starts.
fn is_taken(form: &Form, start: Start, repeat: u32) -> bool
    ensures { result ≡ is_taken (interface_of form.now) start repeat }
{
    match start {
        Start::Written => true,
        Start::Inside(outer) => is_above(form, form.elements.len(), outer, parent_of(form, repeat)),
    }
}

/// Whether an element is another one, or among those around it, of which there are at most so many.
fn is_above(form: &Form, most: usize, element: u32, parent: Option<u32>) -> bool
    ensures { result ≡ has element (above most (interface_of form.now) parent) }
{
    if most == 0 {
        return false;
    }
    let Some(other) = parent else {
        return false;
    };
    if other == element {
        return true;
    }
    is_above(form, most - 1, element, parent_of(form, other))
}

//! How passes over all repeats bring their indexes up to date (XForms 1.1, section 9.3.1).

ghost use Rattle.std.specs.Prelude.{◌≡◌, ℕ, ◌&&◌, ◌||◌, ◌==◌, IfOk, OnOk, map, option_map};
ghost use Rattle.std.specs.List.{list_any};
ghost use Rattle.xf_def_values.specs.Bounded.{GivesBounded};
ghost use Rattle.xf_graph.specs.Edges.{has};
ghost use Rattle.xf_def_ui.specs.Elements.{above, ancestors};
ghost use Rattle.xf_def_ui.specs.Index as ui;
ghost use Rattle.xf_def_ui.specs.Interface.{interface_of};
ghost use Rattle.xf_eval_context.specs.Indexes.{seen_index};
ghost use Rattle.xf_eval_context.specs.Over.{around_over};
ghost use Rattle.xf_repeat.specs.Passes.{BringsUp, Steps, moved_from, stepped};

use crate::fault::IndexFault;
use crate::noted::Noted;
use crate::placed::{are_same, index_at, put_index};
use crate::rows::{count_of, rows_now};
use crate::rule::{Before, ruled};
use std::alloc::{AllocError, Global};
use xf_binds::NodeSet;
use xf_def_syntax::Form;
use xf_eval::EvalFault;
use xf_eval_context::{Index, Over, index_of};
use xf_form_elements::parent_of;

/// Brings the indexes up to date where these nodes were just inserted: passes over all repeats, so many at most, until one changes nothing.
/// After an `Err` the indexes are those of the middle of a pass.
pub fn bring_up(
    over: &Over<'_>,
    most: u32,
    added: &NodeSet,
    indexes: &mut [Index],
) -> Result<(), IndexFault>
    ensures { BringsUp result (map seen_index indexes.new) (ui.brought_up most (interface_of over.now.form.now) (around_over over.now) added.now (map seen_index indexes.old)) }
{
    if most == 0 {
        return Err(IndexFault::Passes);
    }
    if !is_moved(over, added, indexes)? {
        return Ok(());
    }
    bring_up(over, most - 1, added, indexes)
}

/// One pass over all repeats. Whether it changed an index or the node at one.
fn is_moved(over: &Over<'_>, added: &NodeSet, indexes: &mut [Index]) -> Result<bool, EvalFault>
    ensures { GivesBounded EvalFault.Memory EvalFault.Long (λ is_moved. (map seen_index indexes.new, is_moved)) result (option_map (moved_from (map seen_index indexes.old)) (ui.pass (interface_of over.now.form.now) (around_over over.now) added.now (map seen_index indexes.old))) }
{
    let before = copied(over.alloc, indexes)?;
    pass(over, added, indexes)?;
    Ok(!are_same(&before, indexes))
}

fn copied(alloc: Global, indexes: &[Index]) -> Result<Vec<Index>, AllocError>
    ensures { IfOk result (λ all. all.items ≡ indexes.now) }
{
    Vec::from_slice(alloc, indexes)
}

/// One pass over all repeats, each of which sees the indexes of those before it as they are by now.
fn pass(over: &Over<'_>, added: &NodeSet, indexes: &mut [Index]) -> Result<(), EvalFault>
    ensures { GivesBounded EvalFault.Memory EvalFault.Long (λ _. map seen_index indexes.new) result (ui.pass (interface_of over.now.form.now) (around_over over.now) added.now (map seen_index indexes.old)) }
{
    let mut restarted = Noted::new(over.alloc);
    for repeat in over.form.repeats.as_slice() {
        bring_one(over, added, indexes, &mut restarted, *repeat)?;
    }
    Ok(())
}

/// A repeat has its new index, and is noted where those inside it start anew.
fn bring_one(
    over: &Over<'_>,
    added: &NodeSet,
    indexes: &mut [Index],
    restarted: &mut Noted,
    repeat: u32,
) -> Result<(), EvalFault>
    ensures { Steps result (map seen_index indexes.new) restarted.new (stepped (interface_of over.now.form.now) (around_over over.now) added.now repeat (record { indexes = map seen_index indexes.old; restarted = restarted.old })) }
{
    let rows = rows_now(over, indexes, repeat)?;
    let before = Before {
        rows: &rows,
        count: count_of(&rows)?,
        old: index_of(over.form, indexes, repeat),
        begins_anew: begins_anew(over.form, restarted, repeat),
    };
    let (index, starts_anew) = ruled(&before, added);
    put_index(over.form, indexes, repeat, index_at(&rows, index));
    note(restarted, repeat, starts_anew)?;
    Ok(())
}

/// Notes a repeat in which those inside start anew.
fn note(restarted: &mut Noted, repeat: u32, starts_anew: bool) -> Result<(), AllocError>
    ensures { OnOk result ((n : ℕ) → has restarted.new n ≡ ((starts_anew && (repeat == n)) || has restarted.old n)) }
{
    if !starts_anew {
        return Ok(());
    }
    restarted.add(repeat)
}

/// Whether a repeat around this one was noted.
fn begins_anew(form: &Form, restarted: &Noted, repeat: u32) -> bool
    ensures { result ≡ list_any (has restarted.now) (ancestors (interface_of form.now) repeat) }
{
    is_noted_above(
        form,
        restarted,
        form.elements.len(),
        parent_of(form, repeat),
    )
}

/// Whether an element, or one of those around it, of which there are at most so many, was noted.
fn is_noted_above(form: &Form, restarted: &Noted, most: usize, parent: Option<u32>) -> bool
    ensures { result ≡ list_any (has restarted.now) (above most (interface_of form.now) parent) }
{
    if most == 0 {
        return false;
    }
    let Some(element) = parent else {
        return false;
    };
    if restarted.has(element) {
        return true;
    }
    is_noted_above(form, restarted, most - 1, parent_of(form, element))
}

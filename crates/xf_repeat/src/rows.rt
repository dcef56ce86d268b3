//! The rows of a repeat (XForms 1.1, section 9.3.1).

ghost use Rattle.std.specs.Prelude.{◌≡◌, ℕ, List, IfOk, length, map, option_map};
ghost use Rattle.xf_def_values.specs.Bounded.{GivesBounded};
ghost use Rattle.xf_def_ui.specs.Index as ui;
ghost use Rattle.xf_def_ui.specs.Interface.{interface_of};
ghost use Rattle.xf_def_ui.specs.Rows as repeats;
ghost use Rattle.xf_eval_context.specs.Indexes.{seen_index};
ghost use Rattle.xf_eval_context.specs.Over.{around_over};
ghost use Rattle.xf_repeat.specs.Seeing.{Sees};

use crate::named::indexed_rows;
use std::alloc::AllocError;
use xf_def_forest::{NodeId, NodeList};
use xf_eval::EvalFault;
use xf_eval_context::{Index, Over, all_at, binding_at, context_under};

/// The rows of a repeat under a chain of row nodes of the repeats around it, the outermost first.
pub fn rows_of(over: &Over<'_>, outer: &[NodeId], repeat: u32) -> Result<NodeList, EvalFault>
    ensures { GivesBounded EvalFault.Memory EvalFault.Long (λ ns. ns) result (repeats.rows_of (interface_of over.now.form.now) (around_over over.now) (map (λ n. n.number) outer.now) repeat) }
{
    let situation = context_under(over, outer, repeat)?;
    let binding = binding_at(over.form, repeat);
    all_at(over, situation.model, binding, situation.focus)
}

/// The rows of a repeat under the indexed rows of the repeats around it, as they are outside an event with these indexes: none where one of
/// the repeats around has no row.
pub fn rows_now(over: &Over<'_>, indexes: &[Index], repeat: u32) -> Result<NodeList, EvalFault>
    ensures { GivesBounded EvalFault.Memory EvalFault.Long (λ ns. ns) result (ui.rows_now (interface_of over.now.form.now) (around_over over.now) (map seen_index indexes.now) repeat) }
{
    match indexed_rows(over.alloc, over.form, indexes, repeat)? {
        Some(outer) => rows_of(&seeing(over, indexes), outer.as_slice(), repeat),
        None => Ok(NodeList::new(over.alloc)),
    }
}

/// What expressions are evaluated over outside an event with these indexes.
pub fn seeing<'a>(over: &Over<'a>, indexes: &'a [Index]) -> Over<'a>
    ensures { Sees result over.now (map seen_index indexes.now) }
{
    Over {
        alloc: over.alloc,
        form: over.form,
        prefixes: over.prefixes,
        forest: over.forest,
        indexes: Some(indexes),
        told: None,
    }
}

/// The row at an index, which counts from 1.
pub(crate) fn row_at(rows: &NodeList, index: u64) -> Option<NodeId>
    ensures { option_map (λ n. n.number) result ≡ repeats.row_at rows.now index }
{
    if index == 0 {
        return None;
    }
    rows.get((index - 1) as usize)
}

/// How many rows there are: a forest has fewer nodes than 32 bits number.
pub(crate) fn count_of(rows: &NodeList) -> Result<u32, AllocError>
    ensures { IfOk result (λ count. count ≡ length rows.now) }
{
    match u32::try_from(rows.len()) {
        Ok(count) => Ok(count),
        Err(_) => Err(AllocError),
    }
}

/// A number held between 1 and the number of rows; 0 without rows.
pub(crate) fn held(number: u64, count: u32) -> u32
    ensures { (ns : List ℕ) → length ns ≡ count → result ≡ repeats.held number ns }
{
    let least = number.max(1);
    if least < u64::from(count) {
        return least as u32;
    }
    count
}

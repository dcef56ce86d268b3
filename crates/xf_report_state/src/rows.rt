//! The rows of repeats as a text tells them: none where a string is too long.

ghost use Rattle.std.specs.Prelude.{◌≡◌, suc, [], IfOk, length, map, unwrap_or};
ghost use Rattle.xf_def_machine.specs.ControlText.{number_in};
ghost use Rattle.xf_def_ui.specs.Index as ui;
ghost use Rattle.xf_def_ui.specs.Interface.{interface_of};
ghost use Rattle.xf_def_ui.specs.Rows as repeats;
ghost use Rattle.xf_eval_context.specs.Indexes.{seen_index};
ghost use Rattle.xf_eval_context.specs.Over.{around_over};

use std::alloc::AllocError;
use xf_def_forest::{NodeId, NodeList};
use xf_eval::EvalFault;
use xf_eval_context::{Index, Over};
use xf_repeat::{rows_now, rows_of};

/// The rows of a repeat under a chain of row nodes of the repeats around it.
pub(crate) fn rows_under(
    over: &Over<'_>,
    outer: &[NodeId],
    repeat: u32,
) -> Result<NodeList, AllocError>
    ensures { IfOk result (λ rows. rows ≡ unwrap_or (repeats.rows_of (interface_of over.now.form.now) (around_over over.now) (map (λ n. n.number) outer.now) repeat) []) }
{
    match rows_of(over, outer, repeat) {
        Ok(rows) => Ok(rows),
        Err(EvalFault::Long) => Ok(NodeList::new(over.alloc)),
        Err(EvalFault::Memory) => Err(AllocError),
    }
}

/// How many rows a repeat has under the indexed rows of the repeats around it.
pub(crate) fn count_now(over: &Over<'_>, indexes: &[Index], repeat: u32) -> Result<u32, AllocError>
    ensures { IfOk result (λ count. count ≡ length (unwrap_or (ui.rows_now (interface_of over.now.form.now) (around_over over.now) (map seen_index indexes.now) repeat) [])) }
{
    match rows_now(over, indexes, repeat) {
        Ok(rows) => as_count(rows.len()),
        Err(EvalFault::Long) => Ok(0),
        Err(EvalFault::Memory) => Err(AllocError),
    }
}

/// The number of a row among the rows, from 1: one more than how many there are where it is none of them.
pub(crate) fn number_in(rows: &NodeList, row: NodeId) -> Result<u32, AllocError>
    ensures { IfOk result (λ number. number ≡ number_in rows.now row.number) }
{
    match rows.position(row) {
        Some(place) => number_at(place),
        None => number_at(rows.len()),
    }
}

fn number_at(place: usize) -> Result<u32, AllocError>
    ensures { IfOk result (λ number. number ≡ suc place) }
{
    if place == usize::MAX {
        // No memory holds so many.
        return Err(AllocError);
    }
    as_count(place + 1)
}

/// A count of nodes: a forest has fewer than 32 bits number.
fn as_count(count: usize) -> Result<u32, AllocError>
    ensures { IfOk result (λ number. number ≡ count) }
{
    match u32::try_from(count) {
        Ok(number) => Ok(number),
        Err(_) => Err(AllocError),
    }
}

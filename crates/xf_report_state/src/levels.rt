//! The rows in which a copy stands, one inside the other. Copies follow one another row by row: what was found of the rows of one serves those
//! behind it, so that each repeat is evaluated once under each chain of rows.

ghost use Rattle.std.specs.Prelude.{◌≡◌, ◌+◌, ◌<◌, [], IfOk, OnOk, length, map, slice_get, take, unwrap_or};
ghost use Rattle.xf_def_ui.specs.Interface.{interface_of};
ghost use Rattle.xf_def_ui.specs.Rows as repeats;
ghost use Rattle.xf_eval_context.specs.Over.{around_over};
ghost use Rattle.xf_report_state.specs.Levels.{AreLevels, Starts, is_at, numbers_under, row_of};

use crate::rows::{number_in, rows_under};
use std::alloc::{AllocError, Global};
use xf_def_forest::{NodeId, NodeList};
use xf_eval_context::Over;

/// A row of a repeat.
#[derive(Drop)]
pub(crate) struct Level {
    pub repeat: u32,
    /// All rows of the repeat under the rows before.
    pub rows: NodeList,
    pub row: NodeId,
    /// The number of the row among them, from 1.
    pub number: u32,
}

/// Goes to these rows of these repeats, the outermost first.
pub(crate) fn go_to(
    over: &Over<'_>,
    levels: &mut Vec<Level>,
    repeats: &[u32],
    rows: &[NodeId],
) -> Result<(), AllocError>
    requires { AreLevels (interface_of over.now.form.now) (around_over over.now) [] levels.old.items }
    ensures levels { OnOk result (AreLevels (interface_of over.now.form.now) (around_over over.now) [] levels.new.items) }
    ensures numbers { OnOk result (map (λ l. l.number) levels.new.items ≡ numbers_under (interface_of over.now.form.now) (around_over over.now) [] repeats.now (map (λ n. n.number) rows.now)) }
{
    let depth = repeats.len().min(rows.len());
    for at in 0..depth {
        enter(over, levels, repeats, rows, at)?;
    }
    levels.truncate(depth);
    Ok(())
}

/// Goes to the row of this place, where the first ones are those before it.
fn enter(
    over: &Over<'_>,
    levels: &mut Vec<Level>,
    repeats: &[u32],
    rows: &[NodeId],
    at: usize,
) -> Result<(), AllocError>
    requires repeat { at < length repeats.now }
    requires row { at < length rows.now }
    requires levels { AreLevels (interface_of over.now.form.now) (around_over over.now) [] levels.old.items }
    requires before { Starts levels.old.items at repeats.now (map (λ n. n.number) rows.now) }
    ensures levels { OnOk result (AreLevels (interface_of over.now.form.now) (around_over over.now) [] levels.new.items) }
    ensures here { OnOk result (Starts levels.new.items (at + 1) repeats.now (map (λ n. n.number) rows.now)) }
{
    if is_at(levels, at, repeats[at], rows[at]) {
        return Ok(());
    }
    let all = take_rows(over, levels, &rows[..at], repeats[at])?;
    let number = number_in(&all, rows[at])?;
    levels.push(Level {
        repeat: repeats[at],
        rows: all,
        row: rows[at],
        number,
    })?;
    Ok(())
}

/// Whether there is a level at this depth, of this repeat, with this row.
fn is_at(levels: &[Level], depth: usize, repeat: u32, row: NodeId) -> bool
    ensures { result ≡ is_at repeat row.number (slice_get levels.now depth) }
{
    match levels.get(depth) {
        Some(level) => level.repeat == repeat && level.row.is_same(row),
        None => false,
    }
}

/// The rows of a repeat under the first levels, which have these rows: found before, where the next level is of this repeat. That one goes, and
/// those behind it.
fn take_rows(
    over: &Over<'_>,
    levels: &mut Vec<Level>,
    outer: &[NodeId],
    repeat: u32,
) -> Result<NodeList, AllocError>
    requires levels { AreLevels (interface_of over.now.form.now) (around_over over.now) [] levels.old.items }
    requires outer { map row_of (take (length outer.now) levels.old.items) ≡ map (λ n. n.number) outer.now }
    ensures rows { IfOk result (λ rows. rows ≡ unwrap_or (repeats.rows_of (interface_of over.now.form.now) (around_over over.now) (map (λ n. n.number) outer.now) repeat) []) }
    ensures left { OnOk result (levels.new.items ≡ take (length outer.now) levels.old.items) }
{
    match take_at(levels, outer.len()) {
        Some(level) => {
            if level.repeat == repeat {
                Ok(level.rows)
            } else {
                rows_under(over, outer, repeat)
            }
        }
        None => rows_under(over, outer, repeat),
    }
}

/// Takes the level at this depth off, and those behind it.
fn take_at(levels: &mut Vec<Level>, depth: usize) -> Option<Level>
    ensures level { result ≡ slice_get levels.old.items depth }
    ensures left { levels.new.items ≡ take depth levels.old.items }
{
    if levels.len() <= depth {
        return None;
    }
    levels.truncate(depth + 1);
    levels.pop()
}

/// The numbers of the rows.
pub(crate) fn numbers_of(alloc: Global, levels: &[Level]) -> Result<Vec<u32>, AllocError>
    ensures { IfOk result (λ numbers. numbers.items ≡ map (λ l. l.number) levels.now) }
{
    let mut numbers = Vec::with_capacity(alloc, levels.len())?;
    for level in levels {
        numbers.push(level.number)?;
    }
    Ok(numbers)
}

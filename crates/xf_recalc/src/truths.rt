//! The truths of the values of a model's entries over the settled data.

ghost use Rattle.std.specs.Prelude.{◌≡◌, [], Some, true, option_map, slice_get};
ghost use Rattle.std.specs.List.{list_all};
ghost use Rattle.xf_def_forest.specs.Forest.{has_number};
ghost use Rattle.xf_def_forest.specs.Visit.{visits};
ghost use Rattle.xf_def_values.specs.Bounded.{GivesBounded};
ghost use Rattle.xf_def_model.specs.Applied.{is_property};
ghost use Rattle.xf_eval.specs.Live.{AroundStands};
ghost use Rattle.xf_binds.specs.Held.{entry_of};
ghost use Rattle.xf_binds.specs.Table.{kept_at};
ghost use Rattle.xf_recalc.specs.Settles.{scope_in};
ghost use Rattle.xf_recalc.specs.Known.{AreKnown, IsKnown, known_at};
ghost use Rattle.xf_recalc.specs.Passes.{AreTrue, IsKept, IsKnownBy};
ghost use Rattle.xf_recalc.specs.Turns.{found_over, found_step, is_there, is_there_at, truth_over};

use crate::evaluate::entry_value;
use crate::order::is_passed;
use std::alloc::Global;
use xf_binds::{Entry, Table, TruthList, is_calculate};
use xf_def_model::Property;
use xf_def_syntax::Tables;
use xf_eval::{Around, EvalFault, truth_of};
use xf_tree::Forest;

/// The truths of the values of a model's entries over the forest as it stands, by their places. Those that are known of calculates, by their
/// places among these, are not evaluated again; nor are the entries that are passed over, of which the truths of the last recalculation are kept.
pub(crate) fn truths_of<A: Around>(
    alloc: Global,
    tables: &Tables,
    forest: &Forest,
    model: u32,
    table: &Table,
    marks: &[bool],
    known: &[Option<bool>],
    around: &A,
) -> Result<TruthList, EvalFault>
    requires stands { AroundStands (A.given around.now) forest.now.forest.nodes }
    requires live { list_all (is_there forest.now.forest.nodes) (kept_at table.now model).entries ≡ true }
    requires known { AreKnown (scope_in (A.given around.now) tables.now model) (visits forest.now.forest.nodes) (kept_at table.now model).entries known.now }
    requires passed { AreTrue (scope_in (A.given around.now) tables.now model) (visits forest.now.forest.nodes) (kept_at table.now model) marks.now }
    ensures { GivesBounded EvalFault.Memory EvalFault.Long (λ truths. truths) result (found_over [] (scope_in (A.given around.now) tables.now model) (visits forest.now.forest.nodes) (kept_at table.now model).entries) }
{
    let count = table.len(model);
    let mut found = TruthList::with_capacity(alloc, count)?;
    let mut place = 0;
    for at in 0..count {
        let entry = table.entry(model, at);
        let passed = is_passed(marks, at);
        let truth = known_of(table, model, at, entry, passed, known, place);
        push_truth(
            alloc, tables, forest, model, entry, truth, around, &mut found,
        )?;
        if is_calculate(entry) {
            place += 1;
        }
    }
    Ok(found)
}

/// What is known of an entry: the truth that is kept where it is passed over, or else that of its turn.
fn known_of(
    table: &Table,
    model: u32,
    at: usize,
    entry: Option<Entry>,
    is_passed: bool,
    known: &[Option<bool>],
    place: usize,
) -> Option<bool>
    requires { option_map entry_of entry ≡ slice_get (kept_at table.now model).entries at }
    ensures { IsKnownBy is_passed (kept_at table.now model) known.now place (option_map entry_of entry) result }
{
    if is_passed {
        return kept_truth(table, model, at);
    }
    known_at(entry, known, place)
}

/// The truth that is kept of the entry at a place from the last recalculation, where it stood then; a type has none.
fn kept_truth(table: &Table, model: u32, at: usize) -> Option<bool>
    ensures { IsKept (kept_at table.now model) (slice_get (kept_at table.now model).entries at) result }
{
    table.truth_at(model, at)
}

/// What is known of an entry, where so many calculates stand before it.
fn known_at(entry: Option<Entry>, known: &[Option<bool>], place: usize) -> Option<bool>
    ensures { result ≡ known_at (option_map entry_of entry) known.now place }
{
    if !is_calculate(entry) {
        return None;
    }
    match known.get(place) {
        Some(truth) => *truth,
        None => None,
    }
}

/// Adds the truth of an entry, where there is one.
fn push_truth<A: Around>(
    alloc: Global,
    tables: &Tables,
    forest: &Forest,
    model: u32,
    entry: Option<Entry>,
    known: Option<bool>,
    around: &A,
    found: &mut TruthList,
) -> Result<(), EvalFault>
    requires stands { AroundStands (A.given around.now) forest.now.forest.nodes }
    requires live { is_there_at forest.now.forest.nodes (option_map entry_of entry) ≡ true }
    requires known { IsKnown (scope_in (A.given around.now) tables.now model) (visits forest.now.forest.nodes) (option_map entry_of entry) known }
    ensures { GivesBounded EvalFault.Memory EvalFault.Long (λ u. found.new) result (found_step found.old (scope_in (A.given around.now) tables.now model) (visits forest.now.forest.nodes) (option_map entry_of entry)) }
{
    match entry {
        Some(entry) => {
            let truth = entry_truth(alloc, tables, forest, model, entry, known, around)?;
            found.push(truth)?;
            Ok(())
        }
        None => Ok(()),
    }
}

/// The truth of an entry's value, which may be known; a type has none.
fn entry_truth<A: Around>(
    alloc: Global,
    tables: &Tables,
    forest: &Forest,
    model: u32,
    entry: Entry,
    known: Option<bool>,
    around: &A,
) -> Result<Option<bool>, EvalFault>
    requires stands { AroundStands (A.given around.now) forest.now.forest.nodes }
    requires live { has_number entry.node.number forest.now.forest.nodes ≡ true }
    requires known { IsKnown (scope_in (A.given around.now) tables.now model) (visits forest.now.forest.nodes) (Some (entry_of entry)) known }
    ensures { GivesBounded EvalFault.Memory EvalFault.Long (λ truth. truth) result (truth_over (scope_in (A.given around.now) tables.now model) (visits forest.now.forest.nodes) (entry_of entry)) }
{
    if let Some(truth) = known {
        return Ok(Some(truth));
    }
    if is_type(entry.property) {
        return Ok(None);
    }
    let value = entry_value(alloc, tables, forest, model, entry, around)?;
    Ok(Some(truth_of(&value)))
}

fn is_type(property: Property) -> bool
    ensures { result ≡ is_property property Property.Kind }
{
    property == Property::Kind
}

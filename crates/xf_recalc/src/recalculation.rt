//! The recalculation of a model (XForms 1.1, section 4.3.2).

ghost use Rattle.std.specs.Prelude.{◌≡◌, length, map, IfOk, IfErr, OnErr};
ghost use Rattle.xf_def_forest.specs.Limits.{limits, passed_by_all};
ghost use Rattle.xf_def_forest.specs.Shape.{shape_of};
ghost use Rattle.xf_def_forest.specs.Visit.{visits};
ghost use Rattle.xf_def_model.specs.Settled.{calculates};
ghost use Rattle.xf_def_model.specs.Pertinent.{AllOf};
ghost use Rattle.xf_binds.specs.Placed.{IsSeatedIn};
ghost use Rattle.xf_binds.specs.Table.{kept_at};
ghost use Rattle.xf_binds_rebuild.specs.Web.{asks_of};
ghost use Rattle.xf_recalc.specs.Passes.{ArePassed};
ghost use Rattle.xf_recalc.specs.Settles.{IsLeft, IsSettled, IsTold, MaySettle, scope_in, word_of, words_of};
ghost use Rattle.xf_recalc.specs.Turns.{AreTurns};

use crate::fault::SettleFault;
use crate::order::turns_of;
use crate::truths::truths_of;
use crate::turn::settle_turns;
use std::alloc::Global;
use xf_binds::{Table, TruthList, Turn, is_calculate};
use xf_def_forest::TreeFault;
use xf_def_syntax::Tables;
use xf_eval::Around;
use xf_tree::Forest;
use xf_undo::Draft;

/// Evaluates the calculates of a model in an order of their graph, and writes their texts; then evaluates each other entry. The answer is the truths
/// of their values, by the places of the entries. One that is not marked, by the same places, is passed over: its truth is that of the last
/// recalculation; an entry past the marks is evaluated. What was reserved or written before an `Err` stays in the draft until it is rolled back.
pub fn settle<A: Around>(
    alloc: Global,
    tables: &Tables,
    draft: &mut Draft,
    model: u32,
    table: &Table,
    marks: &[bool],
    around: &A,
) -> Result<TruthList, SettleFault>
    requires may { MaySettle (A.given around.now) tables.now model draft.old.now (kept_at table.now model).entries }
    requires asked { (kept_at table.now model).asks ≡ map (asks_of (scope_in (A.given around.now) tables.now model) (shape_of draft.old.now.nodes)) (kept_at table.now model).entries }
    requires passes { ArePassed (A.given around.now) tables.now model draft.old.now (kept_at table.now model) marks.now }
    ensures ok { IfOk result (λ truths. IsSettled (scope_in (A.given around.now) tables.now model) (kept_at table.now model).entries draft.old.now draft.new.now truths) }
    ensures err { IfErr result (λ fault. IsTold fault (words_of (scope_in (A.given around.now) tables.now model) (kept_at table.now model).entries draft.old.now)) }
    ensures left { OnErr result (IsLeft (scope_in (A.given around.now) tables.now model) (kept_at table.now model).entries draft.old.now draft.new.now) }
    ensures kept { draft.new.kept ≡ draft.old.kept }
{
    let turns = turns_of(model, table);
    settle_in_turn(alloc, tables, draft, model, table, marks, turns, around)
}

/// The same, where the turns are given.
fn settle_in_turn<A: Around>(
    alloc: Global,
    tables: &Tables,
    draft: &mut Draft,
    model: u32,
    table: &Table,
    marks: &[bool],
    turns: &[Turn],
    around: &A,
) -> Result<TruthList, SettleFault>
    requires may { MaySettle (A.given around.now) tables.now model draft.old.now (kept_at table.now model).entries }
    requires turns { AreTurns (scope_in (A.given around.now) tables.now model) (kept_at table.now model).entries (visits draft.old.now.nodes) turns.now }
    requires seated { AllOf (IsSeatedIn (kept_at table.now model).entries) turns.now }
    requires passes { ArePassed (A.given around.now) tables.now model draft.old.now (kept_at table.now model) marks.now }
    ensures ok { IfOk result (λ truths. IsSettled (scope_in (A.given around.now) tables.now model) (kept_at table.now model).entries draft.old.now draft.new.now truths) }
    ensures err { IfErr result (λ fault. IsTold fault (words_of (scope_in (A.given around.now) tables.now model) (kept_at table.now model).entries draft.old.now)) }
    ensures left { OnErr result (IsLeft (scope_in (A.given around.now) tables.now model) (kept_at table.now model).entries draft.old.now draft.new.now) }
    ensures kept { draft.new.kept ≡ draft.old.kept }
{
    let count = calculate_count(table, model);
    if count > u32::MAX as usize {
        // No memory holds so many.
        return Err(SettleFault::Memory);
    }
    let known = settle_turns(
        alloc,
        tables,
        draft,
        model,
        table,
        marks,
        turns,
        count as u32,
        around,
    )?;
    let truths = truths_of(
        alloc,
        tables,
        draft.forest(),
        model,
        table,
        marks,
        known.as_slice(),
        around,
    )?;
    match limit_passed(draft.forest()) {
        Some(fault) => Err(fault),
        None => Ok(truths),
    }
}

/// Which limit of the whole forest is passed, where one is.
fn limit_passed(forest: &Forest) -> Option<SettleFault>
    ensures { result ≡ word_of (passed_by_all limits forest.now.forest.nodes) }
{
    match forest.passed() {
        Some(TreeFault::Nodes) => Some(SettleFault::Nodes),
        Some(_) => Some(SettleFault::AllTexts),
        None => None,
    }
}

/// How many calculates a model has.
fn calculate_count(table: &Table, model: u32) -> usize
    ensures { result ≡ length (calculates (kept_at table.now model).entries) }
{
    let mut count = 0;
    for at in 0..table.len(model) {
        if is_calculate(table.entry(model, at)) {
            count += 1;
        }
    }
    count
}

//! One calculate after the other, in an order of their graph (XForms 1.1, section 4.3.2 and appendix C).

ghost use Rattle.std.specs.Prelude.{◌≡◌, ◌+◌, ◌<◌, ◌^◌, Some, None, length, option_map, replicate, slice_set, IfErr, IfOk, OnOk, OnErr};
ghost use Rattle.xf_base.specs.Gives.{Gives};
ghost use Rattle.xf_base.specs.Limits.{string_limit};
ghost use Rattle.xf_def_forest.specs.Needs.{IsSettable};
ghost use Rattle.xf_def_forest.specs.Visit.{visits};
ghost use Rattle.xf_def_xpath.specs.Conversions.{truth_of};
ghost use Rattle.xf_def_model.specs.Entries.{text_of, value_of};
ghost use Rattle.xf_def_model.specs.Settled.{calculates};
ghost use Rattle.xf_eval.specs.Live.{AroundStands};
ghost use Rattle.xf_undo.specs.Draft.{IsUnused};
ghost use Rattle.xf_binds.specs.Held.{entry_of};
ghost use Rattle.xf_def_model.specs.Pertinent.{AllOf};
ghost use Rattle.xf_binds.specs.Placed.{IsSeatedIn};
ghost use Rattle.xf_binds.specs.Table.{kept_at};
ghost use Rattle.xf_recalc.specs.Settles.{IsLeft, IsTold, MaySettle, scope_in, words_of};
ghost use Rattle.xf_recalc.specs.Known.{AreKnown};
ghost use Rattle.xf_recalc.specs.Passes.{ArePassed};
ghost use Rattle.xf_recalc.specs.Turns.{AreTurns, turned};
ghost use Rattle.xf_recalc.specs.Whole.{IsWritten};

use crate::evaluate::evaluated_entry;
use crate::fault::SettleFault;
use crate::order::is_passed;
use std::alloc::{AllocError, Global};
use xf_base::limits::TEXT_LIMIT;
use xf_binds::{Entry, Table, Turn};
use xf_def_syntax::Tables;
use xf_eval::Around;
use xf_undo::Draft;

/// Reserves a number for each of the calculates, evaluates each in its turn, but for those that are passed over, and writes its text. The answer is
/// the truths of the values that were evaluated, by the places of the calculates: each is evaluated once. What was reserved or written before an
/// `Err` stays.
pub(crate) fn settle_turns<A: Around>(
    alloc: Global,
    tables: &Tables,
    draft: &mut Draft,
    model: u32,
    table: &Table,
    marks: &[bool],
    turns: &[Turn],
    count: u32,
    around: &A,
) -> Result<Vec<Option<bool>>, SettleFault>
    requires may { MaySettle (A.given around.now) tables.now model draft.old.now (kept_at table.now model).entries }
    requires turns { AreTurns (scope_in (A.given around.now) tables.now model) (kept_at table.now model).entries (visits draft.old.now.nodes) turns.now }
    requires seated { AllOf (IsSeatedIn (kept_at table.now model).entries) turns.now }
    requires passes { ArePassed (A.given around.now) tables.now model draft.old.now (kept_at table.now model) marks.now }
    requires count { count ≡ length (calculates (kept_at table.now model).entries) }
    ensures ok { OnOk result (IsWritten (scope_in (A.given around.now) tables.now model) (kept_at table.now model).entries draft.old.now draft.new.now) }
    ensures truths { IfOk result (λ truths. AreKnown (scope_in (A.given around.now) tables.now model) (visits draft.new.now.nodes) (kept_at table.now model).entries truths.items) }
    ensures err { IfErr result (λ fault. IsTold fault (words_of (scope_in (A.given around.now) tables.now model) (kept_at table.now model).entries draft.old.now)) }
    ensures left { OnErr result (IsLeft (scope_in (A.given around.now) tables.now model) (kept_at table.now model).entries draft.old.now draft.new.now) }
    ensures kept { draft.new.kept ≡ draft.old.kept }
{
    let mut truths = no_truths(alloc, count as usize)?;
    let first = draft.forest().next_number();
    draft.reserve_numbers(count);
    for turn in turns {
        if is_passed(marks, turn.seat) {
            continue;
        }
        let number = first + turn.place as u128;
        let truth = settle_turn(alloc, tables, draft, model, turn.entry, number, around)?;
        tell(&mut truths, turn.place as usize, truth);
    }
    Ok(truths)
}

/// So many truths, none of which is known.
fn no_truths(alloc: Global, count: usize) -> Result<Vec<Option<bool>>, AllocError>
    ensures { IfOk result (λ truths. truths.items ≡ replicate count None) }
{
    vec![in alloc; None; count]
}

/// Tells the truth at a place, where it is one.
fn tell(truths: &mut Vec<Option<bool>>, at: usize, truth: bool)
    ensures { truths.new.items ≡ slice_set truths.old.items at (Some truth) }
{
    if at < truths.len() {
        truths[at] = Some(truth);
    }
}

/// Evaluates a calculate, and writes its text where it does not stand already: there it has this number. The answer is the truth of its value.
fn settle_turn<A: Around>(
    alloc: Global,
    tables: &Tables,
    draft: &mut Draft,
    model: u32,
    entry: Entry,
    number: u128,
    around: &A,
) -> Result<bool, SettleFault>
    requires stands { AroundStands (A.given around.now) draft.old.now.nodes }
    requires may { IsSettable entry.node.number draft.old.now }
    requires number { IsUnused number draft.old }
    ensures answer { Gives SettleFault.Memory (λ truth. draft.new) result (turned number entry.node.number draft.old
        (text_of (Some string_limit) (scope_in (A.given around.now) tables.now model) (visits draft.old.now.nodes) (entry_of entry))) }
    ensures truth { IfOk result (λ truth. option_map truth_of (value_of (Some string_limit) (scope_in (A.given around.now) tables.now model) (visits draft.old.now.nodes) (entry_of entry)) ≡ Some truth) }
    ensures err { OnErr result (draft.new ≡ draft.old) }
{
    let given = evaluated_entry(alloc, tables, draft.forest(), model, entry, around)?;
    if given.text.len() > TEXT_LIMIT {
        return Err(SettleFault::Text);
    }
    if draft.forest().has_text(entry.node, given.text.as_str()) {
        return Ok(given.truth);
    }
    draft.settle_text(entry.node, given.text.as_str(), number)?;
    Ok(given.truth)
}

//! The texts of a model, settled (XForms 1.1, section 4.3.2), and what its refusals mean.

ghost use Rattle.std.specs.Prelude.{◌≡◌, [], true, IfOk, IfErr};
ghost use Rattle.xf_def_forest.specs.Changes.{in_detached};
ghost use Rattle.xf_law_recalculation.specs.Agree.Hung.{are_hung};
ghost use Rattle.xf_binds.specs.Kept.{recalculated};
ghost use Rattle.xf_binds.specs.Table.{kept_at};
ghost use Rattle.xf_recalc.specs.Settles.{IsSettled, words_of};
ghost use Rattle.xf_binds_rebuild.specs.Built.{IsBuilt};
ghost use Rattle.xf_engine_state.specs.Built.{scope_at};
ghost use Rattle.xf_engine_state.specs.Known.{IsRemembered, MayBePassed};
ghost use Rattle.xf_engine_state.specs.Parts.{IsLoaded};
ghost use Rattle.xf_engine_state.specs.Settling.{IsPassed, StaysWhole, fault_of};

use crate::around::{Quiet, documents};
use crate::fault::WorkFault;
use crate::growing::NUMBERS;
use std::alloc::Global;
use xf_binds::{Table, TruthList};
use xf_def_machine::{LimitWord, Refusal};
use xf_form::Loaded;
use xf_recalc::{SettleFault, settle};
use xf_undo::Draft;

/// Settles the texts of the calculates of a model. The answer is the truths of the entries, by their places. Those that are not marked, by the same
/// places, are passed over. What was written before an `Err` stays.
pub(crate) fn settle_texts(
    alloc: Global,
    loaded: &Loaded,
    draft: &mut Draft,
    model: u32,
    table: &Table,
    marks: &[bool],
) -> Result<TruthList, WorkFault>
    requires loaded { IsLoaded loaded.now }
    requires hung { are_hung draft.old.now.nodes ≡ true }
    requires built { IsBuilt (scope_at loaded.now draft.old.now model) draft.old.now.nodes (kept_at table.now model) }
    requires passes { MayBePassed loaded.now draft.old.now model (kept_at table.now model) marks.now }
    ensures ok { IfOk result (λ truths. IsSettled (scope_at loaded.now draft.old.now model) (kept_at table.now model).entries draft.old.now draft.new.now truths) }
    ensures err { IfErr result (λ fault. IsPassed fault (words_of (scope_at loaded.now draft.old.now model) (kept_at table.now model).entries draft.old.now)) }
    ensures known { IfOk result (λ truths. in_detached draft.old.now.nodes ≡ [] → IsRemembered (scope_at loaded.now draft.new.now model) draft.new.now (recalculated truths (kept_at table.now model))) }
    ensures whole { StaysWhole loaded.now draft.old.now draft.new.now }
    ensures kept { draft.new.kept ≡ draft.old.kept }
{
    let instances = loaded.form.tables.instances.as_slice();
    let documents = documents(alloc, instances, draft.forest())?;
    let around = Quiet {
        instances,
        prefixes: &loaded.prefixes,
        decimals: loaded.form.decimals,
        documents: documents.as_slice(),
    };
    draft.forest().are_trees();
    if draft.forest().next_number() > NUMBERS {
        return Err(WorkFault::Memory);
    }
    // Memory holds no more entries than there are numbers left.
    let _ = table.len(model);
    let settled = settle(
        alloc,
        &loaded.form.tables,
        draft,
        model,
        table,
        marks,
        &around,
    );
    draft.forest().are_trees();
    match settled {
        Ok(truths) => Ok(truths),
        Err(fault) => Err(told(fault)),
    }
}

/// The limit that is passed.
fn told(fault: SettleFault) -> WorkFault
    ensures { result ≡ fault_of fault }
{
    match fault {
        SettleFault::Long => WorkFault::Refused(Refusal::Limit(LimitWord::Long)),
        SettleFault::Text => WorkFault::Refused(Refusal::Limit(LimitWord::Text)),
        SettleFault::Nodes => WorkFault::Refused(Refusal::Limit(LimitWord::Nodes)),
        SettleFault::AllTexts => WorkFault::Refused(Refusal::Limit(LimitWord::All)),
        SettleFault::Memory => WorkFault::Memory,
    }
}

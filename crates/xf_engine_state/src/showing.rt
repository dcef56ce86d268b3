//! The controls made afresh (XForms 1.1, section 4.3.4).

ghost use Rattle.std.specs.Prelude.{◌≡◌, true, map, nat_lt};
ghost use Rattle.xf_law_recalculation.specs.Agree.Hung.{are_hung};
ghost use Rattle.xf_base.specs.Limits.{copy_limit};
ghost use Rattle.xf_controls.specs.Known.{AreKnown};
ghost use Rattle.xf_controls.specs.Plain.{is_plain};
ghost use Rattle.xf_controls.specs.Seen.{seen_copy};
ghost use Rattle.xf_def_ui.specs.Copies.{copy_count};
ghost use Rattle.xf_def_ui.specs.Interface.{interface_of};
ghost use Rattle.xf_engine_state.specs.Calls.{IsWithin, Shows, long_or_memory};
ghost use Rattle.xf_engine_state.specs.Held.{around_over};
ghost use Rattle.xf_engine_state.specs.Parts.{Chosen, IsLoaded, chosen_of};

use crate::around::{Quiet, documents};
use crate::fault::WorkFault;
use crate::marks::Marked;
use std::alloc::Global;
use xf_base::limits::COPY_LIMIT;
use xf_binds::Table;
use xf_controls::{ControlCopy, ControlList, KnownList, controls};
use xf_controls_copies::copies;
use xf_def_machine::{LimitWord, Refusal};
use xf_eval::EvalFault;
use xf_eval_context::{Index, Over};
use xf_form::Loaded;
use xf_tree::Forest;

/// The controls of a plain form made afresh over its data and what its binds set, by what is known of their nodes: whatever is chosen.
pub(crate) fn shown(
    alloc: Global,
    loaded: &Loaded,
    forest: &Forest,
    table: &Table,
    known: &KnownList,
) -> Result<ControlList, WorkFault>
    requires loaded { IsLoaded loaded.now }
    requires plain { is_plain (interface_of loaded.now.form) ≡ true }
    requires hung { are_hung forest.now.forest.nodes ≡ true }
    requires known { AreKnown (interface_of loaded.now.form) (around_over loaded.now forest.now.forest) forest.now.forest.nodes known.now }
    ensures { (chosen : Chosen) → Shows chosen loaded.now forest.now.forest table.now result }
{
    let instances = loaded.form.tables.instances.as_slice();
    let documents = documents(alloc, instances, forest)?;
    let around = Quiet {
        instances,
        prefixes: &loaded.prefixes,
        decimals: loaded.form.decimals,
        documents: documents.as_slice(),
    };
    let marks = Marked { forest, table };
    forest.are_trees();
    match controls(alloc, &loaded.form, forest, &around, &marks, known) {
        Ok(list) => within(list),
        Err(fault) => Err(told(fault)),
    }
}

/// What is chosen: the index of each repeat, and of each switch its selected case.
#[derive(Clone, Copy)]
pub(crate) struct Choice<'a> {
    pub indexes: &'a [Index],
    pub cases: &'a [usize],
}

/// The controls of any form made afresh over its data, what its binds set and what is chosen.
pub(crate) fn shown_in_rows<'a>(
    alloc: Global,
    loaded: &'a Loaded,
    forest: &'a Forest,
    table: &Table,
    choice: Choice<'a>,
) -> Result<ControlList, WorkFault>
    requires loaded { IsLoaded loaded.now }
    ensures { Shows (chosen_of choice.entry.indexes.now choice.entry.cases.now) loaded.now forest.now.forest table.now result }
{
    let over = Over {
        alloc,
        form: &loaded.form,
        prefixes: &loaded.prefixes,
        forest,
        indexes: Some(choice.indexes),
        told: None,
    };
    let marks = Marked { forest, table };
    match copies(&over, &marks, choice.cases, choice.indexes) {
        Ok(list) => within(list),
        Err(fault) => Err(told(fault)),
    }
}

/// The limit that is passed.
pub(crate) fn told(fault: EvalFault) -> WorkFault
    ensures { result ≡ long_or_memory fault }
{
    match fault {
        EvalFault::Long => WorkFault::Refused(Refusal::Limit(LimitWord::Long)),
        EvalFault::Memory => WorkFault::Memory,
    }
}

/// The list, unless it has too many copies and items.
fn within(list: ControlList) -> Result<ControlList, WorkFault>
    ensures { IsWithin result list }
{
    if is_over(list.as_slice()) {
        return Err(WorkFault::Refused(Refusal::Limit(LimitWord::Controls)));
    }
    Ok(list)
}

/// Whether there are more copies and items than a form may have.
fn is_over(list: &[ControlCopy]) -> bool
    ensures { result ≡ nat_lt copy_limit (copy_count (map seen_copy list.now)) }
{
    if list.len() > COPY_LIMIT {
        return true;
    }
    let mut left = COPY_LIMIT - list.len();
    for copy in list {
        if copy.items.len() > left {
            return true;
        }
        left -= copy.items.len();
    }
    false
}

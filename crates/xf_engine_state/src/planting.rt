//! The data with which a form begins (XForms 1.1, section 4.2.1).

ghost use Rattle.std.specs.Prelude.{◌≡◌, [], true, OnOk};
ghost use Rattle.xf_law_recalculation.specs.Agree.Hung.{are_hung};
ghost use Rattle.xf_def_forest.specs.Changes.{in_detached};
ghost use Rattle.xf_engine_state.specs.Ground.{IsGround, IsGrounded};
ghost use Rattle.xf_engine_state.specs.Parts.{IsLoaded};
ghost use Rattle.xf_engine_state.specs.Planting.{Grows, IsBegun, IsPlanted, document_in, documents_grown, fault_of, planted_by};

use crate::fault::WorkFault;
use crate::flags::Flags;
use crate::growing::NUMBERS;
use crate::holding::held;
use crate::knowing::Knowledge;
use crate::tally::Tally;
use crate::work::Work;
use std::alloc::Global;
use xf_base::limits::{MADE_LIMIT, TURN_LIMIT};
use xf_binds::Table;
use xf_controls::{KnownList, Shown, are_bound, is_plain};
use xf_def_forest::TreeFault;
use xf_def_machine::{LimitWord, Refusal};
use xf_def_syntax::Instance;
use xf_form::{Loaded, lit_at};
use xf_tree::Forest;
use xf_undo::Draft;

/// What a form begins with: its data, what is known of its controls over them, and of each model that nothing is kept and nothing is due.
#[derive(Drop)]
pub struct Ground {
    pub forest: Forest,
    /// How many nodes were made.
    pub made: u64,
    pub is_plain: bool,
    pub bound_nodes: KnownList,
    pub is_bound: bool,
    pub table: Table,
    pub flags: Vec<Flags>,
    pub old_flags: Vec<Flags>,
}

/// A form with its data, of which no model is built yet.
pub fn planted(alloc: Global, loaded: Loaded) -> Result<Work, WorkFault>
    requires { IsLoaded loaded }
    ensures { IsPlanted result (planted_by loaded) }
{
    // All that may fail is done over a loan: the form is dropped at one place.
    match ground_of(alloc, &loaded) {
        Ok(begun) => Ok(work_on(alloc, loaded, begun)),
        Err(fault) => Err(fault),
    }
}

/// A form over its data.
fn work_on(alloc: Global, loaded: Loaded, begun: Ground) -> Work
    requires loaded { IsLoaded loaded }
    requires begun { IsGround loaded begun }
    ensures { IsBegun result (planted_by loaded) }
{
    let tally = Tally {
        accepted: 0,
        turns: TURN_LIMIT,
        made: begun.made,
        evaluated: 0,
    };
    let knowledge = Knowledge {
        known: None,
        is_steady: false,
        is_planted: true,
        is_alone: true,
    };
    Work {
        alloc,
        loaded,
        draft: Draft::new(alloc, begun.forest),
        table: begun.table,
        flags: begun.flags,
        old_flags: begun.old_flags,
        shown: Shown::new(alloc),
        tally,
        old_tally: tally,
        built: 0,
        old_built: 0,
        knowledge,
        old_knowledge: knowledge,
        indexes: Vec::new(alloc),
        old_indexes: Vec::new(alloc),
        cases: Vec::new(alloc),
        old_cases: Vec::new(alloc),
        is_plain: begun.is_plain,
        bound_nodes: begun.bound_nodes,
        is_bound: begun.is_bound,
        first_data: None,
    }
}

/// What a form begins with.
fn ground_of(alloc: Global, loaded: &Loaded) -> Result<Ground, WorkFault>
    requires { IsLoaded loaded.now }
    ensures { IsGrounded result loaded.now }
{
    let count = loaded.form.models.len();
    if count > u32::MAX as usize {
        // No memory holds so many.
        return Err(WorkFault::Memory);
    }
    let table = Table::new(alloc, count as u32)?;
    let flags = vec![in alloc; Flags::none(); count]?;
    let old_flags = vec![in alloc; Flags::none(); count]?;
    let mut forest = Forest::new(alloc);
    let made = plant_all(&mut forest, loaded)?;
    let is_plain = is_plain(&loaded.form);
    let bound_nodes = held(alloc, loaded, &forest, is_plain)?;
    let is_bound = are_bound(&loaded.form, &bound_nodes);
    Ok(Ground {
        forest,
        made,
        is_plain,
        bound_nodes,
        is_bound,
        table,
        flags,
        old_flags,
    })
}

/// Plants the trees of all instances, each under a root. The answer is how many nodes were made.
fn plant_all(forest: &mut Forest, loaded: &Loaded) -> Result<u64, WorkFault>
    requires alone { in_detached forest.old.forest.nodes ≡ [] }
    requires hung { are_hung forest.old.forest.nodes ≡ true }
    ensures done { Grows result loaded.now forest.new.forest (documents_grown loaded.now loaded.now.form.tables.instances forest.old.forest 0) }
    ensures alone { OnOk result (in_detached forest.new.forest.nodes ≡ []) }
    ensures hung { OnOk result (are_hung forest.new.forest.nodes ≡ true) }
{
    let mut made = 0;
    for instance in loaded.form.tables.instances.as_slice() {
        made = plant(forest, loaded, instance, made)?;
    }
    Ok(made)
}

/// Plants the tree of an instance under a root of its own, after so many nodes were made. The answer is how many there are then.
fn plant(
    forest: &mut Forest,
    loaded: &Loaded,
    instance: &Instance,
    made: u64,
) -> Result<u64, WorkFault>
    requires alone { in_detached forest.old.forest.nodes ≡ [] }
    requires hung { are_hung forest.old.forest.nodes ≡ true }
    ensures done { Grows result loaded.now forest.new.forest (document_in loaded.now instance.now forest.old.forest made) }
    ensures alone { OnOk result (in_detached forest.new.forest.nodes ≡ []) }
    ensures hung { OnOk result (are_hung forest.new.forest.nodes ≡ true) }
{
    forest.are_trees();
    let next = forest.next_number();
    if next > NUMBERS {
        return Err(WorkFault::Memory);
    }
    let Some(tree) = lit_at(&loaded.lit, instance.place.as_slice()) else {
        return Err(WorkFault::Memory);
    };
    match forest.plant(tree, &loaded.prefixes, instance.space) {
        Ok(top) => {
            let after = forest.next_number();
            if after > NUMBERS || !forest.may_root(top) {
                return Err(WorkFault::Memory);
            }
            let all = made as u128 + (after - next);
            if all > MADE_LIMIT as u128 {
                return Err(WorkFault::Refused(Refusal::Limit(LimitWord::Made)));
            }
            forest.add_root(top)?;
            Ok(all as u64)
        }
        Err(fault) => Err(fault_of(fault)),
    }
}

/// The limit of the forest that is passed. The names of a form that is loaded have no fault.
pub(crate) fn fault_of(fault: TreeFault) -> WorkFault
    ensures { result ≡ fault_of fault }
{
    match fault {
        TreeFault::Nodes => WorkFault::Refused(Refusal::Limit(LimitWord::Nodes)),
        TreeFault::NodeText => WorkFault::Refused(Refusal::Limit(LimitWord::Text)),
        TreeFault::AllText => WorkFault::Refused(Refusal::Limit(LimitWord::All)),
        TreeFault::Depth => WorkFault::Refused(Refusal::Limit(LimitWord::Depth)),
        _ => WorkFault::Memory,
    }
}

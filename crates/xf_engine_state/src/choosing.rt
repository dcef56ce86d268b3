//! Rows and cases that are chosen (XForms 1.1, sections 9.2, 9.3.1, 10.5 and 10.6).

ghost use Rattle.std.specs.Prelude.{◌≡◌, IfOk, length, map, slice_set};
ghost use Rattle.xf_def_ui.specs.Cases.{first_cases};
ghost use Rattle.xf_def_ui.specs.Interface.{interface_of};
ghost use Rattle.xf_eval_context.specs.Indexes.{seen_index};
ghost use Rattle.xf_def_machine.specs.Choose as choose;
ghost use Rattle.xf_def_machine.specs.Construct.{start_indexes};
ghost use Rattle.xf_def_machine.specs.Primitives as primitives;
ghost use Rattle.xf_def_machine.specs.Surround.{interface};
ghost use Rattle.xf_def_machine.specs.Update as update;
ghost use Rattle.xf_def_form.specs.Formed.{profile};
ghost use Rattle.xf_engine_state.specs.Choosing.{Chooses, HasData, Reindexes, Starts, Surrounds, chosen_in, stopped};
ghost use Rattle.xf_engine_state.specs.Does.{Does};
ghost use Rattle.xf_engine_state.specs.Standing.{Standing, state_of};

use crate::fault::WorkFault;
use crate::showing::told;
use crate::work::Work;
use std::alloc::{AllocError, Global};
use xf_base::limits::PASS_LIMIT;
use xf_binds::NodeSet;
use xf_def_forest::NodeList;
use xf_def_machine::{LimitWord, Refusal};
use xf_eval_context::{Index, Over};
use xf_form::Loaded;
use xf_form_elements::switch::first_cases;
use xf_repeat::{IndexFault, bring_up, set_index, started};
use xf_tree::Forest;
use xf_tree_walks::copied;

impl Work {
    /// Each switch has its first case, and the indexes start: in construction, after the models are built. What is kept has the same.
    pub fn start_rows(&mut self) -> Result<(), WorkFault>
        ensures done { Does result self.new.now (start_indexes profile (record (state_of self.old.now) { cases = first_cases (interface (state_of self.old.now)) })) }
        ensures built { self.new.built ≡ self.old.built }
    {
        let over = surrounding(self.alloc, &self.loaded, self.draft.forest());
        let first = first_chosen(&over)?;
        self.indexes = first.indexes;
        self.old_indexes = first.old_indexes;
        self.cases = first.cases;
        self.old_cases = first.old_cases;
        Ok(())
    }

    /// The indexes are brought up to date where these nodes were just inserted. After an `Err` some may be.
    pub fn reindex(&mut self, added: &NodeList) -> Result<(), WorkFault>
        ensures done { Does result self.new.now (update.reindex profile added.now (state_of self.old.now)) }
        ensures kept { self.new.kept ≡ self.old.kept }
        ensures built { self.new.built ≡ self.old.built }
    {
        let added = set_of(self.alloc, added)?;
        let over = surrounding(self.alloc, &self.loaded, self.draft.forest());
        bring_over(&over, &added, self.indexes.as_mut_slice())
    }

    /// The index of a repeat is set, which flags the refresh of this model. After an `Err` it may be set.
    pub fn set_index(&mut self, model: u32, repeat: u32, index: u64) -> Result<(), WorkFault>
        ensures done { Does result self.new.now (choose.set_index profile model repeat index (state_of self.old.now)) }
        ensures kept { self.new.kept ≡ self.old.kept }
        ensures built { self.new.built ≡ self.old.built }
    {
        self.choose_row(repeat, index)?;
        self.flag_refresh(model);
        Ok(())
    }

    /// The index of a repeat is set.
    fn choose_row(&mut self, repeat: u32, index: u64) -> Result<(), WorkFault>
        ensures done { Does result self.new.now (chosen_in repeat index (state_of self.old.now)) }
        ensures kept { self.new.kept ≡ self.old.kept }
        ensures built { self.new.built ≡ self.old.built }
    {
        let over = surrounding(self.alloc, &self.loaded, self.draft.forest());
        choose_over(&over, repeat, index, self.indexes.as_mut_slice())
    }

    /// Another case of the switch of this number is selected: of one that is not there none is. Takes no memory.
    pub fn set_case(&mut self, switch: u32, place: usize)
        ensures done { state_of self.new.now ≡ primitives.set_case switch place (state_of self.old.now) }
        ensures kept { self.new.kept ≡ self.old.kept }
        ensures built { self.new.built ≡ self.old.built }
    {
        select(self.cases.as_mut_slice(), switch, place);
    }
}

fn select(cases: &mut [usize], switch: u32, place: usize)
    ensures { cases.new ≡ slice_set cases.old switch place }
{
    let at = switch as usize;
    if at < cases.len() {
        cases[at] = place;
    }
}

// ---- over the data of the form

/// What expressions are evaluated over outside an event: the indexes that each sees are given with it.
fn surrounding<'a>(alloc: Global, loaded: &'a Loaded, forest: &'a Forest) -> Over<'a>
    ensures { (s : Standing) → HasData loaded.now.form loaded.now.prefixes forest.now.forest s → Surrounds result (state_of s) }
{
    Over {
        alloc,
        form: &loaded.form,
        prefixes: &loaded.prefixes,
        forest,
        indexes: None,
        told: None,
    }
}

/// What is chosen at first, as it stands and as it is kept.
#[derive(Drop)]
struct FirstChosen {
    indexes: Vec<Index>,
    old_indexes: Vec<Index>,
    cases: Vec<usize>,
    old_cases: Vec<usize>,
}

fn first_chosen(over: &Over<'_>) -> Result<FirstChosen, WorkFault>
    ensures start { Starts (λ first. map seen_index first.indexes.items) over.now result }
    ensures cases { IfOk result (λ first. first.cases.items ≡ first_cases (interface_of over.now.form.now)) }
    ensures many { IfOk result (λ first. (length first.old_indexes.items ≡ length first.indexes.items) × (length first.old_cases.items ≡ length first.cases.items)) }
{
    let indexes = started_over(over)?;
    let old_indexes = Vec::from_slice(over.alloc, indexes.as_slice())?;
    let cases = first_cases(over.alloc, over.form)?;
    let old_cases = Vec::from_slice(over.alloc, cases.as_slice())?;
    Ok(FirstChosen {
        indexes,
        old_indexes,
        cases,
        old_cases,
    })
}

/// The indexes of all repeats, as they start.
fn started_over(over: &Over<'_>) -> Result<Vec<Index>, WorkFault>
    ensures { Starts (λ indexes. map seen_index indexes.items) over.now result }
{
    let mut indexes = match started(over) {
        Ok(indexes) => indexes,
        Err(fault) => return Err(told(fault)),
    };
    let nothing = NodeSet::new(over.alloc);
    bring_over(over, &nothing, indexes.as_mut_slice())?;
    Ok(indexes)
}

/// The indexes are brought up to date where these nodes were just inserted.
fn bring_over(over: &Over<'_>, added: &NodeSet, indexes: &mut [Index]) -> Result<(), WorkFault>
    ensures { Reindexes over.now added.now (map seen_index indexes.old) (map seen_index indexes.new) result }
{
    match bring_up(over, PASS_LIMIT, added, indexes) {
        Ok(()) => Ok(()),
        Err(fault) => Err(stopped(fault)),
    }
}

/// The index of a repeat is set.
fn choose_over(
    over: &Over<'_>,
    repeat: u32,
    index: u64,
    indexes: &mut [Index],
) -> Result<(), WorkFault>
    ensures { Chooses over.now repeat index (map seen_index indexes.old) (map seen_index indexes.new) result }
{
    match set_index(over, repeat, index, indexes) {
        Ok(()) => Ok(()),
        Err(fault) => Err(told(fault)),
    }
}

/// What stood in the way of the indexes.
fn stopped(fault: IndexFault) -> WorkFault
    ensures { result ≡ stopped fault }
{
    match fault {
        IndexFault::Long => WorkFault::Refused(Refusal::Limit(LimitWord::Long)),
        IndexFault::Passes => WorkFault::Refused(Refusal::Limit(LimitWord::Passes)),
        IndexFault::Memory => WorkFault::Memory,
    }
}

/// The nodes of a list.
fn set_of(alloc: Global, nodes: &NodeList) -> Result<NodeSet, AllocError>
    ensures { IfOk result (λ all. all ≡ nodes.now) }
{
    let list = copied(alloc, nodes.as_slice())?;
    NodeSet::of(alloc, list)
}

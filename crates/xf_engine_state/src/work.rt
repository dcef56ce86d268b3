//! What an engine works on, and what is read of it.

ghost use Rattle.std.specs.Prelude.{◌≡◌, ◌<◌, ◌++◌, None, find, length, map, option_map, string_bytes, IfErr, OnOk};
ghost use Rattle.xf_controls.specs.Seen.{is_copy_at, seen_copy};
ghost use Rattle.xf_eval_context.specs.Indexes.{seen_index};
ghost use Rattle.xf_def_forest.specs.Changes.{root_of};
ghost use Rattle.xf_def_machine.specs.Behave.{model_at};
ghost use Rattle.xf_def_machine.specs.ControlText.{state_text};
ghost use Rattle.xf_def_machine.specs.Primitives.{spend as spent};
ghost use Rattle.xf_def_machine.specs.Update as update;
ghost use Rattle.xf_def_machine.specs.Properties.{marks_in, readonly_in};
ghost use Rattle.xf_def_form.specs.Formed.{documents_in, profile, program_in};
ghost use Rattle.xf_def_machine.specs.declared.refusal.Refusal.TheVariants.{Budget};
ghost use Rattle.xf_engine_state.specs.declared.fault.WorkFault.TheVariants.{Refused};
ghost use Rattle.xf_engine_state.specs.Does.{Does};
ghost use Rattle.xf_engine_state.specs.Flags.{flag_of};
ghost use Rattle.xf_engine_state.specs.Held.{last_place};
ghost use Rattle.xf_engine_state.specs.Marked.{properties_of};
ghost use Rattle.xf_engine_state.specs.Standing.{state_of};

use crate::fault::WorkFault;
use crate::flags::{Flag, Flags, is_due, is_refresh_due};
use crate::knowing::Knowledge;
use crate::marks::Marked;
use crate::tally::Tally;
use crate::telling::{Telling, push_text};
use std::alloc::{AllocError, Global};
use std::marker::Model;
use xf_binds::Table;
use xf_controls::{ControlCopy, KnownList, Shown, control_of};
use xf_def_forest::{BareList, NodeId};
use xf_def_machine::Refusal;
use xf_def_syntax::Form;
use xf_eval_context::Index;
use xf_form::Loaded;
use xf_tree::Forest;
use xf_undo::Draft;
use xf_valid::marks_at;

/// What an engine works on. Contracts see the states at the end of the last event and as it stands, and how many models are built.
#[derive(Drop)]
pub struct Work {
    pub(crate) alloc: Global,
    pub(crate) loaded: Loaded,
    pub(crate) draft: Draft,
    pub(crate) table: Table,
    pub(crate) flags: Vec<Flags>,
    pub(crate) old_flags: Vec<Flags>,
    pub(crate) shown: Shown,
    pub(crate) tally: Tally,
    pub(crate) old_tally: Tally,
    pub(crate) built: u64,
    pub(crate) old_built: u64,
    // What is known of what stands, and of what was kept.
    pub(crate) knowledge: Knowledge,
    pub(crate) old_knowledge: Knowledge,
    // Of each repeat its index, as it stands and as it was kept.
    pub(crate) indexes: Vec<Index>,
    pub(crate) old_indexes: Vec<Index>,
    // Of each switch its selected case, from 0.
    pub(crate) cases: Vec<usize>,
    pub(crate) old_cases: Vec<usize>,
    // Whether each control and container has one copy.
    pub(crate) is_plain: bool,
    // The nodes that controls of such a form bind whatever texts the data have.
    pub(crate) bound_nodes: KnownList,
    // Whether these are all that is shown.
    pub(crate) is_bound: bool,
    // Of each instance the document element as construction left it, once it has ended.
    pub(crate) first_data: Option<BareList>,
}

impl Model for Work {
    ghost use Rattle.std.specs.Coded.{codes};
    ghost use Rattle.xf_def_syntax.specs.contracts.expr.Expr as expr;
    ghost use Rattle.xf_binds.specs.Table.{all_rolled_back};
    ghost use Rattle.xf_engine_state.specs.Does.{Twin};
    ghost use Rattle.xf_engine_state.specs.Fit.{IsFit};
    ghost use Rattle.xf_engine_state.specs.Parts.{chosen_of, standing_of};

    ghost Value = { Twin };

    ghost coded = { Prim.hlevel (codes, expr.the_row.coded) };

    ghost view = { λ w. record {
      kept = record {
        standing = standing_of (chosen_of w.old_indexes.items w.old_cases.items) w.loaded w.draft.kept (all_rolled_back w.table) w.old_flags.items w.shown.kept w.old_tally;
        built = w.old_built;
      };
      now = standing_of (chosen_of w.indexes.items w.cases.items) w.loaded w.draft.now w.table w.flags.items w.shown.now w.tally;
      built = w.built;
    } };

    ghost invariant = { IsFit };
}

impl Work {
    /// How many models the form has.
    pub fn model_count(&self) -> u32
        ensures { result ≡ length self.now.now.models }
    {
        self.flags.len() as u32
    }

    /// The form with what was read beside it.
    pub fn loaded(&self) -> &Loaded
        ensures form { result.now.form ≡ self.now.now.form }
        ensures prefixes { result.now.prefixes ≡ self.now.now.prefixes }
        ensures documents { documents_in result.now ≡ self.now.now.documents }
        ensures program { program_in result.now ≡ (state_of self.now.now).form }
    {
        &self.loaded
    }

    /// The data.
    pub fn forest(&self) -> &Forest
        ensures { result.now.forest ≡ self.now.now.forest }
    {
        self.draft.forest()
    }

    /// The form.
    pub fn form(&self) -> &Form
        ensures { result.now ≡ self.now.now.form }
    {
        &self.loaded.form
    }

    /// The turns that are left of the event that is handled.
    pub fn turns(&self) -> u32
        ensures { result ≡ self.now.now.turns }
    {
        self.tally.turns
    }

    /// No root of the data stands where 32 bits do not number its place. This tells contracts so, and does nothing.
    pub fn few_roots(&self)
        ensures { root_of last_place self.now.now.forest.nodes ≡ None }
    {
        let _ = &self.loaded;
    }

    /// How many models are built: those whose numbers are below this one.
    pub fn built(&self) -> u64
        ensures { result ≡ self.now.built }
    {
        self.built
    }

    /// What is kept is of the form that stands. This tells contracts so, and does nothing.
    pub fn same_form(&self)
        ensures { (state_of self.now.kept.standing).form ≡ (state_of self.now.now).form }
    {
        let _ = &self.loaded;
    }

    /// Spends a turn. It is refused where none is left, and for nothing else.
    pub fn spend(&mut self) -> Result<(), WorkFault>
        ensures done { Does result self.new.now (spent (state_of self.old.now)) }
        ensures cause { IfErr result (λ fault. fault ≡ Refused Budget) }
        ensures kept { self.new.kept ≡ self.old.kept }
        ensures built { self.new.built ≡ self.old.built }
    {
        match self.tally.spent() {
            Some(tally) => {
                self.tally = tally;
                Ok(())
            }
            None => Err(WorkFault::Refused(Refusal::Budget)),
        }
    }

    /// Whether a behaviour of one of the models is due.
    pub fn is_due(&self) -> bool
        ensures { result ≡ update.is_due (state_of self.now.now) }
    {
        is_due(self.flags.as_slice())
    }

    /// Whether the refresh of one of the models is due.
    pub fn is_refresh_due(&self) -> bool
        ensures { result ≡ update.is_refresh_due (state_of self.now.now) }
    {
        is_refresh_due(self.flags.as_slice())
    }

    /// Whether a behaviour of a model is due.
    pub fn is_flagged(&self, model: u32, flag: Flag) -> bool
        requires { model < length self.now.now.models }
        ensures { result ≡ flag_of flag (model_at (state_of self.now.now) model).flags }
    {
        self.flags[model as usize].has(flag)
    }

    /// Whether a node is readonly. One that does not stand in the data has nothing above it.
    pub fn is_readonly(&self, node: NodeId) -> bool
        ensures { result ≡ readonly_in (state_of self.now.now) node.number }
    {
        marks_at(self.draft.forest(), &self.table, node).readonly
    }

    /// The data with the properties of their nodes.
    pub fn marks(&self) -> Marked<'_>
        ensures { properties_of result ≡ marks_in (state_of self.now.now) }
    {
        Marked {
            forest: self.draft.forest(),
            table: &self.table,
        }
    }

    /// The index of each repeat, with the node at it.
    pub fn indexes(&self) -> &[Index]
        ensures { map seen_index result.now ≡ self.now.now.indexes }
    {
        self.indexes.as_slice()
    }

    /// The selected case of each switch, from 0.
    pub fn cases(&self) -> &[usize]
        ensures { result.now ≡ self.now.now.cases }
    {
        self.cases.as_slice()
    }

    /// The copy of an element in these rows of the repeats around it, the outermost first.
    pub fn control(&self, element: u32, rows: &[NodeId]) -> Option<&ControlCopy>
        ensures { option_map (λ c. seen_copy c.now) result ≡ find (is_copy_at element (map (λ n. n.number) rows.now)) self.now.now.controls }
    {
        control_of(self.shown.list(), element, rows)
    }

    /// How many events were accepted.
    pub fn accepted(&self) -> u64
        ensures { result ≡ self.now.now.accepted }
    {
        self.tally.accepted
    }

    /// How many evaluations the event made that is handled.
    pub fn evaluated(&self) -> u64
        ensures { result ≡ self.now.now.evaluated }
    {
        self.tally.evaluated
    }

    /// Appends the text of the state.
    pub fn push_text(&self, text: &mut String) -> Result<(), AllocError>
        ensures { OnOk result (string_bytes text.new ≡ string_bytes text.old ++ state_text profile (state_of self.now.now)) }
    {
        let telling = Telling {
            loaded: &self.loaded,
            forest: self.draft.forest(),
            table: &self.table,
            indexes: self.indexes.as_slice(),
            cases: self.cases.as_slice(),
            controls: self.shown.list(),
        };
        push_text(self.alloc, &telling, text)
    }
}

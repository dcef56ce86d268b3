//! The behaviours of models (XForms 1.1, sections 4.3.1 to 4.3.4).

ghost use Rattle.std.specs.Prelude.{◌≡◌, ◌≤◌, ◌<◌, length, Ok};
ghost use Rattle.xf_def_forest.specs.Shape.{has_elements};
ghost use Rattle.xf_def_machine.specs.Behave as machine;
ghost use Rattle.xf_def_machine.specs.Primitives.{in_model, refresh_due, set_text as text_set};
ghost use Rattle.xf_def_machine.specs.SetValue.{unless_parent};
ghost use Rattle.xf_def_machine.specs.Surround.{all_in};
ghost use Rattle.xf_def_form.specs.Formed.{profile};
ghost use Rattle.xf_engine_state.specs.Does.{Does, built_after};
ghost use Rattle.xf_engine_state.specs.Standing.{state_of};

use crate::fault::WorkFault;
use crate::flags::{Flag, clear, is_rebuild_due, set_refresh};
use crate::growing::grown;
use crate::knowing::{known_of, known_still, marks_for};
use crate::rebuilding::rebuild;
use crate::recalculating::settle_texts;
use crate::setting::{holder, is_other, mark, may_set, set_text};
use crate::work::Work;
use xf_def_forest::NodeId;
use xf_recalc_pertinent::{pertinent_count, pertinent_marks};
use xf_valid::revalidate;

impl Work {
    /// Applies the binds of a model.
    pub fn rebuild(&mut self, model: u32) -> Result<(), WorkFault>
        requires model { model < length self.old.now.models }
        requires built { model ≤ self.old.built }
        ensures done { Does result self.new.now (machine.rebuild profile model (state_of self.old.now)) }
        ensures kept { self.new.kept ≡ self.old.kept }
        ensures built { self.new.built ≡ built_after result model self.old.built }
        ensures models { length self.new.now.models ≡ length self.old.now.models }
    {
        let forest = self.draft.forest();
        match rebuild(self.alloc, &self.loaded, forest, model, &mut self.table) {
            Ok(()) => {
                self.knowledge.is_steady = false;
                clear(self.flags.as_mut_slice(), model, Flag::Rebuild);
                self.built = self.built.max(model as u64 + 1);
                Ok(())
            }
            Err(fault) => Err(fault),
        }
    }

    /// Settles the texts that are calculated, and evaluates the other entries: the pertinent ones alone, where the last recalculation of the model
    /// is known. A model whose rebuild is due is refused for want of memory.
    pub fn recalculate(&mut self, model: u32) -> Result<(), WorkFault>
        requires model { model < length self.old.now.models }
        requires built { model < self.old.built }
        ensures done { Does result self.new.now (machine.recalculate profile model (state_of self.old.now)) }
        ensures kept { self.new.kept ≡ self.old.kept }
        ensures built { self.new.built ≡ self.old.built }
        ensures models { length self.new.now.models ≡ length self.old.now.models }
    {
        if is_rebuild_due(self.flags.as_slice(), model) {
            // Nobody asks it then: the rebuild of a model goes before.
            return Err(WorkFault::Memory);
        }
        let tables = &self.loaded.form.tables;
        let forest = self.draft.forest();
        let marks = pertinent_marks(self.alloc, tables, forest, &self.table, model)?;
        let count = pertinent_count(&marks);
        let known = self.knowledge.known;
        self.knowledge.known = None;
        let before = self.draft.forest().next_number();
        let truths = settle_texts(
            self.alloc,
            &self.loaded,
            &mut self.draft,
            model,
            &self.table,
            marks_for(&marks, known, model),
        )?;
        let made = self.draft.forest().next_number() - before;
        self.tally = grown(self.tally, made, count)?;
        self.knowledge.is_steady = self.knowledge.is_steady
            && self.table.keeps_properties(model, &truths);
        self.table.recalculated(model, truths);
        self.knowledge.known = known_of(self.knowledge.is_alone, model);
        clear(self.flags.as_mut_slice(), model, Flag::Recalculate);
        Ok(())
    }

    /// Finds the nodes of a model that are not valid.
    pub fn revalidate(&mut self, model: u32) -> Result<(), WorkFault>
        requires model { model < length self.old.now.models }
        ensures done { Does result self.new.now (Ok (machine.revalidate profile model (state_of self.old.now))) }
        ensures kept { self.new.kept ≡ self.old.kept }
        ensures built { self.new.built ≡ self.old.built }
        ensures models { length self.new.now.models ≡ length self.old.now.models }
    {
        let forest = self.draft.forest();
        let is_same = revalidate(
            self.alloc,
            &self.loaded.form.tables,
            forest,
            model,
            &mut self.table,
        )?;
        self.knowledge.is_steady = self.knowledge.is_steady && is_same;
        clear(self.flags.as_mut_slice(), model, Flag::Revalidate);
        Ok(())
    }

    /// The refresh of a model is due: of one that is not there none is. Takes no memory.
    pub fn flag_refresh(&mut self, model: u32)
        ensures now { state_of self.new.now ≡ in_model refresh_due model (state_of self.old.now) }
        ensures kept { self.new.kept ≡ self.old.kept }
        ensures built { self.new.built ≡ self.old.built }
    {
        set_refresh(self.flags.as_mut_slice(), model, true);
    }

    /// Refuses where the node has element children: such an element has no text of its own.
    pub fn may_set(&self, node: NodeId) -> Result<(), WorkFault>
        ensures { Does result self.now.now (unless_parent (has_elements (all_in (state_of self.now.now)) node.number) node.number (λ s. Ok s) (state_of self.now.now)) }
    {
        let instances = self.loaded.form.tables.instances.as_slice();
        may_set(self.alloc, instances, self.draft.forest(), node)
    }

    /// Sets the text of a node of which it was asked before whether it may be set.
    pub fn set_text(&mut self, node: NodeId, text: &str) -> Result<(), WorkFault>
        ensures done { Does result self.new.now (text_set profile node.number text.now (state_of self.old.now)) }
        ensures kept { self.new.kept ≡ self.old.kept }
        ensures built { self.new.built ≡ self.old.built }
        ensures models { length self.new.now.models ≡ length self.old.now.models }
    {
        let instances = self.loaded.form.tables.instances.as_slice();
        let forest = self.draft.forest();
        if !forest.may_set_text(node) {
            // A node that may not be set is not set: it was asked before, and stands until the event ends.
            return Err(WorkFault::Memory);
        }
        let holder = holder(instances, forest, node)?;
        let is_other = is_other(forest, node, text)?;
        forest.are_trees();
        let stood = forest.has_text(node, text);
        let known = known_still(self.knowledge.known, holder, is_other, stood);
        self.knowledge.known = None;
        let made = set_text(&mut self.draft, node, text)?;
        self.draft.forest().are_trees();
        self.tally = grown(self.tally, made, 0)?;
        mark(
            &mut self.table,
            self.flags.as_mut_slice(),
            holder,
            node,
            is_other,
        )?;
        self.knowledge.known = known;
        Ok(())
    }
}

//! Trees that come and go (XForms 1.1, sections 10.3, 10.4, 4.3.7 and 11.2): copies, trees that are attached and detached, the data that a reset puts
//! back, and the tree that comes in place of the target of a submission.

ghost use Rattle.std.specs.Prelude.{◌≡◌, true, Ok, IfErr};
ghost use Rattle.xf_def_forest.specs.Plant.{contents_of};
ghost use Rattle.xf_def_machine.specs.Construct.{construct, first_contents, put_back, replace as replaced};
ghost use Rattle.xf_def_machine.specs.Primitives.{attach as attached, copy as copied, detach as detached, plant as planted};
ghost use Rattle.xf_def_machine.specs.Submit.{is_element_in};
ghost use Rattle.xf_def_form.specs.Formed.{profile};
ghost use Rattle.xf_engine_state.specs.Does.{Does, Makes};
ghost use Rattle.xf_engine_state.specs.Moving.{IsPlantable};
ghost use Rattle.xf_engine_state.specs.Standing.{state_of};

use crate::around::document;
use crate::fault::WorkFault;
use crate::first::documents_in;
use crate::growing::grown;
use crate::knowing::Knowledge;
use crate::moving::{
    are_counted, attach_in, copy_in, is_copyable, mark_list, parent_to_come, parent_to_leave,
    plant_in, plant_literal_in,
};
use crate::work::Work;
use xf_def_forest::{Bare, NodeId};
use xf_name::Lit;

impl Work {
    /// A copy of the tree of an element or attribute comes as a detached one. The answer is its top.
    pub fn copy(&mut self, node: NodeId) -> Result<NodeId, WorkFault>
        ensures done { Makes (λ n. n.number) result self.new.now (copied profile node.number (state_of self.old.now)) }
        ensures kept { self.new.kept ≡ self.old.kept }
        ensures built { self.new.built ≡ self.old.built }
    {
        let forest = self.draft.forest();
        if !is_copyable(forest, node) {
            // An insert copies elements and attributes that stand in the data.
            return Err(WorkFault::Memory);
        }
        are_counted(forest);
        self.knowledge = Knowledge::nothing();
        let copied = copy_in(&mut self.draft, &mut self.tally, node);
        are_counted(self.draft.forest());
        copied
    }

    /// A detached tree comes below a parent: an element behind so many children, an attribute by its name.
    pub fn attach(&mut self, node: NodeId, parent: NodeId, place: u32) -> Result<(), WorkFault>
        ensures done { Does result self.new.now (attached profile node.number parent.number place (state_of self.old.now)) }
        ensures kept { self.new.kept ≡ self.old.kept }
        ensures built { self.new.built ≡ self.old.built }
    {
        let instances = self.loaded.form.tables.instances.as_slice();
        let forest = self.draft.forest();
        are_counted(forest);
        let holder = parent_to_come(instances, forest, node, parent, place)?;
        let tally = grown(self.tally, 0, 0)?;
        self.knowledge = Knowledge::nothing();
        mark_list(&mut self.table, self.flags.as_mut_slice(), holder, parent)?;
        attach_in(&mut self.draft, node, parent, place)?;
        are_counted(self.draft.forest());
        self.tally = tally;
        Ok(())
    }

    /// A tree is cut off its parent.
    pub fn detach(&mut self, node: NodeId) -> Result<(), WorkFault>
        ensures done { Does result self.new.now (Ok (detached node.number (state_of self.old.now))) }
        ensures kept { self.new.kept ≡ self.old.kept }
        ensures built { self.new.built ≡ self.old.built }
    {
        let instances = self.loaded.form.tables.instances.as_slice();
        let forest = self.draft.forest();
        are_counted(forest);
        let (parent, holder) = parent_to_leave(instances, forest, node)?;
        self.knowledge = Knowledge::nothing();
        mark_list(&mut self.table, self.flags.as_mut_slice(), holder, parent)?;
        self.draft.detach(node)?;
        are_counted(self.draft.forest());
        Ok(())
    }

    /// Keeps the data as construction left them, which a reset puts back: it has just ended.
    pub fn keep_first_data(&mut self) -> Result<(), WorkFault>
        requires { construct profile (state_of self.old.now).form ≡ Ok (state_of self.old.now) }
        ensures now { self.new.now ≡ self.old.now }
        ensures kept { self.new.kept ≡ self.old.kept }
        ensures built { self.new.built ≡ self.old.built }
        ensures fault { IfErr result (λ fault. fault ≡ WorkFault.Memory) }
    {
        if !self.knowledge.is_planted {
            // Construction plants trees and settles texts, which leaves the shape of the data as it is.
            return Err(WorkFault::Memory);
        }
        let forest = self.draft.forest();
        are_counted(forest);
        let trees = documents_in(self.alloc, &self.loaded, forest)?;
        self.first_data = Some(trees);
        Ok(())
    }

    /// The document element of an instance as construction left it, in place of the one that stands.
    pub fn put_back(&mut self, instance: u32) -> Result<(), WorkFault>
        ensures done { Does result self.new.now (put_back profile (construct profile (state_of self.old.now).form) instance (state_of self.old.now)) }
        ensures kept { self.new.kept ≡ self.old.kept }
        ensures built { self.new.built ≡ self.old.built }
    {
        let forest = self.draft.forest();
        forest.are_trees();
        let Some(node) = document(forest, instance) else {
            return Ok(());
        };
        let Some(root) = forest.root(instance) else {
            return Ok(());
        };
        let top = self.plant_first(instance)?;
        self.detach(node)?;
        self.attach(top, root, 0)
    }

    /// The document element of an instance as construction left it comes as a detached tree. The answer is its top.
    fn plant_first(&mut self, instance: u32) -> Result<NodeId, WorkFault>
        ensures done { Makes (λ n. n.number) result self.new.now (planted profile (first_contents (construct profile (state_of self.old.now).form) instance) (state_of self.old.now)) }
        ensures form { (state_of self.new.now).form ≡ (state_of self.old.now).form }
        ensures kept { self.new.kept ≡ self.old.kept }
        ensures built { self.new.built ≡ self.old.built }
    {
        let Some(trees) = &self.first_data else {
            // No event comes before construction has ended.
            return Err(WorkFault::Memory);
        };
        let Some(tree) = trees.get(instance as usize) else {
            // Each instance has data when construction has ended.
            return Err(WorkFault::Memory);
        };
        match tree {
            Bare::Element(_) => {
                are_counted(self.draft.forest());
                self.knowledge = Knowledge::nothing();
                let planted = plant_in(
                    &mut self.draft,
                    &mut self.tally,
                    tree,
                    &self.loaded.prefixes,
                );
                are_counted(self.draft.forest());
                planted
            }
            // A document element is an element.
            Bare::Text(_) => unreachable!(),
        }
    }

    /// A literal tree in place of an element: nothing where that has no parent.
    pub fn replace(&mut self, node: NodeId, lit: &Lit) -> Result<(), WorkFault>
        requires element { is_element_in (state_of self.old.now) node.number ≡ true }
        requires tree { IsPlantable (state_of self.old.now).form.bindings lit.now }
        ensures done { Does result self.new.now (replaced profile node.number (contents_of (state_of self.old.now).form.bindings lit.now 0 0) (state_of self.old.now)) }
        ensures kept { self.new.kept ≡ self.old.kept }
        ensures built { self.new.built ≡ self.old.built }
    {
        let Some((parent, place)) = self.draft.forest().standing(node) else {
            return Ok(());
        };
        let top = self.plant_literal(lit)?;
        self.detach(node)?;
        self.attach(top, parent, place)
    }

    /// The tree of an element, whose names have no fault, comes as a detached tree. The answer is its top.
    fn plant_literal(&mut self, lit: &Lit) -> Result<NodeId, WorkFault>
        requires { IsPlantable (state_of self.old.now).form.bindings lit.now }
        ensures done { Makes (λ n. n.number) result self.new.now (planted profile (contents_of (state_of self.old.now).form.bindings lit.now 0 0) (state_of self.old.now)) }
        ensures form { (state_of self.new.now).form ≡ (state_of self.old.now).form }
        ensures kept { self.new.kept ≡ self.old.kept }
        ensures built { self.new.built ≡ self.old.built }
    {
        are_counted(self.draft.forest());
        self.knowledge = Knowledge::nothing();
        let planted = plant_literal_in(
            &mut self.draft,
            &mut self.tally,
            lit,
            &self.loaded.prefixes,
        );
        are_counted(self.draft.forest());
        planted
    }
}

//! The refresh (XForms 1.1, section 4.3.4).

ghost use Rattle.std.specs.Prelude.{◌≡◌, map, true, IfOk, Ok};
ghost use Rattle.xf_controls.specs.Plain.{is_plain};
ghost use Rattle.xf_controls.specs.Renewed.{AreThere, renewed};
ghost use Rattle.xf_controls.specs.Rising.{is_rising};
ghost use Rattle.xf_controls.specs.Seen.{seen_copy, seen_notification};
ghost use Rattle.xf_def_ui.specs.Notifications.{notifications};
ghost use Rattle.xf_def_machine.specs.Construct.{first_shown};
ghost use Rattle.xf_def_ui.specs.Interface.{interface_of};
ghost use Rattle.xf_def_machine.specs.Update as update;
ghost use Rattle.xf_engine_state.specs.Calls.{Refreshes, Renews, ShowsOthers};
ghost use Rattle.xf_def_form.specs.Formed.{profile};
ghost use Rattle.xf_engine_state.specs.Does.{Does, Finds};
ghost use Rattle.xf_engine_state.specs.Standing.{state_of};

use crate::fault::WorkFault;
use crate::flags::{clear_refresh, set_refresh};
use crate::knowing::{may_be_steady, may_renew};
use crate::showing::{Choice, shown, shown_in_rows, told};
use crate::work::Work;
use std::alloc::Global;
use xf_base::Items;
use xf_controls::{ControlList, NotificationList, Shown, notifications};
use xf_def_forest::NodeList;
use xf_tree::Forest;

impl Work {
    /// Shows the controls for the first time, or again: nothing is told of differences.
    pub fn show(&mut self) -> Result<(), WorkFault>
        ensures done { Does result self.new.now (first_shown profile (state_of self.old.now)) }
        ensures kept { self.new.kept ≡ self.old.kept }
        ensures built { self.new.built ≡ self.old.built }
    {
        let list = self.made_afresh()?;
        self.take_controls(list);
        Ok(())
    }

    /// Brings the indexes up to date and makes the controls afresh, and no refresh is due any more. The answer is what is told of the differences.
    pub fn refresh(&mut self) -> Result<NotificationList, WorkFault>
        ensures done { Refreshes update.all_cleared result self.old.now self.new.now }
        ensures kept { self.new.kept ≡ self.old.kept }
        ensures built { self.new.built ≡ self.old.built }
    {
        let told = self.show_brought()?;
        clear_refresh(self.flags.as_mut_slice());
        Ok(told)
    }

    /// The same, while the refresh of this model alone is due no more: that of one that is not there is not due.
    pub fn refresh_model(&mut self, model: u32) -> Result<NotificationList, WorkFault>
        ensures done { Refreshes (update.refresh_cleared model) result self.old.now self.new.now }
        ensures kept { self.new.kept ≡ self.old.kept }
        ensures built { self.new.built ≡ self.old.built }
    {
        let told = self.show_brought()?;
        set_refresh(self.flags.as_mut_slice(), model, false);
        Ok(told)
    }

    /// Brings the indexes up to date and makes the controls afresh, while what is due stays so.
    fn show_brought(&mut self) -> Result<NotificationList, WorkFault>
        ensures done { Refreshes (λ s. s) result self.old.now self.new.now }
        ensures kept { self.new.kept ≡ self.old.kept }
        ensures built { self.new.built ≡ self.old.built }
    {
        let added = NodeList::new(self.alloc);
        match self.reindex(&added) {
            Ok(()) => self.show_again(),
            Err(fault) => Err(fault),
        }
    }

    /// Makes the controls afresh, while what is due stays so. Where texts alone have changed since the last refresh, the values of the nodes of
    /// copies are looked at alone.
    fn show_again(&mut self) -> Result<NotificationList, WorkFault>
        ensures done { ShowsOthers result self.old.now self.new.now }
        ensures kept { self.new.kept ≡ self.old.kept }
        ensures built { self.new.built ≡ self.old.built }
    {
        if may_renew(self.knowledge) {
            self.knowledge.is_steady = false;
            let forest = self.draft.forest();
            forest.are_trees();
            let told = renew(self.alloc, forest, &mut self.shown)?;
            self.knowledge.is_steady = true;
            return Ok(told);
        }
        self.show_others()
    }

    /// The same of any controls.
    fn show_others(&mut self) -> Result<NotificationList, WorkFault>
        ensures done { ShowsOthers result self.old.now self.new.now }
        ensures kept { self.new.kept ≡ self.old.kept }
        ensures built { self.new.built ≡ self.old.built }
    {
        let list = self.made_afresh()?;
        let told = notifications(self.alloc, self.shown.list(), &list)?;
        self.take_controls(list);
        Ok(told)
    }

    /// The controls made afresh.
    fn made_afresh(&self) -> Result<ControlList, WorkFault>
        ensures { Finds (map seen_copy) result (update.shown profile (state_of self.now.now)) }
    {
        if self.is_plain {
            return self.made_plainly();
        }
        let choice = Choice {
            indexes: self.indexes.as_slice(),
            cases: self.cases.as_slice(),
        };
        shown_in_rows(
            self.alloc,
            &self.loaded,
            self.draft.forest(),
            &self.table,
            choice,
        )
    }

    /// Those of a plain form. Over data of another shape than that which was planted nothing is known of their nodes.
    fn made_plainly(&self) -> Result<ControlList, WorkFault>
        requires { is_plain (interface_of self.now.now.form) ≡ true }
        ensures { Finds (map seen_copy) result (update.shown profile (state_of self.now.now)) }
    {
        let forest = self.draft.forest();
        forest.are_trees();
        if self.knowledge.is_planted {
            return shown(
                self.alloc,
                &self.loaded,
                forest,
                &self.table,
                &self.bound_nodes,
            );
        }
        let nothing = Items::new(self.alloc);
        shown(self.alloc, &self.loaded, forest, &self.table, &nothing)
    }

    /// Takes these controls, which were made afresh.
    fn take_controls(&mut self, list: ControlList)
        requires { update.shown profile (state_of self.old.now) ≡ Ok (map seen_copy list) }
        ensures now { self.new.now ≡ record self.old.now { controls = map seen_copy list } }
        ensures kept { self.new.kept ≡ self.old.kept }
        ensures built { self.new.built ≡ self.old.built }
    {
        self.draft.forest().are_trees();
        self.shown.take(list);
        let may_be = may_be_steady(self.knowledge, self.is_plain, self.is_bound);
        self.knowledge.is_steady = may_be && self.shown.is_rising();
    }
}

/// Gives each copy the value that its node has now. The answer is what is told of the differences.
fn renew(alloc: Global, forest: &Forest, shown: &mut Shown) -> Result<NotificationList, WorkFault>
    requires there { AreThere shown.old.now forest.now.forest.nodes }
    requires rising { is_rising shown.old.now ≡ true }
    ensures done { Renews result (renewed forest.now.forest.nodes shown.old.now) shown.new.now }
    ensures told { IfOk result (λ all. map seen_notification all ≡ notifications (map seen_copy shown.old.now) (map seen_copy shown.new.now)) }
    ensures kept { shown.new.kept ≡ shown.old.kept }
{
    match shown.renew(alloc, forest) {
        Ok(all) => Ok(all),
        Err(fault) => Err(told(fault)),
    }
}

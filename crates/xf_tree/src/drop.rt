//! Trees and kept texts that are dropped.
ghost use Rattle.std.specs.Prelude.{◌≡◌};
ghost use Rattle.xf_def_forest.specs.Needs.{MayDropFrom};
ghost use Rattle.xf_def_forest.specs.Texts.{without_detached, without_from};

use crate::forest::Forest;
use xf_tree_changes::{drop_kept, drop_newer, free_rows};
use xf_tree_rows::slice;
use xf_tree_walks::tops_end;

impl Forest {
    /// Drops all detached trees and all kept texts. Takes no memory.
    pub fn drop_detached(&mut self)
        ensures { self.new ≡ without_detached self.old }
    {
        let end = tops_end(&self.rows, &self.slots);
        free_rows(
            &mut self.slots,
            &slice(&self.rows, end, self.rows.len()),
            &mut self.count,
            &mut self.bytes,
        );
        drop_kept(&mut self.slots, &mut self.kept);
        self.rows.truncate(end);
    }

    /// Drops all nodes with this number or a later one, and all kept texts, and makes this the next number. Takes no
    /// memory.
    pub fn drop_from(&mut self, number: u128)
        requires { MayDropFrom number self.old.forest }
        ensures { self.new ≡ without_from number self.old }
    {
        // What is new stands in trees of its own, and none of these is an instance's.
        let from = tops_end(&self.rows, &self.slots);
        drop_newer(
            &mut self.rows,
            &mut self.slots,
            &mut self.hints,
            from,
            number,
            &mut self.count,
            &mut self.bytes,
        );
        drop_kept(&mut self.slots, &mut self.kept);
        self.next = number;
    }
}

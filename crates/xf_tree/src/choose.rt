//! The nodes on an axis: all of them, those that are sought, and the one at a place among these.
ghost use Rattle.std.specs.Prelude.{◌≡◌, ◌++◌, OnOk, option_map, slice_get};
ghost use Rattle.xf_def_forest.specs.Forest.{IsLive};
ghost use Rattle.xf_def_forest.specs.Visit.{visits};
ghost use Rattle.xf_def_forest.specs.Axis.{axis_of};
ghost use Rattle.xf_tree_contents.specs.Sought.{met_on};

use crate::forest::Forest;
use std::alloc::AllocError;
use xf_def_forest::{NodeId, NodeList};
use xf_name::Axis;
use xf_tree_contents::{Sought, number_of};
use xf_tree_walks::{Walk, no_walk, push_on_axis, row_of, row_on_axis, walk_from};

impl Forest {
    /// The nodes on an axis from a node, in proximity order (XPath 1.0, section 2.4).
    pub fn axis(&self, node: NodeId, axis: Axis) -> Walk<'_>
        requires { IsLive node.number self.now.forest }
        ensures { result ≡ axis_of axis node.number (visits self.now.forest.nodes) }
    {
        match row_of(&self.rows, &self.slots, &self.hints, node) {
            Some(at) => walk_from(&self.rows, &self.slots, &self.hints, at, axis),
            None => no_walk(&self.rows, &self.slots, &self.hints),
        }
    }

    /// Puts behind other nodes those on an axis from a node that are sought, in proximity order (XPath 1.0, sections 2.3 and 2.4). It
    /// costs what the walk costs and a look at what each node is: no name is fetched where only the kind is asked.
    pub fn choose(
        &self,
        found: &mut NodeList,
        from: NodeId,
        axis: Axis,
        sought: Sought<'_>,
    ) -> Result<(), AllocError>
        ensures { OnOk result (found.new ≡ found.old ++ met_on axis sought.entry self.now.forest.nodes from.number) }
    {
        push_on_axis(
            found,
            &self.rows,
            &self.slots,
            &self.hints,
            from,
            axis,
            sought,
        )
    }

    /// The node at a place, from 0, among those on an axis from a node that are sought. The walk goes no further.
    pub fn chosen_at(
        &self,
        from: NodeId,
        axis: Axis,
        sought: Sought<'_>,
        place: usize,
    ) -> Option<NodeId>
        ensures { option_map (λ n. n.number) result ≡ slice_get (met_on axis sought.entry self.now.forest.nodes from.number) place }
    {
        let found = row_on_axis(
            &self.rows,
            &self.slots,
            &self.hints,
            from,
            axis,
            sought,
            place,
        )?;
        let place = self.rows.at(found).key;
        Some(NodeId {
            number: number_of(&self.slots, place),
            place,
        })
    }
}
